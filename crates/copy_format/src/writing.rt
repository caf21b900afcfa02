//! The edits that store what a copy is made of.

ghost use Rattle.std.specs.Prelude.{◌≡◌, ◌++◌, [], IfOk, None, Ok, OnOk, map};
ghost use Rattle.hub_format.specs.Edits.{put_at, puts};
ghost use Rattle.hub_format.specs.Pieces.{IsSized};
ghost use Rattle.copy_format.specs.Areas.{area_number, outbox_area, stage_area, state_area, token_area};
ghost use Rattle.copy_format.specs.Bodies.{out_body, row_body, stage_body};
ghost use Rattle.copy_format.specs.Edits.{clear_rows as cleared_rows, clear_side, clear_stage};
ghost use Rattle.copy_format.specs.Format.{FitRows, FitsRow, out_entry, row_entry, rows_under};
ghost use Rattle.row_json.specs.Json.{single_text as text_of};
ghost use Rattle.row_json.specs.Reading.{row_of};
ghost use Rattle.copy_format.specs.Roots.{root_entry};

use crate::area::CopyArea;
use crate::pieces::{push_optional_id, push_optional_number, push_optional_settled, push_write};
use crate::root::CopyRoot;
use hub_format::{END_BYTE, number_bytes, push_number, push_sized};
use item_maps::Edit;
use keeper_memory::{OutEntry, StageState};
use roster_base::{Bytes, NoMemory};
use roster_texts::Token;
use roster_types::row::Row;
use roster_values::Kind;
use row_json::single_text;
use std::alloc::Global;

/// The edit that stores the state of a copy.
pub(crate) fn put_root(alloc: Global, root: CopyRoot) -> Result<Edit, NoMemory>
    ensures { IfOk result (λ edit. edit ≡ put_at state_area (root_entry root)) }
{
    let mut body = Vec::new(alloc);
    push_number(&mut body, root.run)?;
    push_optional_number(&mut body, root.held)?;
    body.push(root.side)?;
    push_number(&mut body, root.last_number)?;
    Ok(Edit::Put {
        area: CopyArea::State.number(),
        label: Bytes::from_vec(Vec::new(alloc)),
        body: Bytes::from_vec(body),
    })
}

fn stage_body(alloc: Global, stage: &StageState) -> Result<Bytes, NoMemory>
    ensures body { IfOk result (λ body. body ≡ stage_body stage.now) }
    ensures token { OnOk result (IsSized stage.now.token) }
{
    let mut body = Vec::new(alloc);
    push_number(&mut body, stage.pin)?;
    push_sized(&mut body, stage.token.as_str().as_bytes())?;
    body.push(stage.kinds_done)?;
    push_number(&mut body, stage.staged)?;
    push_optional_number(&mut body, stage.total)?;
    push_optional_id(&mut body, &stage.last)?;
    Ok(Bytes::from_vec(body))
}

/// The edit that stores the small part of a stage.
pub(crate) fn put_stage(alloc: Global, stage: &StageState) -> Result<Edit, NoMemory>
    ensures edit { IfOk result (λ edit. edit ≡ put_at stage_area ([], stage_body stage.now)) }
    ensures token { OnOk result (IsSized stage.now.token) }
{
    Ok(Edit::Put {
        area: CopyArea::Stage.number(),
        label: Bytes::from_vec(Vec::new(alloc)),
        body: stage_body(alloc, stage)?,
    })
}

/// The edit that stores the token under which what is held was copied.
pub(crate) fn put_token(alloc: Global, token: &Token) -> Result<Edit, NoMemory>
    ensures { IfOk result (λ edit. edit ≡ put_at token_area ([], token.now)) }
{
    let mut body = Vec::new(alloc);
    body.extend_from_slice(token.as_str().as_bytes())?;
    Ok(Edit::Put {
        area: CopyArea::Token.number(),
        label: Bytes::from_vec(Vec::new(alloc)),
        body: Bytes::from_vec(body),
    })
}

fn out_body(alloc: Global, entry: &OutEntry) -> Result<Bytes, NoMemory>
    ensures body { IfOk result (λ body. body ≡ out_body entry.now) }
    ensures id { OnOk result (IsSized entry.now.write.id) }
{
    let mut body = Vec::new(alloc);
    push_write(&mut body, &entry.write)?;
    push_optional_settled(&mut body, entry.settled)?;
    Ok(Bytes::from_vec(body))
}

/// The edit that stores an entry.
pub(crate) fn put_out(alloc: Global, entry: &OutEntry) -> Result<Edit, NoMemory>
    ensures edit { IfOk result (λ edit. edit ≡ put_at outbox_area (out_entry entry.now)) }
    ensures id { OnOk result (IsSized entry.now.write.id) }
{
    Ok(Edit::Put {
        area: CopyArea::Outbox.number(),
        label: Bytes::from_vec(number_bytes(alloc, entry.number)?),
        body: out_body(alloc, entry)?,
    })
}

// A row's text, from which it is read back.
fn row_body(alloc: Global, row: &Row) -> Result<Bytes, NoMemory>
    ensures body { IfOk result (λ body. body ≡ row_body row.now) }
    ensures text { OnOk result (IsSized (text_of None row.now)) }
    ensures back { OnOk result (row_of row.now.kind (text_of None row.now) ≡ Ok row.now) }
{
    let mut body = Vec::new(alloc);
    let text = single_text(alloc, row, None)?;
    push_sized(&mut body, text.as_bytes())?;
    Ok(Bytes::from_vec(body))
}

fn put_row(alloc: Global, area: CopyArea, row: &Row) -> Result<Edit, NoMemory>
    ensures edit { IfOk result (λ edit. edit ≡ put_at (area_number area) (row_entry row.now)) }
    ensures fits { OnOk result (FitsRow row.now) }
{
    let mut label = Vec::new(alloc);
    label.extend_from_slice(row.id().as_str().as_bytes())?;
    Ok(Edit::Put {
        area: area.number(),
        label: Bytes::from_vec(label),
        body: row_body(alloc, row)?,
    })
}

/// Adds the edits that store rows in an area.
pub(crate) fn put_rows(
    alloc: Global,
    edits: &mut Vec<Edit>,
    area: CopyArea,
    rows: &[Row],
) -> Result<(), NoMemory>
    ensures edits { OnOk result (edits.new.items ≡ edits.old.items ++ puts (area_number area) (rows_under rows.now)) }
    ensures fit { OnOk result (FitRows rows.now) }
{
    for row in rows {
        edits.push(put_row(alloc, area, row)?)?;
    }
    Ok(())
}

// The edit that takes away the rows of a kind. No id begins with 255.
fn clear_rows(alloc: Global, side: u8, kind: Kind) -> Result<Edit, NoMemory>
    ensures { IfOk result (λ edit. edit ≡ cleared_rows side kind) }
{
    Ok(Edit::Clear {
        area: CopyArea::Rows { side, kind }.number(),
        from: Bytes::from_vec(Vec::new(alloc)),
        to: Bytes::from_vec(Vec::from_slice(alloc, &[END_BYTE])?),
    })
}

// Adds the edits that take away the rows of kinds.
fn push_clears(
    alloc: Global,
    edits: &mut Vec<Edit>,
    side: u8,
    kinds: &[Kind],
) -> Result<(), NoMemory>
    ensures { OnOk result (edits.new.items ≡ edits.old.items ++ map (cleared_rows side) kinds.now) }
{
    for kind in kinds {
        edits.push(clear_rows(alloc, side, *kind)?)?;
    }
    Ok(())
}

/// Adds the edits that take away the rows of a side.
pub(crate) fn push_clear_side(
    alloc: Global,
    edits: &mut Vec<Edit>,
    side: u8,
) -> Result<(), NoMemory>
    ensures { OnOk result (edits.new.items ≡ edits.old.items ++ clear_side side) }
{
    push_clears(alloc, edits, side, &Kind::ALL)
}

/// Adds the edits that take away the stage's item and the rows of a side.
pub(crate) fn push_clear_stage(
    alloc: Global,
    edits: &mut Vec<Edit>,
    side: u8,
) -> Result<(), NoMemory>
    ensures { OnOk result (edits.new.items ≡ edits.old.items ++ clear_stage side) }
{
    edits.push(Edit::Clear {
        area: CopyArea::Stage.number(),
        from: Bytes::from_vec(Vec::new(alloc)),
        to: Bytes::from_vec(Vec::from_slice(alloc, &[0])?),
    })?;
    push_clear_side(alloc, edits, side)
}
