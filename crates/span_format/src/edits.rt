//! The edits that add a change, and those by which a store of format 1 becomes one of format 2.

ghost use Rattle.std.specs.Prelude.{◌≡◌, ◌++◌, ◌∷◌, [], IfOk, OnOk};
ghost use Rattle.std.specs.List.{AllByRecursion};
ghost use Rattle.item_maps.specs.declared.item.Edit.TheVariants.{Clear};
ghost use Rattle.hub_format.specs.Areas.{base_rows_area, change_rows_area, format_area, names_area, spans_area};
ghost use Rattle.hub_format.specs.Edits.{put_at, puts};
ghost use Rattle.hub_format.specs.Format.{FitsChange, format_entry, written_format};
ghost use Rattle.hub_format.specs.Pieces.{labels_end};
ghost use Rattle.span_format.specs.Edits.{added, brought, turn_edits};
ghost use Rattle.span_format.specs.Format.{FitSpans, HasPlainIds, own_names, own_spans};

use crate::writing::{move_spans, put_names, put_spans};
use hub_format::{END_BYTE, HubArea, WRITTEN_FORMAT, put_format, put_some_grants, put_version};
use item_maps::Edit;
use roster_base::{Bytes, Items, NoMemory};
use std::alloc::Global;
use version_core::change::{BaseVersion, Change};
use version_core::hub_tables::HubTables;

/// The edits that store one change more.
pub(crate) fn added_edits(alloc: Global, change: &Change) -> Result<Vec<Edit>, NoMemory>
    ensures edits { IfOk result (λ edits. edits.items ≡ added change.now) }
    ensures fits { OnOk result (FitsChange change.now) }
    ensures plain { OnOk result (HasPlainIds change.now) }
{
    let mut edits = Vec::new(alloc);
    edits.push(put_version(alloc, change)?)?;
    put_spans(alloc, &mut edits, change.version, change.rows.as_slice())?;
    put_names(alloc, &mut edits, change.version, change.rows.as_slice())?;
    put_some_grants(alloc, &mut edits, change.version, &change.grants)?;
    Ok(edits)
}

// Adds the edits that store the spans and the names of a change from format 1. Its rows are dropped as they are
// written.
fn bring(alloc: Global, edits: &mut Vec<Edit>, change: Change) -> Result<(), NoMemory>
    ensures edits { OnOk result
        (edits.new.items ≡ edits.old.items
        ++ (puts spans_area (own_spans change) ++ puts names_area (own_names change))) }
    ensures plain { OnOk result (HasPlainIds change) }
{
    let Change { version, rows, .. } = change;
    let mut names = Vec::new(alloc);
    put_names(alloc, &mut names, version, rows.as_slice())?;
    move_spans(alloc, edits, version, rows)?;
    edits.append(&mut names)?;
    Ok(())
}

// Adds the edits that store the spans and the names of changes, those of the oldest first.
fn bring_all(alloc: Global, edits: &mut Vec<Edit>, changes: Items<Change>) -> Result<(), NoMemory>
    ensures edits { OnOk result (edits.new.items ≡ edits.old.items ++ brought changes) }
    ensures plain { OnOk result (AllByRecursion HasPlainIds changes) }
{
    for change in changes.into_vec() {
        bring(alloc, edits, change)?;
    }
    Ok(())
}

// The edit that takes away all rows of an area. No label of a row begins with 255.
fn clear_rows(alloc: Global, area: u32) -> Result<Edit, NoMemory>
    ensures { IfOk result (λ edit. edit ≡ Clear area [] labels_end) }
{
    Ok(Edit::Clear {
        area,
        from: Bytes::from_vec(Vec::new(alloc)),
        to: Bytes::from_vec(Vec::from_slice(alloc, &[END_BYTE])?),
    })
}

// The edits that put 2 in place of 1 as the number of the format, and take away the rows of both areas that format 1
// has for them.
fn format_edits(alloc: Global) -> Result<Vec<Edit>, NoMemory>
    ensures { IfOk result (λ edits. edits.items
        ≡ put_at format_area (format_entry written_format) ∷ Clear base_rows_area [] labels_end
        ∷ Clear change_rows_area [] labels_end ∷ []) }
{
    let mut edits = Vec::new(alloc);
    edits.push(put_format(alloc, WRITTEN_FORMAT)?)?;
    edits.push(clear_rows(alloc, HubArea::BaseRows.number())?)?;
    edits.push(clear_rows(alloc, HubArea::ChangeRows.number())?)?;
    Ok(edits)
}

/// The edits by which a store of format 1 with these tables becomes one of format 2. The rows of the tables are dropped
/// as they are written, so that tables and edits don't stand in memory side by side.
pub fn turn_edits(alloc: Global, tables: HubTables) -> Result<Vec<Edit>, NoMemory>
    ensures edits { IfOk result (λ edits. edits.items ≡ turn_edits tables) }
    ensures plain { OnOk result (FitSpans tables) }
{
    let mut edits = format_edits(alloc)?;
    let HubTables { base, changes, .. } = tables;
    let BaseVersion { number, rows, .. } = base;
    move_spans(alloc, &mut edits, number, rows)?;
    bring_all(alloc, &mut edits, changes)?;
    Ok(edits)
}
