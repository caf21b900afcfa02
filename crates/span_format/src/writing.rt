//! The edits that store spans and the names of rows.

ghost use Rattle.std.specs.Prelude.{◌≡◌, ◌++◌, IfOk, OnOk, map};
ghost use Rattle.std.specs.List.{AllByRecursion};
ghost use Rattle.hub_format.specs.Areas.{names_area, spans_area};
ghost use Rattle.hub_format.specs.Edits.{put_at, puts};
ghost use Rattle.hub_format.specs.Pieces.{IsReadBack};
ghost use Rattle.span_format.specs.Edits.{first_edits};
ghost use Rattle.span_format.specs.Format.{HasPlainId, name_entry, row_span, span_entry, spans_from};

use crate::keys::{name_label, span_label};
use hub_format::{HubArea, WRITTEN_FORMAT, put_format, put_state, row_body};
use item_maps::Edit;
use roster_base::{Bytes, NoMemory};
use std::alloc::Global;
use version_core::row_change::RowChange;
use version_core::sorted_rows::SortedRows;

/// The edits of a new store, which keeps version 0 and so many versions beside the newest.
pub fn first_edits(alloc: Global, keep: u32) -> Result<Vec<Edit>, NoMemory>
    ensures { IfOk result (λ edits. edits.items ≡ first_edits keep) }
{
    let mut edits = Vec::new(alloc);
    edits.push(put_format(alloc, WRITTEN_FORMAT)?)?;
    edits.push(put_state(alloc, u64::from(keep), 0, &[0; 8])?)?;
    Ok(edits)
}

fn put_span(alloc: Global, first: u64, row: &RowChange) -> Result<Edit, NoMemory>
    ensures edit { IfOk result (λ edit. edit ≡ put_at spans_area (row_span first row.now)) }
    ensures back { OnOk result (IsReadBack row.now) }
    ensures plain { OnOk result (HasPlainId row.now) }
{
    Ok(Edit::Put {
        area: HubArea::Spans.number(),
        label: span_label(alloc, row.row.kind(), row.row.id(), first)?,
        body: row_body(alloc, row)?,
    })
}

/// Adds the edits that store the rows that came in a version.
pub(crate) fn put_spans(
    alloc: Global,
    edits: &mut Vec<Edit>,
    first: u64,
    rows: &[RowChange],
) -> Result<(), NoMemory>
    ensures edits { OnOk result
        (edits.new.items ≡ edits.old.items ++ puts spans_area (map span_entry (spans_from first rows.now))) }
    ensures back { OnOk result (AllByRecursion IsReadBack rows.now) }
    ensures plain { OnOk result (AllByRecursion HasPlainId rows.now) }
{
    for row in rows {
        edits.push(put_span(alloc, first, row)?)?;
    }
    Ok(())
}

/// Adds the edits that store the rows that came in a version, and lets go of each row as soon as it is written.
pub(crate) fn move_spans(
    alloc: Global,
    edits: &mut Vec<Edit>,
    first: u64,
    rows: SortedRows,
) -> Result<(), NoMemory>
    ensures edits { OnOk result
        (edits.new.items ≡ edits.old.items ++ puts spans_area (map span_entry (spans_from first rows))) }
    ensures plain { OnOk result (AllByRecursion HasPlainId rows) }
{
    for row in rows.into_vec() {
        edits.push(put_span(alloc, first, &row)?)?;
    }
    Ok(())
}

fn put_name(alloc: Global, version: u64, row: &RowChange) -> Result<Edit, NoMemory>
    ensures { IfOk result (λ edit. edit ≡ put_at names_area (name_entry version row.now)) }
{
    Ok(Edit::Put {
        area: HubArea::Names.number(),
        label: name_label(alloc, version, row.row.kind(), row.row.id())?,
        body: Bytes::from_vec(Vec::new(alloc)),
    })
}

/// Adds the edits that store the names of the rows that came in a version.
pub(crate) fn put_names(
    alloc: Global,
    edits: &mut Vec<Edit>,
    version: u64,
    rows: &[RowChange],
) -> Result<(), NoMemory>
    ensures { OnOk result (edits.new.items ≡ edits.old.items ++ puts names_area (map (name_entry version) rows.now)) }
{
    for row in rows {
        edits.push(put_name(alloc, version, row)?)?;
    }
    Ok(())
}
