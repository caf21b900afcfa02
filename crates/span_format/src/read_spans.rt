//! Rows, read back from the items of spans.

ghost use Rattle.std.specs.Prelude.{◌≡◌, ◌∷◌, ◌++◌, [], ◌&&◌, List, IfOk, IfSome, IsTrue, false, map, nat_le, true};
ghost use Rattle.std.specs.List.{AllByRecursion};
ghost use Rattle.item_maps.specs.Edits.{entry_of};
ghost use Rattle.version_core.specs.Changes.{change_key};
ghost use Rattle.version_core.specs.declared.row_change.RowChange.{RowChange as RowValue};
ghost use Rattle.hub_format.specs.Format.{where_label};
ghost use Rattle.hub_format.specs.Pieces.{IsReadBack, key_label, row_body};
ghost use Rattle.span_format.specs.Format.{Span, span_entry};
ghost use Rattle.span_format.specs.Reading.{FitsSpan, came_within};

use hub_format::{key_of, label_parts, row_of_body, with_id};
use item_maps::Item;
use roster_base::NoMemory;
use std::alloc::Global;
use version_core::row_change::RowChange;

// The row of a key and a body. None where they are no row's, or another row's.
fn row_at(alloc: Global, key: &[u8], body: &[u8]) -> Result<Option<RowChange>, NoMemory>
    ensures { (row : RowValue) → IsReadBack row → key.now ≡ key_label (change_key row) → body.now ≡ row_body row
        → IfOk result (λ o. IfSome o (λ found. found ≡ row)) }
{
    let Some((kind, id)) = key_of(key) else {
        return Ok(None);
    };
    match row_of_body(alloc, kind, body)? {
        Some(row) => Ok(with_id(row, id)),
        None => Ok(None),
    }
}

// Whether a version is one of these.
fn is_within(low: u64, high: u64, first: u64) -> bool
    ensures { result ≡ (nat_le low first && nat_le first high) }
{
    low <= first && first <= high
}

// Adds the row of a span, if it came in one of these versions. False where the item is no row's, or another row's.
fn push_span(
    alloc: Global,
    low: u64,
    high: u64,
    item: &Item,
    found: &mut Vec<RowChange>,
) -> Result<bool, NoMemory>
    ensures other { came_within low high item.now.label ≡ false
        → IfOk result (λ done. IsTrue done → found.new.items ≡ found.old.items) }
    ensures taken { (s : Span) → FitsSpan s → entry_of item.now ≡ span_entry s
        → came_within low high item.now.label ≡ true
        → IfOk result (λ done. IsTrue done → found.new.items ≡ found.old.items ++ s.change ∷ []) }
{
    let Some((key, first)) = label_parts(item.label.as_slice()) else {
        return Ok(false);
    };
    if !is_within(low, high, first) {
        return Ok(true);
    }
    match row_at(alloc, key, item.body.as_slice())? {
        Some(row) => {
            found.push(row)?;
            Ok(true)
        }
        None => Ok(false),
    }
}

/// The rows that came in these versions, from the items of all spans. None where one is no row's item, or another
/// row's.
pub fn rows_within(
    alloc: Global,
    low: u64,
    high: u64,
    items: &[Item],
) -> Result<Option<Vec<RowChange>>, NoMemory>
    ensures { (spans : List Span) → AllByRecursion FitsSpan spans
        → where_label (came_within low high) (map entry_of items.now) ≡ map span_entry spans
        → IfOk result (λ o. IfSome o (λ found. found.items ≡ map (λ s. s.change) spans)) }
{
    let mut found = Vec::new(alloc);
    for item in items {
        if !push_span(alloc, low, high, item, &mut found)? {
            return Ok(None);
        }
    }
    Ok(Some(found))
}
