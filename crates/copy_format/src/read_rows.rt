//! Rows, read back from their items.

ghost use Rattle.std.specs.Prelude.{◌≡◌, List, IfOk, IfSome, None, map, true};
ghost use Rattle.std.specs.Cmp.Lexicographic.{slice_cmp};
ghost use Rattle.std.specs.List.{AllByRecursion};
ghost use Rattle.std.specs.Ordering.{is_lt, nat_cmp};
ghost use Rattle.keeper_memory.specs.copy.Lists.{IsList, last_from};
ghost use Rattle.item_maps.specs.Edits.{entry_of};
ghost use Rattle.roster_types.specs.Keys.{is_after};
ghost use Rattle.roster_types.specs.Records.{Record};
ghost use Rattle.hub_format.specs.Pieces.{IsSized, sized};
ghost use Rattle.copy_format.specs.Bodies.{row_body};
ghost use Rattle.copy_format.specs.Format.{IsRowOf, row_entry, rows_under};

use hub_format::sized_at;
use item_maps::Item;
use roster_base::{NoMemory, Refusal};
use roster_texts::Id;
use roster_types::row::Row;
use roster_values::Kind;
use row_json::read_row;
use std::alloc::Global;

// The text of a body, if it is all that stands there behind its length.
fn only_text(body: &[u8]) -> Option<&[u8]>
    ensures text { IfSome result (λ text. body.now ≡ sized text.now) }
    ensures small { IfSome result (λ text. IsSized text.now) }
{
    let (text, rest) = sized_at(body)?;
    if rest.is_empty() { Some(text) } else { None }
}

// The row of a body, if it is one of this kind.
fn row_of_body(alloc: Global, kind: Kind, body: &[u8]) -> Result<Option<Row>, NoMemory>
    ensures found { (row : Record) → IsRowOf kind row → body.now ≡ row_body row
        → IfOk result (λ o. IfSome o (λ found. found ≡ row)) }
    ensures kind { IfOk result (λ o. IfSome o (λ found. found.kind ≡ kind)) }
{
    let Some(text) = only_text(body) else {
        return Ok(None);
    };
    match read_row(alloc, kind, text) {
        Ok(row) => Ok(Some(row)),
        Err(Refusal::NoMemory) => Err(NoMemory),
        Err(Refusal::Fault(_)) => Ok(None),
    }
}

// The row, if this is its id.
fn with_id(row: Row, id: &[u8]) -> Option<Row>
    ensures same { IfSome result (λ found. found ≡ row) }
    ensures id { IfSome result (λ found. found.id ≡ id.now) }
{
    if row.id().as_str().as_bytes() == id {
        Some(row)
    } else {
        None
    }
}

// The row of an item. None where it is no row's item, or another row's.
fn row_of(alloc: Global, kind: Kind, item: &Item) -> Result<Option<Row>, NoMemory>
    ensures found { (row : Record) → IsRowOf kind row → entry_of item.now ≡ row_entry row
        → IfOk result (λ o. IfSome o (λ found. found ≡ row)) }
    ensures kind { IfOk result (λ o. IfSome o (λ found. found.kind ≡ kind)) }
    ensures id { IfOk result (λ o. IfSome o (λ found. found.id ≡ item.now.label)) }
{
    match row_of_body(alloc, kind, item.body.as_slice())? {
        Some(row) => Ok(with_id(row, item.label.as_slice())),
        None => Ok(None),
    }
}

// Whether an id stands before another.
fn is_below(low: &Id, high: &Id) -> bool
    ensures { result ≡ is_lt (slice_cmp nat_cmp low.now high.now) }
{
    low.as_str().cmp(high.as_str()).is_lt()
}

// Whether a row stands behind the last of others.
fn is_behind(rows: &[Row], row: &Row) -> bool
    ensures { result ≡ is_after (last_from None rows.now) row.now.id }
{
    match rows.last() {
        Some(last) => is_below(last.id(), row.id()),
        None => true,
    }
}

// The row of an item, if it stands behind these.
fn next_row(alloc: Global, kind: Kind, rows: &[Row], item: &Item) -> Result<Option<Row>, NoMemory>
    ensures found { (row : Record) → IsRowOf kind row → entry_of item.now ≡ row_entry row
        → IfOk result (λ o. IfSome o (λ found. found ≡ row)) }
    ensures kind { IfOk result (λ o. IfSome o (λ found. found.kind ≡ kind)) }
    ensures behind { IfOk result (λ o. IfSome o (λ found. is_after (last_from None rows.now) found.id ≡ true)) }
{
    match row_of(alloc, kind, item)? {
        Some(row) if is_behind(rows, &row) => Ok(Some(row)),
        _ => Ok(None),
    }
}

/// The rows of a kind, from their items. None where one is no row's item, or another row's, or where they don't stand
/// in the order of their ids.
pub fn rows_of(alloc: Global, kind: Kind, items: &[Item]) -> Result<Option<Vec<Row>>, NoMemory>
    ensures found { (rows : List Record) → AllByRecursion (IsRowOf kind) rows → map entry_of items.now ≡ rows_under rows
        → IfOk result (λ o. IfSome o (λ found. found.items ≡ rows)) }
    ensures list { IfOk result (λ o. IfSome o (λ found. IsList kind found.items)) }
{
    let mut found = Vec::new(alloc);
    for item in items {
        let Some(row) = next_row(alloc, kind, found.as_slice(), item)? else {
            return Ok(None);
        };
        found.push(row)?;
    }
    Ok(Some(found))
}
