//! Rows, read back from their items.

ghost use Rattle.std.specs.Prelude.{◌≡◌, ◌∷◌, ◌++◌, ℕ, List, IfOk, IfSome, drop, length, map};
ghost use Rattle.std.specs.List.{AllByRecursion};
ghost use Rattle.item_maps.specs.Edits.{entry_of};
ghost use Rattle.item_maps.specs.declared.item.Item.{Item as ItemValue};
ghost use Rattle.roster_values.specs.Kinds.{place_of_kind};
ghost use Rattle.version_core.specs.Changes.{change_key};
ghost use Rattle.version_core.specs.declared.row_change.RowChange.{RowChange as RowValue};
ghost use Rattle.hub_format.specs.Format.{row_entry, rows_under};
ghost use Rattle.hub_format.specs.Pieces.{IsReadBack, IsSized, key_label, owner_bytes, owner_name, row_body, sized};

use crate::reading::{behind, kind_of, name_of, sized_at};
use item_maps::Item;
use roster_base::{NoMemory, Refusal};
use roster_texts::Name;
use roster_types::owner::Owner;
use roster_values::Kind;
use row_json::read_row;
use std::alloc::Global;
use version_core::row_change::RowChange;

// The owner of a name: a caller under 0, a feed under 1.
fn owner_of(byte: u8, name: Name) -> Option<Owner>
    ensures bytes { IfSome result (λ owner. byte ∷ sized name ≡ owner_bytes owner) }
    ensures name { IfSome result (λ owner. owner_name owner ≡ name) }
{
    match byte {
        0 => Some(Owner::Caller(name)),
        1 => Some(Owner::Feed(name)),
        _ => None,
    }
}

// The byte in front, the name and the text behind it, and nothing else.
fn parts_of(body: &[u8]) -> Option<(u8, &[u8], &[u8])>
    ensures parts { IfSome result (λ p. body.now ≡ p.0 ∷ sized p.1.now ++ sized p.2.now) }
    ensures name { IfSome result (λ p. IsSized p.1.now) }
    ensures text { IfSome result (λ p. IsSized p.2.now) }
{
    let (byte, rest) = body.split_first()?;
    let (name, rest) = sized_at(rest)?;
    let (text, rest) = sized_at(rest)?;
    if rest.is_empty() {
        Some((*byte, name, text))
    } else {
        None
    }
}

/// The row and the owner of a body, if it is one of a row of this kind.
pub fn row_of_body(alloc: Global, kind: Kind, body: &[u8]) -> Result<Option<RowChange>, NoMemory>
    ensures row { (change : RowValue) → IsReadBack change → change.row.kind ≡ kind → body.now ≡ row_body change
        → IfOk result (λ o. IfSome o (λ found. found ≡ change)) }
    ensures kind { IfOk result (λ o. IfSome o (λ found. found.row.kind ≡ kind)) }
{
    let Some((byte, name, text)) = parts_of(body) else {
        return Ok(None);
    };
    let Some(name) = name_of(alloc, name)? else {
        return Ok(None);
    };
    let Some(owner) = owner_of(byte, name) else {
        return Ok(None);
    };
    match read_row(alloc, kind, text) {
        Ok(row) => Ok(Some(RowChange { row, owner })),
        Err(Refusal::NoMemory) => Err(NoMemory),
        Err(Refusal::Fault(_)) => Ok(None),
    }
}

/// The kind and the id of a key's label.
pub fn key_of(label: &[u8]) -> Option<(Kind, &[u8])>
    ensures { IfSome result (λ key. label.now ≡ place_of_kind key.0 ∷ key.1.now) }
{
    let (byte, id) = label.split_first()?;
    Some((kind_of(*byte)?, id))
}

/// The row, if this is its id.
pub fn with_id(row: RowChange, id: &[u8]) -> Option<RowChange>
    ensures same { IfSome result (λ found. found ≡ row) }
    ensures id { IfSome result (λ found. found.row.id ≡ id.now) }
{
    if row.row.id().as_str().as_bytes() == id {
        Some(row)
    } else {
        None
    }
}

// The row of an item whose label has so many bytes in front of the row's key. None where it is no row's item, or
// another row's.
fn row_of(alloc: Global, skip: usize, item: &Item) -> Result<Option<RowChange>, NoMemory>
    ensures found { (prefix : List ℕ) (row : RowValue) → length prefix ≡ skip → IsReadBack row
        → entry_of item.now ≡ row_entry prefix row → IfOk result (λ o. IfSome o (λ found. found ≡ row)) }
    ensures key { IfOk result (λ o. IfSome o (λ found. drop skip item.now.label ≡ key_label (change_key found))) }
{
    let Some((kind, id)) = key_of(behind(item.label.as_slice(), skip)) else {
        return Ok(None);
    };
    match row_of_body(alloc, kind, item.body.as_slice())? {
        Some(row) => Ok(with_id(row, id)),
        None => Ok(None),
    }
}

/// The rows of items whose labels have so many bytes in front of the rows' keys. None where one is no row's item, or
/// another row's.
pub fn rows_of(
    alloc: Global,
    skip: usize,
    items: &[Item],
) -> Result<Option<Vec<RowChange>>, NoMemory>
    ensures found { (prefix : List ℕ) (rows : List RowValue) → length prefix ≡ skip → AllByRecursion IsReadBack rows
        → map entry_of items.now ≡ rows_under prefix rows
        → IfOk result (λ o. IfSome o (λ found. found.items ≡ rows)) }
    ensures keys { IfOk result
        (λ o. IfSome o (λ found. map (λ (item : ItemValue). drop skip item.label) items.now
        ≡ map (λ row. key_label (change_key row)) found.items)) }
{
    let mut found = Vec::new(alloc);
    for item in items {
        let Some(row) = row_of(alloc, skip, item)? else {
            return Ok(None);
        };
        found.push(row)?;
    }
    Ok(Some(found))
}
