//! The spans of a store, read piece by piece: the rows of a piece are made, and its items go, before the next one is
//! read.

ghost use Rattle.std.specs.Prelude.{◌≡◌, ◌∷◌, ◌++◌, ◌≢◌, [], ℕ, List, IfOk, IfSome, IsTrue, OnOk, map};
ghost use Rattle.roster_base.specs.Faults.{CountsFailure};
ghost use Rattle.item_maps.specs.Edits.{entry_of};
ghost use Rattle.item_maps.specs.Items.{Items as Kept, listed};
ghost use Rattle.hub_format.specs.Areas.{spans_area};
ghost use Rattle.hub_format.specs.Format.{Entry};
ghost use Rattle.hub_format.specs.Pieces.{labels_end};
ghost use Rattle.span_format.specs.Reading.{came};
ghost use Rattle.keeper_sqlite.specs.hub.Keeping.{Stay};
ghost use Rattle.keeper_sqlite.specs.hub.Rows.{AreLaid, AreMade, AreRead, laid_at};

use crate::rest::Rest;
use crate::stored_items::StoredItems;
use hub_format::HubArea;
use item_maps::Item;
use roster_base::{Items, KeeperError, NoMemory};
use span_format::rows_within;
use std::alloc::Global;
use std::collections::BTreeMap;
use version_core::row_change::RowChange;

/// Items by the version in which their spans came.
pub type ByVersion = BTreeMap<u64, Items<Item>>;

// The version in which the row of a span's label came.
fn came_in(label: &[u8]) -> Option<u64>
    ensures { IfSome result (λ version. version ≡ came label.now) }
{
    let (_, first) = label.split_last_chunk::<8>()?;
    Some(u64::from_be_bytes(*first))
}

// Adds an item to those of a version.
fn push_item(alloc: Global, version: u64, item: Item, laid: &mut ByVersion) -> Result<(), NoMemory>
    ensures here { OnOk result (laid_at laid.new version ≡ laid_at laid.old version ++ item ∷ []) }
    ensures others { OnOk result ((v : ℕ) → v ≢ version → laid_at laid.new v ≡ laid_at laid.old v) }
{
    laid.entry(version)?.or_insert(Items::new(alloc)).push(item)
}

// Lays out an item, if it came behind the base. False where its label tells no version.
fn lay_item(alloc: Global, base: u64, item: Item, laid: &mut ByVersion) -> Result<bool, NoMemory>
    ensures { (seen : List Entry) → AreLaid base seen laid.old
        → IfOk result (λ done. IsTrue done → AreLaid base (seen ++ entry_of item ∷ []) laid.new) }
{
    let Some(version) = came_in(item.label.as_slice()) else {
        return Ok(false);
    };
    if version <= base {
        return Ok(true);
    }
    push_item(alloc, version, item, laid)?;
    Ok(true)
}

// Lays out the items that came behind the base, and lets the others go. False where a label tells no version.
fn lay_out(
    alloc: Global,
    base: u64,
    items: Vec<Item>,
    laid: &mut ByVersion,
) -> Result<bool, NoMemory>
    ensures { (seen : List Entry) → AreLaid base seen laid.old
        → IfOk result (λ done. IsTrue done → AreLaid base (seen ++ map entry_of items.items) laid.new) }
{
    for item in items {
        if !lay_item(alloc, base, item, laid)? {
            return Ok(false);
        }
    }
    Ok(true)
}

/// What is read of spans: the rows that came up to the base's version, and the items of those that came later.
#[derive(Drop)]
pub(crate) struct SpanRows {
    pub rows: Vec<RowChange>,
    pub later: ByVersion,
}

// Adds the rows of the spans that came up to the base's version. False where an item is no row's, or another row's.
fn push_rows(
    alloc: Global,
    base: u64,
    items: &[Item],
    rows: &mut Vec<RowChange>,
) -> Result<bool, NoMemory>
    ensures { (seen : List Entry) → AreMade base seen rows.old.items
        → IfOk result (λ done. IsTrue done → AreMade base (seen ++ map entry_of items.now) rows.new.items) }
{
    match rows_within(alloc, 0, base, items)? {
        Some(mut more) => {
            rows.append(&mut more)?;
            Ok(true)
        }
        None => Ok(false),
    }
}

// Adds what these items are. False where one is no span's.
fn take_in(
    alloc: Global,
    base: u64,
    items: Vec<Item>,
    read: &mut SpanRows,
) -> Result<bool, NoMemory>
    ensures { (seen : List Entry) → AreRead base seen read.old.rows.items read.old.later
        → IfOk result (λ done. IsTrue done
        → AreRead base (seen ++ map entry_of items.items) read.new.rows.items read.new.later) }
{
    if !push_rows(alloc, base, items.as_slice(), &mut read.rows)? {
        return Ok(false);
    }
    lay_out(alloc, base, items, &mut read.later)
}

// Reads all spans, behind a base of this version.
fn read_all<S: StoredItems>(
    alloc: Global,
    store: &mut S,
    base: u64,
    read: &mut SpanRows,
) -> Result<(), KeeperError>
    ensures read { (m : Kept) → S.stands_for store.old m → S.is_trusted store.new
        → AreRead base [] read.old.rows.items read.old.later
        → OnOk result (AreRead base (listed spans_area [] labels_end m) read.new.rows.items read.new.later) }
    ensures same { Stay (S.stands_for store.old) (S.stands_for store.new) }
    ensures cause { CountsFailure (S.fault_count store.old) (S.fault_count store.new) result }
    ensures trust { S.is_trusted store.new → S.is_trusted store.old }
    ensures held { Stay (S.may_hold store.new) (S.may_hold store.old) }
    ensures signs { Stay (S.shows store.new) (S.shows store.old) }
{
    let mut rest = Rest::all(alloc, HubArea::Spans.number());
    'pieces: for _ in 0..u64::MAX {
        let items = rest.next(alloc, store)?;
        if !take_in(alloc, base, items, read)? {
            return Err(store.refuse());
        }
        if rest.is_over() {
            return Ok(());
        }
    }
    Err(store.refuse())
}

/// What the spans say, behind a base of this version.
pub(crate) fn span_rows<S: StoredItems>(
    alloc: Global,
    store: &mut S,
    base: u64,
) -> Result<SpanRows, KeeperError>
    ensures read { (m : Kept) → S.stands_for store.old m → S.is_trusted store.new
        → IfOk result (λ read. AreRead base (listed spans_area [] labels_end m) read.rows.items read.later) }
    ensures same { Stay (S.stands_for store.old) (S.stands_for store.new) }
    ensures cause { CountsFailure (S.fault_count store.old) (S.fault_count store.new) result }
    ensures trust { S.is_trusted store.new → S.is_trusted store.old }
    ensures held { Stay (S.may_hold store.new) (S.may_hold store.old) }
    ensures signs { Stay (S.shows store.new) (S.shows store.old) }
{
    let mut read = SpanRows {
        rows: Vec::new(alloc),
        later: BTreeMap::new(alloc),
    };
    read_all(alloc, store, base, &mut read)?;
    Ok(read)
}
