//! Where a store has its rows, and the rows read back.

ghost use Rattle.std.specs.Prelude.{◌≡◌, ◌+◌, ◌<◌, ◌^◌, ℕ, List, IfOk, IfSome, length, map};
ghost use Rattle.std.specs.List.{AllByRecursion};
ghost use Rattle.roster_base.specs.Faults.{CountsFailure};
ghost use Rattle.item_maps.specs.Edits.{entry_of};
ghost use Rattle.item_maps.specs.Items.{Items as Kept};
ghost use Rattle.version_core.specs.declared.change.BaseVersion.{BaseVersion as BaseValue};
ghost use Rattle.version_core.specs.declared.change.Change.{Change as ChangeValue};
ghost use Rattle.version_core.specs.declared.row_change.RowChange.{RowChange as RowValue};
ghost use Rattle.hub_format.specs.Format.{rows_under, where_label};
ghost use Rattle.hub_format.specs.Pieces.{IsReadBack};
ghost use Rattle.span_format.specs.Format.{Span, span_entry};
ghost use Rattle.span_format.specs.Reading.{FitsSpan, came_within};
ghost use Rattle.keeper_sqlite.specs.hub.Keeping.{Stay};
ghost use Rattle.keeper_sqlite.specs.hub.Rows.{TellBase, TellChange, TellLater, laid_at};

use crate::hub::spans::{ByVersion, SpanRows, span_rows};
use crate::hub::state::items_of_version;
use crate::stored_items::StoredItems;
use hub_format::{END_BYTE, HubArea, rows_of};
use item_maps::Item;
use roster_base::{KeeperError, NoMemory};
use span_format::rows_within;
use std::alloc::Global;
use version_changes::are_changes;
use version_core::row_change::RowChange;
use version_core::sorted_rows::SortedRows;

/// Where a store has the rows of the base and of the changes.
#[derive(Clone, Copy)]
pub enum StoredRows {
    /// In areas of their own, as in format 1.
    Areas,
    /// As spans, in the area of these.
    Spans,
}

/// Where a store has the rows of the changes, once the base's are read.
#[derive(Drop)]
pub enum ChangeRows {
    /// In an area of their own, as in format 1.
    Area,
    /// In these items of spans, laid out by version.
    Laid(ByVersion),
}

// The items of the spans that came in a version.
fn laid_in(laid: &ByVersion, version: u64) -> &[Item]
    ensures { result.now ≡ laid_at laid.now version }
{
    match laid.get(&version) {
        Some(items) => items.as_slice(),
        None => &[],
    }
}

// The rows, if they stand in order.
fn in_order(rows: Vec<RowChange>) -> Option<SortedRows>
    ensures { IfSome result (λ sorted. sorted ≡ rows.items) }
{
    if are_changes(rows.as_slice()) {
        Some(SortedRows::from_vec(rows))
    } else {
        None
    }
}

// The rows of items whose labels have so many bytes in front of the rows' keys.
fn rows_in(alloc: Global, skip: usize, items: &[Item]) -> Result<Option<SortedRows>, NoMemory>
    ensures { (prefix : List ℕ) (rows : List RowValue) → length prefix ≡ skip → AllByRecursion IsReadBack rows
        → map entry_of items.now ≡ rows_under prefix rows
        → IfOk result (λ o. IfSome o (λ found. found ≡ rows)) }
{
    match rows_of(alloc, skip, items)? {
        Some(rows) => Ok(in_order(rows)),
        None => Ok(None),
    }
}

// The rows of the spans among these items that came in these versions.
fn rows_came(
    alloc: Global,
    low: u64,
    high: u64,
    items: &[Item],
) -> Result<Option<SortedRows>, NoMemory>
    ensures { (spans : List Span) → AllByRecursion FitsSpan spans
        → where_label (came_within low high) (map entry_of items.now) ≡ map span_entry spans
        → IfOk result (λ o. IfSome o (λ found. found ≡ map (λ s. s.change) spans)) }
{
    match rows_within(alloc, low, high, items)? {
        Some(rows) => Ok(in_order(rows)),
        None => Ok(None),
    }
}

/// The rows of the base, and where those of the changes are.
pub(crate) fn base_rows<S: StoredItems>(
    alloc: Global,
    store: &mut S,
    stored: StoredRows,
    number: u64,
) -> Result<(SortedRows, ChangeRows), KeeperError>
    ensures rows { (m : Kept) (base : BaseValue) → S.stands_for store.old m → AllByRecursion IsReadBack base.rows
        → number ≡ base.number → TellBase stored m base
        → S.is_trusted store.new → IfOk result (λ r. r.0 ≡ base.rows) }
    ensures later { (m : Kept) → S.stands_for store.old m → S.is_trusted store.new
        → IfOk result (λ r. (change : ChangeValue) → number < change.version → TellChange stored m change
        → TellLater r.1 m change) }
    ensures same { Stay (S.stands_for store.old) (S.stands_for store.new) }
    ensures cause { CountsFailure (S.fault_count store.old) (S.fault_count store.new) result }
    ensures trust { S.is_trusted store.new → S.is_trusted store.old }
    ensures held { Stay (S.may_hold store.new) (S.may_hold store.old) }
    ensures signs { Stay (S.shows store.new) (S.shows store.old) }
{
    match stored {
        StoredRows::Areas => {
            let items = store.all_of(alloc, HubArea::BaseRows.number(), &[], &[END_BYTE])?;
            match rows_in(alloc, 0, items.as_slice())? {
                Some(rows) => Ok((rows, ChangeRows::Area)),
                None => Err(store.refuse()),
            }
        }
        StoredRows::Spans => {
            let SpanRows { rows, later } = span_rows(alloc, store, number)?;
            match in_order(rows) {
                Some(rows) => Ok((rows, ChangeRows::Laid(later))),
                None => Err(store.refuse()),
            }
        }
    }
}

/// The rows of the change to a version.
pub(crate) fn change_rows<S: StoredItems>(
    alloc: Global,
    store: &mut S,
    later: &ChangeRows,
    version: u64,
) -> Result<SortedRows, KeeperError>
    requires { version + 1 < 2 ^ 64 }
    ensures rows { (m : Kept) (change : ChangeValue) → S.stands_for store.old m → AllByRecursion IsReadBack change.rows
        → version ≡ change.version → TellLater later.now m change
        → S.is_trusted store.new → IfOk result (λ rows. rows ≡ change.rows) }
    ensures same { Stay (S.stands_for store.old) (S.stands_for store.new) }
    ensures cause { CountsFailure (S.fault_count store.old) (S.fault_count store.new) result }
    ensures trust { S.is_trusted store.new → S.is_trusted store.old }
    ensures held { Stay (S.may_hold store.new) (S.may_hold store.old) }
    ensures signs { Stay (S.shows store.new) (S.shows store.old) }
{
    match later {
        ChangeRows::Area => {
            let items = items_of_version(alloc, store, HubArea::ChangeRows, version)?;
            match rows_in(alloc, 8, items.as_slice())? {
                Some(rows) => Ok(rows),
                None => Err(store.refuse()),
            }
        }
        ChangeRows::Laid(laid) => {
            match rows_came(alloc, version, version, laid_in(laid, version))? {
                Some(rows) => Ok(rows),
                None => Err(store.refuse()),
            }
        }
    }
}
