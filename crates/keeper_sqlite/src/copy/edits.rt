//! The edits of a change of the copy that a store keeps.

ghost use Rattle.std.specs.Prelude.{◌≡◌, ℕ, IfOk, IfSome, Some};
ghost use Rattle.roster_base.specs.Faults.{CountsFailure};
ghost use Rattle.keeper_memory.specs.copy.Changes.{CanChange};
ghost use Rattle.keeper_memory.specs.copy.Copies.{Copy};
ghost use Rattle.keeper_memory.specs.declared.copy.change.CopyChange.TheVariants.{Drop as Dropped, Enter, Page, Run};
ghost use Rattle.keeper_memory.specs.declared.copy.change.CopyChange.TheVariants.{Settle, Swap};
ghost use Rattle.keeper_sqlite.specs.hub.Keeping.{Stay};
ghost use Rattle.keeper_sqlite.specs.copy.Keeping.{AreEditsOf, HasCopy};

use crate::copy::stored::{stored_entry, stored_root, stored_stage};
use crate::stored_items::StoredItems;
use copy_format::{
    begin_edits, drop_edits, enter_edits, page_edits, run_edits, settle_edits, swap_edits,
};
use item_maps::Edit;
use keeper_memory::{CopyChange, OutEntry};
use roster_base::{Items, KeeperError};
use roster_types::row::Row;
use roster_values::Kind;
use std::alloc::Global;
use version_core::mark::Write;

fn edits_for_run<S: StoredItems>(
    alloc: Global,
    store: &mut S,
    run: u64,
) -> Result<Vec<Edit>, KeeperError>
    ensures edits { (side : ℕ) (c : Copy) → HasCopy (S.stands_for store.old) side c → S.is_trusted store.new
        → IfOk result (λ es. AreEditsOf side c (Run run) es.items) }
    ensures same { Stay (S.stands_for store.old) (S.stands_for store.new) }
    ensures cause { CountsFailure (S.fault_count store.old) (S.fault_count store.new) result }
    ensures trust { S.is_trusted store.new → S.is_trusted store.old }
    ensures held { Stay (S.may_hold store.new) (S.may_hold store.old) }
    ensures signs { Stay (S.shows store.new) (S.shows store.old) }
{
    let root = stored_root(alloc, store)?;
    Ok(run_edits(alloc, root, run)?)
}

// A page is refused where there is no stage, or where it has too many rows.
fn edits_for_page<S: StoredItems>(
    alloc: Global,
    store: &mut S,
    kind: Kind,
    rows: Items<Row>,
    total: u64,
    done: bool,
) -> Result<Vec<Edit>, KeeperError>
    ensures edits { (side : ℕ) (c : Copy) → HasCopy (S.stands_for store.old) side c → S.is_trusted store.new
        → IfOk result (λ es. AreEditsOf side c (Page kind rows total done) es.items) }
    ensures same { Stay (S.stands_for store.old) (S.stands_for store.new) }
    ensures cause { CountsFailure (S.fault_count store.old) (S.fault_count store.new) result }
    ensures trust { S.is_trusted store.new → S.is_trusted store.old }
    ensures held { Stay (S.may_hold store.new) (S.may_hold store.old) }
    ensures signs { Stay (S.shows store.new) (S.shows store.old) }
{
    let root = stored_root(alloc, store)?;
    let Some(stage) = stored_stage(alloc, store)? else {
        return Err(store.refuse());
    };
    match page_edits(root.side, stage, kind, rows, total, done)? {
        Some(edits) => Ok(edits),
        None => Err(store.refuse()),
    }
}

fn edits_for_drop<S: StoredItems>(alloc: Global, store: &mut S) -> Result<Vec<Edit>, KeeperError>
    ensures edits { (side : ℕ) (c : Copy) → HasCopy (S.stands_for store.old) side c → S.is_trusted store.new
        → IfOk result (λ es. AreEditsOf side c Dropped es.items) }
    ensures same { Stay (S.stands_for store.old) (S.stands_for store.new) }
    ensures cause { CountsFailure (S.fault_count store.old) (S.fault_count store.new) result }
    ensures trust { S.is_trusted store.new → S.is_trusted store.old }
    ensures held { Stay (S.may_hold store.new) (S.may_hold store.old) }
    ensures signs { Stay (S.shows store.new) (S.shows store.old) }
{
    let root = stored_root(alloc, store)?;
    Ok(drop_edits(alloc, root.side)?)
}

fn edits_for_swap<S: StoredItems>(alloc: Global, store: &mut S) -> Result<Vec<Edit>, KeeperError>
    ensures edits { (side : ℕ) (c : Copy) → HasCopy (S.stands_for store.old) side c → S.is_trusted store.new
        → IfOk result (λ es. AreEditsOf side c Swap es.items) }
    ensures same { Stay (S.stands_for store.old) (S.stands_for store.new) }
    ensures cause { CountsFailure (S.fault_count store.old) (S.fault_count store.new) result }
    ensures trust { S.is_trusted store.new → S.is_trusted store.old }
    ensures held { Stay (S.may_hold store.new) (S.may_hold store.old) }
    ensures signs { Stay (S.shows store.new) (S.shows store.old) }
{
    let root = stored_root(alloc, store)?;
    match stored_stage(alloc, store)? {
        Some(stage) => Ok(swap_edits(alloc, root, &stage)?),
        None => Err(store.refuse()),
    }
}

// A write is refused where an entry stands above the last number: its place may be taken.
fn edits_for_entry<S: StoredItems>(
    alloc: Global,
    store: &mut S,
    number: u64,
    write: Write,
) -> Result<Vec<Edit>, KeeperError>
    ensures edits { (side : ℕ) (c : Copy) → HasCopy (S.stands_for store.old) side c → S.is_trusted store.new
        → IfOk result (λ es. AreEditsOf side c (Enter number write) es.items) }
    ensures same { Stay (S.stands_for store.old) (S.stands_for store.new) }
    ensures cause { CountsFailure (S.fault_count store.old) (S.fault_count store.new) result }
    ensures trust { S.is_trusted store.new → S.is_trusted store.old }
    ensures held { Stay (S.may_hold store.new) (S.may_hold store.old) }
    ensures signs { Stay (S.shows store.new) (S.shows store.old) }
{
    let root = stored_root(alloc, store)?;
    if stored_entry(alloc, store, root.last_number)?.is_some() {
        return Err(store.refuse());
    }
    Ok(enter_edits(alloc, root, number, write)?)
}

// The entry, if it has this number.
fn numbered(entry: Option<OutEntry>, number: u64) -> Option<OutEntry>
    ensures { IfSome result (λ e. (entry ≡ Some e) × (e.number ≡ number)) }
{
    match entry {
        Some(entry) if entry.number == number => Some(entry),
        _ => None,
    }
}

// An entry is settled only where it stands in the store.
fn edits_for_settling<S: StoredItems>(
    alloc: Global,
    store: &mut S,
    number: u64,
    status: u16,
    version: u64,
) -> Result<Vec<Edit>, KeeperError>
    ensures edits { (side : ℕ) (c : Copy) → HasCopy (S.stands_for store.old) side c
        → CanChange (Settle number status version) c → S.is_trusted store.new
        → IfOk result (λ es. AreEditsOf side c (Settle number status version) es.items) }
    ensures same { Stay (S.stands_for store.old) (S.stands_for store.new) }
    ensures cause { CountsFailure (S.fault_count store.old) (S.fault_count store.new) result }
    ensures trust { S.is_trusted store.new → S.is_trusted store.old }
    ensures held { Stay (S.may_hold store.new) (S.may_hold store.old) }
    ensures signs { Stay (S.shows store.new) (S.shows store.old) }
{
    let found = stored_entry(alloc, store, number.saturating_sub(1))?;
    match numbered(found, number) {
        Some(entry) => Ok(settle_edits(alloc, entry, status, version)?),
        None => Err(store.refuse()),
    }
}

/// The edits of a change, by which the items of a copy become those of the copy after it. Of the store no more is read
/// than what the change is made of.
pub(crate) fn edits_for<S: StoredItems>(
    alloc: Global,
    store: &mut S,
    change: CopyChange,
) -> Result<Vec<Edit>, KeeperError>
    ensures edits { (side : ℕ) (c : Copy) → HasCopy (S.stands_for store.old) side c → CanChange change c
        → S.is_trusted store.new → IfOk result (λ es. AreEditsOf side c change es.items) }
    ensures same { Stay (S.stands_for store.old) (S.stands_for store.new) }
    ensures cause { CountsFailure (S.fault_count store.old) (S.fault_count store.new) result }
    ensures trust { S.is_trusted store.new → S.is_trusted store.old }
    ensures held { Stay (S.may_hold store.new) (S.may_hold store.old) }
    ensures signs { Stay (S.shows store.new) (S.shows store.old) }
{
    match change {
        CopyChange::Run { run } => edits_for_run(alloc, store, run),
        CopyChange::Begin { pin, token } => Ok(begin_edits(alloc, pin, token)?),
        CopyChange::Page {
            kind,
            rows,
            total,
            done,
        } => edits_for_page(alloc, store, kind, rows, total, done),
        CopyChange::Drop => edits_for_drop(alloc, store),
        CopyChange::Swap => edits_for_swap(alloc, store),
        CopyChange::Enter { number, write } => edits_for_entry(alloc, store, number, write),
        CopyChange::Settle {
            number,
            status,
            version,
        } => edits_for_settling(alloc, store, number, status, version),
    }
}
