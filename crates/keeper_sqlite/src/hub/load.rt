//! What a store keeps beside the base's rows, read back.

ghost use Rattle.std.specs.Prelude.{◌≡◌, ◌∷◌, ◌++◌, ◌+◌, ◌<◌, ◌≤◌, ◌^◌, [], List, Option, None, Some, IfOk, OnOk};
ghost use Rattle.std.specs.Prelude.{false, map, true};
ghost use Rattle.std.specs.List.{AllByRecursion};
ghost use Rattle.std.specs.Option.{ForSome};
ghost use Rattle.roster_base.specs.Faults.{CountsFailure};
ghost use Rattle.item_maps.specs.Edits.{entry_of};
ghost use Rattle.item_maps.specs.Items.{Items as Kept};
ghost use Rattle.version_core.specs.Version.{last_version};
ghost use Rattle.version_core.specs.declared.change.Change.{Change as ChangeValue};
ghost use Rattle.version_core.specs.declared.grant_row.GrantRow.{GrantRow as GrantValue};
ghost use Rattle.version_core.specs.declared.hub_tables.HubTables.{HubTables as Tables};
ghost use Rattle.hub_format.specs.Areas.{grants_area, versions_area};
ghost use Rattle.hub_format.specs.Format.{Entry, FitsChange, FitsGrant, grants_under, listed_of, own_grants};
ghost use Rattle.hub_format.specs.Format.{own_version, some_grants};
ghost use Rattle.hub_format.specs.Pieces.{has_grants};
ghost use Rattle.keeper_sqlite.specs.hub.Keeping.{Stay};
ghost use Rattle.keeper_sqlite.specs.hub.Rows.{HasChanges, HasTables, TellLater};
ghost use Rattle.keeper_sqlite.specs.Trust.{Clean};

use crate::hub::rows::{ChangeRows, change_rows};
use crate::hub::state::items_of_version;
use crate::stored_items::StoredItems;
use hub_format::{END_BYTE, HubArea, grants_of, marks_of, version_of};
use item_maps::Item;
use roster_base::{Items, KeeperError, NoMemory};
use std::alloc::Global;
use version_core::change::Change;
use version_core::grant_row::GrantRow;
use version_core::mark::MarkRow;

/// The grants behind a version's number.
pub(crate) fn grants_at<S: StoredItems>(
    alloc: Global,
    store: &mut S,
    version: u64,
) -> Result<Items<GrantRow>, KeeperError>
    requires { version + 1 < 2 ^ 64 }
    ensures grants { (m : Kept) (grants : List GrantValue) → S.stands_for store.old m → AllByRecursion FitsGrant grants
        → listed_of grants_area version m ≡ grants_under version grants
        → S.is_trusted store.new → IfOk result (λ found. found ≡ grants) }
    ensures same { Stay (S.stands_for store.old) (S.stands_for store.new) }
    ensures cause { CountsFailure (S.fault_count store.old) (S.fault_count store.new) result }
    ensures trust { S.is_trusted store.new → S.is_trusted store.old }
    ensures held { Stay (S.may_hold store.new) (S.may_hold store.old) }
    ensures signs { Stay (S.shows store.new) (S.shows store.old) }
{
    let items = items_of_version(alloc, store, HubArea::Grants, version)?;
    match grants_of(alloc, items.as_slice())? {
        Some(grants) => Ok(Items::from_vec(grants)),
        None => Err(store.refuse()),
    }
}

/// The marks of all callers' writes.
pub(crate) fn marks_in<S: StoredItems>(
    alloc: Global,
    store: &mut S,
) -> Result<Items<MarkRow>, KeeperError>
    ensures marks { (t : Tables) → HasTables (S.stands_for store.old) t → S.is_trusted store.new
        → IfOk result (λ marks. marks ≡ t.marks) }
    ensures same { Stay (S.stands_for store.old) (S.stands_for store.new) }
    ensures cause { CountsFailure (S.fault_count store.old) (S.fault_count store.new) result }
    ensures trust { S.is_trusted store.new → S.is_trusted store.old }
    ensures held { Stay (S.may_hold store.new) (S.may_hold store.old) }
    ensures signs { Stay (S.shows store.new) (S.shows store.old) }
    ensures live { S.shows store.new Clean → OnOk result (S.is_trusted store.new) }
{
    let items = store.all_of(alloc, HubArea::Marks.number(), &[], &[END_BYTE])?;
    match marks_of(alloc, items.as_slice())? {
        Some(marks) => Ok(Items::from_vec(marks)),
        None => Err(store.refuse()),
    }
}

// The grants of a change, where it has any of its own.
fn own_grants_at<S: StoredItems>(
    alloc: Global,
    store: &mut S,
    version: u64,
    flag: u8,
) -> Result<Option<Items<GrantRow>>, KeeperError>
    requires { version + 1 < 2 ^ 64 }
    ensures grants { (m : Kept) (grants : Option (List GrantValue)) → S.stands_for store.old m
        → ForSome grants (AllByRecursion FitsGrant) → flag ≡ has_grants grants
        → listed_of grants_area version m ≡ some_grants version grants
        → S.is_trusted store.new → IfOk result (λ found. found ≡ grants) }
    ensures same { Stay (S.stands_for store.old) (S.stands_for store.new) }
    ensures cause { CountsFailure (S.fault_count store.old) (S.fault_count store.new) result }
    ensures trust { S.is_trusted store.new → S.is_trusted store.old }
    ensures held { Stay (S.may_hold store.new) (S.may_hold store.old) }
    ensures signs { Stay (S.shows store.new) (S.shows store.old) }
{
    if flag == 0 {
        return Ok(None);
    }
    let grants = grants_at(alloc, store, version)?;
    Ok(Some(grants))
}

// The change to a version, from the items of the version itself.
fn change_of<S: StoredItems>(
    alloc: Global,
    store: &mut S,
    later: &ChangeRows,
    version: u64,
    items: &[Item],
) -> Result<Change, KeeperError>
    requires { version + 1 < 2 ^ 64 }
    ensures change { (m : Kept) (change : ChangeValue) → S.stands_for store.old m → FitsChange change
        → version ≡ change.version → map entry_of items.now ≡ own_version change
        → TellLater later.now m change → listed_of grants_area version m ≡ own_grants change
        → S.is_trusted store.new → IfOk result (λ found. found ≡ change) }
    ensures same { Stay (S.stands_for store.old) (S.stands_for store.new) }
    ensures cause { CountsFailure (S.fault_count store.old) (S.fault_count store.new) result }
    ensures trust { S.is_trusted store.new → S.is_trusted store.old }
    ensures held { Stay (S.may_hold store.new) (S.may_hold store.old) }
    ensures signs { Stay (S.shows store.new) (S.shows store.old) }
{
    let Some((moment, flag)) = version_of(items) else {
        return Err(store.refuse());
    };
    let rows = change_rows(alloc, store, later, version)?;
    let grants = own_grants_at(alloc, store, version, flag)?;
    Ok(Change {
        version,
        moment,
        rows,
        grants,
    })
}

// Whether there are no items.
fn has_none(items: &[Item]) -> bool
    ensures none { map entry_of items.now ≡ [] → result ≡ true }
    ensures some { (entry : Entry) → map entry_of items.now ≡ entry ∷ [] → result ≡ false }
{
    matches!(items, [])
}

// The change to a version, where one is stored.
fn change_at<S: StoredItems>(
    alloc: Global,
    store: &mut S,
    later: &ChangeRows,
    version: u64,
) -> Result<Option<Change>, KeeperError>
    requires { version + 1 < 2 ^ 64 }
    ensures change { (m : Kept) (change : ChangeValue) → S.stands_for store.old m → FitsChange change
        → version ≡ change.version
        → listed_of versions_area version m ≡ own_version change
        → TellLater later.now m change
        → listed_of grants_area version m ≡ own_grants change → S.is_trusted store.new
        → IfOk result (λ found. found ≡ Some change) }
    ensures none { (m : Kept) → S.stands_for store.old m
        → listed_of versions_area version m ≡ [] → S.is_trusted store.new
        → IfOk result (λ found. found ≡ None) }
    ensures same { Stay (S.stands_for store.old) (S.stands_for store.new) }
    ensures cause { CountsFailure (S.fault_count store.old) (S.fault_count store.new) result }
    ensures trust { S.is_trusted store.new → S.is_trusted store.old }
    ensures held { Stay (S.may_hold store.new) (S.may_hold store.old) }
    ensures signs { Stay (S.shows store.new) (S.shows store.old) }
{
    let items = items_of_version(alloc, store, HubArea::Versions, version)?;
    if has_none(items.as_slice()) {
        return Ok(None);
    }
    let change = change_of(alloc, store, later, version, items.as_slice())?;
    Ok(Some(change))
}

// Adds a change to those that were found.
fn push_change(found: &mut Vec<Change>, change: Change) -> Result<(), NoMemory>
    ensures { OnOk result (found.new.items ≡ found.old.items ++ change ∷ []) }
{
    found.push(change)?;
    Ok(())
}

/// The changes behind the base, up to the first that isn't stored: no more than are kept.
pub(crate) fn changes_in<S: StoredItems>(
    alloc: Global,
    store: &mut S,
    later: &ChangeRows,
    base: u64,
    keep: u32,
) -> Result<Items<Change>, KeeperError>
    requires { base ≤ last_version }
    ensures changes { (t : Tables) → HasChanges (S.stands_for store.old) (TellLater later.now) t → base ≡ t.base.number
        → keep ≡ t.keep → S.is_trusted store.new
        → IfOk result (λ changes. changes ≡ t.changes) }
    ensures same { Stay (S.stands_for store.old) (S.stands_for store.new) }
    ensures cause { CountsFailure (S.fault_count store.old) (S.fault_count store.new) result }
    ensures trust { S.is_trusted store.new → S.is_trusted store.old }
    ensures held { Stay (S.may_hold store.new) (S.may_hold store.old) }
    ensures signs { Stay (S.shows store.new) (S.shows store.old) }
{
    let mut found = Vec::new(alloc);
    for place in 0..keep {
        let Some(change) = change_at(alloc, store, later, base + 1 + place as u64)? else {
            return Ok(Items::from_vec(found));
        };
        push_change(&mut found, change)?;
    }
    Ok(Items::from_vec(found))
}
