//! Room for the rows of a change.

ghost use Rattle.std.specs.Prelude.{◌≡◌, ◌<◌, ◌≤◌, [], ◌+◌, IfOk, OnOk, length, map, vec_capacity, vec_len};
ghost use Rattle.version_core.specs.Changes.{change_key};
ghost use Rattle.version_core.specs.History.{AllHaveRoom, AreFresh, ArePasts, HaveRoom, pasts_of};
ghost use Rattle.version_core.specs.Room.{key_of};
ghost use Rattle.version_core.specs.declared.row_change.RowChange.{RowChange as RowChangeValue};

use crate::grant_row::GrantRow;
use crate::history::{FreshEntries, History};
use crate::row_change::RowChange;
use crate::since::Since;
use roster_base::{Items, NoMemory, TryCopy};
use roster_texts::{Id, Moment};
use roster_values::Kind;
use std::alloc::Global;

/// The kind and id of a row.
#[derive(Drop)]
pub struct RowKey {
    pub kind: Kind,
    pub id: Id,
}

// A copy of a row's kind and id.
fn key_of(alloc: Global, change: &RowChange) -> Result<RowKey, NoMemory>
    ensures { IfOk result (λ key. key_of key ≡ change_key change.now) }
{
    Ok(RowKey {
        kind: change.row.kind(),
        id: change.row.id().copy(alloc)?,
    })
}

/// The kinds and ids of rows.
pub fn keys_of(alloc: Global, changes: &[RowChange]) -> Result<Vec<RowKey>, NoMemory>
    ensures { IfOk result (λ keys. map key_of keys.items ≡ map change_key changes.now) }
{
    let mut keys = Vec::new(alloc);
    for change in changes {
        keys.push(key_of(alloc, change)?)?;
    }
    Ok(keys)
}

// Room for the first entry of a history.
fn fresh_entries(alloc: Global) -> Result<FreshEntries, NoMemory>
    ensures { IfOk result (λ fresh. (fresh.entries.items ≡ []) × (vec_len fresh.entries < vec_capacity fresh.entries)) }
{
    let entries = Vec::with_capacity(alloc, 1)?;
    Ok(FreshEntries { entries })
}

/// Makes room for the first entries of so many new histories.
pub fn reserve_fresh(
    alloc: Global,
    fresh: &mut Vec<FreshEntries>,
    count: usize,
) -> Result<(), NoMemory>
    requires { AreFresh fresh.old.items }
    ensures fresh { AreFresh fresh.new.items }
    ensures some { OnOk result (count ≤ vec_len fresh.new) }
{
    while fresh.len() < count {
        fresh.push(fresh_entries(alloc)?)?;
    }
    Ok(())
}

/// Makes room for one more entry in the history of each row, where it has one.
pub fn reserve_entries(histories: &mut Vec<History>, changes: &[RowChange]) -> Result<(), NoMemory>
    requires { ArePasts (pasts_of histories.old.items) }
    ensures same { pasts_of histories.new.items ≡ pasts_of histories.old.items }
    ensures len { vec_len histories.new ≡ vec_len histories.old }
    ensures ok { OnOk result (AllHaveRoom changes.now histories.new.items) }
{
    for change in changes {
        reserve_entry(histories, change)?;
    }
    Ok(())
}

// Makes room for one more entry in the history of a row, where it has one.
fn reserve_entry(histories: &mut Vec<History>, change: &RowChange) -> Result<(), NoMemory>
    requires { ArePasts (pasts_of histories.old.items) }
    ensures same { pasts_of histories.new.items ≡ pasts_of histories.old.items }
    ensures len { vec_len histories.new ≡ vec_len histories.old }
    ensures ok { OnOk result (HaveRoom change.now histories.new.items) }
    ensures others { (other : RowChangeValue) → HaveRoom other histories.old.items → HaveRoom other histories.new.items }
{
    let (kind, id) = (change.row.kind(), change.row.id());
    match histories.binary_search_by(|history| history.compare(kind, id)) {
        Ok(place) => histories[place].reserve(),
        Err(_) => Ok(()),
    }
}

/// Makes room for one version more, with these rows: for its moment, its grants, and what its rows add to the
/// histories.
pub fn make_room(
    moments: &mut Vec<Moment>,
    grants: &mut Vec<Since<Items<GrantRow>>>,
    histories: &mut Vec<History>,
    spare: &mut Vec<History>,
    fresh: &mut Vec<FreshEntries>,
    changes: &[RowChange],
) -> Result<(), NoMemory>
    requires pasts { ArePasts (pasts_of histories.old.items) }
    requires fresh { AreFresh fresh.old.items }
    ensures moments { moments.new.items ≡ moments.old.items }
    ensures moments_len { vec_len moments.new ≡ vec_len moments.old }
    ensures moments_room { OnOk result (vec_len moments.new < vec_capacity moments.new) }
    ensures grants { grants.new.items ≡ grants.old.items }
    ensures grants_room { OnOk result (vec_len grants.new < vec_capacity grants.new) }
    ensures histories { pasts_of histories.new.items ≡ pasts_of histories.old.items }
    ensures histories_room { OnOk result (vec_len histories.new + length changes.now ≤ vec_capacity histories.new) }
    ensures grown { OnOk result (AllHaveRoom changes.now histories.new.items) }
    ensures spare { spare.new.items ≡ spare.old.items }
    ensures spare_room { OnOk result (vec_len histories.new + length changes.now ≤ vec_capacity spare.new) }
    ensures fresh { AreFresh fresh.new.items }
    ensures fresh_len { OnOk result (length changes.now ≤ vec_len fresh.new) }
{
    let count = changes.len();
    moments.reserve(1)?;
    grants.reserve(1)?;
    reserve_fresh(*fresh.allocator(), fresh, count)?;
    reserve_entries(histories, changes)?;
    histories.reserve(count)?;
    let all = histories.len().checked_add(count).ok_or(NoMemory)?;
    spare.reserve(all)?;
    Ok(())
}
