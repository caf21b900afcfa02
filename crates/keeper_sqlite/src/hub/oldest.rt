//! What a store has of the oldest versions that it keeps.

ghost use Rattle.std.specs.Prelude.{◌≡◌, ◌+◌, ◌-◌, ◌<◌, ◌^◌, IfOk, nat_lt, false};
ghost use Rattle.std.specs.Option.{ForSome};
ghost use Rattle.roster_base.specs.Faults.{CountsFailure};
ghost use Rattle.version_core.specs.declared.hub_tables.HubTables.{HubTables};
ghost use Rattle.span_format.specs.Oldest.{AreOldest, AreOldestFor};
ghost use Rattle.keeper_sqlite.specs.hub.Keeping.{Stay};
ghost use Rattle.keeper_sqlite.specs.hub.Rows.{HasSpans};

use crate::hub::state::items_of_version;
use crate::stored_items::StoredItems;
use hub_format::{HubArea, lets_go};
use roster_base::KeeperError;
use span_format::Oldest;
use std::alloc::Global;
use version_core::change::Change;

// The grants of the base, and the version and the rows' names of the change behind it.
fn oldest_of<S: StoredItems>(alloc: Global, store: &mut S, base: u64) -> Result<Oldest, KeeperError>
    requires { base + 2 < 2 ^ 64 }
    ensures oldest { (t : HubTables) → HasSpans (S.stands_for store.old) t → base ≡ t.base.number
        → S.is_trusted store.new
        → IfOk result (λ o. AreOldest t o.grants.items o.version.items o.names.items) }
    ensures same { Stay (S.stands_for store.old) (S.stands_for store.new) }
    ensures cause { CountsFailure (S.fault_count store.old) (S.fault_count store.new) result }
    ensures trust { S.is_trusted store.new → S.is_trusted store.old }
    ensures held { Stay (S.may_hold store.new) (S.may_hold store.old) }
    ensures signs { Stay (S.shows store.new) (S.shows store.old) }
{
    let grants = items_of_version(alloc, store, HubArea::Grants, base)?;
    let version = items_of_version(alloc, store, HubArea::Versions, base + 1)?;
    let names = items_of_version(alloc, store, HubArea::Names, base + 1)?;
    Ok(Oldest {
        grants,
        version,
        names,
    })
}

// Whether a change lets the oldest go.
fn lets_oldest_go(keep: u64, base: u64, change: &Option<Change>) -> bool
    ensures { result ≡ false → ForSome change.now (λ change. nat_lt keep (change.version - base) ≡ false) }
{
    match change {
        Some(change) => lets_go(keep, base, change.version),
        None => false,
    }
}

/// What the edits of a change ask for: nothing is read where the oldest stays.
pub(crate) fn oldest_for<S: StoredItems>(
    alloc: Global,
    store: &mut S,
    keep: u64,
    base: u64,
    change: &Option<Change>,
) -> Result<Oldest, KeeperError>
    requires { base + 2 < 2 ^ 64 }
    ensures oldest { (t : HubTables) → HasSpans (S.stands_for store.old) t → base ≡ t.base.number
        → S.is_trusted store.new
        → IfOk result (λ o. AreOldestFor t keep base change.now o.grants.items o.version.items o.names.items) }
    ensures same { Stay (S.stands_for store.old) (S.stands_for store.new) }
    ensures cause { CountsFailure (S.fault_count store.old) (S.fault_count store.new) result }
    ensures trust { S.is_trusted store.new → S.is_trusted store.old }
    ensures held { Stay (S.may_hold store.new) (S.may_hold store.old) }
    ensures signs { Stay (S.shows store.new) (S.shows store.old) }
{
    if lets_oldest_go(keep, base, change) {
        return oldest_of(alloc, store, base);
    }
    Ok(Oldest {
        grants: Vec::new(alloc),
        version: Vec::new(alloc),
        names: Vec::new(alloc),
    })
}
