//! The tables of a store, read back.

ghost use Rattle.std.specs.Prelude.{IfOk, IfSome, OnOk, ◌≡◌};
ghost use Rattle.roster_base.specs.Faults.{CountsFailure};
ghost use Rattle.version_core.specs.Tables.{AreTables};
ghost use Rattle.version_core.specs.declared.hub_tables.HubTables.{HubTables as Tables};
ghost use Rattle.keeper_sqlite.specs.hub.Keeping.{Stay};
ghost use Rattle.keeper_sqlite.specs.hub.Rows.{HasRows};
ghost use Rattle.keeper_sqlite.specs.Trust.{Clean};

use crate::hub::load::{changes_in, grants_at, marks_in};
use crate::hub::rows::{StoredRows, base_rows};
use crate::hub::state::state_of_store;
use crate::stored_items::StoredItems;
use roster_base::KeeperError;
use std::alloc::Global;
use version_changes::are_tables;
use version_core::change::BaseVersion;
use version_core::hub_tables::HubTables;

// The tables, as they are read.
fn read_tables<S: StoredItems>(
    alloc: Global,
    store: &mut S,
    stored: StoredRows,
) -> Result<HubTables, KeeperError>
    ensures tables { (t : Tables) → HasRows (S.stands_for store.old) stored t → S.is_trusted store.new
        → IfOk result (λ tables. tables ≡ t) }
    ensures same { Stay (S.stands_for store.old) (S.stands_for store.new) }
    ensures cause { CountsFailure (S.fault_count store.old) (S.fault_count store.new) result }
    ensures trust { S.is_trusted store.new → S.is_trusted store.old }
    ensures held { Stay (S.may_hold store.new) (S.may_hold store.old) }
    ensures signs { Stay (S.shows store.new) (S.shows store.old) }
    ensures live { S.shows store.new Clean → OnOk result (S.is_trusted store.new) }
{
    let state = state_of_store(alloc, store)?;
    let Ok(keep) = u32::try_from(state.keep) else {
        return Err(store.refuse());
    };
    let (rows, later) = base_rows(alloc, store, stored, state.base)?;
    let grants = grants_at(alloc, store, state.base)?;
    let changes = changes_in(alloc, store, &later, state.base, keep)?;
    let marks = marks_in(alloc, store)?;
    Ok(HubTables {
        keep,
        base: BaseVersion {
            number: state.base,
            moment: state.moment,
            rows,
            grants,
        },
        changes,
        marks,
    })
}

// The tables, if they stand for a state of a hub.
fn tested(tables: HubTables) -> Option<HubTables>
    ensures same { IfSome result (λ t. t ≡ tables) }
    ensures sound { IfSome result AreTables }
{
    if are_tables(&tables) {
        Some(tables)
    } else {
        None
    }
}

/// The tables of a store that has its rows there. It fails where they stand for no state of a hub.
pub(crate) fn tables_from<S: StoredItems>(
    alloc: Global,
    store: &mut S,
    stored: StoredRows,
) -> Result<HubTables, KeeperError>
    ensures tables { (t : Tables) → HasRows (S.stands_for store.old) stored t → S.is_trusted store.new
        → IfOk result (λ tables. tables ≡ t) }
    ensures sound { IfOk result AreTables }
    ensures same { Stay (S.stands_for store.old) (S.stands_for store.new) }
    ensures cause { CountsFailure (S.fault_count store.old) (S.fault_count store.new) result }
    ensures trust { S.is_trusted store.new → S.is_trusted store.old }
    ensures held { Stay (S.may_hold store.new) (S.may_hold store.old) }
    ensures signs { Stay (S.shows store.new) (S.shows store.old) }
    ensures live { S.shows store.new Clean → OnOk result (S.is_trusted store.new) }
{
    let tables = read_tables(alloc, store, stored)?;
    match tested(tables) {
        Some(tables) => Ok(tables),
        None => Err(store.refuse()),
    }
}
