//! The state of a store, and what stands behind a version's number.

ghost use Rattle.std.specs.Prelude.{◌≡◌, ◌∷◌, [], ◌+◌, ◌<◌, ◌≤◌, ◌^◌, ℕ, IfOk, IfSome, map};
ghost use Rattle.std.specs.Int.{w64};
ghost use Rattle.std.specs.Int.RustNames.{FitsSigned};
ghost use Rattle.roster_base.specs.Faults.{CountsFailure};
ghost use Rattle.item_maps.specs.Edits.{entry_of};
ghost use Rattle.item_maps.specs.Items.{Items};
ghost use Rattle.version_core.specs.Version.{last_version};
ghost use Rattle.version_core.specs.declared.change.BaseVersion.{BaseVersion};
ghost use Rattle.version_core.specs.declared.hub_tables.HubTables.{HubTables};
ghost use Rattle.hub_format.specs.Areas.{area_number};
ghost use Rattle.hub_format.specs.Format.{listed_of, state_entry};
ghost use Rattle.keeper_sqlite.specs.hub.Keeping.{Stay};
ghost use Rattle.keeper_sqlite.specs.hub.Rows.{HasTables};

use crate::stored_items::StoredItems;
use hub_format::{HubArea, StoredState, state_of};
use item_maps::Item;
use roster_base::KeeperError;
use std::alloc::Global;
use version_changes::limits::LAST_VERSION;

// The state, from its items. None where they are no state's, or where the number of the base is above that of the last
// version.
fn state_in(items: &[Item]) -> Option<StoredState>
    ensures state { (keep : ℕ) (base : BaseVersion) → keep < 2 ^ 64 → base.number < 2 ^ 64 → FitsSigned w64 base.moment
        → map entry_of items.now ≡ state_entry keep base ∷ []
        → IfSome result (λ s. (s.keep ≡ keep) × (s.base ≡ base.number) × (s.moment ≡ base.moment)) }
    ensures small { IfSome result (λ s. s.base + 2 < 2 ^ 64) }
    ensures low { IfSome result (λ s. s.base ≤ last_version) }
{
    let state = state_of(items)?;
    if state.base <= LAST_VERSION {
        Some(state)
    } else {
        None
    }
}

/// The state of a store. Items that are no state's are refused as a fault of the store.
pub(crate) fn state_of_store<S: StoredItems>(
    alloc: Global,
    store: &mut S,
) -> Result<StoredState, KeeperError>
    ensures state { (t : HubTables) → HasTables (S.stands_for store.old) t → S.is_trusted store.new
        → IfOk result (λ s. (s.keep ≡ t.keep) × (s.base ≡ t.base.number) × (s.moment ≡ t.base.moment)) }
    ensures small { IfOk result (λ s. s.base + 2 < 2 ^ 64) }
    ensures low { IfOk result (λ s. s.base ≤ last_version) }
    ensures same { Stay (S.stands_for store.old) (S.stands_for store.new) }
    ensures cause { CountsFailure (S.fault_count store.old) (S.fault_count store.new) result }
    ensures trust { S.is_trusted store.new → S.is_trusted store.old }
    ensures held { Stay (S.may_hold store.new) (S.may_hold store.old) }
    ensures signs { Stay (S.shows store.new) (S.shows store.old) }
{
    // Below `[0]` there is the empty label alone, under which the state stands.
    let items = store.all_of(alloc, HubArea::State.number(), &[], &[0])?;
    match state_in(items.as_slice()) {
        Some(state) => Ok(state),
        None => Err(store.refuse()),
    }
}

/// The items of an area whose labels begin with a version's number.
pub(crate) fn items_of_version<S: StoredItems>(
    alloc: Global,
    store: &mut S,
    area: HubArea,
    version: u64,
) -> Result<Vec<Item>, KeeperError>
    requires { version + 1 < 2 ^ 64 }
    ensures items { (m : Items) → S.stands_for store.old m → S.is_trusted store.new
        → IfOk result (λ items. map entry_of items.items ≡ listed_of (area_number area) version m) }
    ensures same { Stay (S.stands_for store.old) (S.stands_for store.new) }
    ensures cause { CountsFailure (S.fault_count store.old) (S.fault_count store.new) result }
    ensures trust { S.is_trusted store.new → S.is_trusted store.old }
    ensures held { Stay (S.may_hold store.new) (S.may_hold store.old) }
    ensures signs { Stay (S.shows store.new) (S.shows store.old) }
{
    store.all_of(
        alloc,
        area.number(),
        &version.to_be_bytes(),
        &(version + 1).to_be_bytes(),
    )
}
