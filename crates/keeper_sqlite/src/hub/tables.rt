//! The tables that a store keeps.

ghost use Rattle.std.specs.Prelude.{IfOk, IsErr, OnOk, ◌≡◌};
ghost use Rattle.roster_base.specs.Faults.{CountsFailure};
ghost use Rattle.item_maps.specs.Items.{Items as Kept};
ghost use Rattle.keeper_memory.specs.Kept.{kept_by};
ghost use Rattle.version_core.specs.Tables.{AreTables};
ghost use Rattle.span_format.specs.Format.{KeepSpans};
ghost use Rattle.keeper_sqlite.specs.hub.Keeping.{ComeOf, HasOtherFormat, IfKeeps, KeepEither, KeepOrNew, Keeps, Stay};
ghost use Rattle.keeper_sqlite.specs.Trust.{Clean};

use crate::hub::prepare::prepare;
use crate::hub::reading::tables_from;
use crate::hub::rows::StoredRows;
use crate::stored_items::StoredItems;
use roster_base::KeeperError;
use std::alloc::Global;
use version_core::hub_tables::HubTables;

// What a store that is ready keeps.
fn load_ready<S: StoredItems>(alloc: Global, store: &mut S) -> Result<HubTables, KeeperError>
    ensures shown { IfKeeps KeepSpans (S.stands_for store.old) (S.is_trusted store.new) (λ state.
        IfOk result (λ tables. state ≡ kept_by tables)) }
    ensures tables { IfOk result AreTables }
    ensures same { Stay (S.stands_for store.old) (S.stands_for store.new) }
    ensures cause { CountsFailure (S.fault_count store.old) (S.fault_count store.new) result }
    ensures trust { S.is_trusted store.new → S.is_trusted store.old }
    ensures held { Stay (S.may_hold store.new) (S.may_hold store.old) }
    ensures signs { Stay (S.shows store.new) (S.shows store.old) }
    ensures live { S.shows store.new Clean → OnOk result (S.is_trusted store.new) }
{
    tables_from(alloc, store, StoredRows::Spans)
}

/// What a store keeps. One that has no items keeps version 0, and one whose tables stand for no state of a hub fails.
pub fn load_from<S: StoredItems>(
    alloc: Global,
    store: &mut S,
    keep: u32,
) -> Result<HubTables, KeeperError>
    ensures shown { IfKeeps (KeepOrNew keep) (S.stands_for store.old) (S.is_trusted store.new) (λ state.
        IfOk result (λ tables. state ≡ kept_by tables)) }
    ensures kept { IfKeeps (KeepOrNew keep) (S.stands_for store.old) (S.is_trusted store.new)
        (Keeps (KeepOrNew keep) (S.stands_for store.new)) }
    ensures turned { IfKeeps (KeepOrNew keep) (S.stands_for store.old) (S.is_trusted store.new) (λ state.
        OnOk result (Keeps KeepSpans (S.stands_for store.new) state)) }
    ensures whole { IfKeeps KeepEither (S.stands_for store.old) (S.is_trusted store.new)
        (Keeps KeepEither (S.stands_for store.new)) }
    ensures tables { IfOk result AreTables }
    ensures other { (m : Kept) → S.stands_for store.old m → HasOtherFormat m → S.is_trusted store.new
        → IsErr result × S.stands_for store.new m }
    ensures cause { CountsFailure (S.fault_count store.old) (S.fault_count store.new) result }
    ensures trust { S.is_trusted store.new → S.is_trusted store.old }
    ensures signs { Stay (S.shows store.new) (S.shows store.old) }
    ensures made { (n : Kept) → S.may_hold store.new n
        → ComeOf (S.may_hold store.old) (S.is_trusted store.old) (S.stands_for store.old) (KeepOrNew keep)
        (λ state now. KeepOrNew keep now state) n }
    ensures live { S.shows store.new Clean → OnOk result (S.is_trusted store.new) }
{
    prepare(alloc, store, keep)?;
    load_ready(alloc, store)
}
