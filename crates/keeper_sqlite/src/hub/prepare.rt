//! How a hub's store is made ready.

ghost use Rattle.std.specs.Prelude.{IsErr, OnErr, OnOk};
ghost use Rattle.roster_base.specs.Faults.{CountsFailure};
ghost use Rattle.item_maps.specs.Items.{Items};
ghost use Rattle.hub_format.specs.Format.{Keep};
ghost use Rattle.span_format.specs.Format.{KeepSpans};
ghost use Rattle.keeper_sqlite.specs.hub.Keeping.{ComeOf, HasOtherFormat, IfKeeps, KeepEither, KeepOrNew, Keeps, Stay};
ghost use Rattle.keeper_sqlite.specs.Trust.{Clean};

use crate::hub::reading::tables_from;
use crate::hub::rows::StoredRows;
use crate::stored_items::StoredItems;
use hub_format::{Format, HubArea, format_of};
use roster_base::KeeperError;
use span_format::{first_edits, turn_edits};
use std::alloc::Global;

// A store of format 1 becomes one of format 2, by one commit. Its tables are read before: items that are none of a
// state, as a copy's, are refused and stay as they are.
fn turn<S: StoredItems>(alloc: Global, store: &mut S) -> Result<(), KeeperError>
    ensures ok { IfKeeps Keep (S.stands_for store.old) (S.is_trusted store.new) (λ state.
        OnOk result (Keeps KeepSpans (S.stands_for store.new) state)) }
    ensures err { (m : Items) → S.stands_for store.old m → OnErr result (S.stands_for store.new m) }
    ensures cause { CountsFailure (S.fault_count store.old) (S.fault_count store.new) result }
    ensures trust { S.is_trusted store.new → S.is_trusted store.old }
    ensures signs { Stay (S.shows store.new) (S.shows store.old) }
    ensures made { (n : Items) → S.may_hold store.new n
        → ComeOf (S.may_hold store.old) (S.is_trusted store.old) (S.stands_for store.old) Keep
        (λ state now. KeepEither now state) n }
    ensures live { S.shows store.new Clean → OnOk result (S.is_trusted store.new) }
{
    let tables = tables_from(alloc, store, StoredRows::Areas)?;
    let edits = turn_edits(alloc, tables)?;
    store.commit(edits.as_slice())
}

/// A store that has no items gets those of version 0 alone, and one of format 1 those of format 2. One of another
/// format fails.
pub(crate) fn prepare<S: StoredItems>(
    alloc: Global,
    store: &mut S,
    keep: u32,
) -> Result<(), KeeperError>
    ensures ok { IfKeeps (KeepOrNew keep) (S.stands_for store.old) (S.is_trusted store.new) (λ state.
        OnOk result (Keeps KeepSpans (S.stands_for store.new) state)) }
    ensures err { (m : Items) → S.stands_for store.old m → OnErr result (S.stands_for store.new m) }
    ensures other { (m : Items) → S.stands_for store.old m → HasOtherFormat m → S.is_trusted store.new
        → IsErr result × S.stands_for store.new m }
    ensures cause { CountsFailure (S.fault_count store.old) (S.fault_count store.new) result }
    ensures trust { S.is_trusted store.new → S.is_trusted store.old }
    ensures signs { Stay (S.shows store.new) (S.shows store.old) }
    ensures made { (n : Items) → S.may_hold store.new n
        → ComeOf (S.may_hold store.old) (S.is_trusted store.old) (S.stands_for store.old) (KeepOrNew keep)
        (λ state now. KeepOrNew keep now state) n }
    ensures live { S.shows store.new Clean → OnOk result (S.is_trusted store.new) }
{
    let items = store.all_of(alloc, HubArea::Format.number(), &[], &[0])?;
    match format_of(items.as_slice()) {
        Format::New => {
            let edits = first_edits(alloc, keep)?;
            store.commit(edits.as_slice())
        }
        Format::One => turn(alloc, store),
        Format::Two => Ok(()),
        Format::Other => Err(store.refuse()),
    }
}
