//! How a copy's store is made ready.

ghost use Rattle.std.specs.Prelude.{IsErr, OnErr, OnOk};
ghost use Rattle.roster_base.specs.Faults.{CountsFailure};
ghost use Rattle.item_maps.specs.Items.{Items};
ghost use Rattle.keeper_memory.specs.copy.Copies.{Copy};
ghost use Rattle.copy_format.specs.Format.{Keep, KeepOne};
ghost use Rattle.keeper_sqlite.specs.hub.Keeping.{ComeOf, HasOtherFormat, IfKeeps, Keeps, Stay};
ghost use Rattle.keeper_sqlite.specs.copy.Keeping.{KeepEither, KeepOrNew};
ghost use Rattle.keeper_sqlite.specs.Trust.{Clean};

use crate::copy::stored::stored_root;
use crate::stored_items::StoredItems;
use copy_format::{CopyArea, first_edits, turn_edits};
use hub_format::{Format, format_of};
use roster_base::KeeperError;
use std::alloc::Global;

// A store of format 1 becomes one of format 2. Its state is read before: items of another kind, as a hub's, are refused
// and stay as they are.
fn turn<S: StoredItems>(alloc: Global, store: &mut S) -> Result<(), KeeperError>
    ensures ok { (c : Copy) → Keeps KeepOne (S.stands_for store.old) c
        → OnOk result (Keeps Keep (S.stands_for store.new) c) }
    ensures err { (m : Items) → S.stands_for store.old m → OnErr result (S.stands_for store.new m) }
    ensures cause { CountsFailure (S.fault_count store.old) (S.fault_count store.new) result }
    ensures trust { S.is_trusted store.new → S.is_trusted store.old }
    ensures signs { Stay (S.shows store.new) (S.shows store.old) }
    ensures made { (n : Items) → S.may_hold store.new n
        → ComeOf (S.may_hold store.old) (S.is_trusted store.old) (S.stands_for store.old) KeepOne
        (λ c now. KeepEither now c) n }
    ensures live { S.shows store.new Clean → OnOk result (S.is_trusted store.new) }
{
    stored_root(alloc, store)?;
    let edits = turn_edits(alloc)?;
    store.commit(edits.as_slice())
}

/// A store that has no items gets those of the copy that holds nothing, and one of format 1 those of format 2. One of
/// another format fails.
pub(crate) fn prepare<S: StoredItems>(alloc: Global, store: &mut S) -> Result<(), KeeperError>
    ensures ok { IfKeeps KeepOrNew (S.stands_for store.old) (S.is_trusted store.new) (λ c.
        OnOk result (Keeps Keep (S.stands_for store.new) c)) }
    ensures err { (m : Items) → S.stands_for store.old m → OnErr result (S.stands_for store.new m) }
    ensures other { (m : Items) → S.stands_for store.old m → HasOtherFormat m → S.is_trusted store.new
        → IsErr result × S.stands_for store.new m }
    ensures cause { CountsFailure (S.fault_count store.old) (S.fault_count store.new) result }
    ensures trust { S.is_trusted store.new → S.is_trusted store.old }
    ensures signs { Stay (S.shows store.new) (S.shows store.old) }
    ensures made { (n : Items) → S.may_hold store.new n
        → ComeOf (S.may_hold store.old) (S.is_trusted store.old) (S.stands_for store.old) KeepOrNew
        (λ c now. KeepOrNew now c) n }
    ensures live { S.shows store.new Clean → OnOk result (S.is_trusted store.new) }
{
    let items = store.all_of(alloc, CopyArea::Format.number(), &[], &[0])?;
    match format_of(items.as_slice()) {
        Format::New => {
            let edits = first_edits(alloc)?;
            store.commit(edits.as_slice())
        }
        Format::One => turn(alloc, store),
        Format::Two => Ok(()),
        Format::Other => Err(store.refuse()),
    }
}
