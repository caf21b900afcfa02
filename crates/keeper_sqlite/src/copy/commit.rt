//! Changes of the copy that a store keeps.

ghost use Rattle.std.specs.Prelude.{IsErr, OnErr, OnOk};
ghost use Rattle.roster_base.specs.Faults.{CountsFailure};
ghost use Rattle.item_maps.specs.Items.{Items};
ghost use Rattle.keeper_memory.specs.copy.Changes.{CanChange, copy_after};
ghost use Rattle.keeper_memory.specs.copy.Copies.{Copy};
ghost use Rattle.copy_format.specs.Format.{Keep};
ghost use Rattle.keeper_sqlite.specs.hub.Keeping.{Became, ComeOf, HasOtherFormat, IfKeeps, Keeps, Stay};
ghost use Rattle.keeper_sqlite.specs.copy.Keeping.{KeepEither, KeepOrNew};
ghost use Rattle.keeper_sqlite.specs.Trust.{Clean};

use crate::copy::edits::edits_for;
use crate::copy::prepare::prepare;
use crate::stored_items::StoredItems;
use keeper_memory::CopyChange;
use roster_base::KeeperError;
use std::alloc::Global;

// Makes a change of the copy that a store that is ready keeps.
fn commit_ready<S: StoredItems>(
    alloc: Global,
    store: &mut S,
    change: CopyChange,
) -> Result<(), KeeperError>
    ensures ok { (c : Copy) → Keeps Keep (S.stands_for store.old) c → CanChange change c → S.is_trusted store.new
        → OnOk result (Keeps Keep (S.stands_for store.new) (copy_after change c)) }
    ensures err { (c : Copy) → Keeps Keep (S.stands_for store.old) c
        → OnErr result (Keeps Keep (S.stands_for store.new) c) }
    ensures cause { CountsFailure (S.fault_count store.old) (S.fault_count store.new) result }
    ensures trust { S.is_trusted store.new → S.is_trusted store.old }
    ensures signs { Stay (S.shows store.new) (S.shows store.old) }
    ensures made { (n : Items) → S.may_hold store.new n
        → ComeOf (λ m. IsErr result × S.may_hold store.old m) (S.is_trusted store.old) (S.stands_for store.old) Keep
        (λ c now. CanChange change c → Became Keep (copy_after change) result c now) n }
    ensures live { S.shows store.new Clean → OnOk result (S.is_trusted store.new) }
{
    let edits = edits_for(alloc, store, change)?;
    store.commit(edits.as_slice())
}

/// Makes a change of the copy that a store keeps. One that has no items keeps the copy that holds nothing before.
pub(crate) fn commit_to<S: StoredItems>(
    alloc: Global,
    store: &mut S,
    change: CopyChange,
) -> Result<(), KeeperError>
    ensures ok { (c : Copy) → Keeps KeepOrNew (S.stands_for store.old) c → CanChange change c → S.is_trusted store.new
        → OnOk result (Keeps Keep (S.stands_for store.new) (copy_after change c)) }
    ensures err { IfKeeps KeepOrNew (S.stands_for store.old) (S.is_trusted store.new) (λ c.
        OnErr result (Keeps KeepOrNew (S.stands_for store.new) c)) }
    ensures whole { IfKeeps KeepEither (S.stands_for store.old) (S.is_trusted store.new) (λ c.
        OnErr result (Keeps KeepEither (S.stands_for store.new) c)) }
    ensures other { (m : Items) → S.stands_for store.old m → HasOtherFormat m → S.is_trusted store.new
        → IsErr result × S.stands_for store.new m }
    ensures cause { CountsFailure (S.fault_count store.old) (S.fault_count store.new) result }
    ensures trust { S.is_trusted store.new → S.is_trusted store.old }
    ensures signs { Stay (S.shows store.new) (S.shows store.old) }
    ensures made { (n : Items) → S.may_hold store.new n
        → ComeOf (λ m. IsErr result × S.may_hold store.old m) (S.is_trusted store.old)
        (S.stands_for store.old) KeepOrNew
        (λ c now. CanChange change c → Became KeepOrNew (copy_after change) result c now) n }
    ensures live { S.shows store.new Clean → OnOk result (S.is_trusted store.new) }
{
    prepare(alloc, store)?;
    commit_ready(alloc, store, change)
}
