//! A keeper of a consumer's copy over a store of items.

ghost use Rattle.std.specs.Prelude.{IfOk, IfSome, IsErr, OnErr, OnOk, ◌<◌, ◌^◌, ◌≡◌, ◌≤◌};
ghost use Rattle.roster_base.specs.Faults.{CountsFailure};
ghost use Rattle.item_maps.specs.Items.{Items as Kept};
ghost use Rattle.copy_format.specs.Format.{Keep};
ghost use Rattle.keeper_memory.specs.copy.Changes.{CanChange, Commits, copy_after};
ghost use Rattle.keeper_memory.specs.copy.Copies.{Copy, entry_after, held_list};
ghost use Rattle.keeper_memory.specs.copy.States.{CanBe, CanBeEntry, CanBeList, Shows};
ghost use Rattle.keeper_sqlite.specs.copy.Keeping.{CopyLeads, CopyTells, KeepEither, KeepOrNew};
ghost use Rattle.keeper_sqlite.specs.hub.Keeping.{HasOtherFormat, IfKeeps, Keeps};
ghost use Rattle.keeper_sqlite.specs.hub.Telling.{StillKeep, Tells};
ghost use Rattle.keeper_sqlite.specs.Trust.{Clean};

use crate::copy::commit::commit_to;
use crate::copy::reads::{entry_from, held_from, state_from};
use crate::stored_items::StoredItems;
use keeper_memory::{CopyChange, CopyKeeper, CopyState, OutEntry};
use roster_base::{Items, KeeperError};
use roster_types::row::Row;
use roster_values::Kind;
use std::alloc::Global;
use std::marker::Model;
use std::snapshot::Snapshot;

/// A consumer's copy over a store of items. A clause sees the store, and the store that was handed in at first.
#[derive(Drop)]
pub struct ItemCopy<S: StoredItems> {
    store: S,
    origin: Snapshot<S>,
}

impl<S: StoredItems> Model for ItemCopy<S> {
    ghost use Rattle.keeper_sqlite.specs.copy.Keeping.{KeepOrNew};
    ghost use Rattle.keeper_sqlite.specs.hub.Telling.{StillKeep};

    ghost Value = { S × S };

    ghost view = { λ c. (c.store, c.origin.value) };

    ghost invariant = { λ c. StillKeep KeepOrNew (S.stands_for c.origin.value) (S.stands_for c.store)
        (S.is_trusted c.store) };
}

impl<S: StoredItems> ItemCopy<S> {
    /// The keeper of the copy that this store has; no memory is taken. A store that has no items keeps the copy that
    /// holds nothing.
    pub fn adopt(store: S) -> ItemCopy<S>
        ensures store { (result.0 ≡ store) × (result.1 ≡ store) }
        ensures tells { (c : Copy) → S.is_trusted store → Keeps KeepOrNew (S.stands_for store) c
            → Tells KeepOrNew (S.stands_for result.1) (S.may_hold result.0) c }
    {
        let origin = Snapshot::of(&store);
        ItemCopy { store, origin }
    }

    /// While the store is trusted it stands for items that keep a copy, if those that were handed in did. No memory is
    /// taken.
    pub fn keeps(&self)
        ensures { StillKeep KeepOrNew (S.stands_for self.now.1) (S.stands_for self.now.0) (S.is_trusted self.now.0) }
    {
        // Read for the invariant.
        let _ = &self.store;
    }

    /// The store, as the last call left it; no memory is taken.
    pub fn release(self) -> S
        ensures { result ≡ self.0 }
    {
        let ItemCopy { store, origin: _ } = self;
        store
    }
}

// The count of failures is below 2^64, as its type has it.
fn bounded<S: StoredItems>(store: &S)
    ensures { S.fault_count store.now < 2 ^ 64 }
{
    // Read for its range.
    let _ = store.faults();
}

impl<S: StoredItems> CopyKeeper for ItemCopy<S> {
    ghost use Rattle.std.specs.Prelude.{◌≡◌};
    ghost use Rattle.std.proofs.Common.{⊎_elim, refl, subst, sym, ◌∙◌};
    ghost use Rattle.copy_format.specs.Format.{Keep, KeepOne};
    ghost use Rattle.keeper_memory.proofs.CopyLemmas.{empty_is};
    ghost use Rattle.keeper_memory.specs.copy.Copies.{IsCopy};
    ghost use Rattle.keeper_memory.specs.copy.HeldCopy.{empty_copy};
    ghost use Rattle.item_maps.specs.Items.{no_items};

    ghost stands_for = { CopyTells S.stands_for S.may_hold };

    ghost fault_count = { λ keeper. S.fault_count keeper.0 };

    ghost leads = { CopyLeads S.shows };

    ghost stays = { λ _. (refl, λ _ shown. shown) };

    ghost leads_on = { λ _ _ _ first then. (then.0 ∙ first.0, λ sign shown. first.1 sign (then.1 sign shown)) };

    ghost is_copy = { λ keeper c tells. ⊎_elim (λ (kept : Keep tells.items c). kept.is)
        (⊎_elim (λ (old : KeepOne tells.items c). old.is)
        (λ (none : (tells.items ≡ no_items) × (c ≡ empty_copy)). subst IsCopy (sym none.1) empty_is))
        tells.kept };

    fn state(&mut self, alloc: Global) -> Result<CopyState, KeeperError>
        ensures shown { IfOk result (λ s. (c : Copy) → CopyTells S.stands_for S.may_hold self.new c → Shows c s) }
        ensures any { IfOk result CanBe }
        ensures same { (c : Copy) → CopyTells S.stands_for S.may_hold self.new c
            → CopyTells S.stands_for S.may_hold self.old c }
        ensures later { S.fault_count self.old.0 ≤ S.fault_count self.new.0 }
        ensures cause { CountsFailure (S.fault_count self.old.0) (S.fault_count self.new.0) result }
        ensures leads { CopyLeads S.shows self.old self.new }
        // Over a clean disk a call that succeeds leaves the store trusted, so that it tells what it keeps.
        ensures live { S.shows self.new.0 Clean → OnOk result (S.is_trusted self.new.0) }
        // A call that succeeds leaves items of format 2, whatever they were before it.
        ensures turned { IfKeeps KeepOrNew (S.stands_for self.old.0) (S.is_trusted self.new.0) (λ c.
            OnOk result (Keeps Keep (S.stands_for self.new.0) c)) }
        // And any call leaves the copy whole, in one of the two formats.
        ensures whole { IfKeeps KeepEither (S.stands_for self.old.0) (S.is_trusted self.new.0)
            (Keeps KeepEither (S.stands_for self.new.0)) }
        // Items of another format are refused, and stay as they are.
        ensures other { (m : Kept) → S.stands_for self.old.0 m → HasOtherFormat m → S.is_trusted self.new.0
            → IsErr result × S.stands_for self.new.0 m }
    {
        bounded(&self.store);
        state_from(alloc, &mut self.store)
    }

    fn held(&mut self, alloc: Global, kind: Kind) -> Result<Items<Row>, KeeperError>
        ensures shown { IfOk result
            (λ rows. (c : Copy) → CopyTells S.stands_for S.may_hold self.new c → rows ≡ held_list c kind) }
        ensures any { IfOk result (CanBeList kind) }
        ensures same { (c : Copy) → CopyTells S.stands_for S.may_hold self.new c
            → CopyTells S.stands_for S.may_hold self.old c }
        ensures later { S.fault_count self.old.0 ≤ S.fault_count self.new.0 }
        ensures cause { CountsFailure (S.fault_count self.old.0) (S.fault_count self.new.0) result }
        ensures leads { CopyLeads S.shows self.old self.new }
        // Over a clean disk a call that succeeds leaves the store trusted, so that it tells what it keeps.
        ensures live { S.shows self.new.0 Clean → OnOk result (S.is_trusted self.new.0) }
        // A call that succeeds leaves items of format 2, whatever they were before it.
        ensures turned { IfKeeps KeepOrNew (S.stands_for self.old.0) (S.is_trusted self.new.0) (λ c.
            OnOk result (Keeps Keep (S.stands_for self.new.0) c)) }
        // And any call leaves the copy whole, in one of the two formats.
        ensures whole { IfKeeps KeepEither (S.stands_for self.old.0) (S.is_trusted self.new.0)
            (Keeps KeepEither (S.stands_for self.new.0)) }
        // Items of another format are refused, and stay as they are.
        ensures other { (m : Kept) → S.stands_for self.old.0 m → HasOtherFormat m → S.is_trusted self.new.0
            → IsErr result × S.stands_for self.new.0 m }
    {
        bounded(&self.store);
        held_from(alloc, &mut self.store, kind)
    }

    fn entry(&mut self, alloc: Global, after: u64) -> Result<Option<OutEntry>, KeeperError>
        ensures shown { IfOk result
            (λ entry. (c : Copy) → CopyTells S.stands_for S.may_hold self.new c → entry ≡ entry_after after c.entries) }
        ensures any { IfOk result (λ entry. IfSome entry (CanBeEntry after)) }
        ensures same { (c : Copy) → CopyTells S.stands_for S.may_hold self.new c
            → CopyTells S.stands_for S.may_hold self.old c }
        ensures later { S.fault_count self.old.0 ≤ S.fault_count self.new.0 }
        ensures cause { CountsFailure (S.fault_count self.old.0) (S.fault_count self.new.0) result }
        ensures leads { CopyLeads S.shows self.old self.new }
        // Over a clean disk a call that succeeds leaves the store trusted, so that it tells what it keeps.
        ensures live { S.shows self.new.0 Clean → OnOk result (S.is_trusted self.new.0) }
        // A call that succeeds leaves items of format 2, whatever they were before it.
        ensures turned { IfKeeps KeepOrNew (S.stands_for self.old.0) (S.is_trusted self.new.0) (λ c.
            OnOk result (Keeps Keep (S.stands_for self.new.0) c)) }
        // And any call leaves the copy whole, in one of the two formats.
        ensures whole { IfKeeps KeepEither (S.stands_for self.old.0) (S.is_trusted self.new.0)
            (Keeps KeepEither (S.stands_for self.new.0)) }
        // Items of another format are refused, and stay as they are.
        ensures other { (m : Kept) → S.stands_for self.old.0 m → HasOtherFormat m → S.is_trusted self.new.0
            → IsErr result × S.stands_for self.new.0 m }
    {
        bounded(&self.store);
        entry_from(alloc, &mut self.store, after)
    }

    fn commit(&mut self, alloc: Global, change: CopyChange) -> Result<(), KeeperError>
        requires { (c : Copy) → CopyTells S.stands_for S.may_hold self.old c → CanChange change c }
        ensures told { (after : Copy) → CopyTells S.stands_for S.may_hold self.new after
            → (before : Copy) × CopyTells S.stands_for S.may_hold self.old before × Commits change result before after }
        ensures later { S.fault_count self.old.0 ≤ S.fault_count self.new.0 }
        ensures cause { CountsFailure (S.fault_count self.old.0) (S.fault_count self.new.0) result }
        ensures leads { CopyLeads S.shows self.old self.new }
        // Over a clean disk a call that succeeds leaves the store trusted, so that it tells what it keeps.
        ensures live { S.shows self.new.0 Clean → OnOk result (S.is_trusted self.new.0) }
        // A call that succeeds leaves items of format 2, whatever they were before it, with its change.
        ensures turned { (c : Copy) → Keeps KeepOrNew (S.stands_for self.old.0) c → CanChange change c
            → S.is_trusted self.new.0
            → OnOk result (Keeps Keep (S.stands_for self.new.0) (copy_after change c)) }
        // And one that doesn't leaves the copy whole, in one of the two formats.
        ensures whole { IfKeeps KeepEither (S.stands_for self.old.0) (S.is_trusted self.new.0) (λ c.
            OnErr result (Keeps KeepEither (S.stands_for self.new.0) c)) }
        // Items of another format are refused, and stay as they are.
        ensures other { (m : Kept) → S.stands_for self.old.0 m → HasOtherFormat m → S.is_trusted self.new.0
            → IsErr result × S.stands_for self.new.0 m }
    {
        bounded(&self.store);
        commit_to(alloc, &mut self.store, change)
    }

    fn faults(&self) -> u64 {
        self.store.faults()
    }
}
