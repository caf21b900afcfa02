//! A keeper of a hub's state over a store of items.

ghost use Rattle.std.specs.Prelude.{IfOk, IsErr, OnErr, OnOk, ◌≡◌};
ghost use Rattle.roster_base.specs.Faults.{CountsFailure};
ghost use Rattle.item_maps.specs.Items.{Items};
ghost use Rattle.keeper_memory.specs.Commits.{CanCommit, Commits, with_commit};
ghost use Rattle.keeper_memory.specs.Kept.{KeptState, kept_by};
ghost use Rattle.version_core.specs.Tables.{AreTables};
ghost use Rattle.span_format.specs.Format.{KeepSpans};
ghost use Rattle.keeper_sqlite.specs.hub.Keeping.{HasOtherFormat, IfKeeps, KeepEither, KeepOrNew, Keeps};
ghost use Rattle.keeper_sqlite.specs.hub.Telling.{HubLeads, HubTells, StillKeep, Tells};
ghost use Rattle.keeper_sqlite.specs.Trust.{Clean};

use crate::hub::commit::commit_to;
use crate::hub::tables::load_from;
use crate::stored_items::StoredItems;
use keeper_memory::{HubCommit, HubKeeper};
use roster_base::KeeperError;
use std::alloc::Global;
use std::marker::Model;
use std::snapshot::Snapshot;
use version_core::hub_tables::HubTables;

/// A hub's state over a store of items. A clause sees the store, the store that was handed in at first, and how many
/// versions a new one keeps beside the newest.
#[derive(Drop)]
pub struct ItemHub<S: StoredItems> {
    store: S,
    origin: Snapshot<S>,
    keep: u32,
}

impl<S: StoredItems> Model for ItemHub<S> {
    ghost use Rattle.std.specs.Prelude.{ℕ};
    ghost use Rattle.keeper_sqlite.specs.hub.Keeping.{KeepOrNew};
    ghost use Rattle.keeper_sqlite.specs.hub.Telling.{StillKeep};

    ghost Value = { S × S × ℕ };

    ghost view = { λ h. (h.store, h.origin.value, h.keep) };

    ghost invariant = { λ h. StillKeep (KeepOrNew h.keep) (S.stands_for h.origin.value) (S.stands_for h.store)
        (S.is_trusted h.store) };
}

impl<S: StoredItems> ItemHub<S> {
    /// The keeper of the state that this store has; no memory is taken. A store that has no items keeps version 0
    /// alone, and so many versions beside the newest from then on.
    pub fn adopt(store: S, keep: u32) -> ItemHub<S>
        ensures store { (result.0 ≡ store) × (result.1 ≡ store) × (result.2 ≡ keep) }
        ensures tells { (state : KeptState) → S.is_trusted store → Keeps (KeepOrNew keep) (S.stands_for store) state
            → Tells (KeepOrNew result.2) (S.stands_for result.1) (S.may_hold result.0) state }
    {
        let origin = Snapshot::of(&store);
        ItemHub {
            store,
            origin,
            keep,
        }
    }

    /// While the store is trusted it stands for items that keep a state, if those that were handed in did. No memory is
    /// taken.
    pub fn keeps(&self)
        ensures { StillKeep (KeepOrNew self.now.2) (S.stands_for self.now.1) (S.stands_for self.now.0)
            (S.is_trusted self.now.0) }
    {
        // Read for the invariant.
        let _ = &self.store;
    }

    /// The store, as the last call left it; no memory is taken.
    pub fn release(self) -> S
        ensures { result ≡ self.0 }
    {
        let ItemHub {
            store,
            origin: _,
            keep: _,
        } = self;
        store
    }
}

impl<S: StoredItems> HubKeeper for ItemHub<S> {
    ghost use Rattle.std.proofs.Common.{refl, ◌∙◌};

    ghost stands_for = { HubTells S.stands_for S.may_hold };

    ghost fault_count = { λ hub. S.fault_count hub.0 };

    ghost leads = { HubLeads S.shows };

    ghost stays = { λ _. (refl, refl, λ _ shown. shown) };

    ghost leads_on = { λ _ _ _ first then.
        (then.0 ∙ first.0, then.1 ∙ first.1, λ sign shown. first.2 sign (then.2 sign shown)) };

    fn load(&mut self, alloc: Global) -> Result<HubTables, KeeperError>
        ensures shown { IfOk result
            (λ tables. (kept : KeptState) → HubTells S.stands_for S.may_hold self.new kept → kept ≡ kept_by tables) }
        ensures tables { IfOk result AreTables }
        ensures same { (kept : KeptState) → HubTells S.stands_for S.may_hold self.new kept
            → HubTells S.stands_for S.may_hold self.old kept }
        ensures cause { CountsFailure (S.fault_count self.old.0) (S.fault_count self.new.0) result }
        ensures leads { HubLeads S.shows self.old self.new }
        // Over a clean disk a call that succeeds leaves the store trusted, so that it tells what it keeps.
        ensures live { S.shows self.new.0 Clean → OnOk result (S.is_trusted self.new.0) }
        // A call that succeeds leaves items of format 2, whatever they were before it.
        ensures turned { IfKeeps (KeepOrNew self.old.2) (S.stands_for self.old.0) (S.is_trusted self.new.0) (λ state.
            OnOk result (Keeps KeepSpans (S.stands_for self.new.0) state)) }
        // And any call leaves the state whole, in one of the two formats.
        ensures whole { IfKeeps KeepEither (S.stands_for self.old.0) (S.is_trusted self.new.0)
            (Keeps KeepEither (S.stands_for self.new.0)) }
        // Items of another format are refused, and stay as they are.
        ensures other { (m : Items) → S.stands_for self.old.0 m → HasOtherFormat m → S.is_trusted self.new.0
            → IsErr result × S.stands_for self.new.0 m }
    {
        load_from(alloc, &mut self.store, self.keep)
    }

    fn commit(&mut self, alloc: Global, commit: &HubCommit) -> Result<(), KeeperError>
        requires { (kept : KeptState) → HubTells S.stands_for S.may_hold self.old kept → CanCommit kept commit.now }
        ensures told { (after : KeptState) → HubTells S.stands_for S.may_hold self.new after
            → (before : KeptState) × HubTells S.stands_for S.may_hold self.old before
            × Commits commit.now result before after }
        ensures cause { CountsFailure (S.fault_count self.old.0) (S.fault_count self.new.0) result }
        ensures leads { HubLeads S.shows self.old self.new }
        // Over a clean disk a call that succeeds leaves the store trusted, so that it tells what it keeps.
        ensures live { S.shows self.new.0 Clean → OnOk result (S.is_trusted self.new.0) }
        // A call that succeeds leaves items of format 2, whatever they were before it, with its change and its mark.
        ensures turned { (state : KeptState) → Keeps (KeepOrNew self.old.2) (S.stands_for self.old.0) state
            → CanCommit state commit.now → S.is_trusted self.new.0
            → OnOk result (Keeps KeepSpans (S.stands_for self.new.0) (with_commit state commit.now)) }
        // And one that doesn't leaves the state whole, in one of the two formats.
        ensures whole { IfKeeps KeepEither (S.stands_for self.old.0) (S.is_trusted self.new.0) (λ state.
            OnErr result (Keeps KeepEither (S.stands_for self.new.0) state)) }
        // Items of another format are refused, and stay as they are.
        ensures other { (m : Items) → S.stands_for self.old.0 m → HasOtherFormat m → S.is_trusted self.new.0
            → IsErr result × S.stands_for self.new.0 m }
    {
        commit_to(alloc, &mut self.store, self.keep, commit)
    }

    fn faults(&self) -> u64 {
        self.store.faults()
    }
}
