//! Commits to a store.

ghost use Rattle.std.specs.Prelude.{◌≡◌, IfOk, IsErr, OnErr, OnOk};
ghost use Rattle.roster_base.specs.Faults.{CountsFailure};
ghost use Rattle.item_maps.specs.Items.{Items};
ghost use Rattle.keeper_memory.specs.Commits.{CanCommit, with_commit};
ghost use Rattle.keeper_memory.specs.Kept.{KeptState, kept_by};
ghost use Rattle.version_core.specs.declared.hub_tables.HubTables.{HubTables};
ghost use Rattle.span_format.specs.Edits.{edits as edits_of};
ghost use Rattle.span_format.specs.Format.{FitsSpanCommit, KeepSpans};
ghost use Rattle.keeper_sqlite.specs.hub.Keeping.{Became, ComeOf, HasOtherFormat, IfKeeps, Keeps, Stay};
ghost use Rattle.keeper_sqlite.specs.hub.Keeping.{KeepEither, KeepOrNew};
ghost use Rattle.keeper_sqlite.specs.hub.Rows.{HasSpans};
ghost use Rattle.keeper_sqlite.specs.Trust.{Clean};

use crate::hub::oldest::oldest_for;
use crate::hub::prepare::prepare;
use crate::hub::state::state_of_store;
use crate::stored_items::StoredItems;
use item_maps::Edit;
use keeper_memory::HubCommit;
use roster_base::KeeperError;
use span_format::commit_edits;
use std::alloc::Global;

// The edits by which the items of a state become those of the state after a commit.
fn edits_for<S: StoredItems>(
    alloc: Global,
    store: &mut S,
    commit: &HubCommit,
) -> Result<Vec<Edit>, KeeperError>
    ensures edits { (t : HubTables) → HasSpans (S.stands_for store.old) t → CanCommit (kept_by t) commit.now
        → S.is_trusted store.new
        → IfOk result (λ edits. edits.items ≡ edits_of t commit.now) }
    ensures fits { OnOk result (FitsSpanCommit commit.now) }
    ensures same { Stay (S.stands_for store.old) (S.stands_for store.new) }
    ensures cause { CountsFailure (S.fault_count store.old) (S.fault_count store.new) result }
    ensures trust { S.is_trusted store.new → S.is_trusted store.old }
    ensures held { Stay (S.may_hold store.new) (S.may_hold store.old) }
    ensures signs { Stay (S.shows store.new) (S.shows store.old) }
{
    let state = state_of_store(alloc, store)?;
    let oldest = oldest_for(alloc, store, state.keep, state.base, &commit.change)?;
    match commit_edits(alloc, state.keep, state.base, &oldest, commit)? {
        Some(edits) => Ok(edits),
        None => Err(store.refuse()),
    }
}

// Adds a change and a mark to a store that is ready.
fn commit_ready<S: StoredItems>(
    alloc: Global,
    store: &mut S,
    commit: &HubCommit,
) -> Result<(), KeeperError>
    ensures ok { (state : KeptState) → Keeps KeepSpans (S.stands_for store.old) state → CanCommit state commit.now
        → S.is_trusted store.new
        → OnOk result (Keeps KeepSpans (S.stands_for store.new) (with_commit state commit.now)) }
    ensures err { (state : KeptState) → Keeps KeepSpans (S.stands_for store.old) state
        → OnErr result (Keeps KeepSpans (S.stands_for store.new) state) }
    ensures cause { CountsFailure (S.fault_count store.old) (S.fault_count store.new) result }
    ensures trust { S.is_trusted store.new → S.is_trusted store.old }
    ensures signs { Stay (S.shows store.new) (S.shows store.old) }
    ensures made { (n : Items) → S.may_hold store.new n
        → ComeOf (λ m. IsErr result × S.may_hold store.old m) (S.is_trusted store.old)
        (S.stands_for store.old) KeepSpans
        (λ state now. CanCommit state commit.now
        → Became KeepSpans (λ s. with_commit s commit.now) result state now) n }
    ensures live { S.shows store.new Clean → OnOk result (S.is_trusted store.new) }
{
    let edits = edits_for(alloc, store, commit)?;
    store.commit(edits.as_slice())
}

/// Adds a change and a mark to what a store keeps, together. One that has no items keeps version 0 before.
pub(crate) fn commit_to<S: StoredItems>(
    alloc: Global,
    store: &mut S,
    keep: u32,
    commit: &HubCommit,
) -> Result<(), KeeperError>
    ensures ok { (state : KeptState) → Keeps (KeepOrNew keep) (S.stands_for store.old) state
        → CanCommit state commit.now → S.is_trusted store.new
        → OnOk result (Keeps KeepSpans (S.stands_for store.new) (with_commit state commit.now)) }
    ensures err { IfKeeps (KeepOrNew keep) (S.stands_for store.old) (S.is_trusted store.new) (λ state.
        OnErr result (Keeps (KeepOrNew keep) (S.stands_for store.new) state)) }
    ensures whole { IfKeeps KeepEither (S.stands_for store.old) (S.is_trusted store.new) (λ state.
        OnErr result (Keeps KeepEither (S.stands_for store.new) state)) }
    ensures other { (m : Items) → S.stands_for store.old m → HasOtherFormat m → S.is_trusted store.new
        → IsErr result × S.stands_for store.new m }
    ensures cause { CountsFailure (S.fault_count store.old) (S.fault_count store.new) result }
    ensures trust { S.is_trusted store.new → S.is_trusted store.old }
    ensures signs { Stay (S.shows store.new) (S.shows store.old) }
    ensures made { (n : Items) → S.may_hold store.new n
        → ComeOf (λ m. IsErr result × S.may_hold store.old m) (S.is_trusted store.old) (S.stands_for store.old)
        (KeepOrNew keep) (λ state now. CanCommit state commit.now
        → Became (KeepOrNew keep) (λ s. with_commit s commit.now) result state now) n }
    ensures live { S.shows store.new Clean → OnOk result (S.is_trusted store.new) }
{
    prepare(alloc, store, keep)?;
    commit_ready(alloc, store, commit)
}
