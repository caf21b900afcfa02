//! The synchronisation over a world.

ghost use Rattle.std.specs.Prelude.{◌≡◌, ◌≢◌, ℕ, ℤ, ◌+◌, ◌<◌, ◌≤◌, Some};
ghost use Rattle.keeper_memory.specs.copy.Copies.{largest_limit, largest_tries};
ghost use Rattle.keeper_memory.specs.Failures.{FailurePlan};
ghost use Rattle.keeper_memory.specs.copy.HeldCopy.{empty_copy};
ghost use Rattle.keeper_memory.specs.copy.States.{stage_of};
ghost use Rattle.consumer_sync.specs.Faulted.{FaultLaw};
ghost use Rattle.exchange_link.specs.Agreement.{StageAgrees};
ghost use Rattle.exchange_link.specs.Asked.{AsksPages};
ghost use Rattle.exchange_link.specs.Between.{call_with};
ghost use Rattle.exchange_link.specs.Bounds.{Bounded, IsCallPin};
ghost use Rattle.exchange_link.specs.Causes.{ToldCause};
ghost use Rattle.exchange_link.specs.Completeness.{IsDone, StandsAt, first_pin};
ghost use Rattle.exchange_link.specs.Marks.{Agree, MarksTold};
ghost use Rattle.exchange_link.specs.Synchronised.{Synchronised, held_at, own_state};
ghost use Rattle.roster_base.specs.Faults.{Rose};
ghost use Rattle.sync_world.specs.Calls.{copy_over, link_over};
ghost use Rattle.sync_world.specs.Links.{fresh_link, link_state};
ghost use Rattle.version_core.specs.HubStates.{HubState};

use crate::world_link::WorldLink;
use consumer_sync::sync;
use exchange_link::{Link, SyncAnswer};
use keeper_memory::{CopyKeeper, LAST, MemCopy};
use roster_texts::Token;
use std::alloc::Global;

/// Copies what the token sees of the world's newest version into a copy in memory, or goes on with the stage that
/// stands under the token.
pub fn sync_over(
    alloc: Global,
    copy: &mut MemCopy,
    link: &mut WorldLink,
    token: &Token,
    limit: u32,
    tries: u32,
) -> SyncAnswer
    requires limit { (0 < limit) × (limit ≤ largest_limit) }
    requires tries { (0 < tries) × (tries ≤ largest_tries) }
    requires agree { StageAgrees copy.old.copy (link_state link.old) }
    // Copy and world agree again, and the copy has become what a synchronisation promises.
    ensures synchronised { Synchronised token.now result copy.old.copy (link_state link.old) copy.new.copy (link_state link.new) }
    // `Complete` leaves exactly what the token sees of that version of the hub.
    ensures exact { (version : ℕ) → result ≡ SyncAnswer.Complete version → copy.new.copy.held ≡ Some (held_at version token.now link.new.hub) }
    // Where nothing fails, and pin and token stand, nothing but want of memory keeps it from being complete.
    ensures complete { ¬ Rose link.old.faults link.new.faults → ¬ Rose link.old.hub_faults link.new.hub_faults → ¬ Rose copy.old.plan.faults copy.new.plan.faults
        → copy.old.copy.run ≢ LAST → StandsAt (first_pin (own_state token.now (stage_of copy.old.copy)) link.old.hub) token.now link.new.hub → IsDone result }
    // The exchanges are no more than the pages missing and the kinds left, each with its tries.
    ensures bound { (n : ℕ) × (link.new.asked ≤ link.old.asked + n)
        × Bounded n tries limit token.now (own_state token.now (stage_of copy.old.copy)) (λ version. IsCallPin result copy.new.copy link.new.sent version) link.new.hub }
    // All requests are for pages of this token and limit, each under the next number of the run.
    ensures asks { AsksPages (call_with token.now limit tries) (copy_over copy.old copy.new) (link_over link.old link.new)
        result link.old.sent link.new.sent }
    // Where the copy's keeper failed, a stage under this token ends at the swap alone, or where the hub says that its
    // pin isn't kept.
    ensures faulted { result ≡ SyncAnswer.KeeperFault → FaultLaw token.now link.new.kept copy.old.copy copy.new.copy }
    ensures cause { ToldCause token.now (link_state link.old) (link_state link.new) result }
    // What the entries of the copy and the marks of the hub agree on stays so.
    ensures marks { MarksTold copy.old.copy (link_state link.old) → MarksTold copy.new.copy (link_state link.new) }
{
    let answer = sync(alloc, copy, link, token, limit, tries);
    // Read for what they keep.
    let _ = copy.faults();
    let _ = link.faults();
    answer
}

/// An empty copy agrees with a link over which nothing was sent.
pub fn nothing_sent_agrees()
    ensures { (clock : ℤ) (hub : HubState) (hub_faults : ℕ) (plan : FailurePlan) → Agree empty_copy (link_state (fresh_link clock hub hub_faults plan)) }
{}
