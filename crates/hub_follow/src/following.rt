//! Another hub followed.

ghost use Rattle.std.specs.Prelude.{◌≡◌, ◌+◌, ◌<◌, ◌≤◌, IfErr, ⊤};
ghost use Rattle.consumer_deltas.specs.DeltaAnswers.{LacksBase};
ghost use Rattle.exchange_link.specs.Agreement.{StagesAgree};
ghost use Rattle.exchange_link.specs.Completeness.{IsDone};
ghost use Rattle.exchange_link.specs.Exchanges.{LinkState};
ghost use Rattle.exchange_link.specs.Marks.{MarksTold};
ghost use Rattle.exchange_link.specs.Pairs.{AtEach, AtSome, CopyFrom};
ghost use Rattle.hub_cascade.specs.Answers.{CountsCopy, CountsHub, LeavesOpen, MakesCascade, TellsHeld};
ghost use Rattle.hub_cascade.specs.Cascading.{active_rows, current_rows};
ghost use Rattle.hub_cascade.specs.Held.{CascadesHeld, held_rows};
ghost use Rattle.hub_core.specs.Standing.{IsStanding, KeeperFits, StandsFrom};
ghost use Rattle.hub_follow.specs.Catching.{BeginsFromHeld, CatchesUp, CatchesUpTold, MayCatchUp, rows_seen};
ghost use Rattle.hub_follow.specs.Causes.{MissedBy, MissedTold, keeper_view, link_view};
ghost use Rattle.hub_follow.specs.Ends.{IfCascaded, IfDone, IsFollowed, IsMiss, sync_of, synced};
ghost use Rattle.hub_spec.specs.rules.Checks.{version_at};
ghost use Rattle.keeper_memory.specs.Kept.{KeptState, newest_kept};
ghost use Rattle.keeper_memory.specs.copy.Copies.{Copy, largest_limit, largest_tries};
ghost use Rattle.keeper_memory.specs.declared.copy.state.TheConstants.{LAST};
ghost use Rattle.roster_base.specs.Faults.{Rose};
ghost use Rattle.version_changes.specs.declared.sets.publish_fault.PublishFault.{PublishFault};
ghost use Rattle.version_changes.specs.sets.Applying.{Refuses};

use crate::answer::{FollowAnswer, FollowTask, after_cascade, answer_of_miss};
use crate::catching::catch_up;
use exchange_link::Link;
use hub_cascade::cascade;
use hub_core::Hub;
use keeper_memory::{CopyKeeper, HubKeeper};
use std::alloc::Global;

/// Brings a copy up to date with another hub, and cascades what it then holds into this one.
pub fn follow<H: HubKeeper, C: CopyKeeper, L: Link>(
    alloc: Global,
    hub: &mut Hub,
    keeper: &mut H,
    copy: &mut C,
    link: &mut L,
    task: FollowTask<'_>,
) -> FollowAnswer
    requires fits { KeeperFits (H.stands_for keeper.old) hub.old }
    requires limit { (0 < task.limit) × (task.limit ≤ largest_limit) }
    requires tries { (0 < task.tries) × (task.tries ≤ largest_tries) }
    // The hub: after a synchronisation that wasn't complete it is as before, and else what a cascade of the copy makes
    // of it.
    ensures fits { KeeperFits (H.stands_for keeper.new) hub.new }
    ensures told { StandsFrom (H.stands_for keeper.old) (H.stands_for keeper.new) hub.old hub.new
        (λ before after. IfCascaded result (λ made. MakesCascade (CascadesHeld (C.stands_for copy.new) task.entry.feed.now task.entry.at) made before after) (after ≡ before)) }
    ensures unmoved { IfCascaded result (λ made. ⊤) ((hub.new ≡ hub.old) × (keeper.new ≡ keeper.old)) }
    ensures held { IfCascaded result (TellsHeld (C.stands_for copy.new)) ⊤ }
    ensures settled { IfCascaded result (λ made. LeavesOpen made hub.new.commit_open) ⊤ }
    ensures keeps { hub.new.keeps ≡ hub.old.keeps }
    ensures hub_cause { IfCascaded result (CountsHub (H.fault_count keeper.old) (H.fault_count keeper.new)) ⊤ }
    ensures hub_leads { H.leads keeper.old keeper.new }
    // The copy, over any link.
    ensures shape { IfErr (synced result) IsMiss }
    ensures copy { CopyFrom (C.stands_for copy.old) (C.stands_for copy.new) (CatchesUp (sync_of (synced result))) }
    ensures cause { MissedBy (keeper_view C.stands_for C.fault_count C.leads) (link_view L.tells L.asked L.missed L.kept L.fault_count L.leads) task.entry.token.now task.entry.limit task.entry.tries copy.old copy.new link.old link.new (synced result) }
    ensures copy_cause { IfCascaded result (λ made. (held : C) × C.leads copy.old held × C.leads held copy.new × (C.fault_count copy.old ≤ C.fault_count held) × CountsCopy (C.fault_count held) (C.fault_count copy.new) made) ⊤ }
    ensures later { C.fault_count copy.old ≤ C.fault_count copy.new }
    ensures copy_leads { C.leads copy.old copy.new }
    ensures link_leads { L.leads link.old link.new }
    // Over one that tells. Where something is held under the token, the first request asks for what differs from it.
    ensures first { ((c : Copy) → C.stands_for copy.old c → LacksBase task.entry.token.now c → ⊥)
        → AtEach (C.stands_for copy.new) (L.tells link.new) (λ after tells.
        (told : LinkState) × L.tells link.old told × BeginsFromHeld task.entry.token.now task.entry.limit (C.stands_for copy.old) told.sent tells.sent) }
    // Over one that tells, where copy and link agree.
    ensures synchronised { StagesAgree (C.stands_for copy.old) (L.tells link.old)
        → AtEach (C.stands_for copy.new) (L.tells link.new) (λ after tells.
        AtSome (C.stands_for copy.old) (L.tells link.old) (λ before told.
        CatchesUpTold task.entry.token.now (sync_of (synced result)) before told after tells)) }
    ensures cause_told { StagesAgree (C.stands_for copy.old) (L.tells link.old)
        → AtEach (C.stands_for copy.new) (L.tells link.new) (λ after tells.
        MissedTold (link_view L.tells L.asked L.missed L.kept L.fault_count L.leads) task.entry.token.now link.old tells (synced result)) }
    // And where no call of the link and of the copy's keeper failed.
    ensures caught { StagesAgree (C.stands_for copy.old) (L.tells link.old)
        → ¬ Rose (L.fault_count link.old) (L.fault_count link.new) → ¬ Rose (C.fault_count copy.old) (C.fault_count copy.new)
        → AtEach (C.stands_for copy.new) (L.tells link.new) (λ after tells.
        AtSome (C.stands_for copy.old) (L.tells link.old) (λ before told.
        before.run + 1 < LAST → ¬ Rose told.hub_faults tells.hub_faults → MayCatchUp task.entry.token.now (C.stands_for copy.old) before told tells → IsDone (sync_of (synced result)))) }
    // And where no call of the hub's keeper failed, and the cascade refuses nothing.
    ensures complete { StagesAgree (C.stands_for copy.old) (L.tells link.old)
        → ¬ Rose (L.fault_count link.old) (L.fault_count link.new) → ¬ Rose (C.fault_count copy.old) (C.fault_count copy.new)
        → ¬ Rose (H.fault_count keeper.old) (H.fault_count keeper.new)
        → AtEach (C.stands_for copy.new) (L.tells link.new) (λ after tells.
        AtSome (C.stands_for copy.old) (L.tells link.old) (λ before told.
        before.run + 1 < LAST → ¬ Rose told.hub_faults tells.hub_faults → MayCatchUp task.entry.token.now (C.stands_for copy.old) before told tells
        → ((standing : KeptState) (fault : PublishFault) → IsStanding hub.old standing → CascadesHeld (C.stands_for copy.new) task.entry.feed.now task.entry.at (newest_kept standing.versions) (Refuses fault) → ⊥) → IsFollowed result)) }
    // Where they agreed on marks before, they still do.
    ensures marks { AtEach (C.stands_for copy.old) (L.tells link.old) MarksTold
        → AtEach (C.stands_for copy.new) (L.tells link.new) MarksTold }
    // The active rows of the feed are exactly those that the copy holds, and so those that the token sees of the
    // version of the other hub.
    ensures served { IfDone result (λ version. (c : Copy) → C.stands_for copy.new c → current_rows task.entry.feed.now (newest_kept hub.new.kept.versions).rows ≡ active_rows (held_rows c)) }
    ensures done_shows { StagesAgree (C.stands_for copy.old) (L.tells link.old)
        → AtEach (C.stands_for copy.new) (L.tells link.new) (λ after tells.
        IfDone result (λ version. current_rows task.entry.feed.now (newest_kept hub.new.kept.versions).rows ≡ active_rows (rows_seen (version_at tells.hub version) task.entry.token.now))) }
{
    match catch_up(alloc, copy, link, task.token, task.limit, task.tries) {
        Ok(version) => {
            let made = cascade(alloc, hub, keeper, copy, task.feed, task.at);
            after_cascade(version, made)
        }
        Err(missed) => answer_of_miss(missed),
    }
}
