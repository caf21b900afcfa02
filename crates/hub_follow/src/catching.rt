//! A copy brought up to date.

ghost use Rattle.std.specs.Prelude.{◌+◌, ◌<◌, ◌≤◌, IfErr};
ghost use Rattle.consumer_deltas.specs.DeltaAnswers.{LacksBase};
ghost use Rattle.exchange_link.specs.Agreement.{StagesAgree};
ghost use Rattle.exchange_link.specs.Completeness.{IsDone};
ghost use Rattle.exchange_link.specs.Exchanges.{LinkState};
ghost use Rattle.exchange_link.specs.Marks.{MarksTold};
ghost use Rattle.exchange_link.specs.Pairs.{AtEach, AtSome, CopyFrom};
ghost use Rattle.hub_follow.specs.Catching.{BeginsFromHeld, CatchesUp, CatchesUpTold, MayCatchUp};
ghost use Rattle.hub_follow.specs.Causes.{MissedBy, MissedTold, keeper_view, link_view};
ghost use Rattle.hub_follow.specs.Ends.{IsMiss, sync_of};
ghost use Rattle.keeper_memory.specs.copy.Copies.{Copy, largest_limit, largest_tries};
ghost use Rattle.keeper_memory.specs.declared.copy.state.TheConstants.{LAST};
ghost use Rattle.roster_base.specs.Faults.{Rose};

use crate::answer::{Missed, end_of_delta, end_of_sync, lacks_base};
use consumer_deltas::delta_sync;
use consumer_deltas::whole::sync;
use exchange_link::Link;
use keeper_memory::CopyKeeper;
use roster_texts::Token;
use std::alloc::Global;

/// Brings a copy to what the token sees of the hub's newest version: by what differs from the held version, and whole
/// where there is none that the hub could differ from. The version that the copy then holds.
pub fn catch_up<C: CopyKeeper, L: Link>(
    alloc: Global,
    copy: &mut C,
    link: &mut L,
    token: &Token,
    limit: u32,
    tries: u32,
) -> Result<u64, Missed>
    requires limit { (0 < limit) × (limit ≤ largest_limit) }
    requires tries { (0 < tries) × (tries ≤ largest_tries) }
    // Over any link.
    ensures shape { IfErr result IsMiss }
    ensures copy { CopyFrom (C.stands_for copy.old) (C.stands_for copy.new) (CatchesUp (sync_of result)) }
    ensures cause { MissedBy (keeper_view C.stands_for C.fault_count C.leads) (link_view L.tells L.asked L.missed L.kept L.fault_count L.leads) token.now limit tries copy.old copy.new link.old link.new result }
    ensures later { C.fault_count copy.old ≤ C.fault_count copy.new }
    ensures copy_leads { C.leads copy.old copy.new }
    ensures link_leads { L.leads link.old link.new }
    // Over one that tells. Where something is held under the token, the first request asks for what differs from it.
    ensures first { ((c : Copy) → C.stands_for copy.old c → LacksBase token.now c → ⊥)
        → AtEach (C.stands_for copy.new) (L.tells link.new) (λ after tells.
        (told : LinkState) × L.tells link.old told × BeginsFromHeld token.now limit (C.stands_for copy.old) told.sent tells.sent) }
    // Over one that tells, where copy and link agree.
    ensures told { StagesAgree (C.stands_for copy.old) (L.tells link.old)
        → AtEach (C.stands_for copy.new) (L.tells link.new) (λ after tells.
        AtSome (C.stands_for copy.old) (L.tells link.old) (λ before told.
        CatchesUpTold token.now (sync_of result) before told after tells)) }
    ensures cause_told { StagesAgree (C.stands_for copy.old) (L.tells link.old)
        → AtEach (C.stands_for copy.new) (L.tells link.new) (λ after tells.
        MissedTold (link_view L.tells L.asked L.missed L.kept L.fault_count L.leads) token.now link.old tells result) }
    // And where no call of the link and of the copy's keeper failed.
    ensures complete { StagesAgree (C.stands_for copy.old) (L.tells link.old)
        → ¬ Rose (L.fault_count link.old) (L.fault_count link.new) → ¬ Rose (C.fault_count copy.old) (C.fault_count copy.new)
        → AtEach (C.stands_for copy.new) (L.tells link.new) (λ after tells.
        AtSome (C.stands_for copy.old) (L.tells link.old) (λ before told.
        before.run + 1 < LAST → ¬ Rose told.hub_faults tells.hub_faults → MayCatchUp token.now (C.stands_for copy.old) before told tells → IsDone (sync_of result))) }
    // Where they agreed on marks before, they still do.
    ensures marks { AtEach (C.stands_for copy.old) (L.tells link.old) MarksTold
        → AtEach (C.stands_for copy.new) (L.tells link.new) MarksTold }
{
    let answer = delta_sync(alloc, copy, link, token, limit, tries);
    if lacks_base(answer) {
        let whole = sync(alloc, copy, link, token, limit, tries);
        end_of_sync(whole)
    } else {
        end_of_delta(answer)
    }
}
