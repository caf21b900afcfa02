//! Page after page, until all kinds are staged.

ghost use Rattle.std.specs.Prelude.{◌≡◌, ◌≢◌, ◌⊎◌, ℕ, ◌+◌, ◌<◌, ◌≤◌, Option, None, Some};
ghost use Rattle.keeper_memory.specs.copy.Copies.{Copy, largest_limit};
ghost use Rattle.keeper_memory.specs.copy.Lists.{kind_count};
ghost use Rattle.keeper_memory.specs.declared.copy.state.StageState.{StageState as State};
ghost use Rattle.exchange_link.specs.Agreement.{CopyFits};
ghost use Rattle.exchange_link.specs.Asked.{IsPageUnder, SendsOn};
ghost use Rattle.exchange_link.specs.Between.{call_with, link_between};
ghost use Rattle.exchange_link.specs.Bounds.{Bounded};
ghost use Rattle.exchange_link.specs.Calls.{CanTry, IsRunNumber};
ghost use Rattle.exchange_link.specs.Causes.{IsLast, IsMore, IsOwnReply, MissedAll, kept_of};
ghost use Rattle.exchange_link.specs.Completeness.{StandsAt, first_pin};
ghost use Rattle.exchange_link.specs.Exchanges.{LinkState};
ghost use Rattle.exchange_link.specs.Pairs.{AtEach, CopyFrom};
ghost use Rattle.exchange_link.specs.Places.{IsStaged, kinds_of, pin_of};
ghost use Rattle.http_wire.specs.declared.reply_reading.WireReply.{WireReply as Reply};
ghost use Rattle.roster_base.specs.Faults.{Rose};
ghost use Rattle.consumer_sync.specs.Faulted.{SaysGone};
ghost use Rattle.exchange_link.specs.Synchronised.{StageOn};
ghost use Rattle.consumer_sync.specs.Filling.{AreReady, AsksOnIf, CauseIf, Ends, ExactIf, HasToken, IsCallPinIf};
ghost use Rattle.consumer_sync.specs.Filling.{IsDoneIf, IsEndIf, IsSmall, PinLaw, ToldIf, TriedIf, last_asked};
ghost use Rattle.consumer_sync.specs.Filling.{request_of};
ghost use Rattle.consumer_sync.specs.Requests.{IsUnmarked};
ghost use Rattle.exchange_link.specs.Requests.{Asks, IsReady};

use crate::judging::{kind, kinds_done, staged};
use crate::page::{Asker, fetch};
use crate::staging::take_reply;
use exchange_link::{Link, Outcome, SyncAnswer};
use keeper_memory::{CopyKeeper, StageState};
use roster_values::Kind;
use std::alloc::Global;

/// How many kinds there are.
pub const KINDS: u8 = Kind::ALL.len() as u8;

/// Stages page after page, until all kinds are done, which `None` says, or an answer ends the call.
pub fn fill<C: CopyKeeper, L: Link>(
    alloc: Global,
    copy: &mut C,
    link: &mut L,
    stage: &mut Option<StageState>,
    by: Asker<'_>,
) -> Option<SyncAnswer>
    requires holds { IsStaged (C.stands_for copy.old) stage.old }
    requires token { HasToken by.token.now stage.old }
    requires few { kinds_of stage.old ≤ kind_count }
    requires run { IsRunNumber by.run }
    requires limit { (0 < by.limit) × (by.limit ≤ largest_limit) }
    requires tries { CanTry by.tries }
    ensures holds { result ≡ None → IsStaged (C.stands_for copy.new) stage.new }
    ensures done { result ≡ None → kinds_of stage.new ≡ kind_count }
    ensures copy { CopyFrom (C.stands_for copy.old) (C.stands_for copy.new) (Ends by.entry.token.now result) }
    ensures faulted { result ≡ Some SyncAnswer.KeeperFault → (after : Copy) → C.stands_for copy.new after → (before : Copy) × C.stands_for copy.old before
        × (Ends by.entry.token.now result before after × (StageOn by.entry.token.now before.stage after.stage ⊎ SaysGone (L.kept link.new))) }
    ensures link { (after : LinkState) → L.tells link.new after → (before : LinkState) × L.tells link.old before
        × (count : ℕ) × Asks by.entry.run 0 count IsUnmarked before after
        × (result ≡ None → IsSmall stage.old → IsReady by.entry.run 0 before.sent → PinLaw stage.old before.hub stage.new) }
    ensures agree { AreReady by.entry.run (C.stands_for copy.old) (L.tells link.old)
        → AtEach (C.stands_for copy.new) (L.tells link.new) (λ c t. CopyFits c t.hub) }
    ensures bound { AreReady by.entry.run (C.stands_for copy.old) (L.tells link.old)
        → AtEach (C.stands_for copy.new) (L.tells link.new) (λ c t.
        (n : ℕ) × (L.asked link.new ≤ L.asked link.old + n) × Bounded n by.entry.tries by.entry.limit by.entry.token.now stage.old (λ v. IsCallPinIf result c t.sent v) t.hub) }
    ensures complete { AreReady by.entry.run (C.stands_for copy.old) (L.tells link.old)
        → ¬ Rose (L.fault_count link.old) (L.fault_count link.new) → ¬ Rose (C.fault_count copy.old) (C.fault_count copy.new)
        → AtEach (C.stands_for copy.new) (L.tells link.new) (λ c t.
        (before : LinkState) × L.tells link.old before × (¬ Rose before.hub_faults t.hub_faults → StandsAt (first_pin stage.old before.hub) by.entry.token.now t.hub → IsDoneIf result)) }
    ensures told { AreReady by.entry.run (C.stands_for copy.old) (L.tells link.old)
        → AtEach (C.stands_for copy.new) (L.tells link.new) (λ c t.
        (before : LinkState) × L.tells link.old before × ToldIf by.entry.token.now before t result) }
    ensures ends { IsEndIf result }
    ensures later { C.fault_count copy.old ≤ C.fault_count copy.new }
    ensures copy_leads { C.leads copy.old copy.new }
    ensures link_leads { L.leads link.old link.new }
    ensures cause { (asked : Option State) × (n : ℕ) × IsMore (L.asked link.old) n (L.asked link.new)
        × CauseIf (last_asked asked by.entry.limit (kept_of (L.kept link.new) by.entry.run n))
        (MissedAll by.entry.tries (link_between L.tells L.asked L.missed L.kept L.fault_count link.old link.new) n)
        (Rose (C.fault_count copy.old) (C.fault_count copy.new)) result
        × ((w : Reply) → IsOwnReply (L.kept link.new) by.entry.run n w → ExactIf (pin_of asked) w result)
        × (1 ≤ n → result ≢ Some SyncAnswer.NoMemory → (t : LinkState) → L.tells link.new t → IsLast (request_of asked by.entry.run n by.entry.token.now by.entry.limit) t.sent)
        × (AsksOnIf result → (1 ≤ n) × IsStaged (C.stands_for copy.new) asked) }
    ensures asks { (count : ℕ) × IsMore (L.asked link.old) count (L.asked link.new)
        × ((after : LinkState) → L.tells link.new after → (before : LinkState) × L.tells link.old before
        × SendsOn (IsPageUnder by.entry.token.now by.entry.limit) by.entry.run 0 count (result ≡ Some SyncAnswer.NoMemory) before.sent after.sent
        × TriedIf result (call_with by.entry.token.now by.entry.limit by.entry.tries) by.entry.run count after.sent) }
{
    let mut count: u64 = 0;
    'rounds: while kinds_done(stage) < KINDS {
        match fetch(alloc, link, stage, by, &mut count) {
            Outcome::Own(reply) => match take_reply(
                alloc, copy, stage, by.token, by.limit, &reply,
            ) {
                None => {}
                answer => return answer,
            },
            Outcome::NoReply => {
                return Some(SyncAnswer::BadReply {
                    kind: kind(stage),
                    offset: staged(stage),
                });
            }
            Outcome::Missed => {
                return Some(SyncAnswer::Interrupted {
                    kind: kind(stage),
                    offset: staged(stage),
                });
            }
            Outcome::NoMemory => return Some(SyncAnswer::NoMemory),
        }
    }
    None
}
