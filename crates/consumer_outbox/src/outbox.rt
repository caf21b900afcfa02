//! The sending of what waits in the outbox.

ghost use Rattle.std.specs.Prelude.{◌≡◌, ◌≢◌, ◌+◌, ◌*◌, ◌<◌, ◌≤◌};
ghost use Rattle.keeper_memory.specs.copy.Copies.{Copy, largest_tries};
ghost use Rattle.keeper_memory.specs.declared.copy.state.TheConstants.{LAST};
ghost use Rattle.exchange_link.specs.Asked.{AsksWrites};
ghost use Rattle.exchange_link.specs.Between.{copy_between, copy_with, link_between};
ghost use Rattle.exchange_link.specs.Marks.{Agree};
ghost use Rattle.exchange_link.specs.Pairs.{AtEach, AtSome, CopyFrom};
ghost use Rattle.exchange_link.specs.SendCauses.{SendCaused, SendLastLaw};
ghost use Rattle.exchange_link.specs.SendCompleteness.{CanSendAll, IsFine};
ghost use Rattle.exchange_link.specs.Sent.{SendLeaves, unsettled};
ghost use Rattle.exchange_link.specs.SentTold.{WasSent};
ghost use Rattle.roster_base.specs.Faults.{Rose};
ghost use Rattle.version_core.specs.HubStates.{newest_number};
ghost use Rattle.consumer_outbox.specs.Sends.{not_begun};

use crate::sending::{Sender, send_all};
use exchange_link::{Link, NoRun, SendAnswer, begin_run};
use keeper_memory::CopyKeeper;
use roster_texts::Token;
use std::alloc::Global;

// The answer of a call that began no run.
fn not_begun(why: NoRun) -> SendAnswer
    ensures { result ≡ not_begun why }
{
    match why {
        NoRun::LastRun => SendAnswer::LastRun,
        NoRun::KeeperFault => SendAnswer::KeeperFault,
        NoRun::NoMemory => SendAnswer::NoMemory,
    }
}

/// Sends the entries that aren't settled, in the order of their numbers and marked with them, until one isn't settled
/// by its reply.
pub fn send<C: CopyKeeper, L: Link>(
    alloc: Global,
    copy: &mut C,
    link: &mut L,
    token: &Token,
    tries: u32,
) -> SendAnswer
    requires tries { (0 < tries) × (tries ≤ largest_tries) }
    // Over any link.
    ensures copy { (after : Copy) → C.stands_for copy.new after → (before : Copy) × C.stands_for copy.old before
        × SendLeaves result before after
        × (L.asked link.new ≤ L.asked link.old + tries * unsettled before.entries) }
    ensures last_run { CopyFrom (C.stands_for copy.old) (C.stands_for copy.new) (SendLastLaw result) }
    ensures copy_leads { C.leads copy.old copy.new }
    ensures link_leads { L.leads link.old link.new }
    ensures cause { SendCaused token.now tries (copy_between C.stands_for C.fault_count copy.old copy.new)
        (link_between L.tells L.asked L.missed L.kept L.fault_count link.old link.new) result }
    // Over one that tells.
    ensures asks { AtEach (C.stands_for copy.new) (L.tells link.new) (λ after tells.
        AtSome (C.stands_for copy.old) (L.tells link.old) (λ before told.
        AsksWrites token.now tries (link_between L.tells L.asked L.missed L.kept L.fault_count link.old link.new) result
        (copy_with before told) (copy_with after tells))) }
    // Over one that tells, where copy and link agree.
    ensures told { AtEach (C.stands_for copy.old) (L.tells link.old) Agree
        → AtEach (C.stands_for copy.new) (L.tells link.new) (λ after tells.
        AtSome (C.stands_for copy.old) (L.tells link.old) (λ before told.
        WasSent token.now result before told after tells)) }
    ensures complete { AtEach (C.stands_for copy.old) (L.tells link.old) Agree
        → ¬ Rose (L.fault_count link.old) (L.fault_count link.new) → ¬ Rose (C.fault_count copy.old) (C.fault_count copy.new)
        → AtEach (C.stands_for copy.new) (L.tells link.new) (λ after tells.
        AtSome (C.stands_for copy.old) (L.tells link.old) (λ before told.
        before.run ≢ LAST → ¬ Rose told.hub_faults tells.hub_faults → CanSendAll token.now (newest_number told.hub) before.entries tells.hub → IsFine result)) }
{
    match begin_run(alloc, copy) {
        Err(why) => not_begun(why),
        Ok(state) => {
            let by = Sender {
                token,
                run: state.run,
                tries: tries as u64,
            };
            send_all(alloc, copy, link, by, state.last_number)
        }
    }
}
