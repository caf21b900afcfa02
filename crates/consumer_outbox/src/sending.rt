//! Entry after entry, until one isn't settled by its reply.

ghost use Rattle.std.specs.Prelude.{◌≡◌, ◌≢◌, ◌⊎◌, ℕ, [], ◌∷◌, ◌+◌, ◌*◌, ◌-◌, ◌≤◌, true, IfErr, IfOk, IfSome};
ghost use Rattle.std.specs.Prelude.{IsSomeAnd, None, Some};
ghost use Rattle.keeper_memory.specs.copy.Copies.{Copy, IsOutWrite, first_unsettled};
ghost use Rattle.keeper_memory.specs.copy.States.{CanBeEntry};
ghost use Rattle.keeper_memory.specs.declared.copy.state.TheConstants.{LAST};
ghost use Rattle.exchange_link.specs.Asked.{IsTry, IsWriteUnder, SendsOn, TriedEntry};
ghost use Rattle.exchange_link.specs.Calls.{CanTry, CountsOn, IsRunNumber, KeepsNoOwn, KeepsNoReply, last_exchange};
ghost use Rattle.exchange_link.specs.Causes.{IsLast, IsMore, IsOwnReply, MissedTries, RoseBy, kept_of};
ghost use Rattle.exchange_link.specs.Exchanges.{LinkState};
ghost use Rattle.exchange_link.specs.SendCauses.{CarriesFirst, EndsAtEntry, IsSendAside, AnswersSend, SendCauseOf};
ghost use Rattle.exchange_link.specs.SendCauses.{SendToldCause};
ghost use Rattle.exchange_link.specs.SendCompleteness.{CanSendAll, IsFine};
ghost use Rattle.exchange_link.specs.Sent.{AllSettled, NamesFirst, number_in, unsettled};
ghost use Rattle.http_wire.specs.declared.reply_reading.WireReply.{WireReply as Reply};
ghost use Rattle.hub_spec.specs.marks.Marked.{mark_of, marked_by};
ghost use Rattle.roster_base.specs.Faults.{Rose};
ghost use Rattle.exchange_link.specs.Owning.{IsOwnRead};
ghost use Rattle.exchange_link.specs.Pairs.{AtEach, AtSome, CopyFrom, LinkFrom};
ghost use Rattle.exchange_link.specs.Requests.{Asks, IfOwn, IsReady, Moved, number, numbered};
ghost use Rattle.version_core.specs.HubStates.{newest_number};
ghost use Rattle.consumer_outbox.specs.Sends.{Carries, CauseIf, EndsIf, ExactIf, IsBroken, IsFineIf};
ghost use Rattle.consumer_outbox.specs.Sends.{IsInterrupted, Ready, SettledTo, SoFar, Takes, TakesAny, ToldIf};
ghost use Rattle.consumer_outbox.specs.Sends.{answer_of};
ghost use Rattle.consumer_outbox.specs.Sends.{broken_answer, request_of};
ghost use Rattle.consumer_outbox.specs.Verdicts.{does_settle, verdict_of};

use crate::halves::settled_from;
use crate::request::request_for;
use crate::verdict::{Verdict, judge};
use exchange_link::{Link, Outcome, SendAnswer, ask};
use http_wire::WireReply;
use keeper_memory::{CopyChange, CopyKeeper, LAST, OutEntry};
use roster_base::KeeperError;
use roster_texts::Token;
use std::alloc::Global;

/// What each request of a call has: whose it is, its run, and how often it is tried.
#[derive(Clone, Copy)]
pub struct Sender<'a> {
    pub token: &'a Token,
    pub run: u64,
    pub tries: u64,
}

// The answer of a call whose keeper couldn't do its work.
fn broken(error: KeeperError) -> SendAnswer
    ensures { result ≡ broken_answer error }
{
    match error {
        KeeperError::Failed => SendAnswer::KeeperFault,
        KeeperError::NoMemory => SendAnswer::NoMemory,
    }
}

// Settles the first entry that isn't settled.
fn settle<C: CopyKeeper>(
    alloc: Global,
    copy: &mut C,
    number: u64,
    status: u16,
    version: u64,
) -> Option<SendAnswer>
    requires { (c : Copy) → C.stands_for copy.old c → IsSomeAnd (first_unsettled c.entries) (λ entry. entry.number ≡ number) }
    ensures told { CopyFrom (C.stands_for copy.old) (C.stands_for copy.new) (Takes (Verdict.Settles status version) number result) }
    ensures broken { (result ≡ None) ⊎ IsBroken result }
    ensures later { C.fault_count copy.old ≤ C.fault_count copy.new }
    ensures copy_leads { C.leads copy.old copy.new }
    ensures cause { result ≡ Some SendAnswer.KeeperFault → Rose (C.fault_count copy.old) (C.fault_count copy.new) }
{
    match copy.commit(
        alloc,
        CopyChange::Settle {
            number,
            status,
            version,
        },
    ) {
        Ok(()) => None,
        Err(error) => Some(broken(error)),
    }
}

// What the own reply does to the entry that was sent, and the answer that ends the call, if it does.
fn take_reply<C: CopyKeeper>(
    alloc: Global,
    copy: &mut C,
    number: u64,
    reply: &WireReply,
) -> Option<SendAnswer>
    requires { (c : Copy) → C.stands_for copy.old c → IsSomeAnd (first_unsettled c.entries) (λ entry. entry.number ≡ number) }
    ensures told { CopyFrom (C.stands_for copy.old) (C.stands_for copy.new) (Takes (verdict_of number reply.now) number result) }
    ensures answer { (result ≡ answer_of (verdict_of number reply.now) number) ⊎ (IsBroken result × (does_settle (verdict_of number reply.now) ≡ true)) }
    ensures later { C.fault_count copy.old ≤ C.fault_count copy.new }
    ensures copy_leads { C.leads copy.old copy.new }
    ensures cause { result ≡ Some SendAnswer.KeeperFault → Rose (C.fault_count copy.old) (C.fault_count copy.new) }
{
    match judge(number, reply) {
        Verdict::Settles { status, version } => settle(alloc, copy, number, status, version),
        Verdict::UnknownToken => Some(SendAnswer::UnknownToken),
        Verdict::NoScope => Some(SendAnswer::NoScope { number }),
        Verdict::MarkTaken => Some(SendAnswer::MarkTaken { number }),
        Verdict::BadReply => Some(SendAnswer::BadReply { number }),
        Verdict::HubFault => Some(SendAnswer::HubFault { number }),
        Verdict::HubNoMemory => Some(SendAnswer::HubNoMemory { number }),
    }
}

// Sends the request of an entry until its own reply comes, at most `by.tries` times, each time under the next count of
// its run; `count` is the last one. Gives that reply, or why there is none.
fn ask_for<L: Link>(
    alloc: Global,
    link: &mut L,
    entry: OutEntry,
    by: Sender<'_>,
    count: &mut u64,
) -> Outcome
    requires write { IsOutWrite entry.write }
    requires number { (1 ≤ entry.number) × (entry.number ≤ LAST) }
    requires run { IsRunNumber by.run }
    requires tries { CanTry by.tries }
    requires few { count.old + by.tries ≤ last_exchange }
    ensures count { CountsOn count.old by.entry.tries count.new }
    ensures asked { IsMore (L.asked link.old) (count.new - count.old) (L.asked link.new) }
    ensures later { L.fault_count link.old ≤ L.fault_count link.new }
    ensures link_leads { L.leads link.old link.new }
    ensures own { IfOwn result (λ w. IsOwnReply (L.kept link.new) by.entry.run count.new w) }
    ensures none { result ≡ Outcome.NoReply → KeepsNoReply count.new (L.kept link.new) (L.tells link.new) }
    ensures missed { result ≡ Outcome.Missed → (count.new ≡ count.old + by.entry.tries) × (by.entry.tries ≤ L.missed link.new)
        × RoseBy by.entry.tries (L.fault_count link.old) (L.fault_count link.new)
        × KeepsNoOwn (L.kept link.new) by.entry.run count.new }
    ensures told { (after : LinkState) → L.tells link.new after → (before : LinkState) × L.tells link.old before
        × Asks by.entry.run count.old count.new (Carries by.entry.token.now entry) before after
        × (IsReady by.entry.run count.old before.sent → IfOwn result (λ w. IsOwnRead before after (numbered (request_of by.entry.token.now entry) (number by.entry.run count.new)) w)) }
    ensures last { result ≢ Outcome.NoMemory → (marked_by (numbered (request_of by.entry.token.now entry) (number by.entry.run count.new)) ≡ Some (mark_of entry))
        × ((after : LinkState) → L.tells link.new after → IsLast (numbered (request_of by.entry.token.now entry) (number by.entry.run count.new)) after.sent) }
    ensures asks { LinkFrom (L.tells link.old) (L.tells link.new) (λ before after.
        SendsOn (IsTry (numbered (request_of by.entry.token.now entry))) by.entry.run count.old count.new (result ≡ Outcome.NoMemory) before.sent after.sent) }
{
    match request_for(alloc, by.token, entry) {
        Ok(request) => ask(alloc, link, request, by.run, count, by.tries),
        Err(_) => Outcome::NoMemory,
    }
}

// Sends the first entry that isn't settled. `None`: it is settled by its reply.
fn send_entry<C: CopyKeeper, L: Link>(
    alloc: Global,
    copy: &mut C,
    link: &mut L,
    entry: OutEntry,
    by: Sender<'_>,
    count: &mut u64,
) -> Option<SendAnswer>
    requires first { (c : Copy) → C.stands_for copy.old c → first_unsettled c.entries ≡ Some entry }
    requires write { IsOutWrite entry.write }
    requires number { (1 ≤ entry.number) × (entry.number ≤ LAST) }
    requires run { IsRunNumber by.run }
    requires tries { CanTry by.tries }
    requires few { count.old + by.tries ≤ last_exchange }
    ensures count { CountsOn count.old by.entry.tries count.new }
    ensures asked { IsMore (L.asked link.old) (count.new - count.old) (L.asked link.new) }
    ensures heard { L.fault_count link.old ≤ L.fault_count link.new }
    ensures link_leads { L.leads link.old link.new }
    ensures later { C.fault_count copy.old ≤ C.fault_count copy.new }
    ensures copy_leads { C.leads copy.old copy.new }
    ensures copy { CopyFrom (C.stands_for copy.old) (C.stands_for copy.new) (TakesAny entry.number result) }
    ensures link { LinkFrom (L.tells link.old) (L.tells link.new) Moved }
    ensures agree { AtEach (C.stands_for copy.old) (L.tells link.old) (Ready by.entry.run count.old)
        → AtEach (C.stands_for copy.new) (L.tells link.new) (Ready by.entry.run count.new) }
    ensures told { AtEach (C.stands_for copy.old) (L.tells link.old) (Ready by.entry.run count.old)
        → AtEach (C.stands_for copy.new) (L.tells link.new) (λ c t.
        (before : LinkState) × L.tells link.old before × ToldIf by.entry.token.now before t c.entries result) }
    ensures complete { AtEach (C.stands_for copy.old) (L.tells link.old) (Ready by.entry.run count.old)
        → ¬ Rose (L.fault_count link.old) (L.fault_count link.new) → ¬ Rose (C.fault_count copy.old) (C.fault_count copy.new)
        → AtEach (C.stands_for copy.new) (L.tells link.new) (λ c t. (before : LinkState) × L.tells link.old before
        × (¬ Rose before.hub_faults t.hub_faults → CanSendAll by.entry.token.now (newest_number before.hub) (entry ∷ []) t.hub → IsFineIf result)) }
    ensures cause { CauseIf (L.kept link.new) by.entry.run count.new (MissedTries by.entry.tries (L.missed link.new) count.new (L.fault_count link.old) (L.fault_count link.new)) (Rose (C.fault_count copy.old) (C.fault_count copy.new)) result }
    ensures exact { (w : Reply) → IsOwnReply (L.kept link.new) by.entry.run count.new w → ExactIf w result }
    ensures names { IfSome result (λ a. IfSome (number_in a) (λ n. n ≡ entry.number)) }
    ensures stays { (c : Copy) → C.stands_for copy.new c → EndsIf result → first_unsettled c.entries ≡ Some entry }
    ensures last { EndsIf result → (1 ≤ count.new) × AtEach (C.stands_for copy.new) (L.tells link.new) (λ c t.
        CarriesFirst by.entry.token.now (number by.entry.run count.new) c.entries t.sent) }
    ensures asks { LinkFrom (L.tells link.old) (L.tells link.new) (λ before after.
        SendsOn (IsTry (numbered (request_of by.entry.token.now entry))) by.entry.run count.old count.new (result ≡ Some SendAnswer.NoMemory) before.sent after.sent) }
    ensures full { IsInterrupted result → count.new ≡ count.old + by.entry.tries }
{
    let number = entry.number;
    match ask_for(alloc, link, entry, by, count) {
        Outcome::Own(reply) => take_reply(alloc, copy, number, &reply),
        Outcome::NoReply => Some(SendAnswer::BadReply { number }),
        Outcome::Missed => Some(SendAnswer::Interrupted { number }),
        Outcome::NoMemory => Some(SendAnswer::NoMemory),
    }
}

// The first entry that isn't settled; those up to `after` are. Settled ones behind it are passed over by halves, up to
// `last`.
fn next_unsettled<C: CopyKeeper>(
    alloc: Global,
    copy: &mut C,
    after: u64,
    last: u64,
) -> Result<Option<OutEntry>, SendAnswer>
    requires { (c : Copy) → C.stands_for copy.old c → SettledTo after c.entries }
    ensures next { IfOk result (λ entry. (c : Copy) → C.stands_for copy.new c → first_unsettled c.entries ≡ entry) }
    ensures any { IfOk result (λ o. IfSome o (CanBeEntry after)) }
    ensures same { (c : Copy) → C.stands_for copy.new c → C.stands_for copy.old c }
    ensures later { C.fault_count copy.old ≤ C.fault_count copy.new }
    ensures copy_leads { C.leads copy.old copy.new }
    ensures cause { IfErr result (λ a. IsSendAside a × (a ≡ SendAnswer.KeeperFault → Rose (C.fault_count copy.old) (C.fault_count copy.new))) }
{
    let mut at = after;
    'settled: while at < LAST {
        match copy.entry(alloc, at) {
            Err(error) => return Err(broken(error)),
            Ok(None) => return Ok(None),
            Ok(Some(entry)) => match entry.settled {
                None => return Ok(Some(entry)),
                Some(_) => match settled_from(alloc, copy, entry.number, last) {
                    Err(error) => return Err(broken(error)),
                    Ok(number) => at = number,
                },
            },
        }
    }
    Ok(None)
}

/// Sends the entries that aren't settled, in order, until one isn't settled by its reply. `last`: the number of the
/// last entry.
pub fn send_all<C: CopyKeeper, L: Link>(
    alloc: Global,
    copy: &mut C,
    link: &mut L,
    by: Sender<'_>,
    last: u64,
) -> SendAnswer
    requires run { IsRunNumber by.run }
    requires tries { CanTry by.tries }
    ensures copy { (after : Copy) → C.stands_for copy.new after → (before : Copy) × C.stands_for copy.old before
        × ((settled : ℕ) × SoFar settled before after × AllSettled result settled after.entries)
        × (L.asked link.new ≤ L.asked link.old + by.entry.tries * unsettled before.entries) }
    ensures link { LinkFrom (L.tells link.old) (L.tells link.new) Moved }
    ensures agree { AtEach (C.stands_for copy.old) (L.tells link.old) (Ready by.entry.run 0)
        → AtEach (C.stands_for copy.new) (L.tells link.new) (λ c t. (count : ℕ) × Ready by.entry.run count c t) }
    ensures told { AtEach (C.stands_for copy.old) (L.tells link.old) (Ready by.entry.run 0)
        → AtEach (C.stands_for copy.new) (L.tells link.new) (λ c t.
        (before : LinkState) × L.tells link.old before × SendToldCause by.entry.token.now before t c.entries result) }
    ensures complete { AtEach (C.stands_for copy.old) (L.tells link.old) (Ready by.entry.run 0)
        → ¬ Rose (L.fault_count link.old) (L.fault_count link.new) → ¬ Rose (C.fault_count copy.old) (C.fault_count copy.new)
        → AtEach (C.stands_for copy.new) (L.tells link.new) (λ c t.
        AtSome (C.stands_for copy.old) (L.tells link.old) (λ b before.
        ¬ Rose before.hub_faults t.hub_faults → CanSendAll by.entry.token.now (newest_number before.hub) b.entries t.hub → IsFine result)) }
    ensures later { C.fault_count copy.old ≤ C.fault_count copy.new }
    ensures copy_leads { C.leads copy.old copy.new }
    ensures not_last { result ≢ SendAnswer.LastRun }
    ensures link_leads { L.leads link.old link.new }
    ensures cause { (n : ℕ) × IsMore (L.asked link.old) n (L.asked link.new)
        × SendCauseOf (kept_of (L.kept link.new) by.entry.run n) (MissedTries by.entry.tries (L.missed link.new) n (L.fault_count link.old) (L.fault_count link.new)) (Rose (C.fault_count copy.old) (C.fault_count copy.new)) result
        × ((w : Reply) → IsOwnReply (L.kept link.new) by.entry.run n w → IsSendAside result ⊎ AnswersSend w result)
        × ((c : Copy) → C.stands_for copy.new c → NamesFirst result c.entries)
        × (EndsAtEntry result → (1 ≤ n) × AtEach (C.stands_for copy.new) (L.tells link.new) (λ c t.
        CarriesFirst by.entry.token.now (number by.entry.run n) c.entries t.sent)) }
    ensures asks { (n : ℕ) × IsMore (L.asked link.old) n (L.asked link.new)
        × AtEach (C.stands_for copy.new) (L.tells link.new) (λ after tells.
        (before : Copy) × (told : LinkState) × C.stands_for copy.old before × L.tells link.old told
        × SendsOn (IsWriteUnder by.entry.token.now before.entries) by.entry.run 0 n (result ≡ SendAnswer.NoMemory) told.sent tells.sent
        × TriedEntry result by.entry.token.now by.entry.run n by.entry.tries after.entries tells.sent) }
{
    let mut count: u64 = 0;
    let mut after: u64 = 0;
    let mut settled: u64 = 0;
    'entries: while after < LAST {
        match next_unsettled(alloc, copy, after, last) {
            Err(answer) => return answer,
            Ok(None) => return SendAnswer::Settled { count: settled },
            Ok(Some(entry)) => {
                let number = entry.number;
                match send_entry(alloc, copy, link, entry, by, &mut count) {
                    Some(answer) => return answer,
                    None => {
                        settled += 1;
                        after = number;
                    }
                }
            }
        }
    }
    SendAnswer::Settled { count: settled }
}
