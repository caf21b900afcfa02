//! One request, tried until its own reply comes.

ghost use Rattle.std.specs.Prelude.{◌≡◌, ◌≢◌, ◌+◌, ◌-◌, ◌≤◌, Some};
ghost use Rattle.exchange_link.specs.Exchanges.{IsTextOf, Misses, LinkState};
ghost use Rattle.http_wire.specs.Answers.{IsNoReply, IsReplyText};
ghost use Rattle.http_wire.specs.Sending.{CanSend, IsSentEcho};
ghost use Rattle.http_wire.specs.declared.reply_reading.WireReply.{WireReply as Reply};
ghost use Rattle.status_info.specs.declared.request.Echo.{Echo as Number};
ghost use Rattle.status_info.specs.declared.request.Request.{Request as Asked};
ghost use Rattle.roster_base.specs.Faults.{Rose};
ghost use Rattle.exchange_link.specs.Causes.{IsOwnReply};
ghost use Rattle.exchange_link.specs.Owning.{IsOwnRead, Tries};
ghost use Rattle.exchange_link.specs.Requests.{Asks, IfOwn, IsNumbered, IsReady, is_number, number, numbered};
ghost use Rattle.exchange_link.specs.Asked.{IsTry, SendsOn};
ghost use Rattle.exchange_link.specs.Calls.{CanTry, CountsOn, IsRunNumber, KeepsNoOwn, KeepsNoReply, last_exchange};
ghost use Rattle.exchange_link.specs.Causes.{IsLast, IsMore, RoseBy};
ghost use Rattle.exchange_link.specs.Pairs.{LinkFrom};

use crate::link::Link;
use http_wire::{WireFault, WireReply, parse_reply, write_request};
use outside_ports::IoError;
use status_info::{Echo, Request};
use std::alloc::Global;

/// What became of a request.
#[derive(Drop)]
pub enum Outcome {
    /// Its own reply came.
    Own(WireReply),
    /// Bytes came that are no reply.
    NoReply,
    /// Nothing came, or a reply with another number.
    Missed,
    /// Memory ran out.
    NoMemory,
}

// Whether a reply carries this number.
fn carries(reply: &WireReply, number: Echo) -> bool
    ensures { result ≡ is_number reply.now.echo number }
{
    match reply.echo {
        None => false,
        Some(n) => n.run == number.run && n.count == number.count,
    }
}

// What a reply is to the request with this number: its own, or that to another.
fn judge(reply: WireReply, number: Echo) -> Outcome
    ensures own { IfOwn result (λ w. (w ≡ reply) × (w.echo ≡ Some number)) }
    ensures some { result ≢ Outcome.NoReply }
    ensures missed { result ≡ Outcome.Missed → (reply.echo ≡ Some number) → ⊥ }
{
    if carries(&reply, number) {
        Outcome::Own(reply)
    } else {
        Outcome::Missed
    }
}

// What the bytes are that came.
fn read_own(alloc: Global, bytes: &[u8], number: Echo) -> Outcome
    ensures own { IfOwn result (λ w. IsReplyText bytes.now w × (w.echo ≡ Some number)) }
    ensures none { result ≡ Outcome.NoReply → IsNoReply bytes.now }
    ensures missed { result ≡ Outcome.Missed → (w : Reply) × IsReplyText bytes.now w × ((w.echo ≡ Some number) → ⊥) }
{
    match parse_reply(alloc, bytes) {
        Ok(reply) => judge(reply, number),
        Err(fault) => match fault {
            WireFault::NoMemory => Outcome::NoMemory,
            _ => Outcome::NoReply,
        },
    }
}

// What the answer is that a link keeps. One that the link has read isn't read again.
fn read_kept<L: Link>(alloc: Global, link: &mut L, number: Echo) -> Outcome
    ensures same { link.new ≡ link.old }
    ensures own { IfOwn result (λ w. IsReplyText (L.kept link.old) w × (w.echo ≡ Some number)) }
    ensures none { result ≡ Outcome.NoReply → IsNoReply (L.kept link.old) }
    ensures missed { result ≡ Outcome.Missed → (w : Reply) × IsReplyText (L.kept link.old) w × ((w.echo ≡ Some number) → ⊥) }
{
    match link.take_parsed() {
        Some(reply) => judge(reply, number),
        None => read_own(alloc, link.reply(), number),
    }
}

// One exchange of a request's text.
fn once<L: Link>(alloc: Global, link: &mut L, text: &[u8], number: Echo) -> Outcome
    requires { (q : Asked) × IsTextOf q text.now × (q.echo ≡ Some number) }
    ensures own { IfOwn result (λ w. IsReplyText (L.kept link.new) w × (w.echo ≡ Some number)) }
    ensures none { result ≡ Outcome.NoReply → IsNoReply (L.kept link.new) × ((after : LinkState) → L.tells link.new after → ⊥) }
    ensures missed { result ≡ Outcome.Missed → Rose (L.fault_count link.old) (L.fault_count link.new)
        × ((w : Reply) → IsReplyText (L.kept link.new) w → w.echo ≡ Some number → ⊥) }
    ensures misses { Misses (Rose (L.fault_count link.old) (L.fault_count link.new)) (L.missed link.old) (L.missed link.new) }
    ensures asked { IsMore (L.asked link.old) 1 (L.asked link.new) }
    ensures later { L.fault_count link.old ≤ L.fault_count link.new }
    ensures link_leads { L.leads link.old link.new }
    ensures told { (q : Asked) → IsTextOf q text.now → LinkFrom (L.tells link.old) (L.tells link.new) (Tries q result) }
{
    match link.exchange(alloc, text) {
        Ok(()) => read_kept(alloc, link, number),
        Err(IoError::Failed) => Outcome::Missed,
        Err(IoError::NoMemory) => Outcome::NoMemory,
    }
}

/// Sends a request until its own reply comes, at most `tries` times, each time under the next count of its run; `count`
/// is the last one, and `request` has no number of its own. Gives that reply, or why there is none.
pub fn ask<L: Link>(
    alloc: Global,
    link: &mut L,
    mut request: Request,
    run: u64,
    count: &mut u64,
    tries: u64,
) -> Outcome
    requires can { (n : Number) → IsSentEcho n → CanSend (numbered request n) }
    requires run { IsRunNumber run }
    requires tries { CanTry tries }
    requires few { count.old + tries ≤ last_exchange }
    ensures count { CountsOn count.old tries count.new }
    ensures asked { IsMore (L.asked link.old) (count.new - count.old) (L.asked link.new) }
    ensures later { L.fault_count link.old ≤ L.fault_count link.new }
    ensures link_leads { L.leads link.old link.new }
    ensures own { IfOwn result (λ w. IsOwnReply (L.kept link.new) run count.new w) }
    ensures none { result ≡ Outcome.NoReply → KeepsNoReply count.new (L.kept link.new) (L.tells link.new) }
    ensures missed { result ≡ Outcome.Missed → (count.new ≡ count.old + tries) × (tries ≤ L.missed link.new)
        × RoseBy tries (L.fault_count link.old) (L.fault_count link.new)
        × KeepsNoOwn (L.kept link.new) run count.new }
    ensures told { (after : LinkState) → L.tells link.new after → (before : LinkState) × L.tells link.old before
        × Asks run count.old count.new (IsNumbered request) before after
        × (IsReady run count.old before.sent → IfOwn result (λ w. IsOwnRead before after (numbered request (number run count.new)) w)) }
    ensures last { result ≢ Outcome.NoMemory → (after : LinkState) → L.tells link.new after → IsLast (numbered request (number run count.new)) after.sent }
    // Each exchange sent this request, under the next count.
    ensures asks { LinkFrom (L.tells link.old) (L.tells link.new) (λ before after.
        SendsOn (IsTry (numbered request)) run count.old count.new (result ≡ Outcome.NoMemory) before.sent after.sent) }
{
    for i in 0..tries {
        let number = Echo {
            run,
            count: *count + 1,
        };
        request.echo = Some(number);
        let text = match write_request(alloc, &request) {
            Ok(text) => text,
            Err(_) => return Outcome::NoMemory,
        };
        *count += 1;
        match once(alloc, link, text.as_slice(), number) {
            Outcome::Missed => {}
            other => return other,
        }
    }
    Outcome::Missed
}
