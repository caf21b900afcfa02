//! Requests for pages of what differs.

ghost use Rattle.std.specs.Prelude.{◌≡◌, ◌≢◌, ◌+◌, ◌-◌, ◌^◌, ◌<◌, ◌≤◌, IfOk, IfSome, string_bytes};
ghost use Rattle.consumer_deltas.specs.DeltaRequests.{delta_unnumbered, page_asked};
ghost use Rattle.consumer_sync.specs.Requests.{IsUnmarked};
ghost use Rattle.exchange_link.specs.Asked.{IsTry, SendsOn};
ghost use Rattle.exchange_link.specs.Calls.{CanTry, CountsOn, IsRunNumber, KeepsNoOwn, KeepsNoReply, last_exchange};
ghost use Rattle.exchange_link.specs.Causes.{IsLast, IsMore, IsOwnReply, RoseBy};
ghost use Rattle.exchange_link.specs.DeltaPages.{delta_page_request};
ghost use Rattle.exchange_link.specs.Exchanges.{LinkState};
ghost use Rattle.exchange_link.specs.Owning.{IsOwnRead};
ghost use Rattle.exchange_link.specs.Pairs.{LinkFrom};
ghost use Rattle.exchange_link.specs.Requests.{Asks, IfOwn, IsReady, number, numbered};
ghost use Rattle.http_wire.specs.Sending.{CanSend, IsSentEcho};
ghost use Rattle.hub_spec.specs.requests.DeltaRequests.{delta_query};
ghost use Rattle.status_info.specs.declared.request.Echo.{Echo as Number};

use crate::judging::Place;
use consumer_sync::page::{pin_text, read_request};
use exchange_link::{Link, Outcome, ask};
use roster_base::NoMemory;
use roster_texts::Token;
use status_info::Request;
use std::alloc::Global;

/// What each request of a call has: whose it is, the base from which it asks, how many entries it asks for, its run,
/// and how often it is tried.
#[derive(Clone, Copy)]
pub struct Asker<'a> {
    pub token: &'a Token,
    pub base: u64,
    pub limit: u64,
    pub run: u64,
    pub tries: u64,
}

// The query that asks for `limit` entries from `offset` on of what differs from the base.
#[tactic(auto, unfolding(hub_spec::specs::requests::DeltaRequests::delta_query))]
fn query_text(
    alloc: Global,
    limit: u64,
    offset: u64,
    base: u64,
    pin: Option<u64>,
) -> Result<String, NoMemory>
    ensures { IfOk result (λ s. string_bytes s ≡ delta_query limit offset base pin) }
{
    let mut query = String::from_str(alloc, "limit=")?;
    query.push_str(format!(in alloc; "{limit}")?.as_str())?;
    query.push_str("&offset=")?;
    query.push_str(format!(in alloc; "{offset}")?.as_str())?;
    query.push_str("&hubSince=")?;
    query.push_str(format!(in alloc; "{base}")?.as_str())?;
    query.push_str(pin_text(alloc, pin)?.as_str())?;
    Ok(query)
}

// The request for a page, still without a number.
fn request_for(alloc: Global, token: &Token, place: Place, offset: u64) -> Result<Request, NoMemory>
    ensures { IfOk result (λ q. q ≡ delta_unnumbered (page_asked token.now place offset) place.base) }
{
    let query = query_text(alloc, place.limit, offset, place.base, place.pin)?;
    read_request(alloc, token, place.kind, query)
}

// The request for a page, still without a number; it may be sent under each.
fn page_request(
    alloc: Global,
    token: &Token,
    place: Place,
    offset: u64,
) -> Result<Request, NoMemory>
    requires limit { place.limit < 2 ^ 64 }
    requires base { place.base < 2 ^ 64 }
    requires pin { IfSome place.pin (λ n. n < 2 ^ 64) }
    ensures request { IfOk result (λ q. q ≡ delta_unnumbered (page_asked token.now place offset) place.base) }
    ensures can { IfOk result (λ q. (n : Number) → IsSentEcho n → CanSend (numbered q n)) }
{
    // Read for what a token is.
    let _good = token.as_str();
    let request = request_for(alloc, token, place, offset)?;
    Ok(request)
}

/// Sends the request for the page of a kind's delta from `offset` on until its own reply comes, at most `by.tries`
/// times, each time under the next count of its run; `count` is the last one. Gives that reply, or why there is none.
pub fn fetch<L: Link>(
    alloc: Global,
    link: &mut L,
    by: Asker<'_>,
    place: Place,
    offset: u64,
    count: &mut u64,
) -> Outcome
    requires limit { place.limit < 2 ^ 64 }
    requires base { place.base < 2 ^ 64 }
    requires pin { IfSome place.pin (λ n. n < 2 ^ 64) }
    requires run { IsRunNumber by.run }
    requires tries { CanTry by.tries }
    requires few { count.old + by.tries ≤ last_exchange }
    ensures count { CountsOn count.old by.entry.tries count.new }
    ensures asked { IsMore (L.asked link.old) (count.new - count.old) (L.asked link.new) }
    ensures later { L.fault_count link.old ≤ L.fault_count link.new }
    ensures link_leads { L.leads link.old link.new }
    ensures own { IfOwn result (λ w. IsOwnReply (L.kept link.new) by.entry.run count.new w) }
    ensures none { result ≡ Outcome.NoReply → KeepsNoReply count.new (L.kept link.new) (L.tells link.new) }
    ensures missed { result ≡ Outcome.Missed → (count.new ≡ count.old + by.entry.tries) × (by.entry.tries ≤ L.missed link.new)
        × RoseBy by.entry.tries (L.fault_count link.old) (L.fault_count link.new)
        × KeepsNoOwn (L.kept link.new) by.entry.run count.new }
    ensures told { (after : LinkState) → L.tells link.new after → (before : LinkState) × L.tells link.old before
        × Asks by.entry.run count.old count.new IsUnmarked before after
        × (IsReady by.entry.run count.old before.sent → IfOwn result (λ w. IsOwnRead before after (delta_page_request (page_asked by.entry.token.now place offset) place.base (number by.entry.run count.new)) w)) }
    ensures last { result ≢ Outcome.NoMemory → (after : LinkState) → L.tells link.new after
        → IsLast (delta_page_request (page_asked by.entry.token.now place offset) place.base (number by.entry.run count.new)) after.sent }
    ensures asks { LinkFrom (L.tells link.old) (L.tells link.new) (λ before after.
        SendsOn (IsTry (delta_page_request (page_asked by.entry.token.now place offset) place.base)) by.entry.run count.old count.new (result ≡ Outcome.NoMemory) before.sent after.sent) }
{
    match page_request(alloc, by.token, place, offset) {
        Ok(request) => ask(alloc, link, request, by.run, count, by.tries),
        Err(_) => Outcome::NoMemory,
    }
}
