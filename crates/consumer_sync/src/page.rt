//! The requests for pages, and their replies.

ghost use Rattle.std.specs.Prelude.{◌≡◌, ◌≢◌, ◌+◌, ◌-◌, ◌<◌, ◌≤◌, IfOk, string_bytes};
ghost use Rattle.keeper_memory.specs.copy.Lists.{kind_count};
ghost use Rattle.exchange_link.specs.Asked.{IsTry, SendsOn};
ghost use Rattle.exchange_link.specs.Calls.{CanTry, CountsOn, IsRunNumber, KeepsNoOwn, KeepsNoReply, last_exchange};
ghost use Rattle.exchange_link.specs.Causes.{IsLast, IsMore, IsOwnReply, RoseBy};
ghost use Rattle.exchange_link.specs.Exchanges.{LinkState};
ghost use Rattle.exchange_link.specs.Pages.{page_request as request_under};
ghost use Rattle.exchange_link.specs.Places.{kinds_of, next_page};
ghost use Rattle.hub_spec.specs.requests.PageRequests.{page_path, page_query, pin_text};
ghost use Rattle.http_wire.specs.Sending.{CanSend, IsSentEcho};
ghost use Rattle.status_info.specs.declared.request.Echo.{Echo as Number};
ghost use Rattle.exchange_link.specs.Owning.{IsOwnRead};
ghost use Rattle.exchange_link.specs.Pairs.{LinkFrom};
ghost use Rattle.exchange_link.specs.Requests.{Asks, IfOwn, IsReady, numbered};
ghost use Rattle.consumer_sync.specs.Filling.{request_of};
ghost use Rattle.consumer_sync.specs.Requests.{IsUnmarked, read_request, unnumbered};

use crate::judging::{kind, pin, staged};
use exchange_link::{Link, Outcome, ask};
use keeper_memory::StageState;
use roster_base::{Bytes, NoMemory, Text, TryCopy};
use roster_texts::Token;
use roster_values::Kind;
use status_info::{MarkField, Request, Verb};
use std::alloc::Global;

/// What each request of a call has: whose it is, how many rows it asks for, its run, and how often it is tried.
#[derive(Clone, Copy)]
pub struct Asker<'a> {
    pub token: &'a Token,
    pub limit: u64,
    pub run: u64,
    pub tries: u64,
}

/// The path of a kind's pages.
#[tactic(auto, unfolding(hub_spec::specs::requests::PageRequests::page_path))]
fn path_text(alloc: Global, kind: Kind) -> Result<String, NoMemory>
    ensures { IfOk result (λ s. string_bytes s ≡ page_path kind) }
{
    let mut path = String::from_str(alloc, "/ims/oneroster/v1p1/")?;
    path.push_str(kind.plural())?;
    Ok(path)
}

/// What a query says of the version that is pinned, if one is.
pub fn pin_text(alloc: Global, pin: Option<u64>) -> Result<String, NoMemory>
    ensures { IfOk result (λ s. string_bytes s ≡ pin_text pin) }
{
    let mut text = String::new(alloc);
    match pin {
        None => {}
        Some(pin) => text.push_str(format!(in alloc; "&hubVersion={pin}")?.as_str())?,
    }
    Ok(text)
}

// The query that asks for `limit` rows from `offset` on.
#[tactic(auto, unfolding(hub_spec::specs::requests::PageRequests::page_query))]
fn query_text(alloc: Global, limit: u64, offset: u64, pin: Option<u64>) -> Result<String, NoMemory>
    ensures { IfOk result (λ s. string_bytes s ≡ page_query limit offset pin) }
{
    let mut query = String::from_str(alloc, "limit=")?;
    query.push_str(format!(in alloc; "{limit}")?.as_str())?;
    query.push_str("&offset=")?;
    query.push_str(format!(in alloc; "{offset}")?.as_str())?;
    query.push_str(pin_text(alloc, pin)?.as_str())?;
    Ok(query)
}

/// The request that reads rows of a kind by a query, still without a number.
pub fn read_request(
    alloc: Global,
    token: &Token,
    kind: Kind,
    query: String,
) -> Result<Request, NoMemory>
    ensures { IfOk result (λ q. q ≡ read_request token.now kind (string_bytes query)) }
{
    Ok(Request {
        verb: Verb::Get,
        path: Text::from_string(path_text(alloc, kind)?),
        query: Text::from_string(query),
        token: Some(token.copy(alloc)?),
        mark: MarkField::Nothing,
        echo: None,
        close: false,
        body: Bytes::from_vec(Vec::new(alloc)),
    })
}

// The request for a page, still without a number.
fn request_for(
    alloc: Global,
    token: &Token,
    kind: Kind,
    limit: u64,
    offset: u64,
    pin: Option<u64>,
) -> Result<Request, NoMemory>
    ensures { IfOk result (λ q. q ≡ unnumbered (record { token = token.now; kind = kind; limit = limit; offset = offset; pin = pin })) }
{
    let query = query_text(alloc, limit, offset, pin)?;
    read_request(alloc, token, kind, query)
}

/// The request for the next page of a stage, still without a number; it may be sent under each.
pub fn page_request(
    alloc: Global,
    token: &Token,
    limit: u64,
    stage: &Option<StageState>,
) -> Result<Request, NoMemory>
    requires { kinds_of stage.now < kind_count }
    ensures request { IfOk result (λ q. q ≡ unnumbered (next_page token.now limit stage.now)) }
    ensures can { IfOk result (λ q. (n : Number) → IsSentEcho n → CanSend (numbered q n)) }
{
    // Read for what a token is.
    let _good = token.as_str();
    let kind = kind(stage);
    let offset = staged(stage);
    let pin = pin(stage);
    let request = request_for(alloc, token, kind, limit, offset, pin)?;
    Ok(request)
}

/// Sends the request for the next page of a stage until its own reply comes, at most `by.tries` times, each time under
/// the next count of its run; `count` is the last one. Gives that reply, or why there is none.
pub fn fetch<L: Link>(
    alloc: Global,
    link: &mut L,
    stage: &Option<StageState>,
    by: Asker<'_>,
    count: &mut u64,
) -> Outcome
    requires room { kinds_of stage.now < kind_count }
    requires run { IsRunNumber by.run }
    requires tries { CanTry by.tries }
    requires few { count.old + by.tries ≤ last_exchange }
    ensures count { CountsOn count.old by.entry.tries count.new }
    ensures asked { IsMore (L.asked link.old) (count.new - count.old) (L.asked link.new) }
    ensures later { L.fault_count link.old ≤ L.fault_count link.new }
    ensures link_leads { L.leads link.old link.new }
    ensures own { IfOwn result (λ w. IsOwnReply (L.kept link.new) by.entry.run count.new w) }
    ensures none { result ≡ Outcome.NoReply → KeepsNoReply count.new (L.kept link.new) (L.tells link.new) }
    ensures missed { result ≡ Outcome.Missed → (count.new ≡ count.old + by.entry.tries) × (by.entry.tries ≤ L.missed link.new)
        × RoseBy by.entry.tries (L.fault_count link.old) (L.fault_count link.new)
        × KeepsNoOwn (L.kept link.new) by.entry.run count.new }
    ensures told { (after : LinkState) → L.tells link.new after → (before : LinkState) × L.tells link.old before
        × Asks by.entry.run count.old count.new IsUnmarked before after
        × (IsReady by.entry.run count.old before.sent → IfOwn result (λ w. IsOwnRead before after (request_of stage.now by.entry.run count.new by.entry.token.now by.entry.limit) w)) }
    ensures last { result ≢ Outcome.NoMemory → (after : LinkState) → L.tells link.new after → IsLast (request_of stage.now by.entry.run count.new by.entry.token.now by.entry.limit) after.sent }
    ensures asks { LinkFrom (L.tells link.old) (L.tells link.new) (λ before after.
        SendsOn (IsTry (request_under (next_page by.entry.token.now by.entry.limit stage.now))) by.entry.run count.old count.new (result ≡ Outcome.NoMemory) before.sent after.sent) }
{
    match page_request(alloc, by.token, by.limit, stage) {
        Ok(request) => ask(alloc, link, request, by.run, count, by.tries),
        Err(_) => Outcome::NoMemory,
    }
}
