//! A request on its way to a world, and the reply on its way back.

ghost use Rattle.std.specs.Prelude.{◌≡◌, ◌⊎◌, ◌<◌, ◌++◌, ◌∷◌, [], ℕ, List, None, Option, Some, IfOk, IsErr, IsOkAnd};
ghost use Rattle.std.specs.Prelude.{Err, false, true, vec_capacity, vec_len};
ghost use Rattle.exchange_link.specs.Exchanges.{IsLate, IsOwn, IsSentText, IsTextOf};
ghost use Rattle.http_wire.specs.Sending.{CanSend};
ghost use Rattle.outside_ports.specs.declared.failed.IoError.TheVariants as io_error;
ghost use Rattle.status_info.specs.declared.request.Request.{Request as Asked};
ghost use Rattle.sync_world.specs.Deliveries.{Becomes, Delivered, Gives, IsCome, Notes, OnCome, coming};
ghost use Rattle.sync_world.specs.Given.{AreGiven, is_stale, requests_in};
ghost use Rattle.sync_world.specs.Links.{world_state};
ghost use Rattle.sync_world.specs.Planned.{IsLost, MayFail, past_at, reply_of};
ghost use Rattle.sync_world.specs.Walks.{Walks};

use crate::own_text::own_text;
use crate::past::{Past, reply_at};
use crate::traffic::Fate;
use crate::world::World;
use exchange_link::request_of;
use outside_ports::IoError;
use roster_base::NoMemory;
use roster_texts::Moment;
use status_info::Request;
use std::alloc::Global;

// Has the world take a request, and gives the text of the reply.
fn answered(
    alloc: Global,
    world: &mut World,
    request: &Request,
    at: Moment,
) -> Result<Vec<u8>, NoMemory>
    requires { CanSend request.now }
    ensures walks { Walks world.old world.new }
    ensures gives { IfOk result (λ text. Gives request.now at world.old world.new text.items) }
    ensures own { (xs ys : List Asked) → IfOk result (λ text. IsOwn (world_state xs world.old) (world_state ys world.new) request.now text.items) }
{
    // Read for what it keeps.
    let _ = world.faults();
    let reply = world.take(alloc, request, at);
    let text = own_text(alloc, &reply);
    drop(reply);
    text
}

// The reply of an earlier exchange.
fn stale(alloc: Global, past: &[Past], exchange: u64) -> Result<Vec<u8>, IoError>
    requires { AreGiven past.now }
    ensures late { IfOk result (λ text. IsLate (requests_in past.now) text.items) }
    ensures exact { result ≡ Err io_error.Failed → reply_of (past_at exchange past.now) ≡ None }
    ensures same { OnCome (λ text. text.items) (λ came. came ≡ reply_of (past_at exchange past.now)) result }
{
    match reply_at(past, exchange) {
        Some(reply) => Ok(reply.to_vec(alloc)?),
        None => Err(IoError::Failed),
    }
}

// The reply that comes, or would come where it isn't lost.
fn reply_to(
    alloc: Global,
    world: &mut World,
    past: &[Past],
    request: &Request,
    at: Moment,
    fate: Fate,
) -> Result<Vec<u8>, IoError>
    requires given { AreGiven past.now }
    requires can { CanSend request.now }
    ensures walks { Walks world.old world.new }
    ensures own { is_stale fate ≡ false → (xs ys : List Asked) → IfOk result (λ text. IsOwn (world_state xs world.old) (world_state ys world.new) request.now text.items) }
    ensures late { is_stale fate ≡ true → IfOk result (λ text. IsLate (requests_in past.now) text.items) }
    ensures lost { fate ≡ Fate.RequestLost → IsErr result × (world.new ≡ world.old) }
    ensures exact { result ≡ Err io_error.Failed → MayFail fate past.now }
    ensures becomes { OnCome (λ text. text.items) (Becomes fate past.now request.now at world.old world.new) result }
{
    match fate {
        Fate::RequestLost => Err(IoError::Failed),
        Fate::Stale { reply } => stale(alloc, past, reply),
        Fate::Whole | Fate::ReplyLost => Ok(answered(alloc, world, request, at)?),
    }
}

// Notes an exchange where there is room for it, with the reply that would come.
fn enter(past: &mut Vec<Past>, exchange: u64, request: Request, reply: Option<Vec<u8>>)
    requires { vec_len past.old < vec_capacity past.old }
    ensures { past.new.items ≡ past.old.items ++ record { exchange = exchange; request = request; reply = reply } ∷ [] }
{
    let made = Past {
        exchange,
        request,
        reply,
    };
    if past.push(made).is_err() {
        unreachable!();
    }
}

// A reply that isn't lost.
fn comes(reply: Vec<u8>, fate: Fate) -> Result<Vec<u8>, IoError>
    ensures same { IfOk result (λ text. text.items ≡ reply.items) }
    ensures lost { fate ≡ Fate.ReplyLost → IsErr result }
    ensures exact { result ≡ Err io_error.Failed → fate ≡ Fate.ReplyLost }
    ensures came { OnCome (λ text. text.items) (λ came. came ≡ coming fate (Some reply.items)) result }
{
    match fate {
        Fate::ReplyLost => Err(IoError::Failed),
        _ => Ok(reply),
    }
}

// A copy of the bytes.
fn copy_of(alloc: Global, bytes: &[u8]) -> Result<Vec<u8>, NoMemory>
    ensures { IfOk result (λ copy. copy.items ≡ bytes.now) }
{
    Ok(bytes.to_vec(alloc)?)
}

// Notes an exchange with a copy of its reply, and gives the reply where it comes.
fn note(
    alloc: Global,
    past: &mut Vec<Past>,
    exchange: u64,
    request: Request,
    reply: Result<Vec<u8>, IoError>,
    fate: Fate,
) -> Result<Vec<u8>, IoError>
    requires room { vec_len past.old < vec_capacity past.old }
    requires given { AreGiven past.old.items }
    requires late { IfOk reply (λ text. IsLate (request ∷ requests_in past.old.items) text.items) }
    ensures sent { requests_in past.new.items ≡ request ∷ requests_in past.old.items }
    ensures given { AreGiven past.new.items }
    ensures same { IfOk result (λ text. IsOkAnd reply (λ own. text.items ≡ own.items)) }
    ensures lost { fate ≡ Fate.ReplyLost → IsErr result }
    ensures exact { result ≡ Err io_error.Failed → (reply ≡ Err io_error.Failed) ⊎ (fate ≡ Fate.ReplyLost) }
    ensures noted { OnCome (λ text. text.items) (λ came. (would : Option (List ℕ)) × IsCome (λ text. text.items) would reply × Notes exchange request would past.old.items past.new.items × (came ≡ coming fate would)) result }
{
    match reply {
        Err(error) => {
            enter(past, exchange, request, None);
            Err(error)
        }
        Ok(reply) => match copy_of(alloc, reply.as_slice()) {
            Ok(copy) => {
                enter(past, exchange, request, Some(copy));
                comes(reply, fate)
            }
            Err(NoMemory) => {
                enter(past, exchange, request, None);
                Err(IoError::NoMemory)
            }
        },
    }
}

/// Hands the request of a text to a world, where it isn't lost, and notes that it was sent.
pub fn deliver(
    world: &mut World,
    past: &mut Vec<Past>,
    text: &[u8],
    exchange: u64,
    at: Moment,
    fate: Fate,
) -> Result<Vec<u8>, IoError>
    requires text { IsSentText text.now }
    requires given { AreGiven past.old.items }
    ensures walks { Walks world.old world.new }
    ensures given { AreGiven past.new.items }
    ensures sent { (q : Asked) → IsTextOf q text.now → (requests_in past.new.items ≡ q ∷ requests_in past.old.items) ⊎ ((result ≡ Err io_error.NoMemory) × (past.new.items ≡ past.old.items)) }
    ensures own { is_stale fate ≡ false → (q : Asked) → IsTextOf q text.now → (xs ys : List Asked) → IfOk result (λ reply. IsOwn (world_state xs world.old) (world_state ys world.new) q reply.items) }
    ensures late { is_stale fate ≡ true → IfOk result (λ reply. IsLate (requests_in past.old.items) reply.items) }
    ensures lost { IsLost fate → IsErr result }
    ensures exact { result ≡ Err io_error.Failed → MayFail fate past.old.items }
    ensures delivered { (q : Asked) → IsTextOf q text.now → OnCome (λ reply. reply.items) (Delivered (record { number = exchange; at = at; fate = fate }) q past.old.items past.new.items world.old world.new) result }
{
    let alloc = *past.allocator();
    let request = request_of(alloc, text)?;
    past.reserve(1)?;
    let reply = reply_to(alloc, world, past.as_slice(), &request, at, fate);
    note(alloc, past, exchange, request, reply, fate)
}
