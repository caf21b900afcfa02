//! The request of an entry.

ghost use Rattle.std.specs.Prelude.{◌≡◌, ◌≤◌, if◌then◌else◌, IfOk, Some};
ghost use Rattle.keeper_memory.specs.copy.Copies.{IsOutWrite};
ghost use Rattle.keeper_memory.specs.declared.copy.state.TheConstants.{LAST};
ghost use Rattle.http_wire.specs.Sending.{CanSend, IsSentEcho};
ghost use Rattle.hub_spec.specs.marks.Marked.{mark_of, marked_by};
ghost use Rattle.status_info.specs.declared.request.Echo.{Echo as Number};
ghost use Rattle.exchange_link.specs.Requests.{numbered};
ghost use Rattle.consumer_outbox.specs.Sends.{request_of};

use keeper_memory::OutEntry;
use roster_base::{NoMemory, Text, TryCopy};
use roster_texts::Token;
use roster_types::cells::href;
use status_info::{MarkField, Request, Verb};
use std::alloc::Global;

// The verb of a write, by whether it deletes.
fn verb(delete: bool) -> Verb
    ensures { result ≡ if delete then Verb.Delete else Verb.Put }
{
    if delete { Verb::Delete } else { Verb::Put }
}

// The parts of an entry's request, put together.
fn build(alloc: Global, token: &Token, entry: OutEntry) -> Result<Request, NoMemory>
    ensures { IfOk result (λ q. q ≡ request_of token.now entry) }
{
    let path = href(alloc, entry.write.kind, &entry.write.id)?;
    let token = token.copy(alloc)?;
    Ok(Request {
        verb: verb(entry.write.delete),
        path: Text::from_string(path),
        query: Text::from_string(String::new(alloc)),
        token: Some(token),
        mark: MarkField::Number(entry.number),
        echo: None,
        close: false,
        body: entry.write.body,
    })
}

/// The request that sends an entry, still without a number of its exchange; it may be sent under each, and a hub reads
/// in it the entry's write, under its mark.
pub fn request_for(alloc: Global, token: &Token, entry: OutEntry) -> Result<Request, NoMemory>
    requires write { IsOutWrite entry.write }
    requires number { (1 ≤ entry.number) × (entry.number ≤ LAST) }
    ensures request { IfOk result (λ q. q ≡ request_of token.now entry) }
    ensures can { IfOk result (λ q. (n : Number) → IsSentEcho n → CanSend (numbered q n)) }
    ensures read { IfOk result (λ q. (n : Number) → marked_by (numbered q n) ≡ Some (mark_of entry)) }
{
    // Read for what a token and an id are.
    let _token = token.as_str();
    let _id = entry.write.id.as_str();
    build(alloc, token, entry)
}
