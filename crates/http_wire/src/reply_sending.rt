//! A reply's text in few pieces.

ghost use Rattle.std.specs.Prelude.{◌≡◌, IfOk};
ghost use Rattle.roster_base.specs.Faults.{HasCause};
ghost use Rattle.outside_ports.specs.Written.{Writes};
ghost use Rattle.http_wire.specs.Replies.{head_text, reply_text};

use crate::growing_text::GrowingText;
use crate::reply_text::{write_body, write_head, write_reply};
use outside_ports::{Failed, Sink};
use roster_base::NoMemory;
use status_info::Reply;
use std::alloc::Global;

// How many bytes a body may have that is sent in one piece with its head.
const MOST_GATHERED: usize = 65_536;

/// The text of a reply, in memory.
pub fn reply_bytes(alloc: Global, reply: &Reply) -> Result<Vec<u8>, NoMemory>
    ensures { IfOk result (λ text. text.items ≡ reply_text reply.now) }
{
    let mut text = GrowingText::new(alloc);
    match write_reply(&mut text, reply) {
        Ok(()) => Ok(text.bytes),
        Err(Failed) => Err(NoMemory),
    }
}

// The text in front of the body, in memory.
fn head_bytes(alloc: Global, reply: &Reply) -> Result<Vec<u8>, NoMemory>
    ensures { IfOk result (λ text. text.items ≡ head_text reply.now) }
{
    let mut text = GrowingText::new(alloc);
    match write_head(&mut text, reply) {
        Ok(()) => Ok(text.bytes),
        Err(Failed) => Err(NoMemory),
    }
}

// Writes a reply in two pieces.
fn send_head_and_body<W: Sink>(sink: &mut W, head: &[u8], reply: &Reply) -> Result<(), Failed>
    requires { head.now ≡ head_text reply.now }
    ensures bytes { Writes (W.written sink.old) (W.written sink.new) (reply_text reply.now) result }
    ensures cause { HasCause (W.faults sink.old) (W.faults sink.new) result }
{
    sink.write_all(head)?;
    write_body(sink, reply)
}

/// Writes the text of a reply in one piece, or where its body has more than 64 KB in two: a peer on a socket waits less
/// for few pieces than for many. Where memory runs out it is written as `write_reply` writes it.
pub fn send_reply<W: Sink>(alloc: Global, sink: &mut W, reply: &Reply) -> Result<(), Failed>
    ensures bytes { Writes (W.written sink.old) (W.written sink.new) (reply_text reply.now) result }
    ensures cause { HasCause (W.faults sink.old) (W.faults sink.new) result }
{
    if reply.body.as_str().len() <= MOST_GATHERED {
        if let Ok(text) = reply_bytes(alloc, reply) {
            return sink.write_all(text.as_slice());
        }
    } else if let Ok(head) = head_bytes(alloc, reply) {
        return send_head_and_body(sink, head.as_slice(), reply);
    }
    write_reply(sink, reply)
}
