//! What came of an exchange.

ghost use Rattle.std.specs.Prelude.{◌≡◌, [], IfOk, IfSome};
ghost use Rattle.http_wire.specs.Answers.{IsReplyText};

use http_wire::{WireFault, WireReply, parse_reply};
use roster_base::NoMemory;
use std::alloc::Global;
use std::marker::Model;

/// Bytes that came, which are read once: beside them stands the reply that they are, if they are one, until it is
/// taken. A clause sees the bytes alone.
#[derive(Drop)]
pub(crate) struct Arrival {
    bytes: Vec<u8>,
    reply: Option<WireReply>,
}

impl Model for Arrival {
    ghost use Rattle.std.specs.Prelude.{ℕ, List, IfSome};
    ghost use Rattle.http_wire.specs.Answers.{IsReplyText};

    ghost Value = { List ℕ };

    ghost view = { λ came. came.bytes.items };

    ghost invariant = { λ came. IfSome came.reply (λ w. IsReplyText came.bytes.items w) };
}

impl Arrival {
    /// Nothing came.
    pub(crate) fn nothing(alloc: Global) -> Arrival
        ensures { result ≡ [] }
    {
        Arrival {
            bytes: Vec::new(alloc),
            reply: None,
        }
    }

    /// Reads bytes that came.
    pub(crate) fn read(alloc: Global, bytes: Vec<u8>) -> Result<Arrival, NoMemory>
        ensures { IfOk result (λ came. came ≡ bytes.items) }
    {
        let reply = match parse_reply(alloc, bytes.as_slice()) {
            Ok(reply) => Some(reply),
            Err(WireFault::NoMemory) => return Err(NoMemory),
            Err(_) => None,
        };
        Ok(Arrival { bytes, reply })
    }

    /// The bytes.
    pub(crate) fn bytes(&self) -> &[u8]
        ensures { result.now ≡ self.now }
    {
        &self.bytes
    }

    /// The reply that they are, where it wasn't taken.
    pub(crate) fn reply(&self) -> Option<&WireReply>
        ensures { IfSome result (λ w. IsReplyText self.now w.now) }
    {
        self.reply.as_ref()
    }

    /// Takes the reply that they are.
    pub(crate) fn take_reply(&mut self) -> Option<WireReply>
        ensures bytes { self.new ≡ self.old }
        ensures reads { IfSome result (λ w. IsReplyText self.old w) }
    {
        self.reply.take()
    }
}
