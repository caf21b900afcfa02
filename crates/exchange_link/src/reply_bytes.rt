//! The bytes of a reply, as they come.

ghost use Rattle.std.specs.Prelude.{◌≡◌, ◌+◌, ◌≤◌, ◌++◌, [], IfOk, IfSome, IsSome, IsSomeAnd, None, vec_len};
ghost use Rattle.exchange_link.specs.Coming.{EndsAt};

use http_wire::reply_length;
use std::alloc::{AllocError, Global};

/// The most bytes that are taken at once.
pub(crate) const CHUNK: usize = 16_384;

/// The bytes of a reply that came so far.
#[derive(Drop)]
pub(crate) struct ReplyBytes {
    bytes: Vec<u8>,
    // The length of the whole reply, once its head tells it.
    length: Option<u64>,
}

// Where the reply that these bytes begin ends, once its head is there. No byte more is wanted of what begins none.
fn end_of(bytes: &[u8]) -> Option<u64>
    ensures { EndsAt bytes.now result }
{
    match reply_length(bytes) {
        Ok(Some(length)) => Some(length),
        Ok(None) => None,
        Err(_) => Some(bytes.len() as u64),
    }
}

impl ReplyBytes {
    /// No bytes came yet.
    pub(crate) fn new(alloc: Global) -> ReplyBytes
        ensures bytes { result.bytes.items ≡ [] }
        ensures length { result.length ≡ None }
    {
        ReplyBytes {
            bytes: Vec::new(alloc),
            length: None,
        }
    }

    /// How many bytes are wanted next, at most a chunk: none once the reply is whole, and else one more than it lacks,
    /// so that a byte behind it is seen where it comes with it.
    pub(crate) fn wanted(&self) -> usize
        ensures most { result ≤ CHUNK }
        ensures whole { result ≡ 0 → IsSomeAnd self.now.length (λ n. n ≤ vec_len self.now.bytes) }
        ensures rest { IfSome self.now.length (λ n. vec_len self.now.bytes ≤ n → vec_len self.now.bytes + result ≤ n + 1) }
    {
        match self.length {
            Some(length) => match length.saturating_sub(self.bytes.len() as u64) {
                0 => 0,
                rest => rest.saturating_add(1).min(CHUNK as u64) as usize,
            },
            None => CHUNK,
        }
    }

    /// Adds bytes that came. The head is looked at until it is whole.
    pub(crate) fn add(&mut self, more: &[u8]) -> Result<(), AllocError>
        ensures bytes { IfOk result (λ _. self.new.bytes.items ≡ self.old.bytes.items ++ more.now) }
        ensures length { IsSome self.old.length → self.new.length ≡ self.old.length }
        ensures ends { IfOk result (λ _. self.old.length ≡ None → EndsAt self.new.bytes.items self.new.length) }
    {
        self.bytes.extend_from_slice(more)?;
        if self.length.is_none() {
            self.length = end_of(self.bytes.as_slice());
        }
        Ok(())
    }

    /// The bytes that came. Those behind the reply are left there: with them it is none.
    pub(crate) fn into_bytes(self) -> Vec<u8>
        ensures { result.items ≡ self.bytes.items }
    {
        let ReplyBytes { bytes, length: _ } = self;
        bytes
    }
}
