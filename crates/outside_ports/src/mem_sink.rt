//! A sink in memory.

ghost use Rattle.std.specs.Prelude.{◌≡◌, ◌++◌, ◌-◌, ◌<◌, ◌≤◌, ◌↔◌, ◌⊎◌, [], Some, IsErr, is_err, take, length, min};
ghost use Rattle.std.specs.Prelude.{IsTrue, IfOk};
ghost use Rattle.roster_base.specs.Faults.{HasCause};
ghost use Rattle.outside_ports.specs.Calls.{after_answer, is_next_listed, no_calls};
ghost use Rattle.outside_ports.specs.HeldBytes.{wanted, with_front};
ghost use Rattle.outside_ports.specs.Written.{AppendsPart, Writes};

use crate::calls::Calls;
use crate::failed::Failed;
use crate::sink::Sink;
use roster_base::NoMemory;
use std::alloc::Global;
use std::marker::Model;

/// A sink with room for some bytes, which tells what was written, and the numbers, from 1, of the calls that fail.
///
/// A listed call writes the first half of its piece, rounded down, as far as the room goes. A piece that is longer than
/// the room left fails too, and fills the room.
#[derive(Drop)]
pub struct MemSink {
    bytes: Vec<u8>,
    room: usize,
    calls: Calls,
}

impl Model for MemSink {
    ghost use Rattle.std.specs.Prelude.{◌+◌, ◌≤◌, vec_len, vec_capacity};
    ghost use Rattle.outside_ports.specs.HeldBytes.{HeldBytes};

    ghost Value = { HeldBytes };

    ghost view = { λ s. record { written = s.bytes.items; room = s.room; calls = s.calls } };

    // The memory for the room is there already.
    ghost invariant = { λ s. vec_len s.bytes + s.room ≤ vec_capacity s.bytes };
}

impl MemSink {
    /// Takes the memory for `room` bytes at once, so that no write takes any.
    pub fn new(alloc: Global, room: u64, failing: Vec<u64>) -> Result<MemSink, NoMemory>
        ensures { IfOk result
            (λ s. s ≡ record { written = []; room = room; calls = no_calls failing.items }) }
    {
        let room = room as usize;
        Ok(MemSink {
            bytes: Vec::with_capacity(alloc, room)?,
            room,
            calls: Calls::new(failing),
        })
    }

    /// What was written.
    pub fn written(&self) -> &[u8]
        ensures { result.now ≡ self.now.written }
    {
        self.bytes.as_slice()
    }

    // Writes a front of a piece, as far as the room goes.
    fn put(&mut self, piece: &[u8], count: usize)
        requires { count ≤ length piece.now }
        ensures exact { self.new ≡ with_front self.old count piece.now }
        ensures front { AppendsPart (Some self.old.written) (Some self.new.written) piece.now }
    {
        let taken = count.min(self.room);
        // It can't fail: the memory for the room is there already.
        let _ = self.bytes.extend_from_slice(&piece[..taken]);
        self.room -= taken;
    }
}

impl Sink for MemSink {
    ghost use Rattle.std.specs.Prelude.{Some};

    ghost written = { λ s. Some s.written };

    ghost faults = { λ s. s.calls.faults };

    fn write_all(&mut self, bytes: &[u8]) -> Result<(), Failed>
        ensures bytes { Writes (Some self.old.written) (Some self.new.written) bytes.now result }
        ensures cause { HasCause self.old.calls.faults self.new.calls.faults result }
        // It fails exactly at the listed calls and where the room left is too small.
        ensures exact { IsErr result
            ↔ (IsTrue (is_next_listed self.old.calls) ⊎ (self.old.room < length bytes.now)) }
        // A listed call wants half of the piece written, and any other all of it.
        ensures written { self.new.written
            ≡ self.old.written ++ take (min (wanted self.old bytes.now) self.old.room) bytes.now }
        ensures room { self.new.room ≡ self.old.room - wanted self.old bytes.now }
        ensures calls { self.new.calls ≡ after_answer (is_err result) self.old.calls }
    {
        if self.calls.begin() {
            self.calls.fail();
            self.put(bytes, bytes.len() / 2);
            return Err(Failed);
        }
        if bytes.len() > self.room {
            self.calls.fail();
            self.put(bytes, bytes.len());
            return Err(Failed);
        }
        self.put(bytes, bytes.len());
        Ok(())
    }

    fn write_faults(&self) -> u64 {
        self.calls.faults()
    }
}
