//! A source in memory.

ghost use Rattle.std.specs.Prelude.{◌≡◌, ◌<◌, ◌≤◌, ◌↔◌, Some, IsErr, IsTrue, IfOk, drop, length, take};
ghost use Rattle.roster_base.specs.Faults.{HasCause};
ghost use Rattle.outside_ports.specs.Calls.{after_call, is_next_listed, no_calls};
ghost use Rattle.outside_ports.specs.Given.{Reads, Spends};
ghost use Rattle.outside_ports.specs.HeldInput.{given};

use crate::calls::Calls;
use crate::failed::Failed;
use crate::source::Source;
use std::marker::Model;

/// Bytes in memory, which it tells, the most bytes of each read in turn, and the numbers, from 1, of the calls that
/// fail.
///
/// A cut of 0 counts as 1. A call that fails uses no cut, and a read behind the last cut gives all that the buffer
/// takes.
#[derive(Drop)]
pub struct MemSource {
    bytes: Vec<u8>,
    taken: usize,
    cuts: Vec<usize>,
    cuts_made: usize,
    calls: Calls,
}

impl Model for MemSource {
    ghost use Rattle.std.specs.Prelude.{◌≤◌, drop, vec_len};
    ghost use Rattle.outside_ports.specs.HeldInput.{HeldInput};

    ghost Value = { HeldInput };

    ghost view = { λ s. record {
      left = drop s.taken s.bytes.items;
      cuts = drop s.cuts_made s.cuts.items;
      calls = s.calls;
    } };

    ghost invariant = { λ s. s.taken ≤ vec_len s.bytes };
}

impl MemSource {
    /// The source of these bytes.
    pub fn new(bytes: Vec<u8>, cuts: Vec<usize>, failing: Vec<u64>) -> MemSource
        ensures { result ≡ record { left = bytes.items; cuts = cuts.items; calls = no_calls failing.items } }
    {
        MemSource {
            bytes,
            taken: 0,
            cuts,
            cuts_made: 0,
            calls: Calls::new(failing),
        }
    }

    /// How many bytes are left.
    pub fn left(&self) -> u64
        ensures { result ≡ length self.now.left }
    {
        (self.bytes.len() - self.taken) as u64
    }

    // How many bytes the next read gives to a buffer with this room.
    fn given(&self, room: usize) -> usize
        ensures { result ≡ given self.now.left self.now.cuts room }
    {
        let count = room.min(self.bytes.len() - self.taken);
        match self.cuts.get(self.cuts_made) {
            Some(cut) => (*cut).max(1).min(count),
            None => count,
        }
    }

    // Goes past the next cut.
    fn pass_cut(&mut self)
        ensures { self.new ≡ record self.old { cuts = drop 1 self.old.cuts } }
    {
        if self.cuts_made < self.cuts.len() {
            self.cuts_made += 1;
        }
    }

    // Takes bytes to the front of a buffer.
    fn take(&mut self, count: usize, buf: &mut [u8])
        requires left { count ≤ length self.old.left }
        requires room { count ≤ length buf.old }
        ensures rest { self.new ≡ record self.old { left = drop count self.old.left } }
        ensures front { take count buf.new ≡ take count self.old.left }
        ensures length { length buf.new ≡ length buf.old }
    {
        let from = self.taken;
        buf[..count].copy_from_slice(&self.bytes[from..from + count]);
        self.taken += count;
    }
}

impl Source for MemSource {
    ghost use Rattle.std.specs.Prelude.{Some, length};

    ghost left = { λ s. Some s.left };

    ghost budget = { λ s. length s.left };

    ghost faults = { λ s. s.calls.faults };

    fn read(&mut self, buf: &mut [u8]) -> Result<usize, Failed>
        requires { 0 < length buf.old }
        ensures bytes { Reads (Some self.old.left) (Some self.new.left) buf.new result }
        ensures budget { Spends (length self.old.left) (length self.new.left) result }
        ensures cause { HasCause self.old.calls.faults self.new.calls.faults result }
        // It fails exactly at the listed calls.
        ensures exact { IsErr result ↔ IsTrue (is_next_listed self.old.calls) }
        ensures count { IfOk result (λ n. n ≡ given self.old.left self.old.cuts (length buf.old)) }
        ensures cuts { IfOk result (λ _. self.new.cuts ≡ drop 1 self.old.cuts) }
        ensures calls { self.new.calls ≡ after_call self.old.calls }
    {
        if self.calls.begin() {
            self.calls.fail();
            return Err(Failed);
        }
        let count = self.given(buf.len());
        self.pass_cut();
        self.take(count, buf);
        Ok(count)
    }

    fn read_faults(&self) -> u64 {
        self.calls.faults()
    }
}
