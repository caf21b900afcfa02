//! A source over a reader of the system.

ghost use Rattle.std.specs.Prelude.{◌≡◌};

use crate::failed::Failed;
use crate::source::Source;
use std::io::Read;
use std::marker::Model;

/// How many reads a source allows.
pub const MOST_READS: u64 = 1_000_000_000_000_000;

/// A source over any reader, as standard input's. It tells nothing of the bytes left, and a clause sees its count of
/// faults and its budget alone: no reader says how many reads still give bytes, so each takes one of 10^15, and behind
/// the last the source fails.
#[derive(Drop)]
pub struct IoSource<R> {
    reader: R,
    budget: u64,
    faults: u64,
}

impl<R> Model for IoSource<R> {
    ghost use Rattle.outside_ports.specs.HeldInput.{HeldCounts};

    ghost Value = { HeldCounts };

    ghost view = { λ s. record { budget = s.budget; faults = s.faults } };
}

impl<R: Read> IoSource<R> {
    /// The source over this reader.
    pub fn new(reader: R) -> IoSource<R>
        ensures { result ≡ record { budget = MOST_READS; faults = 0 } }
    {
        IoSource {
            reader,
            budget: MOST_READS,
            faults: 0,
        }
    }
}

impl<R: Read> Source for IoSource<R> {
    ghost use Rattle.std.specs.Prelude.{None};

    ghost left = { λ _. None };

    ghost budget = { λ s. s.budget };

    ghost faults = { λ s. s.faults };

    fn read(&mut self, buf: &mut [u8]) -> Result<usize, Failed> {
        if self.budget > 0
            && let Ok(count) = self.reader.read(buf)
        {
            self.budget -= 1;
            return Ok(count);
        }
        self.faults = self.faults.saturating_add(1);
        Err(Failed)
    }

    fn read_faults(&self) -> u64 {
        self.faults
    }
}
