//! A sink over a writer of the system.

ghost use Rattle.std.specs.Prelude.{◌≡◌};

use crate::failed::Failed;
use crate::sink::Sink;
use std::io;
use std::io::Write;
use std::marker::Model;

/// A sink over any writer, as standard output's. It tells nothing of what was written, and a clause sees its count of
/// faults alone.
#[derive(Drop)]
pub struct IoSink<W> {
    writer: W,
    faults: u64,
}

impl<W> Model for IoSink<W> {
    ghost use Rattle.std.specs.Prelude.{ℕ};

    ghost Value = { ℕ };

    ghost view = { λ s. s.faults };
}

impl<W: Write> IoSink<W> {
    /// The sink over this writer.
    pub fn new(writer: W) -> IoSink<W>
        ensures { result ≡ 0 }
    {
        IoSink { writer, faults: 0 }
    }
}

// A buffer of the writer is emptied at once, so that what was written before a later failure stands.
fn write_out<W: Write>(writer: &mut W, bytes: &[u8]) -> io::Result<()> {
    writer.write_all(bytes)?;
    writer.flush()
}

impl<W: Write> Sink for IoSink<W> {
    ghost use Rattle.std.specs.Prelude.{None};

    ghost written = { λ _. None };

    ghost faults = { λ s. s };

    fn write_all(&mut self, bytes: &[u8]) -> Result<(), Failed> {
        if write_out(&mut self.writer, bytes).is_err() {
            self.faults = self.faults.saturating_add(1);
            return Err(Failed);
        }
        Ok(())
    }

    fn write_faults(&self) -> u64 {
        self.faults
    }
}
