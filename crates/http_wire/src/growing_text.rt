//! A text in memory that is written as a sink is.

ghost use Rattle.std.specs.Prelude.{◌≡◌, []};

use outside_ports::{Failed, Sink};
use std::alloc::Global;

/// A text that grows; a write fails where memory runs out.
#[derive(Drop)]
pub(crate) struct GrowingText {
    pub(crate) bytes: Vec<u8>,
    faults: u64,
}

impl GrowingText {
    /// The empty text.
    pub(crate) fn new(alloc: Global) -> GrowingText
        ensures { result.bytes.items ≡ [] }
    {
        GrowingText {
            bytes: Vec::new(alloc),
            faults: 0,
        }
    }
}

impl Sink for GrowingText {
    ghost use Rattle.std.specs.Prelude.{Some};

    ghost written = { λ s. Some s.bytes.items };

    ghost faults = { λ s. s.faults };

    fn write_all(&mut self, bytes: &[u8]) -> Result<(), Failed> {
        if self.bytes.extend_from_slice(bytes).is_err() {
            self.faults = self.faults.saturating_add(1);
            return Err(Failed);
        }
        Ok(())
    }

    fn write_faults(&self) -> u64 {
        self.faults
    }
}
