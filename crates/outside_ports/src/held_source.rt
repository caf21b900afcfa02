//! A source that doesn't fail.

ghost use Rattle.std.specs.Prelude.{◌≡◌, length};

use crate::failed::Failed;
use crate::mem_source::MemSource;
use crate::source::Source;
use std::alloc::Global;
use std::marker::Model;

/// Bytes in memory as a source of which no read fails.
#[derive(Drop)]
pub struct HeldSource {
    source: MemSource,
}

impl Model for HeldSource {
    ghost use Rattle.std.specs.Prelude.{◌≡◌, ℕ, List, []};

    ghost Value = { List ℕ };

    ghost view = { λ s. s.source.left };

    ghost invariant = { λ s. s.source.calls.failing ≡ [] };
}

impl HeldSource {
    /// The source of these bytes, which move into it.
    pub fn new(alloc: Global, bytes: Vec<u8>) -> HeldSource
        ensures { result ≡ bytes.items }
    {
        HeldSource {
            source: MemSource::new(bytes, Vec::new(alloc), Vec::new(alloc)),
        }
    }

    /// How many bytes are left.
    pub fn left(&self) -> u64
        ensures { result ≡ length self.now }
    {
        self.source.left()
    }
}

impl Source for HeldSource {
    ghost use Rattle.std.specs.Prelude.{Some, length};

    ghost left = { λ s. Some s };

    ghost budget = { λ s. length s };

    ghost faults = { λ s. 0 };

    fn read(&mut self, buf: &mut [u8]) -> Result<usize, Failed> {
        match self.source.read(buf) {
            Ok(count) => Ok(count),
            Err(_) => unreachable!(),
        }
    }

    fn read_faults(&self) -> u64 {
        0
    }
}
