//! Sinks of bytes.

ghost use Rattle.std.specs.Prelude.{◌≡◌, ℕ, List, Option};
ghost use Rattle.roster_base.specs.Faults.{HasCause};
ghost use Rattle.outside_ports.specs.Written.{Writes};

use crate::failed::Failed;

/// Takes bytes, and counts its faults. The count stays at the end of `u64` once it is there.
pub trait Sink {
    /// All that was written, where it is told.
    ghost written: { Self → Option (List ℕ) };

    /// How many calls failed.
    ghost faults: { Self → ℕ };

    /// Writes the whole piece. After `Failed` a front of the piece was written.
    fn write_all(&mut self, bytes: &[u8]) -> Result<(), Failed>
        ensures bytes { Writes (written self.old) (written self.new) bytes.now result }
        ensures cause { HasCause (faults self.old) (faults self.new) result };

    /// The number of calls that answered `Failed`.
    fn write_faults(&self) -> u64
        ensures { result ≡ faults self.now };
}
