//! Sources of bytes.

ghost use Rattle.std.specs.Prelude.{◌≡◌, ◌<◌, ℕ, List, Option, length};
ghost use Rattle.roster_base.specs.Faults.{HasCause};
ghost use Rattle.outside_ports.specs.Given.{Reads, Spends};

use crate::failed::Failed;

/// Gives bytes, and counts its faults. The count stays at the end of `u64` once it is there.
pub trait Source {
    /// The bytes left, where they are told.
    ghost left: { Self → Option (List ℕ) };

    /// A bound on the reads that still give bytes, so that a loop over them ends.
    ghost budget: { Self → ℕ };

    /// How many calls failed.
    ghost faults: { Self → ℕ };

    /// Takes the next bytes to the front of a buffer that isn't empty, and says how many: none at the end of the input
    /// alone. After `Failed` nothing was taken.
    fn read(&mut self, buf: &mut [u8]) -> Result<usize, Failed>
        requires { 0 < length buf.old }
        ensures bytes { Reads (left self.old) (left self.new) buf.new result }
        ensures budget { Spends (budget self.old) (budget self.new) result }
        ensures cause { HasCause (faults self.old) (faults self.new) result };

    /// The number of calls that answered `Failed`.
    fn read_faults(&self) -> u64
        ensures { result ≡ faults self.now };
}
