//! Acceptors of connections.

ghost use Rattle.std.specs.Prelude.{◌≡◌, ℕ};
ghost use Rattle.outside_ports.specs.Connections.{CountsGiven};
ghost use Rattle.outside_ports.specs.Causes.{Explains};

use crate::failed::IoError;
use crate::sink::Sink;
use crate::source::Source;
use std::alloc::Global;

/// Gives connections, one after another, and counts them and its faults. Both counts stay at the end of `u64`; no
/// connection is given once theirs is there.
pub trait Acceptor {
    /// What the other end sends.
    type Input: Source + Drop;

    /// What is sent to it.
    type Output: Sink + Drop;

    /// How many connections were given.
    ghost given_count: { Self → ℕ };

    /// How many calls failed.
    ghost fault_count: { Self → ℕ };

    /// The two ends of the next connection.
    fn next(&mut self, alloc: Global) -> Result<(Self::Input, Self::Output), IoError>
        ensures given { CountsGiven (given_count self.old) (given_count self.new) result }
        ensures cause { Explains (fault_count self.old) (fault_count self.new) result };

    /// The number of connections that were given.
    fn given(&self) -> u64
        ensures { result ≡ given_count self.now };

    /// The number of calls that answered `Failed`.
    fn faults(&self) -> u64
        ensures { result ≡ fault_count self.now };
}
