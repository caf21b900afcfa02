//! An acceptor in memory.

ghost use Rattle.std.specs.Prelude.{◌≡◌, ◌↔◌, ◌⊎◌, [], IsErr, IsTrue};
ghost use Rattle.outside_ports.specs.Connections.{CountsGiven, Hands};
ghost use Rattle.outside_ports.specs.Calls.{is_next_listed, no_calls};
ghost use Rattle.outside_ports.specs.Causes.{Explains};

use crate::acceptor::Acceptor;
use crate::calls::Calls;
use crate::failed::IoError;
use crate::mem_sink::MemSink;
use crate::mem_source::MemSource;
use std::alloc::Global;
use std::marker::Model;
use std::vec::IntoIter;

/// Connections in memory, handed out in order, and the numbers, from 1, of the calls that fail. A call that finds none
/// left fails too.
#[derive(Drop)]
pub struct MemAcceptor {
    streams: IntoIter<(MemSource, MemSink)>,
    given: u64,
    calls: Calls,
}

impl Model for MemAcceptor {
    ghost use Rattle.std.specs.Prelude.{◌+◌, ◌<◌, ◌^◌};
    ghost use Rattle.std.specs.Vec.Iter.{into_iter_items, into_iter_len};
    ghost use Rattle.outside_ports.specs.Connections.{HeldConnections};

    ghost Value = { HeldConnections };

    ghost view = { λ a. record { left = into_iter_items a.streams; given = a.given; calls = a.calls } };

    // So many may be given as a count can tell.
    ghost invariant = { λ a. a.given + into_iter_len a.streams < 2 ^ 64 };
}

impl MemAcceptor {
    /// The acceptor of these connections.
    pub fn new(streams: Vec<(MemSource, MemSink)>, failing: Vec<u64>) -> MemAcceptor
        ensures { result ≡ record { left = streams.items; given = 0; calls = no_calls failing.items } }
    {
        MemAcceptor {
            streams: streams.into_iter(),
            given: 0,
            calls: Calls::new(failing),
        }
    }
}

impl Acceptor for MemAcceptor {
    type Input = MemSource;

    type Output = MemSink;

    ghost given_count = { λ a. a.given };

    ghost fault_count = { λ a. a.calls.faults };

    fn next(&mut self, _alloc: Global) -> Result<(MemSource, MemSink), IoError>
        ensures given { CountsGiven self.old.given self.new.given result }
        ensures cause { Explains self.old.calls.faults self.new.calls.faults result }
        ensures hands { Hands self.old.left self.new.left result }
        // It fails at the listed calls, and where none is left.
        ensures exact { IsErr result ↔ (IsTrue (is_next_listed self.old.calls) ⊎ (self.old.left ≡ [])) }
    {
        if self.calls.begin() {
            self.calls.fail();
            return Err(IoError::Failed);
        }
        match self.streams.next() {
            Some(pair) => {
                self.given += 1;
                Ok(pair)
            }
            None => {
                self.calls.fail();
                Err(IoError::Failed)
            }
        }
    }

    fn given(&self) -> u64 {
        self.given
    }

    fn faults(&self) -> u64 {
        self.calls.faults()
    }
}
