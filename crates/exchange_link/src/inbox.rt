//! What a link keeps of its exchanges.

ghost use Rattle.std.specs.Prelude.{◌≡◌, ◌⊎◌, ◌≤◌, IfSome, OnErr, OnOk, [], Err};
ghost use Rattle.exchange_link.specs.Exchanges.{Carries, IsSentText, IsTextOf, Misses};
ghost use Rattle.http_wire.specs.Answers.{IsReplyText};
ghost use Rattle.outside_ports.specs.declared.failed.IoError.TheVariants as io_error;
ghost use Rattle.roster_base.specs.Faults.{Rose, one_more};
ghost use Rattle.status_info.specs.declared.request.Request.{Request};

use crate::arrival::Arrival;
use crate::own::is_own;
use crate::tally::Tally;
use http_wire::WireReply;
use outside_ports::IoError;
use roster_base::NoMemory;
use std::alloc::Global;

/// The answer of the last exchange, empty where it failed, and the counts.
#[derive(Drop)]
pub(crate) struct Inbox {
    pub(crate) kept: Arrival,
    pub(crate) tally: Tally,
}

impl Inbox {
    /// Nothing was exchanged yet.
    pub(crate) fn new(alloc: Global) -> Inbox {
        Inbox {
            kept: Arrival::nothing(alloc),
            tally: Tally::new(),
        }
    }

    // Counts an exchange that brought nothing.
    fn miss(&mut self, error: IoError) -> Result<(), IoError>
        ensures asked { self.new.tally.asked ≡ one_more self.old.tally.asked }
        ensures missed { Misses (Rose self.old.tally.faults self.new.tally.faults) self.old.tally.missed self.new.tally.missed }
        ensures later { self.old.tally.faults ≤ self.new.tally.faults }
        ensures failed { error ≡ io_error.Failed → Rose self.old.tally.faults self.new.tally.faults }
        ensures kept { self.new.kept ≡ self.old.kept }
        ensures error { result ≡ Err error }
    {
        self.tally.count(matches!(error, IoError::Failed));
        Err(error)
    }

    // Keeps what came of an exchange, and counts a fault where it isn't the own reply.
    fn keep(&mut self, alloc: Global, request: &[u8], came: Arrival) -> Result<(), IoError>
        requires sent { IsSentText request.now }
        requires empty { self.old.kept ≡ [] }
        ensures asked { self.new.tally.asked ≡ one_more self.old.tally.asked }
        ensures missed { Misses (Rose self.old.tally.faults self.new.tally.faults) self.old.tally.missed self.new.tally.missed }
        ensures later { self.old.tally.faults ≤ self.new.tally.faults }
        ensures failed { result ≡ Err io_error.Failed → Rose self.old.tally.faults self.new.tally.faults }
        ensures kept { OnErr result (self.new.kept ≡ []) }
        ensures own { (q : Request) → IsTextOf q request.now → OnOk result (Carries self.new.kept q.echo ⊎ Rose self.old.tally.faults self.new.tally.faults) }
    {
        match is_own(alloc, request, &came) {
            Ok(own) => {
                self.tally.count(!own);
                self.kept = came;
                Ok(())
            }
            Err(NoMemory) => self.miss(IoError::NoMemory),
        }
    }

    /// Takes what came of an exchange: bytes, or an error.
    pub(crate) fn take(
        &mut self,
        alloc: Global,
        request: &[u8],
        came: Result<Arrival, IoError>,
    ) -> Result<(), IoError>
        requires { IsSentText request.now }
        ensures asked { self.new.tally.asked ≡ one_more self.old.tally.asked }
        ensures missed { Misses (Rose self.old.tally.faults self.new.tally.faults) self.old.tally.missed self.new.tally.missed }
        ensures later { self.old.tally.faults ≤ self.new.tally.faults }
        ensures failed { result ≡ Err io_error.Failed → Rose self.old.tally.faults self.new.tally.faults }
        ensures kept { OnErr result (self.new.kept ≡ []) }
        ensures own { (q : Request) → IsTextOf q request.now → OnOk result (Carries self.new.kept q.echo ⊎ Rose self.old.tally.faults self.new.tally.faults) }
    {
        self.kept = Arrival::nothing(alloc);
        match came {
            Ok(came) => self.keep(alloc, request, came),
            Err(error) => self.miss(error),
        }
    }

    /// Takes the reply that was read from the kept bytes, where they are one and it wasn't taken yet. A clause sees no
    /// change.
    pub(crate) fn take_reply(&mut self) -> Option<WireReply>
        ensures same { self.new ≡ self.old }
        ensures reads { IfSome result (λ w. IsReplyText self.old.kept w) }
    {
        self.kept.take_reply()
    }
}
