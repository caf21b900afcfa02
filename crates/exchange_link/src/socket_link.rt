//! A link over sockets.

use crate::arrival::Arrival;
use crate::inbox::Inbox;
use crate::link::Link;
use crate::socket_exchange::bytes_from;
use crate::unreached::Unreached;
use http_wire::WireReply;
use outside_ports::IoError;
use roster_base::NoMemory;
use std::alloc::Global;
use std::io::{self, ErrorKind};
use std::net::Net;
use std::time::Clock;

/// A link to a hub at an address, a host and a port, over a connection of its own for each exchange. It tells nothing
/// of the hub. An exchange fails where the connection does, where the peer lets it wait for a minute or takes ten for
/// all, and where what comes is no reply.
#[derive(Drop)]
pub struct SocketLink<R> {
    rt: R,
    address: String,
    inbox: Inbox,
    why: Option<Unreached>,
}

impl<R: Net> SocketLink<R> {
    /// A link to this address, over which nothing was sent yet.
    pub fn to(alloc: Global, rt: R, address: String) -> SocketLink<R> {
        SocketLink {
            rt,
            address,
            inbox: Inbox::new(alloc),
            why: None,
        }
    }

    /// The address.
    pub fn address(&self) -> &str {
        self.address.as_str()
    }

    /// Why the last exchange that brought no reply brought none.
    pub fn unreached(&self) -> Option<Unreached> {
        self.why
    }
}

// What an exchange ends with that brings no reply.
enum Missed {
    NoMemory,
    Unreached(Unreached),
}

impl From<NoMemory> for Missed {
    fn from(_error: NoMemory) -> Missed {
        Missed::NoMemory
    }
}

impl From<io::Error> for Missed {
    fn from(error: io::Error) -> Missed {
        match error.kind() {
            ErrorKind::OutOfMemory => Missed::NoMemory,
            kind => Missed::Unreached(Unreached::by(kind)),
        }
    }
}

// What the peer at an address answers a request with, where that is a reply.
fn reply_from<R: Net + Clock>(
    alloc: Global,
    rt: &R,
    address: &str,
    request: &[u8],
) -> Result<Arrival, Missed> {
    let came = Arrival::read(alloc, bytes_from(alloc, rt, address, request)?)?;
    if came.reply().is_none() {
        return Err(Missed::Unreached(Unreached::NoHttp));
    }
    Ok(came)
}

// Keeps why an exchange brought no reply.
fn noted(why: &mut Option<Unreached>, came: Result<Arrival, Missed>) -> Result<Arrival, IoError> {
    match came {
        Ok(came) => Ok(came),
        Err(Missed::NoMemory) => Err(IoError::NoMemory),
        Err(Missed::Unreached(unreached)) => {
            *why = Some(unreached);
            Err(IoError::Failed)
        }
    }
}

impl<R: Net + Clock> Link for SocketLink<R> {
    ghost use Rattle.std.specs.Prelude.{⊤};

    ghost asked = { λ link. link.inbox.tally.asked };

    ghost missed = { λ link. link.inbox.tally.missed };

    ghost kept = { λ link. link.inbox.kept };

    ghost fault_count = { λ link. link.inbox.tally.faults };

    ghost tells = { λ _ _. ⊥ };

    ghost is_hub = { λ _ _ none. absurd none };

    ghost leads = { λ _ _. ⊤ };

    ghost stays = { λ _. tt };

    ghost leads_on = { λ _ _ _ _ _. tt };

    fn exchange(&mut self, alloc: Global, request: &[u8]) -> Result<(), IoError> {
        let came = reply_from(alloc, &self.rt, self.address.as_str(), request);
        let came = noted(&mut self.why, came);
        self.inbox.take(alloc, request, came)
    }

    fn reply(&self) -> &[u8] {
        self.inbox.kept.bytes()
    }

    fn take_parsed(&mut self) -> Option<WireReply> {
        self.inbox.take_reply()
    }

    fn missed(&self) -> u64 {
        self.inbox.tally.missed
    }

    fn faults(&self) -> u64 {
        self.inbox.tally.faults
    }
}
