//! A link whose replies are given beforehand.

use crate::arrival::Arrival;
use crate::inbox::Inbox;
use crate::link::Link;
use outside_ports::IoError;
use std::alloc::Global;

/// A link whose replies are given beforehand, one for each exchange in turn. An exchange fails where it has none, and
/// each reply without the number of the exchange's request is counted as a fault. It tells nothing of a hub.
#[derive(Drop)]
pub struct PeerLink {
    replies: Vec<Option<Vec<u8>>>,
    place: usize,
    inbox: Inbox,
}

impl PeerLink {
    /// A link with these replies, over which nothing was sent yet.
    pub fn new(alloc: Global, replies: Vec<Option<Vec<u8>>>) -> PeerLink {
        PeerLink {
            replies,
            place: 0,
            inbox: Inbox::new(alloc),
        }
    }
}

// The reply at a place, which is taken out; the place goes on to the next one.
fn taken(replies: &mut [Option<Vec<u8>>], place: &mut usize) -> Option<Vec<u8>> {
    if *place >= replies.len() {
        return None;
    }
    let reply = replies[*place].take();
    *place += 1;
    reply
}

// What comes of an exchange to which this is the reply.
fn came_of(alloc: Global, reply: Option<Vec<u8>>) -> Result<Arrival, IoError> {
    match reply {
        Some(bytes) => Ok(Arrival::read(alloc, bytes)?),
        None => Err(IoError::Failed),
    }
}

impl Link for PeerLink {
    ghost use Rattle.std.specs.Prelude.{⊤};

    ghost asked = { λ link. link.inbox.tally.asked };

    ghost missed = { λ link. link.inbox.tally.missed };

    ghost kept = { λ link. link.inbox.kept };

    ghost fault_count = { λ link. link.inbox.tally.faults };

    ghost tells = { λ _ _. ⊥ };

    ghost is_hub = { λ _ _ none. absurd none };

    ghost leads = { λ _ _. ⊤ };

    ghost stays = { λ _. tt };

    ghost leads_on = { λ _ _ _ _ _. tt };

    fn exchange(&mut self, alloc: Global, request: &[u8]) -> Result<(), IoError> {
        let came = came_of(alloc, taken(&mut self.replies, &mut self.place));
        self.inbox.take(alloc, request, came)
    }

    fn reply(&self) -> &[u8] {
        self.inbox.kept.bytes()
    }

    fn missed(&self) -> u64 {
        self.inbox.tally.missed
    }

    fn faults(&self) -> u64 {
        self.inbox.tally.faults
    }
}
