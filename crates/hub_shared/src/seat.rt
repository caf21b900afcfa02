//! Seats, which read without waiting, and receipts.

ghost use Rattle.std.specs.Prelude.{◌≡◌, ◌⊎◌, [], false};
ghost use mathlib.Core.List.{IsPrefix};
ghost use Rattle.hub_spec.specs.requests.Requests.{wanted_by};
ghost use Rattle.hub_spec.specs.rules.Wanted.{is_write};
ghost use Rattle.rest_provider.specs.Replies.{out_of_memory};
ghost use Rattle.hub_history.specs.Histories.{state_after};
ghost use Rattle.hub_shared.specs.Seats.{ReadsAt, SeatView};
ghost use Rattle.left_right.specs.Sides.{view};

use crossbeam_utils::rule::Protocol;
use hub_core::HubError;
use hub_history::{Entry, Front, HubReader, Naming, Sees, Sharing, Shown};
use rest_paths::PathRouter;
use rest_provider::answer_read;
use rest_provider::answering::failing;
use status_info::{Reply, Request};
use std::alloc::Global;
use std::collections::LinkedList;
use std::marker::Model;

/// A beginning of the history that was published.
pub type Receipt<N> = Front<N>;

/// A place to read from, with what it has seen and was told of.
#[derive(Drop)]
pub struct ReadSeat<N: Naming>
where
    Sharing<N>: Protocol<Shown<N>, LinkedList<Entry>>,
{
    reader: Option<HubReader<N>>,
    seen: Front<N>,
    told: Front<N>,
}

impl<N: Naming> Model for ReadSeat<N>
where
    Sharing<N>: Protocol<Shown<N>, LinkedList<Entry>>,
{
    ghost use Rattle.std.specs.Prelude.{◌≡◌, IfSome};
    ghost use Rattle.hub_shared.specs.Seats.{SeatView};
    ghost use Rattle.left_right.specs.Sides.{view as place_view};

    ghost Value = { SeatView };

    ghost view = { λ s. record { seen = s.seen; told = s.told } };

    ghost invariant = { λ s. IfSome s.reader (λ r. place_view r.place ≡ s.seen) };
}

// The reply that says that memory ran out, or that the hub is closed.
fn busy(alloc: Global, request: &Request) -> Reply
    ensures { result ≡ out_of_memory (wanted_by request.now) }
{
    failing(alloc, request, HubError::NoMemory)
}

impl<N: Naming> ReadSeat<N> {
    /// A seat at a place from which nothing was read yet.
    pub fn over(reader: HubReader<N>, start: Front<N>) -> ReadSeat<N>
        requires { (start ≡ []) × (view reader.place ≡ []) }
        ensures { result ≡ record { seen = []; told = [] } }
    {
        ReadSeat {
            reader: Some(reader),
            told: start.again(),
            seen: start,
        }
    }

    /// Answers a request that writes nothing, at a beginning of the history that begins with all that the seat has seen
    /// or was told of. It waits for nobody. Once the hub is closed it may answer that memory ran out.
    pub fn read(&mut self, alloc: Global, router: &PathRouter, request: &Request) -> Reply
        requires { is_write request.now.verb ≡ false }
        ensures seen { IsPrefix self.old.seen self.new.seen }
        ensures told { self.new.told ≡ self.old.told }
        ensures reply { (result ≡ out_of_memory (wanted_by request.now)) ⊎ (IsPrefix self.old.told self.new.seen × ReadsAt (state_after N.opening self.new.seen) request.now result) }
    {
        let Some(reader) = self.reader.take() else {
            return busy(alloc, request);
        };
        match reader.enter_as::<Sees<N>>() {
            Ok(reading) => {
                let shown = reading.get();
                let front = shown.front();
                let reply = answer_read(alloc, router, shown.table(), request);
                self.reader = Some(reading.leave());
                self.seen = front;
                // What the seat was told of was published before, so that it has seen it now, which no clause of the
                // lock-free reader tells.
                if !self.told.begins(&self.seen) {
                    drop(reply);
                    return busy(alloc, request);
                }
                reply
            }
            Err(reader) => {
                self.reader = Some(reader);
                busy(alloc, request)
            }
        }
    }

    /// Tells the seat of what a receipt stands for. Its later reads begin with it. No memory is taken.
    pub fn learn(&mut self, receipt: Receipt<N>)
        ensures seen { self.new.seen ≡ self.old.seen }
        ensures one { (self.new.told ≡ self.old.told) ⊎ (self.new.told ≡ receipt) }
        ensures before { IsPrefix self.old.told self.new.told }
        ensures receipt { IsPrefix receipt self.new.told }
    {
        self.told = self.told.longer(&receipt);
    }
}
