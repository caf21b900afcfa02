//! Connections, served over a hub that threads share.

ghost use Rattle.std.specs.Prelude.{◌≡◌, ◌<◌, Bool, None, [], length};
ghost use Rattle.http_wire.specs.Reading.{bytes_due};
ghost use Rattle.hub_shared.specs.Serving.{Serves, TakesShared, Turns, connection};
ghost use Rattle.rest_provider.specs.Ends.{ends_of};
ghost use Rattle.rest_provider.specs.declared.turn.Turn.TheVariants as spec_turn;

use crate::desk::Desk;
use crate::seat::ReadSeat;
use http_wire::{WireReader, send_reply};
use hub_history::Naming;
use keeper_memory::HubKeeper;
use outside_ports::{Clock, Gate, Sink, Source};
use rest_provider::answering::is_write;
use rest_provider::{StreamEnd, Turn, moment_of, stop};
use roster_base::NoMemory;
use status_info::{Reply, Request};
use std::sync::Wait;

// Answers a request: a read by the seat, or without one under the lock; a write under the lock, whose receipt the seat
// learns.
fn answer_shared<H: HubKeeper, N: Naming, R: Wait, K: Clock, G: Gate>(
    desk: &Desk<'_, H, N, R, K, G>,
    seat: &mut Option<ReadSeat<N>>,
    request: &Request,
) -> Reply
    ensures { TakesShared N.opening (K.moment desk.now.clock.now) request.now result seat.old seat.new }
{
    if is_write(request.verb) {
        let (reply, receipt) = desk.shared.write(
            desk.rt,
            desk.alloc,
            desk.router,
            request,
            moment_of(desk.clock),
        );
        if let Some(seat) = seat {
            seat.learn(receipt);
        }
        return reply;
    }
    match seat {
        Some(seat) => seat.read(desk.alloc, desk.router, request),
        None => desk
            .shared
            .read_locked(desk.rt, desk.alloc, desk.router, request),
    }
}

// Answers a request between two passes of the gate.
fn pass<H: HubKeeper, N: Naming, R: Wait, K: Clock, G: Gate>(
    desk: &Desk<'_, H, N, R, K, G>,
    seat: &mut Option<ReadSeat<N>>,
    turn: &mut u64,
    request: &Request,
) -> Reply
    ensures { TakesShared N.opening (K.moment desk.now.clock.now) request.now result seat.old seat.new }
{
    desk.gate.arrive(desk.job, *turn);
    let reply = answer_shared(desk, seat, request);
    desk.gate.passed(desk.job, *turn);
    *turn = turn.saturating_add(1);
    reply
}

// Reads the next request of a connection and answers it.
fn take_turn<H: HubKeeper, N: Naming, R: Wait, K: Clock, G: Gate, S: Source, W: Sink>(
    desk: &Desk<'_, H, N, R, K, G>,
    seat: &mut Option<ReadSeat<N>>,
    turn: &mut u64,
    reader: &mut WireReader,
    source: &mut S,
    sink: &mut W,
) -> Turn
    requires fresh { reader.old.fault ≡ None }
    ensures turns { Turns (TakesShared N.opening (K.moment desk.now.clock.now))
        (connection (ends_of (S.left source.old) (S.faults source.old) (W.written sink.old) (W.faults sink.old)) reader.old.kept seat.old)
        (connection (ends_of (S.left source.new) (S.faults source.new) (W.written sink.new) (W.faults sink.new)) reader.new.kept seat.new) result }
    ensures fresh { (close : Bool) → result ≡ spec_turn.Answered close → reader.new.fault ≡ None }
    ensures due { (close : Bool) → result ≡ spec_turn.Answered close → bytes_due (S.budget source.new) (length reader.new.kept) < bytes_due (S.budget source.old) (length reader.old.kept) }
{
    let request = match reader.next(desk.alloc, source) {
        Ok(request) => request,
        Err(fault) => return Turn::Stopped(fault),
    };
    let close = request.close;
    let reply = pass(desk, seat, turn, &request);
    drop(request);
    let written = send_reply(desk.alloc, sink, &reply);
    drop(reply);
    match written {
        Ok(()) => Turn::Answered { close },
        Err(_) => Turn::SinkFailed,
    }
}

// Answers the requests of a connection of which nothing was taken yet.
fn serve<H: HubKeeper, N: Naming, R: Wait, K: Clock, G: Gate, S: Source, W: Sink>(
    desk: &Desk<'_, H, N, R, K, G>,
    seat: &mut Option<ReadSeat<N>>,
    turn: &mut u64,
    reader: &mut WireReader,
    source: &mut S,
    sink: &mut W,
) -> StreamEnd
    requires fresh { reader.old.fault ≡ None }
    requires none_kept { reader.old.kept ≡ [] }
    ensures { Serves (TakesShared N.opening (K.moment desk.now.clock.now)) (ends_of (S.left source.old) (S.faults source.old) (W.written sink.old) (W.faults sink.old))
        (ends_of (S.left source.new) (S.faults source.new) (W.written sink.new) (W.faults sink.new)) seat.old seat.new result }
{
    let mut answered: u64 = 0;
    'serving: loop {
        match take_turn(desk, seat, turn, reader, source, sink) {
            Turn::Answered { close: false } => answered = answered.saturating_add(1),
            Turn::Answered { close: true } => {
                return StreamEnd::Closed {
                    requests: answered.saturating_add(1),
                    kept: reader.kept(),
                };
            }
            Turn::SinkFailed => return StreamEnd::Sink,
            Turn::Stopped(fault) => return stop(desk.alloc, sink, fault, answered, reader.kept()),
        }
    }
}

/// Answers the requests of a connection in turn, each write at the clock's moment, and writes their replies, until
/// something ends the stream: reads by the seat, which learns the receipt of each write, or without a seat under the
/// lock.
pub fn serve_shared<H: HubKeeper, N: Naming, R: Wait, K: Clock, G: Gate, S: Source, W: Sink>(
    desk: &Desk<'_, H, N, R, K, G>,
    seat: &mut Option<ReadSeat<N>>,
    turn: &mut u64,
    source: &mut S,
    sink: &mut W,
) -> StreamEnd
    // The requests are the first of the stream, however its reads are cut; what is written is the texts of their
    // replies, and then what tells of a fault; and each reply is that of a read at a place of the history, or of a
    // write that stands in it.
    ensures { Serves (TakesShared N.opening (K.moment desk.now.clock.now)) (ends_of (S.left source.old) (S.faults source.old) (W.written sink.old) (W.faults sink.old))
        (ends_of (S.left source.new) (S.faults source.new) (W.written sink.new) (W.faults sink.new)) seat.old seat.new result }
{
    match WireReader::new(desk.alloc) {
        Ok(mut reader) => serve(desk, seat, turn, &mut reader, source, sink),
        Err(NoMemory) => StreamEnd::NoMemory,
    }
}
