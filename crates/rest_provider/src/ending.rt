//! The end of a stream of requests, whoever answers them.

ghost use Rattle.std.specs.Prelude.{◌≡◌, ℕ};
ghost use Rattle.outside_ports.specs.Written.{Writes};
ghost use Rattle.rest_provider.specs.Ends.{TellsStop, counted, fault_text, sink_state, unreadable_text};
ghost use Rattle.roster_base.specs.Faults.{HasCause};

use crate::stream_end::StreamEnd;
use http_wire::{WireFault, send_reply};
use outside_ports::{Failed, Sink};
use status_info::{Cause, Reply};
use std::alloc::Global;

// Writes the reply to what can't be read.
fn write_unreadable<W: Sink>(alloc: Global, sink: &mut W) -> Result<(), Failed>
    ensures bytes { Writes (W.written sink.old) (W.written sink.new) unreadable_text result }
    ensures cause { HasCause (W.faults sink.old) (W.faults sink.new) result }
{
    let reply = Reply::failing(alloc, Cause::Unreadable, None, true);
    let written = send_reply(alloc, sink, &reply);
    drop(reply);
    written
}

// Writes what tells of a fault.
fn write_fault<W: Sink>(alloc: Global, sink: &mut W, fault: WireFault) -> Result<(), Failed>
    ensures bytes { Writes (W.written sink.old) (W.written sink.new) (fault_text fault) result }
    ensures cause { HasCause (W.faults sink.old) (W.faults sink.new) result }
{
    match fault {
        WireFault::End | WireFault::Cut | WireFault::Source | WireFault::NoMemory => Ok(()),
        _ => write_unreadable(alloc, sink),
    }
}

/// Tells of the fault at which a stream stops, behind so many answered requests and with so many bytes taken, and gives
/// its end.
pub fn stop<W: Sink>(
    alloc: Global,
    sink: &mut W,
    fault: WireFault,
    requests: u64,
    kept: u64,
) -> StreamEnd
    ensures { (answered : ℕ) → requests ≡ counted answered
        → TellsStop (sink_state (W.written sink.old) (W.faults sink.old)) (sink_state (W.written sink.new) (W.faults sink.new))
        fault answered kept result }
{
    if write_fault(alloc, sink, fault).is_err() {
        return StreamEnd::Sink;
    }
    match fault {
        WireFault::End => StreamEnd::Closed { requests, kept },
        WireFault::NoMemory => StreamEnd::NoMemory,
        _ => StreamEnd::Wire {
            request: requests.saturating_add(1),
            fault,
        },
    }
}
