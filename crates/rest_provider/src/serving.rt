//! Streams of requests.

ghost use Rattle.std.specs.Prelude.{◌≡◌, [], None};
ghost use Rattle.hub_core.specs.Standing.{KeeperFits};
ghost use Rattle.rest_provider.specs.Ends.{ends_of};
ghost use Rattle.rest_provider.specs.Streams.{Serves, stage_of};

use crate::desk::Desk;
use crate::ending::stop;
use crate::stream_end::StreamEnd;
use crate::turn::{Turn, take_turn};
use http_wire::WireReader;
use hub_core::Hub;
use keeper_memory::HubKeeper;
use outside_ports::{Clock, Sink, Source};
use roster_base::NoMemory;

// Answers the requests of a stream of which nothing was taken yet.
fn serve<H: HubKeeper, S: Source, W: Sink, K: Clock>(
    desk: &Desk<'_, K>,
    hub: &mut Hub,
    keeper: &mut H,
    reader: &mut WireReader,
    source: &mut S,
    sink: &mut W,
) -> StreamEnd
    requires fits { KeeperFits (H.stands_for keeper.old) hub.old }
    requires fresh { reader.old.fault ≡ None }
    requires none_kept { reader.old.kept ≡ [] }
    ensures fits { KeeperFits (H.stands_for keeper.new) hub.new }
    ensures leads { H.leads keeper.old keeper.new }
    ensures served { Serves (stage_of (ends_of (S.left source.old) (S.faults source.old) (W.written sink.old) (W.faults sink.old)) (H.stands_for keeper.old) (H.fault_count keeper.old) hub.old)
        (stage_of (ends_of (S.left source.new) (S.faults source.new) (W.written sink.new) (W.faults sink.new)) (H.stands_for keeper.new) (H.fault_count keeper.new) hub.new)
        (K.moment desk.now.clock.now) result }
{
    let mut answered: u64 = 0;
    'serving: loop {
        match take_turn(desk, hub, keeper, reader, source, sink) {
            Turn::Answered { close: false } => answered = answered.saturating_add(1),
            Turn::Answered { close: true } => {
                return StreamEnd::Closed {
                    requests: answered.saturating_add(1),
                    kept: reader.kept(),
                };
            }
            Turn::SinkFailed => return StreamEnd::Sink,
            Turn::Stopped(fault) => return stop(desk.alloc, sink, fault, answered, reader.kept()),
        }
    }
}

/// Answers the requests of a source in turn, each at the clock's moment, and writes their replies, until something ends
/// the stream. Where a request can't be read for what its bytes are, the reply that says so goes out last.
pub fn serve_stream<H: HubKeeper, S: Source, W: Sink, K: Clock>(
    desk: &Desk<'_, K>,
    hub: &mut Hub,
    keeper: &mut H,
    source: &mut S,
    sink: &mut W,
) -> StreamEnd
    requires { KeeperFits (H.stands_for keeper.old) hub.old }
    ensures fits { KeeperFits (H.stands_for keeper.new) hub.new }
    ensures leads { H.leads keeper.old keeper.new }
    // The requests are the first of the stream, however its reads are cut; what is written is the texts of their
    // replies, and then what tells of a fault; and the replies are those of a run of the hub.
    ensures served { Serves (stage_of (ends_of (S.left source.old) (S.faults source.old) (W.written sink.old) (W.faults sink.old)) (H.stands_for keeper.old) (H.fault_count keeper.old) hub.old)
        (stage_of (ends_of (S.left source.new) (S.faults source.new) (W.written sink.new) (W.faults sink.new)) (H.stands_for keeper.new) (H.fault_count keeper.new) hub.new)
        (K.moment desk.now.clock.now) result }
{
    match WireReader::new(desk.alloc) {
        Ok(mut reader) => serve(desk, hub, keeper, &mut reader, source, sink),
        Err(NoMemory) => StreamEnd::NoMemory,
    }
}
