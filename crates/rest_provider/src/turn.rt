//! One request after another.

ghost use Rattle.std.specs.Prelude.{◌≡◌, ◌<◌, Bool, None, length};
ghost use Rattle.http_wire.specs.Reading.{bytes_due};
ghost use Rattle.http_wire.specs.Replies.{reply_text};
ghost use Rattle.hub_core.specs.Standing.{KeeperFits};
ghost use Rattle.rest_provider.specs.Ends.{ends_of};
ghost use Rattle.rest_provider.specs.Exchanges.{Exchange};
ghost use Rattle.rest_provider.specs.Streams.{stage_of};
ghost use Rattle.rest_provider.specs.Turns.{IsAnswered, Turns};
ghost use Rattle.rest_provider.specs.declared.turn.Turn.{Turn};
ghost use Rattle.outside_ports.specs.Written.{Writes};
ghost use Rattle.roster_base.specs.Faults.{HasCause};

use crate::answering::answer;
use crate::desk::Desk;
use crate::moment::moment_of;
use http_wire::{WireFault, WireReader, write_reply};
use hub_core::Hub;
use keeper_memory::HubKeeper;
use outside_ports::{Clock, Failed, Sink, Source};
use status_info::Request;

/// What one turn of a stream comes to.
#[derive(Clone, Copy)]
pub enum Turn {
    /// A request was answered, and closes the stream or not.
    Answered { close: bool },
    /// A request was answered, and the sink failed at the reply.
    SinkFailed,
    /// No request could be read.
    Stopped(WireFault),
}

// Answers a request at the clock's moment, and writes the reply.
fn reply_to<H: HubKeeper, W: Sink, K: Clock>(
    desk: &Desk<'_, K>,
    hub: &mut Hub,
    keeper: &mut H,
    sink: &mut W,
    request: &Request,
) -> Result<(), Failed>
    requires { KeeperFits (H.stands_for keeper.old) hub.old }
    ensures fits { KeeperFits (H.stands_for keeper.new) hub.new }
    ensures leads { H.leads keeper.old keeper.new }
    ensures answered { (e : Exchange) × (e.request ≡ request.now) × Writes (W.written sink.old) (W.written sink.new) (reply_text e.reply) result
        × IsAnswered (stage_of (ends_of None 0 (W.written sink.old) (W.faults sink.old)) (H.stands_for keeper.old) (H.fault_count keeper.old) hub.old)
        (stage_of (ends_of None 0 (W.written sink.new) (W.faults sink.new)) (H.stands_for keeper.new) (H.fault_count keeper.new) hub.new) (K.moment desk.now.clock.now) e }
    ensures cause { HasCause (W.faults sink.old) (W.faults sink.new) result }
{
    let at = moment_of(desk.clock);
    let reply = answer(desk.alloc, desk.router, hub, keeper, request, at);
    let written = write_reply(sink, &reply);
    drop(reply);
    written
}

/// Reads the next request of a stream and answers it.
pub fn take_turn<H: HubKeeper, S: Source, W: Sink, K: Clock>(
    desk: &Desk<'_, K>,
    hub: &mut Hub,
    keeper: &mut H,
    reader: &mut WireReader,
    source: &mut S,
    sink: &mut W,
) -> Turn
    requires fits { KeeperFits (H.stands_for keeper.old) hub.old }
    requires fresh { reader.old.fault ≡ None }
    ensures fits { KeeperFits (H.stands_for keeper.new) hub.new }
    ensures leads { H.leads keeper.old keeper.new }
    ensures turns { Turns (stage_of (ends_of (S.left source.old) (S.faults source.old) (W.written sink.old) (W.faults sink.old)) (H.stands_for keeper.old) (H.fault_count keeper.old) hub.old)
        (stage_of (ends_of (S.left source.new) (S.faults source.new) (W.written sink.new) (W.faults sink.new)) (H.stands_for keeper.new) (H.fault_count keeper.new) hub.new)
        reader.old.kept reader.new.kept (K.moment desk.now.clock.now) result }
    ensures fresh { (close : Bool) → result ≡ Turn.Answered close → reader.new.fault ≡ None }
    ensures due { (close : Bool) → result ≡ Turn.Answered close → bytes_due (S.budget source.new) (length reader.new.kept) < bytes_due (S.budget source.old) (length reader.old.kept) }
{
    let request = match reader.next(desk.alloc, source) {
        Ok(request) => request,
        Err(fault) => return Turn::Stopped(fault),
    };
    let close = request.close;
    let written = reply_to(desk, hub, keeper, sink, &request);
    drop(request);
    match written {
        Ok(()) => Turn::Answered { close },
        Err(_) => Turn::SinkFailed,
    }
}
