//! Requests of others, and what is told of their replies.

ghost use Rattle.std.specs.Prelude.{◌≡◌, ◌<◌, ◌++◌, ◌∷◌, [], ℕ, Bool, List, None, OnOk, length};
ghost use Rattle.http_wire.specs.Reading.{bytes_due};
ghost use Rattle.sync_world.specs.declared.asking.Turn.{Turn};
ghost use Rattle.status_info.specs.Causes.{status_of};
ghost use Rattle.status_info.specs.declared.cause.Cause.TheVariants.{Unreadable};
ghost use Rattle.sync_world.specs.Acts.{Acted, Asks, IsTaken, replied, tells_fault, tells_left};
ghost use Rattle.sync_world.specs.Asking.{Turns, unread, world_told};
ghost use Rattle.sync_world.specs.Walks.{Walks};

use crate::acts::Saying;
use crate::world::World;
use http_wire::{WireFault, WireReader};
use outside_ports::HeldSource;
use roster_base::{Bytes, NoMemory};
use roster_texts::Moment;
use status_info::{Cause, Reply, Request};
use std::alloc::Global;

/// What one turn of a stream comes to.
#[derive(Clone, Copy)]
pub enum Turn {
    /// A request was taken, and closes the stream or not.
    Answered { close: bool },
    /// No request could be read.
    Stopped(WireFault),
    /// Memory ran out.
    NoMemory,
}

// Adds what is told of a reply.
fn say_reply(said: &mut Vec<Saying>, reply: &Reply) -> Result<(), NoMemory>
    ensures { OnOk result (said.new.items ≡ said.old.items ++ replied reply.now ∷ []) }
{
    Ok(said.push(Saying::Replied {
        status: reply.cause.status(),
        version: reply.version,
    })?)
}

// Has the hub take a request, and adds what is told of its reply.
fn answer(
    alloc: Global,
    world: &mut World,
    request: &Request,
    at: Moment,
    said: &mut Vec<Saying>,
) -> Result<(), NoMemory>
    ensures walks { Walks world.old world.new }
    ensures acted { OnOk result (Acted (IsTaken request.now at) world.old world.new said.old.items said.new.items) }
{
    // Read for what it keeps.
    let _ = world.faults();
    let reply = world.take(alloc, request, at);
    let told = say_reply(said, &reply);
    drop(reply);
    told
}

// Reads the next request, and has the hub take it.
fn take_turn(
    alloc: Global,
    world: &mut World,
    reader: &mut WireReader,
    source: &mut HeldSource,
    at: Moment,
    said: &mut Vec<Saying>,
) -> Turn
    requires { reader.old.fault ≡ None }
    ensures walks { Walks world.old world.new }
    ensures fresh { (close : Bool) → result ≡ Turn.Answered close → reader.new.fault ≡ None }
    ensures due { (close : Bool) → result ≡ Turn.Answered close → bytes_due (length source.new) (length reader.new.kept) < bytes_due (length source.old) (length reader.old.kept) }
    ensures turns { Turns at (unread source.old reader.old.kept) (unread source.new reader.new.kept) result
        (world_told world.old said.old.items) (world_told world.new said.new.items) }
{
    match reader.next(alloc, source) {
        Err(fault) => Turn::Stopped(fault),
        Ok(request) => {
            let close = request.close;
            let told = answer(alloc, world, &request, at, said);
            drop(request);
            match told {
                Ok(()) => Turn::Answered { close },
                Err(NoMemory) => Turn::NoMemory,
            }
        }
    }
}

// Adds what is told where bytes are left behind a request that closes the stream.
fn say_left(said: &mut Vec<Saying>, request: u64, kept: u64, left: u64) -> Result<(), NoMemory>
    ensures { (xs ys : List ℕ) → kept ≡ length xs → left ≡ length ys → OnOk result (said.new.items ≡ said.old.items ++ tells_left request (xs ++ ys)) }
{
    if kept.saturating_add(left) == 0 {
        return Ok(());
    }
    Ok(said.push(Saying::AfterClose { request })?)
}

// Adds what is told of the reply to what can't be read, and where the stream stops.
fn say_unreadable(said: &mut Vec<Saying>, fault: WireFault, request: u64) -> Result<(), NoMemory>
    ensures { OnOk result (said.new.items ≡ said.old.items ++ Saying.Replied (status_of Unreadable) None ∷ Saying.Stopped request fault ∷ []) }
{
    said.push(Saying::Replied {
        status: Cause::Unreadable.status(),
        version: None,
    })?;
    Ok(said.push(Saying::Stopped { request, fault })?)
}

// Adds what is told of a fault at which the stream stops, in place of the request with this number.
fn say_stop(said: &mut Vec<Saying>, fault: WireFault, request: u64) -> Result<(), NoMemory>
    ensures { OnOk result (said.new.items ≡ said.old.items ++ tells_fault request fault) }
{
    match fault {
        WireFault::End => Ok(()),
        WireFault::NoMemory => Err(NoMemory),
        WireFault::Cut => Ok(said.push(Saying::Stopped { request, fault })?),
        _ => say_unreadable(said, fault, request),
    }
}

/// Has the hub of a world take the requests of some bytes in turn, at a moment, and adds what is told of their replies,
/// and of what stands behind them.
pub fn ask(
    alloc: Global,
    world: &mut World,
    bytes: Bytes,
    at: Moment,
    said: &mut Vec<Saying>,
) -> Result<(), NoMemory>
    ensures walks { Walks world.old world.new }
    ensures acted { OnOk result (Acted (Asks bytes at) world.old world.new said.old.items said.new.items) }
{
    let mut source = HeldSource::new(alloc, bytes.into_vec());
    let mut reader = WireReader::new(alloc)?;
    let mut taken: u64 = 0;
    'asking: loop {
        match take_turn(alloc, world, &mut reader, &mut source, at, said) {
            Turn::Answered { close: false } => taken = taken.saturating_add(1),
            Turn::Answered { close: true } => {
                return say_left(said, taken.saturating_add(2), reader.kept(), source.left());
            }
            Turn::Stopped(fault) => return say_stop(said, fault, taken.saturating_add(1)),
            Turn::NoMemory => return Err(NoMemory),
        }
    }
}
