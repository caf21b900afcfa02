//! What comes to pass at an exchange, beside its own request.

ghost use Rattle.std.specs.Prelude.{◌≡◌, ◌+◌, IfSome, List, OnOk, length, position};
ghost use Rattle.sync_world.specs.Acts.{Acted};
ghost use Rattle.sync_world.specs.Happenings.{IsHappening, IsTakenAgain, Passed};
ghost use Rattle.sync_world.specs.Planned.{IsTakenOut, events_aside, events_at, fate_at, is_at, past_at, request_of};
ghost use Rattle.sync_world.specs.Walks.{Walks};
ghost use Rattle.sync_world.specs.declared.acts.Saying.{Saying as Said};

use crate::acts::{HubAct, Saying, act};
use crate::past::{Past, request_at};
use crate::world::World;
use roster_base::NoMemory;
use roster_texts::Moment;
use std::alloc::Global;

/// What happens just before the hub takes the request of an exchange.
#[derive(Drop)]
pub enum Happening {
    /// Others do something to the hub.
    Act { act: HubAct },
    /// The hub takes the request of an earlier exchange again.
    Late { request: u64 },
}

/// What happens, and just before which exchange, by its number from 1.
#[derive(Drop)]
pub struct Event {
    pub exchange: u64,
    pub happening: Happening,
}

/// What becomes of an exchange.
#[derive(Clone, Copy, Debug, PartialEq, Eq)]
pub enum Fate {
    /// The hub takes the request, and its reply comes.
    Whole,
    /// It fails before the hub takes the request.
    RequestLost,
    /// It fails once the hub has taken the request.
    ReplyLost,
    /// The hub doesn't take the request, and the reply of this exchange comes.
    Stale { reply: u64 },
}

/// What is to become of an exchange, by its number from 1.
#[derive(Clone, Copy)]
pub struct Planned {
    pub exchange: u64,
    pub fate: Fate,
}

/// An exchange that is being made: its number from 1, the moment, and what becomes of it.
#[derive(Clone, Copy)]
pub struct Exchange {
    pub number: u64,
    pub at: Moment,
    pub fate: Fate,
}

/// What is to become of the exchange of a number: what was planned last, and else that it is whole.
pub fn fate_of(planned: &[Planned], exchange: u64) -> Fate
    ensures { result ≡ fate_at planned.now exchange }
{
    let mut fate = Fate::Whole;
    for plan in planned {
        if plan.exchange == exchange {
            fate = plan.fate;
        }
    }
    fate
}

// Has the hub take the request of an exchange again, where it was sent.
fn take_again(alloc: Global, world: &mut World, past: &[Past], exchange: u64, at: Moment)
    ensures walks { Walks world.old world.new }
    ensures acted { (said : List Said) → Acted (IsTakenAgain at (request_of (past_at exchange past.now))) world.old world.new said said }
{
    // Read for what it keeps.
    let _ = world.faults();
    match request_at(past, exchange) {
        Some(request) => drop(world.take(alloc, request, at)),
        None => {}
    }
}

// Has something happen, and adds the lines that tell it.
fn happen(
    alloc: Global,
    world: &mut World,
    past: &[Past],
    happening: Happening,
    at: Moment,
    said: &mut Vec<Saying>,
) -> Result<(), NoMemory>
    ensures walks { Walks world.old world.new }
    ensures acted { OnOk result (Acted (IsHappening past.now at happening) world.old world.new said.old.items said.new.items) }
{
    match happening {
        Happening::Act { act: done } => act(alloc, world, done, at, said),
        Happening::Late { request } => {
            take_again(alloc, world, past, request, at);
            Ok(())
        }
    }
}

// The place of the first event of an exchange.
fn place_of(events: &[Event], exchange: u64) -> Option<usize>
    ensures { result ≡ position (is_at exchange) events.now }
{
    events.iter().position(|event| event.exchange == exchange)
}

// The first event of an exchange, which is taken out.
fn next_event(events: &mut Vec<Event>, exchange: u64) -> Option<Event>
    ensures taken { IsTakenOut exchange events.old.items events.new.items result }
    ensures fewer { IfSome result (λ _. length events.new.items + 1 ≡ length events.old.items) }
{
    let Some(place) = place_of(events.as_slice(), exchange) else {
        return None;
    };
    Some(events.remove(place))
}

/// Has the events of an exchange come to pass, in the order in which they were planned, and adds the lines that tell
/// them.
pub fn come_to_pass(
    world: &mut World,
    past: &[Past],
    events: &mut Vec<Event>,
    exchange: u64,
    at: Moment,
    said: &mut Vec<Saying>,
) -> Result<(), NoMemory>
    ensures walks { Walks world.old world.new }
    ensures passed { OnOk result (Passed past.now at (events_at exchange events.old.items) world.old world.new said.old.items said.new.items) }
    ensures aside { OnOk result (events.new.items ≡ events_aside exchange events.old.items) }
{
    let alloc = *said.allocator();
    'events: loop {
        let Some(event) = next_event(events, exchange) else {
            return Ok(());
        };
        let Event {
            exchange: _,
            happening,
        } = event;
        happen(alloc, world, past, happening, at, said)?;
    }
}
