//! What others do to a world's hub, and what is told of it.

ghost use Rattle.std.specs.Prelude.{◌≡◌, ◌++◌, ◌∷◌, [], ℤ, OnOk};
ghost use Rattle.sync_world.specs.Acts.{Acted, IsAct};
ghost use Rattle.sync_world.specs.Walks.{Walks};

use crate::asking::ask;
use crate::world::World;
use grant_scopes::GrantList;
use http_wire::WireFault;
use hub_core::{HubError, Published};
use roster_base::{Bytes, NoMemory, Text};
use roster_texts::{Moment, Name};
use roster_types::set::RosterSet;
use std::alloc::Global;

/// What others do to a hub, by files that were read.
#[derive(Drop)]
pub enum HubAct {
    /// Publishes a set under the name of its feed.
    Set { name: Name, set: RosterSet },
    /// Gives each caller of a list what it asks for.
    Grant { list: GrantList },
    /// Answers the requests of these bytes.
    Ask { bytes: Bytes },
    /// Nothing, since a file is refused, which these lines tell.
    Tell { lines: Text },
    /// Drops the hub, and opens it again from its keeper.
    Restart,
}

/// What is told of what others did.
#[derive(Drop)]
pub enum Saying {
    /// What the hub made of the set of a feed.
    Published {
        name: Name,
        answer: Result<Published, HubError>,
    },
    /// What the hub made of a list of grants.
    Granted {
        answer: Result<Published, HubError>,
    },
    /// The status of a reply, and the version that it names.
    Replied {
        status: u16,
        version: Option<u64>,
    },
    /// The request with this number, from 1, couldn't be read.
    Stopped {
        request: u64,
        fault: WireFault,
    },
    /// Bytes stand behind a request that closes the stream, in place of the request with this number.
    AfterClose {
        request: u64,
    },
    /// These lines.
    Lines {
        lines: Text,
    },
    /// The keeper failed as the hub was opened again.
    NotOpened,
}

// Adds what is told.
fn say(said: &mut Vec<Saying>, saying: Saying) -> Result<(), NoMemory>
    ensures { OnOk result (said.new.items ≡ said.old.items ++ saying ∷ []) }
{
    Ok(said.push(saying)?)
}

// Whether the hub found no memory for it, of which nothing is told.
fn is_out_of_memory(answer: &Result<Published, HubError>) -> bool {
    matches!(answer, Err(HubError::NoMemory))
}

// Publishes a set, and adds what the hub made of it.
fn set(
    alloc: Global,
    world: &mut World,
    name: Name,
    set: RosterSet,
    at: Moment,
    said: &mut Vec<Saying>,
) -> Result<(), NoMemory>
    ensures walks { Walks world.old world.new }
    ensures acted { OnOk result (Acted (IsAct (HubAct.Set name set) at) world.old world.new said.old.items said.new.items) }
{
    // Read for what it keeps.
    let _ = world.faults();
    let answer = world.publish(alloc, set, at);
    if is_out_of_memory(&answer) {
        drop(answer);
        drop(name);
        return Err(NoMemory);
    }
    say(said, Saying::Published { name, answer })
}

// Gives each caller of a list what it asks for, and adds what the hub made of it.
fn grant(
    alloc: Global,
    world: &mut World,
    list: GrantList,
    at: Moment,
    said: &mut Vec<Saying>,
) -> Result<(), NoMemory>
    ensures walks { Walks world.old world.new }
    ensures acted { OnOk result (Acted (IsAct (HubAct.Grant list) at) world.old world.new said.old.items said.new.items) }
{
    // Read for what it keeps.
    let _ = world.faults();
    let answer = world.set_grants(alloc, &list, at);
    drop(list);
    if is_out_of_memory(&answer) {
        drop(answer);
        return Err(NoMemory);
    }
    say(said, Saying::Granted { answer })
}

// Opens the hub again from its keeper, and adds that it failed where it did.
fn restart(alloc: Global, world: &mut World, said: &mut Vec<Saying>) -> Result<(), NoMemory>
    ensures walks { Walks world.old world.new }
    ensures acted { (at : ℤ) → OnOk result (Acted (IsAct HubAct.Restart at) world.old world.new said.old.items said.new.items) }
{
    // Read for what it keeps.
    let _ = world.faults();
    match world.reopen(alloc) {
        Ok(()) => Ok(()),
        Err(HubError::Keeper) => say(said, Saying::NotOpened),
        Err(error) => {
            drop(error);
            Err(NoMemory)
        }
    }
}

/// Does what others do to the hub of a world at a moment, and adds what is told of it.
pub fn act(
    alloc: Global,
    world: &mut World,
    act: HubAct,
    at: Moment,
    said: &mut Vec<Saying>,
) -> Result<(), NoMemory>
    ensures walks { Walks world.old world.new }
    ensures acted { OnOk result (Acted (IsAct act at) world.old world.new said.old.items said.new.items) }
{
    match act {
        HubAct::Set { name, set: roster } => set(alloc, world, name, roster, at, said),
        HubAct::Grant { list } => grant(alloc, world, list, at, said),
        HubAct::Ask { bytes } => ask(alloc, world, bytes, at, said),
        HubAct::Tell { lines } => say(said, Saying::Lines { lines }),
        HubAct::Restart => restart(alloc, world, said),
    }
}
