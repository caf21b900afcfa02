//! The steps of a call under the lock.

ghost use Rattle.std.specs.Prelude.{◌≡◌, Err, MatchBool, None};
ghost use Rattle.std.specs.Option.{ForSome};
ghost use Rattle.hub_core.specs.declared.hub_error.HubError.TheVariants as error;
ghost use Rattle.hub_history.specs.Histories.{CanEnter, state_after};
ghost use Rattle.hub_history.specs.Published.{history};
ghost use Rattle.hub_shared.specs.Reloads.{Reloads, answer_of};
ghost use Rattle.hub_shared.specs.Standings.{Pushed, Standing, Worked, entry_due, handed_out};

use crate::work::Work;
use hub_core::{Hub, HubError};
use hub_history::{Entry, Naming, Publisher};
use keeper_memory::HubKeeper;
use std::alloc::Global;
use std::sync::Wait;

// What the hub made, or left open.
fn due(hub: &mut Hub) -> Option<Entry>
    ensures hub { hub.new ≡ handed_out hub.old }
    ensures due { result ≡ entry_due hub.old }
{
    if hub.has_open_commit() {
        return Some(Entry::Fault);
    }
    hub.take_made().map(Entry::Commit)
}

// Adds what the hub made, or left open, to the history, if anything, and publishes it. It says whether there was memory
// to publish.
fn settle<N: Naming, R: Wait>(
    rt: &R,
    hub: &mut Hub,
    publisher: Publisher<N>,
) -> (Publisher<N>, bool)
    requires none { publisher.waiting ≡ None }
    requires can { ForSome (entry_due hub.old) (CanEnter (state_after N.opening publisher.published)) }
    ensures hub { hub.new ≡ handed_out hub.old }
    ensures pushed { Pushed (entry_due hub.old) publisher result.0 result.1 }
{
    let Some(entry) = due(hub) else {
        return (publisher, true);
    };
    let mut publisher = publisher;
    publisher.put(entry);
    publisher.publish(rt)
}

fn is_out_of_memory(asked: &Result<(), HubError>) -> bool
    ensures { MatchBool result (asked.now ≡ Err error.NoMemory) (asked.now ≡ Err error.NoMemory → ⊥) }
{
    matches!(asked, Err(HubError::NoMemory))
}

// The keeper is asked what it made of a commit at which it failed, where there is one.
fn reload<H: HubKeeper, N: Naming, R: Wait>(
    rt: &R,
    alloc: Global,
    hub: &mut Hub,
    keeper: &mut H,
    publisher: Publisher<N>,
) -> (Publisher<N>, Result<(), HubError>)
    requires none { publisher.waiting ≡ None }
    requires standing { Standing N.opening N.count N.stood publisher hub.old (H.stands_for keeper.old) (H.fault_count keeper.old) }
    ensures standing { Standing N.opening N.count N.stood result.0 hub.new (H.stands_for keeper.new) (H.fault_count keeper.new) }
    ensures reloads { Reloads (history publisher) result.0 hub.old hub.new (H.fault_count keeper.old) (H.fault_count keeper.new) result.1 }
{
    if !hub.has_open_commit() {
        // What was handed over earlier stands in the history, or was never made.
        drop(hub.take_made());
        return (publisher, Ok(()));
    }
    let asked = hub.ready(alloc, keeper);
    if is_out_of_memory(&asked) {
        return (publisher, asked);
    }
    let (publisher, done) = settle(rt, hub, publisher);
    let told = if done {
        asked
    } else {
        drop(asked);
        Err(HubError::NoMemory)
    };
    (publisher, told)
}

// The steps before a call's own work: what waits is published, and the keeper is asked what it made of a commit at
// which it failed.
fn begin<H: HubKeeper, N: Naming, R: Wait>(
    rt: &R,
    alloc: Global,
    hub: &mut Hub,
    keeper: &mut H,
    publisher: Publisher<N>,
) -> (Publisher<N>, Result<(), HubError>)
    requires standing { Standing N.opening N.count N.stood publisher hub.old (H.stands_for keeper.old) (H.fault_count keeper.old) }
    ensures standing { Standing N.opening N.count N.stood result.0 hub.new (H.stands_for keeper.new) (H.fault_count keeper.new) }
    ensures reloads { Reloads (history publisher) result.0 hub.old hub.new (H.fault_count keeper.old) (H.fault_count keeper.new) result.1 }
{
    let (publisher, done) = publisher.publish(rt);
    if !done {
        return (publisher, Err(HubError::NoMemory));
    }
    reload(rt, alloc, hub, keeper, publisher)
}

/// Does the work of a call, with the steps before it, and publishes what it made. Where a step before it fails, or
/// memory runs out to publish, there is no answer.
pub fn carry_out<H: HubKeeper, N: Naming, W: Work<H> + Drop, R: Wait>(
    rt: &R,
    alloc: Global,
    hub: &mut Hub,
    keeper: &mut H,
    publisher: Publisher<N>,
    work: W,
) -> (Publisher<N>, Result<W::Answer, HubError>)
    requires standing { Standing N.opening N.count N.stood publisher hub.old (H.stands_for keeper.old) (H.fault_count keeper.old) }
    ensures standing { Standing N.opening N.count N.stood result.0 hub.new (H.stands_for keeper.new) (H.fault_count keeper.new) }
    ensures worked { Worked (W.asks work) (W.fails work error.Keeper) (W.fails work error.NoMemory) N.opening publisher result.0 hub.old (H.fault_count keeper.old) (H.fault_count keeper.new) (answer_of (W.fails work) result.1) }
{
    let (publisher, ready) = begin(rt, alloc, hub, keeper, publisher);
    match ready {
        Ok(()) => {
            let answer = work.run(alloc, hub, keeper);
            let (publisher, done) = settle(rt, hub, publisher);
            let told = if done {
                Ok(answer)
            } else {
                drop(answer);
                Err(HubError::NoMemory)
            };
            (publisher, told)
        }
        Err(error) => (publisher, Err(error)),
    }
}
