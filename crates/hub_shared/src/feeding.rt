//! Feeds of a hub that threads share.

ghost use Rattle.std.specs.Prelude.{◌≡◌};
ghost use Rattle.csv_sets.specs.Folders.{folder_read};
ghost use Rattle.hub_shared.specs.Feeding.{Feeds, feed_read};

use crate::desk::Desk;
use crate::seat::Receipt;
use csv_sets::{SetError, read_set};
use hub_core::{HubError, Published};
use hub_history::Naming;
use keeper_memory::HubKeeper;
use outside_ports::{Clock, Folder, Gate};
use rest_provider::moment_of;
use roster_texts::Name;
use std::sync::Wait;

/// How a feed ended: what its set made, why its set couldn't be read, or why the hub gave no answer.
#[derive(Drop)]
pub enum FeedEnd {
    Published(Published),
    Set(SetError),
    Hub(HubError),
}

/// Reads the set in a folder and publishes it once, at the clock's moment.
pub fn feed_shared<H: HubKeeper, N: Naming, R: Wait, K: Clock, G: Gate, F: Folder>(
    desk: &Desk<'_, H, N, R, K, G>,
    turn: &mut u64,
    folder: &mut F,
    dir: &str,
    feed: &Name,
) -> (FeedEnd, Option<Receipt<N>>)
    // What the folder's files spell is published once; or its first fault is told, and nothing is done.
    ensures fed { Feeds N.opening
        (feed_read (folder_read (F.files folder.old) (F.faults folder.old) (F.faults folder.new)) dir.now feed.now)
        (K.moment desk.now.clock.now) result.0 result.1 }
    ensures files { F.files folder.new ≡ F.files folder.old }
{
    let set = match read_set(desk.alloc, folder, dir, feed) {
        Ok(set) => set,
        Err(error) => return (FeedEnd::Set(error), None),
    };
    desk.gate.arrive(desk.job, *turn);
    let (published, receipt) = desk
        .shared
        .publish(desk.rt, desk.alloc, set, moment_of(desk.clock));
    desk.gate.passed(desk.job, *turn);
    *turn = turn.saturating_add(1);
    match published {
        Ok(published) => (FeedEnd::Published(published), Some(receipt)),
        Err(error) => (FeedEnd::Hub(error), Some(receipt)),
    }
}
