//! A copy cascaded into a hub.

ghost use Rattle.std.specs.Prelude.{◌≡◌, ◌≤◌, IfOk};
ghost use Rattle.hub_cascade.specs.Answers.{CountsCopy, CountsHub, LeavesOpen, MakesCascade, TellsHeld, answer_of};
ghost use Rattle.hub_cascade.specs.Cascading.{active_rows, current_rows};
ghost use Rattle.hub_cascade.specs.Held.{CascadesHeld, held_rows};
ghost use Rattle.hub_cascade.specs.Steps.{MakesListed};
ghost use Rattle.hub_core.specs.Standing.{KeeperFits, StandsFrom};
ghost use Rattle.hub_core.specs.Steps.{CountsFault, LeavesOpen as LeavesHubOpen};
ghost use Rattle.keeper_memory.specs.Kept.{newest_kept};
ghost use Rattle.keeper_memory.specs.copy.Copies.{Copy};

use crate::change::held_change;
use crate::error::CascadeError;
use crate::held::held_set;
use hub_core::{Hub, HubError, Published};
use keeper_memory::{CopyKeeper, HubKeeper};
use roster_texts::{Moment, Name};
use roster_types::set::RosterSet;
use std::alloc::Global;

// Makes the rows that a set lists those of its feed, where it lists all that a copy holds.
fn publish_held<H: HubKeeper>(
    alloc: Global,
    hub: &mut Hub,
    keeper: &mut H,
    set: RosterSet,
    at: Moment,
) -> Result<Published, HubError>
    requires { KeeperFits (H.stands_for keeper.old) hub.old }
    ensures fits { KeeperFits (H.stands_for keeper.new) hub.new }
    ensures told { StandsFrom (H.stands_for keeper.old) (H.stands_for keeper.new) hub.old hub.new (MakesListed set at result) }
    ensures keeps { hub.new.keeps ≡ hub.old.keeps }
    ensures settled { LeavesHubOpen result hub.new.commit_open }
    ensures cause { CountsFault (H.fault_count keeper.old) (H.fault_count keeper.new) result }
    ensures leads { H.leads keeper.old keeper.new }
{
    match hub.ready(alloc, keeper) {
        Ok(()) => {
            let due = held_change(alloc, hub.table(), set, at);
            hub.adopt(alloc, keeper, due)
        }
        Err(error) => {
            drop(set);
            Err(error)
        }
    }
}

// The answer of a cascade, by that of the hub's calls.
fn answer_of(made: Result<Published, HubError>) -> Result<Published, CascadeError>
    ensures { result ≡ answer_of made }
{
    Ok(made?)
}

/// Makes the rows that a copy holds those of a feed, at a moment: the next version, where a row of the newest changes.
/// Each held row stands with its own date, an active row of the feed that isn't held is marked as deleted, and all else
/// stays. Rows that are named and lacking are no fault, since a copy may lack them. The copy stays as it is.
///
/// # Errors
///
/// `CopyKeeper` and `HubKeeper` where that keeper failed: after `HubKeeper` the version was added or not, after all
/// others it was not. `NothingHeld` exactly where the copy holds nothing, unless its keeper failed or memory ran out.
/// `Refused` exactly where the rows are refused, unless a keeper failed or memory ran out: for the first held row whose
/// id stands with another owner, for the first kind that would have too many rows, or where a version is due and the
/// newest has the last number. `NoMemory`.
pub fn cascade<H: HubKeeper, C: CopyKeeper>(
    alloc: Global,
    hub: &mut Hub,
    keeper: &mut H,
    copy: &mut C,
    feed: &Name,
    at: Moment,
) -> Result<Published, CascadeError>
    requires { KeeperFits (H.stands_for keeper.old) hub.old }
    ensures fits { KeeperFits (H.stands_for keeper.new) hub.new }
    ensures told { StandsFrom (H.stands_for keeper.old) (H.stands_for keeper.new) hub.old hub.new (MakesCascade (CascadesHeld (C.stands_for copy.new) feed.now at) result) }
    ensures held { TellsHeld (C.stands_for copy.new) result }
    ensures served { IfOk result (λ _. (c : Copy) → C.stands_for copy.new c → current_rows feed.now (newest_kept hub.new.kept.versions).rows ≡ active_rows (held_rows c)) }
    ensures same { (c : Copy) → C.stands_for copy.new c → C.stands_for copy.old c }
    ensures settled { LeavesOpen result hub.new.commit_open }
    ensures keeps { hub.new.keeps ≡ hub.old.keeps }
    ensures hub_cause { CountsHub (H.fault_count keeper.old) (H.fault_count keeper.new) result }
    ensures copy_cause { CountsCopy (C.fault_count copy.old) (C.fault_count copy.new) result }
    ensures hub_leads { H.leads keeper.old keeper.new }
    ensures copy_leads { C.leads copy.old copy.new }
    ensures later { C.fault_count copy.old ≤ C.fault_count copy.new }
{
    match held_set(alloc, copy, feed) {
        Ok(set) => answer_of(publish_held(alloc, hub, keeper, set, at)),
        Err(error) => Err(error),
    }
}
