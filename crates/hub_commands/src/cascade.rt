//! The command `cascade`.

ghost use Rattle.std.specs.Prelude.{◌≡◌, false};
ghost use Rattle.exchange_link.specs.Between.{copy_between};
ghost use Rattle.hub_commands.specs.CascadeAnswers.{IsCascadeAnswer, cascade_run, end_of_cascade, or_ended};
ghost use Rattle.hub_commands.specs.Outside.{faults_between};
ghost use Rattle.hub_commands.specs.Runs.{LeadsBetween};
ghost use Rattle.hub_core.specs.Standing.{KeeperFits};
ghost use Rattle.keeper_memory.specs.Kept.{IsKept};

use crate::answer::{Answer, End};
use crate::publish::{end_of_error, told};
use hub_cascade::{CascadeError, cascade as cascade_copy};
use hub_core::{Hub, Published};
use keeper_memory::{CopyKeeper, HubKeeper};
use outside_ports::Clock;
use rest_provider::moment_of;
use roster_texts::Name;
use std::alloc::Global;

// The end that an error brings.
fn end_of_cascade(error: CascadeError) -> End
    ensures { result ≡ end_of_cascade error }
{
    match error {
        CascadeError::HubKeeper => End::HubFailed,
        CascadeError::CopyKeeper => End::CopyFailed,
        CascadeError::NoMemory => End::NoMemory,
        CascadeError::NothingHeld => End::NothingHeld,
        CascadeError::Refused(fault) => End::NotPublished(fault),
    }
}

/// What was made, or the end that an error brings.
pub fn or_ended(made: Result<Published, CascadeError>) -> Result<Published, End>
    ensures { result ≡ or_ended made }
{
    match made {
        Ok(published) => Ok(published),
        Err(error) => Err(end_of_cascade(error)),
    }
}

// Cascades what a copy holds into a hub that was opened.
fn cascade_into<H: HubKeeper, C: CopyKeeper, K: Clock>(
    alloc: Global,
    mut hub: Hub,
    feed: &Name,
    keeper: &mut H,
    copy: &mut C,
    clock: &K,
) -> Answer
    requires fits { KeeperFits (H.stands_for keeper.old) hub }
    requires settled { hub.commit_open ≡ false }
    requires kept { IsKept hub.kept }
    ensures { LeadsBetween H.stands_for keeper.old keeper.new (IsCascadeAnswer (cascade_run feed.now (K.moment clock.now)
        (faults_between H.fault_count keeper.old keeper.new) (copy_between C.stands_for C.fault_count copy.old copy.new)) result) }
{
    let made = cascade_copy(alloc, &mut hub, keeper, copy, feed, moment_of(clock));
    drop(hub);
    told(alloc, feed.as_str(), or_ended(made))
}

/// Makes the rows that a copy holds those of a feed, in the hub that a keeper keeps.
pub fn cascade<H: HubKeeper, C: CopyKeeper, K: Clock>(
    alloc: Global,
    feed: &Name,
    keeper: &mut H,
    copy: &mut C,
    clock: &K,
) -> Answer
    ensures { LeadsBetween H.stands_for keeper.old keeper.new (IsCascadeAnswer (cascade_run feed.now (K.moment clock.now)
        (faults_between H.fault_count keeper.old keeper.new) (copy_between C.stands_for C.fault_count copy.old copy.new)) result) }
{
    match Hub::open(alloc, keeper) {
        Ok(hub) => cascade_into(alloc, hub, feed, keeper, copy, clock),
        Err(error) => Answer::nothing_done(alloc, end_of_error(error)),
    }
}
