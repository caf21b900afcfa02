//! The command `delta`.

ghost use Rattle.exchange_link.specs.Between.{copy_between, link_between};
ghost use Rattle.hub_commands.specs.ConsumerAnswers.{IsDeltaAnswer};

use crate::answer::{Answer, End};
use consumer_commands::synchronise_delta;
use exchange_link::Link;
use hub_words::SyncTask;
use keeper_memory::CopyKeeper;
use std::alloc::Global;

/// Brings what is held of the hub behind a link to what the task's token sees of its newest version.
pub fn delta<C: CopyKeeper, L: Link>(
    alloc: Global,
    task: &SyncTask,
    copy: &mut C,
    link: &mut L,
) -> Answer
    ensures { IsDeltaAnswer task.now
        (copy_between C.stands_for C.fault_count copy.old copy.new)
        (link_between L.tells L.asked L.missed L.kept L.fault_count link.old link.new)
        result }
{
    let answer = synchronise_delta(alloc, task, copy, link);
    Answer::nothing_done(alloc, End::DeltaSynced(answer))
}
