//! The command `sync`.

ghost use Rattle.exchange_link.specs.Between.{copy_between, link_between};
ghost use Rattle.hub_commands.specs.ConsumerAnswers.{IsSyncAnswer};

use crate::answer::{Answer, End};
use consumer_commands::synchronise;
use exchange_link::Link;
use hub_words::SyncTask;
use keeper_memory::CopyKeeper;
use std::alloc::Global;

/// Copies what the task's token sees of the hub behind a link.
pub fn sync<C: CopyKeeper, L: Link>(
    alloc: Global,
    task: &SyncTask,
    copy: &mut C,
    link: &mut L,
) -> Answer
    ensures { IsSyncAnswer task.now
        (copy_between C.stands_for C.fault_count copy.old copy.new)
        (link_between L.tells L.asked L.missed L.kept L.fault_count link.old link.new)
        result }
{
    let answer = synchronise(alloc, task, copy, link);
    Answer::nothing_done(alloc, End::Synced(answer))
}
