//! A synchronisation, with all that is promised of it in one word.

ghost use Rattle.exchange_link.specs.Between.{copy_between, link_between};
ghost use Rattle.consumer_commands.specs.Deltas.{IsDeltaOf};
ghost use Rattle.consumer_commands.specs.Syncs.{IsSyncOf};

use consumer_deltas::whole::sync;
use consumer_deltas::{DeltaAnswer, delta_sync};
use exchange_link::{Link, SyncAnswer};
use hub_words::SyncTask;
use keeper_memory::CopyKeeper;
use std::alloc::Global;

/// Copies what the task's token sees of the hub's newest version, or goes on with the stage that stands under the
/// token.
pub fn synchronise<C: CopyKeeper, L: Link>(
    alloc: Global,
    task: &SyncTask,
    copy: &mut C,
    link: &mut L,
) -> SyncAnswer
    ensures sync { IsSyncOf task.now result
        (copy_between C.stands_for C.fault_count copy.old copy.new)
        (link_between L.tells L.asked L.missed L.kept L.fault_count link.old link.new) }
    ensures copy_leads { C.leads copy.old copy.new }
    ensures link_leads { L.leads link.old link.new }
{
    sync(alloc, copy, link, task.token(), task.limit(), task.tries())
}

/// Brings what is held to what the task's token sees of the hub's newest version, by what differs from the held version
/// on.
pub fn synchronise_delta<C: CopyKeeper, L: Link>(
    alloc: Global,
    task: &SyncTask,
    copy: &mut C,
    link: &mut L,
) -> DeltaAnswer
    ensures delta { IsDeltaOf task.now result
        (copy_between C.stands_for C.fault_count copy.old copy.new)
        (link_between L.tells L.asked L.missed L.kept L.fault_count link.old link.new) }
    ensures copy_leads { C.leads copy.old copy.new }
    ensures link_leads { L.leads link.old link.new }
{
    delta_sync(alloc, copy, link, task.token(), task.limit(), task.tries())
}
