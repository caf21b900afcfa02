//! The outbox, with all that is promised of it in one word.

ghost use Rattle.keeper_memory.specs.copy.Copies.{IsOutWrite};
ghost use Rattle.exchange_link.specs.Between.{copy_between, link_between};
ghost use Rattle.consumer_commands.specs.Sends.{IsEnterOf, IsSendOf};

use consumer_outbox::{enter, send};
use exchange_link::{EnterError, Link, SendAnswer};
use hub_words::SendTask;
use keeper_memory::CopyKeeper;
use std::alloc::Global;
use version_core::mark::Write;

/// Puts a write into the outbox, under the next number, which it gives.
pub fn enter_write<C: CopyKeeper>(
    alloc: Global,
    write: Write,
    copy: &mut C,
) -> Result<u64, EnterError>
    requires { IsOutWrite write }
    ensures entered { IsEnterOf write result (copy_between C.stands_for C.fault_count copy.old copy.new) }
    ensures copy_leads { C.leads copy.old copy.new }
{
    enter(alloc, copy, write)
}

/// Sends the writes that wait, under the task's token.
pub fn send_writes<C: CopyKeeper, L: Link>(
    alloc: Global,
    task: &SendTask,
    copy: &mut C,
    link: &mut L,
) -> SendAnswer
    ensures sent { IsSendOf task.now result
        (copy_between C.stands_for C.fault_count copy.old copy.new)
        (link_between L.tells L.asked L.missed L.kept L.fault_count link.old link.new) }
    ensures copy_leads { C.leads copy.old copy.new }
    ensures link_leads { L.leads link.old link.new }
{
    send(alloc, copy, link, task.token(), task.tries())
}
