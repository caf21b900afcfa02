//! The command `send`.

ghost use Rattle.exchange_link.specs.Between.{copy_between, link_between};
ghost use Rattle.hub_commands.specs.OutboxAnswers.{IsSendAnswer};

use crate::answer::{Answer, End};
use consumer_commands::send_writes;
use exchange_link::Link;
use hub_words::SendTask;
use keeper_memory::CopyKeeper;
use std::alloc::Global;

/// Sends the writes of the outbox, under the task's token, to the hub behind a link.
pub fn send<C: CopyKeeper, L: Link>(
    alloc: Global,
    task: &SendTask,
    copy: &mut C,
    link: &mut L,
) -> Answer
    ensures { IsSendAnswer task.now
        (copy_between C.stands_for C.fault_count copy.old copy.new)
        (link_between L.tells L.asked L.missed L.kept L.fault_count link.old link.new)
        result }
{
    let answer = send_writes(alloc, task, copy, link);
    Answer::nothing_done(alloc, End::Sent(answer))
}
