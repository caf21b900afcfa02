//! The command `outbox`.

ghost use Rattle.exchange_link.specs.Between.{copy_between};
ghost use Rattle.hub_commands.specs.OutboxAnswers.{IsOutboxAnswer};

use crate::answer::{Answer, End};
use consumer_commands::outbox_text;
use keeper_memory::CopyKeeper;
use roster_base::{KeeperError, Text};
use std::alloc::Global;

/// Prints the entries of the outbox.
pub fn outbox<C: CopyKeeper>(alloc: Global, copy: &mut C) -> Answer
    ensures { IsOutboxAnswer (copy_between C.stands_for C.fault_count copy.old copy.new) result }
{
    match outbox_text(alloc, copy) {
        Ok(text) => Answer {
            done: Text::from_string(text),
            end: End::Done,
        },
        Err(KeeperError::Failed) => Answer::nothing_done(alloc, End::CopyFailed),
        Err(KeeperError::NoMemory) => Answer::nothing_done(alloc, End::NoMemory),
    }
}
