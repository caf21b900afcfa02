//! The command `list`.

ghost use Rattle.exchange_link.specs.Between.{copy_between};
ghost use Rattle.hub_commands.specs.ConsumerAnswers.{IsListAnswer};

use crate::answer::{Answer, End};
use consumer_commands::held_text;
use keeper_memory::CopyKeeper;
use roster_base::{KeeperError, Text};
use roster_values::Kind;
use std::alloc::Global;

/// Prints the rows of a kind that a copy holds.
pub fn list<C: CopyKeeper>(alloc: Global, kind: Kind, copy: &mut C) -> Answer
    ensures { IsListAnswer kind (copy_between C.stands_for C.fault_count copy.old copy.new) result }
{
    match held_text(alloc, copy, kind) {
        Ok(text) => Answer {
            done: Text::from_string(text),
            end: End::Done,
        },
        Err(KeeperError::Failed) => Answer::nothing_done(alloc, End::CopyFailed),
        Err(KeeperError::NoMemory) => Answer::nothing_done(alloc, End::NoMemory),
    }
}
