//! The entries of an outbox, as text.

ghost use Rattle.std.specs.Prelude.{◌≡◌, ◌++◌, IfOk, string_bytes};
ghost use Rattle.keeper_memory.specs.copy.Copies.{Copy};
ghost use Rattle.roster_base.specs.Faults.{CountsFailure};
ghost use Rattle.consumer_commands.specs.Outbox.{IsOutboxText};
ghost use Rattle.consumer_commands.specs.SendLines.{entry_text};

use crate::outbox_lines::entry_line;
use keeper_memory::{CopyKeeper, OutEntry};
use roster_base::{KeeperError, NoMemory};
use std::alloc::Global;

// The text with the line of one more entry.
fn push_entry(alloc: Global, mut text: String, entry: &OutEntry) -> Result<String, NoMemory>
    ensures { IfOk result (λ t. string_bytes t ≡ string_bytes text ++ entry_text entry.now) }
{
    text.push_str(entry_line(alloc, entry)?.as_str())?;
    Ok(text)
}

/// The lines of all entries, in the order of their numbers.
pub fn outbox_text<C: CopyKeeper>(alloc: Global, copy: &mut C) -> Result<String, KeeperError>
    ensures text { IfOk result (λ t. IsOutboxText (C.stands_for copy.new) (string_bytes t)) }
    ensures same { (c : Copy) → C.stands_for copy.new c → C.stands_for copy.old c }
    ensures copy_leads { C.leads copy.old copy.new }
    ensures cause { CountsFailure (C.fault_count copy.old) (C.fault_count copy.new) result }
{
    let mut text = String::new(alloc);
    let mut after: u64 = 0;
    'entries: loop {
        let Some(entry) = copy.entry(alloc, after)? else {
            return Ok(text);
        };
        after = entry.number;
        text = push_entry(alloc, text, &entry)?;
    }
}
