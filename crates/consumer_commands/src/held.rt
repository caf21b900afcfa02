//! The rows that a copy holds, as text.

ghost use Rattle.std.specs.Prelude.{◌≡◌, IfOk, string_bytes};
ghost use Rattle.keeper_memory.specs.copy.Copies.{Copy};
ghost use Rattle.roster_base.specs.Faults.{CountsFailure};
ghost use Rattle.consumer_commands.specs.Held.{IsHeldText, listed_text};

use keeper_memory::CopyKeeper;
use roster_base::{KeeperError, NoMemory};
use roster_types::row::Row;
use roster_values::Kind;
use row_json::collection_text;
use std::alloc::Global;

// The collection of the rows, and a line feed.
#[tactic(auto, unfolding(crate::specs::Held::listed_text))]
fn rows_text(alloc: Global, kind: Kind, rows: &[Row]) -> Result<String, NoMemory>
    ensures { IfOk result (λ t. string_bytes t ≡ listed_text kind rows.now) }
{
    let mut text = collection_text(alloc, kind, rows, None)?;
    text.push_str("\n")?;
    Ok(text)
}

/// The collection of the rows of a kind that a copy holds, and a line feed.
pub fn held_text<C: CopyKeeper>(
    alloc: Global,
    copy: &mut C,
    kind: Kind,
) -> Result<String, KeeperError>
    ensures text { IfOk result (λ t. IsHeldText kind (C.stands_for copy.new) (string_bytes t)) }
    ensures same { (c : Copy) → C.stands_for copy.new c → C.stands_for copy.old c }
    ensures copy_leads { C.leads copy.old copy.new }
    ensures cause { CountsFailure (C.fault_count copy.old) (C.fault_count copy.new) result }
{
    let rows = copy.held(alloc, kind)?;
    let text = rows_text(alloc, kind, rows.as_slice());
    drop(rows);
    Ok(text?)
}
