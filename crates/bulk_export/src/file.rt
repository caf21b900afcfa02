//! The file of a kind of an exported set.

ghost use Rattle.std.specs.Prelude.{◌≡◌, ◌≤◌, IfErr, IfOk, OnOk, length};
ghost use Rattle.bulk_export.specs.Exports.{CauseOf, IsExport};
ghost use Rattle.csv_sets.specs.Written.{written_text};
ghost use Rattle.keeper_memory.specs.copy.Copies.{Copy, held_list};
ghost use Rattle.roster_base.specs.Faults.{Rose};

use crate::error::ExportError;
use crate::text::{file_text, held_rows};
use keeper_memory::CopyKeeper;
use roster_values::Kind;
use std::alloc::Global;

/// The file of the rows of a kind that the copy holds, in order of id: what `read_file` reads from it in each mode is
/// these rows, each with its date.
///
/// # Errors
///
/// `NothingHeld` where the copy holds nothing; `KeeperFault` where its keeper failed; `TooLarge` where the file would
/// have more than 67,108,864 bytes; `NoMemory`.
pub fn export_file<C: CopyKeeper>(
    alloc: Global,
    copy: &mut C,
    kind: Kind,
) -> Result<Vec<u8>, ExportError>
    ensures text { IfOk result (λ v. IsExport kind (C.stands_for copy.new) v.items) }
    ensures same { (c : Copy) → C.stands_for copy.new c → C.stands_for copy.old c }
    ensures leads { C.leads copy.old copy.new }
    ensures later { C.fault_count copy.old ≤ C.fault_count copy.new }
    ensures stood { OnOk result (C.fault_count copy.new ≡ C.fault_count copy.old) }
    ensures cause { IfErr result
        (λ e. CauseOf (C.stands_for copy.new) (Rose (C.fault_count copy.old) (C.fault_count copy.new))
        (λ c n. n ≡ length (written_text kind (held_list c kind))) e) }
{
    let rows = held_rows(alloc, copy, kind)?;
    file_text(alloc, kind, rows.as_slice())
}
