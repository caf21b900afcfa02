//! What the copy holds, and the text of a file.

ghost use Rattle.std.specs.Prelude.{◌≡◌, ◌≤◌, IfErr, IfOk, Ok, OnOk, is_some, map};
ghost use Rattle.bulk_export.specs.Exports.{CauseOf, IsHeld, TextCauseOf};
ghost use Rattle.csv_sets.specs.Files.{file_of};
ghost use Rattle.csv_sets.specs.Written.{dated, written_text};
ghost use Rattle.keeper_memory.specs.copy.Copies.{Copy};
ghost use Rattle.keeper_memory.specs.copy.Lists.{IsList};
ghost use Rattle.roster_base.specs.Faults.{CountsFailure, Rose};
ghost use Rattle.roster_values.specs.declared.mode.Mode.{Mode};

use crate::error::{ExportError, export_error};
use csv_sets::file::LARGEST;
use csv_sets::write_file;
use keeper_memory::CopyKeeper;
use roster_base::{Items, KeeperError};
use roster_types::row::Row;
use roster_values::Kind;
use std::alloc::Global;

// Whether the copy holds anything.
fn holds<C: CopyKeeper>(alloc: Global, copy: &mut C) -> Result<bool, KeeperError>
    ensures holds { IfOk result (λ b. (c : Copy) → C.stands_for copy.new c → is_some c.held ≡ b) }
    ensures same { (c : Copy) → C.stands_for copy.new c → C.stands_for copy.old c }
    ensures leads { C.leads copy.old copy.new }
    ensures later { C.fault_count copy.old ≤ C.fault_count copy.new }
    ensures cause { CountsFailure (C.fault_count copy.old) (C.fault_count copy.new) result }
{
    let state = copy.state(alloc)?;
    Ok(state.held.is_some())
}

/// The rows of a kind that the copy holds, in order of id.
pub fn held_rows<C: CopyKeeper>(
    alloc: Global,
    copy: &mut C,
    kind: Kind,
) -> Result<Items<Row>, ExportError>
    ensures held { IfOk result (λ rows. (c : Copy) → C.stands_for copy.new c → IsHeld kind c rows) }
    ensures list { IfOk result (IsList kind) }
    ensures same { (c : Copy) → C.stands_for copy.new c → C.stands_for copy.old c }
    ensures leads { C.leads copy.old copy.new }
    ensures later { C.fault_count copy.old ≤ C.fault_count copy.new }
    ensures stood { OnOk result (C.fault_count copy.new ≡ C.fault_count copy.old) }
    ensures cause { IfErr result
        (λ e. CauseOf (C.stands_for copy.new) (Rose (C.fault_count copy.old) (C.fault_count copy.new)) (λ c n. ⊥) e) }
{
    match holds(alloc, copy) {
        Ok(true) => (),
        Ok(false) => return Err(ExportError::NothingHeld),
        Err(error) => return Err(export_error(error)),
    }
    match copy.held(alloc, kind) {
        Ok(rows) => Ok(rows),
        Err(error) => Err(export_error(error)),
    }
}

/// The text of a file of rows in order of id, where it isn't too large.
pub fn file_text(alloc: Global, kind: Kind, rows: &[Row]) -> Result<Vec<u8>, ExportError>
    requires { IsList kind rows.now }
    ensures text { IfOk result (λ v. v.items ≡ written_text kind rows.now) }
    ensures back { IfOk result (λ v. (mode : Mode) → file_of kind mode v.items ≡ Ok (map dated rows.now)) }
    ensures cause { IfErr result (λ e. TextCauseOf kind rows.now e) }
{
    let Ok(text) = write_file(alloc, kind, rows) else {
        return Err(ExportError::NoMemory);
    };
    if text.len() > LARGEST {
        return Err(ExportError::TooLarge {
            bytes: text.len() as u64,
        });
    }
    Ok(text)
}
