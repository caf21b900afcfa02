//! The broken references of rows: ids that name no row, or a row of another type than the field asks for, chains of
//! parents that come back, and days in the wrong order.
#![tactic(auto)]

ghost use Rattle.std.specs.Prelude.{◌≡◌, ◌++◌, IfOk, IsTrue, List, None, OnOk, Some, map, slice_get, slice_index_or, ℕ};
ghost use Rattle.std.specs.List.{flat_map};
ghost use Rattle.reference_rules.specs.Faults.{AreAmong, faults_of, field_faults, kind_faults, row_faults};
ghost use Rattle.reference_rules.specs.Parents.{IsInCycle, is_in_cycle};
ghost use Rattle.roster_types.specs.Records.{Record, all_values};
ghost use Rattle.roster_values.specs.Table.{info_of, table};
ghost use Rattle.roster_values.specs.declared.kind.Kind.{Kind as Kinds};

mod chains;
mod cycles;
mod has_row;
pub mod order;
pub mod ref_fault;
mod targets;
mod typed;
mod walk;

use crate::cycles::is_in_cycle;
use crate::targets::add_value_faults;
use crate::walk::{begun, is_in_cycle_along};
pub use chains::parent;
pub use has_row::HasRow;
pub use ref_fault::{Fault, RefFault, has_cycle};
use roster_base::NoMemory;
use roster_types::row::Row;
use roster_types::rows::Rows;
use roster_values::fields::fields;
use roster_values::{FieldInfo, Kind};
use std::alloc::Global;
use std::collections::HashMap;
pub use typed::type_in;

// Adds what is wrong with the field at a place of the field table.
fn add_field_faults<R: Rows>(
    rows: &R,
    row: &Row,
    in_cycle: bool,
    place: usize,
    info: &FieldInfo,
    found: &mut Vec<RefFault>,
) -> Result<(), NoMemory>
    requires cycle { in_cycle ≡ is_in_cycle (R.rows rows.now) row.now.kind row.now.id }
    requires info { slice_get (table row.now.kind) place ≡ Some (info_of info.now) }
    ensures { OnOk result (found.new.items ≡ found.old.items ++ field_faults (R.rows rows.now) row.now (info_of info.now) (slice_index_or (all_values row.now) place None)) }
{
    // Read for its clause `row`, by which the row has as many values as its kind has fields.
    let _ = row.kind();
    match row.value(place) {
        Some(value) => add_value_faults(rows, row, in_cycle, info, value, found),
        None => Ok(()),
    }
}

// Adds what is wrong with a row, field by field.
fn add_row_faults<R: Rows>(
    rows: &R,
    row: &Row,
    in_cycle: bool,
    found: &mut Vec<RefFault>,
) -> Result<(), NoMemory>
    requires { in_cycle ≡ is_in_cycle (R.rows rows.now) row.now.kind row.now.id }
    ensures { OnOk result (found.new.items ≡ found.old.items ++ row_faults (R.rows rows.now) row.now) }
{
    let infos = fields(row.kind());
    for place in 0..infos.len() {
        add_field_faults(rows, row, in_cycle, place, &infos[place], found)?;
    }
    Ok(())
}

// Adds what is wrong with the rows of a kind.
fn add_kind_faults<'a, R: Rows>(
    alloc: Global,
    rows: &'a R,
    kind: Kind,
    found: &mut Vec<RefFault>,
) -> Result<(), NoMemory>
    ensures { OnOk result (found.new.items ≡ found.old.items ++ kind_faults (R.rows rows.now) kind) }
{
    let turns = rows.count(kind);
    let mut notes = HashMap::new(alloc);
    let mut after = None;
    while let Some(row) = rows.next(kind, after) {
        let in_cycle = is_in_cycle(alloc, rows, row, turns, &mut notes)?;
        add_row_faults(rows, row, in_cycle, found)?;
        after = Some(row.id());
    }
    Ok(())
}

// Adds what is wrong with the rows of these kinds.
fn faults_of_kinds<R: Rows>(
    alloc: Global,
    rows: &R,
    kinds: &[Kind],
) -> Result<Vec<RefFault>, NoMemory>
    ensures { IfOk result (λ v. v.items ≡ flat_map (kind_faults (R.rows rows.now)) kinds.now) }
{
    let mut found = Vec::new(alloc);
    for kind in kinds {
        add_kind_faults(alloc, rows, *kind, &mut found)?;
    }
    Ok(found)
}

/// Every broken reference, in the order of kinds, ids, fields (as the field table has them) and places in a list. A row
/// of whatever status may be named. At one field an id that is missing or of the wrong type goes before a cycle. Rows
/// without broken references are sound.
pub fn faults<R: Rows>(alloc: Global, rows: &R) -> Result<Vec<RefFault>, NoMemory>
    ensures { IfOk result (λ v. v.items ≡ faults_of (R.rows rows.now)) }
{
    // Read for its clause `order`.
    let _ = rows.count(Kind::Orgs);
    faults_of_kinds(alloc, rows, &Kind::ALL)
}

/// The broken references that some of the rows have, row by row. The other rows are only looked up. What is known of
/// parents is kept up to the next row of another kind that names one, so the list had best be in the order of kinds.
pub fn faults_among<'a, R: Rows, C: HasRow>(
    alloc: Global,
    rows: &'a R,
    among: &'a [C],
) -> Result<Vec<RefFault>, NoMemory>
    requires { AreAmong (R.rows rows.now) (map C.row_of among.now) }
    ensures { IfOk result (λ v. v.items ≡ flat_map (row_faults (R.rows rows.now)) (map C.row_of among.now)) }
{
    let mut found = Vec::new(alloc);
    let mut walk = begun(alloc, rows, Kind::Orgs);
    for item in among {
        let in_cycle = is_in_cycle_along(alloc, rows, item.row(), &mut walk)?;
        add_row_faults(rows, item.row(), in_cycle, &mut found)?;
    }
    Ok(found)
}

/// The test by which cycles are listed is true exactly where the id is its own n-th parent, for some n from 1 to the
/// number of rows of its kind.
pub fn cycles_are_found()
    ensures sound { (rows : List Record) (kind : Kinds) (id : List ℕ) → IsTrue (is_in_cycle rows kind id) → IsInCycle rows kind id }
    ensures complete { (rows : List Record) (kind : Kinds) (id : List ℕ) → IsInCycle rows kind id → IsTrue (is_in_cycle rows kind id) }
{}
