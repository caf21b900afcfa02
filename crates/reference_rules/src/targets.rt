//! The faults of one field.

ghost use Rattle.std.specs.Prelude.{◌≡◌, ◌++◌, IfOk, List, OnOk, option_copied, option_map};
ghost use Rattle.std.specs.List.{flat_map};
ghost use Rattle.reference_rules.specs.Faults.{day_fault, fault_at, has_wrong_type, listed, target_faults, target_kind};
ghost use Rattle.reference_rules.specs.Faults.{type_asked, value_faults};
ghost use Rattle.reference_rules.specs.Parents.{is_in_cycle};
ghost use Rattle.roster_types.specs.Records.{Record};
ghost use Rattle.roster_values.specs.Table.{form_of, info_of};
ghost use Rattle.roster_values.specs.Value.{shown};

use crate::ref_fault::{Fault, RefFault};
use crate::typed::{first_day, has_type};
use roster_base::{NoMemory, Text, TryCopy};
use roster_texts::{Day, Id};
use roster_types::row::Row;
use roster_types::rows::Rows;
use roster_values::{FieldForm, FieldInfo, Kind, ValueRef};
use std::alloc::Global;

// The kind of the rows that a field names, where it names any. Demographics have the id of their user.
fn target_kind(kind: Kind, form: FieldForm) -> Option<Kind>
    ensures { result ≡ target_kind kind (form_of form) }
{
    match form {
        FieldForm::Ref(target) => Some(target),
        FieldForm::Refs(target) => Some(target),
        FieldForm::Id => match kind {
            Kind::Demographics => Some(Kind::Users),
            _ => None,
        },
        _ => None,
    }
}

// The type that the row named by a field must have, where one is asked.
fn type_asked(kind: Kind, field: &str) -> Option<&'static str>
    ensures { option_map (λ s. s.now) result ≡ type_asked kind field.now }
{
    match kind {
        Kind::Classes => {
            if field == "school" {
                return Some("school");
            }
        }
        Kind::LineItems => {
            if field == "gradingPeriod" {
                return Some("gradingPeriod");
            }
        }
        _ => {}
    }
    None
}

// Whether the row named by a field has another type than the field asks for.
fn has_wrong_type(kind: Kind, field: &str, target: &Row) -> bool
    ensures { result ≡ has_wrong_type kind field.now target.now }
{
    match type_asked(kind, field) {
        Some(word) => !has_type(target, word),
        None => false,
    }
}

// What is wrong with a row's field that names this row, if there is one.
fn fault_at(row: &Row, field: &str, target: Option<&Row>, in_cycle: bool) -> Option<Fault>
    ensures { (rows : List Record) → in_cycle ≡ is_in_cycle rows row.now.kind row.now.id → result ≡ fault_at rows row.now field.now (option_copied target.entry) }
{
    let Some(target) = target else {
        return Some(Fault::Missing);
    };
    if has_wrong_type(row.kind(), field, target) {
        return Some(Fault::WrongType);
    }
    if field == "parent" && in_cycle {
        return Some(Fault::Cycle);
    }
    None
}

// A copy of the id that is named, where one is.
fn copy_target(alloc: Global, target: Option<&Id>) -> Result<Option<Id>, NoMemory>
    ensures { IfOk result (λ t. t ≡ option_copied target.entry) }
{
    match target {
        Some(id) => Ok(Some(id.copy(alloc)?)),
        None => Ok(None),
    }
}

// Adds a broken reference with the fault, if there is one.
fn push_fault(
    row: &Row,
    field: &str,
    target: Option<&Id>,
    fault: Option<Fault>,
    found: &mut Vec<RefFault>,
) -> Result<(), NoMemory>
    ensures { OnOk result (found.new.items ≡ found.old.items ++ listed row.now field.now (option_copied target.entry) fault) }
{
    let alloc = *found.allocator();
    if let Some(fault) = fault {
        found.push(RefFault {
            kind: row.kind(),
            id: row.id().copy(alloc)?,
            field: Text::new(alloc, field)?,
            target: copy_target(alloc, target)?,
            fault,
        })?;
    }
    Ok(())
}

// Adds what is wrong with one id that a field names.
fn add_target_faults<R: Rows>(
    rows: &R,
    row: &Row,
    in_cycle: bool,
    info: &FieldInfo,
    id: &Id,
    found: &mut Vec<RefFault>,
) -> Result<(), NoMemory>
    requires { in_cycle ≡ is_in_cycle (R.rows rows.now) row.now.kind row.now.id }
    ensures { OnOk result (found.new.items ≡ found.old.items ++ target_faults (R.rows rows.now) row.now (info_of info.now) id.now) }
{
    if let Some(kind) = target_kind(row.kind(), info.form) {
        let fault = fault_at(row, info.name, rows.row(kind, id), in_cycle);
        push_fault(row, info.name, Some(id), fault, found)?;
    }
    Ok(())
}

// Adds what is wrong with the ids that a field names, one after another.
fn add_all_faults<R: Rows>(
    rows: &R,
    row: &Row,
    in_cycle: bool,
    info: &FieldInfo,
    ids: &[Id],
    found: &mut Vec<RefFault>,
) -> Result<(), NoMemory>
    requires { in_cycle ≡ is_in_cycle (R.rows rows.now) row.now.kind row.now.id }
    ensures { OnOk result (found.new.items ≡ found.old.items ++ flat_map (target_faults (R.rows rows.now) row.now (info_of info.now)) ids.now) }
{
    for id in ids {
        add_target_faults(rows, row, in_cycle, info, id, found)?;
    }
    Ok(())
}

// What is wrong with the day of a field, which must not be before the first day where it is the last.
fn day_fault(row: &Row, field: &str, last: &Day) -> Option<Fault>
    ensures { result ≡ day_fault row.now field.now last.now }
{
    if field == "endDate" {
        if let Some(first) = first_day(row) {
            if last.number() < first.number() {
                return Some(Fault::DayOrder);
            }
        }
    }
    None
}

/// Adds what is wrong with the value of a row's field.
pub fn add_value_faults<R: Rows>(
    rows: &R,
    row: &Row,
    in_cycle: bool,
    info: &FieldInfo,
    value: ValueRef<'_>,
    found: &mut Vec<RefFault>,
) -> Result<(), NoMemory>
    requires { in_cycle ≡ is_in_cycle (R.rows rows.now) row.now.kind row.now.id }
    ensures { OnOk result (found.new.items ≡ found.old.items ++ value_faults (R.rows rows.now) row.now (info_of info.now) (shown value.entry)) }
{
    match value {
        ValueRef::Id(id) => add_target_faults(rows, row, in_cycle, info, id, found),
        ValueRef::Ref(id) => add_target_faults(rows, row, in_cycle, info, id, found),
        ValueRef::Refs(ids) => { add_all_faults(rows, row, in_cycle, info, ids.as_slice(), found) }
        ValueRef::Day(day) => {
            let fault = day_fault(row, info.name, day);
            push_fault(row, info.name, None, fault, found)
        }
        _ => Ok(()),
    }
}
