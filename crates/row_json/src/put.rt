//! Reading the bodies of writes.

ghost use Rattle.std.specs.Prelude.{◌≡◌, ◌∷◌, false, true, IfOk, Some, bytes_eq, not, option_copied};
ghost use Rattle.std.specs.Option.{option_map_or};
ghost use Rattle.serde_json.specs.View.{view};
ghost use Rattle.roster_base.specs.Reading.{Gives};
ghost use Rattle.roster_types.specs.Records.{id_in};
ghost use Rattle.roster_types.specs.Shapes.{fits_all, own_fields};
ghost use Rattle.roster_values.specs.Fit.{fits};
ghost use Rattle.roster_values.specs.Table.{table};
ghost use Rattle.roster_values.specs.declared.value.Value.TheVariants as field;
ghost use Rattle.row_json.specs.Puts.{id_field, member_value, put_in, put_of, put_under, status_field, unless_other};

use crate::fault::{JsonError, JsonFault};
use crate::read::{read_data, read_member, read_own_metadata, read_values, row_of_values};
use roster_base::{NoMemory, Refusal, TryCopy};
use roster_texts::{Id, Moment};
use roster_types::row::Row;
use roster_values::fields::{COMMON_FIELDS, FieldInfo, fields};
use roster_values::{Kind, Mode, Value as FieldValue};
use serde_json::Value;
use std::alloc::Global;

// The id that an object says, which may be missing.
fn read_id(alloc: Global, kind: Kind, row: &Value) -> Result<Option<FieldValue>, JsonError>
    ensures { Gives (λ v. v) result (member_value id_field (view row.now)) }
{
    let info = FieldInfo {
        required: false,
        ..fields(kind)[0]
    };
    read_member(alloc, Mode::Bulk, 0, &info, row)
}

// The status that an object says, which may be missing.
fn read_status(alloc: Global, kind: Kind, row: &Value) -> Result<Option<FieldValue>, JsonError>
    ensures value { Gives (λ v. v) result (member_value status_field (view row.now)) }
    ensures fit { IfOk result (λ v. fits status_field v ≡ true) }
{
    read_member(alloc, Mode::Bulk, 1, &fields(kind)[1], row)
}

// The values of all fields: the id, the status and the date before the kind's own.
fn all_values(
    alloc: Global,
    kind: Kind,
    id: &Id,
    status: Option<FieldValue>,
    at: Moment,
    own: Vec<Option<FieldValue>>,
) -> Result<Vec<Option<FieldValue>>, NoMemory>
    requires status { fits status_field status ≡ true }
    requires own { fits_all (own_fields kind) own.items ≡ true }
    ensures values { IfOk result (λ v. v.items ≡ Some (field.Id id.now) ∷ status ∷ Some (field.Moment at) ∷ own.items) }
    ensures fit { IfOk result (λ v. fits_all (table kind) v.items ≡ true) }
{
    let mut own = own;
    let mut values = Vec::new(alloc);
    values.push(Some(FieldValue::Id(id.copy(alloc)?)))?;
    values.push(status)?;
    // Read for the invariants of their types.
    let _ = id.as_str();
    let _ = at.milliseconds();
    values.push(Some(FieldValue::Moment(at)))?;
    values.append(&mut own)?;
    Ok(values)
}

// The id that a value is.
fn id_text(value: &FieldValue) -> &str
    ensures { result.now ≡ id_in (Some value.now) }
{
    match value {
        FieldValue::Id(id) => id.as_str(),
        _ => "",
    }
}

// Whether the text names another id than the path.
fn names_other(id: &Id, named: Option<&FieldValue>) -> bool
    ensures { result ≡ option_map_or (λ value. not (bytes_eq (id_in (Some value)) id.now)) (option_copied named.entry) false }
{
    match named {
        Some(value) => id_text(value) != id.as_str(),
        None => false,
    }
}

// The row, where the text names no other id than the path.
fn unless_other(id: &Id, named: Option<FieldValue>, row: Row) -> Result<Row, JsonError>
    ensures { Gives (λ r. r) result (unless_other id.now named row) }
{
    if names_other(id, named.as_ref()) {
        drop(row);
        return Err(Refusal::Fault(JsonFault::OtherId));
    }
    Ok(row)
}

// The row that an object says: the id of the path, active where it says no status, and always with the date of the
// write.
#[tactic(auto, unfolding(crate::specs::Puts::put_in))]
fn put_object(alloc: Global, kind: Kind, id: &Id, at: Moment, row: &Value) -> Result<Row, JsonError>
    ensures { Gives (λ r. r) result (put_in kind id.now at (view row.now)) }
{
    let named = read_id(alloc, kind, row)?;
    let status = read_status(alloc, kind, row)?;
    let own = read_values(alloc, Mode::Bulk, COMMON_FIELDS, kind, row)?;
    let metadata = read_own_metadata(alloc, row)?;
    let values = all_values(alloc, kind, id, status, at, own)?;
    let row = row_of_values(alloc, kind, values, metadata)?;
    unless_other(id, named, row)
}

// The row under the single word of its kind.
fn put_single(
    alloc: Global,
    kind: Kind,
    id: &Id,
    at: Moment,
    value: &Value,
) -> Result<Row, JsonError>
    ensures { Gives (λ r. r) result (put_under kind id.now at (view value.now)) }
{
    match value.get(kind.single()) {
        Some(row) if row.is_object() => put_object(alloc, kind, id, at, row),
        _ => Err(Refusal::Fault(JsonFault::Shape)),
    }
}

/// Reads the row that the body of a PUT puts under an id, at a moment.
///
/// The id is that of the path, the date the moment, and the status active where the text says none. The text may name
/// the id, and then that one.
///
/// # Errors
///
/// The first fault: `NotJson`, then `Shape`, then of the id and the status, of the kind's own fields in their order, of
/// the metadata and of the row's length, then `OtherId`.
#[tactic(auto, unfolding(crate::specs::Puts::put_of))]
pub fn read_put(
    alloc: Global,
    kind: Kind,
    id: &Id,
    at: Moment,
    bytes: &[u8],
) -> Result<Row, JsonError>
    ensures { Gives (λ r. r) result (put_of kind id.now at bytes.now) }
{
    let value = read_data(alloc, bytes)?;
    put_single(alloc, kind, id, at, &value)
}
