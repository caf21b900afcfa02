//! Reading rows from JSON texts.

ghost use Rattle.std.specs.Prelude.{◌≡◌, true, IfOk, codes, drop, option_map};
ghost use Rattle.std.specs.List.{All};
ghost use Rattle.serde_json.specs.Find.{as_str, get};
ghost use Rattle.serde_json.specs.View.{items_view, members_view, view};
ghost use Rattle.roster_base.specs.Reading.{Gives};
ghost use Rattle.roster_types.specs.Rows.{row_from};
ghost use Rattle.roster_types.specs.Shapes.{fits_all};
ghost use Rattle.roster_values.specs.Table.{info_in, info_of, table};
ghost use Rattle.row_json.specs.declared.fault.JsonFault.TheVariants as json;
ghost use Rattle.row_json.specs.CellTexts.{each};
ghost use Rattle.row_json.specs.Reading.{are_objects, collection_in, data_of, entries_in, entry_in, field_in};
ghost use Rattle.row_json.specs.Reading.{in_member, metadata_in, row_in, row_of, rows_of, single_in, unless_long};
ghost use Rattle.row_json.specs.Reading.{values_in};

use crate::cell_texts::text_of;
use crate::fault::{JsonError, JsonFault};
use crate::written::{written_row, written_rows};
use roster_base::{NoMemory, Refusal, Text};
use roster_texts::trim::trim_spaces;
use roster_texts::{Id, ValueFault};
use roster_types::metadata::{Entry, Metadata};
use roster_types::row::Row;
use roster_values::fields::{fields, info_in};
use roster_values::{FieldInfo, Kind, Mode, Value as FieldValue, ValueError, read_value};
use serde_json::{Map, Value};
use std::alloc::Global;

// The value of a field from that of its member: one that isn't there is blank.
#[tactic(auto, unfolding(crate::specs::Reading::field_in))]
fn read_field(
    alloc: Global,
    info: &FieldInfo,
    member: Option<&Value>,
) -> Result<Option<FieldValue>, ValueError>
    ensures { Gives (λ v. v) result (field_in (info_of info.now) (option_map (λ v. view v.now) member.entry)) }
{
    match member {
        Some(value) => {
            let text = text_of(alloc, info.form, value)?;
            read_value(alloc, info, text.as_str())
        }
        None => read_value(alloc, info, ""),
    }
}

/// The value of a field, whose fault goes under its name.
pub fn read_member(
    alloc: Global,
    mode: Mode,
    place: usize,
    info: &FieldInfo,
    row: &Value,
) -> Result<Option<FieldValue>, JsonError>
    ensures { Gives (λ v. v) result (in_member info.now.name.now (field_in (info_in mode place (info_of info.now)) (get info.now.name.now (view row.now)))) }
{
    match read_field(alloc, &info_in(mode, place, info), row.get(info.name)) {
        Ok(value) => Ok(value),
        Err(Refusal::Fault(fault)) => Err(Refusal::Fault(bad_member(alloc, info.name, fault)?)),
        Err(Refusal::NoMemory) => Err(Refusal::NoMemory),
    }
}

// The fault of a member, under its name.
fn bad_member(alloc: Global, name: &str, fault: ValueFault) -> Result<JsonFault, NoMemory>
    ensures { IfOk result (λ f. f ≡ json.Field name.now fault) }
{
    Ok(JsonFault::Field {
        name: Text::new(alloc, name)?,
        fault,
    })
}

/// The values of the fields from a place on in their order, or the first bad one.
pub fn read_values(
    alloc: Global,
    mode: Mode,
    first: usize,
    kind: Kind,
    row: &Value,
) -> Result<Vec<Option<FieldValue>>, JsonError>
    ensures values { Gives (λ v. v.items) result (values_in mode first (drop first (table kind)) (view row.now)) }
    ensures fit { IfOk result (λ v. fits_all (drop first (table kind)) v.items ≡ true) }
{
    let infos = fields(kind);
    let mut values = Vec::new(alloc);
    for place in first..infos.len() {
        values.push(read_member(alloc, mode, place, &infos[place], row)?)?;
    }
    Ok(values)
}

// The entry that a member of the metadata says, none where it is blank.
#[tactic(auto, unfolding(crate::specs::Reading::entry_in))]
fn read_entry(alloc: Global, name: &str, value: &Value) -> Result<Option<Entry>, ValueError>
    ensures { Gives (λ e. e) result (entry_in name.now (as_str (view value.now))) }
{
    let Some(text) = value.as_str() else {
        return Err(Refusal::Fault(ValueFault::BadList));
    };
    let Some(key) = Id::read(alloc, name)? else {
        return Err(Refusal::Fault(ValueFault::BadList));
    };
    let text = trim_spaces(text);
    if text.is_empty() {
        return Ok(None);
    }
    Ok(Some(Entry {
        key,
        text: Text::new(alloc, text)?,
    }))
}

// The entries that the members of the metadata say.
fn read_entries(alloc: Global, members: &Map<String, Value>) -> Result<Metadata, ValueError>
    ensures { Gives (λ m. m) result (entries_in (members_view members.now.entries)) }
{
    let mut metadata = Metadata::new(alloc);
    for (name, value) in members.iter() {
        match read_entry(alloc, name.as_str(), value)? {
            Some(entry) => metadata.push(entry)?,
            None => {}
        }
    }
    Ok(metadata)
}

// The metadata from the value of its member.
#[tactic(auto, unfolding(crate::specs::Reading::metadata_in))]
fn read_metadata(alloc: Global, member: Option<&Value>) -> Result<Metadata, ValueError>
    ensures { Gives (λ m. m) result (metadata_in (option_map (λ v. view v.now) member.entry)) }
{
    let Some(value) = member else {
        return Ok(Metadata::new(alloc));
    };
    match value.as_object() {
        Some(members) => read_entries(alloc, members),
        None => Err(Refusal::Fault(ValueFault::BadList)),
    }
}

/// The metadata of an object, whose fault goes under its name.
pub fn read_own_metadata(alloc: Global, row: &Value) -> Result<Metadata, JsonError>
    ensures { Gives (λ m. m) result (in_member (codes "metadata") (metadata_in (get (codes "metadata") (view row.now)))) }
{
    match read_metadata(alloc, row.get("metadata")) {
        Ok(metadata) => Ok(metadata),
        Err(Refusal::Fault(fault)) => Err(Refusal::Fault(bad_member(alloc, "metadata", fault)?)),
        Err(Refusal::NoMemory) => Err(Refusal::NoMemory),
    }
}

/// The row of the values of all its fields, where it isn't too long.
pub fn row_of_values(
    alloc: Global,
    kind: Kind,
    values: Vec<Option<FieldValue>>,
    metadata: Metadata,
) -> Result<Row, JsonError>
    requires { fits_all (table kind) values.items ≡ true }
    ensures row { Gives (λ r. r) result (unless_long (row_from kind values.items metadata)) }
    ensures kind { IfOk result (λ r. r.kind ≡ kind) }
{
    match Row::from_values(alloc, kind, values, metadata)? {
        Some(row) => Ok(row),
        None => Err(Refusal::Fault(bad_member(alloc, "*", ValueFault::TooLong)?)),
    }
}

// The row that an object says: its fields, its metadata and its length, or the first fault of these.
#[tactic(auto, unfolding(crate::specs::Reading::row_in))]
fn read_object(alloc: Global, mode: Mode, kind: Kind, row: &Value) -> Result<Row, JsonError>
    ensures row { Gives (λ r. r) result (row_in mode kind (view row.now)) }
    ensures kind { IfOk result (λ r. r.kind ≡ kind) }
{
    let values = read_values(alloc, mode, 0, kind, row)?;
    let metadata = read_own_metadata(alloc, row)?;
    row_of_values(alloc, kind, values, metadata)
}

// The row under the single word of its kind.
#[tactic(auto, unfolding(crate::specs::Reading::single_in))]
fn read_single(alloc: Global, mode: Mode, kind: Kind, value: &Value) -> Result<Row, JsonError>
    ensures row { Gives (λ r. r) result (single_in mode kind (view value.now)) }
    ensures kind { IfOk result (λ r. r.kind ≡ kind) }
{
    match value.get(kind.single()) {
        Some(row) if row.is_object() => read_object(alloc, mode, kind, row),
        _ => Err(Refusal::Fault(JsonFault::Shape)),
    }
}

// Whether all values are objects.
fn are_objects(values: &[Value]) -> bool
    ensures { result ≡ are_objects (items_view values.now) }
{
    for value in values {
        if !value.is_object() {
            return false;
        }
    }
    true
}

// The rows that objects say, in their order.
fn read_objects(
    alloc: Global,
    mode: Mode,
    kind: Kind,
    objects: &[Value],
) -> Result<Vec<Row>, JsonError>
    ensures rows { Gives (λ v. v.items) result (each (row_in mode kind) (items_view objects.now)) }
    ensures kinds { IfOk result (λ v. All (λ r. r.kind ≡ kind) v.items) }
{
    let mut rows = Vec::new(alloc);
    for object in objects {
        let row = read_object(alloc, mode, kind, object)?;
        rows.push(row)?;
    }
    Ok(rows)
}

// The rows under the plural word of their kind.
#[tactic(auto, unfolding(crate::specs::Reading::collection_in))]
fn read_rows(alloc: Global, mode: Mode, kind: Kind, value: &Value) -> Result<Vec<Row>, JsonError>
    ensures rows { Gives (λ v. v.items) result (collection_in mode kind (view value.now)) }
    ensures kinds { IfOk result (λ v. All (λ r. r.kind ≡ kind) v.items) }
{
    match value.get(kind.plural()).and_then(Value::as_array) {
        Some(rows) if are_objects(rows.as_slice()) => {
            read_objects(alloc, mode, kind, rows.as_slice())
        }
        _ => Err(Refusal::Fault(JsonFault::Shape)),
    }
}

/// The value of a text, as far as `serde_json` reads it.
#[tactic(auto, unfolding(crate::specs::Reading::data_of))]
pub fn read_data(alloc: Global, bytes: &[u8]) -> Result<Value, JsonError>
    ensures { Gives view result (data_of bytes.now) }
{
    match Value::from_slice(alloc, bytes) {
        Ok(value) => Ok(value),
        Err(error) => {
            if error.is_memory() {
                return Err(Refusal::NoMemory);
            }
            Err(Refusal::Fault(JsonFault::NotJson))
        }
    }
}

/// Reads the row of a single text, as OneRoster 1.1 gives a row under the single word of its kind.
///
/// `sourcedId`, `status` and `dateLastModified` are required, whatever else the kind requires. Of two members of one
/// name the last counts, unknown members are passed over, and spaces at the ends of strings are dropped.
///
/// # Errors
///
/// The first fault: `NotJson`, then `Shape`, then of the fields in their order, of the metadata, and of the row's
/// length.
#[tactic(auto, unfolding(crate::specs::Reading::row_of))]
pub fn read_row(alloc: Global, kind: Kind, bytes: &[u8]) -> Result<Row, JsonError>
    ensures row { Gives (λ r. r) result (row_of kind bytes.now) }
    ensures kind { IfOk result (λ r. r.kind ≡ kind) }
{
    if let Some(row) = written_row(alloc, kind, bytes)? {
        return Ok(row);
    }
    let value = read_data(alloc, bytes)?;
    read_single(alloc, Mode::Delta, kind, &value)
}

/// Reads the rows of a collection's text in their order: an array under the plural word of their kind.
///
/// # Errors
///
/// The first fault: `NotJson`, then `Shape` where one of them is no object, then of the rows in their order as
/// [`read_row`] has it.
#[tactic(auto, unfolding(crate::specs::Reading::rows_of))]
pub fn read_collection(alloc: Global, kind: Kind, bytes: &[u8]) -> Result<Vec<Row>, JsonError>
    ensures rows { Gives (λ v. v.items) result (rows_of kind bytes.now) }
    ensures kinds { IfOk result (λ v. All (λ r. r.kind ≡ kind) v.items) }
{
    if let Some(rows) = written_rows(alloc, kind, bytes)? {
        return Ok(rows);
    }
    let value = read_data(alloc, bytes)?;
    read_rows(alloc, Mode::Delta, kind, &value)
}
