//! What a JSON value says in a field, as the text of a cell that says the same.

ghost use Rattle.std.specs.Prelude.{◌≡◌, ◌++◌, Some, OnOk, string_bytes};
ghost use Rattle.std.specs.List.{list_all};
ghost use Rattle.serde_json.specs.Find.{as_array, get};
ghost use Rattle.serde_json.specs.View.{items_view, number_view, view};
ghost use Rattle.serde_json.specs.Written.{comma_if};
ghost use Rattle.roster_base.specs.Reading.{Gives};
ghost use Rattle.roster_texts.specs.declared.fault.ValueFault.TheVariants as fault;
ghost use Rattle.roster_values.specs.Fit.{is_no_comma};
ghost use Rattle.roster_values.specs.Table.{form_of};
ghost use Rattle.row_json.specs.CellTexts.{in_user_id, item_text, list_text, listed_id, listed_reference, part_or};
ghost use Rattle.row_json.specs.CellTexts.{reference_text, scalar_or, text_of, user_id_part, whole_text, without_comma};

use roster_base::{NoMemory, Refusal};
use roster_texts::ValueFault;
use roster_texts::trim::trim_spaces;
use roster_types::cell_text::user_id_text;
use roster_types::cells::flag_text;
use roster_values::lists::read_id;
use roster_values::{FieldForm, UserId, ValueError};
use serde_json::{Number, Value};
use std::alloc::Global;

// The digits of a whole number. `serde_json` reads whole numbers of 64 bits as such, and all others as floats.
fn whole_text(alloc: Global, number: &Number) -> Result<String, ValueError>
    ensures { Gives string_bytes result (whole_text (number_view number.now)) }
{
    if let Some(whole) = number.as_u64() {
        return Ok(format!(in alloc; "{whole}")?);
    }
    match number.as_i64() {
        Some(whole) => Ok(format!(in alloc; "{whole}")?),
        None => Err(Refusal::Fault(ValueFault::Fractional)),
    }
}

// The text that a scalar stands for. A value that is none has the fault.
fn scalar_text(alloc: Global, value: &Value, fault: ValueFault) -> Result<String, ValueError>
    ensures { Gives string_bytes result (scalar_or fault (view value.now)) }
{
    match value {
        Value::Null => Ok(String::new(alloc)),
        Value::Bool(flag) => Ok(String::from_str(alloc, flag_text(*flag))?),
        Value::Number(number) => whole_text(alloc, number),
        Value::String(text) => Ok(String::from_str(alloc, text.as_str())?),
        Value::Array(_) | Value::Object(_) => Err(Refusal::Fault(fault)),
    }
}

// The text of a scalar in an object.
fn part_text(
    alloc: Global,
    value: &Value,
    name: &str,
    fault: ValueFault,
) -> Result<String, ValueError>
    ensures { Gives string_bytes result (part_or fault (get name.now (view value.now))) }
{
    match value.get(name) {
        Some(part) => scalar_text(alloc, part, fault),
        None => Err(Refusal::Fault(fault)),
    }
}

// The id in a reference.
fn reference_text(alloc: Global, value: &Value) -> Result<String, ValueError>
    ensures { Gives string_bytes result (reference_text (view value.now)) }
{
    part_text(alloc, value, "sourcedId", ValueFault::BadId)
}

// The part of a user id that has this name. Whatever is wrong with it, the list is bad.
fn user_id_word(alloc: Global, value: &Value, name: &str) -> Result<String, ValueError>
    ensures { Gives string_bytes result (in_user_id (part_or fault.BadList (get name.now (view value.now)))) }
{
    match part_text(alloc, value, name, ValueFault::BadList) {
        Ok(text) => Ok(text),
        Err(Refusal::Fault(_)) => Err(Refusal::Fault(ValueFault::BadList)),
        Err(Refusal::NoMemory) => Err(Refusal::NoMemory),
    }
}

// The user id of an object with its parts.
#[tactic(auto, unfolding(crate::specs::CellTexts::user_id_part, roster_values::specs::UserIds::user_id_from))]
fn user_id_part(alloc: Global, value: &Value) -> Result<String, ValueError>
    ensures { Gives string_bytes result (user_id_part (view value.now)) }
{
    let form = user_id_word(alloc, value, "type")?;
    let identifier = user_id_word(alloc, value, "identifier")?;
    let form = trim_spaces(form.as_str());
    let identifier = trim_spaces(identifier.as_str());
    match UserId::read(alloc, form, identifier)? {
        Some(user_id) => Ok(user_id_text(alloc, &user_id)?),
        None => Err(Refusal::Fault(ValueFault::BadList)),
    }
}

// A text that may stand between commas.
#[tactic(auto, unfolding(crate::specs::CellTexts::without_comma))]
fn without_comma(text: String, fault: ValueFault) -> Result<String, ValueError>
    ensures { Gives string_bytes result (without_comma fault (string_bytes text)) }
{
    if has_no_comma(text.as_bytes()) {
        return Ok(text);
    }
    Err(Refusal::Fault(fault))
}

// Whether no comma is among the bytes.
fn has_no_comma(bytes: &[u8]) -> bool
    ensures { result ≡ list_all is_no_comma bytes.now }
{
    bytes.iter().all(|&b| b != b',')
}

// An id among others: blank, or what an id may be.
#[tactic(auto, unfolding(crate::specs::CellTexts::listed_id))]
fn listed_id(alloc: Global, text: &str) -> Result<String, ValueError>
    ensures { Gives string_bytes result (listed_id text.now) }
{
    let text = trim_spaces(text);
    if text.is_empty() {
        return Ok(String::new(alloc));
    }
    let id = read_id(alloc, text)?;
    Ok(String::from_str(alloc, id.as_str())?)
}

// The id of a reference among others.
#[tactic(auto, unfolding(crate::specs::CellTexts::listed_reference))]
fn listed_reference(alloc: Global, item: &Value) -> Result<String, ValueError>
    ensures { Gives string_bytes result (listed_reference (view item.now)) }
{
    let text = part_text(alloc, item, "sourcedId", ValueFault::BadList)?;
    let plain = without_comma(text, ValueFault::BadId)?;
    listed_id(alloc, plain.as_str())
}

// The text of an item of a list.
#[tactic(auto, unfolding(crate::specs::CellTexts::item_text))]
fn item_text(alloc: Global, form: FieldForm, item: &Value) -> Result<String, ValueError>
    ensures { Gives string_bytes result (item_text (form_of form) (view item.now)) }
{
    match form {
        FieldForm::Texts => {
            let text = scalar_text(alloc, item, ValueFault::BadList)?;
            without_comma(text, ValueFault::BadList)
        }
        FieldForm::UserIds => user_id_part(alloc, item),
        _ => listed_reference(alloc, item),
    }
}

// Adds a text, behind a comma where it is not the first.
fn push_part(text: &mut String, is_later: bool, part: &str) -> Result<(), NoMemory>
    ensures { OnOk result (string_bytes text.new ≡ string_bytes text.old ++ (comma_if is_later ++ part.now)) }
{
    if is_later {
        text.push(',')?;
    }
    text.push_str(part)?;
    Ok(())
}

// The texts of a list's items, with commas between them.
fn joined(alloc: Global, form: FieldForm, items: &[Value]) -> Result<String, ValueError>
    ensures { Gives string_bytes result (list_text (form_of form) (Some (items_view items.now))) }
{
    let mut text = String::new(alloc);
    let mut is_later = false;
    for item in items {
        let part = item_text(alloc, form, item)?;
        push_part(&mut text, is_later, part.as_str())?;
        is_later = true;
    }
    Ok(text)
}

// The text of a list.
#[tactic(auto, unfolding(crate::specs::CellTexts::list_text))]
fn list_text(alloc: Global, form: FieldForm, value: &Value) -> Result<String, ValueError>
    ensures { Gives string_bytes result (list_text (form_of form) (as_array (view value.now))) }
{
    match value.as_array() {
        Some(items) => joined(alloc, form, items.as_slice()),
        None => Err(Refusal::Fault(ValueFault::BadList)),
    }
}

/// The text of the cell that says in a field of a form what the value says: of a list its items between commas, of a
/// reference its id. A value that no cell could say, as an object in a scalar's place, is a fault.
#[tactic(auto, unfolding(crate::specs::CellTexts::text_of))]
pub fn text_of(alloc: Global, form: FieldForm, value: &Value) -> Result<String, ValueError>
    ensures { Gives string_bytes result (text_of (form_of form) (view value.now)) }
{
    match form {
        FieldForm::Ref(_) => reference_text(alloc, value),
        FieldForm::Texts | FieldForm::UserIds | FieldForm::Refs(_) => list_text(alloc, form, value),
        _ => scalar_text(alloc, value, ValueFault::BadList),
    }
}
