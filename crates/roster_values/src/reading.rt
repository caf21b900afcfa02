//! Reading the value of a field.

ghost use Rattle.std.specs.Prelude.{◌≡◌, true, map, Ok, Some, bytes_eq, find, IfOk, List, ℕ};
ghost use Rattle.roster_base.specs.Reading.{Gives};
ghost use Rattle.roster_texts.specs.Moments.{moment_of, written_day_of};
ghost use Rattle.roster_texts.specs.Results.{found_or};
ghost use Rattle.roster_texts.specs.declared.fault.ValueFault.TheVariants as fault;
ghost use Rattle.roster_values.specs.CellText.{cell_text};
ghost use Rattle.roster_values.specs.Fit.{fits};
ghost use Rattle.roster_values.specs.Lists.{ids_of, items_of, user_ids_of};
ghost use Rattle.roster_values.specs.Table.{form_of, info_of, Info};
ghost use Rattle.roster_values.specs.Values.{blank_of, form_value, many, value_of, word_of};
ghost use Rattle.roster_values.specs.declared.value.Value.{Value as FieldValue};
ghost use Rattle.roster_values.specs.declared.value.Value.TheVariants as variant;

use crate::fault::ValueError;
use crate::fields::{FieldForm, FieldInfo};
use crate::lists::{read_id, read_ids, read_items};
use crate::user_id::read_user_ids;
use crate::value::Value;
use crate::word::Word;
use roster_base::{Refusal, Text};
use roster_texts::moment::read_day;
use roster_texts::number::{read_flag, read_number, read_year};
use roster_texts::trim::trim_spaces;
use roster_texts::{Day, Moment, ValueFault};
use std::alloc::Global;

/// The value that a text has in a field, once the spaces at its ends are dropped: none where it is blank and the field
/// is not required. A list without items is blank too.
///
/// The text is that of a cell of a file, or of a string or a number in JSON.
#[tactic(auto, unfolding(crate::specs::Values::value_of))]
pub fn read_value(alloc: Global, info: &FieldInfo, text: &str) -> Result<Option<Value>, ValueError>
    ensures { Gives (λ v. v) result (value_of (info_of info.now) text.now) }
{
    let text = trim_spaces(text);
    if text.is_empty() {
        return blank(info.required);
    }
    read_form(alloc, info.form, info.required, text)
}

// What a blank text says in a field.
fn blank(required: bool) -> Result<Option<Value>, ValueError>
    ensures { Gives (λ v. v) result (blank_of required) }
{
    if required {
        return Err(Refusal::Fault(ValueFault::Empty));
    }
    Ok(None)
}

// The value that a text has in a field of a form, where the text is not blank.
#[tactic(auto, unfolding(crate::specs::Values::form_value))]
fn read_form(
    alloc: Global,
    form: FieldForm,
    required: bool,
    text: &str,
) -> Result<Option<Value>, ValueError>
    ensures { Gives (λ v. v) result (form_value (form_of form) required text.now) }
{
    match form {
        FieldForm::Text => Ok(Some(Value::Text(Text::new(alloc, text)?))),
        FieldForm::Id => Ok(Some(Value::Id(read_id(alloc, text)?))),
        FieldForm::Day => {
            let day = written_day(text).map_err(Refusal::Fault)?;
            Ok(Some(Value::Day(day)))
        }
        FieldForm::Moment => {
            let moment = written_moment(text).map_err(Refusal::Fault)?;
            Ok(Some(Value::Moment(moment)))
        }
        FieldForm::Number => {
            let number = read_number(text.as_bytes()).map_err(Refusal::Fault)?;
            Ok(Some(Value::Number(number)))
        }
        FieldForm::Year => {
            let year = read_year(text.as_bytes()).map_err(Refusal::Fault)?;
            Ok(Some(Value::Year(year)))
        }
        FieldForm::Flag => {
            let flag = read_flag(text).map_err(Refusal::Fault)?;
            Ok(Some(Value::Flag(flag)))
        }
        FieldForm::Word(words) => {
            let word = read_word(words, text).map_err(Refusal::Fault)?;
            Ok(Some(Value::Word(word)))
        }
        FieldForm::Texts => read_texts(alloc, required, text),
        FieldForm::UserIds => read_users(alloc, required, text),
        FieldForm::Ref(_) => Ok(Some(Value::Ref(read_id(alloc, text)?))),
        FieldForm::Refs(_) => read_references(alloc, required, text),
    }
}

fn written_day(text: &str) -> Result<Day, ValueFault>
    ensures { result ≡ found_or fault.BadDay (written_day_of text.now) }
{
    read_day(text.as_bytes()).ok_or(ValueFault::BadDay)
}

fn written_moment(text: &str) -> Result<Moment, ValueFault>
    ensures { result ≡ found_or fault.BadMoment (moment_of text.now) }
{
    Moment::read(text.as_bytes()).ok_or(ValueFault::BadMoment)
}

#[tactic(auto, using(crate::proofs::WordLemmas::found_word))]
fn read_word(words: &[&'static str], text: &str) -> Result<Word, ValueFault>
    ensures { result ≡ word_of (map (λ w. w.now) words.now) text.now }
{
    match listed(words, text) {
        Some(word) => Ok(Word::new(word)),
        None => Err(ValueFault::NotInList),
    }
}

// The listed word that the text is.
fn listed(words: &[&'static str], text: &str) -> Option<&'static str>
    ensures { result ≡ find (λ w. bytes_eq w.now text.now) words.now }
{
    words.iter().copied().find(|&word| word == text)
}

fn read_texts(alloc: Global, required: bool, text: &str) -> Result<Option<Value>, ValueError>
    ensures { Gives (λ v. v) result (many required (λ x. variant.Texts x) (Ok (items_of text.now))) }
{
    let texts = read_items(alloc, text)?;
    if texts.is_empty() {
        return blank(required);
    }
    Ok(Some(Value::Texts(texts)))
}

fn read_users(alloc: Global, required: bool, text: &str) -> Result<Option<Value>, ValueError>
    ensures { Gives (λ v. v) result (many required (λ x. variant.UserIds x) (user_ids_of text.now)) }
{
    let user_ids = read_user_ids(alloc, text)?;
    if user_ids.is_empty() {
        return blank(required);
    }
    Ok(Some(Value::UserIds(user_ids)))
}

fn read_references(alloc: Global, required: bool, text: &str) -> Result<Option<Value>, ValueError>
    ensures { Gives (λ v. v) result (many required (λ x. variant.Refs x) (ids_of text.now)) }
{
    let ids = read_ids(alloc, text)?;
    if ids.is_empty() {
        return blank(required);
    }
    Ok(Some(Value::Refs(ids)))
}

/// A law: what a text reads as may stand in the field.
pub fn values_fit()
    ensures { (info : Info) (text : List ℕ) → IfOk (value_of info text) (λ o. fits info o ≡ true) }
{}

/// A law: a value that may stand in a field is read from its own cell text.
pub fn cells_read_back()
    ensures { (info : Info) (value : FieldValue) → fits info (Some value) ≡ true
        → value_of info (cell_text value) ≡ Ok (Some value) }
{}
