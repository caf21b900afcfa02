//! The JSON values of a row's values, written as tokens.

ghost use Rattle.std.specs.Prelude.{◌≡◌, ◌≤◌, ◌∷◌, ◌++◌, [], flat_map, map, true, OnOk};
ghost use Rattle.json.specs.Token.{key, string};
ghost use Rattle.serde_json.specs.Data as json;
ghost use Rattle.serde_json.specs.Find.{of_integer};
ghost use Rattle.serde_json.specs.View.{items_of};
ghost use Rattle.roster_texts.specs.Days.{day_text};
ghost use Rattle.roster_texts.specs.Digits.{four};
ghost use Rattle.roster_texts.specs.Moments.{moment_text};
ghost use Rattle.roster_values.specs.Fit.{fits_form};
ghost use Rattle.roster_values.specs.Table.{form_of};
ghost use Rattle.roster_values.specs.Value.{shown};
ghost use Rattle.row_json.specs.Json.{reference_data, user_id_data, value_data};
ghost use Rattle.row_json.specs.Tokens.{data_tokens};

use json::Writer;
use roster_base::{NoMemory, Text};
use roster_texts::digits::push_four;
use roster_texts::{Day, Id, Moment};
use roster_types::cells::{flag_text, push_href};
use roster_values::{FieldForm, Kind, UserId, ValueRef};

/// A member with a text.
pub fn write_member(out: &mut Writer, name: &str, text: &str) -> Result<(), NoMemory>
    ensures before { OnOk result (out.new.before ≡ out.old.before) }
    ensures tokens { OnOk result (out.new.tokens ≡ out.old.tokens ++ key name.now ∷ string text.now ∷ []) }
{
    out.key(name)?;
    out.string(text)?;
    Ok(())
}

// A reference: where the row is found, its id and its type.
fn write_reference(
    out: &mut Writer,
    buffer: &mut String,
    kind: Kind,
    id: &Id,
) -> Result<(), NoMemory>
    ensures before { OnOk result (out.new.before ≡ out.old.before) }
    ensures tokens { OnOk result (out.new.tokens ≡ out.old.tokens ++ data_tokens (reference_data kind id.now)) }
{
    buffer.clear();
    push_href(buffer, kind, id)?;
    out.begin_object()?;
    write_member(out, "href", buffer.as_str())?;
    write_member(out, "sourcedId", id.as_str())?;
    write_member(out, "type", kind.single())?;
    out.end_object()?;
    Ok(())
}

// A user id: its identifier and its type.
fn write_user_id(out: &mut Writer, id: &UserId) -> Result<(), NoMemory>
    ensures before { OnOk result (out.new.before ≡ out.old.before) }
    ensures tokens { OnOk result (out.new.tokens ≡ out.old.tokens ++ data_tokens (user_id_data id.now)) }
{
    out.begin_object()?;
    write_member(out, "identifier", id.identifier())?;
    write_member(out, "type", id.form())?;
    out.end_object()?;
    Ok(())
}

// The items of an array of texts.
fn push_texts(out: &mut Writer, texts: &[Text]) -> Result<(), NoMemory>
    ensures before { OnOk result (out.new.before ≡ out.old.before) }
    ensures tokens { OnOk result (out.new.tokens ≡ out.old.tokens ++ flat_map (λ text. data_tokens (json.string text)) texts.now) }
{
    for text in texts {
        out.string(text.as_str())?;
    }
    Ok(())
}

// The items of an array of user ids.
fn push_user_ids(out: &mut Writer, ids: &[UserId]) -> Result<(), NoMemory>
    ensures before { OnOk result (out.new.before ≡ out.old.before) }
    ensures tokens { OnOk result (out.new.tokens ≡ out.old.tokens ++ flat_map (λ id. data_tokens (user_id_data id)) ids.now) }
{
    for id in ids {
        write_user_id(out, id)?;
    }
    Ok(())
}

// The items of an array of references.
fn push_references(
    out: &mut Writer,
    buffer: &mut String,
    kind: Kind,
    ids: &[Id],
) -> Result<(), NoMemory>
    ensures before { OnOk result (out.new.before ≡ out.old.before) }
    ensures tokens { OnOk result (out.new.tokens ≡ out.old.tokens ++ flat_map (λ id. data_tokens (reference_data kind id)) ids.now) }
{
    for id in ids {
        write_reference(out, buffer, kind, id)?;
    }
    Ok(())
}

// An array of texts.
fn write_texts(out: &mut Writer, texts: &[Text]) -> Result<(), NoMemory>
    ensures before { OnOk result (out.new.before ≡ out.old.before) }
    ensures tokens { OnOk result (out.new.tokens ≡ out.old.tokens ++ data_tokens (json.array (items_of (map json.string texts.now)))) }
{
    out.begin_array()?;
    push_texts(out, texts)?;
    out.end_array()?;
    Ok(())
}

// An array of user ids.
fn write_user_ids(out: &mut Writer, ids: &[UserId]) -> Result<(), NoMemory>
    ensures before { OnOk result (out.new.before ≡ out.old.before) }
    ensures tokens { OnOk result (out.new.tokens ≡ out.old.tokens ++ data_tokens (json.array (items_of (map user_id_data ids.now)))) }
{
    out.begin_array()?;
    push_user_ids(out, ids)?;
    out.end_array()?;
    Ok(())
}

// An array of references to rows of a kind.
fn write_references(
    out: &mut Writer,
    buffer: &mut String,
    kind: Kind,
    ids: &[Id],
) -> Result<(), NoMemory>
    ensures before { OnOk result (out.new.before ≡ out.old.before) }
    ensures tokens { OnOk result (out.new.tokens ≡ out.old.tokens ++ data_tokens (json.array (items_of (map (reference_data kind) ids.now)))) }
{
    out.begin_array()?;
    push_references(out, buffer, kind, ids)?;
    out.end_array()?;
    Ok(())
}

// A text.
fn write_text(out: &mut Writer, text: &str) -> Result<(), NoMemory>
    ensures before { OnOk result (out.new.before ≡ out.old.before) }
    ensures tokens { OnOk result (out.new.tokens ≡ out.old.tokens ++ string text.now ∷ []) }
{
    Ok(out.string(text)?)
}

// A day as its text.
fn write_day(out: &mut Writer, buffer: &mut String, day: Day) -> Result<(), NoMemory>
    ensures before { OnOk result (out.new.before ≡ out.old.before) }
    ensures tokens { OnOk result (out.new.tokens ≡ out.old.tokens ++ string (day_text day) ∷ []) }
{
    buffer.clear();
    day.push_to(buffer)?;
    write_text(out, buffer.as_str())
}

// A moment as its text.
fn write_moment(out: &mut Writer, buffer: &mut String, moment: Moment) -> Result<(), NoMemory>
    ensures before { OnOk result (out.new.before ≡ out.old.before) }
    ensures tokens { OnOk result (out.new.tokens ≡ out.old.tokens ++ string (moment_text moment) ∷ []) }
{
    buffer.clear();
    moment.push_to(buffer)?;
    write_text(out, buffer.as_str())
}

// A year as its four digits.
fn write_year(out: &mut Writer, buffer: &mut String, year: u16) -> Result<(), NoMemory>
    requires { year ≤ 9999 }
    ensures before { OnOk result (out.new.before ≡ out.old.before) }
    ensures tokens { OnOk result (out.new.tokens ≡ out.old.tokens ++ string (four year) ∷ []) }
{
    buffer.clear();
    push_four(buffer, year)?;
    write_text(out, buffer.as_str())
}

// A number as it is.
fn write_number(out: &mut Writer, number: i64) -> Result<(), NoMemory>
    ensures before { OnOk result (out.new.before ≡ out.old.before) }
    ensures tokens { OnOk result (out.new.tokens ≡ out.old.tokens ++ data_tokens (json.number (of_integer number))) }
{
    Ok(out.i64(number)?)
}

/// Writes the value of a field. The buffer is for its parts.
#[tactic(auto, unfolding(crate::specs::Json::value_data, roster_values::specs::CellText::cell_text))]
pub fn write_value(
    out: &mut Writer,
    buffer: &mut String,
    form: FieldForm,
    value: ValueRef<'_>,
) -> Result<(), NoMemory>
    requires { fits_form (form_of form) (shown value) ≡ true }
    ensures before { OnOk result (out.new.before ≡ out.old.before) }
    ensures tokens { OnOk result (out.new.tokens ≡ out.old.tokens ++ data_tokens (value_data (form_of form) (shown value.entry))) }
{
    match value {
        ValueRef::Text(text) => write_text(out, text.as_str()),
        ValueRef::Id(id) => write_text(out, id.as_str()),
        ValueRef::Day(day) => write_day(out, buffer, *day),
        ValueRef::Moment(moment) => write_moment(out, buffer, *moment),
        ValueRef::Number(number) => write_number(out, *number),
        ValueRef::Year(year) => write_year(out, buffer, *year),
        ValueRef::Flag(flag) => write_text(out, flag_text(*flag)),
        ValueRef::Word(word) => write_text(out, word),
        ValueRef::Texts(texts) => write_texts(out, texts.as_slice()),
        ValueRef::UserIds(ids) => write_user_ids(out, ids.as_slice()),
        ValueRef::Ref(id) => match form {
            FieldForm::Ref(kind) => write_reference(out, buffer, kind, id),
            _ => unreachable!(),
        },
        ValueRef::Refs(ids) => match form {
            FieldForm::Refs(kind) => write_references(out, buffer, kind, ids.as_slice()),
            _ => unreachable!(),
        },
    }
}
