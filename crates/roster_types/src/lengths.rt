//! How long a row is. A length is counted up to a cap that no row may reach, so that no sum is too large.

ghost use Rattle.std.specs.Prelude.{◌≡◌, ◌+◌, ◌-◌, ◌≤◌, ℕ, true, IfOk, min, sum_by};
ghost use Rattle.roster_types.specs.Lengths as lengths;
ghost use Rattle.roster_values.specs.Fit.{fits_form};
ghost use Rattle.roster_values.specs.Table.{form_of};
ghost use Rattle.roster_values.specs.Value.{shown};

use crate::cells::{flag_text, href, number_text, year_text};
use crate::metadata::Entry;
use roster_base::{NoMemory, Text};
use roster_texts::Id;
use roster_values::{FieldForm, Kind, UserId, ValueRef};
use std::alloc::Global;

/// What a length is counted up to. It is above the longest row, and says nothing of what is longer.
pub const CAP: u64 = 100_000;

/// The sum of two lengths.
pub fn add(total: u64, more: u64) -> u64
    requires total { total ≤ CAP }
    requires more { more ≤ CAP }
    ensures { result ≡ min (total + more) CAP }
{
    (total + more).min(CAP)
}

// What a byte takes in a JSON string.
fn escaped_length(byte: u8) -> u64
    ensures { result ≡ lengths.escaped_length byte }
{
    if byte == b'"' || byte == b'\\' {
        return 2;
    }
    // Backspace, tab, line feed, form feed and carriage return have a letter of their own behind the backslash.
    if byte == 8 || byte == 9 || byte == 10 || byte == 12 || byte == 13 {
        return 2;
    }
    // Any other control character stands as a backslash, `u` and four digits.
    if byte < 32 { 6 } else { 1 }
}

/// The length of a JSON string of the text.
#[tactic(auto, unfolding(crate::specs::Lengths::text_length))]
pub fn text_length(text: &str) -> u64
    ensures { result ≡ min (lengths.text_length text.now) CAP }
{
    let mut length = 2;
    for byte in text.as_bytes() {
        length = add(length, escaped_length(*byte));
    }
    length
}

/// The length of a member of that name, whose value has a length.
pub fn member_length(name: &str, value: u64) -> u64
    requires { value ≤ CAP }
    ensures { result ≡ min (lengths.text_length name.now + 1 + value) CAP }
{
    add(add(text_length(name), 1), value)
}

/// The length of an array or an object, from the sum of its parts, each counted with one byte more.
pub fn enclosed_length(parts: u64) -> u64
    requires { parts ≤ CAP }
    ensures { result ≡ min (2 + (parts - 1)) CAP }
{
    add(2, parts.saturating_sub(1))
}

/// What has a length in a JSON text, whatever the field.
pub trait Measured {
    ghost length_of: { Self → ℕ };

    /// Its length, counted up to the cap.
    fn length(&self) -> u64
        ensures { result ≡ min (length_of self.now) CAP };
}

impl Measured for Text {
    ghost length_of = { lengths.text_length };

    fn length(&self) -> u64 {
        text_length(self.as_str())
    }
}

impl Measured for UserId {
    ghost length_of = { lengths.user_id_length };

    fn length(&self) -> u64 {
        let identifier = member_length("identifier", text_length(self.identifier()));
        let form = member_length("type", text_length(self.form()));
        enclosed_length(add(add(identifier, 1), add(form, 1)))
    }
}

impl Measured for Entry {
    ghost length_of = { lengths.entry_length };

    fn length(&self) -> u64 {
        member_length(self.key.as_str(), text_length(self.text.as_str()))
    }
}

/// The sum of the lengths of items, each with one byte more.
pub fn parts_length<T: Measured>(items: &[T]) -> u64
    ensures { result ≡ min (sum_by (λ x. T.length_of x + 1) items.now) CAP }
{
    let mut length = 0;
    for item in items {
        length = add(length, add(item.length(), 1));
    }
    length
}

fn reference_length(alloc: Global, kind: Kind, id: &Id) -> Result<u64, NoMemory>
    ensures { IfOk result (λ n. n ≡ min (lengths.reference_length kind id.now) CAP) }
{
    let path = href(alloc, kind, id)?;
    let href = member_length("href", text_length(path.as_str()));
    let id = member_length("sourcedId", text_length(id.as_str()));
    let form = member_length("type", text_length(kind.single()));
    Ok(enclosed_length(add(add(add(href, 1), add(id, 1)), add(form, 1))))
}

fn references_length(alloc: Global, kind: Kind, ids: &[Id]) -> Result<u64, NoMemory>
    ensures { IfOk result (λ n. n ≡ min (sum_by (λ t. lengths.reference_length kind t + 1) ids.now) CAP) }
{
    let mut length = 0;
    for id in ids {
        length = add(length, add(reference_length(alloc, kind, id)?, 1));
    }
    Ok(length)
}

/// The length of the value of a field.
#[tactic(auto, unfolding(crate::specs::Lengths::value_length, roster_values::specs::CellText::cell_text))]
pub fn value_length(alloc: Global, form: FieldForm, value: ValueRef<'_>) -> Result<u64, NoMemory>
    requires { fits_form (form_of form) (shown value) ≡ true }
    ensures { IfOk result (λ n. n ≡ min (lengths.value_length (form_of form) (shown value.entry)) CAP) }
{
    match value {
        ValueRef::Text(text) => Ok(text.length()),
        ValueRef::Id(id) => Ok(text_length(id.as_str())),
        ValueRef::Day(day) => Ok(day.text(alloc)?.length()),
        ValueRef::Moment(moment) => Ok(moment.text(alloc)?.length()),
        ValueRef::Number(number) => Ok(CAP.min(number_text(alloc, *number)?.len() as u64)),
        ValueRef::Year(year) => Ok(text_length(year_text(alloc, *year)?.as_str())),
        ValueRef::Flag(flag) => Ok(text_length(flag_text(*flag))),
        ValueRef::Word(word) => Ok(text_length(word)),
        ValueRef::Texts(texts) => Ok(enclosed_length(parts_length(texts.as_slice()))),
        ValueRef::UserIds(ids) => Ok(enclosed_length(parts_length(ids.as_slice()))),
        ValueRef::Ref(id) => match form {
            FieldForm::Ref(kind) => reference_length(alloc, kind, id),
            _ => unreachable!(),
        },
        ValueRef::Refs(ids) => match form {
            FieldForm::Refs(kind) => {
                Ok(enclosed_length(references_length(alloc, kind, ids.as_slice())?))
            }
            _ => unreachable!(),
        },
    }
}
