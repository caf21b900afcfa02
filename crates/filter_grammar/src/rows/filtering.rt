//! Whether a filter lets a row through.

ghost use Rattle.std.specs.Prelude.{◌≡◌, IfOk, Some, option_map, true};
ghost use Rattle.std.specs.Option.{ForSome};
ghost use Rattle.filter_grammar.specs.Manners.{manner_of, number_in};
ghost use Rattle.filter_grammar.specs.Subjects.{subject_shown};
ghost use Rattle.roster_values.specs.CellText.{cell_text, has_short_year};
ghost use Rattle.roster_values.specs.Table.{form_of};
ghost use Rattle.roster_values.specs.Value.{shown};
ghost use Rattle.filter_grammar.specs.rows.Filters as spec;

use crate::filter::{Comparison, Filter, Joint, Predicate};
use crate::numbers::number_of_text;
use crate::rows::sets::set_passes;
use crate::rows::subject_value::subject_value;
use crate::rows::texts::{holds, occurs_in, text_passes};
use crate::subject::{Subject, subject_of};
use roster_base::NoMemory;
use roster_types::cell_text::cell_text;
use roster_types::row::Row;
use roster_values::{FieldForm, ValueRef};
use std::alloc::Global;

/// Whether a row passes a filter, where there is one.
pub fn passes(alloc: Global, row: &Row, test: &Option<Filter>) -> Result<bool, NoMemory>
    ensures { IfOk result (λ b. b ≡ spec.passes test.now row.now) }
{
    let Some(filter) = test else {
        return Ok(true);
    };
    let first = comparison_passes(alloc, row, &filter.first)?;
    match &filter.second {
        None => Ok(first),
        Some((joint, second)) => {
            let second = comparison_passes(alloc, row, second)?;
            Ok(joined(*joint, first, second))
        }
    }
}

/// Whether a filter of two comparisons passes, by whether each of them does.
pub fn joined(joint: Joint, first: bool, second: bool) -> bool
    ensures { result ≡ spec.joined joint first second }
{
    match joint {
        Joint::And => first && second,
        Joint::Or => first || second,
    }
}

// Whether a row passes a comparison.
#[tactic(auto, unfolding(crate::specs::rows::Filters::comparison_passes))]
fn comparison_passes(alloc: Global, row: &Row, comparison: &Comparison) -> Result<bool, NoMemory>
    ensures { IfOk result (λ b. b ≡ spec.comparison_passes comparison.now row.now) }
{
    match subject_of(row.kind(), comparison.field.as_str()) {
        Some(subject) => subject_passes(alloc, row, comparison, subject),
        None => Ok(false),
    }
}

// Whether a row passes a comparison of what the field's name means.
fn subject_passes(
    alloc: Global,
    row: &Row,
    comparison: &Comparison,
    subject: Subject<'_>,
) -> Result<bool, NoMemory>
    ensures { IfOk result (λ b. b ≡ spec.subject_passes comparison.now row.now (subject_shown subject.entry)) }
{
    let value = subject_value(row, subject);
    let given = comparison.value.as_str();
    value_passes(alloc, subject.form(), comparison.predicate, value, given)
}

/// Whether a value of a form passes a comparison with a text.
pub fn value_passes(
    alloc: Global,
    form: FieldForm,
    predicate: Predicate,
    value: Option<ValueRef<'_>>,
    given: &str,
) -> Result<bool, NoMemory>
    requires { ForSome value (λ v. has_short_year (shown v) ≡ true) }
    ensures { IfOk result (λ b. b ≡ spec.value_passes (manner_of (form_of form)) (form_of form) predicate (option_map shown value.entry) given.now) }
{
    match form {
        FieldForm::Texts | FieldForm::UserIds | FieldForm::Refs(_) => {
            set_passes(alloc, predicate, value, given)
        }
        FieldForm::Day | FieldForm::Moment | FieldForm::Number => match value {
            Some(value) => number_passes(alloc, form, predicate, value, given),
            None => Ok(is_not_equal(predicate)),
        },
        _ => match value {
            Some(value) => cell_passes(alloc, predicate, value, given),
            None => Ok(is_not_equal(predicate)),
        },
    }
}

// Whether the text of a value passes. Where the value is a text, it is compared where it stands.
#[tactic(auto, unfolding(roster_values::specs::CellText::cell_text))]
fn cell_passes(
    alloc: Global,
    predicate: Predicate,
    value: ValueRef<'_>,
    given: &str,
) -> Result<bool, NoMemory>
    requires { has_short_year (shown value) ≡ true }
    ensures { IfOk result (λ b. b ≡ spec.text_passes predicate (cell_text (shown value.entry)) given.now) }
{
    match value {
        ValueRef::Text(text) => Ok(text_passes(predicate, text.as_str(), given)),
        ValueRef::Id(id) => Ok(text_passes(predicate, id.as_str(), given)),
        ValueRef::Word(word) => Ok(text_passes(predicate, word, given)),
        ValueRef::Ref(id) => Ok(text_passes(predicate, id.as_str(), given)),
        other => Ok(text_passes(predicate, cell_text(alloc, other)?.as_str(), given)),
    }
}

/// Whether a predicate lets through what isn't there.
pub fn is_not_equal(predicate: Predicate) -> bool
    ensures { result ≡ spec.is_not_equal predicate }
{
    matches!(predicate, Predicate::NotEqual)
}

// Whether a day, a moment or a number passes. A part is looked for in its text, as it is given.
fn number_passes(
    alloc: Global,
    form: FieldForm,
    predicate: Predicate,
    value: ValueRef<'_>,
    given: &str,
) -> Result<bool, NoMemory>
    requires { has_short_year (shown value) ≡ true }
    ensures { IfOk result (λ b. b ≡ spec.number_passes (form_of form) predicate (shown value.entry) given.now) }
{
    match predicate {
        Predicate::Contains => {
            let text = cell_text(alloc, value)?;
            Ok(occurs_in(given, text.as_str()))
        }
        _ => {
            let given = number_of_text(alloc, form, given)?;
            Ok(numbers_pass(predicate, number_in(value), given))
        }
    }
}

/// Whether a predicate holds of two numbers. Where one isn't there, none does.
pub fn numbers_pass(predicate: Predicate, number: Option<i64>, given: Option<i64>) -> bool
    ensures { result ≡ spec.numbers_pass predicate number given }
{
    match (number, given) {
        (Some(number), Some(given)) => holds(predicate, number.cmp(&given)),
        _ => false,
    }
}

/// The number that a value is compared by: of a day, of a moment's milliseconds, or the number itself.
pub fn number_in(value: ValueRef<'_>) -> Option<i64>
    ensures { result ≡ number_in (Some (shown value.entry)) }
{
    match value {
        ValueRef::Day(day) => Some(day.number() as i64),
        ValueRef::Moment(moment) => Some(moment.milliseconds()),
        ValueRef::Number(number) => Some(*number),
        _ => None,
    }
}
