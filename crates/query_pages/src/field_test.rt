//! Comparisons of fields, made ready once for all rows of a kind.

ghost use Rattle.std.specs.Prelude.{◌≡◌, true, None, IfOk, IfSome, option_map, slice_index_or};
ghost use Rattle.std.specs.Bool.{OnTrue};
ghost use Rattle.std.specs.Option.{ForSome};
ghost use Rattle.filter_grammar.specs.Manners.{AsNumber, manner_of};
ghost use Rattle.filter_grammar.specs.rows.Filters.{comparison_passes};
ghost use Rattle.query_pages.specs.FilterTests as spec;
ghost use Rattle.roster_types.specs.Records.{Record, all_values};
ghost use Rattle.roster_values.specs.CellText.{has_short_year};
ghost use Rattle.roster_values.specs.Table.{form_of};
ghost use Rattle.roster_values.specs.Value.{shown};

use crate::text_test::{is_of_text, text_passes, wanted_by};
use filter_grammar::rows::filtering::{is_not_equal, number_in, numbers_pass, value_passes};
use filter_grammar::subject::{Subject, subject_of};
use filter_grammar::{Comparison, Predicate, number_of_text};
use roster_base::NoMemory;
use roster_types::row::{Row, place_of};
use roster_values::fields::fields;
use roster_values::{FieldForm, Kind, ValueRef};
use std::alloc::Global;

/// What a comparison asks of a value.
#[derive(Clone, Copy)]
pub enum ValueTest<'q> {
    /// Whether its text is this one in any case of the letters, or isn't.
    IsText(bool, &'q str),
    /// How its number stands to this one; nothing where the filter gives none.
    ByNumber(Predicate, Option<i64>),
    /// What the filter asks, with its text read for each row.
    AsGiven(FieldForm, Predicate, &'q str),
}

/// What a comparison asks of the value at a place of the field table.
#[derive(Clone, Copy)]
pub struct FieldTest<'q> {
    place: usize,
    asked: ValueTest<'q>,
}

// Whether the number of a value stands so to the wanted one.
fn number_passes(value: Option<ValueRef<'_>>, predicate: Predicate, wanted: Option<i64>) -> bool
    ensures { result ≡ spec.number_passes predicate wanted (option_map shown value.entry) }
{
    match value {
        Some(value) => numbers_pass(predicate, number_in(value), wanted),
        None => is_not_equal(predicate),
    }
}

impl ValueTest<'_> {
    // Whether a value passes.
    fn passes(self, alloc: Global, value: Option<ValueRef<'_>>) -> Result<bool, NoMemory>
        requires { ForSome value (λ v. has_short_year (shown v) ≡ true) }
        ensures { IfOk result (λ b. b ≡ spec.value_test_passes self.entry (option_map shown value.entry)) }
    {
        match self {
            ValueTest::IsText(wanted, text) => text_passes(alloc, value, wanted, text),
            ValueTest::ByNumber(predicate, wanted) => Ok(number_passes(value, predicate, wanted)),
            ValueTest::AsGiven(form, predicate, text) => {
                value_passes(alloc, form, predicate, value, text)
            }
        }
    }
}

// The value at a place of the field table, where the row's kind has so many fields.
fn value_at(row: &Row, place: usize) -> Option<ValueRef<'_>>
    ensures value { option_map shown result ≡ slice_index_or (all_values row.now) place None }
    ensures year { IfSome result (λ v. has_short_year (shown v) ≡ true) }
{
    if place >= fields(row.kind()).len() {
        return None;
    }
    row.value(place)
}

impl FieldTest<'_> {
    /// Whether a row passes.
    pub fn passes(self, alloc: Global, row: &Row) -> Result<bool, NoMemory>
        ensures { IfOk result (λ b. b ≡ spec.field_test_passes self.entry row.now) }
    {
        self.asked.passes(alloc, value_at(row, self.place))
    }
}

// Whether values of a form are compared as numbers: days, moments and numbers are.
fn is_of_number(form: FieldForm) -> bool
    ensures { OnTrue result (manner_of (form_of form) ≡ AsNumber) }
{
    matches!(form, FieldForm::Day | FieldForm::Moment | FieldForm::Number)
}

// Whether a predicate asks how one thing stands to another in order.
fn is_of_order(predicate: Predicate) -> bool
    ensures { result ≡ spec.is_of_order predicate }
{
    match predicate {
        Predicate::Contains => false,
        _ => true,
    }
}

// What is asked where a text is to be the given one, or another.
fn text_test<'q>(form: FieldForm, predicate: Predicate, text: &'q str) -> Option<ValueTest<'q>>
    ensures { IfSome result (λ test. spec.Asks (form_of form) predicate text.now test) }
{
    if !is_of_text(form) {
        return None;
    }
    let wanted = wanted_by(predicate)?;
    Some(ValueTest::IsText(wanted, text))
}

// What is asked where a number is to stand so to the given one; nothing where there is no memory to read that.
fn number_test<'q>(
    alloc: Global,
    form: FieldForm,
    predicate: Predicate,
    text: &'q str,
) -> Option<ValueTest<'q>>
    ensures { IfSome result (λ test. spec.Asks (form_of form) predicate text.now test) }
{
    if !is_of_number(form) {
        return None;
    }
    if !is_of_order(predicate) {
        return None;
    }
    match number_of_text(alloc, form, text) {
        Ok(wanted) => Some(ValueTest::ByNumber(predicate, wanted)),
        Err(NoMemory) => None,
    }
}

// What a comparison with a text asks of values of a form.
fn value_test<'q>(
    alloc: Global,
    form: FieldForm,
    predicate: Predicate,
    text: &'q str,
) -> ValueTest<'q>
    ensures { spec.Asks (form_of form) predicate text.now result }
{
    if let Some(test) = text_test(form, predicate, text) {
        return test;
    }
    if let Some(test) = number_test(alloc, form, predicate, text) {
        return test;
    }
    ValueTest::AsGiven(form, predicate, text)
}

/// A comparison as rows of a kind are asked for it, where it asks for a field of the field table.
pub fn field_test<'q>(
    alloc: Global,
    kind: Kind,
    comparison: &'q Comparison,
) -> Option<FieldTest<'q>>
    ensures { IfSome result (λ test. (row : Record) → row.kind ≡ kind → comparison_passes comparison.now row ≡ spec.field_test_passes test row) }
{
    let Some(Subject::OfTable(info)) = subject_of(kind, comparison.field.as_str()) else {
        return None;
    };
    let place = place_of(kind, info.name)?;
    let text = comparison.value.as_str();
    let asked = value_test(alloc, info.form, comparison.predicate, text);
    Some(FieldTest { place, asked })
}
