//! Whether texts are given ones, in any case of their letters.

ghost use Rattle.std.specs.Prelude.{◌≡◌, true, List, ℕ, Option, IfOk, IfSome, option_map};
ghost use Rattle.std.specs.Bool.{OnTrue};
ghost use Rattle.std.specs.Option.{ForSome};
ghost use Rattle.filter_grammar.specs.Manners.{AsText, manner_of};
ghost use Rattle.filter_grammar.specs.rows.Filters.{value_passes};
ghost use Rattle.query_pages.specs.FilterTests as spec;
ghost use Rattle.roster_values.specs.CellText.{has_short_year};
ghost use Rattle.roster_values.specs.Table.{Form, form_of};
ghost use Rattle.roster_values.specs.Value.{shown};
ghost use Rattle.roster_values.specs.declared.value.Value.{Value};

use filter_grammar::Predicate;
use roster_base::NoMemory;
use roster_types::cell_text::cell_text;
use roster_values::{FieldForm, ValueRef};
use std::alloc::Global;

// Whether the text of a value is this one in any case of the letters. Texts are compared where they stand, with no
// copies.
#[tactic(auto, unfolding(roster_values::specs::CellText::cell_text))]
fn is_text(alloc: Global, value: ValueRef<'_>, text: &str) -> Result<bool, NoMemory>
    requires { has_short_year (shown value) ≡ true }
    ensures { IfOk result (λ b. b ≡ spec.is_text (shown value.entry) text.now) }
{
    match value {
        ValueRef::Text(other) => Ok(other.as_str().eq_ignore_ascii_case(text)),
        ValueRef::Id(other) => Ok(other.as_str().eq_ignore_ascii_case(text)),
        ValueRef::Word(other) => Ok(other.eq_ignore_ascii_case(text)),
        ValueRef::Ref(other) => Ok(other.as_str().eq_ignore_ascii_case(text)),
        other => Ok(cell_text(alloc, other)?.as_str().eq_ignore_ascii_case(text)),
    }
}

/// Whether the text of a value is this one, or isn't.
pub fn text_passes(
    alloc: Global,
    value: Option<ValueRef<'_>>,
    wanted: bool,
    text: &str,
) -> Result<bool, NoMemory>
    requires { ForSome value (λ v. has_short_year (shown v) ≡ true) }
    ensures { IfOk result (λ b. b ≡ spec.text_passes wanted text.now (option_map shown value.entry)) }
{
    match value {
        Some(value) => Ok(is_text(alloc, value, text)? == wanted),
        None => Ok(!wanted),
    }
}

/// Whether values of a form are compared as texts.
pub fn is_of_text(form: FieldForm) -> bool
    ensures { OnTrue result (manner_of (form_of form) ≡ AsText) }
{
    matches!(
        form,
        FieldForm::Text
            | FieldForm::Id
            | FieldForm::Year
            | FieldForm::Flag
            | FieldForm::Word(_)
            | FieldForm::Ref(_)
    )
}

/// Whether a predicate wants a text to be the given one, or to be another; nothing where it asks something else.
pub fn wanted_by(predicate: Predicate) -> Option<bool>
    ensures { IfSome result (λ wanted. (form : Form) (text : List ℕ) (v : Option Value) → value_passes AsText form predicate v text ≡ spec.text_passes wanted text v) }
{
    match predicate {
        Predicate::Equal => Some(true),
        Predicate::NotEqual => Some(false),
        _ => None,
    }
}
