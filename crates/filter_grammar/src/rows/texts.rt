//! Texts compared without regard to the case of their letters.

ghost use Rattle.std.specs.Prelude.{◌≡◌, IfOk, nat_eq, string_bytes, true};
ghost use Rattle.std.specs.Cmp.Lexicographic.{slice_cmp};
ghost use Rattle.std.specs.List.{starts_with};
ghost use Rattle.std.specs.Ordering.{nat_cmp};
ghost use Rattle.roster_values.specs.CellText.{cell_text, has_short_year};
ghost use Rattle.roster_values.specs.Value.{shown};
ghost use Rattle.filter_grammar.specs.rows.Filters as spec;

use crate::filter::Predicate;
use roster_base::NoMemory;
use roster_types::cell_text::cell_text;
use roster_values::ValueRef;
use std::alloc::Global;
use std::cmp::Ordering;

/// A text with its letters of ASCII in lower case.
pub(crate) fn folded(alloc: Global, text: &str) -> Result<String, NoMemory>
    ensures { IfOk result (λ s. string_bytes s ≡ spec.folded text.now) }
{
    let mut folded = String::from_str(alloc, text)?;
    folded.make_ascii_lowercase();
    Ok(folded)
}

/// The text of a value with its letters of ASCII in lower case.
pub(crate) fn folded_value(alloc: Global, value: ValueRef<'_>) -> Result<String, NoMemory>
    requires { has_short_year (shown value) ≡ true }
    ensures { IfOk result (λ s. string_bytes s ≡ spec.folded (cell_text (shown value.entry))) }
{
    let mut folded = cell_text(alloc, value)?;
    folded.make_ascii_lowercase();
    Ok(folded)
}

/// Whether a predicate holds of two things that stand so to each other in order. `Contains` asks for no order, and
/// never holds.
pub(crate) fn holds(predicate: Predicate, order: Ordering) -> bool
    ensures { result ≡ spec.holds predicate order }
{
    match predicate {
        Predicate::Equal => order.is_eq(),
        Predicate::NotEqual => order.is_ne(),
        Predicate::Greater => order.is_gt(),
        Predicate::GreaterEqual => order.is_ge(),
        Predicate::Less => order.is_lt(),
        Predicate::LessEqual => order.is_le(),
        Predicate::Contains => false,
    }
}

/// Whether a text stands somewhere in another, letter by letter in the same case.
pub(crate) fn occurs_in(part: &str, text: &str) -> bool
    ensures { result ≡ spec.occurs_in part.now text.now }
{
    text.contains(part)
}

// Which of two texts comes first, whatever the case of their letters. They are compared where they stand, with no
// copies.
fn folded_cmp(text: &[u8], other: &[u8]) -> Ordering
    ensures { result ≡ slice_cmp nat_cmp (spec.folded text.now) (spec.folded other.now) }
{
    let mut rest = text;
    let mut others = other;
    while let Some((byte, later)) = rest.split_first() {
        let Some((other_byte, other_later)) = others.split_first() else {
            return Ordering::Greater;
        };
        let order = byte
            .to_ascii_lowercase()
            .cmp(&other_byte.to_ascii_lowercase());
        if order.is_ne() {
            return order;
        }
        rest = later;
        others = other_later;
    }
    if others.is_empty() {
        Ordering::Equal
    } else {
        Ordering::Less
    }
}

// Whether a text begins with another, whatever the case of their letters.
fn begins(part: &[u8], text: &[u8]) -> bool
    ensures { result ≡ starts_with nat_eq (spec.folded text.now) (spec.folded part.now) }
{
    part.len() <= text.len() && text[..part.len()].eq_ignore_ascii_case(part)
}

// Whether a text stands somewhere in another, whatever the case of their letters. They are compared where they stand,
// with no copies.
#[tactic(auto, unfolding(crate::specs::rows::Filters::occurs_in))]
fn occurs_folded_in(part: &[u8], text: &[u8]) -> bool
    ensures { result ≡ spec.occurs_in (spec.folded part.now) (spec.folded text.now) }
{
    let mut rest = text;
    while let Some((_, later)) = rest.split_first() {
        if begins(part, rest) {
            return true;
        }
        rest = later;
    }
    begins(part, rest)
}

/// Whether a predicate holds of a text and the value that a filter gives, whatever the case of their letters.
pub(crate) fn text_passes(predicate: Predicate, text: &str, value: &str) -> bool
    ensures { result ≡ spec.text_passes predicate text.now value.now }
{
    match predicate {
        Predicate::Contains => occurs_folded_in(value.as_bytes(), text.as_bytes()),
        _ => holds(predicate, folded_cmp(text.as_bytes(), value.as_bytes())),
    }
}
