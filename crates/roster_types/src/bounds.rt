//! A bound on how long a row is, told without a look at the bytes of its texts: nearly every row is so short that it
//! shows.

ghost use Rattle.std.specs.Prelude.{◌≡◌, ◌+◌, ◌-◌, ℕ, true, sum_by};
ghost use Rattle.roster_types.specs.Bounds.{IsBound};
ghost use Rattle.roster_types.specs.Lengths as lengths;
ghost use Rattle.roster_values.specs.Fit.{fits_form};
ghost use Rattle.roster_values.specs.Table.{form_of};
ghost use Rattle.roster_values.specs.Value.{shown};

use crate::lengths::{CAP, add, enclosed_length};
use crate::metadata::Entry;
use roster_base::Text;
use roster_texts::Id;
use roster_values::{FieldForm, Kind, UserId, ValueRef};

// A bound for a moment, a day, a number, a year and a flag: the longest is a moment, of 24 bytes, each of which counts
// as six.
const PRINTED: u64 = 146;

/// The bound of a JSON string of the text: each of its bytes takes six at most.
#[tactic(auto, using(crate::proofs::BoundLaws::text_most))]
pub fn text_bound(text: &str) -> u64
    ensures { IsBound result (lengths.text_length text.now) }
{
    let bytes = text.len();
    // Of up to so many bytes the product stays below the cap.
    if bytes > 16_000 {
        return CAP;
    }
    2 + 6 * bytes as u64
}

/// What has a bound on its length in a JSON text, whatever the field.
pub trait Bounded {
    ghost length_of: { Self → ℕ };

    /// The bound of its length.
    fn bound(&self) -> u64
        ensures { IsBound result (length_of self.now) };
}

impl Bounded for Text {
    ghost length_of = { lengths.text_length };

    fn bound(&self) -> u64 {
        text_bound(self.as_str())
    }
}

impl Bounded for UserId {
    ghost length_of = { lengths.user_id_length };

    #[tactic(auto, unfolding(crate::specs::Lengths::text_length))]
    fn bound(&self) -> u64 {
        // The two names with their quotes and colons, the comma and the braces take 23 bytes.
        add(
            add(text_bound(self.identifier()), text_bound(self.form())),
            23,
        )
    }
}

impl Bounded for Entry {
    ghost length_of = { lengths.entry_length };

    fn bound(&self) -> u64 {
        add(
            add(text_bound(self.key.as_str()), 1),
            text_bound(self.text.as_str()),
        )
    }
}

/// The bound of an array or an object of the items.
pub fn list_bound<T: Bounded>(items: &[T]) -> u64
    ensures { IsBound result (2 + (sum_by (λ x. T.length_of x + 1) items.now - 1)) }
{
    enclosed_length(parts_bound(items))
}

// The bound of the sum of the items' lengths, each with one byte more.
fn parts_bound<T: Bounded>(items: &[T]) -> u64
    ensures { IsBound result (sum_by (λ x. T.length_of x + 1) items.now) }
{
    let mut bound = 0;
    for item in items {
        bound = add(bound, add(item.bound(), 1));
    }
    bound
}

// The bound of a reference. All but the id, the kind's two words and the path's copy of the id takes 57 bytes; of each
// byte of the id the path has three at most, and the id's own string six.
fn reference_bound(kind: Kind, id: &Id) -> u64
    ensures { IsBound result (lengths.reference_length kind id.now) }
{
    let words = kind.plural().len() + kind.single().len();
    let bytes = id.as_str().len();
    if bytes > 1000 || words > 1000 {
        return CAP;
    }
    57 + words as u64 + 9 * bytes as u64
}

// The bound of the sum of the references' lengths, each with one byte more.
fn references_bound(kind: Kind, ids: &[Id]) -> u64
    ensures { IsBound result (sum_by (λ t. lengths.reference_length kind t + 1) ids.now) }
{
    let mut bound = 0;
    for id in ids {
        bound = add(bound, add(reference_bound(kind, id), 1));
    }
    bound
}

/// The bound of the value of a field.
#[tactic(auto, unfolding(crate::specs::Lengths::value_length, roster_values::specs::CellText::cell_text))]
pub fn value_bound(form: FieldForm, value: ValueRef<'_>) -> u64
    requires { fits_form (form_of form) (shown value) ≡ true }
    ensures { IsBound result (lengths.value_length (form_of form) (shown value.entry)) }
{
    match value {
        ValueRef::Text(text) => text_bound(text.as_str()),
        ValueRef::Id(id) => text_bound(id.as_str()),
        ValueRef::Day(_) => PRINTED,
        ValueRef::Moment(_) => PRINTED,
        ValueRef::Number(_) => PRINTED,
        ValueRef::Year(_) => PRINTED,
        ValueRef::Flag(_) => PRINTED,
        ValueRef::Word(word) => text_bound(word),
        ValueRef::Texts(texts) => list_bound(texts.as_slice()),
        ValueRef::UserIds(ids) => list_bound(ids.as_slice()),
        ValueRef::Ref(id) => match form {
            FieldForm::Ref(kind) => reference_bound(kind, id),
            _ => unreachable!(),
        },
        ValueRef::Refs(ids) => match form {
            FieldForm::Refs(kind) => enclosed_length(references_bound(kind, ids.as_slice())),
            _ => unreachable!(),
        },
    }
}
