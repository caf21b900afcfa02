//! What the structs lend of their values.

ghost use Rattle.std.specs.Prelude.{◌≡◌, option_map};
ghost use Rattle.roster_values.specs.Value.{shown};
ghost use Rattle.roster_values.specs.declared.value.Value.TheVariants as FieldValue;

use roster_values::{ValueRef, Word};

/// The word that a field may have.
pub fn lent_word(word: &Option<Word>) -> Option<ValueRef<'_>>
    ensures { option_map shown result ≡ option_map (λ w. FieldValue.Word w) word.now }
{
    Some(ValueRef::Word(word.as_ref()?.as_str()))
}
