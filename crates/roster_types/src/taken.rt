//! The values of a row's fields, each taken out of its place in a list that is filled again for the next row.

ghost use Rattle.std.specs.Prelude.{◌≡◌, ◌∷◌, ◌+◌, ◌<◌, false, true, Some, drop, length, option_map};
ghost use Rattle.roster_types.specs.Shapes.{begins_with};
ghost use Rattle.roster_values.specs.Shape.{AText, ADay, ANumber, AYear, AFlag, AWord, SomeTexts, SomeUserIds, ARef};
ghost use Rattle.roster_values.specs.Shape.{SomeRefs};

use roster_base::Text;
use roster_texts::{Day, Id};
use roster_values::{Ids, Texts, UserIds, Value, Word};

// The value at a place, which is left without one.
fn taken(values: &mut [Option<Value>], place: usize) -> Option<Value>
    requires { place < length values.old }
    ensures { drop place values.old ≡ result ∷ drop (place + 1) values.new }
{
    values[place].take()
}

/// The text that a required field has.
pub fn text(values: &mut [Option<Value>], place: usize) -> Text
    requires { begins_with true AText (drop place values.old) ≡ true }
    ensures { drop place values.old ≡ Some (Value.Text result) ∷ drop (place + 1) values.new }
{
    taken(values, place).unwrap().into_text()
}

/// The text that a field may have.
pub fn optional_text(values: &mut [Option<Value>], place: usize) -> Option<Text>
    requires { begins_with false AText (drop place values.old) ≡ true }
    ensures { drop place values.old ≡ option_map (λ x. Value.Text x) result ∷ drop (place + 1) values.new }
{
    taken(values, place).map(Value::into_text)
}

/// The word that a required field has.
pub fn word(values: &mut [Option<Value>], place: usize) -> Word
    requires { begins_with true AWord (drop place values.old) ≡ true }
    ensures { drop place values.old ≡ Some (Value.Word result) ∷ drop (place + 1) values.new }
{
    taken(values, place).unwrap().into_word()
}

/// The word that a field may have.
pub fn optional_word(values: &mut [Option<Value>], place: usize) -> Option<Word>
    requires { begins_with false AWord (drop place values.old) ≡ true }
    ensures { drop place values.old ≡ option_map (λ x. Value.Word x) result ∷ drop (place + 1) values.new }
{
    taken(values, place).map(Value::into_word)
}

/// The day that a required field has.
pub fn day(values: &mut [Option<Value>], place: usize) -> Day
    requires { begins_with true ADay (drop place values.old) ≡ true }
    ensures { drop place values.old ≡ Some (Value.Day result) ∷ drop (place + 1) values.new }
{
    taken(values, place).unwrap().into_day()
}

/// The day that a field may have.
pub fn optional_day(values: &mut [Option<Value>], place: usize) -> Option<Day>
    requires { begins_with false ADay (drop place values.old) ≡ true }
    ensures { drop place values.old ≡ option_map (λ x. Value.Day x) result ∷ drop (place + 1) values.new }
{
    taken(values, place).map(Value::into_day)
}

/// The year that a required field has.
pub fn year(values: &mut [Option<Value>], place: usize) -> u16
    requires { begins_with true AYear (drop place values.old) ≡ true }
    ensures { drop place values.old ≡ Some (Value.Year result) ∷ drop (place + 1) values.new }
{
    taken(values, place).unwrap().into_year()
}

/// The flag that a required field has.
pub fn flag(values: &mut [Option<Value>], place: usize) -> bool
    requires { begins_with true AFlag (drop place values.old) ≡ true }
    ensures { drop place values.old ≡ Some (Value.Flag result) ∷ drop (place + 1) values.new }
{
    taken(values, place).unwrap().into_flag()
}

/// The flag that a field may have.
pub fn optional_flag(values: &mut [Option<Value>], place: usize) -> Option<bool>
    requires { begins_with false AFlag (drop place values.old) ≡ true }
    ensures { drop place values.old ≡ option_map (λ x. Value.Flag x) result ∷ drop (place + 1) values.new }
{
    taken(values, place).map(Value::into_flag)
}

/// The number that a field may have.
pub fn optional_number(values: &mut [Option<Value>], place: usize) -> Option<i64>
    requires { begins_with false ANumber (drop place values.old) ≡ true }
    ensures { drop place values.old ≡ option_map (λ x. Value.Number x) result ∷ drop (place + 1) values.new }
{
    taken(values, place).map(Value::into_number)
}

/// The texts that a field may have.
pub fn optional_texts(values: &mut [Option<Value>], place: usize) -> Option<Texts>
    requires { begins_with false SomeTexts (drop place values.old) ≡ true }
    ensures { drop place values.old ≡ option_map (λ x. Value.Texts x) result ∷ drop (place + 1) values.new }
{
    taken(values, place).map(Value::into_texts)
}

/// The user ids that a field may have.
pub fn optional_user_ids(values: &mut [Option<Value>], place: usize) -> Option<UserIds>
    requires { begins_with false SomeUserIds (drop place values.old) ≡ true }
    ensures { drop place values.old ≡ option_map (λ x. Value.UserIds x) result ∷ drop (place + 1) values.new }
{
    taken(values, place).map(Value::into_user_ids)
}

/// The referenced id that a required field has.
pub fn reference(values: &mut [Option<Value>], place: usize) -> Id
    requires { begins_with true ARef (drop place values.old) ≡ true }
    ensures { drop place values.old ≡ Some (Value.Ref result) ∷ drop (place + 1) values.new }
{
    taken(values, place).unwrap().into_reference()
}

/// The referenced id that a field may have.
pub fn optional_reference(values: &mut [Option<Value>], place: usize) -> Option<Id>
    requires { begins_with false ARef (drop place values.old) ≡ true }
    ensures { drop place values.old ≡ option_map (λ x. Value.Ref x) result ∷ drop (place + 1) values.new }
{
    taken(values, place).map(Value::into_reference)
}

/// The referenced ids that a required field has.
pub fn references(values: &mut [Option<Value>], place: usize) -> Ids
    requires { begins_with true SomeRefs (drop place values.old) ≡ true }
    ensures { drop place values.old ≡ Some (Value.Refs result) ∷ drop (place + 1) values.new }
{
    taken(values, place).unwrap().into_references()
}

/// The referenced ids that a field may have.
pub fn optional_references(values: &mut [Option<Value>], place: usize) -> Option<Ids>
    requires { begins_with false SomeRefs (drop place values.old) ≡ true }
    ensures { drop place values.old ≡ option_map (λ x. Value.Refs x) result ∷ drop (place + 1) values.new }
{
    taken(values, place).map(Value::into_references)
}
