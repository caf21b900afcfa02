//! The values of fields.

ghost use Rattle.std.specs.Prelude.{◌≡◌, true, IfOk};
ghost use Rattle.roster_values.specs.Value.{shown};

use crate::lists::{Ids, Texts};
use crate::user_id::UserIds;
use crate::word::Word;
use roster_base::{NoMemory, Text, TryCopy};
use roster_texts::{Day, Id, Moment};
use std::alloc::Global;

/// The value of a field, by its form.
#[derive(Drop)]
pub enum Value {
    Text(Text),
    /// The record's own id.
    Id(Id),
    Day(Day),
    Moment(Moment),
    Number(i64),
    Year(u16),
    Flag(bool),
    /// One of the words that the field allows.
    Word(Word),
    Texts(Texts),
    UserIds(UserIds),
    /// The id of another record.
    Ref(Id),
    /// The ids of other records.
    Refs(Ids),
}

/// A value that is lent, with the variants of `Value`.
#[derive(Clone, Copy)]
pub enum ValueRef<'a> {
    Text(&'a Text),
    Id(&'a Id),
    Day(&'a Day),
    Moment(&'a Moment),
    Number(&'a i64),
    Year(&'a u16),
    Flag(&'a bool),
    Word(&'static str),
    Texts(&'a Texts),
    UserIds(&'a UserIds),
    Ref(&'a Id),
    Refs(&'a Ids),
}

impl Value {
    ghost use Rattle.std.specs.Prelude.{◌≡◌, true};
    ghost use Rattle.roster_values.specs.Shape.{has_shape, AText, AnId, ADay, AMoment, ANumber, AYear, AFlag, AWord};
    ghost use Rattle.roster_values.specs.Shape.{SomeTexts, SomeUserIds, ARef, SomeRefs};

    /// The text of a value that is one.
    pub fn into_text(self) -> Text
        requires { has_shape AText self ≡ true }
        ensures { self ≡ Value.Text result }
    {
        match self {
            Value::Text(value) => value,
            _ => unreachable!(),
        }
    }

    /// The id of a value that is one.
    pub fn into_id(self) -> Id
        requires { has_shape AnId self ≡ true }
        ensures { self ≡ Value.Id result }
    {
        match self {
            Value::Id(value) => value,
            _ => unreachable!(),
        }
    }

    /// The day of a value that is one.
    pub fn into_day(self) -> Day
        requires { has_shape ADay self ≡ true }
        ensures { self ≡ Value.Day result }
    {
        match self {
            Value::Day(value) => value,
            _ => unreachable!(),
        }
    }

    /// The moment of a value that is one.
    pub fn into_moment(self) -> Moment
        requires { has_shape AMoment self ≡ true }
        ensures { self ≡ Value.Moment result }
    {
        match self {
            Value::Moment(value) => value,
            _ => unreachable!(),
        }
    }

    /// The number of a value that is one.
    pub fn into_number(self) -> i64
        requires { has_shape ANumber self ≡ true }
        ensures { self ≡ Value.Number result }
    {
        match self {
            Value::Number(value) => value,
            _ => unreachable!(),
        }
    }

    /// The year of a value that is one.
    pub fn into_year(self) -> u16
        requires { has_shape AYear self ≡ true }
        ensures { self ≡ Value.Year result }
    {
        match self {
            Value::Year(value) => value,
            _ => unreachable!(),
        }
    }

    /// The flag of a value that is one.
    pub fn into_flag(self) -> bool
        requires { has_shape AFlag self ≡ true }
        ensures { self ≡ Value.Flag result }
    {
        match self {
            Value::Flag(value) => value,
            _ => unreachable!(),
        }
    }

    /// The word of a value that is one.
    pub fn into_word(self) -> Word
        requires { has_shape AWord self ≡ true }
        ensures { self ≡ Value.Word result }
    {
        match self {
            Value::Word(value) => value,
            _ => unreachable!(),
        }
    }

    /// The texts of a value that holds some.
    pub fn into_texts(self) -> Texts
        requires { has_shape SomeTexts self ≡ true }
        ensures { self ≡ Value.Texts result }
    {
        match self {
            Value::Texts(value) => value,
            _ => unreachable!(),
        }
    }

    /// The user ids of a value that holds some.
    pub fn into_user_ids(self) -> UserIds
        requires { has_shape SomeUserIds self ≡ true }
        ensures { self ≡ Value.UserIds result }
    {
        match self {
            Value::UserIds(value) => value,
            _ => unreachable!(),
        }
    }

    /// The referenced id of a value that is one.
    pub fn into_reference(self) -> Id
        requires { has_shape ARef self ≡ true }
        ensures { self ≡ Value.Ref result }
    {
        match self {
            Value::Ref(value) => value,
            _ => unreachable!(),
        }
    }

    /// The referenced ids of a value that holds some.
    pub fn into_references(self) -> Ids
        requires { has_shape SomeRefs self ≡ true }
        ensures { self ≡ Value.Refs result }
    {
        match self {
            Value::Refs(value) => value,
            _ => unreachable!(),
        }
    }
}

/// A value equal to one that is lent.
pub fn copy_value(alloc: Global, value: ValueRef<'_>) -> Result<Value, NoMemory>
    ensures { IfOk result (λ v. v ≡ shown value.entry) }
{
    Ok(match value {
        ValueRef::Text(text) => Value::Text(text.copy(alloc)?),
        ValueRef::Id(id) => Value::Id(id.copy(alloc)?),
        ValueRef::Day(day) => Value::Day(*day),
        ValueRef::Moment(moment) => Value::Moment(*moment),
        ValueRef::Number(number) => Value::Number(*number),
        ValueRef::Year(year) => Value::Year(*year),
        ValueRef::Flag(flag) => Value::Flag(*flag),
        ValueRef::Word(word) => Value::Word(Word::new(word)),
        ValueRef::Texts(texts) => Value::Texts(texts.copy(alloc)?),
        ValueRef::UserIds(user_ids) => Value::UserIds(user_ids.copy(alloc)?),
        ValueRef::Ref(id) => Value::Ref(id.copy(alloc)?),
        ValueRef::Refs(ids) => Value::Refs(ids.copy(alloc)?),
    })
}
