//! Days of the calendar.

ghost use Rattle.std.specs.Prelude.{◌≡◌, ◌↔◌, ◌<◌, ◌≤◌, ℤ, pos, IsSome, IfOk, IfSome, OnOk, string_bytes, ◌++◌};
ghost use Rattle.jiff_core.specs.Calendar.{IsDate};
ghost use Rattle.jiff_core.specs.Date.{IsYmd, epoch_day};
ghost use Rattle.roster_texts.specs.Days.{day_at, day_of, day_of_month, day_text, has_day_form, month_of_day};
ghost use Rattle.roster_texts.specs.Days.{year_of_day, IsDay};

use crate::digits::{four_digits, push_four, push_two, two_digits};
use jiff_core::civil::Date;
use roster_base::{NoMemory, Text};
use std::alloc::Global;
use std::marker::Model;

/// A day's year, from 1 to 9999, its month, from 1, and its day of the month, from 1.
#[derive(Clone, Copy, Debug, PartialEq, Eq)]
pub struct DayParts {
    pub year: u16,
    pub month: u8,
    pub day: u8,
}

/// A day of the Gregorian calendar from 0001-01-01 to 9999-12-31. A clause sees the number of days since 1970-01-01.
#[derive(Clone, Copy, Debug, PartialEq, Eq, PartialOrd, Ord)]
pub struct Day {
    number: i32,
}

impl Model for Day {
    ghost Value = { ℤ };

    ghost view = { λ d. d.number };

    ghost invariant = { λ d. IsDay d.number };

    ghost inverse = { λ z. record { number = z } };
}

impl Day {
    /// The day of that year, month and day of the month, if the calendar has it and the year is one of 1 to 9999.
    #[tactic(auto, unfolding(crate::specs::Days::day_at))]
    pub fn at(year: u16, month: u8, day: u8) -> Option<Day>
        ensures { result ≡ day_at year month day }
    {
        if year == 0 || year > 9999 || month > 12 || day > 31 {
            return None;
        }
        let date = date_at(year, month, day)?;
        Some(Day {
            number: date.to_unix_epoch_day(),
        })
    }

    /// The day so many days after 1970-01-01.
    pub fn from_number(number: i32) -> Day
        requires { IsDay number }
        ensures { result ≡ number }
    {
        Day { number }
    }

    /// The days since 1970-01-01, below 0 before it.
    pub fn number(self) -> i32
        ensures value { result ≡ self }
        ensures range { IsDay self }
    {
        self.number
    }

    /// The day that a text writes as YYYY-MM-DD, if it writes one.
    #[tactic(auto, unfolding(crate::specs::Days::day_of))]
    pub fn read(text: &[u8]) -> Option<Day>
        ensures { result ≡ day_of text.now }
    {
        if !Day::has_form(text) {
            return None;
        }
        let year = four_digits(&text[0..4])?;
        let month = two_digits(&text[5..7])?;
        let day = two_digits(&text[8..10])?;
        Day::at(year, month, day)
    }

    fn has_form(text: &[u8]) -> bool
        ensures { result ≡ has_day_form text.now }
    {
        text.len() == 10 && text[4] == b'-' && text[7] == b'-'
    }

    fn date(self) -> Date
        ensures same { epoch_day result ≡ self }
        ensures range { IsDay self }
    {
        match Date::from_unix_epoch_day(self.number() as i64) {
            Ok(date) => date,
            Err(_) => unreachable!(),
        }
    }

    /// The day's year, month and day of the month.
    pub fn parts(self) -> DayParts
        ensures year { result.year ≡ year_of_day self }
        ensures month { result.month ≡ month_of_day self }
        ensures day { result.day ≡ day_of_month self }
        ensures bounds { (result.year ≤ 9999) × (result.month ≤ 12) × (result.day ≤ 31) }
    {
        let date = self.date();
        DayParts {
            year: date.year.unsigned_abs(),
            month: date.month,
            day: date.day,
        }
    }

    /// The day as YYYY-MM-DD.
    pub fn text(self, alloc: Global) -> Result<Text, NoMemory>
        ensures { IfOk result (λ t. t ≡ day_text self) }
    {
        let mut text = String::new(alloc);
        self.push_to(&mut text)?;
        Ok(Text::from_string(text))
    }

    /// Writes the day as YYYY-MM-DD at the end of a text. Where memory runs out, a part of it may stand there.
    #[tactic(auto, unfolding(crate::specs::Days::day_text))]
    pub fn push_to(self, text: &mut String) -> Result<(), NoMemory>
        ensures { OnOk result (string_bytes text.new ≡ string_bytes text.old ++ day_text self) }
    {
        let parts = self.parts();
        push_four(text, parts.year)?;
        text.push('-')?;
        push_two(text, parts.month)?;
        text.push('-')?;
        push_two(text, parts.day)
    }
}

// The date of that year, month and day of the month, if the calendar has it.
fn date_at(year: u16, month: u8, day: u8) -> Option<Date>
    requires year { year < 10000 }
    requires month { month < 100 }
    requires day { day < 100 }
    ensures valid { IsSome result ↔ IsDate (pos year) (pos month) (pos day) }
    ensures value { IfSome result (IsYmd (pos year) (pos month) (pos day)) }
{
    Date::new(year as i16, month as i8, day as i8).ok()
}

/// A law: each day is the one of its year, its month and its day of the month.
pub fn days_are_on_the_calendar()
    ensures { (day : ℤ) → IsDay day
        → day_at (year_of_day day) (month_of_day day) (day_of_month day) ≡ Some day }
{}

/// A law: a day that is printed reads as itself.
pub fn days_read_back()
    ensures { (day : ℤ) → IsDay day → day_of (day_text day) ≡ Some day }
{}
