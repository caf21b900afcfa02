//! Moments: instants to the millisecond.

ghost use Rattle.std.specs.Prelude.{◌≡◌, ◌+◌, ◌*◌, ◌<◌, ◌≤◌, ◌*ℤ◌, ℤ, pos, negsuc, ◌≤ℤ◌, IfOk, IfSome, OnOk, length};
ghost use Rattle.std.specs.Prelude.{string_bytes, ◌++◌};
ghost use Rattle.roster_base.specs.Moments.{IsMoment};
ghost use Rattle.roster_texts.specs.Moments.{day_part, instant_of, midnight, milliseconds_at, moment_at, moment_of};
ghost use Rattle.roster_texts.specs.Moments.{day_milliseconds, day_seconds, moment_text, time_part, written_day_of};

use crate::clock::{push_time, read_milliseconds, read_seconds};
use crate::day::Day;
use crate::zone::{read_offset, zone_length};
use roster_base::{NoMemory, Text};
use std::alloc::Global;
use std::marker::Model;

/// The length of a day.
const DAY_MILLISECONDS: i64 = 86_400_000;

/// A moment from 0001-01-01T00:00:00.000Z to 9999-12-31T23:59:59.999Z. A clause sees the number of milliseconds since
/// 1970-01-01T00:00:00.000Z, leap seconds not counted.
#[derive(Clone, Copy, Debug, PartialEq, Eq, PartialOrd, Ord)]
pub struct Moment {
    milliseconds: i64,
}

impl Model for Moment {
    ghost Value = { ℤ };

    ghost view = { λ m. m.milliseconds };

    ghost invariant = { λ m. IsMoment m.milliseconds };

    ghost inverse = { λ z. record { milliseconds = z } };
}

impl Moment {
    /// The moment so many milliseconds after 1970-01-01T00:00:00.000Z, if it lies in the range.
    #[tactic(auto, unfolding(crate::specs::Moments::moment_at))]
    pub fn at(milliseconds: i64) -> Option<Moment>
        ensures { result ≡ moment_at milliseconds }
    {
        if milliseconds >= -62_135_596_800_000 && milliseconds <= 253_402_300_799_999 {
            Some(Moment { milliseconds })
        } else {
            None
        }
    }

    /// 1970-01-01T00:00:00.000Z.
    pub fn epoch() -> Moment
        ensures { result ≡ pos 0 }
    {
        Moment { milliseconds: 0 }
    }

    /// The milliseconds since 1970-01-01T00:00:00.000Z, below 0 before it.
    pub fn milliseconds(self) -> i64
        ensures value { result ≡ self }
        ensures range { IsMoment self }
    {
        self.milliseconds
    }

    /// The moment that a text writes, if it writes one: a day, which means its midnight in UTC, or a day, `T`, a time
    /// of day and a zone, as ISO 8601 has them. Digits past the milliseconds are dropped.
    #[tactic(auto, unfolding(crate::specs::Moments::moment_of))]
    pub fn read(text: &[u8]) -> Option<Moment>
        ensures { result ≡ moment_of text.now }
    {
        if text.len() == 10 {
            return Day::read(text).map(Moment::midnight);
        }
        read_instant(text)
    }

    /// The first moment of a day, in UTC.
    pub fn midnight(day: Day) -> Moment
        ensures { result ≡ midnight day }
    {
        Moment {
            milliseconds: day_milliseconds(day),
        }
    }

    /// The day on which the moment lies, in UTC.
    pub fn day(self) -> Day
        ensures { result ≡ day_part self }
    {
        Day::from_number(self.milliseconds().div_euclid(DAY_MILLISECONDS) as i32)
    }

    // The milliseconds from the midnight of its day, in UTC.
    fn time(self) -> u32
        ensures value { result ≡ time_part self }
        ensures bound { result < day_milliseconds }
    {
        self.milliseconds().rem_euclid(DAY_MILLISECONDS) as u32
    }

    /// The moment in UTC as YYYY-MM-DDThh:mm:ss.mmmZ.
    pub fn text(self, alloc: Global) -> Result<Text, NoMemory>
        ensures { IfOk result (λ t. t ≡ moment_text self) }
    {
        let mut text = String::new(alloc);
        self.push_to(&mut text)?;
        Ok(Text::from_string(text))
    }

    /// Writes the moment in UTC as YYYY-MM-DDThh:mm:ss.mmmZ at the end of a text. Where memory runs out, a part of it
    /// may stand there.
    #[tactic(auto, unfolding(crate::specs::Moments::moment_text))]
    pub fn push_to(self, text: &mut String) -> Result<(), NoMemory>
        ensures { OnOk result (string_bytes text.new ≡ string_bytes text.old ++ moment_text self) }
    {
        self.day().push_to(text)?;
        push_time(text, self.time())
    }
}

/// The day that a text writes, if it writes one: a day, or a moment, of which the written day counts and not the day in
/// UTC.
#[tactic(auto, unfolding(crate::specs::Moments::written_day_of))]
pub fn read_day(text: &[u8]) -> Option<Day>
    ensures { result ≡ written_day_of text.now }
{
    if text.len() == 10 {
        return Day::read(text);
    }
    // The whole text must write a moment, though its day alone is returned.
    let _moment = read_instant(text)?;
    Day::read(&text[..10])
}

// The moment that a day, a time of day, perhaps a fraction, and a zone write.
#[tactic(auto, unfolding(crate::specs::Moments::instant_of))]
fn read_instant(text: &[u8]) -> Option<Moment>
    ensures value { result ≡ instant_of text.now }
    ensures long { IfSome result (λ _. 10 ≤ length text.now) }
{
    let zone = zone_length(text);
    if text.len() < 19 + zone {
        return None;
    }
    let zone_start = text.len() - zone;
    let day = Day::read(&text[..10])?;
    let seconds = read_seconds(&text[10..19])?;
    let milliseconds = read_milliseconds(&text[19..zone_start])?;
    let offset = read_offset(&text[zone_start..])?;
    Moment::at(instant(day, seconds, milliseconds, offset))
}

// The milliseconds from 1970-01-01 to a day's midnight.
fn day_milliseconds(day: Day) -> i64
    ensures value { result ≡ day *ℤ pos day_milliseconds }
    ensures low { negsuc 62135596799999 ≤ℤ result }
    ensures high { result ≤ℤ pos 253402214400000 }
{
    day.number() as i64 * DAY_MILLISECONDS
}

fn time_milliseconds(seconds: u32, milliseconds: u16) -> i64
    requires { seconds < day_seconds }
    ensures value { result ≡ pos (seconds * 1000 + milliseconds) }
    ensures bound { result ≤ℤ pos 100000000 }
{
    seconds as i64 * 1000 + milliseconds as i64
}

// The milliseconds of an offset in minutes.
fn offset_milliseconds(offset: i16) -> i64
    ensures value { result ≡ offset *ℤ pos 60000 }
    ensures low { negsuc 2000000000 ≤ℤ result }
    ensures high { result ≤ℤ pos 2000000000 }
{
    offset as i64 * 60_000
}

// The milliseconds from 1970-01-01T00:00:00.000Z to a written time whose zone is so many minutes ahead of UTC.
fn instant(day: Day, seconds: u32, milliseconds: u16, offset: i16) -> i64
    requires { seconds < day_seconds }
    ensures value { result ≡ milliseconds_at day seconds milliseconds offset }
    ensures low { negsuc 70000000000000 ≤ℤ result }
    ensures high { result ≤ℤ pos 260000000000000 }
{
    let midnight = day_milliseconds(day);
    let time = time_milliseconds(seconds, milliseconds);
    let ahead = offset_milliseconds(offset);
    midnight + time - ahead
}

/// A law: a moment that is printed reads as itself.
pub fn moments_read_back()
    ensures { (ms : ℤ) → IsMoment ms → moment_of (moment_text ms) ≡ Some ms }
{}
