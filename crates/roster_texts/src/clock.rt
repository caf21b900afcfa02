//! Times of day.

ghost use Rattle.std.specs.Prelude.{◌≡◌, ◌<◌, IfSome, OnOk, string_bytes, ◌++◌};
ghost use Rattle.roster_texts.specs.Moments.{clock_text, clock_time, digit_at, fraction_text, has_fraction_form};
ghost use Rattle.roster_texts.specs.Moments.{day_seconds, has_time_form, milliseconds_of, seconds_of, time_text};
ghost use Rattle.roster_texts.specs.Moments.{day_milliseconds};

use crate::digits::{all_digits, push_three, push_two, two_digits};
use roster_base::NoMemory;

/// The seconds from midnight that `T` and hh:mm:ss write.
#[tactic(auto, unfolding(crate::specs::Moments::seconds_of))]
pub fn read_seconds(text: &[u8]) -> Option<u32>
    ensures value { result ≡ seconds_of text.now }
    ensures bound { IfSome result (λ s. s < day_seconds) }
{
    if !is_time(text) {
        return None;
    }
    let hour = two_digits(&text[1..3])?;
    let minute = two_digits(&text[4..6])?;
    let second = two_digits(&text[7..9])?;
    time_at(hour, minute, second)
}

fn is_time(text: &[u8]) -> bool
    ensures { result ≡ has_time_form text.now }
{
    text.len() == 9 && text[0] == b'T' && text[3] == b':' && text[6] == b':'
}

// The seconds from midnight to a time of day. A leap second is no time here.
#[tactic(auto, unfolding(crate::specs::Moments::clock_time))]
fn time_at(hour: u8, minute: u8, second: u8) -> Option<u32>
    ensures value { result ≡ clock_time hour minute second }
    ensures bound { IfSome result (λ s. s < day_seconds) }
{
    if hour <= 23 && minute <= 59 && second <= 59 {
        Some((hour as u32 * 60 + minute as u32) * 60 + second as u32)
    } else {
        None
    }
}

/// The milliseconds that `.` and 1 to 9 digits write, 0 where the text is empty. Digits past the third are dropped.
#[tactic(auto, unfolding(crate::specs::Moments::milliseconds_of))]
pub fn read_milliseconds(text: &[u8]) -> Option<u16>
    ensures { result ≡ milliseconds_of text.now }
{
    if text.is_empty() {
        return Some(0);
    }
    if !is_fraction(text) {
        return None;
    }
    Some(100 * digit(text, 1) + 10 * digit(text, 2) + digit(text, 3))
}

fn is_fraction(text: &[u8]) -> bool
    ensures { result ≡ has_fraction_form text.now }
{
    if text.len() < 2 || text.len() > 10 {
        return false;
    }
    text[0] == b'.' && all_digits(&text[1..])
}

// The digit at a place, and 0 past the end.
fn digit(text: &[u8], place: usize) -> u16
    ensures value { result ≡ digit_at text.now place }
    ensures bound { result < 256 }
{
    match text.get(place) {
        Some(b) => b.saturating_sub(b'0') as u16,
        None => 0,
    }
}

/// Writes the milliseconds from midnight as Thh:mm:ss.mmmZ. Where memory runs out, a part of it may stand there.
pub fn push_time(text: &mut String, milliseconds: u32) -> Result<(), NoMemory>
    requires { milliseconds < day_milliseconds }
    ensures { OnOk result (string_bytes text.new ≡ string_bytes text.old ++ time_text milliseconds) }
{
    push_clock(text, milliseconds / 1000)?;
    push_fraction(text, (milliseconds % 1000) as u16)
}

// Writes the seconds from midnight, as T09:30:00.
#[tactic(auto, unfolding(crate::specs::Moments::clock_text))]
fn push_clock(text: &mut String, seconds: u32) -> Result<(), NoMemory>
    requires { seconds < day_seconds }
    ensures { OnOk result (string_bytes text.new ≡ string_bytes text.old ++ clock_text seconds) }
{
    text.push('T')?;
    push_two(text, (seconds / 3600) as u8)?;
    text.push(':')?;
    push_two(text, (seconds / 60 % 60) as u8)?;
    text.push(':')?;
    push_two(text, (seconds % 60) as u8)
}

// Writes the milliseconds and the zone, as .000Z.
#[tactic(auto, unfolding(crate::specs::Moments::fraction_text))]
fn push_fraction(text: &mut String, milliseconds: u16) -> Result<(), NoMemory>
    requires { milliseconds < 1000 }
    ensures { OnOk result (string_bytes text.new ≡ string_bytes text.old ++ fraction_text milliseconds) }
{
    text.push('.')?;
    push_three(text, milliseconds)?;
    text.push('Z')?;
    Ok(())
}
