//! Numbers written in digits.

ghost use Rattle.std.specs.Prelude.{◌≡◌, ◌≤◌, ◌<◌, ◌^◌, length, IfSome, OnOk, string_bytes, ◌+◌, ◌++◌, ◌∷◌, []};
ghost use Rattle.std.specs.List.{list_all};
ghost use Rattle.roster_texts.specs.Digits.{digits_value, four, is_digit, three, two};

use roster_base::NoMemory;

/// Whether each byte is a digit of ASCII.
pub fn all_digits(text: &[u8]) -> bool
    ensures { result ≡ list_all is_digit text.now }
{
    text.iter().all(|b| b.is_ascii_digit())
}

/// The number that at most 16 digits write, if the text is digits alone.
#[tactic(auto, unfolding(crate::specs::Digits::digits_value))]
pub fn number(digits: &[u8]) -> Option<u64>
    requires { length digits.now ≤ 16 }
    ensures value { result ≡ digits_value digits.now }
    ensures bound { IfSome result (λ n. n < 10 ^ length digits.now) }
{
    let mut value: u64 = 0;
    for b in digits {
        if !b.is_ascii_digit() {
            return None;
        }
        value = value * 10 + (*b - b'0') as u64;
    }
    Some(value)
}

/// The number that two digits write, if the text is digits alone.
#[tactic(auto, unfolding(crate::specs::Digits::digits_value))]
pub fn two_digits(digits: &[u8]) -> Option<u8>
    requires { length digits.now ≡ 2 }
    ensures value { result ≡ digits_value digits.now }
    ensures bound { IfSome result (λ n. n < 100) }
{
    Some(number(digits)? as u8)
}

/// The number that four digits write, if the text is digits alone.
#[tactic(auto, unfolding(crate::specs::Digits::digits_value))]
pub fn four_digits(digits: &[u8]) -> Option<u16>
    requires { length digits.now ≡ 4 }
    ensures value { result ≡ digits_value digits.now }
    ensures bound { IfSome result (λ n. n < 10000) }
{
    Some(number(digits)? as u16)
}

fn push_digit(text: &mut String, digit: u8) -> Result<(), NoMemory>
    requires { digit < 10 }
    ensures { OnOk result (string_bytes text.new ≡ string_bytes text.old ++ (48 + digit) ∷ []) }
{
    text.push((b'0' + digit) as char)?;
    Ok(())
}

/// Writes a number in two digits at the end of a text. Where memory runs out, a part of it may stand there.
pub fn push_two(text: &mut String, number: u8) -> Result<(), NoMemory>
    requires { number < 100 }
    ensures { OnOk result (string_bytes text.new ≡ string_bytes text.old ++ two number) }
{
    push_digit(text, number / 10)?;
    push_digit(text, number % 10)
}

/// Writes a number in three digits at the end of a text. Where memory runs out, a part of it may stand there.
pub fn push_three(text: &mut String, number: u16) -> Result<(), NoMemory>
    requires { number < 1000 }
    ensures { OnOk result (string_bytes text.new ≡ string_bytes text.old ++ three number) }
{
    push_digit(text, (number / 100) as u8)?;
    push_two(text, (number % 100) as u8)
}

/// Writes a number in four digits at the end of a text. Where memory runs out, a part of it may stand there.
pub fn push_four(text: &mut String, number: u16) -> Result<(), NoMemory>
    requires { number < 10000 }
    ensures { OnOk result (string_bytes text.new ≡ string_bytes text.old ++ four number) }
{
    push_two(text, (number / 100) as u8)?;
    push_two(text, (number % 100) as u8)
}
