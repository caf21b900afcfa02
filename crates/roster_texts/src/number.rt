//! Numbers, years and flags.

ghost use Rattle.std.specs.Prelude.{◌≡◌, ◌≤◌, ◌<◌, ◌^◌, true, length, nat_le, ℕ, ℤ, IfOk, Ok};
ghost use Rattle.std.specs.Fmt.{signed_decimal};
ghost use Rattle.std.specs.List.{prefix_len};
ghost use Rattle.roster_texts.specs.Digits.{decimal_value, four, is_digit};
ghost use Rattle.roster_texts.specs.Numbers.{first_digits, flag_of, has_number_form, is_fraction, is_number};
ghost use Rattle.roster_texts.specs.Numbers.{is_zero_fraction, number_of, unsigned_of, year_of};

use crate::digits::{all_digits, four_digits, number};
use crate::fault::ValueFault;

/// The whole number that a text writes: 1 to 12 digits, perhaps after a minus sign, perhaps before a point and zeros.
///
/// A number with another digit after the point is `Fractional`, and any other text `BadNumber`.
#[tactic(auto, unfolding(crate::specs::Numbers::number_of))]
pub fn read_number(text: &[u8]) -> Result<i64, ValueFault>
    ensures { result ≡ number_of text.now }
{
    if !text.is_empty() && text[0] == b'-' {
        let value = read_unsigned(&text[1..])?;
        return Ok(-(value as i64));
    }
    let value = read_unsigned(text)?;
    Ok(value as i64)
}

#[tactic(auto, unfolding(crate::specs::Numbers::unsigned_of))]
fn read_unsigned(text: &[u8]) -> Result<u64, ValueFault>
    ensures value { result ≡ unsigned_of text.now }
    ensures bound { IfOk result (λ n. n < 10 ^ 12) }
{
    if !has_form(text) {
        return Err(ValueFault::BadNumber);
    }
    if !has_zero_fraction(&text[count_digits(text)..]) {
        return Err(ValueFault::Fractional);
    }
    Ok(leading_number(text))
}

fn has_form(text: &[u8]) -> bool
    ensures { result ≡ has_number_form text.now }
{
    let digits = count_digits(text);
    digits >= 1 && digits <= 12 && has_fraction(&text[digits..])
}

fn count_digits(text: &[u8]) -> usize
    ensures value { result ≡ prefix_len is_digit text.now }
    ensures bound { result ≤ length text.now }
{
    text.iter().take_while(|b| b.is_ascii_digit()).count()
}

fn has_fraction(text: &[u8]) -> bool
    ensures { result ≡ is_fraction text.now }
{
    if text.is_empty() {
        return true;
    }
    text[0] == b'.' && text.len() >= 2 && all_digits(&text[1..])
}

fn has_zero_fraction(text: &[u8]) -> bool
    ensures { result ≡ is_zero_fraction text.now }
{
    text.iter().skip(1).all(|&b| b == b'0')
}

// The number that the digits in front write.
fn leading_number(text: &[u8]) -> u64
    requires { prefix_len is_digit text.now ≤ 12 }
    ensures value { result ≡ decimal_value (first_digits text.now) }
    ensures bound { result < 10 ^ 12 }
{
    number(&text[..count_digits(text)]).unwrap_or(0)
}

/// The year that a text of four digits writes. Any other text is `BadNumber`.
#[tactic(auto, unfolding(crate::specs::Numbers::year_of, crate::specs::Digits::digits_value))]
pub fn read_year(text: &[u8]) -> Result<u16, ValueFault>
    ensures { result ≡ year_of text.now }
{
    if text.len() != 4 {
        return Err(ValueFault::BadNumber);
    }
    four_digits(text).ok_or(ValueFault::BadNumber)
}

/// What `true` or `false` says, whatever the case of its letters. Any other text is `NotInList`.
#[tactic(auto, unfolding(crate::specs::Numbers::flag_of))]
pub fn read_flag(text: &str) -> Result<bool, ValueFault>
    ensures { result ≡ flag_of text.now }
{
    if text.eq_ignore_ascii_case("true") {
        return Ok(true);
    }
    if text.eq_ignore_ascii_case("false") {
        return Ok(false);
    }
    Err(ValueFault::NotInList)
}

/// A law: a whole number of at most 12 digits that is printed reads as itself.
pub fn numbers_read_back()
    ensures { (n : ℤ) → is_number n ≡ true → number_of (signed_decimal n) ≡ Ok n }
{}

/// A law: a year that is printed in four digits reads as itself.
pub fn years_read_back()
    ensures { (year : ℕ) → nat_le year 9999 ≡ true → year_of (four year) ≡ Ok year }
{}
