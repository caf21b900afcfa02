//! The zones of written times.

ghost use Rattle.std.specs.Prelude.{◌≡◌, IfSome, pos, negsuc, ◌≤ℤ◌};
ghost use Rattle.roster_texts.specs.Moments.{has_offset_form, offset_at, offset_of, zone_len};

use crate::digits::two_digits;

/// How many bytes the zone at the end of a written time takes: `Z`, or a sign and hh:mm.
pub fn zone_length(text: &[u8]) -> usize
    ensures { result ≡ zone_len text.now }
{
    match text.last() {
        Some(b'Z') => 1,
        _ => 6,
    }
}

/// The minutes ahead of UTC that `Z`, or a sign and hh:mm, writes.
#[tactic(auto, unfolding(crate::specs::Moments::offset_of))]
pub fn read_offset(text: &[u8]) -> Option<i16>
    ensures value { result ≡ offset_of text.now }
    ensures bound { IfSome result (λ z. (negsuc 1439 ≤ℤ z) × (z ≤ℤ pos 1439)) }
{
    if text.len() == 1 && text[0] == b'Z' {
        return Some(0);
    }
    if !is_offset(text) {
        return None;
    }
    let hour = two_digits(&text[1..3])?;
    let minute = two_digits(&text[4..6])?;
    offset_minutes(text[0] == b'-', hour, minute)
}

fn is_offset(text: &[u8]) -> bool
    ensures { result ≡ has_offset_form text.now }
{
    text.len() == 6 && (text[0] == b'+' || text[0] == b'-') && text[3] == b':'
}

#[tactic(auto, unfolding(crate::specs::Moments::offset_at))]
fn offset_minutes(is_west: bool, hour: u8, minute: u8) -> Option<i16>
    ensures value { result ≡ offset_at is_west hour minute }
    ensures bound { IfSome result (λ z. (negsuc 1439 ≤ℤ z) × (z ≤ℤ pos 1439)) }
{
    if hour > 23 || minute > 59 {
        return None;
    }
    let minutes = hour as i16 * 60 + minute as i16;
    Some(if is_west { -minutes } else { minutes })
}
