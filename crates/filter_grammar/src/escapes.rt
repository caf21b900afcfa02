//! Whether texts of URLs and forms have whole escapes and stand for UTF-8.

ghost use Rattle.std.specs.Prelude.{◌≡◌};
ghost use Rattle.filter_grammar.specs.Escapes as spec;

use crate::decoded::Decoded;

/// Whether each `%` has two hexadecimal digits behind it.
pub fn has_whole_escapes(text: &[u8]) -> bool
    ensures { result ≡ spec.has_whole_escapes text.now }
{
    let mut rest = text;
    while let [first, after @ ..] = rest {
        if *first == b'%' && !begins_with_code(after) {
            return false;
        }
        rest = after;
    }
    true
}

// Whether two hexadecimal digits come first.
fn begins_with_code(text: &[u8]) -> bool
    ensures { result ≡ spec.begins_with_code text.now }
{
    match text {
        [high, low, ..] => is_hexadecimal(*high) && is_hexadecimal(*low),
        _ => false,
    }
}

// Whether a byte is a hexadecimal digit.
fn is_hexadecimal(byte: u8) -> bool
    ensures { result ≡ spec.is_hexadecimal byte }
{
    char::from(byte).is_digit(16)
}

/// Whether a name or a value of a form has whole escapes and stands for UTF-8; no memory is taken.
#[tactic(auto, unfolding(crate::specs::Escapes::is_form_text))]
pub fn is_form_text(raw: &[u8]) -> bool
    ensures { result ≡ spec.is_form_text raw.now }
{
    has_whole_escapes(raw) && Decoded::of(raw).is_text()
}
