//! Spaces round a text.

ghost use Rattle.std.specs.Prelude.{◌≡◌, ◌<◌, length};
ghost use Rattle.roster_texts.specs.Texts.{has_plain_ends};
ghost use Rattle.roster_texts.specs.Trim.{trimmed, without_end, without_front};

/// Whether neither the first nor the last byte is a space.
pub fn has_plain_ends(bytes: &[u8]) -> bool
    requires { 0 < length bytes.now }
    ensures { result ≡ has_plain_ends bytes.now }
{
    let last = bytes[bytes.len() - 1];
    bytes[0] != b' ' && last != b' '
}

/// The text without the spaces in front.
pub fn drop_front(text: &str) -> &str
    ensures { result.now ≡ without_front text.now }
{
    let mut rest = text;
    while let Some(shorter) = rest.strip_prefix(' ') {
        rest = shorter;
    }
    rest
}

// The text without the spaces behind.
fn drop_end(text: &str) -> &str
    ensures { result.now ≡ without_end text.now }
{
    let mut rest = text;
    while let Some(shorter) = rest.strip_suffix(' ') {
        rest = shorter;
    }
    rest
}

/// The text without the spaces at its ends.
#[tactic(auto, using(crate::proofs::Spaces::trimmed_plain_text), unfolding(crate::specs::Trim::trimmed))]
pub fn trim_spaces(text: &str) -> &str
    ensures { result.now ≡ trimmed text.now }
{
    if text.is_empty() {
        return text;
    }
    // Most texts have no space at either end: for them a look at two bytes is enough.
    if has_plain_ends(text.as_bytes()) {
        return text;
    }
    drop_end(drop_front(text))
}
