//! The bytes that a name or a value of a form stands for, one after another; no memory is taken.

ghost use Rattle.std.specs.Prelude.{◌≡◌, ◌≤◌, ◌∷◌, ◌&&◌, [], length, false, bytes_eq, MatchOption};
ghost use Rattle.std.specs.Str.{is_utf8};
ghost use Rattle.filter_grammar.specs.Decoded.{decoded_left};
ghost use Rattle.filter_grammar.specs.Escapes.{begins_with_code};
ghost use Rattle.form_urlencoded.specs.Form as form;
ghost use Rattle.percent_encoding.specs.Percent.{percent_sign};

/// What is left of a name or a value of a form, once `+` is a space and escapes are decoded.
#[derive(Clone, Copy)]
pub struct Decoded<'a> {
    raw: &'a [u8],
}

impl<'a> Decoded<'a> {
    /// The bytes of a name or a value.
    pub fn of(raw: &'a [u8]) -> Decoded<'a>
        ensures { decoded_left result ≡ form.decode raw.now }
    {
        Decoded { raw }
    }

    /// Whether the bytes are those of a text.
    pub fn is_same(mut self, text: &str) -> bool
        ensures { result ≡ bytes_eq (decoded_left self.entry) text.now }
    {
        let mut wanted = text.as_bytes();
        while let Some(byte) = self.next() {
            match wanted {
                [first, after @ ..] if *first == byte => wanted = after,
                _ => return false,
            }
        }
        wanted.is_empty()
    }

    /// Whether the bytes are UTF-8.
    pub fn is_text(mut self) -> bool
        ensures { result ≡ is_utf8 (decoded_left self.entry) }
    {
        while let Some(first) = self.next() {
            if !self.takes_character(first) {
                return false;
            }
        }
        true
    }

    // Whether a first byte and those behind it that belong to its character make one in UTF-8. They are taken. The
    // first byte says how many there are: below 128 none, below 224 one, below 240 two, and else three.
    fn takes_character(&mut self, first: u8) -> bool
        ensures text { is_utf8 (first ∷ decoded_left self.old) ≡ (result && is_utf8 (decoded_left self.new)) }
        ensures shorter { length (decoded_left self.new) ≤ length (decoded_left self.old) }
    {
        if first < 128 {
            return true;
        }
        let Some(second) = self.next() else {
            return false;
        };
        if first < 224 {
            return is_character(&[first, second]);
        }
        let Some(third) = self.next() else {
            return false;
        };
        if first < 240 {
            return is_character(&[first, second, third]);
        }
        let Some(fourth) = self.next() else {
            return false;
        };
        is_character(&[first, second, third, fourth])
    }
}

// Whether bytes are UTF-8.
fn is_character(bytes: &[u8]) -> bool
    ensures { result ≡ is_utf8 bytes.now }
{
    str::from_utf8(bytes).is_ok()
}

impl Iterator for Decoded<'_> {
    ghost use Rattle.std.specs.Iterator.{YieldsFirst, item_count};
    ghost use Rattle.filter_grammar.specs.Decoded.{decoded_left};

    type Item = u8;

    ghost next_gives = { YieldsFirst decoded_left };

    ghost remaining = { item_count decoded_left };

    fn next(&mut self) -> Option<u8> {
        let (byte, rest) = first_byte(self.raw)?;
        self.raw = rest;
        Some(byte)
    }
}

// The first byte that is stood for, and what follows.
fn first_byte(raw: &[u8]) -> Option<(u8, &[u8])>
    ensures { MatchOption result (form.decode raw.now ≡ []) (λ x. form.decode raw.now ≡ x.0 ∷ form.decode x.1.now) }
{
    let [first, rest @ ..] = raw else {
        return None;
    };
    match *first {
        b'+' => Some((b' ', rest)),
        b'%' => Some(after_percent(rest).unwrap_or((b'%', rest))),
        other => Some((other, rest)),
    }
}

// The byte that `%` and the digits in front stand for, and what follows the digits.
fn after_percent(raw: &[u8]) -> Option<(u8, &[u8])>
    ensures { MatchOption result (begins_with_code raw.now ≡ false)
        (λ x. form.decode (percent_sign ∷ raw.now) ≡ x.0 ∷ form.decode x.1.now) }
{
    let [high, low, rest @ ..] = raw else {
        return None;
    };
    let high = char::from(*high).to_digit(16)?;
    let low = char::from(*low).to_digit(16)?;
    Some((high as u8 * 16 + low as u8, rest))
}
