//! The texts of values in a head.

ghost use Rattle.std.specs.Prelude.{◌≡◌, ◌<◌, ◌≤◌, ◌^◌, ◌*◌, ◌++◌, ◌∷◌, ℕ, List, Some, None, true, codes, decimal};
ghost use Rattle.std.specs.Prelude.{option_map, if◌then◌else◌, IfOk};
ghost use Rattle.std.specs.List.{before_first, after_first, position_or_len};
ghost use Rattle.roster_texts.specs.Texts.{is_token};
ghost use Rattle.http_wire.specs.Texts.{count_of, digits_of, echo_of, is_dot, last_number, mark_of, number_of, path_of};
ghost use Rattle.http_wire.specs.Texts.{query_of, skip_spaces, token_of, verb_of};

use roster_base::{LAST_NUMBER, NoMemory};
use roster_texts::Token;
use status_info::{Echo, MarkField, Verb};
use std::alloc::Global;

/// The number that 1 to 18 digits write.
#[tactic(auto, unfolding(crate::specs::Texts::digits_of))]
pub(crate) fn digits(bytes: &[u8]) -> Option<u64>
    ensures { result ≡ digits_of bytes.now }
{
    if bytes.is_empty() {
        return None;
    }
    if bytes.len() > 18 {
        return None;
    }
    let mut number: u64 = 0;
    for byte in bytes {
        if !byte.is_ascii_digit() {
            return None;
        }
        number = number * 10 + (*byte - b'0') as u64;
    }
    Some(number)
}

/// A number from 0 to `most`, with no zero before its first digit.
#[tactic(auto, unfolding(crate::specs::Texts::count_of))]
pub(crate) fn count(bytes: &[u8], most: u64) -> Option<u64>
    ensures { result ≡ count_of most bytes.now }
{
    if bytes.len() > 1 && bytes[0] == b'0' {
        return None;
    }
    let number = digits(bytes)?;
    if number > most {
        return None;
    }
    Some(number)
}

/// A number from 1 to `most`, with no zero before its first digit.
#[tactic(auto, unfolding(crate::specs::Texts::number_of))]
pub(crate) fn number(bytes: &[u8], most: u64) -> Option<u64>
    ensures { result ≡ number_of most bytes.now }
{
    let number = count(bytes, most)?;
    if number == 0 {
        return None;
    }
    Some(number)
}

/// The mark of a value of `X-Hub-Mark`.
pub(crate) fn mark(value: Option<&[u8]>) -> MarkField
    ensures { result ≡ mark_of (option_map (λ v. v.now) value.entry) }
{
    let Some(bytes) = value else {
        return MarkField::Nothing;
    };
    match number(bytes, LAST_NUMBER) {
        Some(mark) => MarkField::Number(mark),
        None => MarkField::Bad,
    }
}

// Where the first dot is, or the end.
fn dot_place(bytes: &[u8]) -> usize
    ensures { result ≡ position_or_len is_dot bytes.now }
{
    for place in 0..bytes.len() {
        if bytes[place] == b'.' {
            return place;
        }
    }
    bytes.len()
}

// The bytes before the first dot, and those behind it.
fn split_at_dot(bytes: &[u8]) -> (&[u8], &[u8])
    ensures before { result.0.now ≡ before_first is_dot bytes.now }
    ensures behind { result.1.now ≡ after_first is_dot bytes.now }
{
    let place = dot_place(bytes);
    if place >= bytes.len() {
        return (bytes, &[]);
    }
    (&bytes[..place], &bytes[place + 1..])
}

/// Two numbers with a dot between them.
#[tactic(auto, unfolding(crate::specs::Texts::echo_of))]
pub(crate) fn echo(bytes: &[u8]) -> Option<Echo>
    ensures { result ≡ echo_of bytes.now }
{
    let (run, count) = split_at_dot(bytes);
    let run = number(run, LAST_NUMBER)?;
    let count = number(count, 100 * LAST_NUMBER)?;
    Some(Echo { run, count })
}

/// What a request does.
#[tactic(auto, unfolding(crate::specs::Texts::verb_of))]
pub(crate) fn verb(method: &[u8]) -> Verb
    ensures { result ≡ verb_of method.now }
{
    if method == b"GET".as_slice() {
        Verb::Get
    } else if method == b"PUT".as_slice() {
        Verb::Put
    } else if method == b"DELETE".as_slice() {
        Verb::Delete
    } else if method == b"HEAD".as_slice() {
        Verb::Head
    } else {
        Verb::Other
    }
}

/// The path of a target, and its query.
pub(crate) fn split_target(target: &str) -> (&str, &str)
    ensures path { result.0.now ≡ path_of target.now }
    ensures query { result.1.now ≡ query_of target.now }
{
    match target.split_once('?') {
        Some((path, query)) => (path, query),
        None => (target, ""),
    }
}

// The bytes from the first that is no space.
fn without_spaces(bytes: &[u8]) -> &[u8]
    ensures { result.now ≡ skip_spaces bytes.now }
{
    let mut rest = bytes;
    while let [b' ', after @ ..] = rest {
        rest = after;
    }
    rest
}

/// The token of a value of `Authorization`.
#[tactic(auto, unfolding(crate::specs::Texts::token_of))]
pub(crate) fn token(alloc: Global, bytes: &[u8]) -> Result<Option<Token>, NoMemory>
    ensures { IfOk result (λ t. t ≡ token_of bytes.now) }
{
    if bytes.len() < 7 {
        return Ok(None);
    }
    if !bytes[..7].eq_ignore_ascii_case(b"Bearer ") {
        return Ok(None);
    }
    Token::from_bytes(alloc, without_spaces(&bytes[7..]))
}

/// A number, an echo and a token that were written are read again.
pub fn values_read_back()
    ensures number { (most n : ℕ) → most < 10 ^ 18 → 1 ≤ n → n ≤ most → number_of most (decimal n) ≡ Some n }
    ensures echo { (run count : ℕ) → 1 ≤ run → run ≤ last_number → 1 ≤ count → count ≤ 100 * last_number
        → echo_of (decimal run ++ 46 ∷ decimal count) ≡ Some (record { run = run; count = count }) }
    ensures token { (t : List ℕ) → is_token t ≡ true → token_of (codes "Bearer " ++ t) ≡ Some t }
{}
