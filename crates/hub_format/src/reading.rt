//! What items say, read back.

ghost use Rattle.std.specs.Prelude.{◌≡◌, ◌≢◌, ◌↔◌, ◌++◌, ◌∷◌, [], IfOk, IfSome, drop, map, true};
ghost use Rattle.item_maps.specs.Edits.{entry_of};
ghost use Rattle.hub_format.specs.declared.reading.Format.TheVariants as format;
ghost use Rattle.roster_values.specs.Kinds.{place_of_kind};
ghost use Rattle.hub_format.specs.Format.{Entry, first_format, format_entry, written_format};
ghost use Rattle.hub_format.specs.Pieces.{IsSized, number, sized};

use item_maps::Item;
use roster_base::NoMemory;
use roster_texts::{Id, Name};
use roster_values::Kind;
use std::alloc::Global;
use std::str;

/// How many bytes a number has.
pub const NUMBER_SIZE: usize = 8;

// The number of these bytes.
fn number_of(bytes: [u8; 8]) -> u64
    ensures { number result ≡ bytes }
{
    u64::from_be_bytes(bytes)
}

/// The number in the 8 bytes in front, and what stands behind it.
pub fn number_at(bytes: &[u8]) -> Option<(u64, &[u8])>
    ensures { IfSome result (λ r. bytes.now ≡ number r.0 ++ r.1.now) }
{
    let (first, rest) = bytes.split_first_chunk::<8>()?;
    Some((number_of(*first), rest))
}

/// The number in these bytes, if it is all that they are.
pub fn only_number(bytes: &[u8]) -> Option<u64>
    ensures { IfSome result (λ n. bytes.now ≡ number n) }
{
    let (n, rest) = number_at(bytes)?;
    if rest.is_empty() { Some(n) } else { None }
}

/// What stands behind so many bytes; nothing where there are fewer.
pub fn behind(bytes: &[u8], skip: usize) -> &[u8]
    ensures { result.now ≡ drop skip bytes.now }
{
    if bytes.len() < skip {
        return &[];
    }
    &bytes[skip..]
}

/// The text in front, without its length, and what stands behind it.
pub fn sized_at(bytes: &[u8]) -> Option<(&[u8], &[u8])>
    ensures text { IfSome result (λ r. bytes.now ≡ sized r.0.now ++ r.1.now) }
    ensures small { IfSome result (λ r. IsSized r.0.now) }
{
    let (len, rest) = number_at(bytes)?;
    let len = usize::try_from(len).ok()?;
    rest.split_at_checked(len)
}

/// The parts of a label that ends with a 0 and a number: what stands in front of them, and the number.
pub fn label_parts(label: &[u8]) -> Option<(&[u8], u64)>
    ensures { IfSome result (λ p. label.now ≡ p.0.now ++ 0 ∷ number p.1) }
{
    // The 0 and the number's 8 bytes.
    let ends = label.len().checked_sub(9)?;
    let (front, rest) = label.split_at_checked(ends)?;
    let (zero, bytes) = rest.split_first()?;
    let (number, rest) = number_at(bytes)?;
    if *zero == 0 && rest.is_empty() {
        Some((front, number))
    } else {
        None
    }
}

/// The name in these bytes, if they are one.
pub(crate) fn name_of(alloc: Global, bytes: &[u8]) -> Result<Option<Name>, NoMemory>
    ensures { IfOk result (λ o. IfSome o (λ name. name ≡ bytes.now)) }
{
    match str::from_utf8(bytes) {
        Ok(text) => Name::read(alloc, text),
        Err(_) => Ok(None),
    }
}

/// The id in these bytes, if they are one.
pub(crate) fn id_of(alloc: Global, bytes: &[u8]) -> Result<Option<Id>, NoMemory>
    ensures { IfOk result (λ o. IfSome o (λ id. id ≡ bytes.now)) }
{
    match str::from_utf8(bytes) {
        Ok(text) => Id::read(alloc, text),
        Err(_) => Ok(None),
    }
}

/// The kind at the place of this byte.
#[tactic(auto, using(crate::proofs::KindBytes::kind_placed))]
pub(crate) fn kind_of(byte: u8) -> Option<Kind>
    ensures { IfSome result (λ kind. place_of_kind kind ≡ byte) }
{
    Kind::ALL.get(usize::from(byte)).copied()
}

/// The body of the only item. None where there is none, or another.
pub fn only_body(items: &[Item]) -> Option<&[u8]>
    ensures { (entry : Entry) → map entry_of items.now ≡ entry ∷ [] → IfSome result (λ body. body.now ≡ entry.1) }
{
    match items {
        [item] => Some(item.body.as_slice()),
        _ => None,
    }
}

/// How many versions a state keeps beside the newest, the number of its base, and what stands behind them, from its
/// body.
pub fn state_parts(body: &[u8]) -> Option<(u64, u64, &[u8])>
    ensures { IfSome result (λ s. body.now ≡ number s.0 ++ (number s.1 ++ s.2.now)) }
{
    let (keep, rest) = number_at(body)?;
    let (base, rest) = number_at(rest)?;
    Some((keep, base, rest))
}

/// The format of a store.
#[derive(Clone, Copy)]
pub enum Format {
    /// None yet: the store is new.
    New,
    /// Format 1, which is turned into format 2.
    One,
    /// Format 2, which is written.
    Two,
    /// Another one, which this program doesn't know.
    Other,
}

fn is_one(body: &[u8]) -> bool
    ensures { (result ≡ true) ↔ (body.now ≡ number 1) }
{
    body == [0, 0, 0, 0, 0, 0, 0, 1].as_slice()
}

fn is_two(body: &[u8]) -> bool
    ensures { (result ≡ true) ↔ (body.now ≡ number 2) }
{
    body == [0, 0, 0, 0, 0, 0, 0, 2].as_slice()
}

// The format whose number has these bytes.
fn format_in(body: &[u8]) -> Format
    ensures one { body.now ≡ number 1 → result ≡ format.One }
    ensures two { body.now ≡ number 2 → result ≡ format.Two }
    ensures other { body.now ≢ number 1 → body.now ≢ number 2 → result ≡ format.Other }
{
    if is_one(body) {
        Format::One
    } else if is_two(body) {
        Format::Two
    } else {
        Format::Other
    }
}

/// The format, from its items.
pub fn format_of(items: &[Item]) -> Format
    ensures none { map entry_of items.now ≡ [] → result ≡ format.New }
    ensures one { map entry_of items.now ≡ format_entry first_format ∷ [] → result ≡ format.One }
    ensures two { map entry_of items.now ≡ format_entry written_format ∷ [] → result ≡ format.Two }
    ensures other { (entry : Entry) → map entry_of items.now ≡ entry ∷ [] → entry.1 ≢ number 1 → entry.1 ≢ number 2
        → result ≡ format.Other }
{
    match items {
        [] => Format::New,
        [item] => format_in(item.body.as_slice()),
        _ => Format::Other,
    }
}
