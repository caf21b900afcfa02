//! The state and the versions of changes, read back from their items.

ghost use Rattle.std.specs.Prelude.{◌≡◌, ◌∷◌, ◌++◌, [], ◌<◌, ◌≤◌, ◌^◌, ℕ, ℤ, List, IfSome, length, map};
ghost use Rattle.std.specs.Int.{w64, cast_unsigned};
ghost use Rattle.std.specs.Int.RustNames.{FitsSigned};
ghost use Rattle.item_maps.specs.Edits.{entry_of};
ghost use Rattle.version_core.specs.declared.change.BaseVersion.{BaseVersion};
ghost use Rattle.version_core.specs.declared.change.Change.{Change};
ghost use Rattle.hub_format.specs.Format.{Entry, own_version, state_entry};
ghost use Rattle.hub_format.specs.Pieces.{has_grants, moment, number, number_size};

use crate::reading::{NUMBER_SIZE, number_at, only_number, state_parts};
use item_maps::Item;
use roster_texts::Moment;

// The moment of a number.
fn moment_of(n: u64) -> Option<Moment>
    ensures found { (at : ℤ) → FitsSigned w64 at → n ≡ cast_unsigned w64 at → IfSome result (λ m. m ≡ at) }
    ensures bits { IfSome result (λ m. cast_unsigned w64 m ≡ n) }
{
    Moment::at(n.cast_signed())
}

// The body of the only item, if its label has so many bytes.
fn labelled_body(items: &[Item], len: usize) -> Option<&[u8]>
    ensures body { (entry : Entry) → map entry_of items.now ≡ entry ∷ [] → IfSome result (λ body. body.now ≡ entry.1) }
    ensures label { IfSome result
        (λ body. (label : List ℕ) × (length label ≡ len) × (map entry_of items.now ≡ (label, body.now) ∷ [])) }
{
    match items {
        [item] if item.label.as_slice().len() == len => Some(item.body.as_slice()),
        _ => None,
    }
}

/// What the item of a state says.
#[derive(Clone, Copy)]
pub struct StoredState {
    /// How many versions are kept beside the newest.
    pub keep: u64,
    /// The number of the base.
    pub base: u64,
    /// The moment of the base.
    pub moment: Moment,
}

/// The state, from its items. None where they are no state's.
pub fn state_of(items: &[Item]) -> Option<StoredState>
    ensures found { (keep : ℕ) (base : BaseVersion) → keep < 2 ^ 64 → base.number < 2 ^ 64 → FitsSigned w64 base.moment
        → map entry_of items.now ≡ state_entry keep base ∷ []
        → IfSome result (λ s. (s.keep ≡ keep) × (s.base ≡ base.number) × (s.moment ≡ base.moment)) }
    ensures whole { IfSome result
        (λ s. (label : List ℕ) × (length label ≡ 0)
        × (map entry_of items.now ≡ (label, number s.keep ++ (number s.base ++ moment s.moment)) ∷ [])) }
{
    let (keep, base, rest) = state_parts(labelled_body(items, 0)?)?;
    let at = only_number(rest)?;
    Some(StoredState {
        keep,
        base,
        moment: moment_of(at)?,
    })
}

// The only byte, if it is 0 or 1.
fn only_flag(bytes: &[u8]) -> Option<u8>
    ensures byte { IfSome result (λ b. bytes.now ≡ b ∷ []) }
    ensures flag { IfSome result (λ b. b ≤ 1) }
{
    match bytes {
        [0] => Some(0),
        [1] => Some(1),
        _ => None,
    }
}

/// The moment of a change, and 1 where it has grants, from the items of its version. None where they are no version's.
pub fn version_of(items: &[Item]) -> Option<(Moment, u8)>
    ensures found { (change : Change) → FitsSigned w64 change.moment → map entry_of items.now ≡ own_version change
        → IfSome result (λ v. (v.0 ≡ change.moment) × (v.1 ≡ has_grants change.grants)) }
    ensures whole { IfSome result
        (λ v. (label : List ℕ) × (length label ≡ number_size) × (map entry_of items.now ≡ (label, moment v.0 ++ v.1 ∷ []) ∷ [])) }
    ensures flag { IfSome result (λ v. v.1 ≤ 1) }
{
    let (at, rest) = number_at(labelled_body(items, NUMBER_SIZE)?)?;
    let flag = only_flag(rest)?;
    Some((moment_of(at)?, flag))
}
