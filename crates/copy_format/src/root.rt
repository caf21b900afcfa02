//! The part of a copy that stands in the item of its state.

ghost use Rattle.std.specs.Prelude.{◌≡◌, ◌∷◌, ◌≤◌, [], ℕ, IfSome, map, true};
ghost use Rattle.keeper_memory.specs.copy.Copies.{Copy, IsCopy};
ghost use Rattle.keeper_memory.specs.declared.copy.state.TheConstants.{LAST as last_number};
ghost use Rattle.item_maps.specs.Edits.{entry_of};
ghost use Rattle.copy_format.specs.Bodies.{state_body};
ghost use Rattle.copy_format.specs.Format.{state_entry};
ghost use Rattle.copy_format.specs.Roots.{CanBeRoot, root_entry, root_in};

use crate::reading::{bare_body, optional_number_at};
use hub_format::{number_at, only_number};
use item_maps::Item;
use keeper_memory::LAST;

/// The part of a copy that stands in the item of its state.
#[derive(Clone, Copy)]
pub struct CopyRoot {
    /// The number of the last run, or 0.
    pub run: u64,
    /// The version that is held.
    pub held: Option<u64>,
    /// The side of the rows that are held, 0 or 1. Those that are staged stand on the other.
    pub side: u8,
    /// The number of the last entry, or 0.
    pub last_number: u64,
}

// The state of a body.
fn root_of_body(body: &[u8]) -> Option<CopyRoot>
    ensures { IfSome result (λ r. body.now ≡ state_body r.run r.held r.side r.last_number) }
{
    let (run, rest) = number_at(body)?;
    let (held, rest) = optional_number_at(rest)?;
    let (side, rest) = rest.split_first()?;
    let last_number = only_number(rest)?;
    Some(CopyRoot {
        run,
        held,
        side: *side,
        last_number,
    })
}

// Whether a version that is held, if any is, is at most the last.
fn is_version(held: Option<u64>) -> bool
    ensures { result ≡ true → IfSome held (λ version. version ≤ last_number) }
{
    match held {
        Some(version) => version <= LAST,
        None => true,
    }
}

// The state, if a copy can have it.
fn tested(root: CopyRoot) -> Option<CopyRoot>
    ensures same { IfSome result (λ r. r ≡ root) }
    ensures can { IfSome result CanBeRoot }
{
    if root.run <= LAST && is_version(root.held) && root.side <= 1 && root.last_number <= LAST {
        Some(root)
    } else {
        None
    }
}

/// The state, from its items. None where they are no state's.
pub fn root_of(items: &[Item]) -> Option<CopyRoot>
    ensures found { (side : ℕ) (c : Copy) → IsCopy c → map entry_of items.now ≡ state_entry side c ∷ []
        → IfSome result (λ r. r ≡ root_in side c) }
    ensures whole { IfSome result (λ r. map entry_of items.now ≡ root_entry r ∷ []) }
    ensures can { IfSome result CanBeRoot }
{
    match items {
        [item] => tested(root_of_body(bare_body(item)?)?),
        _ => None,
    }
}
