//! What bodies say, read back.

ghost use Rattle.std.specs.Prelude.{◌≡◌, ◌∷◌, ◌++◌, [], IfOk, IfSome};
ghost use Rattle.item_maps.specs.Edits.{entry_of};
ghost use Rattle.hub_format.specs.Pieces.{IsSized};
ghost use Rattle.copy_format.specs.Bodies.{optional_number, optional_settled, optional_sized};
ghost use Rattle.copy_format.specs.Format.{FitsSettled, IsSmall};

use hub_format::{id_at, number_at, only_number};
use item_maps::Item;
use keeper_memory::Settled;
use roster_base::NoMemory;
use roster_texts::Id;
use std::alloc::Global;

/// The body of an item, if it has an empty label.
pub(crate) fn bare_body(item: &Item) -> Option<&[u8]>
    ensures body { IfSome result (λ body. entry_of item.now ≡ ([], body.now)) }
{
    if item.label.as_slice().is_empty() {
        Some(item.body.as_slice())
    } else {
        None
    }
}

/// The number in front, which may be missing, and what stands behind it. The outer None says that neither stands there.
pub(crate) fn optional_number_at(bytes: &[u8]) -> Option<(Option<u64>, &[u8])>
    ensures number { IfSome result (λ p. bytes.now ≡ optional_number p.0 ++ p.1.now) }
    ensures small { IfSome result (λ p. IfSome p.0 IsSmall) }
{
    match bytes.split_first()? {
        (0, rest) => Some((None, rest)),
        (1, rest) => {
            let (n, rest) = number_at(rest)?;
            Some((Some(n), rest))
        }
        _ => None,
    }
}

/// The only id, which may be missing. The outer None says that the bytes are neither.
pub(crate) fn only_optional_id(alloc: Global, bytes: &[u8]) -> Result<Option<Option<Id>>, NoMemory>
    ensures id { IfOk result (λ o. IfSome o (λ id. bytes.now ≡ optional_sized id)) }
    ensures small { IfOk result (λ o. IfSome o (λ id. IfSome id IsSized)) }
{
    match bytes {
        [0] => Ok(Some(None)),
        [1, rest @ ..] => match id_at(alloc, rest)? {
            Some((id, [])) => Ok(Some(Some(id))),
            _ => Ok(None),
        },
        _ => Ok(None),
    }
}

// What a hub kept, from its status and its version.
fn settled_of(bytes: &[u8]) -> Option<Settled>
    ensures settled { IfSome result (λ s. 1 ∷ bytes.now ≡ optional_settled (Some s)) }
    ensures fits { IfSome result FitsSettled }
{
    let (status, rest) = number_at(bytes)?;
    let version = only_number(rest)?;
    let status = u16::try_from(status).ok()?;
    Some(Settled { status, version })
}

/// What a hub kept of an entry, if it is all that the bytes say: it may be missing. The outer None says that they say
/// neither.
pub(crate) fn only_optional_settled(bytes: &[u8]) -> Option<Option<Settled>>
    ensures settled { IfSome result (λ s. bytes.now ≡ optional_settled s) }
    ensures fits { IfSome result (λ s. IfSome s FitsSettled) }
{
    match bytes {
        [0] => Some(None),
        [1, rest @ ..] => Some(Some(settled_of(rest)?)),
        _ => None,
    }
}
