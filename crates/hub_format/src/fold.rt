//! Parts of the edits by which the oldest change goes into the base.

ghost use Rattle.std.specs.Prelude.{◌≡◌, ◌++◌, ◌∷◌, [], length, IfOk, IfSome, OnOk, map};
ghost use Rattle.item_maps.specs.Edits.{entry_of};
ghost use Rattle.hub_format.specs.Areas.{area_number};
ghost use Rattle.hub_format.specs.Edits.{put_at, puts};
ghost use Rattle.hub_format.specs.Moves.{all_moved, grants_moved, moved_to};
ghost use Rattle.hub_format.specs.Pieces.{number_size};

use crate::area::HubArea;
use crate::edits::number_bytes;
use crate::reading::{NUMBER_SIZE, behind};
use item_maps::{Edit, Item};
use roster_base::{Bytes, NoMemory};
use std::alloc::Global;

// The edit that stores an item behind another prefix, in place of a version's number.
fn put_moved(alloc: Global, area: HubArea, prefix: &[u8], item: &Item) -> Result<Edit, NoMemory>
    ensures { IfOk result (λ edit. edit ≡ put_at (area_number area) (moved_to prefix.now (entry_of item.now))) }
{
    let mut label = Vec::from_slice(alloc, prefix)?;
    label.extend_from_slice(behind(item.label.as_slice(), NUMBER_SIZE))?;
    let body = Vec::from_slice(alloc, item.body.as_slice())?;
    Ok(Edit::Put {
        area: area.number(),
        label: Bytes::from_vec(label),
        body: Bytes::from_vec(body),
    })
}

// Adds the edits that store items behind another prefix.
fn push_moved(
    alloc: Global,
    edits: &mut Vec<Edit>,
    area: HubArea,
    prefix: &[u8],
    items: &[Item],
) -> Result<(), NoMemory>
    ensures { OnOk result (edits.new.items
        ≡ edits.old.items ++ puts (area_number area) (all_moved prefix.now (map entry_of items.now))) }
{
    for item in items {
        edits.push(put_moved(alloc, area, prefix, item)?)?;
    }
    Ok(())
}

/// Adds the edits by which the base's grants go along, where the flag is 0: the version has none of its own.
pub fn push_grants(
    alloc: Global,
    edits: &mut Vec<Edit>,
    flag: u8,
    version: u64,
    grants: &[Item],
) -> Result<(), NoMemory>
    ensures { OnOk result (edits.new.items ≡ edits.old.items ++ grants_moved flag version (map entry_of grants.now)) }
{
    if flag != 0 {
        return Ok(());
    }
    let prefix = number_bytes(alloc, version)?;
    push_moved(alloc, edits, HubArea::Grants, prefix.as_slice(), grants)
}

/// The bytes of a change's moment and the flag behind them, which is 0 where the change has no grants. None where a
/// body has no such parts.
pub fn change_parts(body: &[u8]) -> Option<(&[u8], u8)>
    ensures parts { IfSome result (λ p. body.now ≡ p.0.now ++ p.1 ∷ []) }
    ensures eight { IfSome result (λ p. length p.0.now ≡ number_size) }
{
    let (flag, at) = body.split_last()?;
    if at.len() == NUMBER_SIZE {
        Some((at, *flag))
    } else {
        None
    }
}
