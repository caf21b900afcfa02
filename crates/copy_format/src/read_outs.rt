//! Entries, read back from their items.

ghost use Rattle.std.specs.Prelude.{◌≡◌, ◌∷◌, ◌++◌, ◌≤◌, true, IfOk, IfSome};
ghost use Rattle.keeper_memory.specs.copy.Copies.{IsGradebook, IsOutWrite};
ghost use Rattle.keeper_memory.specs.declared.copy.entry.OutEntry.{OutEntry as EntryValue};
ghost use Rattle.keeper_memory.specs.declared.copy.state.TheConstants.{LAST as last_number};
ghost use Rattle.item_maps.specs.Edits.{entry_of};
ghost use Rattle.hub_format.specs.Pieces.{IsSized, sized};
ghost use Rattle.copy_format.specs.Bodies.{optional_settled};
ghost use Rattle.copy_format.specs.Format.{FitsSettled, IsOut, out_entry};

use crate::reading::only_optional_settled;
use hub_format::{only_number, sized_at, write_of};
use item_maps::Item;
use keeper_memory::{LAST, OutEntry};
use roster_base::NoMemory;
use roster_values::Kind;
use std::alloc::Global;
use version_core::mark::Write;

// The most bytes of a write's own body, as `IsOutWrite` has it.
const LARGEST_BODY: usize = 131_072;

// The parts of a body: whether the write deletes, its kind, its id, its own body, and how it was settled.
#[derive(Clone, Copy)]
struct BodyParts<'a> {
    delete: u8,
    kind: u8,
    id: &'a [u8],
    text: &'a [u8],
    settled: &'a [u8],
}

// The parts of a body, if it is that of an entry.
fn parts_of(body: &[u8]) -> Option<BodyParts<'_>>
    ensures parts { IfSome result
        (λ p. body.now ≡ p.delete ∷ p.kind ∷ (sized p.id.now ++ (sized p.text.now ++ p.settled.now))) }
    ensures id { IfSome result (λ p. IsSized p.id.now) }
    ensures text { IfSome result (λ p. IsSized p.text.now) }
{
    let (delete, rest) = body.split_first()?;
    let (kind, rest) = rest.split_first()?;
    let (id, rest) = sized_at(rest)?;
    let (text, settled) = sized_at(rest)?;
    Some(BodyParts {
        delete: *delete,
        kind: *kind,
        id,
        text,
        settled,
    })
}

// Whether a row of this kind is one of the gradebook, which consumers write.
fn is_gradebook(kind: Kind) -> bool
    ensures { result ≡ true → IsGradebook kind }
{
    matches!(kind, Kind::Categories | Kind::LineItems | Kind::Results)
}

// Whether a write may stand among a copy's entries.
fn is_out_write(write: &Write) -> bool
    ensures { result ≡ true → IsOutWrite write.now }
{
    let len = write.body.as_slice().len();
    is_gradebook(write.kind) && len <= LARGEST_BODY && (!write.delete || len == 0)
}

// The entry of these parts, if a copy can have it.
fn tested(number: u64, write: Write, settled: &[u8]) -> Option<OutEntry>
    ensures number { IfSome result (λ e. e.number ≡ number) }
    ensures write { IfSome result (λ e. e.write ≡ write) }
    ensures settled { IfSome result (λ e. settled.now ≡ optional_settled e.settled) }
    ensures fits { IfSome result (λ e. IfSome e.settled FitsSettled) }
    ensures low { IfSome result (λ e. e.number ≤ last_number) }
    ensures can { IfSome result (λ e. IsOutWrite e.write) }
{
    if number > LAST || !is_out_write(&write) {
        return None;
    }
    let settled = only_optional_settled(settled)?;
    Some(OutEntry {
        number,
        write,
        settled,
    })
}

/// The entry of an item. None where it is no entry's item.
pub fn out_of(alloc: Global, item: &Item) -> Result<Option<OutEntry>, NoMemory>
    ensures found { (entry : EntryValue) → IsOut entry → entry_of item.now ≡ out_entry entry
        → IfOk result (λ o. IfSome o (λ found. found ≡ entry)) }
    ensures whole { IfOk result (λ o. IfSome o (λ found. entry_of item.now ≡ out_entry found)) }
    ensures low { IfOk result (λ o. IfSome o (λ found. found.number ≤ last_number)) }
    ensures can { IfOk result (λ o. IfSome o (λ found. IsOutWrite found.write)) }
{
    let Some(number) = only_number(item.label.as_slice()) else {
        return Ok(None);
    };
    let Some(parts) = parts_of(item.body.as_slice()) else {
        return Ok(None);
    };
    match write_of(alloc, parts.delete, parts.kind, parts.id, parts.text)? {
        Some(write) => Ok(tested(number, write, parts.settled)),
        None => Ok(None),
    }
}
