//! Marks, read back from their items.

ghost use Rattle.std.specs.Prelude.{◌≡◌, ◌∷◌, ◌++◌, ◌<◌, ◌^◌, List, IfOk, IfSome, map};
ghost use Rattle.std.specs.List.{AllByRecursion};
ghost use Rattle.item_maps.specs.Edits.{entry_of};
ghost use Rattle.roster_values.specs.Kinds.{place_of_kind};
ghost use Rattle.version_core.specs.declared.mark.MarkRow.{MarkRow as MarkValue};
ghost use Rattle.hub_format.specs.Format.{FitsMark, mark_entry};
ghost use Rattle.hub_format.specs.Pieces.{IsSized, flag, number, sized};

use crate::reading::{id_of, kind_of, label_parts, name_of, number_at, sized_at};
use item_maps::Item;
use roster_base::{Bytes, NoMemory};
use std::alloc::Global;
use version_core::mark::{Kept, MarkRow, Write};

// What was kept of a write: the outcome and the version.
fn kept_of(bytes: &[u8]) -> Option<Kept>
    ensures kept { IfSome result (λ kept. bytes.now ≡ kept.outcome ∷ number kept.version) }
    ensures version { IfSome result (λ kept. kept.version < 2 ^ 64) }
{
    let (outcome, rest) = bytes.split_first()?;
    let (version, rest) = number_at(rest)?;
    if rest.is_empty() {
        Some(Kept {
            outcome: *outcome,
            version,
        })
    } else {
        None
    }
}

// Whether a write deletes.
fn delete_of(byte: u8) -> Option<bool>
    ensures { IfSome result (λ delete. flag delete ≡ byte) }
{
    match byte {
        0 => Some(false),
        1 => Some(true),
        _ => None,
    }
}

/// The write of these parts: 1 where it deletes and else 0, the byte of its kind, its id, and its own body.
pub fn write_of(
    alloc: Global,
    delete: u8,
    kind: u8,
    id: &[u8],
    text: &[u8],
) -> Result<Option<Write>, NoMemory>
    ensures { IfOk result (λ o. IfSome o
        (λ w. (flag w.delete ≡ delete) × (place_of_kind w.kind ≡ kind) × (w.id ≡ id.now) × (w.body ≡ text.now))) }
{
    let (delete, kind) = match (delete_of(delete), kind_of(kind)) {
        (Some(delete), Some(kind)) => (delete, kind),
        _ => return Ok(None),
    };
    let Some(id) = id_of(alloc, id)? else {
        return Ok(None);
    };
    let body = Bytes::from_vec(Vec::from_slice(alloc, text)?);
    Ok(Some(Write {
        delete,
        kind,
        id,
        body,
    }))
}

// The parts of a body: whether the write deletes, its kind, its id, its own body, and what was kept of it.
#[derive(Clone, Copy)]
struct BodyParts<'a> {
    delete: u8,
    kind: u8,
    id: &'a [u8],
    text: &'a [u8],
    kept: Kept,
}

// The parts of a body, if it is that of a mark.
fn body_parts(body: &[u8]) -> Option<BodyParts<'_>>
    ensures parts { IfSome result
        (λ p. body.now ≡ p.delete ∷ p.kind ∷ (sized p.id.now ++ (sized p.text.now ++ (p.kept.outcome ∷ number p.kept.version)))) }
    ensures id { IfSome result (λ p. IsSized p.id.now) }
    ensures text { IfSome result (λ p. IsSized p.text.now) }
    ensures version { IfSome result (λ p. p.kept.version < 2 ^ 64) }
{
    let (delete, rest) = body.split_first()?;
    let (kind, rest) = rest.split_first()?;
    let (id, rest) = sized_at(rest)?;
    let (text, rest) = sized_at(rest)?;
    let kept = kept_of(rest)?;
    Some(BodyParts {
        delete: *delete,
        kind: *kind,
        id,
        text,
        kept,
    })
}

// The mark of an item. None where it is no mark's item.
fn mark_of(alloc: Global, item: &Item) -> Result<Option<MarkRow>, NoMemory>
    ensures found { (mark : MarkValue) → FitsMark mark → entry_of item.now ≡ mark_entry mark
        → IfOk result (λ o. IfSome o (λ found. found ≡ mark)) }
    ensures whole { IfOk result (λ o. IfSome o (λ found. entry_of item.now ≡ mark_entry found)) }
{
    let Some((caller, number)) = label_parts(item.label.as_slice()) else {
        return Ok(None);
    };
    let Some(parts) = body_parts(item.body.as_slice()) else {
        return Ok(None);
    };
    let Some(caller) = name_of(alloc, caller)? else {
        return Ok(None);
    };
    match write_of(alloc, parts.delete, parts.kind, parts.id, parts.text)? {
        Some(write) => Ok(Some(MarkRow {
            caller,
            number,
            write,
            kept: parts.kept,
        })),
        None => Ok(None),
    }
}

/// The marks of items. None where one is no mark's item.
pub fn marks_of(alloc: Global, items: &[Item]) -> Result<Option<Vec<MarkRow>>, NoMemory>
    ensures found { (marks : List MarkValue) → AllByRecursion FitsMark marks
        → map entry_of items.now ≡ map mark_entry marks
        → IfOk result (λ o. IfSome o (λ found. found.items ≡ marks)) }
    ensures whole { IfOk result (λ o. IfSome o (λ found. map entry_of items.now ≡ map mark_entry found.items)) }
{
    let mut found = Vec::new(alloc);
    for item in items {
        let Some(mark) = mark_of(alloc, item)? else {
            return Ok(None);
        };
        found.push(mark)?;
    }
    Ok(Some(found))
}
