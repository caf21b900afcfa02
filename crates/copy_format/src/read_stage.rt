//! The small part of a stage, read back from its item.

ghost use Rattle.std.specs.Prelude.{true, ◌≡◌, ◌∷◌, ◌++◌, [], IfOk, IfSome, Option, map, option_map};
ghost use Rattle.keeper_memory.specs.copy.Copies.{IsStage, Stage};
ghost use Rattle.keeper_memory.specs.copy.States.{CanBeStage, state_of};
ghost use Rattle.item_maps.specs.Edits.{entry_of};
ghost use Rattle.hub_format.specs.Pieces.{IsSized, number, sized};
ghost use Rattle.copy_format.specs.Bodies.{optional_number, stage_body};
ghost use Rattle.copy_format.specs.Format.{FitsSmall, FitsStage, IsSmall, stage_entries};

use crate::reading::{bare_body, only_optional_id, optional_number_at};
use hub_format::{number_at, sized_at};
use item_maps::Item;
use keeper_memory::{LAST, StageState};
use roster_base::NoMemory;
use roster_texts::Token;
use roster_values::Kind;
use std::alloc::Global;

// The parts of a body: the version, the token, how many kinds are whole, how many rows of the next kind are there, how
// many it has in all, and the id of the last row.
#[derive(Clone, Copy)]
struct BodyParts<'a> {
    pin: u64,
    token: &'a [u8],
    kinds_done: u8,
    staged: u64,
    total: Option<u64>,
    last: &'a [u8],
}

// The parts of a body, if it is that of a stage.
fn parts_of(body: &[u8]) -> Option<BodyParts<'_>>
    ensures parts { IfSome result
        (λ p. body.now ≡ number p.pin ++ (sized p.token.now ++ p.kinds_done ∷ (number p.staged ++ (optional_number p.total ++ p.last.now)))) }
    ensures token { IfSome result (λ p. IsSized p.token.now) }
    ensures total { IfSome result (λ p. IfSome p.total IsSmall) }
{
    let (pin, rest) = number_at(body)?;
    let (token, rest) = sized_at(rest)?;
    let (kinds_done, rest) = rest.split_first()?;
    let (staged, rest) = number_at(rest)?;
    let (total, last) = optional_number_at(rest)?;
    Some(BodyParts {
        pin,
        token,
        kinds_done: *kinds_done,
        staged,
        total,
        last,
    })
}

// The small part of the stage of a body.
fn stage_of_body(alloc: Global, body: &[u8]) -> Result<Option<StageState>, NoMemory>
    ensures body { IfOk result (λ o. IfSome o (λ s. body.now ≡ stage_body s)) }
    ensures fits { IfOk result (λ o. IfSome o FitsSmall) }
{
    let Some(
        BodyParts {
            pin,
            token,
            kinds_done,
            staged,
            total,
            last,
        },
    ) = parts_of(body)
    else {
        return Ok(None);
    };
    let Some(token) = Token::from_bytes(alloc, token)? else {
        return Ok(None);
    };
    match only_optional_id(alloc, last)? {
        Some(last) => Ok(Some(StageState {
            pin,
            token,
            kinds_done,
            staged,
            total,
            last,
        })),
        None => Ok(None),
    }
}

// Whether an id is there where rows are, and no row once all kinds are whole.
fn is_stage(stage: &StageState) -> bool
    ensures { result ≡ true → CanBeStage stage.now }
{
    if stage.pin > LAST || usize::from(stage.kinds_done) > Kind::ALL.len() {
        return false;
    }
    if stage.last.is_some() != (stage.staged != 0) {
        return false;
    }
    usize::from(stage.kinds_done) < Kind::ALL.len() || (stage.staged == 0 && stage.total.is_none())
}

// The small part of the stage of an item, if a stage can have it.
fn stage_of_item(alloc: Global, item: &Item) -> Result<Option<StageState>, NoMemory>
    ensures whole { IfOk result (λ o. IfSome o (λ s. entry_of item.now ≡ ([], stage_body s))) }
    ensures fits { IfOk result (λ o. IfSome o FitsSmall) }
    ensures can { IfOk result (λ o. IfSome o CanBeStage) }
{
    let Some(body) = bare_body(item) else {
        return Ok(None);
    };
    match stage_of_body(alloc, body)? {
        Some(stage) if is_stage(&stage) => Ok(Some(stage)),
        _ => Ok(None),
    }
}

/// The small part of the stage, where there is one, from its items. None where they are no stage's.
pub fn stage_of(alloc: Global, items: &[Item]) -> Result<Option<Option<StageState>>, NoMemory>
    ensures found { (o : Option Stage) → IfSome o IsStage → IfSome o FitsStage
        → map entry_of items.now ≡ stage_entries o
        → IfOk result (λ r. IfSome r (λ found. found ≡ option_map state_of o)) }
    ensures can { IfOk result (λ r. IfSome r (λ found. IfSome found CanBeStage)) }
{
    match items {
        [] => Ok(Some(None)),
        [item] => match stage_of_item(alloc, item)? {
            Some(stage) => Ok(Some(Some(stage))),
            None => Ok(None),
        },
        _ => Ok(None),
    }
}
