//! The small part of a stage, with a page more.

ghost use Rattle.std.specs.Prelude.{◌≡◌, ◌≤◌, ◌+◌, IfOk, IfSome, length};
ghost use Rattle.keeper_memory.specs.copy.Changes.{begun, stage_after};
ghost use Rattle.keeper_memory.specs.copy.Copies.{Stage};
ghost use Rattle.keeper_memory.specs.copy.Lists.{kind_count, last_from};
ghost use Rattle.keeper_memory.specs.copy.States.{state_of};
ghost use Rattle.copy_format.specs.Format.{IsSmall};

use keeper_memory::StageState;
use roster_base::{NoMemory, TryCopy};
use roster_texts::{Id, Token};
use roster_types::row::Row;
use std::alloc::Global;

/// A stage that begins.
pub(crate) fn new_stage(pin: u64, token: Token) -> StageState
    ensures { result ≡ state_of (begun pin token) }
{
    StageState {
        pin,
        token,
        kinds_done: 0,
        staged: 0,
        total: None,
        last: None,
    }
}

// The id of the last of these rows; where there are none, the one that was the last.
fn last_id(alloc: Global, last: Option<Id>, rows: &[Row]) -> Result<Option<Id>, NoMemory>
    ensures { IfOk result (λ id. id ≡ last_from last rows.now) }
{
    match rows.last() {
        Some(row) => Ok(Some(row.id().copy(alloc)?)),
        None => Ok(last),
    }
}

/// A stage with more rows of the next kind, which is done with them or not. None where they are too many.
pub(crate) fn staged_more(
    alloc: Global,
    stage: StageState,
    rows: &[Row],
    total: u64,
    done: bool,
) -> Result<Option<StageState>, NoMemory>
    requires { stage.kinds_done ≤ kind_count }
    ensures stage { (s : Stage) → stage ≡ state_of s
        → IfOk result (λ o. IfSome o (λ found. found ≡ state_of (stage_after s rows.now total done))) }
    ensures few { IfOk result (λ o. IfSome o (λ found. IsSmall (stage.staged + length rows.now))) }
{
    let StageState {
        pin,
        token,
        kinds_done,
        staged,
        total: _,
        last,
    } = stage;
    let Some(count) = staged.checked_add(rows.len() as u64) else {
        return Ok(None);
    };
    if done {
        return Ok(Some(StageState {
            pin,
            token,
            kinds_done: kinds_done + 1,
            staged: 0,
            total: None,
            last: None,
        }));
    }
    Ok(Some(StageState {
        pin,
        token,
        kinds_done,
        staged: count,
        total: Some(total),
        last: last_id(alloc, last, rows)?,
    }))
}
