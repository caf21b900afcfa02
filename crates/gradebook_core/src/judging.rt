//! Judging writes.

ghost use Rattle.std.specs.Prelude.{◌≡◌, IfOk, Ok, option_and_then, option_copied};
ghost use Rattle.gradebook_core.specs.Judging.{IsNewlyMade, MayLead, RepeatsOneOf, verdict_of};
ghost use Rattle.hub_spec.specs.rules.Refusals.{delete_refusal};
ghost use Rattle.hub_spec.specs.rules.Verdicts as spec;
ghost use Rattle.row_json.specs.Puts.{put_of};
ghost use Rattle.version_core.specs.HubStates.{HubState};
ghost use Rattle.version_core.specs.Marks.{mark_at};
ghost use Rattle.version_core.specs.Version.{newest_of};

use crate::judgement::Judgement;
use crate::outcome::Check;
use crate::refusals::{delete_refusal, put_refusal};
use crate::repeats::repeated;
use crate::stored::{delete_makes, put_makes};
use roster_base::{NoMemory, Refusal, TryCopy};
use roster_texts::{Moment, Name};
use roster_types::owner::Owner;
use roster_types::row::Row;
use row_json::read_put;
use std::alloc::Global;
use version_core::grant_row::GrantRow;
use version_core::mark::{MarkRow, Write};
use version_core::marks::Marks;
use version_core::row_change::RowChange;
use version_core::table::Table;

/// Who asks for a write, under which mark, and when.
#[derive(Clone, Copy)]
pub struct Asking<'a> {
    pub by: &'a GrantRow,
    pub mark: Option<u64>,
    pub at: Moment,
}

// What becomes of a row that is put.
fn put_judged(
    alloc: Global,
    table: &Table,
    asking: &Asking<'_>,
    write: &Write,
    row: Row,
) -> Result<Judgement, NoMemory>
    ensures verdict { IfOk result (λ made. spec.BodyJudged (newest_of table.now) asking.now.by.now write.now asking.now.at
        (Ok row) (verdict_of (newest_of table.now) made)) }
    ensures order { IfOk result IsNewlyMade }
{
    let view = table.newest_rows();
    let stored = view.change(write.kind, &write.id);
    if let Some(check) = put_refusal(&view, asking.by, write, stored, &row) {
        drop(row);
        return Ok(Judgement::Refused(check));
    }
    let owner = Owner::Caller(asking.by.caller.copy(alloc)?);
    put_makes(alloc, table, asking.at, RowChange { row, owner }, stored)
}

// What becomes of a PUT that no mark tells of.
fn body_judged(
    alloc: Global,
    table: &Table,
    asking: &Asking<'_>,
    write: &Write,
) -> Result<Judgement, NoMemory>
    ensures verdict { IfOk result (λ made. spec.BodyJudged (newest_of table.now) asking.now.by.now write.now asking.now.at
        (put_of write.now.kind write.now.id asking.now.at write.now.body) (verdict_of (newest_of table.now) made)) }
    ensures order { IfOk result IsNewlyMade }
{
    match read_put(
        alloc,
        write.kind,
        &write.id,
        asking.at,
        write.body.as_slice(),
    ) {
        Ok(row) => put_judged(alloc, table, asking, write, row),
        Err(Refusal::Fault(_)) => Ok(Judgement::Refused(Check::BadBody)),
        Err(Refusal::NoMemory) => Err(NoMemory),
    }
}

// What becomes of a DELETE that no mark tells of.
fn delete_judged(
    alloc: Global,
    table: &Table,
    asking: &Asking<'_>,
    write: &Write,
) -> Result<Judgement, NoMemory>
    ensures verdict { IfOk result (λ made. verdict_of (newest_of table.now) made ≡ spec.delete_judged
        (newest_of table.now) write.now asking.now.at (delete_refusal (newest_of table.now) asking.now.by.now write.now)) }
    ensures order { IfOk result IsNewlyMade }
{
    let view = table.newest_rows();
    let stored = view.change(write.kind, &write.id);
    if let Some(check) = delete_refusal(&view, asking.by, write, stored) {
        return Ok(Judgement::Refused(check));
    }
    delete_makes(alloc, table, asking.at, stored)
}

// What becomes of a write that no mark tells of.
fn new_judged(
    alloc: Global,
    table: &Table,
    asking: &Asking<'_>,
    write: &Write,
) -> Result<Judgement, NoMemory>
    ensures verdict { IfOk result (λ made. spec.NewJudged write.now.delete (newest_of table.now) asking.now.by.now write.now
        asking.now.at (verdict_of (newest_of table.now) made)) }
    ensures order { IfOk result IsNewlyMade }
{
    if write.delete {
        return delete_judged(alloc, table, asking, write);
    }
    body_judged(alloc, table, asking, write)
}

// What is kept under the caller's mark of this number, if anything is.
fn held_mark<'a>(marks: &'a Marks, caller: &Name, mark: Option<u64>) -> Option<&'a MarkRow>
    ensures { option_copied result ≡ option_and_then (λ number. mark_at (caller.now, number) marks.now.marks) mark }
{
    marks.get(caller, mark?)
}

/// What becomes of the write of a caller with a grant, under a mark if it has one, by the newest version of the table
/// and the marks that are held: its verdict, by checks in order. The verdict is that at each state of a hub for which
/// the table and the marks stand. A refusal is a verdict too; the error is want of memory alone.
pub fn judge(
    alloc: Global,
    table: &Table,
    marks: &Marks,
    asking: &Asking<'_>,
    write: &Write,
) -> Result<Judgement, NoMemory>
    ensures verdict { (state : HubState) → spec.newest_in state ≡ newest_of table.now → state.marks ≡ marks.now.marks
        → IfOk result (λ made. spec.Judges state asking.now.by.now asking.now.mark write.now asking.now.at (verdict_of (newest_of table.now) made)) }
    ensures leads { IfOk result (MayLead (newest_of table.now)) }
    ensures repeats { IfOk result (RepeatsOneOf marks.now.marks) }
{
    // Read for its clause `version`, by which the rows are those of a version.
    let _ = table.newest_rows();
    match held_mark(marks, &asking.by.caller, asking.mark) {
        Some(held) => Ok(repeated(held, write)),
        None => new_judged(alloc, table, asking, write),
    }
}
