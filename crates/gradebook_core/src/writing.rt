//! Writes of a hub.

ghost use Rattle.std.specs.Prelude.{◌≡◌, ◌≤◌, IfOk, false};
ghost use Rattle.gradebook_core.specs.Writing.{MayCommit, Writes};
ghost use Rattle.hub_core.specs.Standing.{IsStanding, KeeperFits};
ghost use Rattle.hub_core.specs.Steps.{CountsFault, Installs, LeavesOpen, RefusesNothing};
ghost use Rattle.hub_core.specs.Works.{Works};
ghost use Rattle.keeper_memory.specs.Kept.{KeptState};
ghost use Rattle.version_core.specs.Outcomes.{deleted_outcome};

use crate::judging::{Asking, judge};
use crate::written::{Written, commit_of, written_by};
use hub_core::{Hub, HubError};
use keeper_memory::{HubCommit, HubKeeper};
use std::alloc::Global;
use version_core::mark::Write;

// Hands a commit to the keeper, unless it has nothing.
fn commit<H: HubKeeper>(
    alloc: Global,
    hub: &mut Hub,
    keeper: &mut H,
    commit: HubCommit,
) -> Result<(), HubError>
    requires fits { KeeperFits (H.stands_for keeper.old) hub.old }
    requires settled { hub.old.commit_open ≡ false }
    requires may { MayCommit hub.old.kept commit }
    ensures fits { KeeperFits (H.stands_for keeper.new) hub.new }
    ensures told { (after : KeptState) → IsStanding hub.new after → (H.stands_for keeper.new after → H.stands_for keeper.old hub.old.kept) × Installs commit result hub.old.kept after }
    ensures works { Works result hub.old hub.new }
    ensures settled { LeavesOpen result hub.new.commit_open }
    ensures cause { CountsFault (H.fault_count keeper.old) (H.fault_count keeper.new) result }
    ensures leads { H.leads keeper.old keeper.new }
    ensures refused { RefusesNothing result }
{
    if commit.change.is_none() && commit.mark.is_none() {
        drop(commit);
        return Ok(());
    }
    hub.install(alloc, keeper, commit)
}

/// Does what the write of a caller with a grant asks for, under a mark if it has one, at a moment: as it is judged by
/// the newest version and the marks. Where it has a mark, its verdict is kept under it for good, in the same commit as
/// its change; only that the mark is another write's is kept nowhere. All memory is taken before the commit.
pub fn write<H: HubKeeper>(
    alloc: Global,
    hub: &mut Hub,
    keeper: &mut H,
    asking: &Asking<'_>,
    write: Write,
) -> Result<Written, HubError>
    requires fits { KeeperFits (H.stands_for keeper.old) hub.old }
    requires settled { hub.old.commit_open ≡ false }
    ensures fits { KeeperFits (H.stands_for keeper.new) hub.new }
    ensures told { (after : KeptState) → IsStanding hub.new after → (H.stands_for keeper.new after → H.stands_for keeper.old hub.old.kept) × Writes asking.now.by.now asking.now.mark write asking.now.at result hub.old.kept after }
    // What is told is the number of an outcome.
    ensures outcome { IfOk result (λ written. written.outcome ≤ deleted_outcome) }
    // What it made is the last commit, if anything.
    ensures works { Works result hub.old hub.new }
    ensures settled { LeavesOpen result hub.new.commit_open }
    ensures cause { CountsFault (H.fault_count keeper.old) (H.fault_count keeper.new) result }
    ensures leads { H.leads keeper.old keeper.new }
    ensures refused { RefusesNothing result }
{
    let table = hub.table();
    let judgement = judge(alloc, table, hub.marks(), asking, &write)?;
    let (caller, mark) = (&asking.by.caller, asking.mark);
    let written = written_by(table, mark, &write, &judgement);
    let due = commit_of(alloc, caller, mark, write, judgement, written.version)?;
    match commit(alloc, hub, keeper, due) {
        Ok(()) => Ok(written),
        Err(error) => Err(error),
    }
}
