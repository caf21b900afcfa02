//! What a write is answered with, and what is kept of it.

ghost use Rattle.std.specs.Prelude.{◌≡◌, IfOk, option_map};
ghost use Rattle.gradebook_core.specs.Judging.{verdict_of};
ghost use Rattle.gradebook_core.specs.Outcomes.{outcome_number};
ghost use Rattle.gradebook_core.specs.Writing.{change_in, commit_of, written_by};
ghost use Rattle.hub_spec.specs.rules.Written as spec;
ghost use Rattle.version_core.specs.Version.{newest_of};
ghost use Rattle.version_core.specs.declared.change.BaseVersion.{BaseVersion};

use crate::judgement::Judgement;
use crate::outcome::Outcome;
use keeper_memory::HubCommit;
use roster_base::{NoMemory, TryCopy};
use roster_texts::Name;
use std::alloc::Global;
use version_core::change::Change;
use version_core::mark::{Kept, MarkRow, Write};
use version_core::table::Table;

/// What became of a write: its outcome, the number of the newest version after it, and whether both are kept under its
/// mark. The outcome is the number of an `Outcome`. For a write that its mark tells of already, outcome and version are
/// those that were kept.
#[derive(Clone, Copy, Debug, PartialEq, Eq)]
pub struct Written {
    pub outcome: u8,
    pub version: u64,
    pub kept: bool,
}

// The outcome of a write that is done.
fn done_of(write: &Write) -> Outcome
    ensures { outcome_number result ≡ spec.done_of write.now }
{
    if write.delete {
        Outcome::Deleted
    } else {
        Outcome::Stored
    }
}

/// What a write is told of its judgement.
pub fn written_by(table: &Table, mark: Option<u64>, write: &Write, judgement: &Judgement) -> Written
    ensures { result ≡ written_by (newest_of table.now) mark write.now judgement.now }
{
    match judgement {
        Judgement::New(change) => Written {
            outcome: done_of(write).number(),
            version: change.version,
            kept: mark.is_some(),
        },
        Judgement::Same => Written {
            outcome: done_of(write).number(),
            version: table.newest(),
            kept: mark.is_some(),
        },
        Judgement::Repeat(held) => Written {
            outcome: held.outcome,
            version: held.version,
            kept: mark.is_some(),
        },
        Judgement::Refused(check) => Written {
            outcome: check.number(),
            version: table.newest(),
            kept: mark.is_some() && check.is_kept(),
        },
    }
}

// The outcome that is to be kept of a judgement.
fn outcome_of(write: &Write, judgement: &Judgement) -> Option<Outcome>
    ensures { (newest : BaseVersion) → option_map outcome_number result ≡ spec.outcome_of write.now (verdict_of newest judgement.now) }
{
    match judgement {
        Judgement::New(_) | Judgement::Same => Some(done_of(write)),
        Judgement::Refused(check) if check.is_kept() => Some(Outcome::Refused(*check)),
        _ => None,
    }
}

// The mark that keeps an outcome, where the write has a mark.
fn kept_mark(
    alloc: Global,
    caller: &Name,
    mark: Option<u64>,
    write: Write,
    version: u64,
    outcome: Option<Outcome>,
) -> Result<Option<MarkRow>, NoMemory>
    ensures { IfOk result (λ m. m ≡ spec.kept_mark caller.now mark write version (option_map outcome_number outcome)) }
{
    match (mark, outcome) {
        (Some(number), Some(outcome)) => Ok(Some(MarkRow {
            caller: caller.copy(alloc)?,
            number,
            write,
            kept: Kept {
                outcome: outcome.number(),
                version,
            },
        })),
        _ => Ok(None),
    }
}

// The change of a new version.
fn change_in(judgement: Judgement) -> Option<Change>
    ensures { result ≡ change_in judgement }
{
    match judgement {
        Judgement::New(change) => Some(change),
        _ => None,
    }
}

/// What is to be made of a judgement: its change, and the mark that keeps it.
pub fn commit_of(
    alloc: Global,
    caller: &Name,
    mark: Option<u64>,
    write: Write,
    judgement: Judgement,
    version: u64,
) -> Result<HubCommit, NoMemory>
    ensures { (newest : BaseVersion) → IfOk result (λ commit. commit ≡ commit_of newest caller.now mark write judgement version) }
{
    let outcome = outcome_of(&write, &judgement);
    match kept_mark(alloc, caller, mark, write, version, outcome) {
        Ok(mark) => Ok(HubCommit {
            change: change_in(judgement),
            mark,
        }),
        Err(error) => {
            drop(judgement);
            Err(error)
        }
    }
}
