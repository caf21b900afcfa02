//! Commits taken into a table and marks.

ghost use Rattle.std.specs.Option.{ForSome};
ghost use Rattle.std.specs.Prelude.{◌≡◌, OnErr, OnOk, Some, is_some, map};
ghost use Rattle.version_core.specs.Changes.{change_key};
ghost use Rattle.version_core.specs.Marks.{mark_at};
ghost use Rattle.version_core.specs.Tables.{AreTables};
ghost use Rattle.keeper_memory.specs.Commits.{CanCommit, with_commit};
ghost use Rattle.keeper_memory.specs.Kept.{kept_by};
ghost use Rattle.hub_core.specs.Hub.{kept_in};
ghost use Rattle.hub_core.specs.Made.{has_commit, taken_in};
ghost use Rattle.hub_core.specs.Room.{HasRoomFor, StaysAsItIs};

use keeper_memory::HubCommit;
use keeper_memory::hub_commit::{add_change, add_mark};
use roster_base::{NoMemory, TryCopy};
use roster_texts::Name;
use std::alloc::Global;
use version_core::change::Change;
use version_core::hub_tables::HubTables;
use version_core::mark::MarkRow;
use version_core::marks::Marks;
use version_core::table::Table;

// Makes room for a change, where there is one.
fn make_room_in_table(table: &mut Table, change: &Option<Change>) -> Result<(), NoMemory>
    ensures keep { table.new.keep ≡ table.old.keep }
    ensures versions { table.new.versions ≡ table.old.versions }
    ensures room { OnOk result (ForSome change.now (λ change. table.new.room ≡ Some (map change_key change.rows))) }
{
    match change {
        Some(change) => table.reserve(change),
        None => Ok(()),
    }
}

/// Makes room for a commit, so that taking it in takes no memory.
pub fn make_room(table: &mut Table, marks: &mut Marks, commit: &HubCommit) -> Result<(), NoMemory>
    ensures same { StaysAsItIs table.old table.new marks.old marks.new }
    ensures room { OnOk result (HasRoomFor commit.now table.new marks.new) }
{
    make_room_in_table(table, &commit.change)?;
    marks.reserve()
}

/// Takes a commit in. No memory is taken.
pub fn take_in(table: &mut Table, marks: &mut Marks, commit: HubCommit)
    requires room { HasRoomFor commit table.old marks.old }
    requires can { CanCommit (kept_in table.old marks.old.marks) commit }
    ensures { kept_in table.new marks.new.marks ≡ with_commit (kept_in table.old marks.old.marks) commit }
{
    let HubCommit { change, mark } = commit;
    add_change(table, change);
    add_mark(marks, mark);
}

// Whether the mark of a caller and a number is among these.
fn has_mark(marks: &[MarkRow], caller: &Name, number: u64) -> bool
    ensures { result ≡ is_some (mark_at (caller.now, number) marks.now) }
{
    for mark in marks {
        if caller.as_str() == mark.caller.as_str() && number == mark.number {
            return true;
        }
    }
    false
}

// Whether tables have the version that a commit leads to or, for a mark alone, the mark.
fn has_commit(tables: &HubTables, commit: &HubCommit) -> bool
    requires { AreTables tables.now }
    ensures { result ≡ has_commit (kept_by tables.now) commit.now }
{
    if let Some(change) = &commit.change {
        return change.version <= tables.base.number + tables.changes.as_slice().len() as u64;
    }
    match &commit.mark {
        Some(mark) => has_mark(tables.marks.as_slice(), &mark.caller, mark.number),
        None => false,
    }
}

/// Whether a commit was taken in.
pub fn is_made(table: &Table, marks: &Marks, commit: &HubCommit) -> bool
    ensures { result ≡ has_commit (kept_in table.now marks.now.marks) commit.now }
{
    if let Some(change) = &commit.change {
        return change.version <= table.newest();
    }
    match &commit.mark {
        Some(mark) => marks.get(&mark.caller, mark.number).is_some(),
        None => false,
    }
}

/// Takes in a copy of a commit that tables have. Where they lack it, all stays as it was.
pub fn take_in_made(
    alloc: Global,
    table: &mut Table,
    marks: &mut Marks,
    commit: &HubCommit,
    tables: &HubTables,
) -> Result<(), NoMemory>
    requires tables { AreTables tables.now }
    requires can { CanCommit (kept_in table.old marks.old.marks) commit.now }
    ensures ok { OnOk result (kept_in table.new marks.new.marks ≡ taken_in (has_commit (kept_by tables.now) commit.now) (kept_in table.old marks.old.marks) commit.now) }
    ensures err { OnErr result (StaysAsItIs table.old table.new marks.old marks.new) }
{
    if !has_commit(tables, commit) {
        return Ok(());
    }
    let commit = commit.copy(alloc)?;
    make_room(table, marks, &commit)?;
    take_in(table, marks, commit);
    Ok(())
}
