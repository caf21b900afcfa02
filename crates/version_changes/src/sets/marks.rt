//! Rows that a set leaves out.

ghost use Rattle.std.specs.Prelude.{◌≡◌, ◌++◌, IfOk, OnOk, filter, option_to_list};
ghost use Rattle.roster_types.specs.Keys.{Ascends, Key, is_of_kind, look_up};
ghost use Rattle.version_changes.specs.sets.Applying.{is_active, is_bulk, is_left_out, is_whole, marked, set_key};
ghost use Rattle.version_changes.specs.sets.Steps.{mark_at, mark_of, marks_of};
ghost use Rattle.version_core.specs.Changes.{AreChanges, change_key, rows_of};

use crate::sets::index::is_listed;
use crate::sets::listed::is_own;
use roster_base::{NoMemory, TryCopy};
use roster_texts::Moment;
use roster_types::set::{RosterSet, SetPart};
use roster_types::set_row::SetRow;
use roster_types::status::Status;
use roster_values::{Kind, Mode};
use std::alloc::Global;
use version_core::row_change::RowChange;
use version_core::view::VersionView;

// Whether a file lists all rows that its feed has of the kind.
fn is_bulk(mode: Mode) -> bool
    ensures { result ≡ is_bulk mode }
{
    match mode {
        Mode::Bulk => true,
        Mode::Delta => false,
    }
}

/// Whether a row of this status is there, and not marked as deleted.
pub fn is_active(status: Status) -> bool
    ensures { result ≡ is_active status }
{
    match status {
        Status::Active => true,
        Status::ToBeDeleted => false,
    }
}

// Whether a part lists all rows that the feed has of the kind.
fn is_whole(parts: &[SetPart], kind: Kind) -> bool
    ensures { result ≡ is_whole parts.now kind }
{
    parts.iter().any(|part| part.kind.place() == kind.place() && is_bulk(part.mode))
}

// Whether a stored row, where the set doesn't list it, is taken for one that the feed has no longer.
fn is_left_out(set: &RosterSet, stored: &RowChange) -> bool
    ensures { result ≡ is_left_out set.now stored.now }
{
    is_whole(set.parts(), stored.row.kind())
        && is_own(set.feed(), &stored.owner)
        && is_active(stored.row.status())
}

/// The row of a change, marked as deleted at a moment; its owner stays.
pub fn marked(alloc: Global, at: Moment, stored: &RowChange) -> Result<RowChange, NoMemory>
    ensures { IfOk result (λ change. change ≡ marked at stored.now) }
{
    // The owner first, so that no row is dropped where memory runs out.
    let owner = stored.owner.copy(alloc)?;
    let row = stored.row.copy(alloc)?;
    let row = row.marked(at);
    Ok(RowChange { row, owner })
}

// The mark of a stored row, where it is left out. It is looked for among the listed rows at the place `near` first.
fn mark_of(
    alloc: Global,
    set: &RosterSet,
    listed: &[SetRow],
    stored: &RowChange,
    at: Moment,
    near: &mut usize,
) -> Result<Option<RowChange>, NoMemory>
    requires { Ascends set_key listed.now }
    ensures { IfOk result (λ mark. mark ≡ mark_of set.now at (look_up set_key (change_key stored.now) listed.now) stored.now) }
{
    if is_listed(listed, stored.row.kind(), stored.row.id(), near) {
        return Ok(None);
    }
    if !is_left_out(set, stored) {
        return Ok(None);
    }
    Ok(Some(marked(alloc, at, stored)?))
}

// Adds a mark, where there is one.
fn add_mark(marks: &mut Vec<RowChange>, mark: Option<RowChange>) -> Result<(), NoMemory>
    ensures { OnOk result (marks.new.items ≡ marks.old.items ++ option_to_list mark) }
{
    match mark {
        Some(mark) => Ok(marks.push(mark)?),
        None => Ok(()),
    }
}

// Adds the marks of the rows of one kind.
fn add_marks(
    view: &VersionView,
    set: &RosterSet,
    listed: &[SetRow],
    at: Moment,
    kind: Kind,
    marks: &mut Vec<RowChange>,
) -> Result<(), NoMemory>
    requires { Ascends set_key listed.now }
    ensures { OnOk result (marks.new.items ≡ marks.old.items ++ marks_of set.now at listed.now view.now.rows (filter (is_of_kind kind) (rows_of view.now.rows))) }
{
    // The rows of a kind are gone through only where the set may leave some out.
    if !is_whole(set.parts(), kind) {
        return Ok(());
    }
    let alloc = *marks.allocator();
    // Where the last look-ups among the listed rows and the stored ones ended.
    let mut listed_near = 0;
    let mut stored_near = 0;
    let mut after = None;
    while let Some(stored) = view.next_change_near(kind, after, &mut stored_near) {
        let mark = mark_of(alloc, set, listed, stored, at, &mut listed_near)?;
        add_mark(marks, mark)?;
        after = Some(stored.row.id());
    }
    Ok(())
}

/// The marks of the rows that a set leaves out where it lists these, in the order of kinds and ids. The set may be bare
/// of its rows.
pub fn marks_of(
    alloc: Global,
    view: &VersionView,
    set: &RosterSet,
    listed: &[SetRow],
    at: Moment,
) -> Result<Vec<RowChange>, NoMemory>
    requires { Ascends set_key listed.now }
    ensures order { IfOk result (λ v. AreChanges v.items) }
    ensures marks { IfOk result (λ v. (k : Key) → look_up change_key k v.items ≡ mark_at set.now at listed.now view.now.rows k) }
{
    let mut marks = Vec::new(alloc);
    for kind in Kind::ALL {
        add_marks(view, set, listed, at, kind, &mut marks)?;
    }
    // Read for its clause `sorted`.
    let _ = view.next_change(Kind::Orgs, None);
    Ok(marks)
}
