//! The broken references of rows under changes, told by the rows that change where these tell.

ghost use Rattle.std.specs.Prelude.{◌≡◌, ◌⊎◌, IfOk, [], false, true};
ghost use Rattle.std.specs.List.{list_all, list_any};
ghost use Rattle.reference_rules.specs.Faults.{faults_of, is_cycle, type_in};
ghost use Rattle.version_changes.specs.sets.Steps.{is_one_type, keeps_type};
ghost use Rattle.version_core.specs.Changes.{change_key, rows_of};
ghost use Rattle.version_core.specs.Order.{overlaid};

use crate::sets::draft::Draft;
use reference_rules::{RefFault, faults, faults_among, has_cycle, type_in};
use roster_base::NoMemory;
use roster_types::row::Row;
use roster_types::rows::Rows;
use roster_values::Kind;
use std::alloc::Global;
use version_core::row_change::RowChange;
use version_core::view::VersionView;

// Whether two rows have one type, or neither has one.
fn are_of_one_type(row: &Row, other: &Row) -> bool
    ensures { result ≡ is_one_type (type_in row.now) (type_in other.now) }
{
    match (type_in(row), type_in(other)) {
        (Some(word), Some(other)) => word == other,
        (None, None) => true,
        _ => false,
    }
}

// Whether a change has the type of the row that stands there, where one does.
fn keeps_type(view: &VersionView, change: &RowChange) -> bool
    ensures { result ≡ keeps_type view.now.rows change.now }
{
    match view.change(change.row.kind(), change.row.id()) {
        Some(stored) => are_of_one_type(&change.row, &stored.row),
        None => true,
    }
}

// Whether no row that may be named by others changes its type.
fn keep_types(view: &VersionView, changes: &[RowChange]) -> bool
    ensures { result ≡ list_all (keeps_type view.now.rows) changes.now }
{
    changes.iter().all(|change| keeps_type(view, change))
}

// Whether the broken references of the rows that change are all: a cycle may go through rows that don't change.
fn are_all(view: &VersionView, found: &[RefFault]) -> bool
    ensures { result ≡ true → (view.now.rows ≡ []) ⊎ (list_any is_cycle found.now ≡ false) }
{
    view.is_empty() || !has_cycle(found)
}

/// The broken references of the rows as they become. Where those that stood are known to be sound and keep their types,
/// the rows that change are checked first, and the others only where these don't tell.
pub fn draft_faults(alloc: Global, draft: &Draft, is_sound: bool) -> Result<Vec<RefFault>, NoMemory>
    requires { is_sound ≡ true → faults_of (rows_of draft.now.view.now.rows) ≡ [] }
    ensures { IfOk result (λ v. v.items ≡ faults_of (rows_of (overlaid change_key draft.now.view.now.rows draft.now.changes.now))) }
{
    if !is_sound || !keep_types(draft.view, draft.changes.as_slice()) {
        return faults(alloc, draft);
    }
    // Read for its clause `order`.
    let _ = draft.count(Kind::Orgs);
    let found = faults_among(alloc, draft, draft.changes.as_slice())?;
    if !are_all(draft.view, found.as_slice()) {
        drop(found);
        return faults(alloc, draft);
    }
    Ok(found)
}
