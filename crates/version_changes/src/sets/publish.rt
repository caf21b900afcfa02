//! Sets applied to the newest version.

ghost use Rattle.std.specs.Prelude.{IfOk, ◌≡◌, true};
ghost use Rattle.std.specs.Option.{ForSome};
ghost use Rattle.roster_types.specs.Keys.{Ascends, Key, look_up};
ghost use Rattle.version_changes.specs.sets.Applying.{Answers, LeadsOn, rows_in, set_key};
ghost use Rattle.version_changes.specs.sets.Steps.{ChangesAt, IsSound, led_to};
ghost use Rattle.version_core.specs.Changes.{AreChanges, change_key};
ghost use Rattle.version_core.specs.Order.{overlaid};
ghost use Rattle.version_core.specs.Version.{newest_of};

use crate::limits::LAST_VERSION;
use crate::sets::draft::Draft;
use crate::sets::index::{bare_parts, ordered_rows};
use crate::sets::listed::listed_changes;
use crate::sets::marks::marks_of;
use crate::sets::publish_fault::PublishFault;
use crate::sets::refusals::{owned_by_other, refusal_of};
use roster_base::{NoMemory, Refusal};
use roster_texts::Moment;
use roster_types::set::RosterSet;
use roster_types::set_row::SetRow;
use std::alloc::Global;
use version_core::change::Change;
use version_core::merge::merge;
use version_core::row_change::RowChange;
use version_core::sorted_rows::SortedRows;
use version_core::table::Table;
use version_core::view::VersionView;

// Marks with the changes of listed rows over them.
fn merged(alloc: Global, marks: Vec<RowChange>, listed: SortedRows) -> Result<SortedRows, NoMemory>
    requires { AreChanges marks.items }
    ensures { IfOk result (λ v. v ≡ overlaid change_key marks.items listed) }
{
    let mut marks = marks;
    let mut listed = listed.into_vec();
    let mut changes = Vec::new(alloc);
    let room = marks.len().checked_add(listed.len()).ok_or(NoMemory)?;
    changes.reserve(room)?;
    merge(&mut marks, &mut listed, &mut changes);
    Ok(SortedRows::from_vec(changes))
}

// What a set changes where it lists these rows, which move into the changes. The set may be bare of its rows.
fn changes_of(
    alloc: Global,
    view: &VersionView,
    set: &RosterSet,
    rows: Vec<SetRow>,
    at: Moment,
) -> Result<SortedRows, NoMemory>
    requires { Ascends set_key rows.items }
    ensures { IfOk result (λ changes. (k : Key) → ChangesAt set.now at (look_up set_key k rows.items) (look_up change_key k view.now.rows) (look_up change_key k changes)) }
{
    let marks = marks_of(alloc, view, set, &rows, at)?;
    let listed = listed_changes(alloc, view, set.feed(), rows, at)?;
    merged(alloc, marks, listed)
}

/// The rows that a set changes, each as it becomes.
pub fn changed_rows(
    alloc: Global,
    view: &VersionView,
    set: RosterSet,
    at: Moment,
) -> Result<SortedRows, NoMemory>
    ensures { IfOk result (λ changes. (k : Key) → ChangesAt set at (look_up set_key k (rows_in set)) (look_up change_key k view.now.rows) (look_up change_key k changes)) }
{
    let (feed, parts) = set.into_parts();
    let bare = bare_parts(alloc, parts.as_slice())?;
    let bare = RosterSet::new(feed, bare);
    // Put in order once, for the marks and for the changes.
    let rows = ordered_rows(alloc, parts)?;
    changes_of(alloc, view, &bare, rows, at)
}

/// What a set makes of the newest version of a table, where it is published at a moment: the change to the next
/// version, or nothing where no row changes. Its faults are those of `PublishFault`, the first of them.
pub fn set_change(
    alloc: Global,
    table: &Table,
    set: RosterSet,
    at: Moment,
) -> Result<Option<Change>, Refusal<PublishFault>>
    ensures change { Answers (newest_of table.now) set at result }
    ensures next { IfOk result (λ change. ForSome change (LeadsOn (newest_of table.now))) }
    ensures sound { IfOk result (λ change. IsSound (led_to (newest_of table.now) change)) }
{
    set_change_over(alloc, table, false, set, at)
}

/// What a set makes of the newest version of a table, as `set_change` says, for a caller who may know that this version
/// is sound, as each is that a set led to: then the references of the rows that the set changes are mostly all that is
/// checked.
pub fn set_change_over(
    alloc: Global,
    table: &Table,
    is_sound: bool,
    set: RosterSet,
    at: Moment,
) -> Result<Option<Change>, Refusal<PublishFault>>
    requires { is_sound ≡ true → IsSound (newest_of table.now) }
    ensures change { Answers (newest_of table.now) set at result }
    ensures next { IfOk result (λ change. ForSome change (LeadsOn (newest_of table.now))) }
    ensures sound { IfOk result (λ change. IsSound (led_to (newest_of table.now) change)) }
{
    let view = table.newest_rows();
    // Asked while the set has its rows: they move into the change.
    let owned = owned_by_other(alloc, &view, &set)?;
    let rows = changed_rows(alloc, &view, set, at)?;
    let draft = Draft {
        view: &view,
        changes: &rows,
    };
    if let Some(fault) = owned {
        return Err(Refusal::Fault(fault));
    }
    if let Some(fault) = refusal_of(alloc, &draft, is_sound)? {
        return Err(Refusal::Fault(fault));
    }
    if rows.as_slice().is_empty() {
        return Ok(None);
    }
    if table.newest() == LAST_VERSION {
        return Err(Refusal::Fault(PublishFault::LastVersion));
    }
    Ok(Some(Change {
        version: table.newest() + 1,
        moment: at,
        rows,
        grants: None,
    }))
}
