//! What listed rows change.

ghost use Rattle.std.specs.Prelude.{◌≡◌, IfOk, OnOk, option_copied};
ghost use Rattle.std.specs.Bool.{Decides};
ghost use Rattle.roster_types.specs.Keys.{Ascends, Key, look_up};
ghost use Rattle.version_changes.specs.sets.Applying.{is_own, set_key};
ghost use Rattle.version_changes.specs.sets.Steps.{IsListedChange, Leaves, ListedChangeAt, stored_as, with_change};
ghost use Rattle.version_core.specs.Changes.{change_key};

use roster_base::{NoMemory, Same, TryCopy};
use roster_texts::{Moment, Name};
use roster_types::owner::Owner;
use roster_types::set_row::SetRow;
use std::alloc::Global;
use version_core::row_change::RowChange;
use version_core::sorted_rows::SortedRows;
use version_core::view::VersionView;

/// Whether an owner is this feed.
pub fn is_own(feed: &Name, owner: &Owner) -> bool
    ensures { result ≡ is_own feed.now owner.now }
{
    match owner {
        Owner::Feed(name) => name.as_str() == feed.as_str(),
        Owner::Caller(_) => false,
    }
}

// Whether a listed row leaves what stands under its kind and id.
fn leaves(feed: &Name, listed: &SetRow, stored: &RowChange) -> bool
    ensures { Decides result (Leaves feed.now listed.now.dated listed.now.row stored.now) }
{
    if listed.dated {
        return is_own(feed, &stored.owner) && listed.row.is_same(&stored.row);
    }
    listed.row.is_same_but_date(&stored.row)
}

// A listed row as it is stored where it doesn't leave what stands.
fn stored_as(feed: Name, listed: SetRow, at: Moment) -> RowChange
    ensures { result ≡ stored_as feed at listed }
{
    let owner = Owner::Feed(feed);
    let SetRow { row, dated } = listed;
    if dated {
        return RowChange { row, owner };
    }
    let row = row.dated(at);
    RowChange { row, owner }
}

// The change that a listed row is, or nothing where it leaves what stands.
fn listed_change(
    alloc: Global,
    feed: &Name,
    listed: SetRow,
    stored: Option<&RowChange>,
    at: Moment,
) -> Result<Option<RowChange>, NoMemory>
    ensures { IfOk result (IsListedChange feed.now at listed (option_copied stored.entry)) }
{
    if let Some(stored) = stored {
        if leaves(feed, &listed, stored) {
            drop(listed);
            return Ok(None);
        }
    }
    match feed.copy(alloc) {
        Ok(feed) => Ok(Some(stored_as(feed, listed, at))),
        Err(error) => {
            // By name, since the check goes through the structs of all kinds where a row is dropped unnamed.
            drop(listed);
            Err(error)
        }
    }
}

// Puts a change in its place, where there is one.
fn add_change(changes: &mut SortedRows, change: Option<RowChange>) -> Result<(), NoMemory>
    ensures { OnOk result (changes.new ≡ with_change change changes.old) }
{
    match change {
        Some(change) => changes.put(change),
        None => Ok(()),
    }
}

/// What the rows of a set change, in the order of kinds and ids. The rows move into the changes.
pub fn listed_changes(
    alloc: Global,
    view: &VersionView,
    feed: &Name,
    rows: Vec<SetRow>,
    at: Moment,
) -> Result<SortedRows, NoMemory>
    requires { Ascends set_key rows.items }
    ensures { IfOk result (λ changes. (k : Key) → ListedChangeAt feed.now at (look_up set_key k rows.items) (look_up change_key k view.now.rows) (look_up change_key k changes)) }
{
    let mut changes = SortedRows::new(alloc);
    // The listed rows are in order, so each stands right behind the one before.
    let mut near = 0;
    for listed in rows {
        let stored = view.change_near(listed.row.kind(), listed.row.id(), &mut near);
        let change = listed_change(alloc, feed, listed, stored, at)?;
        add_change(&mut changes, change)?;
    }
    Ok(changes)
}
