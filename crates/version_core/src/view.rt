//! One version, read.

ghost use Rattle.std.specs.Prelude.{◌≡◌, ◌≤◌, [], true, count_by, filter, find, is_some, length, nat_le, nat_lt};
ghost use Rattle.std.specs.Prelude.{option_copied, option_map, slice_get};
ghost use Rattle.std.specs.List.{AllByRecursion, prefix_len};
ghost use Rattle.roster_types.specs.Keys.{is_of_kind, look_up};
ghost use Rattle.version_core.specs.Changes.{AreChanges, change_key, is_next, rows_of};
ghost use Rattle.roster_values.specs.Kinds.{place_of_kind};
ghost use Rattle.version_core.specs.Grants.{grant_of, grant_row_of};
ghost use Rattle.version_core.specs.View.{earlier};
ghost use Rattle.version_core.specs.History.{ArePasts, AreUpTo, IsPast, history_key, is_past_of, past_of, pasts_of};
ghost use Rattle.version_core.specs.History.{rows_at};
ghost use Rattle.version_core.specs.Since.{standing};
ghost use Rattle.version_core.specs.Version.{IsVersion};

use crate::grant_row::{GrantRow, row_of_caller, row_of_token};
use crate::histories::{following, following_near, found, found_near};
use crate::history::History;
use crate::ref_index::{Naming, RefRun, indexed};
use crate::references::{Refs, next_referring};
use crate::row_change::RowChange;
use crate::sorted::compare;
use grant_scopes::Grant;
use roster_texts::{Id, Moment, Name};
use roster_types::owner::Owner;
use roster_types::row::Row;
use roster_types::rows::Rows;
use roster_values::Kind;
use std::cmp::Ordering;
use std::marker::Model;

/// One version of a table: the rows of the histories that stand at it, and its grants. No call takes memory. A clause
/// sees the version.
#[derive(Drop)]
pub struct VersionView<'a> {
    pub(crate) version: u64,
    pub(crate) moment: Moment,
    /// Whether no row is younger than the version, so that each history has one that stands.
    pub(crate) newest: bool,
    pub(crate) histories: &'a [History],
    pub(crate) grants: &'a [GrantRow],
    /// The index of what the rows name.
    pub(crate) refs: &'a [RefRun],
    /// Whether the index has all that they name.
    pub(crate) is_indexed: bool,
}

impl<'a> Model for VersionView<'a> {
    ghost use Rattle.version_core.specs.declared.change.BaseVersion.{BaseVersion};

    ghost Value = { BaseVersion };

    ghost use Rattle.version_core.specs.View.{version_of, IsView};

    ghost view = { version_of };

    ghost invariant = { IsView };
}

/// Of a change and a row the one that comes first by kind and id, and the change where both have the same.
pub fn earlier<'a>(
    change: Option<&'a RowChange>,
    row: Option<&'a RowChange>,
) -> Option<&'a RowChange>
    ensures { option_copied result ≡ earlier (option_copied change.entry) (option_copied row.entry) }
{
    match (change, row) {
        (None, row) => row,
        (Some(change), None) => Some(change),
        (Some(change), Some(row)) => {
            match compare(change, row) {
                Ordering::Greater => Some(row),
                _ => Some(change),
            }
        }
    }
}

// How many histories are of kinds before the one at this place.
fn count_before(histories: &[History], place: u64) -> usize
    requires { ArePasts (pasts_of histories.now) }
    ensures count { result ≡ prefix_len (λ history. nat_lt (history_key history).0 place) histories.now }
    ensures bound { result ≤ length histories.now }
{
    histories.partition_point(|history| history.place() < place)
}

// How many histories are of kinds up to the one at this place.
fn count_through(histories: &[History], place: u64) -> usize
    requires { ArePasts (pasts_of histories.now) }
    ensures count { result ≡ prefix_len (λ history. nat_le (history_key history).0 place) histories.now }
    ensures bound { result ≤ length histories.now }
{
    histories.partition_point(|history| history.place() <= place)
}

/// The histories of this kind, which lie side by side.
pub(crate) fn histories_of_kind(histories: &[History], kind: Kind) -> &[History]
    requires { ArePasts (pasts_of histories.now) }
    ensures { result.now ≡ filter (is_past_of kind) histories.now }
{
    let place = kind.place() as u64;
    &histories[count_before(histories, place)..count_through(histories, place)]
}

// How many of the histories have a row that stands at a version.
fn count_standing(histories: &[History], version: u64) -> u64
    ensures { result ≡ count_by (λ history. is_some (standing version (past_of history))) histories.now }
{
    histories
        .iter()
        .filter(|history| history.at(version).is_some())
        .count() as u64
}

// The row that stands in a history at a version.
fn standing_row(history: &History, version: u64) -> Option<&Row>
    ensures { option_copied result ≡ option_map (λ change. change.row) (standing version (past_of history.now)) }
{
    Some(&history.at(version)?.row)
}

// The row before which so many stand at a version, where each history has one that stands.
fn row_of_each(histories: &[History], version: u64, place: u64) -> Option<&Row>
    requires pasts { AllByRecursion IsPast (pasts_of histories.now) }
    requires newest { AreUpTo version (pasts_of histories.now) }
    ensures { option_copied result ≡ slice_get (rows_of (rows_at version (pasts_of histories.now))) place }
{
    if place >= histories.len() as u64 {
        return None;
    }
    standing_row(&histories[place as usize], version)
}

// The row before which so many stand at a version, where histories may have none that stands: they are gone through one
// by one.
fn row_of_some(histories: &[History], version: u64, place: u64) -> Option<&Row>
    ensures { option_copied result ≡ slice_get (rows_of (rows_at version (pasts_of histories.now))) place }
{
    let mut left = place;
    for history in histories {
        let Some(row) = standing_row(history, version) else {
            continue;
        };
        if left == 0 {
            return Some(row);
        }
        left -= 1;
    }
    None
}

impl<'a> VersionView<'a> {
    /// Whether it is told that the version has no rows. One whose rows are all younger isn't told.
    pub fn is_empty(&self) -> bool
        ensures { result ≡ true → self.now.rows ≡ [] }
    {
        self.histories.is_empty()
    }

    /// When the version was published.
    pub fn moment(&self) -> Moment
        ensures { result ≡ self.now.moment }
    {
        self.moment
    }

    /// The grants, in the order of their callers.
    pub fn grants(&self) -> &[GrantRow]
        ensures grants { result.now ≡ self.now.grants }
        ensures version { IsVersion self.now }
    {
        self.grants
    }

    /// The grant of this caller.
    pub fn grant(&self, caller: &Name) -> Option<&Grant>
        ensures { option_copied result ≡ option_map (λ row. row.grant) (grant_row_of caller.now self.now.grants) }
    {
        Some(&row_of_caller(self.grants(), caller)?.grant)
    }

    /// The caller that has this token, with its grant.
    pub fn caller_of(&self, token: &str) -> Option<(&Name, &Grant)>
        ensures { option_map (λ found. record { caller = found.0.now; grant = found.1.now }) result ≡ grant_of token.now self.now.grants }
    {
        let row = row_of_token(self.grants(), token)?;
        Some((&row.caller, &row.grant))
    }

    /// The row of this kind and id, with its owner.
    pub fn change(&self, kind: Kind, id: &Id) -> Option<&RowChange>
        ensures { option_copied result ≡ look_up change_key (place_of_kind kind, id.now) self.now.rows }
    {
        found(self.histories, self.version, kind, id)
    }

    /// As `change`, where `near` is the place at which the last look-up ended: begin with 0. Of rows asked for in their
    /// order each is found in one step. Any other value is as right, and only slower.
    pub fn change_near(&self, kind: Kind, id: &Id, near: &mut usize) -> Option<&RowChange>
        ensures { option_copied result ≡ look_up change_key (place_of_kind kind, id.now) self.now.rows }
    {
        found_near(self.histories, self.version, kind, id, near)
    }

    /// The row of this kind with the least id above `after`, or with the least of all, with its owner.
    pub fn next_change(&self, kind: Kind, after: Option<&Id>) -> Option<&RowChange>
        ensures next { option_copied result ≡ find (λ change. is_next kind (option_copied after.entry) change.row) self.now.rows }
        ensures sorted { AreChanges self.now.rows }
    {
        following(self.histories, self.version, kind, after)
    }

    /// As `next_change`, where `near` is the place at which the last look-up ended: begin with 0. Where `after` is the
    /// row found last, the next is found in one step. Any other value is as right, and only slower.
    pub fn next_change_near(
        &self,
        kind: Kind,
        after: Option<&Id>,
        near: &mut usize,
    ) -> Option<&RowChange>
        ensures next { option_copied result ≡ find (λ change. is_next kind (option_copied after.entry) change.row) self.now.rows }
        ensures sorted { AreChanges self.now.rows }
    {
        following_near(self.histories, self.version, kind, after, near)
    }

    /// The row of this kind before which so many of the kind stand. In the newest version it is found at once.
    pub fn row_at(&self, kind: Kind, place: u64) -> Option<&Row>
        ensures { option_copied result ≡ slice_get (filter (is_of_kind kind) (rows_of self.now.rows)) place }
    {
        let histories = histories_of_kind(self.histories, kind);
        if self.newest {
            return row_of_each(histories, self.version, place);
        }
        row_of_some(histories, self.version, place)
    }

    /// The owner of the row of this kind and id.
    pub fn owner(&self, kind: Kind, id: &Id) -> Option<&Owner>
        ensures { option_copied result ≡ option_map (λ change. change.owner) (look_up change_key (place_of_kind kind, id.now) self.now.rows) }
    {
        Some(&found(self.histories, self.version, kind, id)?.owner)
    }
}

impl<'a> Rows for VersionView<'a> {
    ghost rows = { λ version. rows_of version.rows };

    #[tactic(auto, using(crate::proofs::RowsOf::rows_of_look_ups))]
    fn row(&self, kind: Kind, id: &Id) -> Option<&Row> {
        Some(&found(self.histories, self.version, kind, id)?.row)
    }

    #[tactic(auto, using(crate::proofs::RowsOf::rows_of_look_ups))]
    fn next(&self, kind: Kind, after: Option<&Id>) -> Option<&Row> {
        Some(&following(self.histories, self.version, kind, after)?.row)
    }

    fn count(&self, kind: Kind) -> u64 {
        let histories = histories_of_kind(self.histories, kind);
        if self.newest {
            return histories.len() as u64;
        }
        count_standing(histories, self.version)
    }
}

impl<'a> Refs for VersionView<'a> {
    fn referring(&self, kind: Kind, name: &str, target: &Id, after: Option<&Id>) -> Option<&Row> {
        if self.is_indexed {
            let asked = Naming { kind, name, target };
            return indexed(self.histories, self.version, self.refs, &asked, after);
        }
        next_referring(self, kind, name, target, after)
    }

    fn ascend(&self) {
        // Read for the invariant.
        let _ = &self.histories;
    }
}
