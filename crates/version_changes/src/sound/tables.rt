//! Whether tables stand for a state of a hub.

ghost use Rattle.std.specs.Prelude.{◌≡◌, ◌+◌, ◌≤◌, length, true};
ghost use Rattle.std.specs.List.{AllByRecursion};
ghost use Rattle.version_core.specs.Changes.{AreChanges};
ghost use Rattle.version_core.specs.Table.{LeadOn};
ghost use Rattle.version_core.specs.Tables.{AreTables};
ghost use Rattle.version_core.specs.Version.{IsVersion, last_version, versions_from};

use crate::limits::LAST_VERSION;
use crate::sound::changes::{are_kept, is_first, leads_on};
use crate::sound::counts::are_few;
use crate::sound::grants::{are_grants, are_since};
use crate::sound::keeping::{are_all_own, keep_grants, last_grants};
use crate::sound::marks::are_marks;
use version_core::change::{BaseVersion, Change};
use version_core::hub_tables::HubTables;
use version_core::mark::MarkRow;

// Whether so many versions may stand behind this one.
fn fits(number: u64, count: usize) -> bool
    ensures { result ≡ true → number + count ≤ last_version }
{
    match number.checked_add(count as u64) {
        Some(newest) => newest <= LAST_VERSION,
        None => false,
    }
}

// Shows that the rows of each change stand in order: their type keeps it.
fn see_order(changes: &[Change])
    ensures { AllByRecursion (λ change. AreChanges change.rows) changes.now }
{
    for change in changes {
        // Read for its order.
        let _ = change.rows.as_slice();
    }
}

// Whether each change leads to a version.
fn are_versions(base: &BaseVersion, changes: &[Change]) -> bool
    ensures fits { result ≡ true → base.now.number + length changes.now ≤ last_version }
    ensures lead { result ≡ true → LeadOn base.now.number changes.now }
    ensures versions { result ≡ true → AllByRecursion IsVersion (versions_from base.now changes.now) }
{
    if !fits(base.number, changes.len()) {
        return false;
    }
    if !leads_on(base.number, changes) {
        return false;
    }
    if !are_grants(base.number, base.grants.as_slice()) {
        return false;
    }
    if !are_all_own(changes) {
        return false;
    }
    // Read for its order.
    let _ = base.rows.as_slice();
    are_few(&base.rows, changes)
}

// The number of the newest version.
fn newest_number(number: u64, count: usize) -> u64
    requires { number + count ≤ last_version }
    ensures { result ≡ number + count }
{
    number + count as u64
}

// Whether these parts are those of tables that stand for a state.
fn are_parts(keep: u32, base: &BaseVersion, changes: &[Change], marks: &[MarkRow]) -> bool
    ensures { result ≡ true → AreTables (record { keep = keep; base = base.now; changes = changes.now; marks = marks.now }) }
{
    if !are_versions(base, changes) {
        return false;
    }
    if !are_kept(base.number, changes.len(), keep) {
        return false;
    }
    if !is_first(base) {
        return false;
    }
    if !keep_grants(base, changes) {
        return false;
    }
    if !are_since(1, last_grants(base.grants.as_slice(), changes)) {
        return false;
    }
    see_order(changes);
    are_marks(newest_number(base.number, changes.len()), marks)
}

/// Tests whether these tables stand for a state of a hub: where it answers true, they do. No memory is taken.
pub fn are_tables(tables: &HubTables) -> bool
    ensures { result ≡ true → AreTables tables.now }
{
    are_parts(
        tables.keep,
        &tables.base,
        tables.changes.as_slice(),
        tables.marks.as_slice(),
    )
}
