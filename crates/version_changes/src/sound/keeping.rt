//! Whether callers keep their grants.

ghost use Rattle.std.specs.Prelude.{◌≡◌, ◌≤◌, true};
ghost use Rattle.std.specs.List.{AllByRecursion};
ghost use Rattle.std.specs.Option.{ForSome};
ghost use Rattle.roster_base.specs.Order.{RiseBy};
ghost use Rattle.version_core.specs.Grants.{AreGrants, HasGrant, caller_of};
ghost use Rattle.version_core.specs.HubStates.{KeepGrants};
ghost use Rattle.version_core.specs.Version.{versions_from};
ghost use Rattle.version_changes.specs.sound.Behind.{KeepAt, KeepBehind, grants_after, last_grants};

use crate::sound::grants::{are_grants, rise};
use roster_base::Same;
use version_core::change::{BaseVersion, Change};
use version_core::grant_row::{GrantRow, row_of_caller};

// Whether a caller has this grant.
fn has_grant(grants: &[GrantRow], row: &GrantRow) -> bool
    requires { RiseBy caller_of grants.now }
    ensures { result ≡ true → HasGrant grants.now row.now }
{
    match row_of_caller(grants, &row.caller) {
        Some(found) => found.is_same(row),
        None => false,
    }
}

// Whether a caller has this grant in a version, unless the version is older than the grant.
fn has_at(number: u64, grants: &[GrantRow], row: &GrantRow) -> bool
    requires { RiseBy caller_of grants.now }
    ensures { result ≡ true → row.now.grant.since ≤ number → HasGrant grants.now row.now }
{
    if number < row.grant.since {
        return true;
    }
    has_grant(grants, row)
}

// Whether these callers have their grants in a version, from their `since` on.
fn keep_at(number: u64, grants: &[GrantRow], newest: &[GrantRow]) -> bool
    ensures { result ≡ true → KeepAt newest.now number grants.now }
{
    if !rise(grants) {
        return false;
    }
    for row in newest {
        if !has_at(number, grants, row) {
            return false;
        }
    }
    true
}

// The grants of the version that a change leads to.
fn grants_after<'a>(grants: &'a [GrantRow], change: &'a Change) -> &'a [GrantRow]
    ensures { result.now ≡ grants_after grants.now change.now }
{
    match &change.grants {
        Some(own) => own.as_slice(),
        None => grants,
    }
}

/// The grants of the newest version.
pub(crate) fn last_grants<'a>(grants: &'a [GrantRow], changes: &'a [Change]) -> &'a [GrantRow]
    ensures { result.now ≡ last_grants grants.now changes.now }
{
    let mut current = grants;
    for change in changes {
        current = grants_after(current, change);
    }
    current
}

// Whether these callers have their grants in each version that a change leads to.
fn keep_behind(newest: &[GrantRow], grants: &[GrantRow], changes: &[Change]) -> bool
    ensures { result ≡ true → KeepBehind newest.now grants.now changes.now }
{
    let mut current = grants;
    for change in changes {
        current = grants_after(current, change);
        if !keep_at(change.version, current, newest) {
            return false;
        }
    }
    true
}

/// Whether each caller of the newest version has had its grant from the grant's `since` on.
pub(crate) fn keep_grants(base: &BaseVersion, changes: &[Change]) -> bool
    ensures { result ≡ true → KeepGrants (versions_from base.now changes.now) }
{
    let grants = base.grants.as_slice();
    let newest = last_grants(grants, changes);
    if !keep_at(base.number, grants, newest) {
        return false;
    }
    keep_behind(newest, grants, changes)
}

// Whether the grants of a change are those of its version.
fn are_own(change: &Change) -> bool
    ensures { result ≡ true → ForSome change.now.grants (AreGrants change.now.version) }
{
    match &change.grants {
        Some(own) => are_grants(change.version, own.as_slice()),
        None => true,
    }
}

/// Whether the grants of each change are those of its version.
pub(crate) fn are_all_own(changes: &[Change]) -> bool
    ensures { result ≡ true → AllByRecursion (λ change. ForSome change.grants (AreGrants change.version)) changes.now }
{
    for change in changes {
        if !are_own(change) {
            return false;
        }
    }
    true
}
