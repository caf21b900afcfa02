//! Whether grants are those of a version.

ghost use Rattle.std.specs.Prelude.{◌≡◌, ◌≤◌, None, bytes_eq, drop, map, nat_le, true};
ghost use Rattle.std.specs.Cmp.Lexicographic.{slice_cmp};
ghost use Rattle.std.specs.List.{AllByRecursion, IsDistinct, list_all};
ghost use Rattle.std.specs.Ordering.{is_lt, nat_cmp};
ghost use Rattle.roster_base.specs.Order.{RiseBy};
ghost use Rattle.version_core.specs.Grants.{AreGrants, caller_of, grant_of, token_of};

use version_core::grant_row::{GrantRow, row_of_token};

// Whether one caller stands in front of another in the order of their names.
fn is_below(low: &GrantRow, high: &GrantRow) -> bool
    ensures { result ≡ is_lt (slice_cmp nat_cmp low.now.caller high.now.caller) }
{
    low.caller.as_str().cmp(high.caller.as_str()).is_lt()
}

/// Whether each caller stands in front of the next, in the order of their names.
pub(crate) fn rise(grants: &[GrantRow]) -> bool
    ensures { result ≡ true → RiseBy caller_of grants.now }
{
    for place in 1..grants.len() {
        if !is_below(&grants[place - 1], &grants[place]) {
            return false;
        }
    }
    true
}

// Whether no grant is newer than the version of this number.
fn are_up_to(number: u64, grants: &[GrantRow]) -> bool
    ensures { result ≡ list_all (λ row. nat_le row.grant.since number) grants.now }
{
    grants.iter().all(|row| row.grant.since <= number)
}

// Whether each grant is as new as this version or newer, as a test of the list.
fn are_from(first: u64, grants: &[GrantRow]) -> bool
    ensures { result ≡ list_all (λ row. nat_le first row.grant.since) grants.now }
{
    grants.iter().all(|row| first <= row.grant.since)
}

// Whether none of the others has the row's token.
fn is_alone(row: &GrantRow, others: &[GrantRow]) -> bool
    ensures { result ≡ true → grant_of row.now.grant.token others.now ≡ None }
{
    row_of_token(others, row.grant.token.as_str()).is_none()
}

// The grants from a place on.
fn later(grants: &[GrantRow], place: usize) -> &[GrantRow]
    ensures { result.now ≡ drop place grants.now }
{
    if grants.len() < place {
        return &[];
    }
    &grants[place..]
}

// Whether no two callers have one token.
fn tokens_differ(grants: &[GrantRow]) -> bool
    ensures { result ≡ true → IsDistinct bytes_eq (map token_of grants.now) }
{
    for place in 0..grants.len() {
        if !is_alone(&grants[place], later(grants, place + 1)) {
            return false;
        }
    }
    true
}

/// Whether each caller has its grant since this version or a later one.
pub(crate) fn are_since(first: u64, grants: &[GrantRow]) -> bool
    ensures { result ≡ true → AllByRecursion (λ row. first ≤ row.grant.since) grants.now }
{
    are_from(first, grants)
}

/// Whether these are grants of the version of this number.
pub(crate) fn are_grants(number: u64, grants: &[GrantRow]) -> bool
    ensures { result ≡ true → AreGrants number grants.now }
{
    if !rise(grants) {
        return false;
    }
    if !tokens_differ(grants) {
        return false;
    }
    are_up_to(number, grants)
}
