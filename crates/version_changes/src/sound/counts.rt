//! Whether no version has too many rows.

ghost use Rattle.std.specs.Prelude.{◌≡◌, ◌+◌, ◌<◌, ◌≤◌, IfSome, cond, is_some, length, take, true};
ghost use Rattle.std.specs.List.{AllByRecursion, list_any};
ghost use Rattle.roster_types.specs.Keys.{count_of, is_of_kind, look_up, row_key};
ghost use Rattle.roster_values.specs.declared.kind.Kind.{Kind as Kinds};
ghost use Rattle.version_changes.specs.sets.Steps.{added, is_added};
ghost use Rattle.version_core.specs.Changes.{AreChanges, change_key, rows_of};
ghost use Rattle.version_core.specs.Version.{row_limit};
ghost use Rattle.version_changes.specs.sound.Behind.{AreFew, rows_behind};

use crate::limits::ROW_LIMIT;
use roster_types::row::Row;
use roster_types::rows::Rows;
use roster_values::Kind;
use version_core::change::Change;
use version_core::row_change::RowChange;
use version_core::sorted::found;
use version_core::sorted_rows::SortedRows;

// Whether a row is of the kind.
fn is_of_kind(kind: Kind, row: &Row) -> bool
    ensures { result ≡ is_of_kind kind row.now }
{
    row.kind().place() == kind.place()
}

// Whether a row has the kind and the id of another.
fn has_row(rows: &SortedRows, row: &Row) -> bool
    ensures { result ≡ is_some (look_up change_key (row_key row.now) rows.now) }
{
    found(rows.as_slice(), row.kind(), row.id()).is_some()
}

// Whether one of the changes has a row with the kind and the id of another.
fn any_has(changes: &[Change], row: &Row) -> bool
    ensures { result ≡ list_any (λ change. is_some (look_up change_key (row_key row.now) change.rows)) changes.now }
{
    changes.iter().any(|change| has_row(&change.rows, row))
}

// Whether a change is of the kind, and of no row that stands after the earlier changes.
fn is_new(kind: Kind, base: &SortedRows, earlier: &[Change], change: &RowChange) -> bool
    ensures { result ≡ is_added kind (rows_behind base.now earlier.now) change.now }
{
    if !is_of_kind(kind, &change.row) {
        return false;
    }
    if has_row(base, &change.row) {
        return false;
    }
    !any_has(earlier, &change.row)
}

// How many rows of the kind one change adds: 1 where it is of a new one, and else 0.
fn new_count(kind: Kind, base: &SortedRows, earlier: &[Change], change: &RowChange) -> u64
    ensures count { result ≡ cond (is_added kind (rows_behind base.now earlier.now) change.now) 1 0 }
    ensures one { result ≤ 1 }
{
    if is_new(kind, base, earlier, change) {
        1
    } else {
        0
    }
}

// How many rows of the kind these changes add.
fn added(kind: Kind, base: &SortedRows, earlier: &[Change], changes: &[RowChange]) -> u64
    ensures { result ≡ added kind (rows_behind base.now earlier.now) changes.now }
{
    let mut count = 0;
    for change in changes {
        count += new_count(kind, base, earlier, change);
    }
    count
}

// The sum of both, where a kind may have so many rows.
fn sum_of(count: u64, more: u64) -> Option<u64>
    ensures sum { IfSome result (λ sum. sum ≡ count + more) }
    ensures few { IfSome result (λ sum. sum ≤ row_limit) }
{
    let sum = count.checked_add(more)?;
    if sum <= ROW_LIMIT { Some(sum) } else { None }
}

// The changes before a place.
fn earlier(changes: &[Change], place: usize) -> &[Change]
    ensures { result.now ≡ take place changes.now }
{
    if changes.len() < place {
        return changes;
    }
    &changes[..place]
}

// How many rows of the kind stand after one change more, where they aren't too many.
fn count_after(
    kind: Kind,
    base: &SortedRows,
    changes: &[Change],
    place: usize,
    count: u64,
) -> Option<u64>
    requires rows { AreChanges base.now }
    requires place { place < length changes.now }
    requires count { count ≡ count_of kind (rows_of (rows_behind base.now (take place changes.now))) }
    ensures count { IfSome result (λ n. n ≡ count_of kind (rows_of (rows_behind base.now (take (place + 1) changes.now)))) }
    ensures few { IfSome result (λ n. n ≤ row_limit) }
{
    let change = &changes[place];
    let more = added(kind, base, earlier(changes, place), change.rows.as_slice());
    sum_of(count, more)
}

// Whether none of the versions behind the base has too many of the kind.
fn few_from(kind: Kind, base: &SortedRows, changes: &[Change], first: u64) -> bool
    requires rows { AreChanges base.now }
    requires first { first ≡ count_of kind (rows_of base.now) }
    requires few { first ≤ row_limit }
    ensures { result ≡ true → AreFew kind base.now changes.now }
{
    let mut count = first;
    for place in 0..changes.len() {
        count = match count_after(kind, base, changes, place, count) {
            Some(next) => next,
            None => return false,
        };
    }
    true
}

// How many rows of the kind the base has, where they aren't too many.
fn first_count(kind: Kind, base: &SortedRows) -> Option<u64>
    ensures count { IfSome result (λ n. n ≡ count_of kind (rows_of base.now)) }
    ensures few { IfSome result (λ n. n ≤ row_limit) }
{
    sum_of(base.count(kind), 0)
}

// Whether no version has too many rows of a kind.
fn few_of(kind: &Kind, base: &SortedRows, changes: &[Change]) -> bool
    requires { AreChanges base.now }
    ensures { result ≡ true → AreFew kind.now base.now changes.now }
{
    match first_count(*kind, base) {
        Some(first) => few_from(*kind, base, changes, first),
        None => false,
    }
}

// Whether no version has too many rows of one of these kinds.
fn all_few(kinds: &[Kind], base: &SortedRows, changes: &[Change]) -> bool
    requires { AreChanges base.now }
    ensures { result ≡ true → AllByRecursion (λ kind. AreFew kind base.now changes.now) kinds.now }
{
    for kind in kinds {
        if !few_of(kind, base, changes) {
            return false;
        }
    }
    true
}

/// Whether no version has too many rows of any kind.
pub(crate) fn are_few(base: &SortedRows, changes: &[Change]) -> bool
    requires { AreChanges base.now }
    ensures { result ≡ true → (kind : Kinds) → AreFew kind base.now changes.now }
{
    all_few(&Kind::ALL, base, changes)
}
