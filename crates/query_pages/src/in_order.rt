//! Rows with what they are sorted by.

ghost use Rattle.std.specs.Prelude.{◌≡◌, ◌≤◌, ◌*◌, ◌++◌, IfOk, OnOk, [], ◌∷◌, filter, length};
ghost use Rattle.hub_spec.specs.views.Pages.{slice};
ghost use Rattle.query_pages.specs.Firsts.{first};
ghost use Rattle.query_pages.specs.Placed.{AreKeyed, rows_placed};
ghost use Rattle.query_pages.specs.Sortings.{sorting_shown};
ghost use Rattle.filter_grammar.specs.rows.Orders.{arranged};
ghost use Rattle.row_walks.specs.Walks.{Covers};

use crate::list_test::ListTest;
use crate::sorting::{Sorting, directed};
use filter_grammar::SortKey;
use roster_base::{Items, NoMemory, TryCopy};
use roster_types::row::Row;
use row_walks::{Steps, Walk};
use std::alloc::Global;

/// A row, and the key by which it is sorted.
#[derive(Drop)]
pub struct Placed<'r> {
    pub key: SortKey,
    pub row: &'r Row,
}

/// The first rows of a list in an order, and the length of the whole list.
#[derive(Drop)]
pub struct First<'r> {
    pub rows: Vec<Placed<'r>>,
    pub total: u64,
}

/// The first `count` rows of a list in an order, or all where there are fewer. `walk` is a way through the rows on
/// which the whole list stands.
pub fn first_rows<'r, R: Steps, T: ListTest>(
    alloc: Global,
    rows: &'r R,
    test: &T,
    walk: &Walk<'_>,
    sorting: Sorting<'_>,
    count: u64,
) -> Result<First<'r>, NoMemory>
    requires { Covers walk.now (T.passes test.now) (R.rows rows.now) }
    ensures rows { IfOk result (λ f. rows_placed f.rows.items ≡ first count (sorting_shown sorting.entry) (filter (T.passes test.now) (R.rows rows.now))) }
    ensures total { IfOk result (λ f. f.total ≡ length (filter (T.passes test.now) (R.rows rows.now))) }
{
    // Read for the order of the rows, and for the bound of their number, by which the count doesn't wrap.
    rows.ascend();
    let mut found = Vec::new(alloc);
    let mut total: u64 = 0;
    // Where the walk stands, so that the next row is found in a step.
    let mut near = 0;
    let mut after = None;
    while let Some(row) = walk.next(rows, after, &mut near) {
        after = Some(row.id());
        if !test.passes(alloc, row)? {
            continue;
        }
        add(alloc, sorting, count, row, &mut found)?;
        total += 1;
    }
    cut(sorting, count, &mut found)?;
    Ok(First { rows: found, total })
}

// Adds a row with its key. Whenever twice `count` rows have come, only the first `count` stay, so that a long list
// takes no more memory than twice `count` rows do.
fn add<'r>(
    alloc: Global,
    sorting: Sorting<'_>,
    count: u64,
    row: &'r Row,
    found: &mut Vec<Placed<'r>>,
) -> Result<(), NoMemory>
    requires { AreKeyed (sorting_shown sorting) found.old.items }
    ensures rows { OnOk result (first count (sorting_shown sorting.entry) (rows_placed found.new.items) ≡ first count (sorting_shown sorting.entry) (rows_placed found.old.items ++ row.now ∷ [])) }
    ensures keys { OnOk result (AreKeyed (sorting_shown sorting.entry) found.new.items) }
    ensures few { OnOk result (length found.new.items ≤ 2 * count) }
{
    let key = sorting.key(alloc, row)?;
    found.push(Placed { key, row })?;
    if found.len() as u64 / 2 < count {
        return Ok(());
    }
    cut(sorting, count, found)
}

// Puts rows in order, and lets go of those behind the first `count`.
fn cut(sorting: Sorting<'_>, count: u64, rows: &mut Vec<Placed<'_>>) -> Result<(), NoMemory>
    requires { AreKeyed (sorting_shown sorting) rows.old.items }
    ensures rows { OnOk result (rows_placed rows.new.items ≡ first count (sorting_shown sorting.entry) (rows_placed rows.old.items)) }
    ensures keys { OnOk result (AreKeyed (sorting_shown sorting.entry) rows.new.items) }
{
    sort(sorting, rows)?;
    rows.truncate(count as usize);
    Ok(())
}

// Sorts rows by their keys; those with equal keys stay as they stand.
fn sort(sorting: Sorting<'_>, rows: &mut Vec<Placed<'_>>) -> Result<(), NoMemory>
    requires { AreKeyed (sorting_shown sorting) rows.old.items }
    ensures rows { OnOk result (rows_placed rows.new.items ≡ arranged (sorting_shown sorting.entry) (rows_placed rows.old.items)) }
    ensures keys { OnOk result (AreKeyed (sorting_shown sorting.entry) rows.new.items) }
{
    let order = sorting.order();
    rows.sort_by(|one, other| directed(order, one.key.compare(&other.key)))?;
    Ok(())
}

/// Copies of the rows from `offset` on, at most `limit` of them.
pub fn copied(
    alloc: Global,
    rows: &[Placed<'_>],
    offset: u64,
    limit: u64,
) -> Result<Items<Row>, NoMemory>
    ensures { IfOk result (λ v. v ≡ slice limit offset (rows_placed rows.now)) }
{
    let mut found = Items::new(alloc);
    for placed in within(rows, offset, limit) {
        found.push(placed.row.copy(alloc)?)?;
    }
    Ok(found)
}

// The items from `offset` on, at most `limit` of them.
fn within<'s, T>(items: &'s [T], offset: u64, limit: u64) -> &'s [T]
    ensures { result.now ≡ slice limit offset items.now }
{
    let len = items.len();
    if offset >= len as u64 {
        return &items[len..];
    }
    let start = offset as usize;
    let rest = &items[start..];
    if limit >= rest.len() as u64 {
        return rest;
    }
    &rest[..limit as usize]
}
