//! The part of a list that a query asks for.

ghost use Rattle.std.specs.Prelude.{◌≡◌, IfOk, filter, length};
ghost use Rattle.hub_spec.specs.views.Pages.{slice};
ghost use Rattle.query_pages.specs.Listed.{listed};
ghost use Rattle.query_pages.specs.Sortings.{sorting_shown};
ghost use Rattle.filter_grammar.specs.rows.Orders.{arranged};
ghost use Rattle.row_walks.specs.Walks.{Covers};

use crate::by_id::part_by_id;
use crate::in_order::{copied, first_rows};
use crate::list_test::ListTest;
use crate::sorting::Sorting;
use filter_grammar::{Order, Query};
use roster_base::{Items, NoMemory};
use roster_types::row::Row;
use row_walks::{Steps, Walk};
use std::alloc::Global;

/// The rows of a list from an offset on, up to a limit, and the length of the whole list.
#[derive(Drop)]
pub struct Part {
    pub rows: Items<Row>,
    pub total: u64,
}

// The part that a query asks for of a list in another order than by ascending id.
fn part_sorted<R: Steps, T: ListTest>(
    alloc: Global,
    rows: &R,
    test: &T,
    walk: &Walk<'_>,
    query: &Query,
    sorting: Sorting<'_>,
) -> Result<Part, NoMemory>
    requires { Covers walk.now (T.passes test.now) (R.rows rows.now) }
    ensures rows { IfOk result (λ p. p.rows ≡ slice query.now.limit query.now.offset (arranged (sorting_shown sorting.entry) (filter (T.passes test.now) (R.rows rows.now)))) }
    ensures total { IfOk result (λ p. p.total ≡ length (arranged (sorting_shown sorting.entry) (filter (T.passes test.now) (R.rows rows.now)))) }
{
    let count = query.offset.saturating_add(query.limit);
    let first = first_rows(alloc, rows, test, walk, sorting, count)?;
    Ok(Part {
        rows: copied(alloc, &first.rows, query.offset, query.limit)?,
        total: first.total,
    })
}

/// The part that a query asks for of the rows that pass a test, all on a way through the rows, in the order that it
/// asks for.
pub fn part_of<R: Steps, T: ListTest>(
    alloc: Global,
    rows: &R,
    test: &T,
    walk: &Walk<'_>,
    query: &Query,
) -> Result<Part, NoMemory>
    requires { Covers walk.now (T.passes test.now) (R.rows rows.now) }
    ensures rows { IfOk result (λ p. p.rows ≡ slice query.now.limit query.now.offset (listed (T.kind_of test.now) query.now (T.passes test.now) (R.rows rows.now))) }
    ensures total { IfOk result (λ p. p.total ≡ length (listed (T.kind_of test.now) query.now (T.passes test.now) (R.rows rows.now))) }
{
    match Sorting::of(test.kind(), query) {
        Sorting::ById(Order::Asc) => part_by_id(alloc, rows, test, walk, query),
        sorting => part_sorted(alloc, rows, test, walk, query, sorting),
    }
}
