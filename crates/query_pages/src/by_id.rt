//! Parts of lists by ascending id.

ghost use Rattle.std.specs.Prelude.{◌≡◌, IfOk, OnOk, filter, length};
ghost use Rattle.hub_spec.specs.views.Pages.{slice};
ghost use Rattle.roster_types.specs.Keys.{Ascends, row_key};
ghost use Rattle.row_walks.specs.Parts.{with_row};
ghost use Rattle.row_walks.specs.Walks.{Covers};

use crate::list_part::Part;
use crate::list_test::ListTest;
use filter_grammar::Query;
use roster_base::{Items, NoMemory, TryCopy};
use roster_types::row::Row;
use row_walks::{Steps, Walk};
use std::alloc::Global;

/// The part that a query asks for of a list by id, all on a way through the rows. Rows outside of it are counted, and
/// not copied.
pub fn part_by_id<R: Steps, T: ListTest>(
    alloc: Global,
    rows: &R,
    test: &T,
    walk: &Walk<'_>,
    query: &Query,
) -> Result<Part, NoMemory>
    requires { Covers walk.now (T.passes test.now) (R.rows rows.now) }
    ensures rows { IfOk result (λ p. p.rows ≡ slice query.now.limit query.now.offset (filter (T.passes test.now) (R.rows rows.now))) }
    ensures total { IfOk result (λ p. p.total ≡ length (filter (T.passes test.now) (R.rows rows.now))) }
    ensures order { Ascends row_key (R.rows rows.now) }
{
    // Read for the order of the rows, and for the bound of their number, by which the count doesn't wrap.
    rows.ascend();
    let mut found = Vec::new(alloc);
    let mut total: u64 = 0;
    // Where the walk stands, so that the next row is found in a step.
    let mut near = 0;
    let mut after = None;
    while let Some(row) = walk.next(rows, after, &mut near) {
        after = Some(row.id());
        if !test.passes(alloc, row)? {
            continue;
        }
        add_within(alloc, query, total, row, &mut found)?;
        total += 1;
    }
    Ok(Part {
        rows: Items::from_vec(found),
        total,
    })
}

// Adds a copy of the row, before which so many stand, where the query asks for it.
fn add_within(
    alloc: Global,
    query: &Query,
    before: u64,
    row: &Row,
    found: &mut Vec<Row>,
) -> Result<(), NoMemory>
    ensures { OnOk result (found.new.items ≡ with_row query.now.limit query.now.offset before row.now found.old.items) }
{
    if query.offset <= before && (found.len() as u64) < query.limit {
        found.push(row.copy(alloc)?)?;
    }
    Ok(())
}
