//! What is known of parents, taken along from row to row.

ghost use Rattle.std.specs.Prelude.{◌≡◌, IfOk, OnOk, Some};
ghost use Rattle.reference_rules.specs.Parents.{is_in_cycle};
ghost use Rattle.reference_rules.specs.Walks.{Fits};
ghost use Rattle.roster_types.specs.Keys.{look_up, row_key};

use crate::cycles::{Notes, is_in_cycle};
use crate::typed::parent_in;
use roster_base::NoMemory;
use roster_types::row::Row;
use roster_types::rows::Rows;
use roster_values::Kind;
use std::alloc::Global;
use std::collections::HashMap;

/// What is known of parents, as of the last row that named one.
#[derive(Drop)]
pub struct Walk<'a> {
    /// The kind of that row.
    pub kind: Kind,
    /// How many rows are of the kind: so many turns at most a chain takes to come back.
    pub turns: u64,
    /// What is known of the ids of the kind.
    pub notes: Notes<'a>,
}

/// The walk at the beginning of a kind, of whose rows nothing is known yet.
pub fn begun<'a, R: Rows>(alloc: Global, rows: &R, kind: Kind) -> Walk<'a>
    ensures fits { Fits (R.rows rows.now) result }
    ensures kind { result.kind ≡ kind }
{
    Walk {
        kind,
        turns: rows.count(kind),
        notes: HashMap::new(alloc),
    }
}

// Begins anew where a row is of another kind than the last one that named a parent.
fn turn_to<'a, R: Rows>(alloc: Global, rows: &R, kind: Kind, walk: &mut Walk<'a>)
    requires { Fits (R.rows rows.now) walk.old }
    ensures fits { Fits (R.rows rows.now) walk.new }
    ensures kind { walk.new.kind ≡ kind }
{
    if walk.kind != kind {
        *walk = begun(alloc, rows, kind);
    }
}

/// Whether a row is in a cycle of parents. One that names no parent leaves the walk as it is, so that no rows are
/// counted for it.
pub fn is_in_cycle_along<'a, R: Rows>(
    alloc: Global,
    rows: &'a R,
    row: &'a Row,
    walk: &mut Walk<'a>,
) -> Result<bool, NoMemory>
    requires row { look_up row_key (row_key row.now) (R.rows rows.now) ≡ Some row.now }
    requires walk { Fits (R.rows rows.now) walk.old }
    ensures walk { OnOk result (Fits (R.rows rows.now) walk.new) }
    ensures value { IfOk result (λ known. known ≡ is_in_cycle (R.rows rows.now) row.now.kind row.now.id) }
{
    let Some(_) = parent_in(row) else {
        return Ok(false);
    };
    turn_to(alloc, rows, row.kind(), walk);
    is_in_cycle(alloc, rows, row, walk.turns, &mut walk.notes)
}
