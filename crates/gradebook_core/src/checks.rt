//! The checks of a write, one by one.

ghost use Rattle.std.specs.Prelude.{◌≡◌, option_copied};
ghost use Rattle.hub_spec.specs.rules.Refusals as spec;
ghost use Rattle.version_core.specs.Changes.{rows_of};

use crate::fields::grading_period;
use roster_texts::Name;
use roster_types::owner::Owner;
use roster_types::row::Row;
use roster_types::rows::Rows;
use roster_values::{Kind, ValueRef};
use version_changes::limits::ROW_LIMIT;
use version_core::row_change::RowChange;
use version_core::view::VersionView;

// Whether the caller owns the row.
fn is_of(caller: &Name, owner: &Owner) -> bool
    ensures { result ≡ spec.is_of caller.now owner.now }
{
    match owner {
        Owner::Caller(name) => name.as_str() == caller.as_str(),
        Owner::Feed(_) => false,
    }
}

/// Whether a row stands already, and belongs to another than the caller.
pub fn is_of_other(caller: &Name, stored: Option<&RowChange>) -> bool
    ensures { result ≡ spec.is_of_other caller.now (option_copied stored.entry) }
{
    match stored {
        Some(change) => !is_of(caller, &change.owner),
        None => false,
    }
}

// Whether the session has the type of a grading period.
fn is_grading_period(session: &Row) -> bool
    ensures { result ≡ spec.is_grading_period session.now }
{
    match session.named("type") {
        Some(ValueRef::Word(word)) => word == "gradingPeriod",
        _ => false,
    }
}

/// Whether what a row names as its grading period is one.
pub fn has_grading_period(view: &VersionView<'_>, row: &Row) -> bool
    ensures { result ≡ spec.has_grading_period (rows_of view.now.rows) row.now }
{
    let Some(id) = grading_period(row) else {
        return true;
    };
    match view.row(Kind::AcademicSessions, id) {
        Some(session) => is_grading_period(session),
        None => false,
    }
}

/// Whether the kind has as many rows as it may have, and this would be one more.
pub fn is_one_too_many(view: &VersionView<'_>, kind: Kind, stored: Option<&RowChange>) -> bool
    ensures { result ≡ spec.is_one_too_many (rows_of view.now.rows) kind (option_copied stored.entry) }
{
    match stored {
        Some(_) => false,
        None => view.count(kind) >= ROW_LIMIT,
    }
}
