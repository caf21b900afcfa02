//! Rows that stand, that fields lead to, and that name others.

ghost use Rattle.std.specs.Prelude.{◌≡◌};
ghost use Rattle.std.specs.List.{list_any};
ghost use Rattle.hub_spec.specs.views.References as spec;
ghost use Rattle.version_core.specs.References.{is_one_of, named_in};

use crate::seen::row_test::RowTest;
use roster_texts::Id;
use roster_types::row::Row;
use roster_types::rows::Rows;
use roster_values::{Kind, ValueRef};
use version_core::references::{Refs, is_one_of};

/// Whether the field of a row names one of these ids.
pub fn names_one_of(row: &Row, name: &str, ids: &[Id]) -> bool
    ensures { result ≡ list_any (is_one_of ids.now) (named_in name.now row.now) }
{
    match row.named(name) {
        Some(ValueRef::Ref(id)) => is_one_of(ids, id),
        Some(ValueRef::Refs(named)) => have_common(named.as_slice(), ids),
        _ => false,
    }
}

// Whether one id stands in both lists.
fn have_common(named: &[Id], ids: &[Id]) -> bool
    ensures { result ≡ list_any (is_one_of ids.now) named.now }
{
    named.iter().any(|id| is_one_of(ids, id))
}

/// Whether the row of a kind and id stands and passes.
pub fn stands_where<R: Rows, T: RowTest>(rows: &R, test: &T, kind: Kind, id: &Id) -> bool
    ensures { result ≡ spec.stands_where (T.passes test.now) (R.rows rows.now) kind id.now }
{
    match rows.row(kind, id) {
        Some(row) => test.passes(row),
        None => false,
    }
}

// Whether one of these ids is that of a row of the kind that stands and passes.
fn one_stands_where<R: Rows, T: RowTest>(rows: &R, test: &T, kind: Kind, ids: &[Id]) -> bool
    ensures { result ≡ list_any (spec.stands_where (T.passes test.now) (R.rows rows.now) kind) ids.now }
{
    ids.iter().any(|id| stands_where(rows, test, kind, id))
}

/// Whether the field of a row names a row of the kind that stands and passes.
pub fn leads_to<R: Rows, T: RowTest>(rows: &R, test: &T, name: &str, kind: Kind, row: &Row) -> bool
    ensures { result ≡ spec.leads_to (T.passes test.now) (R.rows rows.now) name.now kind row.now }
{
    match row.named(name) {
        Some(ValueRef::Ref(id)) => stands_where(rows, test, kind, id),
        Some(ValueRef::Refs(ids)) => one_stands_where(rows, test, kind, ids.as_slice()),
        _ => false,
    }
}

/// Whether a row is named, by the field, in a row of the kind that passes.
pub fn is_named_by<R: Refs, T: RowTest>(
    rows: &R,
    test: &T,
    kind: Kind,
    name: &str,
    row: &Row,
) -> bool
    ensures { result ≡ spec.is_named_by (T.passes test.now) (R.rows rows.now) kind name.now row.now }
{
    let mut after = None;
    while let Some(other) = rows.referring(kind, name, row.id(), after) {
        if test.passes(other) {
            return true;
        }
        after = Some(other.id());
    }
    false
}
