//! Rows that refer to others.

ghost use Rattle.std.specs.Prelude.{◌≡◌, option_copied};
ghost use Rattle.roster_types.specs.Keys.{Ascends, row_key};
ghost use Rattle.version_core.specs.References as spec;

use roster_texts::Id;
use roster_types::row::Row;
use roster_types::rows::Rows;
use roster_values::{Kind, ValueRef};

/// Rows that are found by what they refer to. No call takes memory.
pub trait Refs: Rows {
    ghost use Rattle.std.specs.Prelude.{◌≡◌, ◌<◌, option_copied};
    ghost use Rattle.roster_types.specs.Keys.{Ascends, count_of, row_key};
    ghost use Rattle.roster_values.specs.declared.kind.Kind.{Kind as Kinds};
    ghost use Rattle.version_core.specs.References.{next_referring};

    /// The row of this kind with the least id above `after`, or with the least of all, whose field `name` names the
    /// target. `name` is a JSON name; a field that holds no references names nothing.
    fn referring(&self, kind: Kind, name: &str, target: &Id, after: Option<&Id>) -> Option<&Row>
        ensures next { option_copied result ≡ next_referring kind name.now target.now (option_copied after.entry) (Self.rows self.now) }
        ensures order { Ascends row_key (Self.rows self.now) };

    /// The rows ascend, and a `u64` counts those of each kind. Nothing is done: the call is for its clauses.
    fn ascend(&self)
        ensures order { Ascends row_key (Self.rows self.now) }
        ensures few { (kind : Kinds) → count_of kind (Self.rows self.now) < 18446744073709551616 };
}

/// Whether an id is one of these.
pub fn is_one_of(ids: &[Id], id: &Id) -> bool
    ensures { result ≡ spec.is_one_of ids.now id.now }
{
    ids.iter().any(|other| other.as_str() == id.as_str())
}

/// Whether the field of this name in a row names the id.
pub fn names(row: &Row, name: &str, id: &Id) -> bool
    ensures { result ≡ spec.names name.now id.now row.now }
{
    match row.named(name) {
        Some(ValueRef::Ref(other)) => other.as_str() == id.as_str(),
        Some(ValueRef::Refs(ids)) => is_one_of(ids.as_slice(), id),
        _ => false,
    }
}

/// What `Refs::referring` answers, by a look at each row of the kind above `after`.
pub fn next_referring<'r, R: Rows>(
    rows: &'r R,
    kind: Kind,
    name: &str,
    target: &Id,
    after: Option<&Id>,
) -> Option<&'r Row>
    requires { Ascends row_key (R.rows rows.now) }
    ensures { option_copied result ≡ spec.next_referring kind name.now target.now (option_copied after.entry) (R.rows rows.now) }
{
    let mut after = after;
    while let Some(row) = rows.next(kind, after) {
        if names(row, name, target) {
            return Some(row);
        }
        after = Some(row.id());
    }
    None
}
