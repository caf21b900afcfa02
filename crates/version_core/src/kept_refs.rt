//! Entries of an index of references that rows still bear out.

ghost use Rattle.std.specs.Prelude.{◌≡◌, ◌<◌, drop, length};
ghost use Rattle.version_core.specs.History.{ArePasts, pasts_of};
ghost use Rattle.version_core.specs.RefIndex as spec;
ghost use Rattle.version_core.specs.References as references;
ghost use Rattle.version_core.specs.Since.{first_from, some_from};

use crate::history::History;
use crate::ref_index::RefEntry;
use crate::references::is_one_of;
use crate::row_change::RowChange;
use crate::since::{Since, standing};
use roster_texts::Id;
use roster_types::row::Row;
use roster_values::ValueRef;
use roster_values::fields::fields;

/// Whether the field at a place of a row names the id.
pub fn names_at(row: &Row, place: u64, id: &Id) -> bool
    ensures { result ≡ references.names_at place id.now row.now }
{
    if place >= fields(row.kind()).len() as u64 {
        return false;
    }
    match row.value(place as usize) {
        Some(ValueRef::Ref(other)) => other.as_str() == id.as_str(),
        Some(ValueRef::Refs(others)) => is_one_of(others.as_slice(), id),
        _ => false,
    }
}

// Whether the row at a place stands at some version from this one on, and names the target in the field at a place.
fn names_from(rows: &[Since<RowChange>], at: usize, version: u64, place: u64, target: &Id) -> bool
    requires { at < length rows.now }
    ensures { result ≡ first_from version (λ change. references.names_at place target.now change.row) (drop at rows.now) }
{
    let since = &rows[at];
    if !names_at(&since.value.row, place, target) {
        return false;
    }
    standing(&rows[at + 1..], since.version.max(version)).is_none()
}

// Whether one of the rows stands at some version from this one on, and names the target in the field at a place.
fn some_names_from(rows: &[Since<RowChange>], version: u64, place: u64, target: &Id) -> bool
    ensures { result ≡ some_from version (λ change. references.names_at place target.now change.row) rows.now }
{
    for at in 0..rows.len() {
        if names_from(rows, at, version, place, target) {
            return true;
        }
    }
    false
}

/// Whether a row that stands at some version from the oldest on names what the entry says that it names.
pub fn is_kept(histories: &[History], oldest: u64, entry: &RefEntry) -> bool
    requires { ArePasts (pasts_of histories.now) }
    ensures { result ≡ spec.is_kept oldest (pasts_of histories.now) entry.now }
{
    match histories.binary_search_by(|history| history.compare(entry.kind, &entry.id)) {
        Ok(at) => some_names_from(histories[at].rows(), oldest, entry.place, &entry.target),
        Err(_) => false,
    }
}
