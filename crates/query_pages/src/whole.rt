//! All rows of a kind, found by their places.

ghost use Rattle.std.specs.Prelude.{◌≡◌, true, IfOk, IfSome, filter, length, option_copied, take};
ghost use Rattle.hub_spec.specs.views.Pages.{IsPlain, slice, whole};
ghost use Rattle.query_pages.specs.Whole.{rows_from};
ghost use Rattle.roster_types.specs.Keys.{Ascends, is_of_kind, row_key};
ghost use Rattle.version_core.specs.Changes.{rows_of};

use crate::list_part::Part;
use filter_grammar::Query;
use rest_paths::{Collection, Path, Route};
use roster_base::{Items, NoMemory, TryCopy};
use roster_types::row::Row;
use roster_types::rows::Rows;
use roster_values::Kind;
use row_walks::Steps;
use std::alloc::Global;
use version_core::view::VersionView;

// Whether a query neither filters nor sorts.
fn is_plain(query: &Query) -> bool
    ensures { result ≡ true → IsPlain query.now }
{
    query.test.is_none() && query.sort.is_none() && query.order_by.is_none()
}

/// The kind of which a path and a query list all rows, by their ids; nothing where they may list others.
pub fn whole_kind(path: &Path, query: &Query) -> Option<Kind>
    ensures path { IfSome result (λ kind. path.now ≡ whole kind) }
    ensures query { IfSome result (λ kind. IsPlain query.now) }
{
    if !path.ids().is_empty() || !is_plain(query) {
        return None;
    }
    match path.route() {
        Route::All(Collection::Of(kind)) => Some(kind),
        _ => None,
    }
}

// Copies of a row and of those of its kind behind it, at most so many.
fn copied_from(
    alloc: Global,
    view: &VersionView<'_>,
    kind: Kind,
    first: Option<&Row>,
    limit: u64,
) -> Result<Items<Row>, NoMemory>
    requires { Ascends row_key (rows_of view.now.rows) }
    ensures { IfOk result (λ v. v ≡ take limit (rows_from kind (option_copied first.entry) (rows_of view.now.rows))) }
{
    let mut found = Vec::new(alloc);
    let mut near = 0;
    let mut next = first;
    while let Some(row) = next {
        if found.len() as u64 >= limit {
            break;
        }
        found.push(row.copy(alloc)?)?;
        next = view.next_near(kind, Some(row.id()), &mut near);
    }
    Ok(Items::from_vec(found))
}

/// The part that a query asks for of all rows of a kind, by their ids. The rows before it aren't gone through.
pub fn kind_part(
    alloc: Global,
    view: &VersionView<'_>,
    kind: Kind,
    query: &Query,
) -> Result<Part, NoMemory>
    ensures rows { IfOk result (λ p. p.rows ≡ slice query.now.limit query.now.offset (filter (is_of_kind kind) (rows_of view.now.rows))) }
    ensures total { IfOk result (λ p. p.total ≡ length (filter (is_of_kind kind) (rows_of view.now.rows))) }
    ensures order { Ascends row_key (rows_of view.now.rows) }
{
    let total = view.count(kind);
    let first = view.row_at(kind, query.offset);
    let rows = copied_from(alloc, view, kind, first, query.limit)?;
    Ok(Part { rows, total })
}
