//! What paths list.

ghost use Rattle.std.specs.Prelude.{◌≡◌, ◌≤◌, true, IfOk, filter, option_copied, option_map};
ghost use Rattle.hub_spec.specs.views.Lists as spec;
ghost use Rattle.hub_spec.specs.views.Pages.{page_of, page_of_list};
ghost use Rattle.hub_spec.specs.views.Seen.{seen};
ghost use Rattle.query_pages.specs.Listed.{linked, part_of_list};
ghost use Rattle.query_pages.specs.Leading.{Leads};
ghost use Rattle.roster_types.specs.Keys.{Ascends, is_of_kind, row_key};
ghost use Rattle.version_core.specs.Changes.{rows_of};

use crate::belonging::{belongs, has_objects, id_at};
use crate::filter_test::FilterTest;
use crate::links::links_of;
use crate::list_part::{Part, part_of};
use crate::list_test::ListTest;
use crate::seen::SeenRows;
use crate::whole::{kind_part, whole_kind};
use filter_grammar::Query;
use grant_scopes::Schools;
use hub_spec::Page;
use rest_paths::{Path, Route};
use roster_base::NoMemory;
use roster_types::row::Row;
use roster_values::Kind;
use row_walks::{Steps, Walk, walk_at_schools, walk_of};
use std::alloc::Global;
use version_core::references::Refs;
use version_core::view::VersionView;

/// The rows that belong to a path and pass the filter of a query.
#[derive(Drop)]
pub struct Listed<'a, R: Refs> {
    rows: &'a R,
    path: &'a Path,
    query: &'a Query,
    // The query's filter.
    test: FilterTest<'a>,
    ghost same: { test.filter.now ≡ query.now.test },
}

impl<'a, R: Refs> ListTest for Listed<'a, R> {
    ghost use Rattle.query_pages.specs.Kinds.{listed_kind};

    ghost passes = { λ t row. spec.is_listed (R.rows t.rows.now) t.path.now t.query.now row };

    ghost kind_of = { λ t. spec.kind_of_path t.path.now };

    ghost of_kind = { λ t row e. listed_kind (R.rows t.rows.now) t.path.now t.query.now row e };

    fn kind(&self) -> Kind {
        self.path.route().lists().kind()
    }

    fn passes(&self, alloc: Global, row: &Row) -> Result<bool, NoMemory> {
        if !belongs(self.rows, self.path, row) {
            return Ok(false);
        }
        self.test.passes(alloc, row)
    }
}

// The part that a query asks for of the list of a path, all on a way through the rows; nothing where an object that the
// path names isn't among the rows.
#[tactic(auto, unfolding(hub_spec::specs::views::Lists::list_of))]
fn part<R: Steps>(
    alloc: Global,
    rows: &R,
    walk: &Walk<'_>,
    path: &Path,
    query: &Query,
) -> Result<Option<Part>, NoMemory>
    requires { Leads walk.now (R.rows rows.now) path.now }
    ensures { IfOk result (λ o. o ≡ option_map (part_of_list query.now) (spec.list_of (R.rows rows.now) path.now query.now)) }
{
    if !has_objects(rows, path) {
        return Ok(None);
    }
    let test = FilterTest::new(alloc, path.route().lists().kind(), &query.test);
    let listed = Listed {
        rows,
        path,
        query,
        test,
    };
    let part = part_of(alloc, rows, &listed, walk, query)?;
    Ok(Some(part))
}

/// The row that a path of one object names. No memory is taken.
#[tactic(auto, unfolding(hub_spec::specs::views::Lists::object_of))]
pub fn one<'r, R: Refs>(rows: &'r R, path: &Path) -> Option<&'r Row>
    requires { spec.is_single path.now.route ≡ true }
    ensures { option_copied result ≡ spec.object_of (R.rows rows.now) path.now }
{
    if !has_objects(rows, path) {
        return None;
    }
    rows.row(path.route().lists().kind(), id_at(path, 0))
}

// The page of a part, with its links.
fn linked(
    alloc: Global,
    part: Part,
    version: u64,
    path: &Path,
    query: &Query,
) -> Result<Page, NoMemory>
    requires { 1 ≤ query.now.limit }
    ensures { IfOk result (λ p. p ≡ linked part version path.now query.now) }
{
    let Part { rows, total } = part;
    let links = links_of(alloc, path, query, version, total)?;
    Ok(Page { rows, total, links })
}

// The page that a query asks for of the list of a path, all on a way through the rows.
fn page_on<R: Steps>(
    alloc: Global,
    rows: &R,
    walk: &Walk<'_>,
    version: u64,
    path: &Path,
    query: &Query,
) -> Result<Option<Page>, NoMemory>
    requires limit { 1 ≤ query.now.limit }
    requires walk { Leads walk.now (R.rows rows.now) path.now }
    ensures { IfOk result (λ o. o ≡ page_of (R.rows rows.now) version path.now query.now) }
{
    match part(alloc, rows, walk, path, query)? {
        Some(part) => Ok(Some(linked(alloc, part, version, path, query)?)),
        None => Ok(None),
    }
}

// The page that a query asks for of the list of a path among rows.
fn walked_page<R: Steps>(
    alloc: Global,
    rows: &R,
    version: u64,
    path: &Path,
    query: &Query,
) -> Result<Option<Page>, NoMemory>
    requires { 1 ≤ query.now.limit }
    ensures { IfOk result (λ o. o ≡ page_of (R.rows rows.now) version path.now query.now) }
{
    let walk = walk_of(alloc, rows, path)?;
    page_on(alloc, rows, &walk, version, path, query)
}

/// The page that a query asks for of the list of a path among the rows of a version, which the links name; nothing
/// where an object that the path names isn't among the rows.
pub fn page<R: Refs>(
    alloc: Global,
    rows: &R,
    version: u64,
    path: &Path,
    query: &Query,
) -> Result<Option<Page>, NoMemory>
    requires { 1 ≤ query.now.limit }
    ensures { IfOk result (λ o. o ≡ page_of (R.rows rows.now) version path.now query.now) }
{
    // All are seen, one after another.
    let seen = SeenRows::new(&Schools::All, rows);
    walked_page(alloc, &seen, version, path, query)
}

// Whether the rows of a route are all of a kind, or of one type.
fn is_whole(route: Route) -> bool {
    matches!(route, Route::All(_))
}

// A way through the rows that a grant at these schools sees among all, on which all stand that belong to the path.
fn seen_walk<'a, R: Refs>(
    alloc: Global,
    rows: &R,
    schools: &Schools,
    path: &'a Path,
) -> Result<Walk<'a>, NoMemory>
    ensures { IfOk result (λ w. Leads w (seen schools.now (R.rows rows.now)) path.now) }
{
    if let Schools::Listed(list) = schools {
        if is_whole(path.route()) {
            return walk_at_schools(alloc, rows, path.route().lists().kind(), list.ids());
        }
    }
    walk_of(alloc, &SeenRows::new(schools, rows), path)
}

/// The page that a query asks for of the list of a path among those rows that a grant at these schools sees; nothing
/// where an object that the path names isn't seen.
pub fn seen_page<R: Refs>(
    alloc: Global,
    rows: &R,
    schools: &Schools,
    version: u64,
    path: &Path,
    query: &Query,
) -> Result<Option<Page>, NoMemory>
    requires { 1 ≤ query.now.limit }
    ensures { IfOk result (λ o. o ≡ page_of (seen schools.now (R.rows rows.now)) version path.now query.now) }
{
    let walk = seen_walk(alloc, rows, schools, path)?;
    let seen = SeenRows::with_ancestors(alloc, schools, rows)?;
    page_on(alloc, &seen, &walk, version, path, query)
}

// The page of all rows of a kind, with its links.
fn kind_page(
    alloc: Global,
    view: &VersionView<'_>,
    kind: Kind,
    version: u64,
    path: &Path,
    query: &Query,
) -> Result<Page, NoMemory>
    requires { 1 ≤ query.now.limit }
    ensures page { IfOk result (λ p. p ≡ page_of_list path.now query.now version (filter (is_of_kind kind) (rows_of view.now.rows))) }
    ensures order { Ascends row_key (rows_of view.now.rows) }
{
    let part = kind_part(alloc, view, kind, query)?;
    linked(alloc, part, version, path, query)
}

// The page of a path among all rows of a version.
fn whole_page(
    alloc: Global,
    view: &VersionView<'_>,
    version: u64,
    path: &Path,
    query: &Query,
) -> Result<Option<Page>, NoMemory>
    requires { 1 ≤ query.now.limit }
    ensures { IfOk result (λ o. o ≡ page_of (rows_of view.now.rows) version path.now query.now) }
{
    match whole_kind(path, query) {
        Some(kind) => Ok(Some(kind_page(alloc, view, kind, version, path, query)?)),
        None => walked_page(alloc, view, version, path, query),
    }
}

/// The page that a query asks for of the list of a path among the rows that a grant at these schools sees of a version,
/// which the links name by this number; nothing where an object that the path names isn't seen.
pub fn version_page(
    alloc: Global,
    view: &VersionView<'_>,
    schools: &Schools,
    version: u64,
    path: &Path,
    query: &Query,
) -> Result<Option<Page>, NoMemory>
    requires { 1 ≤ query.now.limit }
    ensures { IfOk result (λ o. o ≡ page_of (seen schools.now (rows_of view.now.rows)) version path.now query.now) }
{
    match schools {
        Schools::All => whole_page(alloc, view, version, path, query),
        Schools::Listed(_) => seen_page(alloc, view, schools, version, path, query),
    }
}
