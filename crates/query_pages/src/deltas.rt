//! Pages of what differs between two versions of what a grant sees.

ghost use Rattle.std.specs.Prelude.{◌≡◌, ◌≤◌, ◌+◌, ◌<◌, ◌^◌, IfOk};
ghost use Rattle.delta_parts.specs.Parts.{part_of_delta};
ghost use Rattle.hub_spec.specs.views.Deltas.{kind_delta, page_of_delta};
ghost use Rattle.hub_spec.specs.views.Lists.{kind_of_path};
ghost use Rattle.hub_spec.specs.views.Seen.{seen};
ghost use Rattle.query_pages.specs.Listed.{delta_linked};
ghost use Rattle.roster_types.specs.Keys.{count_of};
ghost use Rattle.version_core.specs.Changes.{rows_of};

use crate::links::links_of;
use crate::seen::SeenRows;
use delta_parts::{DeltaPart, Paging, delta_part, delta_part_among};
use filter_grammar::Query;
use grant_scopes::Schools;
use hub_spec::DeltaPage;
use rest_paths::Path;
use roster_base::NoMemory;
use roster_values::Kind;
use std::alloc::Global;
use version_core::references::Refs;
use version_core::span::Span;

// The part that a query asks for of what differs between all rows of a kind. Only the rows that changed are looked at.
fn whole_part(
    alloc: Global,
    span: &Span<'_>,
    kind: Kind,
    query: &Query,
) -> Result<DeltaPart, NoMemory>
    ensures { IfOk result (λ p. p ≡ part_of_delta query.now.limit query.now.offset (kind_delta kind (rows_of span.now.before.rows) (rows_of span.now.after.rows))) }
{
    let before = span.before();
    let after = span.after();
    // Read for the number of their rows, and their order.
    let _ = before.grants();
    let _ = after.grants();
    let ids = span.changed_ids(alloc, kind)?;
    let paging = Paging {
        limit: query.limit,
        offset: query.offset,
    };
    let part = delta_part_among(alloc, before, after, kind, &ids, paging)?;
    Ok(part)
}

// The part that a query asks for of what differs between the rows of a kind that a grant at these schools sees. A row
// may come into sight that didn't change, so all are gone through.
fn seen_part<A: Refs, B: Refs>(
    alloc: Global,
    before: &A,
    after: &B,
    schools: &Schools,
    kind: Kind,
    query: &Query,
) -> Result<DeltaPart, NoMemory>
    requires { count_of kind (seen schools.now (A.rows before.now)) + count_of kind (seen schools.now (B.rows after.now)) + 1 < 2 ^ 64 }
    ensures { IfOk result (λ p. p ≡ part_of_delta query.now.limit query.now.offset (kind_delta kind (seen schools.now (A.rows before.now)) (seen schools.now (B.rows after.now)))) }
{
    let old = SeenRows::with_ancestors(alloc, schools, before)?;
    let new = SeenRows::with_ancestors(alloc, schools, after)?;
    let paging = Paging {
        limit: query.limit,
        offset: query.offset,
    };
    let part = delta_part(alloc, &old, &new, kind, paging)?;
    Ok(part)
}

// The part of what a grant at these schools sees.
fn part(
    alloc: Global,
    span: &Span<'_>,
    schools: &Schools,
    kind: Kind,
    query: &Query,
) -> Result<DeltaPart, NoMemory>
    ensures { IfOk result (λ p. p ≡ part_of_delta query.now.limit query.now.offset (kind_delta kind (seen schools.now (rows_of span.now.before.rows)) (seen schools.now (rows_of span.now.after.rows)))) }
{
    match schools {
        Schools::All => whole_part(alloc, span, kind, query),
        Schools::Listed(_) => {
            let before = span.before();
            let after = span.after();
            // Read for the number of their rows.
            let _ = before.grants();
            let _ = after.grants();
            seen_part(alloc, before, after, schools, kind, query)
        }
    }
}

// The page of a part, with its links.
fn linked(
    alloc: Global,
    part: DeltaPart,
    version: u64,
    path: &Path,
    query: &Query,
) -> Result<DeltaPage, NoMemory>
    requires { 1 ≤ query.now.limit }
    ensures { IfOk result (λ p. p ≡ delta_linked part version path.now query.now) }
{
    let DeltaPart { rows, gone, total } = part;
    let links = links_of(alloc, path, query, version, total)?;
    Ok(DeltaPage {
        rows,
        gone,
        total,
        links,
    })
}

/// The page that a query asks for of what differs of the rows of a path's kind between two versions, of what a grant at
/// these schools sees of each. The links lead to the path, and name the second version by this number.
pub fn delta_page(
    alloc: Global,
    span: &Span<'_>,
    schools: &Schools,
    version: u64,
    path: &Path,
    query: &Query,
) -> Result<DeltaPage, NoMemory>
    requires { 1 ≤ query.now.limit }
    ensures { IfOk result (λ p. p ≡ page_of_delta path.now query.now version
        (kind_delta (kind_of_path path.now) (seen schools.now (rows_of span.now.before.rows)) (seen schools.now (rows_of span.now.after.rows)))) }
{
    let part = part(alloc, span, schools, path.route().lists().kind(), query)?;
    let page = linked(alloc, part, version, path, query)?;
    Ok(page)
}
