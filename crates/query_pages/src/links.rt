//! The links of a page.

ghost use Rattle.std.specs.Prelude.{◌≡◌, ◌≤◌, ◌+◌, ◌-◌, ◌*◌, ◌/◌, ◌++◌, IfOk, OnOk, Some, None, if◌then◌else◌, nat_lt};
ghost use Rattle.hub_spec.specs.views.Links as spec;
ghost use Rattle.query_pages.specs.Targets.{link_if};

use crate::target::target;
use filter_grammar::Query;
use rest_paths::Path;
use roster_base::{Items, NoMemory};
use status_info::{LinkItem, Rel};
use std::alloc::Global;

// A list in one version, of which pages are asked for.
#[derive(Clone, Copy)]
struct Pages<'a> {
    path: &'a Path,
    query: &'a Query,
    version: u64,
}

impl<'a> Pages<'a> {
    // The link to the page at an offset.
    fn link(self, alloc: Global, rel: Rel, offset: u64) -> Result<LinkItem, NoMemory>
        ensures { IfOk result (λ l. l ≡ spec.link (spec.target self.entry.path.now self.entry.query.now self.entry.version) rel offset) }
    {
        let target = target(alloc, self.path, self.query, self.version, offset)?;
        Ok(LinkItem { rel, target })
    }

    // Adds the link to the page at an offset, if there is one.
    fn push(
        self,
        alloc: Global,
        links: &mut Items<LinkItem>,
        rel: Rel,
        offset: Option<u64>,
    ) -> Result<(), NoMemory>
        ensures { OnOk result (links.new ≡ links.old ++ link_if (spec.target self.entry.path.now self.entry.query.now self.entry.version) rel offset) }
    {
        match offset {
            Some(offset) => {
                let link = self.link(alloc, rel, offset)?;
                links.push(link)
            }
            None => Ok(()),
        }
    }
}

// Where the next page begins, if there is one.
fn next_offset(query: &Query, total: u64) -> Option<u64>
    ensures { result ≡ (if nat_lt (query.now.offset + query.now.limit) total then Some (query.now.offset + query.now.limit) else None) }
{
    if query.offset < total && query.limit < total - query.offset {
        Some(query.offset + query.limit)
    } else {
        None
    }
}

// Where the page in front begins, if there is one.
fn prev_offset(query: &Query) -> Option<u64>
    ensures { result ≡ (if nat_lt 0 query.now.offset then Some (query.now.offset - query.now.limit) else None) }
{
    if 0 < query.offset {
        Some(query.offset.saturating_sub(query.limit))
    } else {
        None
    }
}

// Where the last page begins.
fn last_offset(query: &Query, total: u64) -> u64
    requires { 1 ≤ query.now.limit }
    ensures { result ≡ (total - 1) / query.now.limit * query.now.limit }
{
    total.saturating_sub(1) / query.limit * query.limit
}

/// The links of a page of a list with so many rows, in one version: to the page behind it, to the one in front of it,
/// to the first and to the last, where there are any. Each names the version.
pub fn links_of(
    alloc: Global,
    path: &Path,
    query: &Query,
    version: u64,
    total: u64,
) -> Result<Items<LinkItem>, NoMemory>
    requires { 1 ≤ query.now.limit }
    ensures { IfOk result (λ l. l ≡ spec.links_of path.now query.now version total) }
{
    let pages = Pages {
        path,
        query,
        version,
    };
    let mut links = Items::new(alloc);
    pages.push(alloc, &mut links, Rel::Next, next_offset(query, total))?;
    pages.push(alloc, &mut links, Rel::Prev, prev_offset(query))?;
    pages.push(alloc, &mut links, Rel::First, Some(0))?;
    pages.push(
        alloc,
        &mut links,
        Rel::Last,
        Some(last_offset(query, total)),
    )?;
    Ok(links)
}
