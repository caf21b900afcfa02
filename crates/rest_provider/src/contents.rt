//! What the reply to a read that succeeds has, beside what every reply has.

ghost use Rattle.std.specs.Prelude.{◌≡◌, true, ℕ, IfOk, option_map};
ghost use Rattle.hub_spec.specs.rules.Reads.{contents_of, delta_shown, object_shown, page_shown};
ghost use Rattle.hub_spec.specs.views.Lists.{is_single};
ghost use Rattle.rest_provider.specs.Shown.{contents_shown};
ghost use Rattle.roster_values.specs.declared.kind.Kind as kinds;

use filter_grammar::Query;
use gradebook_core::pages::one;
use hub_spec::{DeltaPage, Page};
use rest_paths::Path;
use roster_base::{Items, NoMemory, Text};
use roster_types::row::Row;
use roster_values::Kind;
use row_json::{collection_text, delta_text, single_text};
use status_info::LinkItem;
use std::alloc::Global;
use version_core::references::Refs;

/// The body of the reply to a read that succeeds, the number of rows of the whole list, where a page is shown, and the
/// links of that page.
#[derive(Drop)]
pub struct Contents {
    pub body: Text,
    pub total: Option<u64>,
    pub links: Items<LinkItem>,
}

// The members that a query chooses, if it chooses.
fn chosen(query: &Query) -> Option<&[Text]>
    ensures { option_map (λ names. names.now) result ≡ query.now.only }
{
    Some(query.only.as_ref()?.as_slice())
}

/// One object.
pub fn object_contents(alloc: Global, query: &Query, row: &Row) -> Result<Contents, NoMemory>
    ensures { (kind : kinds.Kind) → IfOk result (λ c. contents_shown c ≡ object_shown kind query.now row.now) }
{
    let text = single_text(alloc, row, chosen(query))?;
    Ok(Contents {
        body: Text::from_string(text),
        total: None,
        links: Items::new(alloc),
    })
}

/// What a path of one object shows of rows, where they have it.
pub fn one_contents<R: Refs>(
    alloc: Global,
    rows: &R,
    path: &Path,
    query: &Query,
) -> Result<Option<Contents>, NoMemory>
    requires { is_single path.now.route ≡ true }
    ensures { (version : ℕ) → IfOk result (λ c. option_map contents_shown c ≡ contents_of (R.rows rows.now) version path.now query.now) }
{
    match one(rows, path) {
        Some(row) => Ok(Some(object_contents(alloc, query, row)?)),
        None => Ok(None),
    }
}

/// A page of rows of a kind.
pub fn page_contents(
    alloc: Global,
    kind: Kind,
    query: &Query,
    page: Page,
) -> Result<Contents, NoMemory>
    ensures { IfOk result (λ c. contents_shown c ≡ page_shown kind query.now page) }
{
    let text = collection_text(alloc, kind, page.rows.as_slice(), chosen(query))?;
    Ok(Contents {
        body: Text::from_string(text),
        total: Some(page.total),
        links: page.links,
    })
}

/// A page of what differs of the rows of a kind.
pub fn delta_contents(alloc: Global, kind: Kind, page: DeltaPage) -> Result<Contents, NoMemory>
    ensures { IfOk result (λ c. contents_shown c ≡ delta_shown kind page) }
{
    let text = delta_text(alloc, kind, page.rows.as_slice(), page.gone.as_slice())?;
    Ok(Contents {
        body: Text::from_string(text),
        total: Some(page.total),
        links: page.links,
    })
}
