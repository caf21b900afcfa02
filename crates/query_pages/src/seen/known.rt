//! Rows, and what is known beforehand of which are seen.

ghost use Rattle.std.specs.Prelude.{◌≡◌, IfOk};
ghost use Rattle.query_pages.specs.Ancestors.{AreAncestors};
ghost use Rattle.roster_types.specs.Keys.{Ascends, count_of, row_key};
ghost use Rattle.roster_values.specs.declared.kind.Kind.TheVariants.{Orgs};

use crate::seen::ancestors::{OrgIds, ancestors};
use grant_scopes::Schools;
use roster_base::NoMemory;
use roster_values::Kind;
use std::alloc::Global;
use version_core::references::Refs;

/// Rows, the schools at which they are seen, how many of them are orgs, which bounds each chain of parents, and the ids
/// to which the listed schools lead up, where they were looked up.
#[derive(Drop)]
pub struct KnownRows<'a, R: Refs> {
    pub schools: &'a Schools,
    pub rows: &'a R,
    pub orgs: u64,
    pub ancestors: Option<OrgIds<'a>>,
    ghost counted: { orgs ≡ count_of Orgs (R.rows rows.now) },
    ghost order: { Ascends row_key (R.rows rows.now) },
    ghost above: { AreAncestors schools.now (R.rows rows.now) orgs ancestors },
}

impl<'a, R: Refs> KnownRows<'a, R> {
    /// These rows. Their orgs are counted once.
    pub fn new(schools: &'a Schools, rows: &'a R) -> KnownRows<'a, R>
        ensures schools { result.schools.now ≡ schools.now }
        ensures rows { result.rows.now ≡ rows.now }
    {
        KnownRows {
            schools,
            rows,
            orgs: rows.count(Kind::Orgs),
            ancestors: None,
        }
    }

    /// These rows, with the ids to which the listed schools lead up.
    pub fn with_ancestors(
        alloc: Global,
        schools: &'a Schools,
        rows: &'a R,
    ) -> Result<KnownRows<'a, R>, NoMemory>
        ensures schools { IfOk result (λ known. known.schools.now ≡ schools.now) }
        ensures rows { IfOk result (λ known. known.rows.now ≡ rows.now) }
    {
        let orgs = rows.count(Kind::Orgs);
        let ancestors = match schools {
            Schools::All => None,
            Schools::Listed(list) => Some(ancestors(alloc, rows, orgs, list.ids())?),
        };
        Ok(KnownRows {
            schools,
            rows,
            orgs,
            ancestors,
        })
    }
}
