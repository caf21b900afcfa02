//! The ids to which chains of orgs lead up.

ghost use Rattle.std.specs.Prelude.{◌≡◌, ◌||◌, ℕ, List, IfOk, OnOk};
ghost use Rattle.std.specs.List.{list_any};
ghost use Rattle.hub_spec.specs.views.Seen.{leads_up};
ghost use Rattle.query_pages.specs.Ancestors.{IsClosed, has_id};
ghost use Rattle.roster_types.specs.Keys.{count_of};
ghost use Rattle.roster_values.specs.declared.kind.Kind.TheVariants.{Orgs};

use reference_rules::parent;
use roster_base::NoMemory;
use roster_texts::Id;
use roster_types::rows::Rows;
use roster_values::Kind;
use std::alloc::Global;
use std::collections::HashSet;

/// Ids that stand in rows or in a list of schools.
pub type OrgIds<'a> = HashSet<&'a str>;

// Adds the school's id and those above it. A chain is followed only to an id that is in already, so that all chains
// together take no more steps than there are schools and orgs.
fn add_chain<'a, R: Rows>(
    rows: &'a R,
    turns: u64,
    school: &'a Id,
    ids: &mut OrgIds<'a>,
) -> Result<(), NoMemory>
    requires turns { turns ≡ count_of Orgs (R.rows rows.now) }
    requires closed { IsClosed (R.rows rows.now) ids.old }
    ensures closed { OnOk result (IsClosed (R.rows rows.now) ids.new) }
    ensures added { OnOk result ((id : List ℕ) → has_id ids.new id ≡ (has_id ids.old id || leads_up (R.rows rows.now) id turns school.now)) }
{
    let mut current = school;
    for _turn in 0..turns {
        if !ids.insert(current.as_str())? {
            return Ok(());
        }
        match parent(rows, Kind::Orgs, current) {
            None => return Ok(()),
            Some(parent) => current = parent,
        }
    }
    ids.insert(current.as_str())?;
    Ok(())
}

/// The ids of the schools and of all orgs above them.
pub fn ancestors<'a, R: Rows>(
    alloc: Global,
    rows: &'a R,
    turns: u64,
    schools: &'a [Id],
) -> Result<OrgIds<'a>, NoMemory>
    requires { turns ≡ count_of Orgs (R.rows rows.now) }
    ensures { IfOk result (λ ids. (id : List ℕ) → has_id ids id ≡ list_any (leads_up (R.rows rows.now) id turns) schools.now) }
{
    let mut ids = HashSet::new(alloc);
    for school in schools {
        add_chain(rows, turns, school, &mut ids)?;
    }
    Ok(ids)
}
