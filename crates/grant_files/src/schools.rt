//! The schools of a cell.

ghost use Rattle.std.specs.Prelude.{◌≡◌, map, IfOk};
ghost use Rattle.roster_base.specs.Order.{in_order};
ghost use Rattle.grant_files.specs.Schools.{id_in, listed, school_of, schools_of};

use grant_scopes::{SchoolList, Schools};
use roster_base::{Items, Keyed, NoMemory, Refusal, sorted};
use roster_texts::Id;
use roster_values::lists::{Ids, read_ids};
use std::alloc::Global;

/// A listed school, which has its place by its id.
#[derive(Drop)]
pub struct School {
    id: Id,
}

impl Keyed for School {
    ghost key_of = { λ school. school.id };

    fn key(&self) -> &str {
        self.id.as_str()
    }
}

fn schools_of_ids(alloc: Global, ids: Ids) -> Result<Vec<School>, NoMemory>
    ensures { IfOk result (λ v. v.items ≡ map school_of ids) }
{
    Ok(
        ids.into_vec()
            .into_iter()
            .map(|id| School { id })
            .collect(alloc)?,
    )
}

fn ids_of_schools(alloc: Global, schools: Vec<School>) -> Result<Vec<Id>, NoMemory>
    ensures { IfOk result (λ v. v.items ≡ map id_in schools.items) }
{
    Ok(schools.into_iter().map(|school| school.id).collect(alloc)?)
}

// The ids in ascending order of their bytes, each once.
fn in_order(alloc: Global, ids: Ids) -> Result<SchoolList, NoMemory>
    ensures { IfOk result (λ list. list ≡ in_order (λ id. id) ids) }
{
    let schools = sorted(alloc, schools_of_ids(alloc, ids)?)?;
    let ids = ids_of_schools(alloc, schools)?;
    Ok(SchoolList::new(Items::from_vec(ids)))
}

// The schools of a list of ids, which has one at least.
fn listed(alloc: Global, ids: Ids) -> Result<Option<Schools>, NoMemory>
    ensures { IfOk result (λ o. o ≡ listed ids) }
{
    if ids.is_empty() {
        return Ok(None);
    }
    Ok(Some(Schools::Listed(in_order(alloc, ids)?)))
}

/// The schools that a cell names, if it is `*` or a list of ids with one at least.
#[tactic(auto, unfolding(crate::specs::Schools::schools_of))]
pub fn read_schools(alloc: Global, text: &str) -> Result<Option<Schools>, NoMemory>
    ensures { IfOk result (λ o. o ≡ schools_of text.now) }
{
    if text == "*" {
        return Ok(Some(Schools::All));
    }
    match read_ids(alloc, text) {
        Ok(ids) => listed(alloc, ids),
        Err(Refusal::Fault(_)) => Ok(None),
        Err(Refusal::NoMemory) => Err(NoMemory),
    }
}
