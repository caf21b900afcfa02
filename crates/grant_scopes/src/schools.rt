//! The schools of a grant.

ghost use Rattle.std.specs.Prelude.{◌≡◌, ℕ, List, IfSome, None, false, true};
ghost use Rattle.std.specs.Cmp.Lexicographic.{slice_cmp};
ghost use Rattle.std.specs.Ordering.{is_lt, nat_cmp};
ghost use Rattle.grant_scopes.specs.Schools.{AreSchools};

use roster_base::{Items, NoMemory, Same, TryCopy};
use roster_texts::Id;
use std::alloc::Global;
use std::marker::Model;

/// Ids of schools in ascending order of their bytes, each once. A clause sees the list.
#[derive(Drop)]
pub struct SchoolList {
    ids: Items<Id>,
}

impl Model for SchoolList {
    ghost Value = { List (List ℕ) };

    ghost view = { λ s. s.ids };

    ghost invariant = { λ s. AreSchools s.ids };
}

fn is_below(low: &Id, high: &Id) -> bool
    ensures { result ≡ is_lt (slice_cmp nat_cmp low.now high.now) }
{
    low.as_str().cmp(high.as_str()).is_lt()
}

// Whether each id is below the next.
fn rise(ids: &[Id]) -> bool
    ensures yes { result ≡ true → AreSchools ids.now }
    ensures no { result ≡ false → AreSchools ids.now → ⊥ }
{
    for place in 1..ids.len() {
        if !is_below(&ids[place - 1], &ids[place]) {
            return false;
        }
    }
    true
}

impl SchoolList {
    /// The ids as a list, if they stand in order, each once; no memory is taken.
    pub fn of_rising(ids: Items<Id>) -> Option<SchoolList>
        ensures some { IfSome result (λ list. list ≡ ids) }
        ensures none { result ≡ None → AreSchools ids → ⊥ }
    {
        if rise(ids.as_slice()) {
            Some(SchoolList { ids })
        } else {
            None
        }
    }

    /// The ids, which stand in order, each once; no memory is taken.
    pub fn new(ids: Items<Id>) -> SchoolList
        requires { AreSchools ids }
        ensures { result ≡ ids }
    {
        SchoolList { ids }
    }

    /// The ids in order.
    pub fn ids(&self) -> &[Id]
        ensures ids { result.now ≡ self.now }
        ensures order { AreSchools self.now }
    {
        self.ids.as_slice()
    }
}

impl TryCopy for SchoolList {
    fn copy(&self, alloc: Global) -> Result<SchoolList, NoMemory> {
        Ok(SchoolList {
            ids: self.ids.copy(alloc)?,
        })
    }
}

impl Same for SchoolList {
    fn is_same(&self, other: &SchoolList) -> bool {
        self.ids.is_same(&other.ids)
    }
}

/// Every school, or those that are listed.
#[derive(Drop)]
pub enum Schools {
    All,
    Listed(SchoolList),
}

impl TryCopy for Schools {
    fn copy(&self, alloc: Global) -> Result<Schools, NoMemory> {
        Ok(match self {
            Schools::All => Schools::All,
            Schools::Listed(list) => Schools::Listed(list.copy(alloc)?),
        })
    }
}

impl Same for Schools {
    fn is_same(&self, other: &Schools) -> bool {
        match (self, other) {
            (Schools::All, Schools::All) => true,
            (Schools::Listed(left), Schools::Listed(right)) => left.is_same(right),
            _ => false,
        }
    }
}
