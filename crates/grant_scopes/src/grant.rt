//! Grants.

use crate::schools::Schools;
use crate::scopes::Scopes;
use roster_base::{NoMemory, Same, TryCopy};
use roster_texts::Token;
use std::alloc::Global;

/// What a caller may see and do: by which token it is known, with which scopes, at which schools, and since which
/// version.
#[derive(Drop)]
pub struct Grant {
    pub token: Token,
    pub scopes: Scopes,
    pub schools: Schools,
    pub since: u64,
}

impl TryCopy for Grant {
    fn copy(&self, alloc: Global) -> Result<Grant, NoMemory> {
        Ok(Grant {
            token: self.token.copy(alloc)?,
            scopes: self.scopes,
            schools: self.schools.copy(alloc)?,
            since: self.since,
        })
    }
}

impl Same for Grant {
    fn is_same(&self, other: &Grant) -> bool {
        self.token.as_str() == other.token.as_str()
            && self.scopes.is_same(&other.scopes)
            && self.schools.is_same(&other.schools)
            && self.since == other.since
    }
}
