//! Grants as they are asked for.

use crate::schools::Schools;
use crate::scopes::Scopes;
use roster_base::{Keyed, NoMemory, TryCopy};
use roster_texts::{Name, Token};
use std::alloc::Global;

/// A caller and what it is to be granted. The hub adds since which version the caller has it.
#[derive(Drop)]
pub struct GrantEntry {
    pub caller: Name,
    pub token: Token,
    pub scopes: Scopes,
    pub schools: Schools,
}

impl TryCopy for GrantEntry {
    fn copy(&self, alloc: Global) -> Result<GrantEntry, NoMemory> {
        Ok(GrantEntry {
            caller: self.caller.copy(alloc)?,
            token: self.token.copy(alloc)?,
            scopes: self.scopes,
            schools: self.schools.copy(alloc)?,
        })
    }
}

impl Keyed for GrantEntry {
    ghost key_of = { λ entry. entry.caller };

    fn key(&self) -> &str {
        self.caller.as_str()
    }
}
