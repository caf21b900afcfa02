//! Who a row belongs to.

use roster_base::{NoMemory, Same, TryCopy};
use roster_texts::Name;
use std::alloc::Global;

/// The feed that published a row, or the caller that wrote it.
#[derive(Drop)]
pub enum Owner {
    Feed(Name),
    Caller(Name),
}

impl TryCopy for Owner {
    fn copy(&self, alloc: Global) -> Result<Owner, NoMemory> {
        Ok(match self {
            Owner::Feed(name) => Owner::Feed(name.copy(alloc)?),
            Owner::Caller(name) => Owner::Caller(name.copy(alloc)?),
        })
    }
}

impl Same for Owner {
    fn is_same(&self, other: &Owner) -> bool {
        match (self, other) {
            (Owner::Feed(left), Owner::Feed(right)) => left.is_same(right),
            (Owner::Caller(left), Owner::Caller(right)) => left.is_same(right),
            _ => false,
        }
    }
}
