//! What the copies of a row share.

ghost use Rattle.std.specs.Prelude.{◌≡◌, IfOk};
ghost use Rattle.std.specs.Arc.{arc_value};

use crate::metadata::Metadata;
use crate::structs::Fields;
use roster_base::NoMemory;
use std::alloc::{AllocFailed, Global};
use std::sync::Arc;

/// The values of a row, which nothing changes once it is made.
#[derive(Drop)]
pub struct Shared {
    pub fields: Fields,
    pub metadata: Metadata,
}

impl Shared {
    /// The values as the first copy holds them.
    pub fn new(
        alloc: Global,
        fields: Fields,
        metadata: Metadata,
    ) -> Result<Arc<Shared, Global>, NoMemory>
        ensures fields { IfOk result (λ s. (arc_value s).fields ≡ fields) }
        ensures metadata { IfOk result (λ s. (arc_value s).metadata ≡ metadata) }
    {
        match Arc::new(alloc, Shared { fields, metadata }) {
            Ok(shared) => Ok(shared),
            Err(AllocFailed { value }) => {
                // By name, since the check goes through the structs of all kinds where they are dropped unnamed.
                drop(value);
                Err(NoMemory)
            }
        }
    }
}
