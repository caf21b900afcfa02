//! Why a store that keeps a state gave no answer.

ghost use Rattle.std.specs.Prelude.{◌≡◌};
ghost use Rattle.roster_base.specs.declared.keeper.KeeperError.TheVariants as keeper;

use crate::memory::NoMemory;
use std::alloc::AllocError;

/// A failure of the store, or want of memory.
#[derive(Clone, Copy, Debug, PartialEq, Eq)]
pub enum KeeperError {
    /// The store refused; it has counted that once.
    Failed,
    /// Memory ran out, which isn't counted.
    NoMemory,
}

impl From<NoMemory> for KeeperError {
    ghost from_gives = { λ _ e. e ≡ keeper.NoMemory };

    fn from(_error: NoMemory) -> KeeperError {
        KeeperError::NoMemory
    }
}

impl From<AllocError> for KeeperError {
    ghost from_gives = { λ _ e. e ≡ keeper.NoMemory };

    fn from(_error: AllocError) -> KeeperError {
        KeeperError::NoMemory
    }
}
