//! Why a call of the outside gave no answer.

ghost use Rattle.std.specs.Prelude.{◌≡◌};
ghost use Rattle.outside_ports.specs.declared.failed.IoError.TheVariants as io_error;

use roster_base::NoMemory;
use std::alloc::AllocError;

/// The outside failed, and its count of faults tells of it.
#[derive(Clone, Copy, Debug, PartialEq, Eq)]
pub struct Failed;

/// A failure of the outside, or want of memory.
#[derive(Clone, Copy, Debug, PartialEq, Eq)]
pub enum IoError {
    /// The outside failed, and its count of faults tells of it.
    Failed,
    /// Memory ran out, which says nothing of the outside.
    NoMemory,
}

impl From<Failed> for IoError {
    ghost from_gives = { λ _ e. e ≡ io_error.Failed };

    fn from(_error: Failed) -> IoError {
        IoError::Failed
    }
}

impl From<NoMemory> for IoError {
    ghost from_gives = { λ _ e. e ≡ io_error.NoMemory };

    fn from(_error: NoMemory) -> IoError {
        IoError::NoMemory
    }
}

impl From<AllocError> for IoError {
    ghost from_gives = { λ _ e. e ≡ io_error.NoMemory };

    fn from(_error: AllocError) -> IoError {
        IoError::NoMemory
    }
}
