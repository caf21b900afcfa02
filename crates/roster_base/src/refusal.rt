//! Why a call gave no value: a fault of what it was given, or want of memory.

ghost use Rattle.std.specs.Prelude.{◌≡◌};
ghost use Rattle.roster_base.specs.declared.refusal.Refusal.TheVariants as refusal;

use crate::memory::NoMemory;
use std::alloc::{AllocError, AllocFailed};

/// A fault of the input, or want of memory.
#[derive(Clone, Copy, Debug, PartialEq, Eq)]
pub enum Refusal<F> {
    /// The input is refused for this fault.
    Fault(F),
    /// Memory ran out, which says nothing of the input.
    NoMemory,
}

impl<F> From<NoMemory> for Refusal<F> {
    ghost from_gives = { λ _ e. e ≡ refusal.NoMemory };

    fn from(_error: NoMemory) -> Refusal<F> {
        Refusal::NoMemory
    }
}

impl<F> From<AllocError> for Refusal<F> {
    ghost from_gives = { λ _ e. e ≡ refusal.NoMemory };

    fn from(_error: AllocError) -> Refusal<F> {
        Refusal::NoMemory
    }
}

impl<F, T: Drop> From<AllocFailed<T>> for Refusal<F> {
    ghost from_gives = { λ _ e. e ≡ refusal.NoMemory };

    fn from(_error: AllocFailed<T>) -> Refusal<F> {
        Refusal::NoMemory
    }
}
