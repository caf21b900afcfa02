//! Sets of scope words.

ghost use Rattle.std.specs.Prelude.{◌≡◌, ◌<◌, ℕ};
ghost use Rattle.grant_scopes.specs.Scopes.{scopes_end, scopes_of};
ghost use Rattle.grant_scopes.specs.Words.{scopes_in};

use crate::scope_info::ScopeInfo;
use crate::words::{are_scopes, bits_among};
use roster_base::{NoMemory, Same, TryCopy};
use std::alloc::Global;
use std::marker::Model;

/// Where the numbers of sets end: each of the seven words is one bit.
const END: u8 = 1 << 7;

/// A set of the seven scope words of OneRoster 1.1, one bit each. From bit 0 they are `roster.readonly`,
/// `roster-core.readonly`, `roster-demographics.readonly`, `gradebook.readonly`, `gradebook.createput`,
/// `gradebook.delete` and `resource.readonly`. A clause sees the bits as a number.
#[derive(Clone, Copy)]
pub struct Scopes {
    bits: u8,
}

impl Model for Scopes {
    ghost Value = { ℕ };

    ghost view = { λ s. s.bits };

    ghost invariant = { λ s. s.bits < scopes_end };

    ghost inverse = { λ n. record { bits = n } };
}

impl Scopes {
    /// The set of these bits, if there is no eighth.
    pub fn from_bits(bits: u8) -> Option<Scopes>
        ensures { result ≡ scopes_of bits }
    {
        if bits < END {
            Some(Scopes { bits })
        } else {
            None
        }
    }

    /// The set that a text names: its words stand between spaces, and each is a scope's last word or its whole URI.
    /// Nothing where one is no scope; a text without words names no scope.
    #[tactic(auto, unfolding(crate::specs::Words::scopes_in))]
    pub fn read(text: &str) -> Option<Scopes>
        ensures { result ≡ scopes_in text.now }
    {
        if !are_scopes(text) {
            return None;
        }
        Scopes::from_bits(bits_among(ScopeInfo::all(), text))
    }

    /// The bits of the set.
    pub fn bits(self) -> u8
        ensures bits { result ≡ self }
        ensures seven { result < scopes_end }
    {
        self.bits
    }
}

impl TryCopy for Scopes {
    fn copy(&self, _: Global) -> Result<Scopes, NoMemory> {
        Ok(*self)
    }
}

impl Same for Scopes {
    fn is_same(&self, other: &Scopes) -> bool {
        self.bits() == other.bits()
    }
}
