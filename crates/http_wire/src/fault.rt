//! Why no request can be read.

ghost use Rattle.std.specs.Prelude.{◌≡◌};
ghost use Rattle.http_wire.specs.Lasting.{lasting};

use roster_base::NoMemory;
use std::alloc::AllocError;

/// Why no request can be read.
#[derive(Clone, Copy, Debug, PartialEq, Eq)]
pub enum WireFault {
    /// The input ended before the first byte of a request.
    End,
    /// The input ended inside a request.
    Cut,
    /// No continuation makes a head.
    Head,
    /// No whole head stands in the bytes that a head may have, or it has too many fields.
    HeadTooLong,
    /// The length of the body can't be read, or is stated twice and not the same.
    Length,
    /// The body is longer than a body may be.
    BodyTooLong,
    /// The body is sent in a coding of its own.
    Chunked,
    /// The source failed, and its count of faults tells of it.
    Source,
    /// Memory ran out, which says nothing of the input.
    NoMemory,
}

impl From<AllocError> for WireFault {
    ghost use Rattle.std.specs.Prelude.{◌≡◌};
    ghost use Rattle.http_wire.specs.declared.fault.WireFault.TheVariants.{NoMemory};

    ghost from_gives = { λ _ e. e ≡ NoMemory };

    fn from(_error: AllocError) -> WireFault {
        WireFault::NoMemory
    }
}

impl From<NoMemory> for WireFault {
    ghost use Rattle.std.specs.Prelude.{◌≡◌};
    ghost use Rattle.http_wire.specs.declared.fault.WireFault.TheVariants.{NoMemory};

    ghost from_gives = { λ _ e. e ≡ NoMemory };

    fn from(_error: NoMemory) -> WireFault {
        WireFault::NoMemory
    }
}

impl WireFault {
    /// The fault that stands after this one was answered: none after `Source` and `NoMemory`.
    pub(crate) fn lasting(self) -> Option<WireFault>
        ensures { result ≡ lasting self }
    {
        match self {
            WireFault::Source | WireFault::NoMemory => None,
            fault => Some(fault),
        }
    }
}
