//! A clock that stands still.

ghost use Rattle.std.specs.Prelude.{◌≡◌, ℤ, Some};
ghost use Rattle.roster_base.specs.Moments.{IsMoment};

use crate::clock::Clock;
use std::marker::Model;

/// A clock with one answer, which it tells. A clause sees that answer.
#[derive(Clone, Copy)]
pub struct FixedClock {
    milliseconds: i64,
}

impl Model for FixedClock {
    ghost Value = { ℤ };

    ghost view = { λ c. c.milliseconds };

    ghost invariant = { λ c. IsMoment c.milliseconds };

    ghost inverse = { λ m. record { milliseconds = m } };
}

impl FixedClock {
    /// The clock that always answers this number of milliseconds since 1970-01-01T00:00:00Z.
    pub fn at(milliseconds: i64) -> FixedClock
        requires { IsMoment milliseconds }
        ensures { result ≡ milliseconds }
    {
        FixedClock { milliseconds }
    }
}

impl Clock for FixedClock {
    ghost moment = { λ c. Some c };

    fn now(&self) -> i64 {
        self.milliseconds
    }
}
