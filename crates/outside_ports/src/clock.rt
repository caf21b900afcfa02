//! Clocks.

ghost use Rattle.std.specs.Prelude.{◌≡◌, ℤ, Option, IfSome};
ghost use Rattle.roster_base.specs.Moments.{IsMoment};

/// Tells the time.
pub trait Clock {
    /// The one answer of the clock, where it is told.
    ghost moment: { Self → Option ℤ };

    /// Milliseconds since 1970-01-01T00:00:00Z, from the first of year 1 to the last of year 9999.
    fn now(&self) -> i64
        ensures range { IsMoment result }
        ensures told { IfSome (moment self.now) (λ m. result ≡ m) };
}
