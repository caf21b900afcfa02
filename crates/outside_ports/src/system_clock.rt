//! The system's clock.

ghost use Rattle.std.specs.Prelude.{None};
ghost use Rattle.roster_base.specs.Moments.{IsMoment};

use crate::clock;
use std::rt;
use std::time::Duration;

/// The last millisecond of year 9999.
const LAST_MOMENT: i64 = 253_402_300_799_999;

/// The system's clock. It tells no answer before it gives one.
#[derive(Drop)]
pub struct SystemClock<R> {
    runtime: R,
}

impl<R: rt::Clock> SystemClock<R> {
    /// The clock of this runtime.
    pub fn new(runtime: R) -> SystemClock<R> {
        SystemClock { runtime }
    }
}

// Whole milliseconds, or the last moment where there are more.
fn moment_after_1970(time: Duration) -> i64
    ensures { IsMoment result }
{
    i64::try_from(time.as_millis())
        .unwrap_or(LAST_MOMENT)
        .min(LAST_MOMENT)
}

impl<R: rt::Clock> clock::Clock for SystemClock<R> {
    ghost moment = { λ _. None };

    /// The nearest moment of the range. The system gives no time before 1970, and then it is 0.
    fn now(&self) -> i64 {
        match self.runtime.since_1970() {
            Ok(time) => moment_after_1970(time),
            Err(_) => 0,
        }
    }
}
