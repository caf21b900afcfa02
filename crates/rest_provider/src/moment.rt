//! The clock's moment.

ghost use Rattle.rest_provider.specs.Moments.{IsMomentOf};

use outside_ports::Clock;
use roster_texts::Moment;

/// The moment that a clock gives.
pub fn moment_of<K: Clock>(clock: &K) -> Moment
    ensures { IsMomentOf (K.moment clock.now) result }
{
    match Moment::at(clock.now()) {
        Some(moment) => moment,
        // What a clock gives is in the range of moments.
        None => unreachable!(),
    }
}
