//! The system's clock within the range of moments, and a clock that stands still.

use outside_ports::{Clock, FixedClock, SystemClock};
use std::time::Duration;
use std::{io, rt};

// A system whose clock stands at a number of seconds, or gives no time.
#[derive(Clone, Copy)]
struct Seconds(Option<u64>);

impl rt::Clock for Seconds {
    fn monotonic(&self) -> io::Result<Duration> {
        self.since_1970()
    }

    fn since_1970(&self) -> io::Result<Duration> {
        match self.0 {
            Some(seconds) => Ok(Duration::from_secs(seconds)),
            None => Err(io::Error::from(io::ErrorKind::Unsupported)),
        }
    }
}

static SECONDS: [(Option<u64>, i64); 4] = [
    (None, 0),
    (Some(1), 1_000),
    (Some(253_402_300_800), 253_402_300_799_999),
    (Some(u64::MAX), 253_402_300_799_999),
];

const FIRST_OF_2020: i64 = 1_577_836_800_000;

#[test]
fn clocks_answer_moments(rt: HostRuntime) {
    for (seconds, want) in &SECONDS {
        assert_eq!(rt;
            SystemClock::new(Seconds(*seconds)).now(),
            *want,
            "{seconds:?}"
        );
    }
    let is_later = SystemClock::new(rt).now() > FIRST_OF_2020;
    assert_eq!(rt;
        (is_later, FixedClock::at(FIRST_OF_2020).now()),
        (true, FIRST_OF_2020)
    );
}
