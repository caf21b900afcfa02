//! The ends of a connection, which share the time that a request and its reply may take.

use std::alloc::Global;
use std::io::{self, ErrorKind, Read, Write};
use std::sync::Arc;
use std::sync::atomic::{AtomicBool, AtomicU64, Ordering};
use std::time::Clock;

// How long a request and its reply may take as a whole, from the request's first byte, in seconds. A wait that began in
// time is waited out.
const MOST_SECONDS: u64 = 30;

// What the ends know of the request that is read or answered.
#[derive(Drop)]
struct Turn {
    // When its first byte came, in seconds of the monotonic clock.
    began: AtomicU64,
    // Whether its reply was begun. What comes next begins another request.
    is_answered: AtomicBool,
}

/// One end of a connection, over the stream that reads or writes it. It fails where a request and its reply take more
/// than thirty seconds.
#[derive(Drop)]
pub struct TimedEnd<S, R> {
    stream: S,
    rt: R,
    turn: Arc<Turn, Global>,
}

fn seconds(rt: &impl Clock) -> io::Result<u64> {
    Ok(rt.monotonic()?.as_secs())
}

impl<S: Drop, R: Clock + Copy> TimedEnd<S, R> {
    /// The two ends over these streams. They fail where there is no memory for what they share, and where the clock
    /// does.
    pub fn pair<O: Drop>(
        alloc: Global,
        rt: R,
        input: S,
        output: O,
    ) -> io::Result<(TimedEnd<S, R>, TimedEnd<O, R>)> {
        let turn = Turn {
            began: AtomicU64::new(seconds(&rt)?),
            is_answered: AtomicBool::new(true),
        };
        let shared = Arc::new(alloc, turn)?;
        let input = TimedEnd {
            stream: input,
            rt,
            turn: shared.clone()?,
        };
        let output = TimedEnd {
            stream: output,
            rt,
            turn: shared,
        };
        Ok((input, output))
    }
}

impl<S, R: Clock> TimedEnd<S, R> {
    // Fails once the request has taken its time.
    fn check_time(&self) -> io::Result<()> {
        let began = self.turn.began.load(Ordering::SeqCst);
        if seconds(&self.rt)?.saturating_sub(began) >= MOST_SECONDS {
            return Err(io::Error::from(ErrorKind::TimedOut));
        }
        Ok(())
    }

    // Another request begins now.
    fn begin(&self) -> io::Result<()> {
        self.turn.began.store(seconds(&self.rt)?, Ordering::SeqCst);
        self.turn.is_answered.store(false, Ordering::SeqCst);
        Ok(())
    }
}

impl<S: Read, R: Clock> Read for TimedEnd<S, R> {
    fn read(&mut self, buf: &mut [u8]) -> io::Result<usize> {
        let begins = self.turn.is_answered.load(Ordering::SeqCst);
        if !begins {
            self.check_time()?;
        }
        let count = self.stream.read(buf)?;
        if begins && count > 0 {
            self.begin()?;
        }
        Ok(count)
    }
}

impl<S: Write, R: Clock> Write for TimedEnd<S, R> {
    fn write(&mut self, buf: &[u8]) -> io::Result<usize> {
        self.check_time()?;
        self.turn.is_answered.store(true, Ordering::SeqCst);
        self.stream.write(buf)
    }

    fn flush(&mut self) -> io::Result<()> {
        self.stream.flush()
    }
}
