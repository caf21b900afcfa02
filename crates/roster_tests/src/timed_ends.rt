//! The time that a request and its reply may take, over a stream at which each read and each write takes nine seconds.

use outside_ports::{IoSink, IoSource, Sink, Source, TimedEnd};
use std::alloc::Global;
use std::cell::Cell;
use std::io::{self, Read, Write};
use std::test::Fail;
use std::time::{Clock, Duration};

const SECONDS_A_CALL: u64 = 9;

// A clock that stands still until it is moved.
#[derive(Clone, Copy)]
struct HandClock<'c> {
    seconds: &'c Cell<u64>,
}

impl HandClock<'_> {
    fn pass(&self) {
        self.seconds
            .set(self.seconds.get().saturating_add(SECONDS_A_CALL));
    }
}

impl Clock for HandClock<'_> {
    fn monotonic(&self) -> io::Result<Duration> {
        Ok(Duration::from_secs(self.seconds.get()))
    }

    fn since_1970(&self) -> io::Result<Duration> {
        self.monotonic()
    }
}

// A stream that gives a byte, or takes all, after some seconds.
#[derive(Drop)]
struct SlowStream<'c> {
    clock: HandClock<'c>,
}

impl Read for SlowStream<'_> {
    fn read(&mut self, buf: &mut [u8]) -> io::Result<usize> {
        self.clock.pass();
        Ok(buf.len().min(1))
    }
}

impl Write for SlowStream<'_> {
    fn write(&mut self, buf: &[u8]) -> io::Result<usize> {
        self.clock.pass();
        Ok(buf.len())
    }

    fn flush(&mut self) -> io::Result<()> {
        Ok(())
    }
}

// How many of the calls, reads and writes, succeed before one fails.
fn done_before_failing(alloc: Global, calls: &str) -> Result<usize, Fail> {
    let seconds = Cell::new(1_000);
    let clock = HandClock { seconds: &seconds };
    let (input, output) = TimedEnd::pair(alloc, clock, SlowStream { clock }, SlowStream { clock })?;
    let mut source = IoSource::new(input);
    let mut sink = IoSink::new(output);
    let mut room = [0; 4];
    let done = calls
        .bytes()
        .take_while(|call| match call {
            b'r' => source.read(&mut room).is_ok(),
            _ => sink.write_all(b"reply").is_ok(),
        })
        .count();
    Ok(done)
}

// A request's first byte comes with its first read, and a read behind a reply begins another request.
static TURNS: [(&str, usize); 4] = [
    ("rrrrrr", 5),
    ("rwwwww", 5),
    ("rrrwww", 5),
    ("rrrrwrrrrw", 10),
];

#[test]
fn request_and_reply_have_a_time_as_a_whole(rt: HostRuntime) -> Result<(), Fail> {
    for (calls, want) in &TURNS {
        let done = done_before_failing(rt.alloc(), calls)?;
        assert_eq!(rt; done, *want);
    }
    Ok(())
}
