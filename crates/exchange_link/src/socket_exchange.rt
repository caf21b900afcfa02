//! One exchange over a connection of its own.

use crate::reply_bytes::{CHUNK, ReplyBytes};
use std::alloc::Global;
use std::io::{self, ErrorKind, Read, Write};
use std::net::{Net, OpenStream, TcpStream, ToSocketAddrs};
use std::time::{Clock, Duration, Instant};

// How long the peer may let a connection, a read or a write wait, in seconds.
const PATIENCE: u64 = 60;

// How long an exchange may take, in seconds. A wait that began in time is waited out.
const MOST_SECONDS: u64 = 600;

// The time since an exchange began, by the system's clock.
#[derive(Drop)]
struct Watch<'r, R> {
    rt: &'r R,
    start: Instant,
}

impl<'r, R: Clock> Watch<'r, R> {
    // A watch that starts now.
    fn start(rt: &'r R) -> io::Result<Watch<'r, R>> {
        Ok(Watch {
            rt,
            start: Instant::now(rt)?,
        })
    }

    // Fails once the exchange has taken its time.
    fn check(&self) -> io::Result<()> {
        if self.start.elapsed(self.rt)?.as_secs() >= MOST_SECONDS {
            return Err(io::Error::from(ErrorKind::TimedOut));
        }
        Ok(())
    }
}

// A connection to the first of the address's places that takes one.
fn connect<R: Net + Clock>(watch: &Watch<R>, address: &str) -> io::Result<R::Stream> {
    let mut last = io::Error::from(ErrorKind::NotFound);
    for place in address.to_socket_addrs(watch.rt)? {
        watch.check()?;
        match TcpStream::connect_timeout(watch.rt, &place, Duration::from_secs(PATIENCE)) {
            Ok(stream) => return Ok(stream),
            Err(error) => last = error,
        }
    }
    Err(last)
}

// Reads a reply by its length, or what comes before the peer ends it.
fn read_reply<R: Clock, S: Read>(
    alloc: Global,
    watch: &Watch<R>,
    stream: &mut S,
) -> io::Result<Vec<u8>> {
    let mut reply = ReplyBytes::new(alloc);
    let mut chunk = [0; CHUNK];
    for _ in 0..u64::MAX {
        let wanted = reply.wanted();
        if wanted == 0 {
            break;
        }
        watch.check()?;
        match stream.read(&mut chunk[..wanted]) {
            Ok(0) => break,
            Ok(count) => reply.add(&chunk[..count])?,
            Err(error) if error.kind() == ErrorKind::Interrupted => {}
            Err(error) => return Err(error),
        }
    }
    Ok(reply.into_bytes())
}

// Sends a request over a connection, and reads the reply. The writing side stays open: some proxies drop the request of
// a client that shuts it.
fn answer_over<R: Clock, S: Read + Write + OpenStream>(
    alloc: Global,
    watch: &Watch<R>,
    stream: &mut S,
    request: &[u8],
) -> io::Result<Vec<u8>> {
    let patience = Some(Duration::from_secs(PATIENCE));
    stream.set_read_timeout(patience)?;
    stream.set_write_timeout(patience)?;
    stream.set_nodelay(true)?;
    stream.write_all(request)?;
    read_reply(alloc, watch, stream)
}

/// The bytes that the peer at an address answers a request with.
pub(crate) fn bytes_from<R: Net + Clock>(
    alloc: Global,
    rt: &R,
    address: &str,
    request: &[u8],
) -> io::Result<Vec<u8>> {
    let watch = Watch::start(rt)?;
    let mut stream = connect(&watch, address)?;
    answer_over(alloc, &watch, &mut stream, request)
}
