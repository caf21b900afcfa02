//! A stream that lets its other end read what was sent last.

use std::io::{self, Read};
use std::net::{OpenStream, Shutdown};
use std::time::Duration;

// How long the end waits for what the other one still sends.
const PATIENCE_MILLISECONDS: u64 = 250;

// How many reads it makes at most.
const MOST_READS: u32 = 32;

/// A stream that is read. As it is dropped, it ends the writing side and takes what the other end still sends, half a
/// megabyte and eight seconds at most: where a connection is closed with bytes unread, the system may throw away what
/// was sent last.
pub struct Lingering<S: Read + OpenStream + Drop> {
    stream: S,
}

impl<S: Read + OpenStream + Drop> Lingering<S> {
    /// A stream that reads as this one.
    pub fn new(stream: S) -> Lingering<S> {
        Lingering { stream }
    }
}

impl<S: Read + OpenStream + Drop> Read for Lingering<S> {
    fn read(&mut self, buf: &mut [u8]) -> io::Result<usize> {
        self.stream.read(buf)
    }
}

impl<S: Read + OpenStream + Drop> Drop for Lingering<S> {
    fn drop(self) {
        let Lingering { stream } = self;
        let mut stream = stream;
        // The connection ends here, whether that went well or not.
        let _ = linger(&mut stream);
    }
}

// Ends the writing side, and reads on until the other end has nothing more for a while.
fn linger<S: Read + OpenStream>(stream: &mut S) -> io::Result<()> {
    stream.shutdown(Shutdown::Write)?;
    stream.set_read_timeout(Some(Duration::from_millis(PATIENCE_MILLISECONDS)))?;
    let mut unread = [0; 16_384];
    for _ in 0..MOST_READS {
        if stream.read(&mut unread)? == 0 {
            break;
        }
    }
    Ok(())
}
