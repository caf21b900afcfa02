//! An acceptor over a listening socket.

ghost use Rattle.std.specs.Prelude.{◌≡◌};

use crate::acceptor::Acceptor;
use crate::failed::IoError;
use crate::io_sink::IoSink;
use crate::io_source::IoSource;
use crate::lingering::Lingering;
use crate::timed_end::TimedEnd;
use std::alloc::Global;
use std::io::{self, ErrorKind};
use std::marker::Model;
use std::net::{Net, TcpListener, TcpStream};
use std::time::{Clock, Duration};

// How long a read or a write may wait for the other end. A connection that is kept open waits for its next request no
// longer either, since its acceptor serves no other one meanwhile.
const PATIENCE_SECONDS: u64 = 10;

// How many connections that break before they can be served are passed over in one call.
const MOST_BROKEN: u32 = 1_000;

/// Connections to an address, a host and a port. Each call fails where the address couldn't be bound. A connection
/// fails at its read or write where its other end lets it wait for ten seconds, and where a request and its reply take
/// more than thirty.
#[derive(Drop)]
pub struct TcpAcceptor<R> {
    rt: R,
    listener: io::Result<TcpListener>,
    given: u64,
    faults: u64,
}

impl<R> Model for TcpAcceptor<R> {
    ghost use Rattle.outside_ports.specs.Connections.{HeldTallies};

    ghost Value = { HeldTallies };

    ghost view = { λ a. record { given = a.given; faults = a.faults } };
}

impl<R: Net<Listener = TcpListener, Stream = TcpStream>> TcpAcceptor<R> {
    /// An acceptor at this address, which listens from now on.
    pub fn at(rt: R, address: &str) -> TcpAcceptor<R>
        ensures { result ≡ record { given = 0; faults = 0 } }
    {
        let listener = TcpListener::bind(&rt, address);
        TcpAcceptor::over(rt, listener)
    }
}

impl<R> TcpAcceptor<R> {
    // An acceptor over this listener.
    fn over(rt: R, listener: io::Result<TcpListener>) -> TcpAcceptor<R>
        ensures { result ≡ record { given = 0; faults = 0 } }
    {
        TcpAcceptor {
            rt,
            listener,
            given: 0,
            faults: 0,
        }
    }

    /// Another acceptor over the same listener: each connection goes to one of them.
    pub fn beside(&self) -> TcpAcceptor<R>
    where
        R: Copy,
        ensures { result ≡ record { given = 0; faults = 0 } }
    {
        let listener = match &self.listener {
            Ok(listener) => listener.try_clone(),
            Err(error) => Err(io::Error::from(error.kind())),
        };
        TcpAcceptor::over(self.rt, listener)
    }

    /// Why it doesn't listen, where it doesn't.
    pub fn bind_error(&self) -> Option<&io::Error> {
        match &self.listener {
            Ok(_) => None,
            Err(error) => Some(error),
        }
    }
}

/// What comes over a connection.
pub type TcpInput<R> = IoSource<TimedEnd<Lingering<TcpStream>, R>>;

/// What goes over a connection.
pub type TcpOutput<R> = IoSink<TimedEnd<TcpStream, R>>;

// The two ends of a connection, each with its patience. Small replies go out at once.
fn ends_of<R: Clock + Copy>(
    alloc: Global,
    rt: R,
    stream: TcpStream,
) -> io::Result<(TcpInput<R>, TcpOutput<R>)> {
    let patience = Some(Duration::from_secs(PATIENCE_SECONDS));
    stream.set_read_timeout(patience)?;
    stream.set_write_timeout(patience)?;
    stream.set_nodelay(true)?;
    let other = stream.try_clone()?;
    let (input, output) = TimedEnd::pair(alloc, rt, Lingering::new(stream), other)?;
    Ok((IoSource::new(input), IoSink::new(output)))
}

// The next connection of a listener.
fn accepted<R: Clock + Copy>(
    alloc: Global,
    rt: R,
    listener: &TcpListener,
) -> io::Result<(TcpInput<R>, TcpOutput<R>)> {
    let (stream, _) = listener.accept()?;
    ends_of(alloc, rt, stream)
}

// The next connection that can be served. One whose other end let it go at once isn't worth a fault.
fn next_whole<R: Clock + Copy>(
    alloc: Global,
    rt: R,
    listener: &TcpListener,
) -> Result<(TcpInput<R>, TcpOutput<R>), IoError> {
    for _ in 0..MOST_BROKEN {
        match accepted(alloc, rt, listener) {
            Ok(ends) => return Ok(ends),
            Err(error) if error.kind() == ErrorKind::OutOfMemory => return Err(IoError::NoMemory),
            Err(_) => {}
        }
    }
    Err(IoError::Failed)
}

impl<R: Clock + Copy> Acceptor for TcpAcceptor<R> {
    type Input = TcpInput<R>;

    type Output = TcpOutput<R>;

    ghost given_count = { λ a. a.given };

    ghost fault_count = { λ a. a.faults };

    fn next(&mut self, alloc: Global) -> Result<(TcpInput<R>, TcpOutput<R>), IoError> {
        if self.given < u64::MAX
            && let Ok(listener) = &self.listener
        {
            match next_whole(alloc, self.rt, listener) {
                Ok(ends) => {
                    self.given += 1;
                    return Ok(ends);
                }
                Err(IoError::NoMemory) => return Err(IoError::NoMemory),
                Err(IoError::Failed) => {}
            }
        }
        self.faults = self.faults.saturating_add(1);
        Err(IoError::Failed)
    }

    fn given(&self) -> u64 {
        self.given
    }

    fn faults(&self) -> u64 {
        self.faults
    }
}
