//! Why a peer gave no reply.

use std::io::ErrorKind;

/// Why an exchange over sockets brought no reply. No contract speaks of it: it is told to people.
#[derive(Clone, Copy, Debug, PartialEq, Eq)]
pub enum Unreached {
    /// The address leads nowhere: no host has the name, or no network leads to it.
    NoHost,
    /// Nobody listens there.
    Refused,
    /// It took too long.
    TimedOut,
    /// The connection broke.
    Broken,
    /// What came is no reply of HTTP.
    NoHttp,
}

impl Unreached {
    /// What an error of a call over a socket says.
    pub(crate) fn by(kind: ErrorKind) -> Unreached {
        match kind {
            ErrorKind::ConnectionRefused => Unreached::Refused,
            ErrorKind::TimedOut | ErrorKind::WouldBlock => Unreached::TimedOut,
            ErrorKind::ConnectionReset
            | ErrorKind::ConnectionAborted
            | ErrorKind::BrokenPipe
            | ErrorKind::UnexpectedEof => Unreached::Broken,
            _ => Unreached::NoHost,
        }
    }

    /// The reason in words.
    pub fn text(self) -> &'static str {
        match self {
            Unreached::NoHost => "no such host, or no way to it",
            Unreached::Refused => "connection refused",
            Unreached::TimedOut => "timed out",
            Unreached::Broken => "the connection broke",
            Unreached::NoHttp => "what came is no HTTP reply",
        }
    }
}
