//! Why what stands behind the answered requests of a stream is refused.

use http_wire::WireFault;

/// Why bytes that stand behind the answered requests of a stream are refused.
#[derive(Clone, Copy, Debug, PartialEq, Eq)]
pub enum RequestFault {
    /// No request can be read of them, for this fault.
    Unreadable(WireFault),
    /// They stand behind a request that closes the stream.
    AfterClose,
}
