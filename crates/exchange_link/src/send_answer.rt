//! Answers of the outbox.

/// How sending the entries of an outbox ended. A `number` is that of the entry at which it ended.
#[derive(Clone, Copy, Debug, PartialEq, Eq)]
pub enum SendAnswer {
    /// No entry waits; so many were settled.
    Settled { count: u64 },
    /// The link failed at every try of this entry's request.
    Interrupted { number: u64 },
    /// The hub knows no such token.
    UnknownToken,
    /// The token's grant doesn't open this entry's write.
    NoScope { number: u64 },
    /// The keeper of the copy failed.
    KeeperFault,
    /// The reply to this entry's request is none that a hub gives.
    BadReply { number: u64 },
    /// The hub has taken another write under this entry's mark.
    MarkTaken { number: u64 },
    /// The keeper of the hub failed at this entry.
    HubFault { number: u64 },
    /// The hub wanted memory at this entry.
    HubNoMemory { number: u64 },
    /// The last run is over.
    LastRun,
    /// Memory ran out.
    NoMemory,
}

/// Why an entry wasn't put into the outbox.
#[derive(Clone, Copy, Debug, PartialEq, Eq)]
pub enum EnterError {
    /// The last number of an entry is given.
    LastNumber,
    /// The keeper of the copy failed.
    KeeperFault,
    /// Memory ran out.
    NoMemory,
}
