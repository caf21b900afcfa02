//! Answers of a synchronisation.

use roster_values::Kind;

/// How a synchronisation ended.
#[derive(Clone, Copy, Debug, PartialEq, Eq)]
pub enum SyncAnswer {
    /// The copy holds this version, whole.
    Complete { version: u64 },
    /// The link failed at every try of the request for this place of this kind.
    Interrupted { kind: Kind, offset: u64 },
    /// The hub keeps the pinned version no longer, or the token's grant has changed since; the stage was let go.
    PinGone { pin: u64, oldest: u64 },
    /// The hub knows no such token.
    UnknownToken,
    /// The hub says that the kind has more rows than a copy takes.
    TooLarge { kind: Kind, total: u64 },
    /// The keeper of the copy failed.
    KeeperFault,
    /// The reply to the request for this place of this kind is none that a hub gives.
    BadReply { kind: Kind, offset: u64 },
    /// The keeper of the hub failed.
    HubFault,
    /// The hub wanted memory.
    HubNoMemory,
    /// The last run is over.
    LastRun,
    /// Memory ran out.
    NoMemory,
}
