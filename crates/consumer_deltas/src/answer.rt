//! Answers of an incremental synchronisation.

use exchange_link::SyncAnswer;

/// How an incremental synchronisation ended.
#[derive(Clone, Copy, Debug, PartialEq, Eq)]
pub enum DeltaAnswer {
    /// As a synchronisation ends. The offset of `Interrupted` and of `BadReply` is one among the entries of the kind's
    /// delta, and `TooLarge` tells how many entries the delta has, or how many rows the kind would have.
    Ended { answer: SyncAnswer },
    /// Nothing is held, or it wasn't copied under this token. Nothing was asked for, and nothing changed.
    NoBase,
    /// The hub keeps the held version no longer, or the token's grant has changed since; the stage stands.
    BaseGone { held: u64, oldest: u64 },
}
