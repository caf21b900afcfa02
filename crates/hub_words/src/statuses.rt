//! The statuses that the program ends with. The peer is the hub that a consumer copies.

/// What was asked for is done, and the output is written.
pub const DONE: u8 = 0;

/// The output couldn't be written. This status goes before every other one.
pub const OUTPUT_FAILED: u8 = 1;

/// The words are no command.
pub const BAD_WORDS: u8 = 2;

/// The folder of the files failed.
pub const FOLDER_FAILED: u8 = 3;

/// The input is refused.
pub const REFUSED: u8 = 4;

/// The hub's keeper failed.
pub const HUB_FAILED: u8 = 5;

/// The copy's keeper failed.
pub const COPY_FAILED: u8 = 6;

/// A request to the peer got no reply of its own, however often it was tried.
pub const INTERRUPTED: u8 = 7;

/// The peer keeps the pinned version no longer, or the token's grant has changed since.
pub const PIN_GONE: u8 = 8;

/// The peer knows no such token.
pub const UNKNOWN_TOKEN: u8 = 9;

/// The token's grant doesn't open a write.
pub const NO_SCOPE: u8 = 10;

/// The peer has taken another write under the mark of an entry.
pub const MARK_TAKEN: u8 = 11;

/// A reply isn't one that a hub gives.
pub const BAD_REPLY: u8 = 12;

/// There are too many rows, or bytes of a file.
pub const TOO_LARGE: u8 = 13;

/// The peer's keeper failed.
pub const PEER_FAILED: u8 = 14;

/// The peer ran out of memory.
pub const PEER_NO_MEMORY: u8 = 15;

/// The last number that a run or an entry may have is in use already, so that no new one can begin.
pub const LAST_NUMBER: u8 = 16;

/// Memory ran out, which says nothing of the input.
pub const NO_MEMORY: u8 = 17;

/// An acceptor of a server failed.
pub const ACCEPTOR_FAILED: u8 = 18;

/// Nothing is held from which the differences could be asked for.
pub const NO_BASE: u8 = 19;

/// The peer keeps the held version no longer, or the token's grant has changed since.
pub const BASE_GONE: u8 = 20;

/// The copy that was to be exported or cascaded holds nothing.
pub const NOTHING_HELD: u8 = 21;
