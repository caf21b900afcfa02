//! The limit of numbers.

/// The greatest number that a version, a run, a mark or an entry of an outbox has.
pub const LAST_NUMBER: u64 = 1_000_000_000_000_000;
