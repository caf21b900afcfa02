//! Limits of a roster.

use roster_base::LAST_NUMBER;

/// The greatest number of a version.
pub const LAST_VERSION: u64 = LAST_NUMBER;

/// How many rows a kind may have.
pub const ROW_LIMIT: u64 = 1_000_000;
