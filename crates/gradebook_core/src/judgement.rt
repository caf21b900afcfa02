//! Verdicts on writes.

use crate::outcome::Check;
use version_core::change::Change;
use version_core::mark::Kept;

/// What becomes of a write.
#[derive(Drop)]
pub enum Judgement {
    /// The change to the next version.
    New(Change),
    /// Nothing new: what the write asks for stands already.
    Same,
    /// The same write is held under its mark, with what was kept of it.
    Repeat(Kept),
    /// The first check that the write fails.
    Refused(Check),
}
