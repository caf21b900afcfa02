//! Whole rosters and changes.

/// What a set of files holds.
#[derive(Clone, Copy, Debug, PartialEq, Eq)]
pub enum Mode {
    /// Every record of each kind that the set has a file for.
    Bulk,
    /// The records that changed.
    Delta,
}
