//! A copy, whole.

use crate::copy::entry::OutEntry;
use crate::copy::state::StageState;
use roster_base::Items;
use roster_texts::Token;
use roster_types::row::Row;

/// A version and its lists, one for each kind in their order.
#[derive(Drop)]
pub struct HeldRows {
    /// The number of the version.
    pub version: u64,
    pub rows: Vec<Items<Row>>,
}

/// A stage and its lists, one for each kind in their order.
#[derive(Drop)]
pub struct StagedRows {
    pub state: StageState,
    pub rows: Vec<Items<Row>>,
}

/// A copy, whole.
#[derive(Drop)]
pub struct CopyTables {
    /// The number of the last run, or 0.
    pub run: u64,
    /// The version that is held.
    pub held: Option<HeldRows>,
    /// The token under which it was copied, where that is known.
    pub held_token: Option<Token>,
    /// What an unfinished synchronisation has gathered.
    pub stage: Option<StagedRows>,
    /// The outbox, in the order of its numbers.
    pub entries: Vec<OutEntry>,
    /// The number of the last entry, or 0.
    pub last_number: u64,
}
