//! Rows of sets.

use crate::row::Row;
use roster_base::Keyed;

/// A row of a set, and whether it brings its date. One that doesn't carries the moment 0 until it is published.
#[derive(Drop)]
pub struct SetRow {
    pub row: Row,
    pub dated: bool,
}

impl Keyed for SetRow {
    ghost key_of = { λ listed. listed.row.id };

    fn key(&self) -> &str {
        self.row.id().as_str()
    }
}
