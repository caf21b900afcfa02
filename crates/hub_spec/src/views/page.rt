//! Pages of a list.

use roster_base::Items;
use roster_texts::Id;
use roster_types::row::Row;
use status_info::LinkItem;

/// Rows of a list, the length of the whole list, and where its other pages are.
#[derive(Drop)]
pub struct Page {
    pub rows: Items<Row>,
    pub total: u64,
    pub links: Items<LinkItem>,
}

/// Entries of what differs between two versions of the rows of a kind: the rows that are put and the ids that are gone;
/// how many entries there are in all, and where the other pages are.
#[derive(Drop)]
pub struct DeltaPage {
    pub rows: Items<Row>,
    pub gone: Items<Id>,
    pub total: u64,
    pub links: Items<LinkItem>,
}
