//! What a store keeps, and what may be done to it.

use roster_base::Bytes;

/// What stands under a label in an area.
#[derive(Drop)]
pub struct Item {
    pub label: Bytes,
    pub body: Bytes,
}

/// A change of a store's items.
#[derive(Drop)]
pub enum Edit {
    /// Stores the body at its place, whether or not one stands there.
    Put {
        area: u32,
        label: Bytes,
        body: Bytes,
    },
    /// Takes away the items of the area whose label is at least `from` and below `to`, in the order of bytes.
    Clear {
        area: u32,
        from: Bytes,
        to: Bytes,
    },
}
