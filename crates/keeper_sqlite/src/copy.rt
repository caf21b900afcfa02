//! The keeper of a consumer's copy over a store of items.

mod commit;
mod edits;
pub mod item_copy;
mod prepare;
mod reads;
mod stored;

pub use item_copy::ItemCopy;
