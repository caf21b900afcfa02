//! The keepers of a hub's state and of a consumer's copy over a store of items, and that store in a database.
#![tactic(auto)]

pub mod closed;
pub mod copy;
pub mod hub;
mod ranges;
mod rest;
pub mod sql_items;
pub mod stored_items;

pub use closed::ClosedStore;
pub use copy::ItemCopy;
pub use hub::ItemHub;
pub use sql_items::SqlItems;
pub use stored_items::StoredItems;

/// The keeper of a hub's state in a database.
pub type SqlHub<S> = ItemHub<SqlItems<S>>;

/// The keeper of a consumer's copy in a database.
pub type SqlCopy<S> = ItemCopy<SqlItems<S>>;
