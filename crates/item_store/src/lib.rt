//! A finite map from an area and a label to a body, in one table of an SQLite database; and the statements over that
//! table, one call of the database each, with what each makes of the items that a connection stands for.
#![tactic(auto)]

mod changes;
mod edits;
mod items;
mod listing;
mod probe;
mod store;
mod table;
mod transaction;

pub use item_maps::{Edit, Item};
pub use listing::MOST_ITEMS;
pub use store::ItemStore;
