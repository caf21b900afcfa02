//! The keeper of a hub's state over a store of items.

mod commit;
pub mod item_hub;
mod load;
mod oldest;
mod prepare;
mod reading;
mod rows;
mod spans;
mod state;
pub mod tables;

pub use item_hub::ItemHub;
