//! Whether a keeper's tables stand for a state of a hub.

mod changes;
mod counts;
mod grants;
mod keeping;
mod marks;
mod order;
mod tables;

pub use order::are_changes;
pub use tables::are_tables;
