//! Rows as queries look at them: whether a filter lets one through, and what it is sorted by.

pub mod filtering;
mod sets;
pub mod sort_key;
mod subject_value;
mod texts;

pub use filtering::{joined, passes};
pub use sort_key::SortKey;
