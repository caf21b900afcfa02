//! The laws of what a caller sees, and the types of a page.

pub mod laws;
pub mod page;

pub use page::{DeltaPage, Page};
