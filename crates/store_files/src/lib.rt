//! The files of a store: where they are, how they are made and opened, and what they are to a run.
#![tactic(auto)]

pub mod file_items;
pub mod opening;

pub use file_items::{FileItems, OpenStore};
pub use opening::{COPY_FILE, HUB_FILE, open_store};
