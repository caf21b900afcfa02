//! The items in which a hub's state is kept in format 2: its rows as spans, written and read, and the edits of a commit
//! and of the change from format 1.
#![tactic(auto)]

mod edits;
mod fold;
mod keys;
pub mod laws;
mod plan;
mod read_spans;
mod writing;

pub use edits::turn_edits;
pub use plan::{Oldest, commit_edits};
pub use read_spans::rows_within;
pub use writing::first_edits;
