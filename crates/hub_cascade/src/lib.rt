//! A hub that serves a copy onward: the rows that the copy holds become those of a feed in the hub's newest version.
#![tactic(auto)]

mod cascading;
mod change;
mod error;
mod held;
pub mod laws;

pub use cascading::cascade;
pub use error::CascadeError;
