//! What the hub is, apart from all code: what a caller sees, what becomes of a write, what a request is answered, what
//! a run is, what the text of a request wants, what a mark keeps. The crate has definitions, their laws and worked
//! examples; the calls that compute them stand in the crates above.
#![tactic(auto)]

pub mod marks;
pub mod requests;
pub mod rules;
pub mod views;

pub use views::{DeltaPage, Page};
