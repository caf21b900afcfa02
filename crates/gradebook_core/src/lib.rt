//! Gradebook writes: what becomes of one, by checks in order, and how a hub does it.
#![tactic(auto)]

mod checks;
mod fields;
mod judgement;
mod judging;
mod outcome;
mod refusals;
mod repeats;
mod stored;
mod writing;
mod written;

pub use judgement::Judgement;
pub use judging::{Asking, judge};
pub use outcome::{Check, Outcome};
// What crates above call of `query_pages`, which they then needn't list.
pub use query_pages as pages;
pub use writing::write;
pub use written::Written;
