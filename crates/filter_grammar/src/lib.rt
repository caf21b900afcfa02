//! The query of a read: what its text asks for, or its first fault; the escapes in it and what they stand for; whether
//! its filter lets a row through, and what a row is sorted by.
#![tactic(auto)]

pub mod decoded;
pub mod escapes;
pub mod fault;
pub mod filter;
pub mod laws;
mod names;
mod numbers;
pub mod parameter;
pub mod query;
mod read_filter;
pub mod rows;
pub mod subject;
mod words;

pub use escapes::has_whole_escapes;
pub use fault::{QueryError, QueryFault};
pub use filter::{Comparison, Filter, Joint, Predicate};
pub use numbers::number_of_text;
pub use query::{Order, Query, pin_of, read_query};
pub use rows::{SortKey, joined, passes};
