//! Rows as JSON texts, as the REST binding has them, both ways.
#![tactic(auto)]

mod cell_texts;
mod delta;
mod fault;
mod guess;
mod members;
mod order;
mod put;
mod read;
mod text;
mod values;
mod written;

pub use delta::{delta_text, read_gone};
pub use fault::{JsonError, JsonFault};
pub use put::read_put;
pub use read::{read_collection, read_row};
pub use text::{collection_text, row_text, single_text};
