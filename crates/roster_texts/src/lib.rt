//! What the texts of a roster write: ids, names and tokens, days and moments, numbers, years and flags.
#![tactic(auto)]

mod clock;
pub mod day;
pub mod digits;
pub mod fault;
pub mod id;
pub mod moment;
pub mod name;
pub mod number;
pub mod token;
pub mod trim;
mod zone;

pub use day::{Day, DayParts};
pub use fault::ValueFault;
pub use id::Id;
pub use moment::Moment;
pub use name::Name;
pub use token::Token;
