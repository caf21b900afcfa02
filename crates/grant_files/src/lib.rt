//! Files of grants: who may ask a hub, by which token it is known, for what it may ask, and of which schools.
#![tactic(auto)]

mod entry;
pub mod fault;
pub mod file;
mod known;
mod schools;

pub use fault::{GrantError, GrantFault};
pub use file::read_grants;
