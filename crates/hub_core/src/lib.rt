//! A hub's state in memory, beside the keeper that it stands in.
#![tactic(auto)]

pub mod hub;
pub mod hub_error;
pub mod published;
mod room;

pub use hub::Hub;
pub use hub_error::HubError;
pub use published::Published;
