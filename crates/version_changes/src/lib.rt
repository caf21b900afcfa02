//! What a set that a feed publishes, and a list of grants, make of the newest version; and whether a keeper's tables
//! stand for a state of a hub.
#![tactic(auto)]

pub mod grants;
pub mod limits;
pub mod sets;
mod sound;

pub use grants::grants_change;
pub use sets::{PublishFault, is_active, marked, set_change, set_change_over};
pub use sound::{are_changes, are_tables};
