//! A link to a hub in the same program, which tells all of it, with all that others do to that hub, and the calls of
//! the consumer over it.
#![tactic(auto)]

pub mod acts;
mod asking;
mod delivery;
mod gone;
mod own_text;
pub mod past;
mod rows;
pub mod sending;
pub mod syncing;
pub mod traffic;
pub mod world;
pub mod world_link;

pub use acts::{HubAct, Saying};
pub use rest_provider as provider;
pub use sending::send_over;
pub use syncing::{nothing_sent_agrees, sync_over};
pub use traffic::{Fate, Happening};
pub use world::World;
pub use world_link::WorldLink;
