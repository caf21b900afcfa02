//! A hub that follows another one: a synchronisation, and a cascade of what it leaves.
#![tactic(auto)]

mod answer;
mod catching;
mod following;

pub use answer::{FollowAnswer, FollowTask};
pub use following::follow;
