//! A server over a hub that threads share: it serves connections and feeds sets at once.
#![tactic(auto)]

pub mod ending;
mod jobs;
pub mod notices;
pub mod ports;
pub mod server;

pub use ending::Ending;
pub use hub_shared as shared;
pub use notices::{NoNotices, Notices};
pub use ports::{Doors, Ports};
pub use server::{Served, serve_task};
