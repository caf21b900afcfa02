//! The link between a consumer and its hub: what one exchange does, what both agree on, and what a synchronisation over
//! it leaves; links that tell nothing of a hub (to none, to replies that are given beforehand, over a socket); and a
//! request that is tried until its own reply comes.
#![tactic(auto)]

pub mod answer;
mod arrival;
mod asking;
mod beginning;
mod inbox;
pub mod link;
pub mod no_link;
mod own;
pub mod peer_link;
mod reading;
mod reply_bytes;
pub mod send_answer;
mod socket_exchange;
pub mod socket_link;
pub mod tally;
mod unreached;

pub use answer::SyncAnswer;
pub use asking::{Outcome, ask};
pub use beginning::{NoRun, begin_run};
pub use link::Link;
pub use no_link::NoLink;
pub use peer_link::PeerLink;
pub use reading::request_of;
pub use send_answer::{EnterError, SendAnswer};
pub use socket_link::SocketLink;
pub use tally::Tally;
pub use unreached::Unreached;
