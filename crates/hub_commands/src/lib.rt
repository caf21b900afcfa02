//! What each command answers: lines, ends and statuses, over whatever folder, keepers, link, clock and sink are handed
//! in.
#![tactic(auto)]

pub mod answer;
pub mod ask;
pub mod cascade;
pub mod delta;
pub mod enter;
pub mod export;
pub mod follow;
pub mod grant;
pub mod lines;
pub mod list;
pub mod outbox;
pub mod printing;
pub mod publish;
pub mod send;
pub mod show;
pub mod sync;

pub use answer::{Answer, End};
pub use consumer_commands as consumer;
pub use printing::print;
