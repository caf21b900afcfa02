//! Runs of scripts: a hub, a copy and the link between them, line by line; a rehearsal, and a district that is made.
#![tactic(auto)]

pub mod make;
pub mod play;
pub mod rehearse;
mod run;
mod sayings;
mod sources;

pub use hub_commands as commands;
pub use play::Play;
pub use run::{ScriptEnd, run_script};
pub use sources::Stop;
