//! The incremental synchronisation: of each kind what differs from the held version on, merged with what is held.
#![tactic(auto)]

pub mod answer;
mod filling;
mod fitting;
mod gathered;
mod gathering;
mod judging;
pub mod laws;
mod merged;
mod request;
mod run;
mod staged;

pub use answer::DeltaAnswer;
pub use consumer_sync as whole;
pub use run::delta_sync;
