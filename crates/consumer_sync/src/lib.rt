//! The consumer's synchronisation: page after page of what a token sees of one version of its hub, staged and swapped
//! in.
#![tactic(auto)]

pub mod filling;
pub mod judging;
pub mod page;
pub mod run;
pub mod staging;

pub use run::sync;
