//! What a request asks and what a reply says, apart from their bytes.
#![tactic(auto)]

pub mod cause;
pub mod reply;
pub mod request;

pub use cause::Cause;
pub use reply::{LinkItem, Rel, Reply, Warnings};
pub use request::{Echo, MarkField, Request, Verb};
