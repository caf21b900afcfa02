//! What a set that a feed publishes makes of the newest version.

pub mod draft;
mod index;
pub mod laws;
mod listed;
mod marks;
pub mod publish;
pub mod publish_fault;
pub mod refusals;
mod soundness;

pub use marks::{is_active, marked};
pub use publish::{set_change, set_change_over};
pub use publish_fault::PublishFault;
