//! The paths of the hub: which route a path has, and which objects it names.
#![tactic(auto)]

pub mod laws;
pub mod path;
pub mod route;
pub mod router;

pub use path::Path;
pub use route::{Collection, Route};
pub use router::PathRouter;
