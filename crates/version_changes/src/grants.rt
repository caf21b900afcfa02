//! What a list of grants makes of the newest version.

pub mod granting;
pub mod laws;

pub use granting::grants_change;
