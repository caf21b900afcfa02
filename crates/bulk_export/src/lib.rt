//! A copy's held rows written as a CSV set, whole or as the changes against an earlier set.
#![tactic(auto)]

mod changes;
mod earlier;
mod error;
mod file;
pub mod laws;
mod manifest;
mod text;

pub use changes::export_changes;
pub use error::ExportError;
pub use file::export_file;
pub use manifest::export_manifest;
