//! Files of comma-separated values: the rows of one kind that a file's records spell, the set that the files of a
//! folder mean together under their manifest, or the first fault; and the text of a file that is written.
#![tactic(auto)]

pub mod cells;
pub mod fault;
pub mod file;
mod header;
mod keys;
pub mod manifest;
pub mod property;
pub mod records;
mod row;
pub mod set;
mod writing;

pub use fault::{
    ColumnFault, ManifestError, ManifestFault, RowError, RowFault, SetError, SetFault, SetFile,
};
pub use file::read_file;
pub use manifest::{ListedFile, Manifest, read_manifest};
pub use property::Property;
pub use set::read_set;
pub use writing::write_file;
