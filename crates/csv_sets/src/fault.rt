//! Why a set of files is refused.

ghost use Rattle.std.specs.Prelude.{◌≡◌};
ghost use Rattle.csv_sets.specs.Names.{name_of};

use crate::property::Property;
use roster_base::{Refusal, Text};
use roster_texts::ValueFault;
use roster_values::Kind;

/// A file of a set.
#[derive(Clone, Copy, Debug, PartialEq, Eq)]
pub enum SetFile {
    /// `manifest.csv`.
    Manifest,
    /// The file with the rows of a kind.
    RowsOf(Kind),
}

impl SetFile {
    /// Its name in the set's folder.
    pub fn name(self) -> &'static str
        ensures { result.now ≡ name_of self }
    {
        match self {
            SetFile::Manifest => "manifest.csv",
            SetFile::RowsOf(kind) => kind.file_name(),
        }
    }
}

/// What is wrong with a column of a header.
#[derive(Clone, Copy, Debug, PartialEq, Eq)]
pub enum ColumnFault {
    /// A column that is read stands twice.
    Repeated,
    /// The key behind `metadata.` breaks the rule of ids.
    BadKey,
    /// A required column isn't there.
    Missing,
}

/// What is wrong with a record: the first bad field, or `*` where it is the record itself.
#[derive(Drop)]
pub struct RowFault {
    /// The column of the field.
    pub field: Text,
    /// What is wrong with its value.
    pub fault: ValueFault,
}

/// Why no row was read.
pub type RowError = Refusal<RowFault>;

/// What is wrong with a manifest.
#[derive(Clone, Copy, Debug, PartialEq, Eq)]
pub enum ManifestFault {
    /// The header isn't `propertyName,value`.
    Header,
    /// A record has no two cells.
    Width { record_no: u64 },
    /// A property stands in an earlier record.
    Repeated { property: Property },
    /// A version isn't the one that is read: `1.0` of manifests and `1.1` of OneRoster.
    Version { property: Property },
    /// A file's value is none of `bulk`, `delta` and `absent`.
    UnknownMode { property: Property },
    /// A version isn't there.
    Missing { property: Property },
}

/// Why no manifest was read.
pub type ManifestError = Refusal<ManifestFault>;

/// The first fault of a file or a set. Records are numbered from 1, the header being the first.
#[derive(Drop)]
pub enum SetFault {
    /// The manifest is wrong.
    Manifest(ManifestFault),
    /// A file isn't there that ought to be.
    MissingFile {
        file: SetFile,
    },
    /// A file is there that the manifest says is absent.
    UnexpectedFile {
        file: SetFile,
    },
    /// A header's column is wrong.
    Column {
        file: SetFile,
        column: Text,
        fault: ColumnFault,
    },
    /// A field of a record is wrong.
    Row {
        file: SetFile,
        record_no: u64,
        field: Text,
        fault: ValueFault,
    },
    /// A record's id stands in an earlier record.
    RepeatedId {
        file: SetFile,
        record_no: u64,
    },
    /// A file has over 67,108,864 bytes.
    TooLarge {
        file: SetFile,
    },
    /// A file is no UTF-8.
    NotUtf8 {
        file: SetFile,
    },
    /// The folder failed, and its count of faults tells of it.
    Folder,
}

/// Why no set was read.
pub type SetError = Refusal<SetFault>;
