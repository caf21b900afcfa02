//! Why a JSON text gives no row.

use roster_base::{Refusal, Text};
use roster_texts::ValueFault;

/// The first fault of a JSON text that ought to say a row, or rows.
#[derive(Drop)]
pub enum JsonFault {
    /// `serde_json` doesn't read the text: it is no UTF-8, no JSON, nests too deep, or has a number that is too large.
    NotJson,
    /// The key isn't there, or its value isn't an object, or of a collection an array of objects.
    Shape,
    /// A member is bad: the first in the order of fields, then the metadata, then `*` where the row is too long.
    Field {
        /// The member's name.
        name: Text,
        /// What is wrong with its value.
        fault: ValueFault,
    },
    /// The text names another row than the one that is written.
    OtherId,
}

/// Why no row was read.
pub type JsonError = Refusal<JsonFault>;
