//! What is wrong with the text of a value.

/// Why a text is no value of its field.
#[derive(Clone, Copy, Debug, PartialEq, Eq)]
pub enum ValueFault {
    /// The field is required, and its text is blank.
    Empty,
    /// The text is none of the words that the field allows.
    NotInList,
    /// The text is no day.
    BadDay,
    /// The text is no moment.
    BadMoment,
    /// The text is no number.
    BadNumber,
    /// The number has digits after the point that are not all zeros.
    Fractional,
    /// The id is longer than 255 bytes.
    TooLong,
    /// The text is no list of user ids.
    BadList,
    /// The text is no id.
    BadId,
    /// The line has more or fewer cells than its file has columns.
    Width,
}
