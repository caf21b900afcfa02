//! The cells of a record, as texts.

ghost use Rattle.std.specs.Prelude.{◌≡◌};
ghost use Rattle.csv.specs.Records.{AllText, fields_of};
ghost use Rattle.csv_sets.specs.Cells.{cell_at, text_at};

use csv::ByteRecord;
use roster_texts::trim::trim_spaces;

/// The text of the cell at a place, empty where there is no such column.
pub fn cell_at(cells: &ByteRecord, place: Option<usize>) -> &str
    requires { AllText (fields_of cells.now) }
    ensures { result.now ≡ cell_at (fields_of cells.now) place }
{
    let Some(place) = place else {
        return "";
    };
    let Some(bytes) = cells.get(place) else {
        return "";
    };
    // SAFETY: the clause above says that each cell is UTF-8, so it isn't read again.
    unsafe { str::from_utf8_unchecked(bytes) }
}

/// The text of the cell at a place, without the spaces at its ends.
pub fn text_at(cells: &ByteRecord, place: usize) -> &str
    requires { AllText (fields_of cells.now) }
    ensures { result.now ≡ text_at (fields_of cells.now) place }
{
    trim_spaces(cell_at(cells, Some(place)))
}
