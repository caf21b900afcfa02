//! Rows of texts as this crate writes them, read without a tree.

ghost use Rattle.std.specs.Prelude.{◌≡◌, true, IfOk, IfSome, Ok, string_bytes};
ghost use Rattle.std.specs.List.{All};
ghost use Rattle.row_json.specs.Reading.{row_of, rows_of};

use crate::guess::{guess_row, guess_rows};
use crate::text::{collection_text, single_text};
use roster_base::NoMemory;
use roster_types::row::Row;
use roster_values::Kind;
use std::alloc::Global;

// Whether a string is this text.
fn is_text(own: &String, text: &str) -> bool
    ensures { result ≡ true → string_bytes own.now ≡ text.now }
{
    own.as_str() == text
}

/// The row of a single text that this crate could have written; none of any other text.
pub fn written_row(alloc: Global, kind: Kind, bytes: &[u8]) -> Result<Option<Row>, NoMemory>
    ensures row { IfOk result (λ o. IfSome o (λ row. row_of kind bytes.now ≡ Ok row)) }
    ensures kind { IfOk result (λ o. IfSome o (λ row. row.kind ≡ kind)) }
{
    let Ok(text) = std::str::from_utf8(bytes) else {
        return Ok(None);
    };
    let Some(row) = guess_row(alloc, kind, text)? else {
        return Ok(None);
    };
    let own = single_text(alloc, &row, None)?;
    if !is_text(&own, text) {
        return Ok(None);
    }
    Ok(Some(row))
}

/// The rows of a collection's text that this crate could have written; none of any other text.
pub fn written_rows(alloc: Global, kind: Kind, bytes: &[u8]) -> Result<Option<Vec<Row>>, NoMemory>
    ensures rows { IfOk result (λ o. IfSome o (λ rows. rows_of kind bytes.now ≡ Ok rows.items)) }
    ensures kinds { IfOk result (λ o. IfSome o (λ rows. All (λ r. r.kind ≡ kind) rows.items)) }
{
    let Ok(text) = std::str::from_utf8(bytes) else {
        return Ok(None);
    };
    let Some(rows) = guess_rows(alloc, kind, text)? else {
        return Ok(None);
    };
    let own = collection_text(alloc, kind, rows.as_slice(), None)?;
    if !is_text(&own, text) {
        return Ok(None);
    }
    Ok(Some(rows))
}
