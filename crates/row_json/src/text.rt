//! The texts of rows.

ghost use Rattle.std.specs.Prelude.{◌≡◌, ◌≤◌, ◌++◌, [], None, Ok, IfOk, OnOk, flat_map, length, option_map};
ghost use Rattle.std.specs.Prelude.{string_bytes};
ghost use Rattle.std.specs.List.{All};
ghost use Rattle.json.specs.Print.{print};
ghost use Rattle.roster_types.specs.Lengths.{object_length};
ghost use Rattle.roster_types.specs.Rows.{longest};
ghost use Rattle.row_json.specs.Json.{collection_text, row_data, row_text, single_text};
ghost use Rattle.row_json.specs.Reading.{IsHeld, row_of, rows_of};
ghost use Rattle.row_json.specs.Tokens.{data_tokens};

use crate::members::write_row;
use json::Writer;
use roster_base::{NoMemory, Text};
use roster_types::row::Row;
use roster_values::Kind;
use std::alloc::Global;

// About how many bytes the text of a row has.
const ROW_LENGTH: usize = 512;

// A writer with room for the texts of so many rows.
fn writer_for(alloc: Global, rows: usize) -> Result<Writer, NoMemory>
    ensures before { IfOk result (λ out. out.before ≡ []) }
    ensures tokens { IfOk result (λ out. out.tokens ≡ []) }
{
    let room = Vec::with_capacity(alloc, rows.saturating_mul(ROW_LENGTH))?;
    Ok(Writer::new(room))
}

/// The text of what was written into an empty buffer.
pub(crate) fn written(out: Writer) -> String
    requires { out.before ≡ [] }
    ensures { string_bytes result ≡ print out.tokens }
{
    let bytes = out.into_inner();
    // SAFETY: a `Writer` prints UTF-8, and nothing stood in the buffer before.
    unsafe { String::from_utf8_unchecked(bytes) }
}

/// The object of a row: compact, its members in ascending order of their names. Absent fields and empty metadata are
/// left out, and of the others those that the choice doesn't name. The whole object is never longer than the longest
/// row may be.
pub fn row_text(alloc: Global, row: &Row, only: Option<&[Text]>) -> Result<String, NoMemory>
    ensures text { IfOk result (λ t. string_bytes t ≡ row_text (option_map (λ s. s.now) only.entry) row.now) }
    ensures length { IfOk result (λ t. only.entry ≡ None → length (string_bytes t) ≡ object_length row.now) }
    ensures bound { IfOk result (λ t. only.entry ≡ None → length (string_bytes t) ≤ longest) }
    ensures held { OnOk result (IsHeld row.now) }
{
    // Read for its clause `row`: a row is fitting and within the bound.
    let _ = row.kind();
    let mut out = writer_for(alloc, 1)?;
    let mut buffer = String::new(alloc);
    write_row(&mut out, &mut buffer, row, only)?;
    Ok(written(out))
}

/// The object with a row under its kind's single key. The text of the whole row is read back as the row.
pub fn single_text(alloc: Global, row: &Row, only: Option<&[Text]>) -> Result<String, NoMemory>
    ensures text { IfOk result (λ t. string_bytes t ≡ single_text (option_map (λ s. s.now) only.entry) row.now) }
    ensures back { IfOk result (λ t. only.entry ≡ None → row_of row.now.kind (string_bytes t) ≡ Ok row.now) }
{
    let mut out = writer_for(alloc, 1)?;
    let mut buffer = String::new(alloc);
    out.begin_object()?;
    out.key(row.kind().single())?;
    write_row(&mut out, &mut buffer, row, only)?;
    out.end_object()?;
    let text = written(out);
    // Read for its fact that the text is UTF-8.
    let _ = text.as_str();
    Ok(text)
}

// Writes the objects of rows.
fn write_rows(
    out: &mut Writer,
    buffer: &mut String,
    rows: &[Row],
    only: Option<&[Text]>,
) -> Result<(), NoMemory>
    ensures before { OnOk result (out.new.before ≡ out.old.before) }
    ensures tokens { OnOk result (out.new.tokens ≡ out.old.tokens ++ flat_map (λ row. data_tokens (row_data (option_map (λ s. s.now) only.entry) row)) rows.now) }
    ensures held { OnOk result (All IsHeld rows.now) }
{
    for row in rows {
        // Read for its clause `row`: a row is fitting and within the bound.
        let _ = row.kind();
        write_row(out, buffer, row, only)?;
    }
    Ok(())
}

/// The object with the rows of a kind under the kind's plural key. The text of the whole rows is read back as the rows.
pub fn collection_text(
    alloc: Global,
    kind: Kind,
    rows: &[Row],
    only: Option<&[Text]>,
) -> Result<String, NoMemory>
    ensures text { IfOk result (λ t. string_bytes t ≡ collection_text (option_map (λ s. s.now) only.entry) kind rows.now) }
    ensures back { IfOk result (λ t. only.entry ≡ None → All (λ r. r.kind ≡ kind) rows.now → rows_of kind (string_bytes t) ≡ Ok rows.now) }
{
    let mut out = writer_for(alloc, rows.len())?;
    let mut buffer = String::new(alloc);
    out.begin_object()?;
    out.key(kind.plural())?;
    out.begin_array()?;
    write_rows(&mut out, &mut buffer, rows, only)?;
    out.end_array()?;
    out.end_object()?;
    let text = written(out);
    // Read for its fact that the text is UTF-8.
    let _ = text.as_str();
    Ok(text)
}
