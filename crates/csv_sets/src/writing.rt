//! The texts of files that are written.

ghost use Rattle.std.specs.Prelude.{◌≡◌, ◌≤◌, ◌++◌, Ok, Some, bytes_eq, codes, length, map, slice_get, slice_index_or};
ghost use Rattle.std.specs.Prelude.{string_bytes, true, IfOk, OnOk};
ghost use Rattle.std.specs.List.{All, IsDistinct};
ghost use Rattle.csv.specs.Records.{AllText};
ghost use Rattle.csv.specs.Writing.{default_writer, row_text};
ghost use Rattle.roster_texts.specs.Texts.{is_id};
ghost use Rattle.roster_types.specs.Records.{all_values};
ghost use Rattle.roster_types.specs.Rows.{IsRow};
ghost use Rattle.roster_values.specs.Table.{info_of, table};
ghost use Rattle.csv_sets.specs.Files.{file_of, largest};
ghost use Rattle.roster_values.specs.declared.mode.Mode.{Mode};
ghost use Rattle.csv_sets.specs.Left.{AllRowsText};
ghost use Rattle.csv_sets.specs.Lines.{IsFresh, text_in};
ghost use Rattle.csv_sets.specs.Written.{dated, field_cell, lines_text, metadata_cell, written_cells, written_header};
ghost use Rattle.csv_sets.specs.Written.{written_text};

use crate::keys::{MetadataKey, keys_of};
use csv::{Writer, WriterBuilder};
use roster_base::NoMemory;
use roster_types::cell_text::cell_text;
use roster_types::metadata::Entry;
use roster_types::row::Row;
use roster_values::fields::fields;
use roster_values::{FieldInfo, Kind};
use std::alloc::Global;

// Adds the columns of the kind's fields.
fn push_columns(alloc: Global, cells: &mut Vec<String>, infos: &[FieldInfo]) -> Result<(), NoMemory>
    ensures { OnOk result (map string_bytes cells.new.items ≡ map string_bytes cells.old.items
        ++ map (λ i. i.column.now) infos.now) }
{
    for info in infos {
        cells.push(String::from_str(alloc, info.column)?)?;
    }
    Ok(())
}

// The column of a key.
fn key_column(alloc: Global, key: &MetadataKey) -> Result<String, NoMemory>
    ensures name { IfOk result (λ s. string_bytes s ≡ codes "metadata." ++ key.now.key) }
    ensures good { is_id key.now.key ≡ true }
{
    let key = key.key.as_str();
    let mut column = String::from_str(alloc, "metadata.")?;
    column.push_str(key)?;
    Ok(column)
}

// Adds the columns of the keys.
fn push_key_columns(
    alloc: Global,
    cells: &mut Vec<String>,
    keys: &[MetadataKey],
) -> Result<(), NoMemory>
    ensures cells { OnOk result (map string_bytes cells.new.items ≡ map string_bytes cells.old.items
        ++ map (λ k. codes "metadata." ++ k.key) keys.now) }
    ensures good { OnOk result (All (λ k. is_id k.key ≡ true) keys.now) }
{
    for key in keys {
        cells.push(key_column(alloc, key)?)?;
    }
    Ok(())
}

// The cells of the header.
fn header_cells(alloc: Global, kind: Kind, keys: &[MetadataKey]) -> Result<Vec<String>, NoMemory>
    ensures cells { IfOk result (λ v. map string_bytes v.items ≡ written_header kind keys.now) }
    ensures good { OnOk result (All (λ k. is_id k.key ≡ true) keys.now) }
{
    let mut cells = Vec::new(alloc);
    push_columns(alloc, &mut cells, fields(kind))?;
    push_key_columns(alloc, &mut cells, keys)?;
    Ok(cells)
}

// The text of a field's cell, blank where the field is absent.
fn field_cell(alloc: Global, row: &Row, place: usize, info: &FieldInfo) -> Result<String, NoMemory>
    requires { slice_get (table row.now.kind) place ≡ Some (info_of info.now) }
    ensures { IfOk result (λ s. string_bytes s ≡ field_cell (slice_index_or (all_values row.now) place None)) }
{
    // Read for its clause `row`, by which the row has as many values as its kind has fields.
    let _ = row.kind();
    match row.value(place) {
        Some(value) => cell_text(alloc, value),
        None => Ok(String::new(alloc)),
    }
}

// Adds the cells of a row's fields.
fn field_cells(alloc: Global, row: &Row) -> Result<Vec<String>, NoMemory>
    ensures cells { IfOk result (λ v. map string_bytes v.items ≡ map field_cell (all_values row.now)) }
    ensures row { IsRow row.now }
{
    let infos = fields(row.kind());
    let mut cells = Vec::new(alloc);
    for place in 0..infos.len() {
        cells.push(field_cell(alloc, row, place, &infos[place])?)?;
    }
    Ok(cells)
}

// The text of the entry with a key, blank where there is none.
fn metadata_cell<'a>(entries: &'a [Entry], key: &str) -> &'a str
    ensures { result.now ≡ metadata_cell entries.now key.now }
{
    for entry in entries {
        if entry.key.as_str() == key {
            return entry.text.as_str();
        }
    }
    ""
}

// Adds the cells of a row's metadata.
fn push_metadata(
    alloc: Global,
    cells: &mut Vec<String>,
    keys: &[MetadataKey],
    entries: &[Entry],
) -> Result<(), NoMemory>
    ensures { OnOk result (map string_bytes cells.new.items ≡ map string_bytes cells.old.items
        ++ map (λ k. metadata_cell entries.now k.key) keys.now) }
{
    for key in keys {
        let text = metadata_cell(entries, key.key.as_str());
        cells.push(String::from_str(alloc, text)?)?;
    }
    Ok(())
}

// The cells of a row.
fn row_cells(alloc: Global, keys: &[MetadataKey], row: &Row) -> Result<Vec<String>, NoMemory>
    ensures cells { IfOk result (λ v. map string_bytes v.items ≡ written_cells keys.now row.now) }
    ensures row { IsRow row.now }
{
    let mut cells = field_cells(alloc, row)?;
    push_metadata(alloc, &mut cells, keys, row.metadata().entries())?;
    Ok(cells)
}

fn lent_cells<'a>(alloc: Global, cells: &'a [String]) -> Result<Vec<&'a [u8]>, NoMemory>
    ensures { IfOk result (λ v. map (λ b. b.now) v.items ≡ map string_bytes cells.now) }
{
    let mut lent = Vec::new(alloc);
    for cell in cells {
        lent.push(cell.as_bytes())?;
    }
    Ok(lent)
}

// Writes a line of these cells.
fn write_line(alloc: Global, writer: &mut Writer<Vec<u8>>, cells: &[String]) -> Result<(), NoMemory>
    requires { IsFresh writer.old }
    ensures fresh { OnOk result (IsFresh writer.new) }
    ensures text { OnOk result (text_in writer.new ≡ text_in writer.old
        ++ row_text default_writer (map string_bytes cells.now)) }
    ensures plain { OnOk result (AllText (map string_bytes cells.now)) }
{
    let lent = lent_cells(alloc, cells)?;
    // Into a vector, with lines of one width, a write fails for want of memory alone.
    if writer.write_fields(lent.as_slice()).is_err() {
        return Err(NoMemory);
    }
    Ok(())
}

// Writes a line for each row.
fn write_rows(
    alloc: Global,
    writer: &mut Writer<Vec<u8>>,
    keys: &[MetadataKey],
    rows: &[Row],
) -> Result<(), NoMemory>
    requires { IsFresh writer.old }
    ensures fresh { OnOk result (IsFresh writer.new) }
    ensures text { OnOk result (text_in writer.new ≡ text_in writer.old
        ++ lines_text (map (written_cells keys.now) rows.now)) }
    ensures plain { OnOk result (AllRowsText (map (written_cells keys.now) rows.now)) }
    ensures rows { OnOk result (All IsRow rows.now) }
{
    for row in rows {
        let cells = row_cells(alloc, keys, row)?;
        write_line(alloc, writer, cells.as_slice())?;
    }
    Ok(())
}

// What was written.
fn finish(writer: Writer<Vec<u8>>) -> Result<Vec<u8>, NoMemory>
    ensures { IfOk result (λ v. v.items ≡ text_in writer) }
{
    match writer.into_inner() {
        Ok(bytes) => Ok(bytes),
        Err(_) => Err(NoMemory),
    }
}

/// The text of a file of rows of one kind: a header of all columns of the kind in the standard's order and then the
/// columns of metadata in ascending order of their keys, and a line for each row. Lines end with a line feed. Where it
/// has no more than 67,108,864 bytes, `read_file` gives the same rows from it in each mode, each with its date.
pub fn write_file(alloc: Global, kind: Kind, rows: &[Row]) -> Result<Vec<u8>, NoMemory>
    requires kinds { All (λ r. r.kind ≡ kind) rows.now }
    requires differ { IsDistinct bytes_eq (map (λ r. r.id) rows.now) }
    ensures text { IfOk result (λ v. v.items ≡ written_text kind rows.now) }
    ensures back { IfOk result (λ v. (mode : Mode) → length v.items ≤ largest
        → file_of kind mode v.items ≡ Ok (map dated rows.now)) }
{
    let keys = keys_of(alloc, rows)?;
    let mut writer = WriterBuilder::new().from_writer(Vec::new(alloc));
    let header = header_cells(alloc, kind, keys.as_slice())?;
    write_line(alloc, &mut writer, header.as_slice())?;
    write_rows(alloc, &mut writer, keys.as_slice(), rows)?;
    finish(writer)
}
