//! The row that a record spells.

ghost use Rattle.std.specs.Prelude.{◌≡◌, true, IfOk, OnOk, length};
ghost use Rattle.csv.specs.Records.{AllText, fields_of};
ghost use Rattle.roster_base.specs.Order.{RiseBy};
ghost use Rattle.roster_base.specs.Reading.{Gives};
ghost use Rattle.roster_types.specs.Records.{is_dated};
ghost use Rattle.roster_types.specs.Shapes.{fits_all};
ghost use Rattle.roster_values.specs.Table.{info_in, info_of, table};
ghost use Rattle.roster_values.specs.Values.{value_of};
ghost use Rattle.csv_sets.specs.Headers.{metadata_key};
ghost use Rattle.csv_sets.specs.Rows.{in_field, in_record_itself, metadata_at, row_at, values_at};

use crate::cells::cell_at;
use crate::fault::{RowError, RowFault};
use crate::header::{Header, MetadataColumn};
use csv::ByteRecord;
use roster_base::{NoMemory, Refusal, Text, TryCopy};
use roster_texts::ValueFault;
use roster_texts::trim::trim_spaces;
use roster_types::metadata::{Entry, Metadata};
use roster_types::row::Row;
use roster_types::set_row::SetRow;
use roster_values::fields::{fields, info_in};
use roster_values::{FieldInfo, Kind, Mode, Value, read_value};
use std::alloc::Global;

// The place of `dateLastModified` among the fields of every kind.
const DATE: usize = 2;

// The value of a field from its cell.
fn read_field(
    alloc: Global,
    mode: Mode,
    field: usize,
    info: &FieldInfo,
    cell: &str,
) -> Result<Option<Value>, RowError>
    ensures { Gives (λ v. v) result (in_field info.now.column.now
        (value_of (info_in mode field (info_of info.now)) cell.now)) }
{
    match read_value(alloc, &info_in(mode, field, info), cell) {
        Ok(value) => Ok(value),
        Err(Refusal::Fault(fault)) => Err(Refusal::Fault(RowFault {
            field: Text::new(alloc, info.column)?,
            fault,
        })),
        Err(Refusal::NoMemory) => Err(Refusal::NoMemory),
    }
}

// Puts the values of the fields in their order in place of what the vector had, up to the first bad one.
fn read_values(
    alloc: Global,
    kind: Kind,
    mode: Mode,
    places: &[Option<usize>],
    cells: &ByteRecord,
    values: &mut Vec<Option<Value>>,
) -> Result<(), RowError>
    requires places { length places.now ≡ length (table kind) }
    requires text { AllText (fields_of cells.now) }
    ensures values { Gives (λ _. values.new.items) result
        (values_at mode 0 (table kind) places.now (fields_of cells.now)) }
    ensures fit { OnOk result (fits_all (table kind) values.new.items ≡ true) }
{
    let infos = fields(kind);
    values.clear();
    values.reserve(infos.len())?;
    for (field, info) in infos.iter().enumerate() {
        let cell = cell_at(cells, places[field]);
        values.push(read_field(alloc, mode, field, info, cell)?)?;
    }
    Ok(())
}

// The metadata of a record: a blank cell says nothing.
fn read_metadata(
    alloc: Global,
    columns: &[MetadataColumn],
    cells: &ByteRecord,
) -> Result<Metadata, NoMemory>
    requires order { RiseBy metadata_key columns.now }
    requires text { AllText (fields_of cells.now) }
    ensures { IfOk result (λ m. m ≡ metadata_at columns.now (fields_of cells.now)) }
{
    let mut metadata = Metadata::new(alloc);
    for column in columns {
        let text = trim_spaces(cell_at(cells, Some(column.place)));
        if !text.is_empty() {
            metadata.push(Entry {
                key: column.key.copy(alloc)?,
                text: Text::new(alloc, text)?,
            })?;
        }
    }
    Ok(metadata)
}

// The fault of a whole record.
fn record_fault(alloc: Global, fault: ValueFault) -> Result<RowFault, NoMemory>
    ensures { IfOk result (λ f. f ≡ in_record_itself fault) }
{
    Ok(RowFault {
        field: Text::new(alloc, "*")?,
        fault,
    })
}

fn is_dated(values: &[Option<Value>]) -> bool
    ensures { result ≡ is_dated values.now }
{
    matches!(values.get(DATE), Some(Some(_)))
}

/// The row that a record spells under a header of its kind, or what is wrong with it first. The vector holds the
/// values until the row takes them.
#[tactic(auto, unfolding(crate::specs::Rows::row_at))]
pub fn read_row(
    alloc: Global,
    kind: Kind,
    mode: Mode,
    header: &Header,
    cells: &ByteRecord,
    values: &mut Vec<Option<Value>>,
) -> Result<SetRow, RowError>
    requires places { length header.now.places ≡ length (table kind) }
    requires text { AllText (fields_of cells.now) }
    ensures { Gives (λ r. r) result (row_at kind mode header.now (fields_of cells.now)) }
{
    if cells.len() != header.width() {
        return Err(Refusal::Fault(record_fault(alloc, ValueFault::Width)?));
    }
    read_values(alloc, kind, mode, header.places(), cells, values)?;
    let dated = is_dated(values.as_slice());
    let metadata = read_metadata(alloc, header.metadata(), cells)?;
    match Row::take_from(alloc, kind, values, metadata)? {
        Some(row) => Ok(SetRow { row, dated }),
        None => Err(Refusal::Fault(record_fault(alloc, ValueFault::TooLong)?)),
    }
}
