//! The rows of a file.

ghost use Rattle.std.specs.Prelude.{◌≡◌, ◌≤◌, ◌<◌, ◌+◌, ◌^◌, ◌++◌, ◌∷◌, [], List, Ok, Err, bytes_eq, length, map, true};
ghost use Rattle.std.specs.Prelude.{IfOk, IfSome, OnOk};
ghost use Rattle.std.specs.List.{All, IsDistinct};
ghost use Rattle.csv.specs.Reading.{default_config, records, strip_bom};
ghost use Rattle.csv.specs.Records.{AllText, fields_of};
ghost use Rattle.roster_base.specs.Order.{RiseBy};
ghost use Rattle.roster_base.specs.Reading.{Gives};
ghost use Rattle.roster_types.specs.Sets.{IsDatedOrZero};
ghost use Rattle.roster_values.specs.Table.{table};
ghost use Rattle.roster_types.specs.declared.set_row.SetRow.{SetRow as SetRows};
ghost use Rattle.csv_sets.specs.Files.{AreRowsIn, Finds, file_of, first_repeat, id_in, in_record, largest};
ghost use Rattle.csv_sets.specs.Files.{repeat_first, rows_after, rows_of};
ghost use Rattle.csv_sets.specs.Left.{AllRowsText};
ghost use Rattle.csv_sets.specs.declared.fault.SetFault.TheVariants.{RepeatedId};
ghost use Rattle.csv_sets.specs.declared.fault.SetFile.TheVariants.{RowsOf};
ghost use Rattle.csv_sets.specs.Rows.{row_at};

use crate::fault::{SetError, SetFault, SetFile};
use crate::header::Header;
use crate::records::RecordReader;
use crate::row::read_row;
use csv::ByteRecord;
use roster_base::{NoMemory, Refusal};
use roster_types::set_row::SetRow;
use roster_values::{Kind, Mode, Value};
use std::alloc::Global;
use std::collections::HashSet;

/// The greatest size of a file in bytes: 64 MiB.
pub const LARGEST: usize = 67_108_864;

// The row of a record, whose number goes into a fault.
fn row_in(
    kind: Kind,
    mode: Mode,
    header: &Header,
    number: u64,
    cells: &ByteRecord,
    values: &mut Vec<Option<Value>>,
) -> Result<SetRow, SetError>
    requires places { length header.now.places ≡ length (table kind) }
    requires text { AllText (fields_of cells.now) }
    ensures { Gives (λ r. r) result (in_record kind number (row_at kind mode header.now (fields_of cells.now))) }
{
    match read_row(*values.allocator(), kind, mode, header, cells, values) {
        Ok(row) => Ok(row),
        Err(Refusal::Fault(fault)) => Err(Refusal::Fault(SetFault::Row {
            file: SetFile::RowsOf(kind),
            record_no: number,
            field: fault.field,
            fault: fault.fault,
        })),
        Err(Refusal::NoMemory) => Err(Refusal::NoMemory),
    }
}

// Whether a row's id is above that of the last row, if there is one.
fn rises(rows: &[SetRow], row: &SetRow) -> bool
    ensures { result ≡ true → RiseBy id_in rows.now → RiseBy id_in (rows.now ++ row.now ∷ []) }
{
    match rows.last() {
        None => true,
        Some(last) => last.row.id().as_str().cmp(row.row.id().as_str()).is_lt(),
    }
}

// Adds a row behind the others, and keeps in mind whether the ids have all risen.
fn add(rows: &mut Vec<SetRow>, rise: &mut bool, row: SetRow) -> Result<(), NoMemory>
    requires { rise.old ≡ true → RiseBy id_in rows.old.items }
    ensures rows { OnOk result (rows.new.items ≡ rows.old.items ++ row ∷ []) }
    ensures rise { rise.new ≡ true → RiseBy id_in rows.new.items }
    ensures few { length rows.new.items ≤ length rows.old.items + 1 }
{
    *rise = *rise && rises(rows, &row);
    rows.push(row)?;
    Ok(())
}

// Reads the rows of the records below the header up to the first at fault, and minds whether their ids all rise, but
// not whether one repeats.
fn read_rows(
    kind: Kind,
    mode: Mode,
    header: &Header,
    reader: &mut RecordReader<'_>,
    rows: &mut Vec<SetRow>,
    rise: &mut bool,
) -> Result<(), SetError>
    requires places { length header.now.places ≡ length (table kind) }
    requires text { AllRowsText reader.old }
    requires few { length reader.old < 2 ^ 32 }
    requires none { rows.old.items ≡ [] }
    ensures whole { Finds kind rows.new.items result (rows_after kind mode header.now [] 2 reader.old) }
    ensures rise { rise.new ≡ true → RiseBy id_in rows.new.items }
    ensures few { length rows.new.items ≤ length reader.old }
{
    let alloc = *rows.allocator();
    let mut cells = ByteRecord::new(alloc);
    let mut values = Vec::new(alloc);
    let mut number = 2;
    while reader.read(&mut cells)? {
        let row = row_in(kind, mode, header, number, &cells, &mut values)?;
        add(rows, rise, row)?;
        number += 1;
    }
    Ok(())
}

// The place of the first row whose id an earlier row has.
fn first_repeat(alloc: Global, rows: &[SetRow]) -> Result<Option<usize>, NoMemory>
    ensures first { IfOk result (λ place. place ≡ first_repeat [] rows.now) }
    ensures within { IfOk result (λ place. IfSome place (λ p. p < length rows.now)) }
{
    let mut ids = HashSet::with_capacity(alloc, rows.len())?;
    for (place, row) in rows.iter().enumerate() {
        if !ids.insert(row.row.id().as_str())? {
            return Ok(Some(place));
        }
    }
    Ok(None)
}

// The fault of the record whose row is at a place: the header is the first record, and has no row.
fn repeat_fault(kind: Kind, place: usize) -> SetFault
    requires { place < 2 ^ 32 }
    ensures { result ≡ RepeatedId (RowsOf kind) (place + 2) }
{
    SetFault::RepeatedId {
        file: SetFile::RowsOf(kind),
        record_no: place as u64 + 2,
    }
}

// Whether the ids of rows all differ, or the fault of the first that repeats. Ids that rise differ, and need no set.
fn check_ids(alloc: Global, kind: Kind, rows: &[SetRow], rise: bool) -> Result<(), SetError>
    requires rise { rise ≡ true → RiseBy id_in rows.now }
    requires few { length rows.now < 2 ^ 32 }
    ensures { Gives (λ _. rows.now) result (repeat_first kind (first_repeat [] rows.now) (Ok rows.now)) }
{
    if rise {
        return Ok(());
    }
    match first_repeat(alloc, rows)? {
        None => Ok(()),
        Some(place) => Err(Refusal::Fault(repeat_fault(kind, place))),
    }
}

// The rows of all records, or the first repeat among them.
fn checked_rows(
    alloc: Global,
    kind: Kind,
    rows: Vec<SetRow>,
    rise: bool,
) -> Result<Vec<SetRow>, SetError>
    requires rise { rise ≡ true → RiseBy id_in rows.items }
    requires few { length rows.items < 2 ^ 32 }
    ensures { Gives (λ v. v.items) result (repeat_first kind (first_repeat [] rows.items) (Ok rows.items)) }
{
    check_ids(alloc, kind, &rows, rise)?;
    Ok(rows)
}

// The first fault of a file: a repeat among the rows in front of a record at fault goes before its fault.
fn first_fault(
    alloc: Global,
    kind: Kind,
    rows: &[SetRow],
    rise: bool,
    fault: SetFault,
) -> Result<Vec<SetRow>, SetError>
    requires rise { rise ≡ true → RiseBy id_in rows.now }
    requires few { length rows.now < 2 ^ 32 }
    ensures { Gives (λ v. v.items) result (repeat_first kind (first_repeat [] rows.now) (Err fault)) }
{
    check_ids(alloc, kind, rows, rise)?;
    Err(Refusal::Fault(fault))
}

// The rows of the records below the header. A repeated id is looked for once the rows are read, by a set of ids that
// they lend.
fn rows_under(
    alloc: Global,
    kind: Kind,
    mode: Mode,
    header: &Header,
    reader: &mut RecordReader<'_>,
) -> Result<Vec<SetRow>, SetError>
    requires places { length header.now.places ≡ length (table kind) }
    requires text { AllRowsText reader.old }
    requires few { length reader.old < 2 ^ 32 }
    ensures { Gives (λ v. v.items) result (rows_after kind mode header.now [] 2 reader.old) }
{
    let mut rows = Vec::new(alloc);
    let mut rise = true;
    match read_rows(kind, mode, header, reader, &mut rows, &mut rise) {
        Ok(()) => checked_rows(alloc, kind, rows, rise),
        Err(Refusal::Fault(fault)) => first_fault(alloc, kind, &rows, rise, fault),
        Err(Refusal::NoMemory) => Err(Refusal::NoMemory),
    }
}

// The rows of all records, of which the first is the header: without records there is a header of no column.
#[tactic(auto, unfolding(crate::specs::Files::rows_of))]
fn rows_of(alloc: Global, kind: Kind, mode: Mode, text: &str) -> Result<Vec<SetRow>, SetError>
    requires { length text.now ≤ largest }
    ensures { Gives (λ v. v.items) result (rows_of kind mode (records default_config (strip_bom text.now))) }
{
    let mut reader = RecordReader::new(alloc, text);
    let mut cells = ByteRecord::new(alloc);
    if !reader.read(&mut cells)? {
        Header::read(alloc, kind, mode, &ByteRecord::new(alloc))?;
        return Ok(Vec::new(alloc));
    }
    let header = Header::read(alloc, kind, mode, &cells)?;
    rows_under(alloc, kind, mode, &header, &mut reader)
}

/// The rows of a file of one kind in their order, or its first fault: of its size, its bytes, its header, and then of
/// its records in turn. The first record is the header, and a fault numbers the records from it on, beginning with 1;
/// blank lines are no records. A byte order mark at the start is passed over.
#[tactic(auto, unfolding(crate::specs::Files::file_of))]
pub fn read_file(
    alloc: Global,
    kind: Kind,
    mode: Mode,
    bytes: &[u8],
) -> Result<Vec<SetRow>, SetError>
    ensures file { Gives (λ v. v.items) result (file_of kind mode bytes.now) }
    ensures kinds { IfOk result (λ v. All (λ r. r.row.kind ≡ kind) v.items) }
    ensures differ { IfOk result (λ v. IsDistinct bytes_eq (map (λ r. r.row.id) v.items)) }
    ensures dates { IfOk result (λ v. All IsDatedOrZero v.items) }
    // In plain words: rows are read exactly where the header is good, each record spells its row, and the ids differ.
    ensures plain { IfOk result (λ v. AreRowsIn kind mode bytes.now v.items) }
    ensures whole { (rows : List SetRows) → AreRowsIn kind mode bytes.now rows → Gives (λ v. v.items) result (Ok rows) }
{
    if bytes.len() > LARGEST {
        return Err(Refusal::Fault(SetFault::TooLarge {
            file: SetFile::RowsOf(kind),
        }));
    }
    match str::from_utf8(bytes) {
        Ok(text) => rows_of(alloc, kind, mode, text),
        Err(_) => Err(Refusal::Fault(SetFault::NotUtf8 {
            file: SetFile::RowsOf(kind),
        })),
    }
}
