//! The header of a file.

ghost use Rattle.std.specs.Prelude.{◌≡◌, bytes_eq, Some, None, true, IfOk, OnOk, option_map, if◌then◌else◌};
ghost use Rattle.std.specs.BTreeSet.{contains_text};
ghost use Rattle.std.specs.List.{list_any};
ghost use Rattle.csv.specs.Records.{AllText, fields_of};
ghost use Rattle.roster_base.specs.Reading.{Gives};
ghost use Rattle.roster_texts.specs.Trim.{trimmed};
ghost use Rattle.csv_sets.specs.Cells.{cell_at};
ghost use Rattle.csv_sets.specs.Columns.{Notes, metadata_column, metadata_of, noted, places_of};
ghost use Rattle.csv_sets.specs.Headers.{columns_of, header_of, in_file, is_known, is_metadata, is_read, key_in};
ghost use Rattle.csv_sets.specs.Headers.{place_of};

use crate::cells::cell_at;
use crate::fault::{ColumnFault, SetError, SetFault, SetFile};
use csv::ByteRecord;
use roster_base::{Keyed, NoMemory, Refusal, Text, sorted};
use roster_texts::Id;
use roster_texts::trim::trim_spaces;
use roster_values::fields::{fields, info_in};
use roster_values::{FieldInfo, Kind, Mode};
use std::alloc::Global;
use std::collections::BTreeSet;
use std::marker::Model;

/// A column of metadata.
#[derive(Drop)]
pub struct MetadataColumn {
    /// What stands behind `metadata.` in its name.
    pub key: Id,
    /// Where it stands.
    pub place: usize,
}

impl Keyed for MetadataColumn {
    ghost key_of = { λ c. c.key };

    fn key(&self) -> &str {
        self.key.as_str()
    }
}

// The name of the column at a place.
fn column_at(cells: &ByteRecord, place: usize) -> &str
    requires { AllText (fields_of cells.now) }
    ensures { result.now ≡ trimmed (cell_at (fields_of cells.now) (Some place)) }
{
    trim_spaces(cell_at(cells, Some(place)))
}

// The place of a column.
fn place_of(cells: &ByteRecord, name: &str) -> Option<usize>
    requires { AllText (fields_of cells.now) }
    ensures { result ≡ place_of (columns_of (fields_of cells.now)) name.now }
{
    (0..cells.len()).find(|&place| column_at(cells, place) == name)
}

// The key of a metadata column.
fn metadata_key(column: &str) -> Option<&str>
    ensures { option_map (λ k. k.now) result ≡ (if is_metadata column.now then Some (key_in column.now) else None) }
{
    column.strip_prefix("metadata.")
}

fn has_column(infos: &[FieldInfo], column: &str) -> bool
    ensures { result ≡ list_any (λ i. bytes_eq i.column.now column.now) infos.now }
{
    infos.iter().any(|info| info.column == column)
}

fn is_known(kind: Kind, column: &str) -> bool
    ensures { result ≡ is_known kind column.now }
{
    has_column(fields(kind), column)
}

// The fault of a column.
fn column_fault(
    alloc: Global,
    kind: Kind,
    column: &str,
    fault: ColumnFault,
) -> Result<SetFault, NoMemory>
    ensures { IfOk result (λ f. f ≡ in_file kind column.now fault) }
{
    Ok(SetFault::Column {
        file: SetFile::RowsOf(kind),
        column: Text::new(alloc, column)?,
        fault,
    })
}

fn is_read(kind: Kind, column: &str) -> bool
    ensures { result ≡ is_read kind column.now }
{
    is_known(kind, column) || metadata_key(column).is_some()
}

// Notes a column if it is read: one that is noted already stands twice.
#[tactic(auto, unfolding(crate::specs::Columns::noted))]
fn note_column(
    alloc: Global,
    kind: Kind,
    seen: &mut BTreeSet<String>,
    column: &str,
) -> Result<(), SetError>
    ensures once { Gives (λ _. true) result (noted kind (contains_text seen.old column.now) column.now) }
    ensures notes { OnOk result (Notes kind seen.old seen.new column.now) }
{
    if !is_read(kind, column) {
        return Ok(());
    }
    if !seen.insert(String::from_str(alloc, column)?)? {
        return Err(Refusal::Fault(column_fault(alloc, kind, column, ColumnFault::Repeated)?));
    }
    Ok(())
}

// The metadata column of that name at a place, if the name is one of metadata.
#[tactic(auto, unfolding(crate::specs::Columns::metadata_column))]
fn metadata_column(
    alloc: Global,
    kind: Kind,
    place: usize,
    column: &str,
) -> Result<Option<MetadataColumn>, SetError>
    ensures { Gives (λ o. o) result (metadata_column kind place column.now) }
{
    let Some(key) = metadata_key(column) else {
        return Ok(None);
    };
    match Id::read(alloc, key)? {
        Some(key) => Ok(Some(MetadataColumn { key, place })),
        None => Err(Refusal::Fault(column_fault(alloc, kind, column, ColumnFault::BadKey)?)),
    }
}

// The metadata columns as they stand, or the first fault of the columns from left to right.
fn read_metadata(
    alloc: Global,
    kind: Kind,
    cells: &ByteRecord,
) -> Result<Vec<MetadataColumn>, SetError>
    requires { AllText (fields_of cells.now) }
    ensures { Gives (λ v. v.items) result (metadata_of kind (columns_of (fields_of cells.now))) }
{
    let mut seen = BTreeSet::new(alloc);
    let mut metadata = Vec::new(alloc);
    for place in 0..cells.len() {
        let column = column_at(cells, place);
        note_column(alloc, kind, &mut seen, column)?;
        if let Some(found) = metadata_column(alloc, kind, place, column)? {
            metadata.push(found)?;
        }
    }
    Ok(metadata)
}

// The places of the fields' columns, or the first required column that is missing.
fn read_places(
    alloc: Global,
    kind: Kind,
    mode: Mode,
    cells: &ByteRecord,
) -> Result<Vec<Option<usize>>, SetError>
    requires { AllText (fields_of cells.now) }
    ensures { Gives (λ v. v.items) result (places_of kind mode (columns_of (fields_of cells.now))) }
{
    let mut places = Vec::new(alloc);
    for (field, info) in fields(kind).iter().enumerate() {
        let place = place_of(cells, info.column);
        if place.is_none() && info_in(mode, field, info).required {
            return Err(Refusal::Fault(column_fault(
                alloc,
                kind,
                info.column,
                ColumnFault::Missing,
            )?));
        }
        places.push(place)?;
    }
    Ok(places)
}

/// What a header says of the records below it: where the column of each field stands, the metadata columns in ascending
/// order of their keys, and how many columns there are.
#[derive(Drop)]
pub struct Header {
    places: Vec<Option<usize>>,
    metadata: Vec<MetadataColumn>,
    width: usize,
}

impl Model for Header {
    ghost use Rattle.roster_base.specs.Order.{RiseBy};
    ghost use Rattle.csv_sets.specs.Headers.{Header, metadata_key};

    ghost Value = { Header };

    ghost view = { λ h. record { places = h.places.items; metadata = h.metadata.items; width = h.width } };

    ghost invariant = { λ h. RiseBy metadata_key h.metadata.items };
}

impl Header {
    ghost use Rattle.roster_base.specs.Order.{RiseBy};
    ghost use Rattle.csv_sets.specs.Headers.{metadata_key};

    /// The header that the first record of a file spells, or its first fault. The spaces at the ends of a name don't
    /// count. By OneRoster a file is extended by columns `metadata.` and a key; other columns that it doesn't name are
    /// passed over.
    #[tactic(auto, unfolding(crate::specs::Headers::header_of, crate::specs::Headers::header_from))]
    pub fn read(
        alloc: Global,
        kind: Kind,
        mode: Mode,
        cells: &ByteRecord,
    ) -> Result<Header, SetError>
        requires { AllText (fields_of cells.now) }
        ensures { Gives (λ h. h) result (header_of kind mode (fields_of cells.now)) }
    {
        let metadata = read_metadata(alloc, kind, cells)?;
        let places = read_places(alloc, kind, mode, cells)?;
        Ok(Header {
            places,
            metadata: sorted(alloc, metadata)?,
            width: cells.len(),
        })
    }

    /// How many columns there are.
    pub fn width(&self) -> usize
        ensures { result ≡ self.now.width }
    {
        self.width
    }

    /// Where the column of each field stands, if there is one.
    pub fn places(&self) -> &[Option<usize>]
        ensures { result.now ≡ self.now.places }
    {
        self.places.as_slice()
    }

    /// The metadata columns.
    pub fn metadata(&self) -> &[MetadataColumn]
        ensures columns { result.now ≡ self.now.metadata }
        ensures order { RiseBy metadata_key self.now.metadata }
    {
        self.metadata.as_slice()
    }
}
