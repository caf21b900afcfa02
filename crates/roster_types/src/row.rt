//! Rows of all kinds.

ghost use Rattle.std.specs.Prelude.{◌≡◌, ◌<◌, true, None, IfOk, bytes_eq, length, option_map, position, slice_index_or};
ghost use Rattle.std.specs.Bool.{Decides};
ghost use Rattle.roster_types.specs.Lengths.{row_length};
ghost use Rattle.roster_types.specs.Records.{SameButDate, all_values, field_of, place_in};
ghost use Rattle.roster_types.specs.Rows.{IsRow, row_from};
ghost use Rattle.roster_types.specs.Shapes.{fits_all};
ghost use Rattle.roster_types.specs.Structs.{kind_of, values_of};
ghost use Rattle.roster_values.specs.Table.{table};
ghost use Rattle.roster_values.specs.Value.{shown};

use crate::metadata::Metadata;
use crate::parts::RowParts;
use crate::status::Status;
use crate::structs::Fields;
use roster_base::{Keyed, NoMemory, Same, TryCopy};
use roster_texts::{Id, Moment};
use roster_values::fields::fields;
use roster_values::{FieldInfo, Kind, Value, ValueRef, copy_value};
use std::alloc::Global;
use std::marker::Model;

/// The greatest length of a row: the bytes of its JSON object, written with the status `tobedeleted`.
pub const LONGEST: u64 = 65_536;

/// A row of any kind. Its values may stand in its fields, its metadata is in order, and it isn't too long.
#[derive(Drop)]
pub struct Row {
    parts: RowParts,
}

impl Model for Row {
    ghost use Rattle.roster_types.specs.Records.{Record};
    ghost use Rattle.roster_types.specs.Rows.{IsRow};

    ghost Value = { Record };

    ghost view = { λ r. r.parts };

    ghost invariant = { λ r. IsRow r.parts };
}

impl Row {
    /// The row that the values of all its fields give, in the order of the field table; nothing where it is too long.
    /// No status means active, and no date the moment 0.
    pub fn from_values(
        alloc: Global,
        kind: Kind,
        mut values: Vec<Option<Value>>,
        metadata: Metadata,
    ) -> Result<Option<Row>, NoMemory>
        requires { fits_all (table kind) values.items ≡ true }
        ensures { IfOk result (λ o. o ≡ row_from kind values.items metadata) }
    {
        Row::take_from(alloc, kind, &mut values, metadata)
    }

    /// The row that the values of all its fields give, in the order of the field table; nothing where it is too long.
    /// The values are taken from a vector that is filled again for the next row.
    pub fn take_from(
        alloc: Global,
        kind: Kind,
        values: &mut Vec<Option<Value>>,
        metadata: Metadata,
    ) -> Result<Option<Row>, NoMemory>
        requires { fits_all (table kind) values.old.items ≡ true }
        ensures { IfOk result (λ o. o ≡ row_from kind values.old.items metadata) }
    {
        let parts = RowParts::take_from(alloc, kind, values, metadata)?;
        match parts.is_short(alloc) {
            Ok(true) => Ok(Some(Row { parts })),
            refused => {
                // By name, since the check goes through the structs of all kinds where a row is dropped unnamed.
                drop(parts);
                refused?;
                Ok(None)
            }
        }
    }

    /// The kind of the row.
    pub fn kind(&self) -> Kind
        ensures kind { result ≡ self.now.kind }
        ensures row { IsRow self.now }
    {
        self.parts.kind()
    }

    /// The id of the row.
    pub fn id(&self) -> &Id
        ensures { result.now ≡ self.now.id }
    {
        self.parts.id()
    }

    /// The status of the row.
    pub fn status(&self) -> Status
        ensures { result ≡ self.now.status }
    {
        self.parts.status()
    }

    /// When the row was last changed.
    pub fn modified(&self) -> Moment
        ensures { result ≡ self.now.modified }
    {
        self.parts.modified()
    }

    /// What the district says of the row beside the standard's fields.
    pub fn metadata(&self) -> &Metadata
        ensures { result.now ≡ self.now.metadata }
    {
        self.parts.metadata()
    }

    /// The row as the struct of its kind.
    pub fn fields(&self) -> &Fields
        ensures kind { kind_of result.now ≡ self.now.kind }
        ensures values { values_of result.now ≡ self.now.values }
    {
        self.parts.fields()
    }

    /// The value of the field at a place in the field table, where there is one.
    pub fn value(&self, place: usize) -> Option<ValueRef<'_>>
        requires { place < length (all_values self.now) }
        ensures value { option_map shown result ≡ slice_index_or (all_values self.now) place None }
        ensures row { IsRow self.now }
    {
        self.parts.value_with(self.parts.status(), place)
    }

    /// The value of the field with that JSON name; nothing where it is absent or no such field is. No memory is taken.
    pub fn named(&self, name: &str) -> Option<ValueRef<'_>>
        ensures value { option_map shown result ≡ field_of self.now name.now }
        ensures row { IsRow self.now }
    {
        let place = place_of(self.kind(), name)?;
        self.value(place)
    }

    /// A copy of that value.
    pub fn field(&self, alloc: Global, name: &str) -> Result<Option<Value>, NoMemory>
        ensures { IfOk result (λ o. o ≡ field_of self.now name.now) }
    {
        match self.named(name) {
            Some(value) => Ok(Some(copy_value(alloc, value)?)),
            None => Ok(None),
        }
    }

    /// The same row with another date. All dates have one length, so no row becomes too long.
    pub fn dated(self, at: Moment) -> Row
        ensures row { result ≡ record self { modified = at } }
        ensures length { row_length result ≡ row_length self }
    {
        let status = self.status();
        self.changed(status, at)
    }

    /// The same row, to be deleted since that date. A row's length counts with that status, so no row becomes too long.
    pub fn marked(self, at: Moment) -> Row
        ensures row { result ≡ record self { status = Status.ToBeDeleted; modified = at } }
        ensures length { row_length result ≡ row_length self }
    {
        self.changed(Status::ToBeDeleted, at)
    }

    fn changed(self, status: Status, at: Moment) -> Row
        ensures row { result ≡ record self { status = status; modified = at } }
        ensures length { row_length result ≡ row_length self }
    {
        // Read for its clause `range`: a moment is one of the years 1 to 9999.
        let _ = at.milliseconds();
        Row {
            parts: self.parts.changed(status, at),
        }
    }

    /// Whether the rows are equal in all but the date.
    pub fn is_same_but_date(&self, other: &Row) -> bool
        ensures { Decides result (SameButDate self.now other.now) }
    {
        self.parts.is_same_but_date(&other.parts)
    }
}

impl TryCopy for Row {
    fn copy(&self, alloc: Global) -> Result<Row, NoMemory> {
        Ok(Row {
            parts: self.parts.copy(alloc)?,
        })
    }
}

impl Same for Row {
    fn is_same(&self, other: &Row) -> bool {
        self.is_same_but_date(other) && self.modified() == other.modified()
    }
}

impl Keyed for Row {
    ghost key_of = { λ r. r.id };

    fn key(&self) -> &str {
        self.id().as_str()
    }
}

/// The place of the field with that JSON name.
pub fn place_of(kind: Kind, name: &str) -> Option<usize>
    ensures { result ≡ place_in (table kind) name.now }
{
    place_among(fields(kind), name)
}

fn place_among(infos: &[FieldInfo], name: &str) -> Option<usize>
    ensures { result ≡ position (λ i. bytes_eq i.name.now name.now) infos.now }
{
    infos.iter().position(|info| info.name == name)
}
