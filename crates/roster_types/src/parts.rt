//! The parts of a row, before its length is tested.

ghost use Rattle.std.specs.Prelude.{◌≡◌, ◌-◌, ◌<◌, ◌≤◌, true, None, Some, IfOk, length, min, option_map, slice_get};
ghost use Rattle.std.specs.Prelude.{slice_index_or, take};
ghost use Rattle.std.specs.Bool.{Decides};
ghost use Rattle.roster_types.specs.Bounds.{IsBound};
ghost use Rattle.roster_types.specs.Lengths.{field_length, fields_length, metadata_length, row_length};
ghost use Rattle.roster_types.specs.Records.{IsFitting, SameButDate, all_values, id_in, moment_in, record_from};
ghost use Rattle.roster_types.specs.Records.{status_in};
ghost use Rattle.roster_types.specs.Rows.{longest};
ghost use Rattle.roster_types.specs.Shapes.{fits_all};
ghost use Rattle.roster_types.specs.Structs.{kind_of, values_of};
ghost use Rattle.roster_values.specs.Fit.{fits_parts};
ghost use Rattle.roster_values.specs.Table.{IdForm, info_of, table};
ghost use Rattle.roster_values.specs.Value.{shown};

use crate::bounds::{list_bound, text_bound, value_bound};
use crate::lengths::{CAP, add, enclosed_length, member_length, parts_length, value_length};
use crate::metadata::Metadata;
use crate::row::LONGEST;
use crate::shared::Shared;
use crate::status::Status;
use crate::structs::Fields;
use roster_base::{NoMemory, Same, TryCopy};
use roster_texts::{Id, Moment};
use roster_values::fields::{COMMON_FIELDS, fields};
use roster_values::{FieldInfo, Kind, Value, ValueRef};
use std::alloc::Global;
use std::marker::Model;
use std::sync::Arc;

/// A row that may be too long. Its kind stands beside its id, since both are read at each step of a search.
#[derive(Drop)]
pub struct RowParts {
    kind: Kind,
    id: Id,
    status: Status,
    modified: Moment,
    shared: Arc<Shared, Global>,
}

impl Model for RowParts {
    ghost use Rattle.roster_types.specs.Records.{Record};

    ghost Value = { Record };

    ghost use Rattle.roster_types.specs.Parts.{AreFitting, record_of};

    ghost view = { record_of };

    ghost invariant = { AreFitting };
}

// Takes the last of the values.
fn take_last(values: &mut Vec<Option<Value>>) -> Option<Value>
    requires { 0 < length values.old.items }
    ensures last { result ≡ slice_index_or values.old.items (length values.old.items - 1) None }
    ensures rest { values.new.items ≡ take (length values.old.items - 1) values.old.items }
{
    values.pop().flatten()
}

// The id that stands in a record's own field.
fn id_of(value: Option<Value>) -> Id
    requires { fits_parts IdForm true value ≡ true }
    ensures { result ≡ id_in value }
{
    match value {
        Some(Value::Id(id)) => id,
        _ => unreachable!(),
    }
}

// No status means active.
fn status_of(value: Option<Value>) -> Status
    ensures { result ≡ status_in value }
{
    match &value {
        Some(Value::Word(word)) => {
            if word.as_str() == "tobedeleted" {
                Status::ToBeDeleted
            } else {
                Status::Active
            }
        }
        _ => Status::Active,
    }
}

// No date means the moment 0.
fn moment_of(value: Option<Value>) -> Moment
    ensures { result ≡ moment_in value }
{
    match &value {
        Some(Value::Moment(moment)) => *moment,
        _ => Moment::epoch(),
    }
}

impl RowParts {
    /// The row that the values of all its fields give. They are taken, so that their vector can be filled again.
    pub fn take_from(
        alloc: Global,
        kind: Kind,
        values: &mut Vec<Option<Value>>,
        metadata: Metadata,
    ) -> Result<RowParts, NoMemory>
        requires { fits_all (table kind) values.old.items ≡ true }
        ensures { IfOk result (λ r. r ≡ record_from kind values.old.items metadata) }
    {
        let fields = Fields::take_from(alloc, kind, values)?;
        let modified = moment_of(take_last(values));
        let status = status_of(take_last(values));
        let id = id_of(take_last(values));
        // Read for its clause `order`: the metadata is in order.
        let _ = metadata.entries();
        let shared = Shared::new(alloc, fields, metadata)?;
        Ok(RowParts {
            kind,
            id,
            status,
            modified,
            shared,
        })
    }

    /// The kind of the row.
    pub fn kind(&self) -> Kind
        ensures kind { result ≡ self.now.kind }
        ensures fitting { IsFitting self.now }
    {
        self.kind
    }

    /// The id of the row.
    pub fn id(&self) -> &Id
        ensures { result.now ≡ self.now.id }
    {
        &self.id
    }

    /// The status of the row.
    pub fn status(&self) -> Status
        ensures { result ≡ self.now.status }
    {
        self.status
    }

    /// When the row was last changed.
    pub fn modified(&self) -> Moment
        ensures { result ≡ self.now.modified }
    {
        self.modified
    }

    /// What the district says of the row beside the standard's fields.
    pub fn metadata(&self) -> &Metadata
        ensures { result.now ≡ self.now.metadata }
    {
        &self.shared.metadata
    }

    /// The struct of the row's kind.
    pub fn fields(&self) -> &Fields
        ensures kind { kind_of result.now ≡ self.now.kind }
        ensures values { values_of result.now ≡ self.now.values }
    {
        &self.shared.fields
    }

    /// The value of the field at a place in the field table, as it were with this status.
    pub fn value_with(&self, status: Status, place: usize) -> Option<ValueRef<'_>>
        requires { place < length (all_values self.now) }
        ensures { option_map shown result ≡ slice_index_or
            (all_values (record self.now { status = status })) place None }
    {
        match place {
            0 => Some(ValueRef::Id(&self.id)),
            1 => Some(ValueRef::Word(status.word())),
            2 => Some(ValueRef::Moment(&self.modified)),
            _ => self.fields().value(place - COMMON_FIELDS),
        }
    }

    /// The same row with this status and date.
    pub fn changed(self, status: Status, at: Moment) -> RowParts
        ensures { result ≡ record self { status = status; modified = at } }
    {
        // Read for its clause `range`: a moment is one of the years 1 to 9999.
        let _ = at.milliseconds();
        let RowParts {
            kind,
            id,
            status: _,
            modified: _,
            shared,
        } = self;
        RowParts {
            kind,
            id,
            status,
            modified: at,
            shared,
        }
    }

    // The length of the member of a field, with one byte more, and nothing where the field is absent.
    fn field_length(&self, alloc: Global, place: usize, info: &FieldInfo) -> Result<u64, NoMemory>
        requires { slice_get (table self.now.kind) place ≡ Some (info_of info.now) }
        ensures { IfOk result (λ n. n ≡ min (field_length (info_of info.now)
            (slice_index_or (all_values (record self.now { status = Status.ToBeDeleted })) place None)) CAP) }
    {
        // Read for the invariant: each value may stand in its field.
        let _ = &self.shared;
        match self.value_with(Status::ToBeDeleted, place) {
            Some(value) => {
                let value = value_length(alloc, info.form, value)?;
                Ok(add(member_length(info.name, value), 1))
            }
            None => Ok(0),
        }
    }

    // The sum of those lengths, with the longest status.
    fn members_length(&self, alloc: Global) -> Result<u64, NoMemory>
        ensures { IfOk result (λ n. n ≡ min (fields_length (table self.now.kind)
            (all_values (record self.now { status = Status.ToBeDeleted }))) CAP) }
    {
        let infos = fields(self.kind());
        let mut length = 0;
        for place in 0..infos.len() {
            let member = self.field_length(alloc, place, &infos[place])?;
            length = add(length, member);
        }
        Ok(length)
    }

    // The length of the metadata's member, with one byte more, and nothing where there is none.
    #[tactic(auto, unfolding(crate::specs::Lengths::metadata_length))]
    fn metadata_length(&self) -> u64
        ensures { result ≡ min (metadata_length self.now.metadata) CAP }
    {
        let entries = self.metadata().entries();
        if entries.is_empty() {
            return 0;
        }
        add(
            member_length("metadata", enclosed_length(parts_length(entries))),
            1,
        )
    }

    // The length of the row, counted up to the cap.
    #[tactic(auto, unfolding(crate::specs::Lengths::object_length))]
    fn length(&self, alloc: Global) -> Result<u64, NoMemory>
        ensures { IfOk result (λ n. n ≡ min (row_length self.now) CAP) }
    {
        let members = self.members_length(alloc)?;
        Ok(enclosed_length(add(members, self.metadata_length())))
    }

    // The bound of the member of a field, with one byte more, and nothing where the field is absent.
    #[tactic(auto, unfolding(crate::specs::Lengths::field_length))]
    fn field_bound(&self, place: usize, info: &FieldInfo) -> u64
        requires { slice_get (table self.now.kind) place ≡ Some (info_of info.now) }
        ensures { IsBound result (field_length (info_of info.now)
            (slice_index_or (all_values (record self.now { status = Status.ToBeDeleted })) place None)) }
    {
        // Read for the invariant: each value may stand in its field.
        let _ = &self.shared;
        let value = self.value_with(Status::ToBeDeleted, place);
        match value {
            Some(value) => add(add(text_bound(info.name), 2), value_bound(info.form, value)),
            None => 0,
        }
    }

    // The bound of the sum of those lengths, with the longest status.
    fn members_bound(&self) -> u64
        ensures { IsBound result (fields_length (table self.now.kind)
            (all_values (record self.now { status = Status.ToBeDeleted }))) }
    {
        let infos = fields(self.kind());
        let mut bound = 0;
        for place in 0..infos.len() {
            bound = add(bound, self.field_bound(place, &infos[place]));
        }
        bound
    }

    // The bound of the metadata's member, with one byte more.
    #[tactic(auto, using(crate::proofs::BoundLaws::metadata_most))]
    fn metadata_bound(&self) -> u64
        ensures { IsBound result (metadata_length self.now.metadata) }
    {
        // The name `metadata` with its quotes, its colon and one byte more take 12.
        add(list_bound(self.metadata().entries()), 12)
    }

    // The bound of the row's length.
    #[tactic(auto, unfolding(crate::specs::Lengths::object_length))]
    fn bound(&self) -> u64
        ensures { IsBound result (row_length self.now) }
    {
        enclosed_length(add(self.members_bound(), self.metadata_bound()))
    }

    /// Whether the row is no longer than a row may be. Its length is counted only where the bound doesn't show it.
    pub fn is_short(&self, alloc: Global) -> Result<bool, NoMemory>
        ensures { IfOk result (λ short. Decides short (row_length self.now ≤ longest)) }
    {
        if self.bound() <= LONGEST {
            return Ok(true);
        }
        Ok(self.length(alloc)? <= LONGEST)
    }

    /// Whether the rows are equal in all but the date.
    pub fn is_same_but_date(&self, other: &RowParts) -> bool
        ensures { Decides result (SameButDate self.now other.now) }
    {
        if self.kind() != other.kind() || !self.id.is_same(&other.id) {
            return false;
        }
        if self.status != other.status || !self.metadata().is_same(other.metadata()) {
            return false;
        }
        self.has_same_values(other)
    }

    // Whether the values of the fields that the kind has of its own are equal.
    fn has_same_values(&self, other: &RowParts) -> bool
        requires { self.now.kind ≡ other.now.kind }
        ensures { Decides result (self.now.values ≡ other.now.values) }
    {
        // Read for their clause `fitting`, by which rows of one kind have as many values.
        let _ = (self.kind(), other.kind());
        self.fields()
            .has_same_values(other.fields(), self.own_len())
    }

    /// An equal copy, which shares the values.
    pub fn copy(&self, alloc: Global) -> Result<RowParts, NoMemory>
        ensures { IfOk result (λ r. r ≡ self.now) }
    {
        let id = self.id.copy(alloc)?;
        Ok(RowParts {
            kind: self.kind,
            id,
            status: self.status,
            modified: self.modified,
            shared: Arc::try_clone(&self.shared)?,
        })
    }

    // How many fields the kind has of its own.
    fn own_len(&self) -> usize
        ensures { result ≡ length self.now.values }
    {
        fields(self.kind()).len() - COMMON_FIELDS
    }
}
