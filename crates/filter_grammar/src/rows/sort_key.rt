//! What rows are sorted by.

ghost use Rattle.std.specs.Prelude.{◌≡◌, IfOk, Some, true};
ghost use Rattle.filter_grammar.specs.Subjects.{subject_shown};
ghost use Rattle.roster_values.specs.CellText.{has_short_year};
ghost use Rattle.roster_values.specs.Value.{shown};
ghost use Rattle.filter_grammar.specs.rows.Orders as spec;
ghost use Rattle.filter_grammar.specs.rows.SubjectValues.{subject_value};

use crate::rows::subject_value::subject_value;
use crate::rows::texts::folded_value;
use crate::subject::Subject;
use roster_base::{NoMemory, Text};
use roster_types::row::Row;
use roster_values::ValueRef;
use std::alloc::Global;
use std::cmp::Ordering;

/// What a row is sorted by. Keys of one field are of one form; a row without the field comes first.
#[derive(Drop)]
pub enum SortKey {
    Absent,
    ByNumber(i64),
    ByText(Text),
}

impl SortKey {
    /// The key of a row by a field: days, moments and numbers by their numbers, the row's own id by its bytes, all else
    /// by its text in lower case.
    pub fn of(alloc: Global, row: &Row, subject: Subject<'_>) -> Result<SortKey, NoMemory>
        ensures { IfOk result (λ k. k ≡ spec.value_key (subject_value (subject_shown subject.entry) row.now)) }
    {
        match subject_value(row, subject) {
            Some(value) => value_key(alloc, value),
            None => Ok(SortKey::Absent),
        }
    }

    /// Which of two keys comes first.
    pub fn compare(&self, other: &SortKey) -> Ordering
        ensures { result ≡ spec.sort_key_cmp self.now other.now }
    {
        match (self, other) {
            (SortKey::Absent, SortKey::Absent) => Ordering::Equal,
            (SortKey::Absent, _) => Ordering::Less,
            (_, SortKey::Absent) => Ordering::Greater,
            (SortKey::ByNumber(number), SortKey::ByNumber(other)) => number.cmp(other),
            (SortKey::ByNumber(_), SortKey::ByText(_)) => Ordering::Less,
            (SortKey::ByText(_), SortKey::ByNumber(_)) => Ordering::Greater,
            (SortKey::ByText(text), SortKey::ByText(other)) => text.as_str().cmp(other.as_str()),
        }
    }
}

// The key of a value.
fn value_key(alloc: Global, value: ValueRef<'_>) -> Result<SortKey, NoMemory>
    requires { has_short_year (shown value) ≡ true }
    ensures { IfOk result (λ k. k ≡ spec.value_key (Some (shown value.entry))) }
{
    match value {
        ValueRef::Day(day) => Ok(SortKey::ByNumber(day.number() as i64)),
        ValueRef::Moment(moment) => Ok(SortKey::ByNumber(moment.milliseconds())),
        ValueRef::Number(number) => Ok(SortKey::ByNumber(*number)),
        ValueRef::Id(id) => Ok(SortKey::ByText(Text::new(alloc, id.as_str())?)),
        _ => Ok(SortKey::ByText(Text::from_string(folded_value(alloc, value)?))),
    }
}
