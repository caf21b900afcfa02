//! The fields that an academic session has beside the common ones, by their places in the field table.

ghost use Rattle.std.specs.Prelude.{◌≡◌, ◌<◌, true, None, option_map, slice_index_or};
ghost use Rattle.roster_types.specs.Shapes.{own_fields, shapes_fit};
ghost use Rattle.roster_types.specs.Structs.{academic_session_values};
ghost use Rattle.roster_values.specs.Value.{shown};

use crate::taken::{day, optional_reference, text, word, year};
use roster_base::Text;
use roster_texts::{Day, Id};
use roster_values::{Kind, Value, ValueRef, Word};

/// What an academic session says of itself beside its id, its status and its moment.
#[derive(Drop)]
pub struct AcademicSession {
    /// The title.
    pub title: Text,
    /// What sort of session it is.
    pub type_word: Word,
    /// The first day.
    pub start_date: Day,
    /// The last day.
    pub end_date: Day,
    /// The session above it.
    pub parent: Option<Id>,
    /// The year in which the school year ends.
    pub school_year: u16,
}

impl AcademicSession {
    /// The value at a place, where there is one.
    pub fn value(&self, place: usize) -> Option<ValueRef<'_>>
        requires { place < 6 }
        ensures { option_map shown result ≡ slice_index_or (academic_session_values self.now) place None }
    {
        match place {
            0 => Some(ValueRef::Text(&self.title)),
            1 => Some(ValueRef::Word(self.type_word.as_str())),
            2 => Some(ValueRef::Day(&self.start_date)),
            3 => Some(ValueRef::Day(&self.end_date)),
            4 => self.parent.as_ref().map(ValueRef::Ref),
            _ => Some(ValueRef::Year(&self.school_year)),
        }
    }

    /// The struct of the values of the kind's own fields, which are taken out of their places.
    pub fn take_from(values: &mut [Option<Value>]) -> AcademicSession
        requires { shapes_fit (own_fields Kind.AcademicSessions) values.old ≡ true }
        ensures { academic_session_values result ≡ values.old }
    {
        AcademicSession {
            title: text(values, 0),
            type_word: word(values, 1),
            start_date: day(values, 2),
            end_date: day(values, 3),
            parent: optional_reference(values, 4),
            school_year: year(values, 5),
        }
    }
}
