//! The fields that an enrollment has beside the common ones, by their places in the field table.

ghost use Rattle.std.specs.Prelude.{◌≡◌, ◌<◌, true, None, option_map, slice_index_or};
ghost use Rattle.roster_types.specs.Shapes.{own_fields, shapes_fit};
ghost use Rattle.roster_types.specs.Structs.{enrollment_values};
ghost use Rattle.roster_values.specs.Value.{shown};

use crate::taken::{optional_day, optional_flag, reference, word};
use roster_texts::{Day, Id};
use roster_values::{Kind, Value, ValueRef, Word};

/// What an enrollment says of itself beside its id, its status and its moment.
#[derive(Drop)]
pub struct Enrollment {
    /// The class.
    pub class_id: Id,
    /// The school.
    pub school: Id,
    /// The user.
    pub user: Id,
    /// The role in the class.
    pub role: Word,
    /// Whether the user is the main teacher of the class.
    pub primary: Option<bool>,
    /// The first day.
    pub begin_date: Option<Day>,
    /// The last day.
    pub end_date: Option<Day>,
}

impl Enrollment {
    /// The value at a place, where there is one.
    pub fn value(&self, place: usize) -> Option<ValueRef<'_>>
        requires { place < 7 }
        ensures { option_map shown result ≡ slice_index_or (enrollment_values self.now) place None }
    {
        match place {
            0 => Some(ValueRef::Ref(&self.class_id)),
            1 => Some(ValueRef::Ref(&self.school)),
            2 => Some(ValueRef::Ref(&self.user)),
            3 => Some(ValueRef::Word(self.role.as_str())),
            4 => self.primary.as_ref().map(ValueRef::Flag),
            5 => self.begin_date.as_ref().map(ValueRef::Day),
            _ => self.end_date.as_ref().map(ValueRef::Day),
        }
    }

    /// The struct of the values of the kind's own fields, which are taken out of their places.
    pub fn take_from(values: &mut [Option<Value>]) -> Enrollment
        requires { shapes_fit (own_fields Kind.Enrollments) values.old ≡ true }
        ensures { enrollment_values result ≡ values.old }
    {
        Enrollment {
            class_id: reference(values, 0),
            school: reference(values, 1),
            user: reference(values, 2),
            role: word(values, 3),
            primary: optional_flag(values, 4),
            begin_date: optional_day(values, 5),
            end_date: optional_day(values, 6),
        }
    }
}
