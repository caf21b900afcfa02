//! The fields that a course has beside the common ones, by their places in the field table.

ghost use Rattle.std.specs.Prelude.{◌≡◌, ◌<◌, true, None, option_map, slice_index_or};
ghost use Rattle.roster_types.specs.Shapes.{own_fields, shapes_fit};
ghost use Rattle.roster_types.specs.Structs.{course_values};
ghost use Rattle.roster_values.specs.Value.{shown};

use crate::taken::{optional_reference, optional_text, optional_texts, reference, text};
use roster_base::Text;
use roster_texts::Id;
use roster_values::{Kind, Texts, Value, ValueRef};

/// What a course says of itself beside its id, its status and its moment.
#[derive(Drop)]
pub struct Course {
    /// The session in which it is given.
    pub school_year: Option<Id>,
    /// The title.
    pub title: Text,
    /// The district's code.
    pub course_code: Option<Text>,
    /// The grades for which it is.
    pub grades: Option<Texts>,
    /// The org that gives it.
    pub org: Id,
    /// The subjects' names.
    pub subjects: Option<Texts>,
    /// The subjects' codes.
    pub subject_codes: Option<Texts>,
}

impl Course {
    /// The value at a place, where there is one.
    pub fn value(&self, place: usize) -> Option<ValueRef<'_>>
        requires { place < 7 }
        ensures { option_map shown result ≡ slice_index_or (course_values self.now) place None }
    {
        match place {
            0 => self.school_year.as_ref().map(ValueRef::Ref),
            1 => Some(ValueRef::Text(&self.title)),
            2 => self.course_code.as_ref().map(ValueRef::Text),
            3 => self.grades.as_ref().map(ValueRef::Texts),
            4 => Some(ValueRef::Ref(&self.org)),
            5 => self.subjects.as_ref().map(ValueRef::Texts),
            _ => self.subject_codes.as_ref().map(ValueRef::Texts),
        }
    }

    /// The struct of the values of the kind's own fields, which are taken out of their places.
    pub fn take_from(values: &mut [Option<Value>]) -> Course
        requires { shapes_fit (own_fields Kind.Courses) values.old ≡ true }
        ensures { course_values result ≡ values.old }
    {
        Course {
            school_year: optional_reference(values, 0),
            title: text(values, 1),
            course_code: optional_text(values, 2),
            grades: optional_texts(values, 3),
            org: reference(values, 4),
            subjects: optional_texts(values, 5),
            subject_codes: optional_texts(values, 6),
        }
    }
}
