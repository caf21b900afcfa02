//! The fields that a class has beside the common ones, by their places in the field table.

ghost use Rattle.std.specs.Prelude.{◌≡◌, ◌<◌, true, None, option_map, slice_index_or};
ghost use Rattle.roster_types.specs.Shapes.{own_fields, shapes_fit};
ghost use Rattle.roster_types.specs.Structs.{class_values};
ghost use Rattle.roster_values.specs.Value.{shown};

use crate::taken::{optional_text, optional_texts, reference, references, text, word};
use roster_base::Text;
use roster_texts::Id;
use roster_values::{Ids, Kind, Texts, Value, ValueRef, Word};

/// What a class says of itself beside its id, its status and its moment.
#[derive(Drop)]
pub struct Class {
    /// The title.
    pub title: Text,
    /// The grades that attend.
    pub grades: Option<Texts>,
    /// The course of which it is one.
    pub course: Id,
    /// The school's code.
    pub class_code: Option<Text>,
    /// Homeroom or scheduled.
    pub class_type: Word,
    /// Where it meets.
    pub location: Option<Text>,
    /// The school.
    pub school: Id,
    /// The sessions in which it meets.
    pub terms: Ids,
    /// The subjects' names.
    pub subjects: Option<Texts>,
    /// The subjects' codes.
    pub subject_codes: Option<Texts>,
    /// The periods of the day.
    pub periods: Option<Texts>,
}

impl Class {
    /// The value at a place, where there is one.
    pub fn value(&self, place: usize) -> Option<ValueRef<'_>>
        requires { place < 11 }
        ensures { option_map shown result ≡ slice_index_or (class_values self.now) place None }
    {
        match place {
            0 => Some(ValueRef::Text(&self.title)),
            1 => self.grades.as_ref().map(ValueRef::Texts),
            2 => Some(ValueRef::Ref(&self.course)),
            3 => self.class_code.as_ref().map(ValueRef::Text),
            4 => Some(ValueRef::Word(self.class_type.as_str())),
            5 => self.location.as_ref().map(ValueRef::Text),
            6 => Some(ValueRef::Ref(&self.school)),
            7 => Some(ValueRef::Refs(&self.terms)),
            8 => self.subjects.as_ref().map(ValueRef::Texts),
            9 => self.subject_codes.as_ref().map(ValueRef::Texts),
            _ => self.periods.as_ref().map(ValueRef::Texts),
        }
    }

    /// The struct of the values of the kind's own fields, which are taken out of their places.
    pub fn take_from(values: &mut [Option<Value>]) -> Class
        requires { shapes_fit (own_fields Kind.Classes) values.old ≡ true }
        ensures { class_values result ≡ values.old }
    {
        Class {
            title: text(values, 0),
            grades: optional_texts(values, 1),
            course: reference(values, 2),
            class_code: optional_text(values, 3),
            class_type: word(values, 4),
            location: optional_text(values, 5),
            school: reference(values, 6),
            terms: references(values, 7),
            subjects: optional_texts(values, 8),
            subject_codes: optional_texts(values, 9),
            periods: optional_texts(values, 10),
        }
    }
}
