//! The fields that a result of a line item has beside the common ones, by their places in the field table.

ghost use Rattle.std.specs.Prelude.{◌≡◌, ◌<◌, true, None, option_map, slice_index_or};
ghost use Rattle.roster_types.specs.Shapes.{own_fields, shapes_fit};
ghost use Rattle.roster_types.specs.Structs.{score_values};
ghost use Rattle.roster_values.specs.Value.{shown};

use crate::taken::{day, optional_number, optional_text, reference, word};
use roster_base::Text;
use roster_texts::{Day, Id};
use roster_values::{Kind, Value, ValueRef, Word};

/// What a result of a line item says of itself beside its id, its status and its moment.
#[derive(Drop)]
pub struct Score {
    /// The line item.
    pub line_item: Id,
    /// The student.
    pub student: Id,
    /// How far it has come.
    pub score_status: Word,
    /// The score.
    pub score: Option<i64>,
    /// The day of the score.
    pub score_date: Day,
    /// What the teacher says of it.
    pub comment: Option<Text>,
}

impl Score {
    /// The value at a place, where there is one.
    pub fn value(&self, place: usize) -> Option<ValueRef<'_>>
        requires { place < 6 }
        ensures { option_map shown result ≡ slice_index_or (score_values self.now) place None }
    {
        match place {
            0 => Some(ValueRef::Ref(&self.line_item)),
            1 => Some(ValueRef::Ref(&self.student)),
            2 => Some(ValueRef::Word(self.score_status.as_str())),
            3 => self.score.as_ref().map(ValueRef::Number),
            4 => Some(ValueRef::Day(&self.score_date)),
            _ => self.comment.as_ref().map(ValueRef::Text),
        }
    }

    /// The struct of the values of the kind's own fields, which are taken out of their places.
    pub fn take_from(values: &mut [Option<Value>]) -> Score
        requires { shapes_fit (own_fields Kind.Results) values.old ≡ true }
        ensures { score_values result ≡ values.old }
    {
        Score {
            line_item: reference(values, 0),
            student: reference(values, 1),
            score_status: word(values, 2),
            score: optional_number(values, 3),
            score_date: day(values, 4),
            comment: optional_text(values, 5),
        }
    }
}
