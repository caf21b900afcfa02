//! The fields that a line item of a gradebook has beside the common ones, by their places in the field table.

ghost use Rattle.std.specs.Prelude.{◌≡◌, ◌<◌, true, None, option_map, slice_index_or};
ghost use Rattle.roster_types.specs.Shapes.{own_fields, shapes_fit};
ghost use Rattle.roster_types.specs.Structs.{line_item_values};
ghost use Rattle.roster_values.specs.Value.{shown};

use crate::taken::{day, optional_number, optional_reference, optional_text, reference, text};
use roster_base::Text;
use roster_texts::{Day, Id};
use roster_values::{Kind, Value, ValueRef};

/// What a line item of a gradebook says of itself beside its id, its status and its moment.
#[derive(Drop)]
pub struct LineItem {
    /// The title.
    pub title: Text,
    /// What is asked.
    pub description: Option<Text>,
    /// The day on which it is given.
    pub assign_date: Day,
    /// The day on which it is due.
    pub due_date: Day,
    /// The class.
    pub class_id: Id,
    /// The category.
    pub category: Id,
    /// The session in which it counts.
    pub grading_period: Option<Id>,
    /// The least score.
    pub result_value_min: Option<i64>,
    /// The greatest score.
    pub result_value_max: Option<i64>,
}

impl LineItem {
    /// The value at a place, where there is one.
    pub fn value(&self, place: usize) -> Option<ValueRef<'_>>
        requires { place < 9 }
        ensures { option_map shown result ≡ slice_index_or (line_item_values self.now) place None }
    {
        match place {
            0 => Some(ValueRef::Text(&self.title)),
            1 => self.description.as_ref().map(ValueRef::Text),
            2 => Some(ValueRef::Day(&self.assign_date)),
            3 => Some(ValueRef::Day(&self.due_date)),
            4 => Some(ValueRef::Ref(&self.class_id)),
            5 => Some(ValueRef::Ref(&self.category)),
            6 => self.grading_period.as_ref().map(ValueRef::Ref),
            7 => self.result_value_min.as_ref().map(ValueRef::Number),
            _ => self.result_value_max.as_ref().map(ValueRef::Number),
        }
    }

    /// The struct of the values of the kind's own fields, which are taken out of their places.
    pub fn take_from(values: &mut [Option<Value>]) -> LineItem
        requires { shapes_fit (own_fields Kind.LineItems) values.old ≡ true }
        ensures { line_item_values result ≡ values.old }
    {
        LineItem {
            title: text(values, 0),
            description: optional_text(values, 1),
            assign_date: day(values, 2),
            due_date: day(values, 3),
            class_id: reference(values, 4),
            category: reference(values, 5),
            grading_period: optional_reference(values, 6),
            result_value_min: optional_number(values, 7),
            result_value_max: optional_number(values, 8),
        }
    }
}
