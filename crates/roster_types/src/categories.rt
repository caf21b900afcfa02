//! The fields that a category of line items has beside the common ones, by their places in the field table.

ghost use Rattle.std.specs.Prelude.{◌≡◌, ◌<◌, true, None, option_map, slice_index_or};
ghost use Rattle.roster_types.specs.Shapes.{own_fields, shapes_fit};
ghost use Rattle.roster_types.specs.Structs.{category_values};
ghost use Rattle.roster_values.specs.Value.{shown};

use crate::taken::text;
use roster_base::Text;
use roster_values::{Kind, Value, ValueRef};

/// What a category of line items says of itself beside its id, its status and its moment.
#[derive(Drop)]
pub struct Category {
    /// The title.
    pub title: Text,
}

impl Category {
    /// The value at a place, where there is one.
    pub fn value(&self, place: usize) -> Option<ValueRef<'_>>
        requires { place < 1 }
        ensures { option_map shown result ≡ slice_index_or (category_values self.now) place None }
    {
        match place {
            _ => Some(ValueRef::Text(&self.title)),
        }
    }

    /// The struct of the values of the kind's own fields, which are taken out of their places.
    pub fn take_from(values: &mut [Option<Value>]) -> Category
        requires { shapes_fit (own_fields Kind.Categories) values.old ≡ true }
        ensures { category_values result ≡ values.old }
    {
        Category {
            title: text(values, 0),
        }
    }
}
