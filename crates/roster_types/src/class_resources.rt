//! The fields that a class resource has beside the common ones, by their places in the field table.

ghost use Rattle.std.specs.Prelude.{◌≡◌, ◌<◌, true, None, option_map, slice_index_or};
ghost use Rattle.roster_types.specs.Shapes.{own_fields, shapes_fit};
ghost use Rattle.roster_types.specs.Structs.{class_resource_values};
ghost use Rattle.roster_values.specs.Value.{shown};

use crate::taken::{optional_text, reference};
use roster_base::Text;
use roster_texts::Id;
use roster_values::{Kind, Value, ValueRef};

/// What a class resource says of itself beside its id, its status and its moment.
#[derive(Drop)]
pub struct ClassResource {
    /// The title.
    pub title: Option<Text>,
    /// The class.
    pub class_id: Id,
    /// The resource.
    pub resource: Id,
}

impl ClassResource {
    /// The value at a place, where there is one.
    pub fn value(&self, place: usize) -> Option<ValueRef<'_>>
        requires { place < 3 }
        ensures { option_map shown result ≡ slice_index_or (class_resource_values self.now) place None }
    {
        match place {
            0 => self.title.as_ref().map(ValueRef::Text),
            1 => Some(ValueRef::Ref(&self.class_id)),
            _ => Some(ValueRef::Ref(&self.resource)),
        }
    }

    /// The struct of the values of the kind's own fields, which are taken out of their places.
    pub fn take_from(values: &mut [Option<Value>]) -> ClassResource
        requires { shapes_fit (own_fields Kind.ClassResources) values.old ≡ true }
        ensures { class_resource_values result ≡ values.old }
    {
        ClassResource {
            title: optional_text(values, 0),
            class_id: reference(values, 1),
            resource: reference(values, 2),
        }
    }
}
