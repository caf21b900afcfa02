//! The fields that a resource has beside the common ones, by their places in the field table.

ghost use Rattle.std.specs.Prelude.{◌≡◌, ◌<◌, true, None, option_map, slice_index_or};
ghost use Rattle.roster_types.specs.Shapes.{own_fields, shapes_fit};
ghost use Rattle.roster_types.specs.Structs.{resource_values};
ghost use Rattle.roster_values.specs.Value.{shown};

use crate::lent::lent_word;
use crate::taken::{optional_text, optional_texts, optional_word, text};
use roster_base::Text;
use roster_values::{Kind, Texts, Value, ValueRef, Word};

/// What a resource says of itself beside its id, its status and its moment.
#[derive(Drop)]
pub struct Resource {
    /// What its vendor calls it.
    pub vendor_resource_id: Text,
    /// The title.
    pub title: Option<Text>,
    /// Whom it is for.
    pub roles: Option<Texts>,
    /// Whether it is a primary or a secondary resource.
    pub importance: Option<Word>,
    /// The vendor.
    pub vendor_id: Option<Text>,
    /// The program that shows it.
    pub application_id: Option<Text>,
}

impl Resource {
    /// The value at a place, where there is one.
    pub fn value(&self, place: usize) -> Option<ValueRef<'_>>
        requires { place < 6 }
        ensures { option_map shown result ≡ slice_index_or (resource_values self.now) place None }
    {
        match place {
            0 => Some(ValueRef::Text(&self.vendor_resource_id)),
            1 => self.title.as_ref().map(ValueRef::Text),
            2 => self.roles.as_ref().map(ValueRef::Texts),
            3 => lent_word(&self.importance),
            4 => self.vendor_id.as_ref().map(ValueRef::Text),
            _ => self.application_id.as_ref().map(ValueRef::Text),
        }
    }

    /// The struct of the values of the kind's own fields, which are taken out of their places.
    pub fn take_from(values: &mut [Option<Value>]) -> Resource
        requires { shapes_fit (own_fields Kind.Resources) values.old ≡ true }
        ensures { resource_values result ≡ values.old }
    {
        Resource {
            vendor_resource_id: text(values, 0),
            title: optional_text(values, 1),
            roles: optional_texts(values, 2),
            importance: optional_word(values, 3),
            vendor_id: optional_text(values, 4),
            application_id: optional_text(values, 5),
        }
    }
}
