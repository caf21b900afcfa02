//! The fields that an org has beside the common ones, by their places in the field table.

ghost use Rattle.std.specs.Prelude.{◌≡◌, ◌<◌, true, None, option_map, slice_index_or};
ghost use Rattle.roster_types.specs.Shapes.{own_fields, shapes_fit};
ghost use Rattle.roster_types.specs.Structs.{org_values};
ghost use Rattle.roster_values.specs.Value.{shown};

use crate::taken::{optional_reference, optional_text, text, word};
use roster_base::Text;
use roster_texts::Id;
use roster_values::{Kind, Value, ValueRef, Word};

/// What an org says of itself beside its id, its status and its moment.
#[derive(Drop)]
pub struct Org {
    /// The name.
    pub name: Text,
    /// What sort of org it is.
    pub type_word: Word,
    /// The district's own number or name for it.
    pub identifier: Option<Text>,
    /// The org above it.
    pub parent: Option<Id>,
}

impl Org {
    /// The value at a place, where there is one.
    pub fn value(&self, place: usize) -> Option<ValueRef<'_>>
        requires { place < 4 }
        ensures { option_map shown result ≡ slice_index_or (org_values self.now) place None }
    {
        match place {
            0 => Some(ValueRef::Text(&self.name)),
            1 => Some(ValueRef::Word(self.type_word.as_str())),
            2 => self.identifier.as_ref().map(ValueRef::Text),
            _ => self.parent.as_ref().map(ValueRef::Ref),
        }
    }

    /// The struct of the values of the kind's own fields, which are taken out of their places.
    pub fn take_from(values: &mut [Option<Value>]) -> Org
        requires { shapes_fit (own_fields Kind.Orgs) values.old ≡ true }
        ensures { org_values result ≡ values.old }
    {
        Org {
            name: text(values, 0),
            type_word: word(values, 1),
            identifier: optional_text(values, 2),
            parent: optional_reference(values, 3),
        }
    }
}
