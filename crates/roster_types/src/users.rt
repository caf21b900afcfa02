//! The fields that a user has beside the common ones, by their places in the field table.

ghost use Rattle.std.specs.Prelude.{◌≡◌, ◌<◌, true, None, option_map, slice_index_or};
ghost use Rattle.roster_types.specs.Shapes.{own_fields, shapes_fit};
ghost use Rattle.roster_types.specs.Structs.{user_values};
ghost use Rattle.roster_values.specs.Value.{shown};

use crate::taken::{
    flag, optional_references, optional_text, optional_texts, optional_user_ids, references, text,
    word,
};
use roster_base::Text;
use roster_values::{Ids, Kind, Texts, UserIds, Value, ValueRef, Word};

/// What a user says of itself beside its id, its status and its moment.
#[derive(Drop)]
pub struct User {
    /// Whether the user may sign in.
    pub enabled_user: bool,
    /// The orgs to which the user belongs.
    pub orgs: Ids,
    /// What the user is to the district, such as a student, a teacher or a parent.
    pub role: Word,
    /// The name with which the user signs in.
    pub username: Text,
    /// The user's ids in other systems.
    pub user_ids: Option<UserIds>,
    /// The given name.
    pub given_name: Text,
    /// The family name.
    pub family_name: Text,
    /// The middle name.
    pub middle_name: Option<Text>,
    /// The district's own number for the user.
    pub identifier: Option<Text>,
    /// The address of electronic mail.
    pub email: Option<Text>,
    /// The number for short messages.
    pub sms: Option<Text>,
    /// The telephone number.
    pub phone: Option<Text>,
    /// The users who act for this one, or for whom this one acts.
    pub agents: Option<Ids>,
    /// The grades that a student attends.
    pub grades: Option<Texts>,
}

impl User {
    /// The value at a place, where there is one.
    pub fn value(&self, place: usize) -> Option<ValueRef<'_>>
        requires { place < 14 }
        ensures { option_map shown result ≡ slice_index_or (user_values self.now) place None }
    {
        match place {
            0 => Some(ValueRef::Flag(&self.enabled_user)),
            1 => Some(ValueRef::Refs(&self.orgs)),
            2 => Some(ValueRef::Word(self.role.as_str())),
            3 => Some(ValueRef::Text(&self.username)),
            4 => self.user_ids.as_ref().map(ValueRef::UserIds),
            5 => Some(ValueRef::Text(&self.given_name)),
            6 => Some(ValueRef::Text(&self.family_name)),
            7 => self.middle_name.as_ref().map(ValueRef::Text),
            8 => self.identifier.as_ref().map(ValueRef::Text),
            9 => self.email.as_ref().map(ValueRef::Text),
            10 => self.sms.as_ref().map(ValueRef::Text),
            11 => self.phone.as_ref().map(ValueRef::Text),
            12 => self.agents.as_ref().map(ValueRef::Refs),
            _ => self.grades.as_ref().map(ValueRef::Texts),
        }
    }

    /// The struct of the values of the kind's own fields, which are taken out of their places.
    pub fn take_from(values: &mut [Option<Value>]) -> User
        requires { shapes_fit (own_fields Kind.Users) values.old ≡ true }
        ensures { user_values result ≡ values.old }
    {
        User {
            enabled_user: flag(values, 0),
            orgs: references(values, 1),
            role: word(values, 2),
            username: text(values, 3),
            user_ids: optional_user_ids(values, 4),
            given_name: text(values, 5),
            family_name: text(values, 6),
            middle_name: optional_text(values, 7),
            identifier: optional_text(values, 8),
            email: optional_text(values, 9),
            sms: optional_text(values, 10),
            phone: optional_text(values, 11),
            agents: optional_references(values, 12),
            grades: optional_texts(values, 13),
        }
    }
}
