//! Whether two values of fields are equal.

ghost use Rattle.std.specs.Prelude.{◌≡◌, option_map};
ghost use Rattle.std.specs.Bool.{Decides};
ghost use Rattle.roster_values.specs.Value.{shown};

use crate::user_id::UserId;
use crate::value::ValueRef;
use roster_base::Same;

impl Same for UserId {
    fn is_same(&self, other: &UserId) -> bool {
        self.form() == other.form() && self.identifier() == other.identifier()
    }
}

/// Whether two values are equal.
pub fn is_same_value(left: ValueRef<'_>, right: ValueRef<'_>) -> bool
    ensures { Decides result (shown left.entry ≡ shown right.entry) }
{
    match (left, right) {
        (ValueRef::Text(left), ValueRef::Text(right)) => left.is_same(right),
        (ValueRef::Id(left), ValueRef::Id(right)) => left.is_same(right),
        (ValueRef::Day(left), ValueRef::Day(right)) => left == right,
        (ValueRef::Moment(left), ValueRef::Moment(right)) => left == right,
        (ValueRef::Number(left), ValueRef::Number(right)) => left == right,
        (ValueRef::Year(left), ValueRef::Year(right)) => left == right,
        (ValueRef::Flag(left), ValueRef::Flag(right)) => left == right,
        (ValueRef::Word(left), ValueRef::Word(right)) => left == right,
        (ValueRef::Texts(left), ValueRef::Texts(right)) => left.is_same(right),
        (ValueRef::UserIds(left), ValueRef::UserIds(right)) => left.is_same(right),
        (ValueRef::Ref(left), ValueRef::Ref(right)) => left.is_same(right),
        (ValueRef::Refs(left), ValueRef::Refs(right)) => left.is_same(right),
        _ => false,
    }
}

/// Whether two fields are equal, of which either may be absent.
pub fn are_same_fields(left: Option<ValueRef<'_>>, right: Option<ValueRef<'_>>) -> bool
    ensures { Decides result (option_map shown left.entry ≡ option_map shown right.entry) }
{
    match (left, right) {
        (Some(left), Some(right)) => is_same_value(left, right),
        (None, None) => true,
        _ => false,
    }
}
