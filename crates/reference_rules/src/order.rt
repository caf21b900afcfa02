//! The order of rows.

ghost use Rattle.std.specs.Prelude.{◌≡◌};
ghost use Rattle.roster_types.specs.Keys.{key_cmp};
ghost use Rattle.roster_values.specs.Kinds.{place_of_kind};

use roster_texts::Id;
use roster_values::Kind;
use std::cmp::Ordering;

/// How a kind and an id stand to others: by the order of kinds, and then by the bytes of the ids.
#[tactic(auto, unfolding(roster_types::specs::Keys::key_cmp))]
pub fn compare(kind: Kind, id: &Id, other_kind: Kind, other_id: &Id) -> Ordering
    ensures { result ≡ key_cmp (place_of_kind kind, id.now) (place_of_kind other_kind, other_id.now) }
{
    kind.place()
        .cmp(&other_kind.place())
        .then(id.as_str().cmp(other_id.as_str()))
}
