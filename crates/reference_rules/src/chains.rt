//! Chains of parents.

ghost use Rattle.std.specs.Prelude.{◌≡◌, option_copied};
ghost use Rattle.reference_rules.specs.Parents.{parent_of, returns_within};

use crate::typed::parent_in;
use roster_base::Same;
use roster_texts::Id;
use roster_types::rows::Rows;
use roster_values::Kind;

/// The parent that the row of this kind and id names.
pub fn parent<'a, R: Rows>(rows: &'a R, kind: Kind, id: &Id) -> Option<&'a Id>
    ensures { option_copied result ≡ parent_of (R.rows rows.now) kind id.now }
{
    parent_in(rows.row(kind, id)?)
}

/// Whether the chain of parents comes back to the id within so many turns. It is followed so far, or to its end.
pub fn returns_within<R: Rows>(rows: &R, kind: Kind, id: &Id, turns: u64) -> bool
    ensures { result ≡ returns_within (R.rows rows.now) kind id.now turns }
{
    let mut current = id;
    for _turn in 0..turns {
        match parent(rows, kind, current) {
            None => return false,
            Some(parent) => {
                if parent.is_same(id) {
                    return true;
                }
                current = parent;
            }
        }
    }
    false
}
