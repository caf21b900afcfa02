//! Chains of orgs.

ghost use Rattle.std.specs.Prelude.{◌≡◌};
ghost use Rattle.hub_spec.specs.views.Seen as spec;

use reference_rules::parent;
use roster_texts::Id;
use roster_types::rows::Rows;
use roster_values::Kind;

/// Whether the id is the school's, or that of its n-th parent for some n up to `turns`.
pub fn leads_up<R: Rows>(rows: &R, id: &Id, turns: u64, school: &Id) -> bool
    ensures { result ≡ spec.leads_up (R.rows rows.now) id.now turns school.now }
{
    if school.as_str() == id.as_str() {
        return true;
    }
    let mut current = school;
    for _turn in 0..turns {
        match parent(rows, Kind::Orgs, current) {
            None => return false,
            Some(parent) => {
                if parent.as_str() == id.as_str() {
                    return true;
                }
                current = parent;
            }
        }
    }
    false
}
