//! Whether rows stand in order.

ghost use Rattle.std.specs.Prelude.{◌≡◌, true};
ghost use Rattle.std.specs.Ordering.{is_lt};
ghost use Rattle.roster_types.specs.Keys.{key_cmp};
ghost use Rattle.version_core.specs.Changes.{AreChanges, change_key};

use version_core::row_change::RowChange;
use version_core::sorted::compare;

// Whether one row stands in front of another in the order of kinds and ids.
fn is_below(low: &RowChange, high: &RowChange) -> bool
    ensures { result ≡ is_lt (key_cmp (change_key low.now) (change_key high.now)) }
{
    compare(low, high).is_lt()
}

/// Whether each row stands in front of the next, in the order of kinds and ids.
pub fn are_changes(rows: &[RowChange]) -> bool
    ensures { result ≡ true → AreChanges rows.now }
{
    for place in 1..rows.len() {
        if !is_below(&rows[place - 1], &rows[place]) {
            return false;
        }
    }
    true
}
