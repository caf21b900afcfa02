//! Whether changes lead from a base to the newest version.

ghost use Rattle.std.specs.Prelude.{◌≡◌, ◌+◌, ◌-◌, ◌≤◌, true};
ghost use Rattle.version_core.specs.Table.{LeadOn};
ghost use Rattle.version_core.specs.Version.{empty_version, last_version};

use crate::limits::LAST_VERSION;
use version_core::change::{BaseVersion, Change};

// Whether a number is the one after another.
fn is_next(last: u64, number: u64) -> bool
    ensures { result ≡ true → (number ≡ last + 1) × (number ≤ last_version) }
{
    if last >= LAST_VERSION {
        return false;
    }
    number == last + 1
}

/// Whether each change leads to the number after the one before.
pub(crate) fn leads_on(number: u64, changes: &[Change]) -> bool
    ensures { result ≡ true → LeadOn number changes.now }
{
    let mut last = number;
    for change in changes {
        if !is_next(last, change.version) {
            return false;
        }
        last = change.version;
    }
    true
}

/// Whether the base is the oldest version that is kept, of so many changes behind it.
pub(crate) fn are_kept(number: u64, count: usize, keep: u32) -> bool
    ensures { result ≡ true → number ≡ (number + count) - keep }
{
    if number > LAST_VERSION {
        return false;
    }
    let keep = u64::from(keep);
    let count = count as u64;
    if number == 0 {
        count <= keep
    } else {
        count == keep
    }
}

/// Whether a base of number 0 has no rows, no grants and the moment 0.
pub(crate) fn is_first(base: &BaseVersion) -> bool
    ensures { result ≡ true → base.now.number ≡ 0 → base.now ≡ empty_version }
{
    if base.number != 0 {
        return true;
    }
    base.moment.milliseconds() == 0
        && base.rows.as_slice().is_empty()
        && base.grants.as_slice().is_empty()
}
