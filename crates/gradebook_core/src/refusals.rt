//! The first check that a write fails.

ghost use Rattle.std.specs.Prelude.{◌≡◌, option_copied, option_map};
ghost use Rattle.gradebook_core.specs.Outcomes.{check_number};
ghost use Rattle.hub_spec.specs.rules.Refusals as spec;

use crate::checks::{has_grading_period, is_of_other, is_one_too_many};
use crate::fields::is_within;
use crate::outcome::Check;
use query_pages::sees;
use roster_types::row::Row;
use version_core::grant_row::GrantRow;
use version_core::mark::Write;
use version_core::row_change::RowChange;
use version_core::view::VersionView;

/// The first check that a put row fails: owner, grant, references, limit.
pub fn put_refusal(
    view: &VersionView<'_>,
    by: &GrantRow,
    write: &Write,
    stored: Option<&RowChange>,
    row: &Row,
) -> Option<Check>
    requires { option_copied stored ≡ spec.stored_at view.now write.now }
    ensures { option_map check_number result ≡ spec.put_refusal view.now by.now write.now row.now }
{
    if is_of_other(&by.caller, stored) {
        return Some(Check::OwnedByAnother);
    }
    if !is_within(view, &by.grant, row) {
        return Some(Check::ReferenceOutsideGrant);
    }
    if !has_grading_period(view, row) {
        return Some(Check::ReferenceOfWrongType);
    }
    if is_one_too_many(view, write.kind, stored) {
        return Some(Check::TooManyRows);
    }
    None
}

/// The first check that a DELETE fails: object, owner.
pub fn delete_refusal(
    view: &VersionView<'_>,
    by: &GrantRow,
    write: &Write,
    stored: Option<&RowChange>,
) -> Option<Check>
    requires { option_copied stored ≡ spec.stored_at view.now write.now }
    ensures { option_map check_number result ≡ spec.delete_refusal view.now by.now write.now }
{
    if !sees(view, &by.grant, write.kind, &write.id) {
        return Some(Check::NoSuchObject);
    }
    if is_of_other(&by.caller, stored) {
        return Some(Check::OwnedByAnother);
    }
    None
}
