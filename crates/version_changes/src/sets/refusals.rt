//! Why a set is refused before it is asked whether it changes anything.

ghost use Rattle.std.specs.Prelude.{◌≡◌, IfOk, [], option_copied, true};
ghost use Rattle.reference_rules.specs.Faults.{faults_of};
ghost use Rattle.version_changes.specs.sets.Applying.{fault_of_owner, owned_by_other, rows_in, too_many, unsound};
ghost use Rattle.version_changes.specs.sets.Steps.{rows_refusal};
ghost use Rattle.version_core.specs.Changes.{change_key, rows_of};
ghost use Rattle.version_core.specs.Order.{overlaid};

use crate::limits::ROW_LIMIT;
use crate::sets::draft::Draft;
use crate::sets::listed::is_own;
use crate::sets::publish_fault::PublishFault;
use crate::sets::soundness::draft_faults;
use reference_rules::RefFault;
use roster_base::{Items, NoMemory, TryCopy};
use roster_texts::Name;
use roster_types::rows::Rows;
use roster_types::set::RosterSet;
use roster_types::set_row::SetRow;
use roster_values::Kind;
use std::alloc::Global;
use version_core::row_change::RowChange;
use version_core::view::VersionView;

// The refusal of a listed row, where what is stored under its kind and id has another owner.
fn fault_of_owner(
    alloc: Global,
    feed: &Name,
    listed: &SetRow,
    stored: Option<&RowChange>,
) -> Result<Option<PublishFault>, NoMemory>
    ensures { IfOk result (λ fault. fault ≡ fault_of_owner feed.now listed.now (option_copied stored.entry)) }
{
    let Some(stored) = stored else {
        return Ok(None);
    };
    if is_own(feed, &stored.owner) {
        return Ok(None);
    }
    Ok(Some(PublishFault::OwnedByOther {
        kind: listed.row.kind(),
        id: listed.row.id().copy(alloc)?,
        owner: stored.owner.copy(alloc)?,
    }))
}

// The refusal of the first of these rows that stands with another owner.
fn part_owned_by_other(
    alloc: Global,
    view: &VersionView,
    feed: &Name,
    rows: &[SetRow],
) -> Result<Option<PublishFault>, NoMemory>
    ensures { IfOk result (λ fault. fault ≡ owned_by_other feed.now view.now.rows rows.now) }
{
    let mut near = 0;
    for listed in rows {
        let stored = view.change_near(listed.row.kind(), listed.row.id(), &mut near);
        if let Some(fault) = fault_of_owner(alloc, feed, listed, stored)? {
            return Ok(Some(fault));
        }
    }
    Ok(None)
}

/// The refusal of the first row of a set that stands with another owner.
pub fn owned_by_other(
    alloc: Global,
    view: &VersionView,
    set: &RosterSet,
) -> Result<Option<PublishFault>, NoMemory>
    ensures { IfOk result (λ fault. fault ≡ owned_by_other set.now.feed view.now.rows (rows_in set.now)) }
{
    for part in set.parts() {
        if let Some(fault) = part_owned_by_other(alloc, view, set.feed(), part.rows.as_slice())? {
            return Ok(Some(fault));
        }
    }
    Ok(None)
}

/// The refusal of the first of these kinds that has too many rows.
pub fn too_many<R: Rows>(rows: &R, kinds: &[Kind]) -> Option<PublishFault>
    ensures { result ≡ too_many (R.rows rows.now) kinds.now }
{
    for kind in kinds {
        let count = rows.count(*kind);
        if count > ROW_LIMIT {
            return Some(PublishFault::TooManyRows { kind: *kind, count });
        }
    }
    None
}

// The refusal for broken references.
fn unsound(faults: Vec<RefFault>) -> Option<PublishFault>
    ensures { result ≡ unsound faults.items }
{
    if faults.is_empty() {
        return None;
    }
    Some(PublishFault::Unsound(Items::from_vec(faults)))
}

/// The refusal of the rows of a draft, whoever publishes them: too many rows of a kind, or broken references.
/// `is_sound` says that the rows before the draft are known to have no broken references; those of the draft are found
/// faster then.
pub fn refusal_of(
    alloc: Global,
    draft: &Draft,
    is_sound: bool,
) -> Result<Option<PublishFault>, NoMemory>
    requires { is_sound ≡ true → faults_of (rows_of draft.now.view.now.rows) ≡ [] }
    ensures { IfOk result (λ fault. fault ≡ rows_refusal (rows_of (overlaid change_key draft.now.view.now.rows draft.now.changes.now))) }
{
    if let Some(fault) = too_many(draft, &Kind::ALL) {
        return Ok(Some(fault));
    }
    Ok(unsound(draft_faults(alloc, draft, is_sound)?))
}
