//! What held rows change of the newest version.

ghost use Rattle.std.specs.Prelude.{IfOk, ℕ, List};
ghost use Rattle.std.specs.Option.{ForSome};
ghost use Rattle.hub_cascade.specs.Cascading.{Cascades};
ghost use Rattle.hub_cascade.specs.Steps.{LeadsWith, ListsAll};
ghost use Rattle.roster_types.specs.Records.{Record};
ghost use Rattle.version_changes.specs.grants.Asked.{AnswersBy};
ghost use Rattle.version_core.specs.Version.{newest_of};

use roster_base::Refusal;
use roster_texts::Moment;
use roster_types::set::RosterSet;
use roster_values::Kind;
use std::alloc::Global;
use version_changes::PublishFault;
use version_changes::limits::LAST_VERSION;
use version_changes::sets::draft::Draft;
use version_changes::sets::publish::changed_rows;
use version_changes::sets::refusals::{owned_by_other, too_many};
use version_core::change::Change;
use version_core::table::Table;

/// What held rows, listed by a set, make of the newest version of a table, at a moment: the change to the next version,
/// or nothing where no row changes. References are not checked: a copy may name rows that it lacks.
pub fn held_change(
    alloc: Global,
    table: &Table,
    set: RosterSet,
    at: Moment,
) -> Result<Option<Change>, Refusal<PublishFault>>
    ensures change { (feed : List ℕ) (held : List Record) → ListsAll feed held set → AnswersBy (Cascades (newest_of table.now) feed held at) (newest_of table.now) result }
    ensures next { IfOk result (λ change. ForSome change (LeadsWith (newest_of table.now))) }
{
    let view = table.newest_rows();
    // Asked while the set has its rows: they move into the change.
    let owned = owned_by_other(alloc, &view, &set)?;
    let rows = changed_rows(alloc, &view, set, at)?;
    let draft = Draft {
        view: &view,
        changes: &rows,
    };
    if let Some(fault) = owned {
        return Err(Refusal::Fault(fault));
    }
    if let Some(fault) = too_many(&draft, &Kind::ALL) {
        return Err(Refusal::Fault(fault));
    }
    if rows.as_slice().is_empty() {
        return Ok(None);
    }
    if table.newest() == LAST_VERSION {
        return Err(Refusal::Fault(PublishFault::LastVersion));
    }
    Ok(Some(Change {
        version: table.newest() + 1,
        moment: at,
        rows,
        grants: None,
    }))
}
