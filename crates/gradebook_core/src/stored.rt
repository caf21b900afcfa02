//! What a row that passes its checks makes of the newest version.

ghost use Rattle.std.specs.Prelude.{◌≡◌, IfOk, option_copied};
ghost use Rattle.gradebook_core.specs.Judging.{IsNewlyMade, verdict_of};
ghost use Rattle.hub_spec.specs.rules.Verdicts as spec;
ghost use Rattle.version_core.specs.Version.{newest_of};

use crate::judgement::Judgement;
use crate::outcome::Check;
use roster_base::NoMemory;
use roster_texts::Moment;
use std::alloc::Global;
use version_changes::limits::LAST_VERSION;
use version_changes::{is_active, marked};
use version_core::change::Change;
use version_core::row_change::RowChange;
use version_core::sorted_rows::SortedRows;
use version_core::table::Table;

// A row is stored as the next version, unless there is none.
fn leads_with(
    alloc: Global,
    table: &Table,
    at: Moment,
    change: RowChange,
) -> Result<Judgement, NoMemory>
    ensures verdict { IfOk result (λ made. verdict_of (newest_of table.now) made ≡ spec.leads_with (newest_of table.now) at change) }
    ensures order { IfOk result IsNewlyMade }
{
    // Read for the bound of its number.
    let _ = table.newest_rows();
    if table.newest() == LAST_VERSION {
        drop(change);
        return Ok(Judgement::Refused(Check::LastVersion));
    }
    let mut rows = SortedRows::new(alloc);
    rows.put(change)?;
    // Read for its order.
    let _ = rows.as_slice();
    Ok(Judgement::New(Change {
        version: table.newest() + 1,
        moment: at,
        rows,
        grants: None,
    }))
}

/// What a put row makes: nothing new where it equals the stored one in all but the date.
pub fn put_makes(
    alloc: Global,
    table: &Table,
    at: Moment,
    change: RowChange,
    stored: Option<&RowChange>,
) -> Result<Judgement, NoMemory>
    ensures verdict { IfOk result (λ made. spec.PutMakes (newest_of table.now) at change (option_copied stored.entry) (verdict_of (newest_of table.now) made)) }
    ensures order { IfOk result IsNewlyMade }
{
    if let Some(stored) = stored {
        if change.row.is_same_but_date(&stored.row) {
            drop(change);
            return Ok(Judgement::Same);
        }
    }
    leads_with(alloc, table, at, change)
}

/// What a DELETE makes: it marks the row, once.
pub fn delete_makes(
    alloc: Global,
    table: &Table,
    at: Moment,
    stored: Option<&RowChange>,
) -> Result<Judgement, NoMemory>
    ensures verdict { IfOk result (λ made. verdict_of (newest_of table.now) made ≡ spec.delete_makes (newest_of table.now) at (option_copied stored.entry)) }
    ensures order { IfOk result IsNewlyMade }
{
    let Some(stored) = stored else {
        return Ok(Judgement::Refused(Check::NoSuchObject));
    };
    if !is_active(stored.row.status()) {
        return Ok(Judgement::Same);
    }
    let change = marked(alloc, at, stored)?;
    leads_with(alloc, table, at, change)
}
