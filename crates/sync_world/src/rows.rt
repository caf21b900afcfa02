//! Rows, read for what each of them keeps.

ghost use Rattle.std.specs.List.{AllByRecursion};
ghost use Rattle.hub_spec.specs.rules.States.{HoldsRows, ListsRows};
ghost use Rattle.version_core.specs.Version.{versions_from};
ghost use Rattle.sync_world.specs.Rows.{AreListed, AreRows, BringRows};

use roster_types::set::{RosterSet, SetPart};
use roster_types::set_row::SetRow;
use version_core::change::Change;
use version_core::hub_tables::HubTables;
use version_core::row_change::RowChange;

// Reads rows that are held.
fn read_rows(rows: &[RowChange])
    ensures { AreRows rows.now }
{
    for change in rows {
        let _ = change.row.kind();
    }
}

// Reads the rows that changes bring.
fn read_changes(changes: &[Change])
    ensures { BringRows changes.now }
{
    for change in changes {
        read_rows(change.rows.as_slice());
    }
}

// Reads the rows that a set lists of a kind.
fn read_part(rows: &[SetRow])
    ensures { AreListed rows.now }
{
    for listed in rows {
        let _ = listed.row.kind();
    }
}

// Reads the rows that a set lists.
fn read_parts(parts: &[SetPart])
    ensures { AllByRecursion (λ part. AreListed part.rows) parts.now }
{
    for part in parts {
        read_part(part.rows.as_slice());
    }
}

/// Reads the rows of a set, by which it lists rows.
pub fn read_set(set: &RosterSet)
    ensures { ListsRows set.now }
{
    read_parts(set.parts());
}

/// Reads the rows of tables, by which each version that they tell holds rows.
pub fn read_tables(tables: &HubTables)
    ensures { AllByRecursion HoldsRows (versions_from tables.now.base tables.now.changes) }
{
    read_rows(tables.base.rows.as_slice());
    read_changes(tables.changes.as_slice());
}
