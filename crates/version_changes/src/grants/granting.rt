//! Lists of grants applied to the newest version.

ghost use Rattle.std.specs.Prelude.{◌≡◌, IfOk, map, option_copied};
ghost use Rattle.std.specs.Option.{ForSome};
ghost use Rattle.version_changes.specs.grants.Asked.{AnswersBy};
ghost use Rattle.version_changes.specs.grants.Granting.{GrantsMake, asks_for, granted, grants_from, same_schools};
ghost use Rattle.version_changes.specs.grants.Granting.{since_of};
ghost use Rattle.grant_scopes.specs.Entries.{AreEntries, entry_caller};
ghost use Rattle.roster_base.specs.Order.{in_order};
ghost use Rattle.version_changes.specs.sets.Applying.{LeadsOn};
ghost use Rattle.version_core.specs.Grants.{grant_row_of};
ghost use Rattle.version_core.specs.Version.{newest_of};

use crate::limits::LAST_VERSION;
use crate::sets::PublishFault;
use grant_scopes::{Grant, GrantEntry, GrantList, Schools};
use roster_base::{Items, NoMemory, Refusal, Same, TryCopy, are_same, sorted};
use roster_texts::{Moment, Name};
use std::alloc::Global;
use version_core::change::Change;
use version_core::grant_row::GrantRow;
use version_core::sorted_rows::SortedRows;
use version_core::table::Table;

// The caller with its grant, if it has one.
fn grant_row_of<'a>(grants: &'a [GrantRow], caller: &Name) -> Option<&'a GrantRow>
    ensures { option_copied result ≡ grant_row_of caller.now grants.now }
{
    for row in grants {
        if row.caller.as_str() == caller.as_str() {
            return Some(row);
        }
    }
    None
}

// Whether both name the same schools: `is_same`, told in the words of grants.
fn same_schools(left: &Schools, right: &Schools) -> bool
    ensures { result ≡ same_schools left.now right.now }
{
    left.is_same(right)
}

// Whether an entry asks for what a grant says.
fn asks_for(entry: &GrantEntry, grant: &Grant) -> bool
    ensures { result ≡ asks_for entry.now grant.now }
{
    entry.token.as_str() == grant.token.as_str()
        && entry.scopes.bits() == grant.scopes.bits()
        && same_schools(&entry.schools, &grant.schools)
}

// Since when a caller has what it asks for: the next version, unless it has it already.
fn since_of(next: u64, entry: &GrantEntry, grants: &[GrantRow]) -> u64
    ensures { result ≡ since_of next entry.now (grant_row_of entry.now.caller grants.now) }
{
    let Some(row) = grant_row_of(grants, &entry.caller) else {
        return next;
    };
    if !asks_for(entry, &row.grant) {
        return next;
    }
    row.grant.since
}

// What an entry is granted in the version after the newest.
fn granted(table: &Table, entry: GrantEntry) -> GrantRow
    ensures { result ≡ granted (newest_of table.now) entry }
{
    let view = table.newest_rows();
    let since = since_of(table.newest() + 1, &entry, view.grants());
    let GrantEntry {
        caller,
        token,
        scopes,
        schools,
    } = entry;
    let grant = Grant {
        token,
        scopes,
        schools,
        since,
    };
    GrantRow { caller, grant }
}

// The entries in the order of their callers.
fn ordered(alloc: Global, list: &GrantList) -> Result<Vec<GrantEntry>, NoMemory>
    ensures order { IfOk result (λ v. v.items ≡ in_order entry_caller list.now) }
    ensures differ { AreEntries list.now }
{
    let mut entries = Vec::new(alloc);
    for entry in list.entries() {
        entries.push(entry.copy(alloc)?)?;
    }
    sorted(alloc, entries)
}

// What the entries are granted.
fn all_granted(
    alloc: Global,
    table: &Table,
    entries: Vec<GrantEntry>,
) -> Result<Vec<GrantRow>, NoMemory>
    ensures { IfOk result (λ rows. rows.items ≡ map (granted (newest_of table.now)) entries.items) }
{
    let mut rows = Vec::with_capacity(alloc, entries.len())?;
    for entry in entries {
        rows.push(granted(table, entry))?;
    }
    Ok(rows)
}

// The grants that a list leads to, in the order of the callers.
fn grants_from(alloc: Global, table: &Table, list: &GrantList) -> Result<Items<GrantRow>, NoMemory>
    ensures grants { IfOk result (λ rows. rows ≡ grants_from (newest_of table.now) list.now) }
    ensures differ { AreEntries list.now }
{
    let entries = ordered(alloc, list)?;
    let rows = all_granted(alloc, table, entries)?;
    Ok(Items::from_vec(rows))
}

/// What a list of grants makes of the newest version of a table, where it is published at a moment: the change to the
/// next version, or nothing where no grant changes. A caller that has what it asks for keeps it since the version since
/// which it has it; any other caller of the list has it since the next version, and a caller that isn't listed has
/// nothing. The one fault is that a change is due and the newest version has the last number.
pub fn grants_change(
    alloc: Global,
    table: &Table,
    list: &GrantList,
    at: Moment,
) -> Result<Option<Change>, Refusal<PublishFault>>
    ensures change { AnswersBy (GrantsMake (newest_of table.now) list.now at) (newest_of table.now) result }
    ensures next { IfOk result (λ change. ForSome change (LeadsOn (newest_of table.now))) }
{
    let view = table.newest_rows();
    let grants = grants_from(alloc, table, list)?;
    if are_same(view.grants(), grants.as_slice()) {
        return Ok(None);
    }
    if table.newest() == LAST_VERSION {
        return Err(Refusal::Fault(PublishFault::LastVersion));
    }
    Ok(Some(Change {
        version: table.newest() + 1,
        moment: at,
        rows: SortedRows::new(alloc),
        grants: Some(grants),
    }))
}
