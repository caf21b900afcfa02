//! The file of what changed of a kind since an earlier set.

ghost use Rattle.std.specs.Prelude.{◌≡◌, ◌≤◌, ◌++◌, is_some, option_copied, option_to_list, IfErr, IfOk, OnOk};
ghost use Rattle.std.specs.List.{All};
ghost use Rattle.bulk_export.specs.Changes.{AreChanges, HasTooMany, IsChangesExport, is_as_before, rows_in};
ghost use Rattle.bulk_export.specs.Exports.{CauseOf};
ghost use Rattle.bulk_export.specs.Steps.{each_told, earlier_key, gone_row, new_row, set_row};
ghost use Rattle.keeper_memory.specs.copy.Copies.{Copy};
ghost use Rattle.keeper_memory.specs.copy.Lists.{IsList};
ghost use Rattle.roster_base.specs.Faults.{Rose};
ghost use Rattle.roster_types.specs.Keys.{Ascends, look_up, row_key};
ghost use Rattle.roster_values.specs.Kinds.{place_of_kind};
ghost use Rattle.row_deltas.specs.Sameness.{same_row};

use crate::earlier::{EarlierRow, earlier_at, ordered, rows_in};
use crate::error::ExportError;
use crate::text::{file_text, held_rows};
use keeper_memory::CopyKeeper;
use reference_rules::order;
use roster_base::{NoMemory, Same, TryCopy, sorted};
use roster_texts::{Id, Moment};
use roster_types::row::Row;
use roster_types::set::RosterSet;
use roster_types::set_row::SetRow;
use roster_values::Kind;
use std::alloc::Global;
use version_changes::is_active;

// Whether two rows are the same in all that they say.
fn is_same(one: &Row, other: &Row) -> bool
    ensures { result ≡ same_row one.now other.now }
{
    one.is_same(other)
}

// Whether the earlier set tells a held row already: as it stands, and with its date.
fn is_as_before(earlier: Option<&SetRow>, held: &Row) -> bool
    ensures { result ≡ is_as_before (option_copied earlier.entry) held.now }
{
    match earlier {
        Some(listed) => listed.dated && is_same(&listed.row, held),
        None => false,
    }
}

// Adds a held row, where the earlier set doesn't tell it.
fn add_new(
    alloc: Global,
    earlier: &[EarlierRow<'_>],
    held: &Row,
    changes: &mut Vec<Row>,
) -> Result<(), NoMemory>
    requires { Ascends earlier_key earlier.now }
    ensures { OnOk result (changes.new.items ≡ changes.old.items ++ option_to_list (new_row earlier.now held.now)) }
{
    if is_as_before(earlier_at(earlier, held.kind(), held.id()), held) {
        return Ok(());
    }
    changes.push(held.copy(alloc)?)?;
    Ok(())
}

// Whether a row of this kind and id is among rows in order.
fn is_held(held: &[Row], kind: Kind, id: &Id) -> bool
    requires { Ascends row_key held.now }
    ensures { result ≡ is_some (look_up row_key (place_of_kind kind, id.now) held.now) }
{
    match held.binary_search_by(|row| order::compare(row.kind(), row.id(), kind, id)) {
        Ok(_) => true,
        Err(_) => false,
    }
}

// Adds an earlier row marked as deleted, where it is active and no longer held.
fn add_gone(
    alloc: Global,
    held: &[Row],
    earlier: &SetRow,
    at: Moment,
    changes: &mut Vec<Row>,
) -> Result<(), NoMemory>
    requires { Ascends row_key held.now }
    ensures { OnOk result (changes.new.items ≡ changes.old.items ++ option_to_list (gone_row at held.now earlier.now)) }
{
    let row = &earlier.row;
    if !is_active(row.status()) {
        return Ok(());
    }
    if is_held(held, row.kind(), row.id()) {
        return Ok(());
    }
    changes.push(row.copy(alloc)?.marked(at))?;
    Ok(())
}

// The held rows that the earlier set doesn't tell.
fn new_rows(alloc: Global, earlier: &[EarlierRow<'_>], held: &[Row]) -> Result<Vec<Row>, NoMemory>
    requires { Ascends earlier_key earlier.now }
    ensures { IfOk result (λ v. v.items ≡ each_told (new_row earlier.now) held.now) }
{
    let mut changes = Vec::new(alloc);
    for row in held {
        add_new(alloc, earlier, row, &mut changes)?;
    }
    Ok(changes)
}

// Adds the earlier rows that are active and no longer held, marked as deleted.
fn add_gone_rows(
    alloc: Global,
    earlier: &[EarlierRow<'_>],
    held: &[Row],
    at: Moment,
    changes: &mut Vec<Row>,
) -> Result<(), NoMemory>
    requires { Ascends row_key held.now }
    ensures { OnOk result (changes.new.items
        ≡ changes.old.items ++ each_told (λ listed. gone_row at held.now (set_row listed)) earlier.now) }
{
    for listed in earlier {
        add_gone(alloc, held, listed.listed, at, changes)?;
    }
    Ok(())
}

// What changed of the rows of a kind, in order of id: each held row that the earlier set lacks or has otherwise, and
// each active row of the earlier set that isn't held, marked as deleted.
fn changes(
    alloc: Global,
    kind: Kind,
    earlier: &[SetRow],
    held: &[Row],
    at: Moment,
) -> Result<Vec<Row>, NoMemory>
    requires held { IsList kind held.now }
    requires earlier { All (λ listed. listed.row.kind ≡ kind) earlier.now }
    ensures changes { IfOk result (λ v. AreChanges at earlier.now held.now v.items) }
    ensures list { IfOk result (λ v. IsList kind v.items) }
{
    let earlier = ordered(alloc, kind, earlier)?;
    let mut gathered = new_rows(alloc, earlier.as_slice(), held)?;
    add_gone_rows(alloc, earlier.as_slice(), held, at, &mut gathered)?;
    let changes = sorted(alloc, gathered)?;
    Ok(changes)
}

/// The file of what changed of the rows of a kind since an earlier set. Put over the rows of the earlier set, the
/// changes give the rows that the copy holds, and beside them only rows marked as deleted that the earlier set had. An
/// earlier row that brings no date counts as changed, whatever it says.
///
/// # Errors
///
/// As [`export_file`](crate::export_file) has them.
pub fn export_changes<C: CopyKeeper>(
    alloc: Global,
    copy: &mut C,
    earlier: &RosterSet,
    kind: Kind,
    at: Moment,
) -> Result<Vec<u8>, ExportError>
    ensures text { IfOk result
        (λ v. IsChangesExport at (rows_in kind earlier.now.parts) kind (C.stands_for copy.new) v.items) }
    ensures same { (c : Copy) → C.stands_for copy.new c → C.stands_for copy.old c }
    ensures leads { C.leads copy.old copy.new }
    ensures later { C.fault_count copy.old ≤ C.fault_count copy.new }
    ensures stood { OnOk result (C.fault_count copy.new ≡ C.fault_count copy.old) }
    ensures cause { IfErr result
        (λ e. CauseOf (C.stands_for copy.new) (Rose (C.fault_count copy.old) (C.fault_count copy.new))
        (λ c n. HasTooMany at (rows_in kind earlier.now.parts) kind c n) e) }
{
    let held = held_rows(alloc, copy, kind)?;
    let Ok(rows) = changes(alloc, kind, rows_in(earlier, kind), held.as_slice(), at) else {
        return Err(ExportError::NoMemory);
    };
    file_text(alloc, kind, rows.as_slice())
}
