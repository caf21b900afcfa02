//! The runs of an index of references.

ghost use Rattle.std.specs.Prelude.{◌≡◌, ◌+◌, ◌*◌, ◌<◌, ◌≤◌, true, false, OnOk, filter, length, map, vec_len};
ghost use Rattle.version_core.specs.History.{ArePasts, pasts_of};
ghost use Rattle.version_core.specs.RefIndex.{AreKept, Keeps, StayIndexed, is_kept, size};

use crate::history::History;
use crate::kept_refs::names_at;
use crate::ref_index::{RefEntry, RefRun, in_order, one_has_entry};
use crate::row_change::RowChange;
use crate::since::Since;
use roster_base::{NoMemory, TryCopy};
use roster_texts::Id;
use roster_types::row::Row;
use roster_values::ValueRef;
use roster_values::fields::fields;
use std::alloc::Global;

// What needs no entry any more: what the runs say, and what the row named that stood before under the same kind and id.
#[derive(Drop)]
struct Known<'a> {
    runs: &'a [RefRun],
    before: Option<&'a Row>,
}

impl<'a> Known<'a> {
    // Whether it is known that the row names the target in the field at a place.
    fn has(&self, row: &Row, place: u64, target: &Id) -> bool {
        if let Some(before) = self.before {
            if names_at(before, place, target) {
                return true;
            }
        }
        one_has_entry(self.runs, row.kind(), place, target, row.id())
    }
}

// Adds the entry by which a row names a target in the field at a place, unless that is known.
fn push_entry(
    alloc: Global,
    known: &Known<'_>,
    entries: &mut Vec<RefEntry>,
    row: &Row,
    place: u64,
    target: &Id,
) -> Result<(), NoMemory> {
    if known.has(row, place, target) {
        return Ok(());
    }
    entries.push(RefEntry {
        kind: row.kind(),
        place,
        target: target.copy(alloc)?,
        id: row.id().copy(alloc)?,
    })?;
    Ok(())
}

// Adds the entries of the field at a place of a row.
fn push_field(
    alloc: Global,
    known: &Known<'_>,
    entries: &mut Vec<RefEntry>,
    row: &Row,
    place: usize,
) -> Result<(), NoMemory> {
    if place >= fields(row.kind()).len() {
        return Ok(());
    }
    match row.value(place) {
        Some(ValueRef::Ref(target)) => {
            push_entry(alloc, known, entries, row, place as u64, target)
        }
        Some(ValueRef::Refs(targets)) => push_targets(
            alloc,
            known,
            entries,
            row,
            place as u64,
            targets.as_slice(),
        ),
        _ => Ok(()),
    }
}

// Adds the entries of the targets that the field at a place of a row lists.
fn push_targets(
    alloc: Global,
    known: &Known<'_>,
    entries: &mut Vec<RefEntry>,
    row: &Row,
    place: u64,
    targets: &[Id],
) -> Result<(), NoMemory> {
    for target in targets {
        push_entry(alloc, known, entries, row, place, target)?;
    }
    Ok(())
}

// Adds the entries of a row.
fn push_row(
    alloc: Global,
    known: &Known<'_>,
    entries: &mut Vec<RefEntry>,
    row: &Row,
) -> Result<(), NoMemory> {
    for place in 0..fields(row.kind()).len() {
        push_field(alloc, known, entries, row, place)?;
    }
    Ok(())
}

// What these rows name and no run has yet, in a run of its own.
fn run_of(alloc: Global, runs: &[RefRun], changes: &[RowChange]) -> Result<RefRun, NoMemory> {
    let mut entries = Vec::new(alloc);
    let known = Known { runs, before: None };
    for change in changes {
        push_row(alloc, &known, &mut entries, &change.row)?;
    }
    Ok(in_order(entries))
}

// Adds the entries of the rows of a history: a reference that a row has from the one before it gets one entry for both.
fn push_history(
    alloc: Global,
    entries: &mut Vec<RefEntry>,
    rows: &[Since<RowChange>],
) -> Result<(), NoMemory> {
    let mut known = Known {
        runs: &[],
        before: None,
    };
    for since in rows {
        push_row(alloc, &known, entries, &since.value.row)?;
        known.before = Some(&since.value.row);
    }
    Ok(())
}

/// What the rows of histories name, in one run.
pub fn runs_of(alloc: Global, histories: &[History]) -> Result<Vec<RefRun>, NoMemory> {
    let mut entries = Vec::new(alloc);
    for history in histories {
        push_history(alloc, &mut entries, history.rows())?;
    }
    let mut runs = Vec::new(alloc);
    runs.push(in_order(entries))?;
    Ok(runs)
}

// Puts the last two runs into one. Where memory is wanting they stay.
fn join_last(runs: &mut Vec<RefRun>) -> Result<(), NoMemory>
    requires { 2 ≤ vec_len runs.old }
    ensures keeps { Keeps runs.old.items runs.new.items }
    ensures len { OnOk result (vec_len runs.new + 1 ≡ vec_len runs.old) }
{
    let mut last = runs.take_last();
    let mut joined = runs.take_last();
    let taken = joined.take(&mut last);
    runs.push_reserved(joined);
    if taken.is_err() {
        runs.push_reserved(last);
    }
    taken
}

// Whether the last run has at least half as many entries as the one before.
fn is_long(runs: &[RefRun]) -> bool
    ensures { result ≡ true → 2 ≤ length runs.now }
{
    if runs.len() < 2 {
        return false;
    }
    let last = runs.len() - 1;
    runs[last - 1].entries().len() / 2 <= runs[last].entries().len()
}

// Puts runs into one while the last is long, so that their number is at most logarithmic in that of the entries.
fn join_long(runs: &mut Vec<RefRun>) -> Result<(), NoMemory>
    ensures { Keeps runs.old.items runs.new.items }
{
    while is_long(runs) {
        join_last(runs)?;
    }
    Ok(())
}

// Adds what these rows name. Where memory is wanting, what the runs say stays.
fn add_run(alloc: Global, runs: &mut Vec<RefRun>, changes: &[RowChange]) -> Result<(), NoMemory>
    ensures { Keeps runs.old.items runs.new.items }
{
    let run = run_of(alloc, runs, changes)?;
    if run.entries().is_empty() {
        return Ok(());
    }
    runs.push(run)?;
    join_long(runs)
}

/// Adds what these rows name, where there is an index. Where memory is wanting, what the runs say stays.
pub fn note(
    alloc: Global,
    runs: &mut Vec<RefRun>,
    is_indexed: bool,
    changes: &[RowChange],
) -> Result<(), NoMemory>
    ensures { Keeps runs.old.items runs.new.items }
{
    if !is_indexed {
        return Ok(());
    }
    add_run(alloc, runs, changes)
}

// Lets the entries go that no row of the versions from the oldest on says. No memory is taken.
fn keep_all(runs: &mut Vec<RefRun>, histories: &[History], oldest: u64)
    requires { ArePasts (pasts_of histories.now) }
    ensures { runs.new.items ≡ map (filter (is_kept oldest (pasts_of histories.now))) runs.old.items }
{
    for place in 0..runs.len() {
        runs[place].keep(histories, oldest);
    }
}

// Whether there are more entries than so many.
fn are_above(runs: &[RefRun], limit: usize) -> bool
    ensures above { result ≡ true → limit < size runs.now }
    ensures within { result ≡ false → size runs.now ≤ limit }
{
    let mut room = limit;
    for run in runs {
        let count = run.entries().len();
        if room < count {
            return true;
        }
        room -= count;
    }
    false
}

/// How many entries the runs may have before those that no row says are let go: twice as many as now, and a few more.
pub fn limit_of(runs: &[RefRun]) -> usize
    ensures { result ≤ 2 * size runs.now + 16 }
{
    let mut limit = 16usize;
    for run in runs {
        let count = run.entries().len();
        limit = limit.saturating_add(count).saturating_add(count);
    }
    limit
}

/// Where there are more entries than the limit, lets those go that no row of the versions from the oldest on says, and
/// answers the next limit. The limit is twice the number of entries that stay, so each look at an entry is paid by one
/// that was added since. No memory is taken.
pub fn sweep(runs: &mut Vec<RefRun>, limit: usize, histories: &[History], oldest: u64) -> usize
    requires { ArePasts (pasts_of histories.now) }
    ensures stay { StayIndexed oldest (pasts_of histories.now) runs.old.items runs.new.items }
    ensures kept { limit < size runs.old.items → AreKept oldest (pasts_of histories.now) runs.new.items }
    ensures limit { limit < size runs.old.items → result ≤ 2 * size runs.new.items + 16 }
    ensures same { size runs.old.items ≤ limit → result ≡ limit }
{
    if !are_above(runs, limit) {
        return limit;
    }
    keep_all(runs, histories, oldest);
    limit_of(runs)
}
