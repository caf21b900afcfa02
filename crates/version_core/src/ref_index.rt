//! An index of references.

ghost use Rattle.std.specs.Prelude.{◌&&◌, ◌≡◌, ◌∷◌, [], List, OnOk, filter, length, option_copied, true, ℕ};
ghost use Rattle.roster_types.specs.Keys.{is_after, look_up, row_key};
ghost use Rattle.roster_values.specs.Kinds.{place_of_kind};
ghost use Rattle.version_core.specs.History.{ArePasts, pasts_of, rows_at};
ghost use Rattle.version_core.specs.Changes.{rows_of};
ghost use Rattle.version_core.specs.References.{is_one_of, names, next_referring, refers};
ghost use Rattle.std.specs.List.{AllWithin, list_any};
ghost use Rattle.version_core.specs.RefIndex.{Keeps};
ghost use Rattle.version_core.specs.RefIndex as spec;

use crate::histories::found;
use crate::history::History;
use crate::kept_refs::is_kept;
use crate::references::names;
use crate::row_change::RowChange;
use crate::since::Since;
use roster_base::NoMemory;
use roster_texts::Id;
use roster_types::row::{Row, place_of};
use roster_values::fields::fields;
use roster_values::{Kind, ValueRef};
use std::cmp::Ordering;
use std::marker::Model;

/// An entry of the index: it says that the row of a kind and an id names another id in one of its fields.
#[derive(Drop)]
pub struct RefEntry {
    /// The kind of the row that names the target.
    pub kind: Kind,
    /// The place of the field in the field table.
    pub place: u64,
    /// The id that the field names.
    pub target: Id,
    /// The id of the row itself.
    pub id: Id,
}

impl RefEntry {
    // How the kind, the field and the target stand to others, in this order.
    fn compare_named(&self, kind: Kind, place: u64, target: &Id) -> Ordering
        ensures { result ≡ spec.named_cmp (spec.named_by self.now) (place_of_kind kind, place, target.now) }
    {
        let kinds = self.kind.place().cmp(&kind.place());
        let fields = kinds.then(self.place.cmp(&place));
        fields.then(self.target.as_str().cmp(target.as_str()))
    }

    // How the entry stands to that by which the row of this id names the target: first by what they name, then by the
    // ids.
    #[tactic(auto, unfolding(crate::specs::RefIndex::naming_cmp))]
    fn compare(&self, kind: Kind, place: u64, target: &Id, id: &Id) -> Ordering
        ensures { result ≡ spec.naming_cmp (spec.naming_of self.now) ((place_of_kind kind, place, target.now), id.now) }
    {
        self.compare_named(kind, place, target)
            .then(self.id.as_str().cmp(id.as_str()))
    }

    // Whether the entry says that the field at a place names the target.
    #[tactic(auto, unfolding(crate::specs::RefIndex::is_of))]
    fn is_of(&self, kind: Kind, place: u64, target: &Id) -> bool
        ensures { result ≡ spec.is_of (place_of_kind kind, place, target.now) self.now }
    {
        self.compare_named(kind, place, target).is_eq()
    }

    // Whether the entry stands with those that say that the field at a place names the target, above the id `after`, or
    // behind them all.
    #[tactic(auto, unfolding(crate::specs::RefIndex::is_from, crate::specs::RefIndex::naming_cmp))]
    fn is_from(&self, kind: Kind, place: u64, target: &Id, after: Option<&Id>) -> bool
        ensures { result ≡ spec.is_from (place_of_kind kind, place, target.now) (option_copied after.entry) self.now }
    {
        let named = self.compare_named(kind, place, target);
        match after {
            None => !named.then(self.id.as_str().cmp("")).is_lt(),
            Some(after) => named.then(self.id.as_str().cmp(after.as_str())).is_gt(),
        }
    }
}

// The row of this kind and id, where its field names the target.
fn naming_at<'a>(
    histories: &'a [History],
    version: u64,
    kind: Kind,
    name: &str,
    target: &Id,
    id: &Id,
) -> Option<&'a Row>
    requires { ArePasts (pasts_of histories.now) }
    ensures { option_copied result ≡ spec.passing (names name.now target.now) (look_up row_key (place_of_kind kind, id.now) (rows_of (rows_at version (pasts_of histories.now)))) }
{
    let Some(change) = found(histories, version, kind, id) else {
        return None;
    };
    if names(&change.row, name, target) {
        Some(&change.row)
    } else {
        None
    }
}

/// The rows that are asked for: those of a kind whose field of this name names the target.
#[derive(Clone, Copy)]
pub struct Naming<'n, 't> {
    pub kind: Kind,
    pub name: &'n str,
    pub target: &'t Id,
}

// The row with the least id above `after` whose field names the target, among the rows that the entries name for it.
fn first_naming<'a>(
    histories: &'a [History],
    version: u64,
    entries: &[RefEntry],
    place: u64,
    asked: &Naming<'_, '_>,
    after: Option<&Id>,
) -> Option<&'a Row>
    requires pasts { ArePasts (pasts_of histories.now) }
    requires order { spec.AreInOrder entries.now }
    ensures { spec.FirstOf (λ row. refers asked.now.kind asked.now.name.now asked.now.target.now row && is_after (option_copied after.entry) row.id) (rows_of (rows_at version (pasts_of histories.now))) (place_of_kind asked.now.kind, place, asked.now.target.now) (spec.AllOf entries.now) (option_copied result) }
{
    let Naming { kind, name, target } = *asked;
    let mut at = entries.partition_point(|entry| !entry.is_from(kind, place, target, after));
    while at < entries.len() {
        let entry = &entries[at];
        if !entry.is_of(kind, place, target) {
            return None;
        }
        if let Some(row) = naming_at(histories, version, kind, name, target, &entry.id) {
            return Some(row);
        }
        at += 1;
    }
    None
}

/// Entries in order. A clause sees the list.
#[derive(Drop)]
pub struct RefRun {
    entries: Vec<RefEntry>,
}

impl Model for RefRun {
    ghost use Rattle.std.specs.Prelude.{List};
    ghost use Rattle.version_core.specs.RefIndex.{AreInOrder};
    ghost use Rattle.version_core.specs.declared.ref_index.RefEntry.{RefEntry as Entry};

    ghost Value = { List Entry };

    ghost view = { λ run. run.entries.items };

    ghost invariant = { λ run. AreInOrder run.entries.items };
}

impl RefRun {
    /// The entries in order.
    pub fn entries(&self) -> &[RefEntry]
        ensures entries { result.now ≡ self.now }
        ensures order { spec.AreInOrder self.now }
    {
        &self.entries
    }
}

// Of two rows the one with the lesser id.
fn lesser<'a>(one: Option<&'a Row>, other: Option<&'a Row>) -> Option<&'a Row>
    ensures { option_copied result ≡ spec.lesser (option_copied one.entry) (option_copied other.entry) }
{
    match (one, other) {
        (None, other) => other,
        (Some(one), None) => Some(one),
        (Some(one), Some(other)) => {
            if other.id().as_str().cmp(one.id().as_str()).is_lt() {
                Some(other)
            } else {
                Some(one)
            }
        }
    }
}

// The row with the least id above `after` whose field names the target, among the rows that the entries of all runs
// name for it.
fn first_of_runs<'a>(
    histories: &'a [History],
    version: u64,
    runs: &[RefRun],
    place: u64,
    asked: &Naming<'_, '_>,
    after: Option<&Id>,
) -> Option<&'a Row>
    requires { ArePasts (pasts_of histories.now) }
    ensures { spec.FirstOf (λ row. refers asked.now.kind asked.now.name.now asked.now.target.now row && is_after (option_copied after.entry) row.id) (rows_of (rows_at version (pasts_of histories.now))) (place_of_kind asked.now.kind, place, asked.now.target.now) (spec.AllUpTo runs.now (length runs.now)) (option_copied result) }
{
    let mut first = None;
    for run in runs {
        let next = first_naming(histories, version, run.entries(), place, asked, after);
        first = lesser(first, next);
    }
    first
}

/// What `Refs::referring` answers of the rows at a version, found by an index of what they name.
pub fn indexed<'a>(
    histories: &'a [History],
    version: u64,
    runs: &[RefRun],
    asked: &Naming<'_, '_>,
    after: Option<&Id>,
) -> Option<&'a Row>
    requires pasts { ArePasts (pasts_of histories.now) }
    requires indexed { spec.AreIndexed runs.now (rows_of (rows_at version (pasts_of histories.now))) }
    ensures { option_copied result ≡ next_referring asked.now.kind asked.now.name.now asked.now.target.now (option_copied after.entry) (rows_of (rows_at version (pasts_of histories.now))) }
{
    let Some(place) = place_of(asked.kind, asked.name) else {
        return None;
    };
    first_of_runs(histories, version, runs, place as u64, asked, after)
}

impl RefRun {
    // Whether an entry says that the row of this id names the target in the field at the place.
    fn has_entry(&self, kind: Kind, place: u64, target: &Id, id: &Id) -> bool
        ensures { result ≡ true → list_any (spec.is_entry_of (place_of_kind kind, place, target.now) id.now) self.now ≡ true }
    {
        match self
            .entries()
            .binary_search_by(|entry| entry.compare(kind, place, target, id))
        {
            Ok(_at) => true,
            Err(_) => false,
        }
    }
}

/// Whether an entry of one of the runs says that the row of this id names the target in the field at the place.
pub fn one_has_entry(runs: &[RefRun], kind: Kind, place: u64, target: &Id, id: &Id) -> bool
    ensures { result ≡ true → list_any (list_any (spec.is_entry_of (place_of_kind kind, place, target.now) id.now)) runs.now ≡ true }
{
    for run in runs {
        if run.has_entry(kind, place, target, id) {
            return true;
        }
    }
    false
}

// Whether entries of the runs say that the row of this id names each of these targets in the field at the place.
fn all_have_entries(runs: &[RefRun], kind: Kind, place: u64, targets: &[Id], id: &Id) -> bool
    ensures { result ≡ true → (target : List ℕ) → is_one_of targets.now target ≡ true → list_any (list_any (spec.is_entry_of (place_of_kind kind, place, target) id.now)) runs.now ≡ true }
{
    for target in targets {
        if !one_has_entry(runs, kind, place, target, id) {
            return false;
        }
    }
    true
}

// Whether entries say all that the field of this name names in a row.
fn is_name_indexed(runs: &[RefRun], row: &Row, name: &str) -> bool
    ensures { result ≡ true → spec.IsNameIndexed runs.now row.now name.now }
{
    let Some(place) = place_of(row.kind(), name) else {
        return true;
    };
    match row.named(name) {
        Some(ValueRef::Ref(target)) => one_has_entry(
            runs,
            row.kind(),
            place as u64,
            target,
            row.id(),
        ),
        Some(ValueRef::Refs(targets)) => {
            all_have_entries(runs, row.kind(), place as u64, targets.as_slice(), row.id())
        }
        _ => true,
    }
}

// Whether entries say all that a row names.
fn is_row_indexed(runs: &[RefRun], row: &Row) -> bool
    ensures { result ≡ true → spec.IsIndexed runs.now row.now }
{
    let infos = fields(row.kind());
    for info in infos {
        if !is_name_indexed(runs, row, info.name) {
            return false;
        }
    }
    true
}

// Whether entries say all that these rows name.
fn are_rows_indexed(runs: &[RefRun], changes: &[RowChange]) -> bool
    ensures { result ≡ true → AllWithin (λ change. spec.IsIndexed runs.now change.row) changes.now 0 (length changes.now) }
{
    for change in changes {
        if !is_row_indexed(runs, &change.row) {
            return false;
        }
    }
    true
}

// Whether entries say all that the rows of a history name.
fn is_past_indexed(runs: &[RefRun], rows: &[Since<RowChange>]) -> bool
    ensures { result ≡ true → AllWithin (λ entry. spec.IsIndexed runs.now entry.value.row) rows.now 0 (length rows.now) }
{
    for since in rows {
        if !is_row_indexed(runs, &since.value.row) {
            return false;
        }
    }
    true
}

/// Whether entries say all that the rows of histories name.
pub fn are_pasts_indexed(runs: &[RefRun], histories: &[History]) -> bool
    ensures { result ≡ true → spec.ArePastsIndexed runs.now histories.now }
{
    for history in histories {
        if !is_past_indexed(runs, history.rows()) {
            return false;
        }
    }
    true
}

/// Whether entries said all `before`, and say all that these rows name too.
pub fn stay_indexed(before: bool, runs: &[RefRun], changes: &[RowChange]) -> bool
    ensures before { result ≡ true → before ≡ true }
    ensures now { result ≡ true → AllWithin (λ change. spec.IsIndexed runs.now change.row) changes.now 0 (length changes.now) }
{
    before && are_rows_indexed(runs, changes)
}

// How two entries stand to each other: first by what they name, then by the ids of their rows.
fn compare_entries(one: &RefEntry, other: &RefEntry) -> Ordering
    ensures { result ≡ spec.naming_cmp (spec.naming_of one.now) (spec.naming_of other.now) }
{
    one.compare(other.kind, other.place, &other.target, &other.id)
}

/// These entries, put in order.
pub fn in_order(mut entries: Vec<RefEntry>) -> RefRun {
    entries.sort_unstable_by(compare_entries);
    RefRun { entries }
}

impl RefRun {
    /// Takes the entries of another run, which is empty then. Where memory is wanting both stay.
    pub fn take(&mut self, other: &mut RefRun) -> Result<(), NoMemory>
        ensures keeps { Keeps (self.old ∷ other.old ∷ []) (self.new ∷ other.new ∷ []) }
        ensures none { OnOk result (other.new ≡ []) }
    {
        self.entries.append(&mut other.entries)?;
        self.entries.sort_unstable_by(compare_entries);
        Ok(())
    }

    /// Lets the entries go that no row of the versions from the oldest on says. No memory is taken.
    pub fn keep(&mut self, histories: &[History], oldest: u64)
        requires { ArePasts (pasts_of histories.now) }
        ensures { self.new ≡ filter (spec.is_kept oldest (pasts_of histories.now)) self.old }
    {
        self.entries
            .retain(|entry| is_kept(histories, oldest, entry));
    }
}
