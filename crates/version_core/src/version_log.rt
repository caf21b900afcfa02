//! Versions, each the next of the one before, from their rows' histories.

ghost use Rattle.std.specs.Prelude.{◌≡◌, ◌+◌, ◌-◌, ◌<◌, ◌≤◌, ◌∷◌, ◌++◌, [], ℕ, Some, None, IfOk, OnOk, OnErr, drop};
ghost use Rattle.std.specs.Prelude.{length, map, slice_get, unwrap_or, vec_capacity, vec_len};
ghost use Rattle.std.specs.List.{AllByRecursion};
ghost use Rattle.version_core.specs.Changes.{change_key, AreChanges};
ghost use Rattle.version_core.specs.History.{AreHistoriesOf, pasts_of};
ghost use Rattle.version_core.specs.Since.{standing};
ghost use Rattle.version_core.specs.Version.{IsVersion, after, empty_version, first_or, last_or};

use crate::change::{BaseVersion, Change};
use crate::copies::copied;
use crate::grant_row::GrantRow;
use crate::histories::{put_rows, trim_share};
use crate::history::{FreshEntries, History};
use crate::ref_index::{RefRun, are_pasts_indexed, stay_indexed};
use crate::ref_runs::{limit_of, note, runs_of, sweep};
use crate::reserved::{RowKey, keys_of, make_room, reserve_fresh};
use crate::row_change::RowChange;
use crate::since::{Since, standing, trim};
use crate::span::Span;
use crate::view::VersionView;
use roster_base::{Items, NoMemory, TryCopy};
use roster_texts::Moment;
use std::alloc::Global;
use std::marker::Model;

/// Versions, each the next of the one before: the rows of each kind and id with the versions from which they stand. A
/// clause sees the versions, and for which rows room is reserved.
#[derive(Drop)]
pub struct VersionLog {
    alloc: Global,
    // The oldest version.
    number: u64,
    moment: Moment,
    // When each later version was published.
    moments: Vec<Moment>,
    grants: Vec<Since<Items<GrantRow>>>,
    histories: Vec<History>,
    // Where histories move while new ones are put before them: empty, and its room is what `reserve` made.
    spare: Vec<History>,
    // Room for the first entries of new histories.
    fresh: Vec<FreshEntries>,
    // The kinds and ids of the rows for which room is reserved, where any is.
    room: Option<Vec<RowKey>>,
    // What rows name, in runs whose number is at most logarithmic in that of the entries. Nothing is noted before
    // `index` is called.
    refs: Vec<RefRun>,
    // How many entries the runs may have before those that no row of the versions says are let go.
    limit: usize,
    // Whether `refs` has all that the rows of the versions name.
    is_indexed: bool,
    // At which history the next retirement begins to let rows go, and through how many it goes: twice as many as rows
    // changed since the last one, four times as many as rows went then, and some more, so that none is left behind for
    // long.
    swept: usize,
    share: usize,
}

impl Model for VersionLog {
    ghost use Rattle.version_core.specs.Version.{Log};

    ghost Value = { Log };

    ghost use Rattle.version_core.specs.VersionLog.{log_of, IsLog};

    ghost view = { log_of };

    ghost invariant = { IsLog };
}

impl VersionLog {
    /// Version 0 alone, which has no rows, no grants and the moment 0.
    pub fn new(alloc: Global) -> VersionLog
        ensures { result ≡ record { versions = empty_version ∷ []; room = None } }
    {
        VersionLog {
            alloc,
            number: 0,
            moment: Moment::epoch(),
            moments: Vec::new(alloc),
            grants: Vec::new(alloc),
            histories: Vec::new(alloc),
            spare: Vec::new(alloc),
            fresh: Vec::new(alloc),
            room: None,
            refs: Vec::new(alloc),
            limit: 0,
            is_indexed: false,
            swept: 0,
            share: 0,
        }
    }

    /// One version alone.
    pub fn from_base(alloc: Global, base: &BaseVersion) -> Result<VersionLog, NoMemory>
        requires { IsVersion base.now }
        ensures { IfOk result (λ log. log ≡ record { versions = base.now ∷ []; room = None }) }
    {
        let grants = first_grants(alloc, base)?;
        let histories = histories_of(alloc, base.number, base.rows.as_slice())?;
        Ok(VersionLog {
            alloc,
            number: base.number,
            moment: base.moment,
            moments: Vec::new(alloc),
            grants,
            histories,
            spare: Vec::new(alloc),
            fresh: Vec::new(alloc),
            room: None,
            refs: Vec::new(alloc),
            limit: 0,
            is_indexed: false,
            swept: 0,
            share: 0,
        })
    }

    /// A log of equal versions, in which no room is reserved and nothing is indexed.
    pub fn copy(&self, alloc: Global) -> Result<VersionLog, NoMemory>
        ensures { IfOk result (λ log. log ≡ record { versions = self.now.versions; room = None }) }
    {
        let moments = Vec::from_slice(alloc, self.moments.as_slice())?;
        let grants = copied(alloc, &self.grants)?;
        let histories = copied_histories(alloc, &self.histories)?;
        Ok(VersionLog {
            alloc,
            number: self.number,
            moment: self.moment,
            moments,
            grants,
            histories,
            spare: Vec::new(alloc),
            fresh: Vec::new(alloc),
            room: None,
            refs: Vec::new(alloc),
            limit: 0,
            is_indexed: false,
            swept: 0,
            share: 0,
        })
    }

    /// The number of the oldest version.
    pub fn oldest(&self) -> u64
        ensures { result ≡ (first_or empty_version self.now.versions).number }
    {
        self.number
    }

    /// The number of the newest version.
    pub fn newest(&self) -> u64
        ensures { result ≡ (last_or empty_version self.now.versions).number }
    {
        self.number + self.moments.len() as u64
    }

    /// How many versions follow the oldest.
    pub fn later(&self) -> u64
        ensures { result + 1 ≡ length self.now.versions }
    {
        self.moments.len() as u64
    }

    /// One of the versions.
    pub fn rows_at(&self, version: u64) -> VersionView<'_>
        requires oldest { (first_or empty_version self.now.versions).number ≤ version }
        requires newest { version ≤ (last_or empty_version self.now.versions).number }
        ensures at { slice_get self.now.versions (version - (first_or empty_version self.now.versions).number) ≡ Some result }
        ensures version { IsVersion result }
        ensures number { result.number ≡ version }
    {
        let moment = moment_at(self.moment, &self.moments, (version - self.number) as usize);
        let grants = grants_at(&self.grants, version);
        let newest = version == self.number + self.moments.len() as u64;
        VersionView {
            version,
            moment,
            newest,
            histories: &self.histories,
            grants,
            refs: &self.refs,
            is_indexed: self.is_indexed,
        }
    }

    /// The newest version.
    pub fn newest_rows(&self) -> VersionView<'_>
        ensures newest { result ≡ last_or empty_version self.now.versions }
        ensures version { IsVersion (last_or empty_version self.now.versions) }
    {
        // Read for the invariant.
        let _ = &self.number;
        self.rows_at(self.newest())
    }

    /// Two of the versions, the second no older than the first.
    pub fn span(&self, before: u64, after: u64) -> Span<'_>
        requires oldest { (first_or empty_version self.now.versions).number ≤ before }
        requires order { before ≤ after }
        requires newest { after ≤ (last_or empty_version self.now.versions).number }
        ensures before { slice_get self.now.versions (before - (first_or empty_version self.now.versions).number) ≡ Some result.before }
        ensures after { slice_get self.now.versions (after - (first_or empty_version self.now.versions).number) ≡ Some result.after }
    {
        Span {
            first: self.rows_at(before),
            last: self.rows_at(after),
            from: before,
            to: after,
            histories: &self.histories,
        }
    }

    /// Makes room for this change, so that `push` takes no memory.
    pub fn reserve(&mut self, change: &Change) -> Result<(), NoMemory>
        ensures ok { OnOk result (self.new ≡ record self.old { room = Some (map change_key change.now.rows) }) }
        ensures err { OnErr result (self.new ≡ record self.old { room = None }) }
    {
        self.room = None;
        let changes = change.rows.as_slice();
        let keys = keys_of(self.alloc, changes)?;
        note(self.alloc, &mut self.refs, self.is_indexed, changes)?;
        make_room(
            &mut self.moments,
            &mut self.grants,
            &mut self.histories,
            &mut self.spare,
            &mut self.fresh,
            changes,
        )?;
        self.room = Some(keys);
        Ok(())
    }

    /// Builds an index of what the rows of the versions name, where there is none. Where memory is wanting there is
    /// still none, and look-ups by reference go through the rows.
    pub fn index(&mut self)
        ensures { self.new ≡ self.old }
    {
        if self.is_indexed {
            return;
        }
        let Ok(refs) = runs_of(self.alloc, &self.histories) else {
            return;
        };
        self.is_indexed = are_pasts_indexed(&refs, &self.histories);
        self.limit = limit_of(&refs);
        self.refs = refs;
    }

    /// Lets the entries of the index go that no row of the versions says, where they may be as many as the others. No
    /// memory is taken.
    pub fn sweep(&mut self)
        ensures { self.new ≡ self.old }
    {
        self.limit = sweep(&mut self.refs, self.limit, &self.histories, self.number);
    }

    /// Adds the newest version. No memory is taken.
    pub fn push(&mut self, change: Change)
        requires room { self.old.room ≡ Some (map change_key change.rows) }
        requires next { change.version ≡ (last_or empty_version self.old.versions).number + 1 }
        requires version { IsVersion (after (last_or empty_version self.old.versions) change) }
        requires changes { AreChanges change.rows }
        ensures { self.new ≡ record { versions = self.old.versions ++ after (last_or empty_version self.old.versions) change ∷ []; room = None } }
    {
        self.room = None;
        let Change {
            version,
            moment,
            rows,
            grants,
        } = change;
        self.is_indexed = stay_indexed(self.is_indexed, &self.refs, rows.as_slice());
        self.share = share_after(self.share, rows.as_slice().len());
        put_rows(
            &mut self.histories,
            &mut self.spare,
            &mut self.fresh,
            version,
            rows.into_vec(),
        );
        put_grants(&mut self.grants, version, grants);
        self.moments.push_reserved(moment);
    }

    /// Lets the oldest version go, with the grants that stand in no later one, and rows that stand in none. These go
    /// bit by bit, so that a retirement takes no longer than the changes before it. No memory is taken.
    pub fn retire(&mut self)
        requires { 2 ≤ length self.old.versions }
        ensures { self.new ≡ record { versions = drop 1 self.old.versions; room = None } }
    {
        self.room = None;
        self.moment = self.moments.remove(0);
        self.number += 1;
        trim(&mut self.grants, self.number);
        let swept = trim_share(&mut self.histories, self.swept, self.share, self.number);
        self.swept = swept.end;
        // Where many went, more wait.
        self.share = swept.gone.saturating_mul(FOR_EACH_GONE);
    }
}

// How many histories a retirement goes through besides, however few rows changed.
const LEAST_SHARE: usize = 8;

// Through how many histories the next retirement goes for each row that went in the last one.
const FOR_EACH_GONE: usize = 4;

// Through how many histories the next retirement goes, once so many rows more have changed.
fn share_after(share: usize, changed: usize) -> usize {
    share
        .saturating_add(changed)
        .saturating_add(changed)
        .saturating_add(LEAST_SHARE)
}

// The moment of a version, which stands at this place behind the oldest.
fn moment_at(moment: Moment, moments: &[Moment], place: usize) -> Moment
    requires { place ≤ length moments.now }
    ensures { slice_get (moment ∷ moments.now) place ≡ Some result }
{
    if place == 0 {
        return moment;
    }
    moments[place - 1]
}

// The grants of a version.
fn grants_at<'a>(grants: &'a [Since<Items<GrantRow>>], version: u64) -> &'a [GrantRow]
    ensures { result.now ≡ unwrap_or (standing version grants.now) [] }
{
    match standing(grants, version) {
        Some(grants) => grants.as_slice(),
        None => &[],
    }
}

// The grants of the base, as they stand from its version on.
fn first_grants(alloc: Global, base: &BaseVersion) -> Result<Vec<Since<Items<GrantRow>>>, NoMemory>
    ensures { IfOk result (λ grants. grants.items ≡ record { version = base.now.number; value = base.now.grants } ∷ []) }
{
    let mut grants = Vec::new(alloc);
    grants.push(Since {
        version: base.number,
        value: base.grants.copy(alloc)?,
    })?;
    Ok(grants)
}

// Adds the grants of a change, where it has any: they stand from its version on. No memory is taken.
fn put_grants(
    grants: &mut Vec<Since<Items<GrantRow>>>,
    version: u64,
    change: Option<Items<GrantRow>>,
)
    requires { vec_len grants.old < vec_capacity grants.old }
    ensures now { unwrap_or (standing version grants.new.items) [] ≡ unwrap_or change (unwrap_or (standing version grants.old.items) []) }
    ensures earlier { (v : ℕ) → v < version → standing v grants.new.items ≡ standing v grants.old.items }
    ensures up_to { AllByRecursion (λ entry. entry.version ≤ version) grants.old.items → AllByRecursion (λ entry. entry.version ≤ version) grants.new.items }
{
    if let Some(value) = change {
        grants.push_reserved(Since { version, value });
    }
}

// A history of each row, which stands from a version on.
fn histories_of(
    alloc: Global,
    version: u64,
    changes: &[RowChange],
) -> Result<Vec<History>, NoMemory>
    requires { AreChanges changes.now }
    ensures { IfOk result (λ histories. AreHistoriesOf version changes.now histories.items) }
{
    let mut histories = Vec::with_capacity(alloc, changes.len())?;
    let mut spare = Vec::with_capacity(alloc, changes.len())?;
    let mut fresh = Vec::new(alloc);
    reserve_fresh(alloc, &mut fresh, changes.len())?;
    let rows = copied(alloc, changes)?;
    put_rows(&mut histories, &mut spare, &mut fresh, version, rows);
    Ok(histories)
}

// Histories of equal rows.
fn copied_histories(alloc: Global, histories: &[History]) -> Result<Vec<History>, NoMemory>
    ensures { IfOk result (λ copies. pasts_of copies.items ≡ pasts_of histories.now) }
{
    let mut copies = Vec::with_capacity(alloc, histories.len())?;
    for history in histories {
        copies.push(history.copy(alloc)?)?;
    }
    Ok(copies)
}
