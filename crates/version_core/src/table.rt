//! The versions that are kept.

ghost use Rattle.std.specs.Prelude.{◌≡◌, ◌+◌, ◌-◌, ◌≤◌, ◌∷◌, [], Some, None, IfOk, OnOk, OnErr, map, slice_get};
ghost use Rattle.version_core.specs.Changes.{change_key, AreChanges};
ghost use Rattle.version_core.specs.Tables.{AreTables};
ghost use Rattle.version_core.specs.Version.{Versions, IsVersion, after, empty_version, newest_of, oldest_of};
ghost use Rattle.version_core.specs.Version.{versions_from, with_version};

use crate::change::Change;
use crate::hub_tables::HubTables;
use crate::span::Span;
use crate::version_log::VersionLog;
use crate::view::VersionView;
use roster_base::{NoMemory, TryCopy};
use std::alloc::Global;
use std::marker::Model;

/// The versions of a roster from the oldest that is kept to the newest. A clause sees the versions, how many are kept
/// beside the newest, and for which rows room is reserved.
#[derive(Drop)]
pub struct Table {
    // How many versions are kept beside the newest.
    keep: u64,
    log: VersionLog,
}

impl Model for Table {
    ghost use Rattle.version_core.specs.Version.{Versions};

    ghost Value = { Versions };

    ghost use Rattle.version_core.specs.Table.{versions_of, IsTable};

    ghost view = { versions_of };

    ghost invariant = { IsTable };
}

impl Table {
    /// The table of version 0 alone, which has no rows, no grants and the moment 0.
    pub fn new(alloc: Global, keep: u64) -> Table
        ensures { result ≡ record { keep = keep; versions = empty_version ∷ []; room = None } }
    {
        Table {
            keep,
            log: VersionLog::new(alloc),
        }
    }

    /// The table that a keeper's tables stand for.
    pub fn from_tables(alloc: Global, tables: &HubTables) -> Result<Table, NoMemory>
        requires { AreTables tables.now }
        ensures { IfOk result (λ t. t ≡ record { keep = tables.now.keep; versions = versions_from tables.now.base tables.now.changes; room = None }) }
    {
        let mut log = VersionLog::from_base(alloc, &tables.base)?;
        for change in tables.changes.as_slice() {
            log.reserve(change)?;
            log.push(change.copy(alloc)?);
        }
        Ok(Table {
            keep: tables.keep as u64,
            log,
        })
    }

    /// A table of the same versions, in which no room is reserved.
    pub fn copy(&self, alloc: Global) -> Result<Table, NoMemory>
        ensures { IfOk result (λ t. t ≡ record { keep = self.now.keep; versions = self.now.versions; room = None }) }
    {
        Ok(Table {
            keep: self.keep,
            log: self.log.copy(alloc)?,
        })
    }

    /// The number of the oldest version that is kept. No memory is taken.
    pub fn oldest(&self) -> u64
        ensures oldest { result ≡ (oldest_of self.now).number }
        ensures exact { result ≡ (newest_of self.now).number - self.now.keep }
    {
        self.log.oldest()
    }

    /// The number of the newest version.
    pub fn newest(&self) -> u64
        ensures { result ≡ (newest_of self.now).number }
    {
        self.log.newest()
    }

    /// A version that is kept. No memory is taken.
    pub fn rows_at(&self, version: u64) -> VersionView<'_>
        requires oldest { (oldest_of self.now).number ≤ version }
        requires newest { version ≤ (newest_of self.now).number }
        ensures at { slice_get self.now.versions (version - (oldest_of self.now).number) ≡ Some result }
        ensures version { IsVersion result }
        ensures number { result.number ≡ version }
    {
        self.log.rows_at(version)
    }

    /// Two versions that are kept, the second no older than the first. No memory is taken.
    pub fn span(&self, before: u64, after: u64) -> Span<'_>
        requires oldest { (oldest_of self.now).number ≤ before }
        requires order { before ≤ after }
        requires newest { after ≤ (newest_of self.now).number }
        ensures before { slice_get self.now.versions (before - (oldest_of self.now).number) ≡ Some result.before }
        ensures after { slice_get self.now.versions (after - (oldest_of self.now).number) ≡ Some result.after }
    {
        self.log.span(before, after)
    }

    /// The newest version. No memory is taken.
    pub fn newest_rows(&self) -> VersionView<'_>
        ensures newest { result ≡ newest_of self.now }
        ensures version { IsVersion (newest_of self.now) }
    {
        self.log.newest_rows()
    }

    /// Builds an index by which look-ups by reference find rows from now on, and which each further change keeps whole.
    /// No call needs it: without the index, or where memory for it is wanting, look-ups go through the rows of a kind.
    pub fn index(&mut self)
        ensures { self.new ≡ self.old }
    {
        self.log.index();
    }

    /// Makes room for this change, so that `add` takes no memory.
    pub fn reserve(&mut self, change: &Change) -> Result<(), NoMemory>
        ensures ok { OnOk result (self.new ≡ record self.old { room = Some (map change_key change.now.rows) }) }
        ensures err { OnErr result (self.new ≡ record self.old { room = None }) }
    {
        // The index is swept here and not in `add`, so that the entries of a change that was never added go too.
        self.log.sweep();
        self.log.reserve(change)
    }

    /// Adds the newest version, and lets the oldest go where more than `keep` stand beside the newest. No memory is
    /// taken.
    pub fn add(&mut self, change: Change)
        requires room { self.old.room ≡ Some (map change_key change.rows) }
        requires next { change.version ≡ (newest_of self.old).number + 1 }
        requires version { IsVersion (after (newest_of self.old) change) }
        requires changes { AreChanges change.rows }
        ensures { self.new ≡ with_version self.old (after (newest_of self.old) change) }
    {
        self.log.push(change);
        if self.log.later() > self.keep {
            self.log.retire();
        }
    }
}
