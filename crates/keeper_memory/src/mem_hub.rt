//! A keeper of a hub's state in memory.

ghost use Rattle.std.specs.Prelude.{◌≡◌, ◌↔◌, ◌∷◌, ◌||◌, [], Err, IfOk, IsErr, IsTrue, OnErr, OnOk, false};
ghost use Rattle.roster_base.specs.Faults.{CountsFailure};
ghost use Rattle.roster_base.specs.declared.keeper.KeeperError.TheVariants as keeper;
ghost use Rattle.version_core.specs.Tables.{AreTables};
ghost use Rattle.version_core.specs.Version.{empty_version};
ghost use Rattle.keeper_memory.specs.Commits.{CanCommit, Commits, with_commit};
ghost use Rattle.keeper_memory.specs.Calls.{CallsLead, calls_on, calls_stay};
ghost use Rattle.keeper_memory.specs.Failures.{KeepsPlan, after_read, fails_after, fails_before, planned, read_fails};
ghost use Rattle.keeper_memory.specs.Failures.{with_listed};
ghost use Rattle.keeper_memory.specs.Kept.{KeptState, kept_by};

use crate::failures::Failures;
use crate::hub_commit::{HubCommit, add_mark, copied};
use crate::hub_keeper::HubKeeper;
use crate::mem_versions::MemVersions;
use roster_base::{KeeperError, NoMemory};
use std::alloc::Global;
use std::marker::Model;
use version_core::hub_tables::HubTables;
use version_core::marks::Marks;

// A hub's state in memory. A clause sees what is kept.
#[derive(Drop)]
struct MemTables {
    versions: MemVersions,
    marks: Marks,
}

impl Model for MemTables {
    ghost use Rattle.keeper_memory.specs.Kept.{KeptState, newest_kept};
    ghost use Rattle.version_core.specs.Marks.{AreMarks};

    ghost Value = { KeptState };

    ghost view = { λ t. record { keep = t.versions.keep; versions = t.versions.versions; marks = t.marks.marks } };

    ghost invariant = { λ t. AreMarks (newest_kept t.versions.versions).number t.marks.marks };
}

impl MemTables {
    // Version 0 alone, and no marks.
    fn new(alloc: Global, keep: u32) -> MemTables
        ensures { result ≡ record { keep = keep; versions = empty_version ∷ []; marks = [] } }
    {
        MemTables {
            versions: MemVersions::new(alloc, keep),
            marks: Marks::new(alloc),
        }
    }

    // What the tables stand for.
    fn holding(alloc: Global, tables: HubTables) -> Result<MemTables, NoMemory>
        requires { AreTables tables }
        ensures { IfOk result (λ t. t ≡ kept_by tables) }
    {
        let marks = Marks::from_tables(alloc, &tables)?;
        let HubTables {
            keep,
            base,
            changes,
            marks: _,
        } = tables;
        Ok(MemTables {
            versions: MemVersions::holding(keep, base, changes.into_vec()),
            marks,
        })
    }

    // Tables that stand for what is kept.
    fn load(&self, alloc: Global) -> Result<HubTables, NoMemory>
        ensures value { IfOk result (λ t. kept_by t ≡ self.now) }
        ensures tables { IfOk result AreTables }
    {
        self.versions.tables(alloc, self.marks.as_slice())
    }

    // Adds the change and the mark of a commit, or neither where memory runs out.
    fn commit(&mut self, alloc: Global, commit: &HubCommit) -> Result<(), NoMemory>
        requires { CanCommit self.old commit.now }
        ensures ok { OnOk result (self.new ≡ with_commit self.old commit.now) }
        ensures err { OnErr result (self.new ≡ self.old) }
    {
        let mark = copied(alloc, &commit.mark)?;
        self.marks.reserve()?;
        self.versions.add_some(alloc, &commit.change)?;
        add_mark(&mut self.marks, mark);
        Ok(())
    }
}

/// A hub's state in memory, which it tells, and the calls that are to fail.
#[derive(Drop)]
pub struct MemHub {
    tables: MemTables,
    failures: Failures,
}

impl Model for MemHub {
    ghost use Rattle.keeper_memory.specs.HeldKeeper.{HeldKeeper};

    ghost Value = { HeldKeeper };

    ghost view = { λ h. record { kept = h.tables; plan = h.failures } };
}

impl MemHub {
    /// A keeper of version 0 alone, which keeps so many versions beside the newest.
    pub fn new(alloc: Global, keep: u32) -> MemHub
        ensures kept { result.kept ≡ record { keep = keep; versions = empty_version ∷ []; marks = [] } }
        ensures plan { result.plan ≡ planned [] [] [] }
    {
        MemHub {
            tables: MemTables::new(alloc, keep),
            failures: Failures::new(Vec::new(alloc), Vec::new(alloc), Vec::new(alloc)),
        }
    }

    /// A keeper that holds these tables.
    pub fn holding(alloc: Global, tables: HubTables) -> Result<MemHub, NoMemory>
        requires { AreTables tables }
        ensures kept { IfOk result (λ hub. hub.kept ≡ kept_by tables) }
        ensures plan { IfOk result (λ hub. hub.plan ≡ planned [] [] []) }
    {
        Ok(MemHub {
            tables: MemTables::holding(alloc, tables)?,
            failures: Failures::new(Vec::new(alloc), Vec::new(alloc), Vec::new(alloc)),
        })
    }

    /// The same keeper, of which these calls fail: the commits of these numbers, from 1 on, before and after they have
    /// acted, and the loads of these.
    pub fn with_failures(self, before: Vec<u64>, after: Vec<u64>, reads: Vec<u64>) -> MemHub
        ensures kept { result.kept ≡ self.kept }
        ensures plan { result.plan ≡ planned before.items after.items reads.items }
    {
        let MemHub {
            tables,
            failures: _,
        } = self;
        MemHub {
            tables,
            failures: Failures::new(before, after, reads),
        }
    }

    /// Lists one commit more, by its number from 1, that fails behind what it does, or before that.
    pub fn list_commit(&mut self, acted: bool, commit: u64) -> Result<(), NoMemory>
        ensures kept { self.new.kept ≡ self.old.kept }
        ensures ok { OnOk result (self.new.plan ≡ with_listed acted commit self.old.plan) }
        ensures err { OnErr result (self.new ≡ self.old) }
    {
        self.failures.list_commit(acted, commit)
    }
}

impl HubKeeper for MemHub {
    ghost stands_for = { λ hub kept. kept ≡ hub.kept };

    ghost fault_count = { λ hub. hub.plan.faults };

    ghost leads = { λ old new. CallsLead old.plan new.plan };

    ghost stays = { λ keeper. calls_stay keeper.plan };

    ghost leads_on = { λ one two three. calls_on one.plan two.plan three.plan };

    #[tactic(auto, using(crate::proofs::CallLemmas::read_leads))]
    fn load(&mut self, alloc: Global) -> Result<HubTables, KeeperError>
        ensures shown { IfOk result (λ tables. (kept : KeptState) → kept ≡ self.new.kept → kept ≡ kept_by tables) }
        ensures tables { IfOk result AreTables }
        ensures same { (kept : KeptState) → kept ≡ self.new.kept → kept ≡ self.old.kept }
        ensures leads { CallsLead self.old.plan self.new.plan }
        ensures cause { CountsFailure self.old.plan.faults self.new.plan.faults result }
        // It fails exactly where it is listed.
        ensures exact { IsTrue (read_fails self.old.plan) ↔ (result ≡ Err keeper.Failed) }
        ensures plan { self.new.plan ≡ after_read self.old.plan }
    {
        self.failures.read()?;
        Ok(self.tables.load(alloc)?)
    }

    #[tactic(auto, using(crate::proofs::CallLemmas::begun_leads, crate::proofs::CallLemmas::ended_leads))]
    fn commit(&mut self, alloc: Global, commit: &HubCommit) -> Result<(), KeeperError>
        requires { (kept : KeptState) → kept ≡ self.old.kept → CanCommit kept commit.now }
        ensures told { (after : KeptState) → after ≡ self.new.kept → (before : KeptState) × (before ≡ self.old.kept) × Commits commit.now result before after }
        ensures leads { CallsLead self.old.plan self.new.plan }
        ensures cause { CountsFailure self.old.plan.faults self.new.plan.faults result }
        // It fails exactly where it is listed, and is made exactly where it isn't listed to fail before.
        ensures before { IsTrue (fails_before self.old.plan) → (result ≡ Err keeper.Failed) × (self.new.kept ≡ self.old.kept) }
        ensures after { IsTrue (fails_after self.old.plan) → IsErr result }
        ensures exact { result ≡ Err keeper.Failed → IsTrue (fails_before self.old.plan || fails_after self.old.plan) }
        ensures made { result ≡ Err keeper.Failed → fails_before self.old.plan ≡ false → self.new.kept ≡ with_commit self.old.kept commit.now }
        ensures plan { KeepsPlan self.old.plan self.new.plan }
    {
        self.failures.begin_commit()?;
        self.tables.commit(alloc, commit)?;
        self.failures.end_commit()
    }

    fn faults(&self) -> u64 {
        self.failures.faults()
    }
}
