//! A keeper of a copy in memory.

ghost use Rattle.std.specs.Prelude.{◌≡◌, ◌≢◌, ◌≤◌, ◌↔◌, ◌||◌, [], Err, IfOk, IfSome, IsErr, IsTrue, OnErr, OnOk, false};
ghost use Rattle.roster_base.specs.Faults.{CountsFailure};
ghost use Rattle.roster_base.specs.declared.keeper.KeeperError.TheVariants as keeper;
ghost use Rattle.keeper_memory.specs.copy.Changes.{CanChange, Commits, IsQuick, copy_after};
ghost use Rattle.keeper_memory.specs.copy.Copies.{Copy, IsCopy, entry_after, held_list};
ghost use Rattle.keeper_memory.specs.Calls.{CallsLead, calls_on, calls_stay};
ghost use Rattle.keeper_memory.specs.Failures.{KeepsPlan, after_read, fails_after, fails_before, planned, read_fails};
ghost use Rattle.keeper_memory.specs.Failures.{with_listed};
ghost use Rattle.keeper_memory.specs.copy.HeldCopy.{empty_copy};
ghost use Rattle.keeper_memory.specs.copy.Tables.{AreCopyTables, copy_in};
ghost use Rattle.keeper_memory.specs.copy.States.{CanBe, CanBeEntry, CanBeList, Shows};

use crate::copy::change::CopyChange;
use crate::copy::entry::OutEntry;
use crate::copy::keeper::CopyKeeper;
use crate::copy::mem_tables::MemCopyTables;
use crate::copy::state::CopyState;
use crate::copy::tables::CopyTables;
use crate::failures::Failures;
use roster_base::{Items, KeeperError, NoMemory};
use roster_types::row::Row;
use roster_values::Kind;
use std::alloc::Global;
use std::marker::Model;

/// A copy in memory, which it tells, and the calls that are to fail.
#[derive(Drop)]
pub struct MemCopy {
    tables: MemCopyTables,
    failures: Failures,
}

impl Model for MemCopy {
    ghost use Rattle.keeper_memory.specs.copy.HeldCopy.{HeldCopy};

    ghost Value = { HeldCopy };

    ghost use Rattle.keeper_memory.specs.copy.Copies.{IsCopy};

    ghost view = { λ c. record { copy = c.tables; plan = c.failures } };

    ghost invariant = { λ c. IsCopy c.tables };
}

impl MemCopy {
    /// A copy that holds nothing.
    pub fn new(alloc: Global) -> MemCopy
        ensures copy { result.copy ≡ empty_copy }
        ensures plan { result.plan ≡ planned [] [] [] }
    {
        MemCopy {
            tables: MemCopyTables::new(alloc),
            failures: Failures::new(Vec::new(alloc), Vec::new(alloc), Vec::new(alloc)),
        }
    }

    /// The copy of these tables; no memory is taken.
    pub fn holding(alloc: Global, tables: CopyTables) -> MemCopy
        requires { AreCopyTables tables }
        ensures copy { result.copy ≡ copy_in tables }
        ensures plan { result.plan ≡ planned [] [] [] }
    {
        MemCopy {
            tables: MemCopyTables::holding(alloc, tables),
            failures: Failures::new(Vec::new(alloc), Vec::new(alloc), Vec::new(alloc)),
        }
    }

    /// The same copy, of which these calls fail: the commits of these numbers, from 1 on, before and after they have
    /// acted, and the reads of these.
    pub fn with_failures(self, before: Vec<u64>, after: Vec<u64>, reads: Vec<u64>) -> MemCopy
        ensures copy { result.copy ≡ self.copy }
        ensures plan { result.plan ≡ planned before.items after.items reads.items }
    {
        let MemCopy {
            tables,
            failures: _,
        } = self;
        MemCopy {
            tables,
            failures: Failures::new(before, after, reads),
        }
    }

    /// Lists one commit more, by its number from 1, that fails behind what it does, or before that.
    pub fn list_commit(&mut self, acted: bool, commit: u64) -> Result<(), NoMemory>
        ensures copy { self.new.copy ≡ self.old.copy }
        ensures ok { OnOk result (self.new.plan ≡ with_listed acted commit self.old.plan) }
        ensures err { OnErr result (self.new ≡ self.old) }
    {
        self.failures.list_commit(acted, commit)
    }
}

impl CopyKeeper for MemCopy {
    ghost stands_for = { λ m c. (c ≡ m.copy) × IsCopy c };

    ghost fault_count = { λ m. m.plan.faults };

    ghost is_copy = { λ m c h. h.1 };

    ghost leads = { λ old new. CallsLead old.plan new.plan };

    ghost stays = { λ keeper. calls_stay keeper.plan };

    ghost leads_on = { λ one two three. calls_on one.plan two.plan three.plan };

    #[tactic(auto, using(crate::proofs::CallLemmas::read_leads))]
    fn state(&mut self, alloc: Global) -> Result<CopyState, KeeperError>
        ensures shown { IfOk result (λ s. (c : Copy) → (c ≡ self.new.copy) × IsCopy c → Shows c s) }
        ensures any { IfOk result CanBe }
        ensures same { (c : Copy) → (c ≡ self.new.copy) × IsCopy c → (c ≡ self.old.copy) × IsCopy c }
        ensures leads { CallsLead self.old.plan self.new.plan }
        ensures later { self.old.plan.faults ≤ self.new.plan.faults }
        ensures cause { CountsFailure self.old.plan.faults self.new.plan.faults result }
        // It fails exactly where it is listed.
        ensures exact { IsTrue (read_fails self.old.plan) ↔ (result ≡ Err keeper.Failed) }
        ensures plan { self.new.plan ≡ after_read self.old.plan }
    {
        self.failures.read()?;
        Ok(self.tables.state(alloc)?)
    }

    #[tactic(auto, using(crate::proofs::CallLemmas::read_leads))]
    fn held(&mut self, alloc: Global, kind: Kind) -> Result<Items<Row>, KeeperError>
        ensures shown { IfOk result (λ rows. (c : Copy) → (c ≡ self.new.copy) × IsCopy c → rows ≡ held_list c kind) }
        ensures any { IfOk result (CanBeList kind) }
        ensures same { (c : Copy) → (c ≡ self.new.copy) × IsCopy c → (c ≡ self.old.copy) × IsCopy c }
        ensures leads { CallsLead self.old.plan self.new.plan }
        ensures later { self.old.plan.faults ≤ self.new.plan.faults }
        ensures cause { CountsFailure self.old.plan.faults self.new.plan.faults result }
        ensures exact { IsTrue (read_fails self.old.plan) ↔ (result ≡ Err keeper.Failed) }
        ensures plan { self.new.plan ≡ after_read self.old.plan }
    {
        self.failures.read()?;
        Ok(self.tables.held(alloc, kind)?)
    }

    #[tactic(auto, using(crate::proofs::CallLemmas::read_leads))]
    fn entry(&mut self, alloc: Global, after: u64) -> Result<Option<OutEntry>, KeeperError>
        ensures shown { IfOk result (λ entry. (c : Copy) → (c ≡ self.new.copy) × IsCopy c → entry ≡ entry_after after c.entries) }
        ensures any { IfOk result (λ entry. IfSome entry (CanBeEntry after)) }
        ensures same { (c : Copy) → (c ≡ self.new.copy) × IsCopy c → (c ≡ self.old.copy) × IsCopy c }
        ensures leads { CallsLead self.old.plan self.new.plan }
        ensures later { self.old.plan.faults ≤ self.new.plan.faults }
        ensures cause { CountsFailure self.old.plan.faults self.new.plan.faults result }
        ensures exact { IsTrue (read_fails self.old.plan) ↔ (result ≡ Err keeper.Failed) }
        ensures plan { self.new.plan ≡ after_read self.old.plan }
    {
        self.failures.read()?;
        Ok(self.tables.entry(alloc, after)?)
    }

    #[tactic(auto, using(crate::proofs::CallLemmas::begun_leads, crate::proofs::CallLemmas::ended_leads))]
    fn commit(&mut self, alloc: Global, change: CopyChange) -> Result<(), KeeperError>
        requires { (c : Copy) → (c ≡ self.old.copy) × IsCopy c → CanChange change c }
        ensures told { (after : Copy) → (after ≡ self.new.copy) × IsCopy after → (before : Copy) × ((before ≡ self.old.copy) × IsCopy before) × Commits change result before after }
        ensures leads { CallsLead self.old.plan self.new.plan }
        ensures later { self.old.plan.faults ≤ self.new.plan.faults }
        ensures cause { CountsFailure self.old.plan.faults self.new.plan.faults result }
        // It fails exactly where it is listed, and is made exactly where it isn't listed to fail before.
        ensures before { IsTrue (fails_before self.old.plan) → (result ≡ Err keeper.Failed) × (self.new.copy ≡ self.old.copy) }
        ensures after { IsTrue (fails_after self.old.plan) → IsErr result }
        ensures exact { result ≡ Err keeper.Failed → IsTrue (fails_before self.old.plan || fails_after self.old.plan) }
        ensures made { result ≡ Err keeper.Failed → fails_before self.old.plan ≡ false → self.new.copy ≡ copy_after change self.old.copy }
        ensures quick { IsQuick change → result ≢ Err keeper.NoMemory }
        ensures plan { KeepsPlan self.old.plan self.new.plan }
    {
        self.failures.begin_commit()?;
        self.tables.commit(alloc, change)?;
        self.failures.end_commit()
    }

    fn faults(&self) -> u64
        ensures faults { result ≡ self.now.plan.faults }
        ensures copy { IsCopy self.now.copy }
    {
        // Read for the invariant.
        let _ = &self.tables;
        self.failures.faults()
    }
}
