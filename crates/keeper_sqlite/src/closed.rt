//! A store that couldn't be opened.

ghost use Rattle.std.specs.Prelude.{◌≡◌, ◌≤◌, Err};
ghost use Rattle.roster_base.specs.Faults.{CountsError, CountsFailure};
ghost use Rattle.roster_base.specs.declared.keeper.KeeperError.TheVariants as keeper;

use keeper_memory::{CopyChange, CopyKeeper, CopyState, HubCommit, HubKeeper, OutEntry};
use roster_base::{Items, KeeperError};
use roster_types::row::Row;
use roster_values::Kind;
use std::alloc::Global;
use version_core::hub_tables::HubTables;

/// A store that couldn't be opened: each call fails and is counted. It tells nothing.
#[derive(Drop)]
pub struct ClosedStore {
    faults: u64,
}

impl ClosedStore {
    /// No call has failed yet; no memory is taken.
    pub fn new() -> ClosedStore
        ensures { result.faults ≡ 0 }
    {
        ClosedStore { faults: 0 }
    }

    // Counts a call that failed, up to the end of `u64`.
    fn fail(&mut self) -> KeeperError
        ensures counted { CountsError self.old.faults self.new.faults result }
        ensures failed { result ≡ keeper.Failed }
        ensures later { self.old.faults ≤ self.new.faults }
    {
        self.faults = self.faults.saturating_add(1);
        KeeperError::Failed
    }
}

impl HubKeeper for ClosedStore {
    ghost use Rattle.std.specs.Prelude.{⊤};

    ghost stands_for = { λ _ _. ⊥ };

    ghost fault_count = { λ store. store.faults };

    ghost leads = { λ _ _. ⊤ };

    ghost stays = { λ _. tt };

    ghost leads_on = { λ _ _ _ _ _. tt };

    fn load(&mut self, alloc: Global) -> Result<HubTables, KeeperError>
        ensures cause { CountsFailure self.old.faults self.new.faults result }
        ensures failed { result ≡ Err keeper.Failed }
    {
        let _ = alloc;
        Err(self.fail())
    }

    fn commit(&mut self, alloc: Global, commit: &HubCommit) -> Result<(), KeeperError>
        ensures cause { CountsFailure self.old.faults self.new.faults result }
        ensures failed { result ≡ Err keeper.Failed }
    {
        let _ = alloc;
        let _ = commit;
        Err(self.fail())
    }

    fn faults(&self) -> u64 {
        self.faults
    }
}

impl CopyKeeper for ClosedStore {
    ghost use Rattle.std.specs.Prelude.{⊤};

    ghost stands_for = { λ _ _. ⊥ };

    ghost fault_count = { λ store. store.faults };

    ghost leads = { λ _ _. ⊤ };

    ghost stays = { λ _. tt };

    ghost leads_on = { λ _ _ _ _ _. tt };

    ghost is_copy = { λ _ _ none. absurd none };

    fn state(&mut self, alloc: Global) -> Result<CopyState, KeeperError>
        ensures later { self.old.faults ≤ self.new.faults }
        ensures cause { CountsFailure self.old.faults self.new.faults result }
        ensures failed { result ≡ Err keeper.Failed }
    {
        let _ = alloc;
        Err(self.fail())
    }

    fn held(&mut self, alloc: Global, kind: Kind) -> Result<Items<Row>, KeeperError>
        ensures later { self.old.faults ≤ self.new.faults }
        ensures cause { CountsFailure self.old.faults self.new.faults result }
        ensures failed { result ≡ Err keeper.Failed }
    {
        let _ = alloc;
        let _ = kind;
        Err(self.fail())
    }

    fn entry(&mut self, alloc: Global, after: u64) -> Result<Option<OutEntry>, KeeperError>
        ensures later { self.old.faults ≤ self.new.faults }
        ensures cause { CountsFailure self.old.faults self.new.faults result }
        ensures failed { result ≡ Err keeper.Failed }
    {
        let _ = alloc;
        let _ = after;
        Err(self.fail())
    }

    fn commit(&mut self, alloc: Global, change: CopyChange) -> Result<(), KeeperError>
        ensures later { self.old.faults ≤ self.new.faults }
        ensures cause { CountsFailure self.old.faults self.new.faults result }
        ensures failed { result ≡ Err keeper.Failed }
    {
        let _ = alloc;
        drop(change);
        Err(self.fail())
    }

    fn faults(&self) -> u64 {
        self.faults
    }
}
