//! The beginning of a run.

ghost use Rattle.std.specs.Prelude.{◌≡◌, ◌≤◌, IfErr, IfOk};
ghost use Rattle.keeper_memory.specs.copy.Copies.{Copy};
ghost use Rattle.keeper_memory.specs.copy.Lists.{kind_count};
ghost use Rattle.keeper_memory.specs.copy.States.{stage_of};
ghost use Rattle.keeper_memory.specs.declared.copy.state.TheConstants.{LAST};
ghost use Rattle.exchange_link.specs.Places.{kinds_of};
ghost use Rattle.roster_base.specs.Faults.{Rose};
ghost use Rattle.exchange_link.specs.Beginning.{Enters, no_run};
ghost use Rattle.exchange_link.specs.Pairs.{CopyFrom};

use keeper_memory::{CopyChange, CopyKeeper, CopyState, LAST};
use roster_base::KeeperError;
use std::alloc::Global;

/// Why no run was entered.
#[derive(Clone, Copy, Debug, PartialEq, Eq)]
pub enum NoRun {
    /// The last run is over.
    LastRun,
    /// The keeper of the copy failed.
    KeeperFault,
    /// Memory ran out.
    NoMemory,
}

impl From<KeeperError> for NoRun {
    ghost from_gives = { λ k e. e ≡ no_run k };

    fn from(error: KeeperError) -> NoRun {
        match error {
            KeeperError::Failed => NoRun::KeeperFault,
            KeeperError::NoMemory => NoRun::NoMemory,
        }
    }
}

/// Enters the next run, and gives the small part of the copy.
pub fn begin_run<C: CopyKeeper>(alloc: Global, copy: &mut C) -> Result<CopyState, NoRun>
    ensures holds { IfOk result (λ s. (c : Copy) → C.stands_for copy.new c → (c.run ≡ s.run) × (stage_of c ≡ s.stage)) }
    ensures few { IfOk result (λ s. kinds_of s.stage ≤ kind_count) }
    ensures run { IfOk result (λ s. (1 ≤ s.run) × (s.run ≤ LAST)) }
    ensures told { CopyFrom (C.stands_for copy.old) (C.stands_for copy.new) (Enters result) }
    ensures later { C.fault_count copy.old ≤ C.fault_count copy.new }
    ensures copy_leads { C.leads copy.old copy.new }
    ensures cause { IfErr result (λ e. e ≡ NoRun.KeeperFault → Rose (C.fault_count copy.old) (C.fault_count copy.new)) }
{
    let state = copy.state(alloc)?;
    if state.run >= LAST {
        return Err(NoRun::LastRun);
    }
    let run = state.run + 1;
    copy.commit(alloc, CopyChange::Run { run })?;
    Ok(CopyState { run, ..state })
}
