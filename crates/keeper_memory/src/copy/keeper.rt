//! Keepers of a copy.

ghost use Rattle.std.specs.Prelude.{◌≡◌, ◌≤◌, ℕ, IfOk, IfSome};
ghost use Rattle.roster_base.specs.Faults.{CountsFailure};

use crate::copy::change::CopyChange;
use crate::copy::entry::OutEntry;
use crate::copy::state::CopyState;
use roster_base::{Items, KeeperError};
use roster_types::row::Row;
use roster_values::Kind;
use std::alloc::Global;

/// Keeps what a consumer needs to go on after it is stopped: the lists that it holds, the stage that it gathers and the
/// writes that it has to send. What a keeper stands for after a call is told by what it stood for before it. One that
/// tells nothing stands for no copy, and one that doesn't know whether its last commit acted may stand for two.
pub trait CopyKeeper {
    ghost use Rattle.keeper_memory.specs.copy.Copies.{Copy, IsCopy, entry_after, held_list};
    ghost use Rattle.keeper_memory.specs.copy.Changes.{CanChange, Commits};
    ghost use Rattle.keeper_memory.specs.copy.States.{CanBe, CanBeEntry, CanBeList, Shows};

    /// The copies that it stands for, where it tells.
    ghost stands_for: { Self → Copy → Type 0 };

    /// How many calls failed. The count stays at the end of `u64`.
    ghost fault_count: { Self → ℕ };

    /// What calls, one behind another, may make of a keeper.
    ghost leads: { Self → Self → Type 0 };

    /// The small part of the copy.
    fn state(&mut self, alloc: Global) -> Result<CopyState, KeeperError>
        ensures shown { IfOk result (λ s. (c : Copy) → stands_for self.new c → Shows c s) }
        // Also where the keeper tells nothing.
        ensures any { IfOk result CanBe }
        ensures same { (c : Copy) → stands_for self.new c → stands_for self.old c }
        ensures leads { leads self.old self.new }
        ensures later { fault_count self.old ≤ fault_count self.new }
        ensures cause { CountsFailure (fault_count self.old) (fault_count self.new) result };

    /// The rows of a kind that are held, in ascending order of their ids' bytes.
    fn held(&mut self, alloc: Global, kind: Kind) -> Result<Items<Row>, KeeperError>
        ensures shown { IfOk result (λ rows. (c : Copy) → stands_for self.new c → rows ≡ held_list c kind) }
        ensures any { IfOk result (CanBeList kind) }
        ensures same { (c : Copy) → stands_for self.new c → stands_for self.old c }
        ensures leads { leads self.old self.new }
        ensures later { fault_count self.old ≤ fault_count self.new }
        ensures cause { CountsFailure (fault_count self.old) (fault_count self.new) result };

    /// The entry with the least number above `after`.
    fn entry(&mut self, alloc: Global, after: u64) -> Result<Option<OutEntry>, KeeperError>
        ensures shown { IfOk result (λ entry. (c : Copy) → stands_for self.new c → entry ≡ entry_after after c.entries) }
        ensures any { IfOk result (λ entry. IfSome entry (CanBeEntry after)) }
        ensures same { (c : Copy) → stands_for self.new c → stands_for self.old c }
        ensures leads { leads self.old self.new }
        ensures later { fault_count self.old ≤ fault_count self.new }
        ensures cause { CountsFailure (fault_count self.old) (fault_count self.new) result };

    /// Makes one change. After `Failed` it was made whole or not at all, after `NoMemory` it was not.
    fn commit(&mut self, alloc: Global, change: CopyChange) -> Result<(), KeeperError>
        requires { (c : Copy) → stands_for self.old c → CanChange change c }
        ensures told { (after : Copy) → stands_for self.new after → (before : Copy) × stands_for self.old before × Commits change result before after }
        ensures leads { leads self.old self.new }
        ensures later { fault_count self.old ≤ fault_count self.new }
        ensures cause { CountsFailure (fault_count self.old) (fault_count self.new) result };

    /// The number of calls that answered `Failed`.
    fn faults(&self) -> u64
        ensures { result ≡ fault_count self.now };

    /// What it stands for meets what is asked of a copy.
    ghost is_copy: { (keeper : Self) (c : Copy) → stands_for keeper c → IsCopy c };

    /// A keeper leads to itself.
    ghost stays: { (keeper : Self) → leads keeper keeper };

    /// What leads from one keeper to a second, and on from there to a third, leads from the first to the third.
    ghost leads_on: { (one two three : Self) → leads one two → leads two three → leads one three };
}
