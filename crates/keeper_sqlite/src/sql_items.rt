//! Items in a table of a database.

ghost use Rattle.std.specs.Prelude.{◌≡◌, false};
ghost use Rattle.sqlite.specs.Held.{state};
ghost use Rattle.item_store.specs.Stands.{StandsFor};
ghost use Rattle.keeper_sqlite.specs.Trust.{IsLost, IsTrusted, MayHold, shown_by};

use crate::ranges::{all_of, part_of};
use crate::stored_items::StoredItems;
use item_store::{Edit, Item, ItemStore};
use roster_base::KeeperError;
use sqlite::{Alter, Connection};
use std::alloc::Global;

/// The items of a table in a database.
#[derive(Drop)]
pub struct SqlItems<S: Alter> {
    store: ItemStore<S>,
    // A commit wanted memory, and none succeeded since: if such a one shut the store, an open alone could tell whether
    // it was made.
    lost: bool,
}

impl<S: Alter> SqlItems<S> {
    /// The items in this database; no memory is taken.
    pub fn adopt(connection: Connection<S>) -> SqlItems<S>
        ensures connection { result.store.connection ≡ connection }
        ensures faults { result.store.faults ≡ 0 }
        ensures known { result.lost ≡ false }
    {
        SqlItems {
            store: ItemStore::adopt(connection),
            lost: false,
        }
    }

    /// The connection, as the last call left it; no memory is taken.
    pub fn release(self) -> Connection<S>
        ensures { result ≡ self.store.connection }
    {
        let SqlItems { store, lost: _ } = self;
        store.release()
    }
}

// Whether a store is lost behind a commit that ended so: want of memory alone may leave it saying nothing.
fn is_lost(before: bool, ended: &Result<(), KeeperError>) -> bool
    ensures { IsLost ended.now before result }
{
    match ended {
        Ok(()) => false,
        Err(KeeperError::NoMemory) => true,
        Err(KeeperError::Failed) => before,
    }
}

impl<S: Alter + Drop> StoredItems for SqlItems<S> {
    ghost use Rattle.std.specs.Prelude.{◌≡◌, false};
    ghost use Rattle.std.proofs.Common.{inr};
    ghost use Rattle.item_store.proofs.OneMap.{found_alone, found_clean, stands_once};

    ghost stands_for = { λ items m. StandsFor (state S.Store items.store.connection) m };

    ghost is_trusted = { λ items. IsTrusted (state S.Store items.store.connection) };

    ghost may_hold = { λ items. MayHold (state S.Store items.store.connection) items.lost };

    ghost is_known = { λ items. items.lost ≡ false };

    ghost shows = { λ items. shown_by (state S.Store items.store.connection) };

    ghost fault_count = { λ items. items.store.faults };

    ghost one = { λ items m n sure p q. stands_once _ m n sure.0 sure.1 p q };

    ghost holds = { λ items m sure stands. inr (sure, λ n other. stands_once _ m n sure.0 sure.1 stands other) };

    ghost alone = { λ items m n sure stands held. found_alone _ _ n m sure stands held };

    ghost clean = { λ items n held. found_clean _ _ n held };

    fn all_of(
        &mut self,
        alloc: Global,
        area: u32,
        from: &[u8],
        to: &[u8],
    ) -> Result<Vec<Item>, KeeperError> {
        all_of(alloc, &mut self.store, area, from, to)
    }

    fn part_of(
        &mut self,
        alloc: Global,
        area: u32,
        from: &[u8],
        to: &[u8],
        limit: u64,
    ) -> Result<Vec<Item>, KeeperError> {
        part_of(alloc, &mut self.store, area, from, to, limit)
    }

    fn commit(&mut self, edits: &[Edit]) -> Result<(), KeeperError> {
        let ended = self.store.commit(edits);
        self.lost = is_lost(self.lost, &ended);
        ended
    }

    fn refuse(&mut self) -> KeeperError {
        self.store.refuse_items()
    }

    fn faults(&self) -> u64 {
        self.store.faults()
    }
}
