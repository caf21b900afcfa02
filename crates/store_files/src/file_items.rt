//! The items in the database of a file.

use item_maps::{Edit, Item};
use keeper_sqlite::{SqlItems, StoredItems};
use roster_base::KeeperError;
use sqlite::{Connection, File, FileStore};
use std::alloc::Global;

/// A store of items that a run has opened.
pub trait OpenStore: StoredItems {
    /// Closes it. What was committed stands in its log: where it can't be closed, nothing is lost.
    fn close(self);
}

/// The items in the database of a file of the system.
///
/// It has no type parameters: a call of a function over any store that may be sent to a thread can be proved at such a
/// type, and can't at `SqlItems<FileStore<..>>`.
#[derive(Drop)]
pub struct FileItems {
    items: SqlItems<FileStore<File>>,
}

impl FileItems {
    /// The items in the database of this connection.
    pub(crate) fn adopt(connection: Connection<FileStore<File>>) -> FileItems {
        FileItems {
            items: SqlItems::adopt(connection),
        }
    }
}

impl StoredItems for FileItems {
    ghost use Rattle.std.specs.Prelude.{◌≡◌, false};
    ghost use Rattle.std.proofs.Common.{inr};
    ghost use Rattle.sqlite.specs.Files.{file_state};
    ghost use Rattle.item_store.proofs.OneMap.{found_alone, found_clean, stands_once};
    ghost use Rattle.item_store.specs.Stands.{StandsFor};
    ghost use Rattle.keeper_sqlite.specs.Trust.{IsTrusted, MayHold, shown_by};

    ghost stands_for = { λ f m. StandsFor (file_state f.items.store.connection) m };

    ghost is_trusted = { λ f. IsTrusted (file_state f.items.store.connection) };

    ghost may_hold = { λ f. MayHold (file_state f.items.store.connection) f.items.lost };

    ghost is_known = { λ f. f.items.lost ≡ false };

    ghost shows = { λ f. shown_by (file_state f.items.store.connection) };

    ghost fault_count = { λ f. f.items.store.faults };

    ghost one = { λ f m n sure p q. stands_once _ m n sure.0 sure.1 p q };

    ghost holds = { λ f m sure stands. inr (sure, λ n other. stands_once _ m n sure.0 sure.1 stands other) };

    ghost alone = { λ f m n sure stands held. found_alone _ _ n m sure stands held };

    ghost clean = { λ f n held. found_clean _ _ n held };

    fn all_of(
        &mut self,
        alloc: Global,
        area: u32,
        from: &[u8],
        to: &[u8],
    ) -> Result<Vec<Item>, KeeperError> {
        self.items.all_of(alloc, area, from, to)
    }

    fn part_of(
        &mut self,
        alloc: Global,
        area: u32,
        from: &[u8],
        to: &[u8],
        limit: u64,
    ) -> Result<Vec<Item>, KeeperError> {
        self.items.part_of(alloc, area, from, to, limit)
    }

    fn commit(&mut self, edits: &[Edit]) -> Result<(), KeeperError> {
        self.items.commit(edits)
    }

    fn refuse(&mut self) -> KeeperError {
        self.items.refuse()
    }

    fn faults(&self) -> u64 {
        self.items.faults()
    }
}

impl OpenStore for FileItems {
    fn close(self) {
        let FileItems { items } = self;
        let _ = items.release().close();
    }
}
