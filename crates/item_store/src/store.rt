//! The store.

ghost use Rattle.std.specs.Prelude.{◌≡◌, ◌≤◌, ◌∷◌, ◌⊎◌, [], IsErr, IsTrue, false, map, take, OnOk, OnErr, IfOk, IfErr};
ghost use Rattle.sqlite.specs.Held.{state};
ghost use Rattle.sqlite.specs.State.{HasCleanDisk};
ghost use Rattle.roster_base.specs.Faults.{CountsError, CountsFailure};
ghost use Rattle.roster_base.specs.declared.keeper.KeeperError.TheVariants as keeper;
ghost use Rattle.item_maps.specs.Items.{Items, listed};
ghost use Rattle.item_store.specs.Left.{Lasts, MayFind, MayHold, WasOpen};
ghost use Rattle.item_store.specs.Stands.{StandsFor, Earlier, IfOpen, IfStands};
ghost use Rattle.item_maps.specs.Edits.{after, entry_of};
ghost use Rattle.item_store.specs.Causes.{IsFailed, IsCaused};

use crate::edits::commit_edits;
use crate::items::read_items;
use crate::listing::MOST_ITEMS;
use item_maps::{Edit, Item};
use roster_base::KeeperError;
use sqlite::{Alter, Connection, Error, ErrorCode};
use std::alloc::Global;

/// Items in the table `item` of a database, from area and label to body. The table is made by the first call that needs
/// it.
///
/// What the clauses say of items holds while the connection is open and its disk gives back what was written to it. Of
/// a call that shuts the connection they still say which items the files hold. A connection that is handed in inside a
/// transaction fails at each call.
#[derive(Drop)]
pub struct ItemStore<S: Alter> {
    connection: Connection<S>,
    faults: u64,
}

impl<S: Alter> ItemStore<S> {
    /// The store in this database; no memory is taken.
    pub fn adopt(connection: Connection<S>) -> ItemStore<S>
        ensures connection { result.connection ≡ connection }
        ensures faults { result.faults ≡ 0 }
    {
        ItemStore {
            connection,
            faults: 0,
        }
    }

    /// The connection, as the last call left it; no memory is taken.
    pub fn release(self) -> Connection<S>
        ensures { result ≡ self.connection }
    {
        let ItemStore {
            connection,
            faults: _,
        } = self;
        connection
    }

    /// How many calls failed. The count stays at the end of its type.
    pub fn faults(&self) -> u64
        ensures { result ≡ self.now.faults }
    {
        self.faults
    }

    // The answer for a refusal, which is counted unless memory ran out.
    fn refuse(&mut self, error: Error) -> KeeperError
        ensures same { self.new.connection ≡ self.old.connection }
        ensures counted { CountsError self.old.faults self.new.faults result }
        ensures failed { IsFailed result error }
    {
        if error == Error::SqliteFailure(ErrorCode::OutOfMemory) {
            return KeeperError::NoMemory;
        }
        self.refuse_items()
    }

    /// Counts a failure that the caller met in the items: they are none that it stores. The items stay as they are.
    pub fn refuse_items(&mut self) -> KeeperError
        ensures same { self.new.connection ≡ self.old.connection }
        ensures counted { CountsError self.old.faults self.new.faults result }
        ensures failed { result ≡ keeper.Failed }
    {
        self.faults = self.faults.saturating_add(1);
        KeeperError::Failed
    }

    /// The first `limit` items of the area whose label is at least `from` and below `to`, in the order of label bytes.
    /// The items stay as they are. The limit is at most `MOST_ITEMS`.
    pub fn range(
        &mut self,
        alloc: Global,
        area: u32,
        from: &[u8],
        to: &[u8],
        limit: u64,
    ) -> Result<Vec<Item>, KeeperError>
        requires { limit ≤ MOST_ITEMS }
        ensures items { IfStands (state S.Store self.old.connection) (λ m.
            HasCleanDisk (state S.Store self.new.connection)
            → IfOk result (λ items. map entry_of items.items ≡ take limit (listed area from.now to.now m))) }
        ensures same { IfStands (state S.Store self.old.connection) (StandsFor (state S.Store self.new.connection)) }
        ensures cause { CountsFailure self.old.faults self.new.faults result }
        ensures refused { IfOpen (state S.Store self.old.connection) (state S.Store self.new.connection) (λ _.
            IfErr result (IsCaused (state S.Store) self.old.connection self.new.connection)) }
        // Also where a fault has shut the connection.
        ensures left { IfOpen (state S.Store self.old.connection) (state S.Store self.new.connection) (λ m.
            MayHold (state S.Store self.new.connection) (m ∷ [])) }
        ensures honest { Earlier (state S.Store self.old.connection) (state S.Store self.new.connection) }
        ensures lasts { Lasts (state S.Store self.old.connection) (state S.Store self.new.connection) }
        // Where the call shuts the connection, an open finds these items.
        ensures found { (m n : Items) → StandsFor (state S.Store self.old.connection) m
            → IsTrue (state S.Store self.old.connection).is_open
            → MayFind (state S.Store self.new.connection) n → n ≡ m }
        // A call that succeeds leaves the connection open.
        ensures live { HasCleanDisk (state S.Store self.new.connection)
            → OnOk result (IsTrue (state S.Store self.new.connection).is_open) }
        // Over a connection that was shut before the call nothing is changed.
        ensures shut { (n : Items) → MayFind (state S.Store self.new.connection) n
            → (state S.Store self.old.connection).is_open ≡ false
            → IsErr result × MayFind (state S.Store self.old.connection) n }
        ensures was_open { WasOpen (state S.Store self.old.connection) (state S.Store self.new.connection) }
    {
        // Read for its clause `live`: what is committed is a database.
        let _ = self.connection.schema();
        match read_items(alloc, &mut self.connection, area, from, to, limit) {
            Ok(items) => Ok(items),
            Err(error) => Err(self.refuse(error)),
        }
    }

    /// Makes the edits in order, all of them or none. After an error the items are as they were.
    pub fn commit(&mut self, edits: &[Edit]) -> Result<(), KeeperError>
        ensures ok { IfStands (state S.Store self.old.connection) (λ m.
            OnOk result (StandsFor (state S.Store self.new.connection) (after edits.now m))) }
        ensures err { IfStands (state S.Store self.old.connection) (λ m.
            OnErr result (StandsFor (state S.Store self.new.connection) m)) }
        ensures cause { CountsFailure self.old.faults self.new.faults result }
        ensures refused { IfOpen (state S.Store self.old.connection) (state S.Store self.new.connection) (λ _.
            IfErr result (IsCaused (state S.Store) self.old.connection self.new.connection)) }
        // Also where a fault has shut the connection: a stop leaves the items before the call, or those after it.
        ensures left { IfOpen (state S.Store self.old.connection) (state S.Store self.new.connection) (λ m.
            MayHold (state S.Store self.new.connection) (m ∷ after edits.now m ∷ [])) }
        ensures honest { Earlier (state S.Store self.old.connection) (state S.Store self.new.connection) }
        ensures lasts { Lasts (state S.Store self.old.connection) (state S.Store self.new.connection) }
        // Where the call shuts the connection, an open finds the items before the call, or those after it.
        ensures found { (m n : Items) → StandsFor (state S.Store self.old.connection) m
            → IsTrue (state S.Store self.old.connection).is_open
            → MayFind (state S.Store self.new.connection) n → (n ≡ m) ⊎ (n ≡ after edits.now m) }
        // A call that succeeds leaves the connection open.
        ensures live { HasCleanDisk (state S.Store self.new.connection)
            → OnOk result (IsTrue (state S.Store self.new.connection).is_open) }
        // Over a connection that was shut before the call nothing is changed.
        ensures shut { (n : Items) → MayFind (state S.Store self.new.connection) n
            → (state S.Store self.old.connection).is_open ≡ false
            → IsErr result × MayFind (state S.Store self.old.connection) n }
        ensures was_open { WasOpen (state S.Store self.old.connection) (state S.Store self.new.connection) }
    {
        // Read for its clause `live`: what is committed is a database.
        let _ = self.connection.schema();
        match commit_edits(&mut self.connection, edits) {
            Ok(()) => Ok(()),
            Err(error) => Err(self.refuse(error)),
        }
    }
}
