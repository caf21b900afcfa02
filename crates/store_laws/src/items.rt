//! What a caller has of a store of items over a database in memory and over files.

ghost use Rattle.std.specs.Prelude.{◌≡◌, IsTrue, map, take, IfOk, IfSome};
ghost use Rattle.sqlite.specs.Files.{file_state, Finds, IsOpened};
ghost use Rattle.sqlite.specs.Held.{state};
ghost use Rattle.sqlite.specs.State.{HasCleanDisk};
ghost use Rattle.sqlite.specs.Steps.{over_memory};
ghost use Rattle.item_maps.specs.Items.{Items, no_items, listed};
ghost use Rattle.item_store.specs.Stands.{StandsFor};
ghost use Rattle.item_maps.specs.Edits.{after, entry_of};

use item_store::{Edit, Item, ItemStore};
use roster_base::KeeperError;
use sqlite::{Alter, Connection, FileStore, Files, MemStore, Options};
use sqlite_disk::Disk;
use std::alloc::{AllocError, Global};

/// A store over a new database in memory stands for no items.
pub fn fresh(alloc: Global) -> Result<ItemStore<MemStore>, AllocError>
    ensures { IfOk result (λ s. StandsFor (state over_memory s.connection) no_items) }
{
    let conn = Connection::open_in_memory(alloc)?;
    Ok(ItemStore::adopt(conn))
}

/// What the edits leave is read back.
pub fn read_back(
    alloc: Global,
    store: &mut ItemStore<MemStore>,
    edits: &[Edit],
    area: u32,
    from: &[u8],
    to: &[u8],
) -> Result<Vec<Item>, KeeperError>
    requires { StandsFor (state over_memory store.old.connection) no_items }
    ensures { IfOk result (λ items. map entry_of items.items
        ≡ take 1000 (listed area from.now to.now (after edits.now no_items))) }
{
    store.commit(edits)?;
    store.range(alloc, area, from, to, 1000)
}

/// Opens a database's files, or gives them back.
pub fn opened<D: Disk + Drop>(
    alloc: Global,
    files: Files<D>,
    options: Options,
) -> Result<Connection<FileStore<D>>, Files<D>>
    ensures opened { IfOk result (λ c. HasCleanDisk (file_state c) → IsOpened c) }
    ensures found { IfOk result (λ c. HasCleanDisk (file_state c) → Finds files c) }
{
    if !files.may_be_used() {
        return Err(files);
    }
    match Connection::open_files(alloc, files, options) {
        Ok(conn) => Ok(conn),
        Err((_, left)) => Err(left.into_files()),
    }
}

/// Files that are closed and opened again hold the same items.
pub fn reopen<D: Disk + Drop>(
    alloc: Global,
    conn: Connection<FileStore<D>>,
    options: Options,
) -> Option<Connection<FileStore<D>>>
    ensures same { (m : Items) → StandsFor (file_state conn) m
        → IfSome result (λ again. StandsFor (file_state again) m) }
    ensures is_open { IfSome result (λ again. HasCleanDisk (file_state again) → IsTrue (file_state again).is_open) }
{
    // Read for its clause `live`: what is closed is a database.
    let _schema = conn.schema();
    let files = match conn.close_files() {
        Ok(files) => files,
        Err((_, store)) => {
            drop(store.close());
            return None;
        }
    };
    opened(alloc, files, options).ok()
}

/// A connection that is open over a clean disk stands for one map of items.
pub fn one_map<S: Alter>(conn: &Connection<S>)
    ensures { (m n : Items) → HasCleanDisk (state S.Store conn.now) → IsTrue (state S.Store conn.now).is_open
        → StandsFor (state S.Store conn.now) m → StandsFor (state S.Store conn.now) n → m ≡ n }
{
    // The contract alone speaks of it.
    let _ = conn;
}
