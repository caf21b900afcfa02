//! What hub and consumer have of their stores: a synchronisation, sending and publishing over keepers in a database,
//! under the premise on the disk alone.

ghost use Rattle.std.specs.Prelude.{◌≡◌, ◌<◌, ◌≤◌, ℕ, IfSome, Some};
ghost use Rattle.exchange_link.specs.Agreement.{StageAgrees};
ghost use Rattle.exchange_link.specs.Marks.{Agree};
ghost use Rattle.exchange_link.specs.SentTold.{WasSent};
ghost use Rattle.exchange_link.specs.Synchronised.{Synchronised, held_at};
ghost use Rattle.hub_core.specs.Standing.{KeeperFits};
ghost use Rattle.hub_core.specs.Steps.{MakesNext};
ghost use Rattle.keeper_memory.specs.Kept.{KeptState};
ghost use Rattle.keeper_memory.specs.copy.Copies.{Copy, largest_limit, largest_tries};
ghost use Rattle.keeper_sqlite.specs.Stored.{CopyStands, HubStands, IsSound};
ghost use Rattle.keeper_sqlite.specs.Trust.{IsQuiet, IsTrusted};
ghost use Rattle.keeper_sqlite.specs.copy.Keeping as copy_keeping;
ghost use Rattle.keeper_sqlite.specs.hub.Keeping as hub_keeping;
ghost use Rattle.item_store.specs.Stands.{StandsFor};
ghost use Rattle.keeper_sqlite.specs.hub.Keeping.{Keeps};
ghost use Rattle.sqlite.specs.Files.{file_state};
ghost use Rattle.sqlite.specs.Held.{state};
ghost use Rattle.sqlite.specs.State.{HasCleanDisk};
ghost use Rattle.sync_world.specs.Links.{link_state};
ghost use Rattle.version_changes.specs.grants.Granting.{GrantsMake};
ghost use Rattle.version_changes.specs.sets.Applying.{Applies};

use crate::items::reopen;
use consumer_outbox::send;
use consumer_sync::sync;
use exchange_link::{Link, SendAnswer, SyncAnswer};
use grant_scopes::GrantList;
use hub_core::{Hub, HubError, Published};
use keeper_sqlite::{ItemCopy, ItemHub, SqlCopy, SqlHub, SqlItems};
use roster_texts::{Moment, Token};
use roster_types::set::RosterSet;
use sqlite::{Alter, Connection, FileStore, Options};
use sqlite_disk::Disk;
use std::alloc::Global;
use sync_world::WorldLink;

/// Copies what the token sees of the world's newest version into a copy in a database, or goes on with the stage that
/// stands under the token.
pub fn sync_stored<S: Alter + Drop>(
    alloc: Global,
    copy: &mut SqlCopy<S>,
    link: &mut WorldLink,
    token: &Token,
    limit: u32,
    tries: u32,
) -> SyncAnswer
    requires limit { (0 < limit) × (limit ≤ largest_limit) }
    requires tries { (0 < tries) × (tries ≤ largest_tries) }
    requires sound { IsSound copy_keeping.KeepOrNew (state S.Store copy.old.1.store.connection)
        (state S.Store copy.old.0.store.connection) }
    requires agree { (c : Copy)
        → CopyStands (state S.Store copy.old.1.store.connection)
        (state S.Store copy.old.0.store.connection) copy.old.0.lost c → StageAgrees c (link_state link.old) }
    // While the disk gives no cause against it the copy is told before and after, has become what a synchronisation
    // promises, and is told on.
    ensures synchronised { IsQuiet (state S.Store copy.old.0.store.connection)
        (state S.Store copy.new.0.store.connection)
        → (before : Copy) × (after : Copy)
        × CopyStands (state S.Store copy.old.1.store.connection)
        (state S.Store copy.old.0.store.connection) copy.old.0.lost before
        × CopyStands (state S.Store copy.new.1.store.connection)
        (state S.Store copy.new.0.store.connection) copy.new.0.lost after
        × Synchronised token.now result before (link_state link.old) after (link_state link.new) }
    // Also where a fault has shut the connection: each copy that an open of the files may find has become that.
    ensures found { (after : Copy)
        → CopyStands (state S.Store copy.new.1.store.connection)
        (state S.Store copy.new.0.store.connection) copy.new.0.lost after
        → (before : Copy) × CopyStands (state S.Store copy.old.1.store.connection)
        (state S.Store copy.old.0.store.connection) copy.old.0.lost before
        × Synchronised token.now result before (link_state link.old) after (link_state link.new) }
    // `Complete` leaves exactly what the token sees of that version of the hub.
    ensures exact { (version : ℕ) → result ≡ SyncAnswer.Complete version → (after : Copy)
        → CopyStands (state S.Store copy.new.1.store.connection)
        (state S.Store copy.new.0.store.connection) copy.new.0.lost after
        → after.held ≡ Some (held_at version token.now link.new.hub) }
{
    let answer = sync(alloc, copy, link, token, limit, tries);
    // Read for what they keep.
    copy.keeps();
    let _ = link.faults();
    answer
}

/// Sends the entries of a copy in a database that aren't settled to the world's hub, in order and marked with their
/// numbers.
pub fn send_stored<S: Alter + Drop>(
    alloc: Global,
    copy: &mut SqlCopy<S>,
    link: &mut WorldLink,
    token: &Token,
    tries: u32,
) -> SendAnswer
    requires tries { (0 < tries) × (tries ≤ largest_tries) }
    requires sound { IsSound copy_keeping.KeepOrNew (state S.Store copy.old.1.store.connection)
        (state S.Store copy.old.0.store.connection) }
    requires agree { (c : Copy)
        → CopyStands (state S.Store copy.old.1.store.connection)
        (state S.Store copy.old.0.store.connection) copy.old.0.lost c → Agree c (link_state link.old) }
    // While the disk gives no cause against it the entries are told before and after, and have become what sending
    // promises.
    ensures sent { IsQuiet (state S.Store copy.old.0.store.connection) (state S.Store copy.new.0.store.connection)
        → (before : Copy) × (after : Copy)
        × CopyStands (state S.Store copy.old.1.store.connection)
        (state S.Store copy.old.0.store.connection) copy.old.0.lost before
        × CopyStands (state S.Store copy.new.1.store.connection)
        (state S.Store copy.new.0.store.connection) copy.new.0.lost after
        × WasSent token.now result before (link_state link.old) after (link_state link.new) }
    // Also where a fault has shut the connection: so has each copy that an open of the files may find.
    ensures found { (after : Copy)
        → CopyStands (state S.Store copy.new.1.store.connection)
        (state S.Store copy.new.0.store.connection) copy.new.0.lost after
        → (before : Copy) × CopyStands (state S.Store copy.old.1.store.connection)
        (state S.Store copy.old.0.store.connection) copy.old.0.lost before
        × WasSent token.now result before (link_state link.old) after (link_state link.new) }
{
    let answer = send(alloc, copy, link, token, tries);
    // Read for what they keep.
    copy.keeps();
    let _ = link.faults();
    answer
}

/// Publishes a set over a hub in a database.
pub fn publish_stored<S: Alter + Drop>(
    alloc: Global,
    hub: &mut Hub,
    keeper: &mut SqlHub<S>,
    set: RosterSet,
    at: Moment,
) -> Result<Published, HubError>
    requires sound { IsSound (hub_keeping.KeepOrNew keeper.old.2) (state S.Store keeper.old.1.store.connection)
        (state S.Store keeper.old.0.store.connection) }
    requires fits { KeeperFits
        (HubStands keeper.old.2 (state S.Store keeper.old.1.store.connection)
        (state S.Store keeper.old.0.store.connection) keeper.old.0.lost) hub.old }
    // While the disk gives no cause against it the state is told before and after, and what was published leads from
    // the one to the other.
    ensures published { IsQuiet (state S.Store keeper.old.0.store.connection)
        (state S.Store keeper.new.0.store.connection)
        → (before : KeptState) × (after : KeptState)
        × HubStands keeper.old.2 (state S.Store keeper.old.1.store.connection)
        (state S.Store keeper.old.0.store.connection) keeper.old.0.lost before
        × HubStands keeper.new.2 (state S.Store keeper.new.1.store.connection)
        (state S.Store keeper.new.0.store.connection) keeper.new.0.lost after
        × MakesNext (λ version. Applies version set at) result before after }
    // Also where a fault has shut the connection: so does each state that an open of the files may find.
    ensures found { (after : KeptState)
        → HubStands keeper.new.2 (state S.Store keeper.new.1.store.connection)
        (state S.Store keeper.new.0.store.connection) keeper.new.0.lost after
        → (before : KeptState) × HubStands keeper.old.2 (state S.Store keeper.old.1.store.connection)
        (state S.Store keeper.old.0.store.connection) keeper.old.0.lost before
        × MakesNext (λ version. Applies version set at) result before after }
    ensures fits { KeeperFits
        (HubStands keeper.new.2 (state S.Store keeper.new.1.store.connection)
        (state S.Store keeper.new.0.store.connection) keeper.new.0.lost) hub.new }
{
    let published = hub.publish(alloc, keeper, set, at);
    // Read for what it keeps.
    keeper.keeps();
    published
}

/// Replaces the grants over a hub in a database.
pub fn grant_stored<S: Alter + Drop>(
    alloc: Global,
    hub: &mut Hub,
    keeper: &mut SqlHub<S>,
    list: &GrantList,
    at: Moment,
) -> Result<Published, HubError>
    requires sound { IsSound (hub_keeping.KeepOrNew keeper.old.2) (state S.Store keeper.old.1.store.connection)
        (state S.Store keeper.old.0.store.connection) }
    requires fits { KeeperFits
        (HubStands keeper.old.2 (state S.Store keeper.old.1.store.connection)
        (state S.Store keeper.old.0.store.connection) keeper.old.0.lost) hub.old }
    ensures granted { IsQuiet (state S.Store keeper.old.0.store.connection)
        (state S.Store keeper.new.0.store.connection)
        → (before : KeptState) × (after : KeptState)
        × HubStands keeper.old.2 (state S.Store keeper.old.1.store.connection)
        (state S.Store keeper.old.0.store.connection) keeper.old.0.lost before
        × HubStands keeper.new.2 (state S.Store keeper.new.1.store.connection)
        (state S.Store keeper.new.0.store.connection) keeper.new.0.lost after
        × MakesNext (λ version. GrantsMake version list.now at) result before after }
    ensures found { (after : KeptState)
        → HubStands keeper.new.2 (state S.Store keeper.new.1.store.connection)
        (state S.Store keeper.new.0.store.connection) keeper.new.0.lost after
        → (before : KeptState) × HubStands keeper.old.2 (state S.Store keeper.old.1.store.connection)
        (state S.Store keeper.old.0.store.connection) keeper.old.0.lost before
        × MakesNext (λ version. GrantsMake version list.now at) result before after }
    ensures fits { KeeperFits
        (HubStands keeper.new.2 (state S.Store keeper.new.1.store.connection)
        (state S.Store keeper.new.0.store.connection) keeper.new.0.lost) hub.new }
{
    let granted = hub.set_grants(alloc, keeper, list, at);
    // Read for what it keeps.
    keeper.keeps();
    granted
}

// The connection of a copy in a database: it stands for what the copy told.
fn connection_of_copy<S: Alter + Drop>(copy: SqlCopy<S>) -> Connection<S>
    ensures { IsTrusted (state S.Store copy.0.store.connection) → (c : Copy)
        → CopyStands (state S.Store copy.1.store.connection) (state S.Store copy.0.store.connection) copy.0.lost c
        → Keeps copy_keeping.KeepOrNew (StandsFor (state S.Store result)) c }
{
    copy.keeps();
    copy.release().release()
}

// The copy in the database of a connection.
fn copy_over<S: Alter + Drop>(connection: Connection<S>) -> SqlCopy<S>
    ensures connection { result.0.store.connection ≡ connection }
    ensures tells { IsTrusted (state S.Store connection) → (c : Copy)
        → Keeps copy_keeping.KeepOrNew (StandsFor (state S.Store connection)) c
        → CopyStands (state S.Store result.1.store.connection)
        (state S.Store result.0.store.connection) result.0.lost c }
{
    ItemCopy::adopt(SqlItems::adopt(connection))
}

/// The copy in a database whose files are closed and opened again, where they can be.
pub fn reopen_copy<D: Disk + Drop>(
    alloc: Global,
    copy: SqlCopy<FileStore<D>>,
    options: Options,
) -> Option<SqlCopy<FileStore<D>>>
    // It tells the copy that was told before.
    ensures { IsTrusted (file_state copy.0.store.connection) → (c : Copy)
        → CopyStands (file_state copy.1.store.connection) (file_state copy.0.store.connection) copy.0.lost c
        → IfSome result (λ again. HasCleanDisk (file_state again.0.store.connection)
        → CopyStands (file_state again.1.store.connection) (file_state again.0.store.connection) again.0.lost c) }
{
    let connection = reopen(alloc, connection_of_copy(copy), options)?;
    Some(copy_over(connection))
}

// The connection of a hub in a database: it stands for what the hub told.
fn connection_of_hub<S: Alter + Drop>(keeper: SqlHub<S>) -> Connection<S>
    ensures { IsTrusted (state S.Store keeper.0.store.connection) → (kept : KeptState)
        → HubStands keeper.2 (state S.Store keeper.1.store.connection)
        (state S.Store keeper.0.store.connection) keeper.0.lost kept
        → Keeps (hub_keeping.KeepOrNew keeper.2) (StandsFor (state S.Store result)) kept }
{
    keeper.keeps();
    keeper.release().release()
}

// The hub in the database of a connection; a new one keeps so many versions beside the newest.
fn hub_over<S: Alter + Drop>(connection: Connection<S>, keep: u32) -> SqlHub<S>
    ensures connection { result.0.store.connection ≡ connection }
    ensures tells { IsTrusted (state S.Store connection) → (kept : KeptState)
        → Keeps (hub_keeping.KeepOrNew keep) (StandsFor (state S.Store connection)) kept
        → HubStands result.2 (state S.Store result.1.store.connection)
        (state S.Store result.0.store.connection) result.0.lost kept }
{
    ItemHub::adopt(SqlItems::adopt(connection), keep)
}

/// The hub in a database whose files are closed and opened again, where they can be.
pub fn reopen_hub<D: Disk + Drop>(
    alloc: Global,
    keeper: SqlHub<FileStore<D>>,
    keep: u32,
    options: Options,
) -> Option<SqlHub<FileStore<D>>>
    // It tells the state that was told before, if it is opened with the same number of versions for a new one.
    ensures { IsTrusted (file_state keeper.0.store.connection) → keep ≡ keeper.2 → (kept : KeptState)
        → HubStands keeper.2 (file_state keeper.1.store.connection)
        (file_state keeper.0.store.connection) keeper.0.lost kept
        → IfSome result (λ again. HasCleanDisk (file_state again.0.store.connection)
        → HubStands again.2 (file_state again.1.store.connection)
        (file_state again.0.store.connection) again.0.lost kept) }
{
    let connection = reopen(alloc, connection_of_hub(keeper), options)?;
    Some(hub_over(connection, keep))
}
