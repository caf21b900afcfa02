//! Items that are read.

ghost use Rattle.std.specs.Prelude.{◌≡◌, ◌≢◌, ◌≤◌, ◌⊎◌, IsErr, IsTrue, OnOk, false, map, take, IfOk, IfErr};
ghost use Rattle.sqlite.specs.Held.{state};
ghost use Rattle.sqlite.specs.State.{HasCleanDisk};
ghost use Rattle.sqlite.specs.Tree.{Trees};
ghost use Rattle.item_store.specs.Asked.{IsRefused};
ghost use Rattle.item_maps.specs.Items.{listed};
ghost use Rattle.item_store.specs.Items.{shown};
ghost use Rattle.item_store.specs.Left.{IsLeft, Lasts, WasOpen};
ghost use Rattle.item_store.specs.Stands.{StandsFor, Earlier, IfOpen, IfStands};
ghost use Rattle.item_maps.specs.Edits.{entry_of};
ghost use Rattle.item_store.specs.Causes.{no_memory};

use crate::listing::MOST_ITEMS;
use crate::probe::answers;
use item_maps::Item;
use roster_base::Bytes;
use sqlite::{Alter, Connection, Error, ErrorCode, Row};
use std::alloc::Global;

// The label and the body of a row that `select` gave.
fn item_of(row: &Row) -> Result<Item, Error>
    ensures value { (item : _) → row.now ≡ shown item → IfOk result (λ it. entry_of it ≡ item) }
    ensures memory { (item : _) → row.now ≡ shown item → IfErr result (λ e. ¬ (e ≢ no_memory)) }
{
    let label = row.get(0)?;
    let body = row.get(1)?;
    Ok(Item {
        label: Bytes::from_vec(label),
        body: Bytes::from_vec(body),
    })
}

// The items of these rows.
fn items_of(alloc: Global, rows: &[Row]) -> Result<Vec<Item>, Error>
    ensures value { (items : _) → rows.now ≡ map shown items → IfOk result (λ its. map entry_of its.items ≡ items) }
    ensures memory { (items : _) → rows.now ≡ map shown items → IfErr result (λ e. ¬ (e ≢ no_memory)) }
{
    let mut items = Vec::new(alloc);
    for row in rows {
        items.push(item_of(row)?)?;
    }
    Ok(items)
}

// The first `limit` items of the area whose label is at least `from` and below `to`, in the order of label bytes, over
// a connection that answers.
fn read_answering<S: Alter>(
    alloc: Global,
    conn: &mut Connection<S>,
    area: u32,
    from: &[u8],
    to: &[u8],
    limit: u64,
) -> Result<Vec<Item>, Error>
    requires { limit ≤ MOST_ITEMS }
    ensures items { IfStands (state S.Store conn.old) (λ m.
        HasCleanDisk (state S.Store conn.new)
        → IfOk result (λ items. map entry_of items.items ≡ take limit (listed area from.now to.now m))) }
    ensures same { IfStands (state S.Store conn.old) (StandsFor (state S.Store conn.new)) }
    ensures asks { IfOpen (state S.Store conn.old) (state S.Store conn.new) (λ _.
        IfErr result (λ e. e ≢ no_memory → IsRefused (state S.Store) conn.old conn.new e)) }
    ensures left { IfOpen (state S.Store conn.old) (state S.Store conn.new) (λ m.
        (db : Trees) → (state S.Store conn.new).may_leave db → (state S.Store conn.old).may_leave db ⊎ IsLeft db m) }
    ensures was_open { WasOpen (state S.Store conn.old) (state S.Store conn.new) }
    ensures honest { Earlier (state S.Store conn.old) (state S.Store conn.new) }
    ensures lasts { Lasts (state S.Store conn.old) (state S.Store conn.new) }
    ensures live { HasCleanDisk (state S.Store conn.new) → OnOk result (IsTrue (state S.Store conn.new).is_open) }
{
    crate::table::make(conn)?;
    let rows = crate::listing::select(conn, area, from, to, limit)?;
    items_of(alloc, rows.as_slice())
}

/// The first `limit` items of the area whose label is at least `from` and below `to`, in the order of label bytes.
/// Inside a transaction of the caller it is refused.
pub fn read_items<S: Alter>(
    alloc: Global,
    conn: &mut Connection<S>,
    area: u32,
    from: &[u8],
    to: &[u8],
    limit: u64,
) -> Result<Vec<Item>, Error>
    requires { limit ≤ MOST_ITEMS }
    ensures items { IfStands (state S.Store conn.old) (λ m.
        HasCleanDisk (state S.Store conn.new)
        → IfOk result (λ items. map entry_of items.items ≡ take limit (listed area from.now to.now m))) }
    ensures same { IfStands (state S.Store conn.old) (StandsFor (state S.Store conn.new)) }
    ensures asks { IfOpen (state S.Store conn.old) (state S.Store conn.new) (λ _.
        IfErr result (λ e. e ≢ no_memory → IsRefused (state S.Store) conn.old conn.new e)) }
    ensures left { IfOpen (state S.Store conn.old) (state S.Store conn.new) (λ m.
        (db : Trees) → (state S.Store conn.new).may_leave db → (state S.Store conn.old).may_leave db ⊎ IsLeft db m) }
    ensures was_open { WasOpen (state S.Store conn.old) (state S.Store conn.new) }
    ensures honest { Earlier (state S.Store conn.old) (state S.Store conn.new) }
    ensures lasts { Lasts (state S.Store conn.old) (state S.Store conn.new) }
    ensures live { HasCleanDisk (state S.Store conn.new) → OnOk result (IsTrue (state S.Store conn.new).is_open) }
    ensures shut { HasCleanDisk (state S.Store conn.new) → (state S.Store conn.old).is_open ≡ false
        → IsErr result × ((db : Trees) → (state S.Store conn.new).may_leave db
        → (state S.Store conn.old).may_leave db) }
{
    if !conn.is_autocommit() {
        return Err(Error::SqliteFailure(ErrorCode::TransactionState));
    }
    answers(conn)?;
    read_answering(alloc, conn, area, from, to, limit)
}
