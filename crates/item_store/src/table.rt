//! The item table itself.

ghost use Rattle.std.specs.Prelude.{◌≡◌, OnOk, OnErr, true};
ghost use Rattle.sqlite.specs.Held.{state};
ghost use Rattle.sqlite.specs.State.{HasCleanDisk};
ghost use Rattle.item_store.specs.Asked.{Asks, AsksInTurn};
ghost use Rattle.item_maps.specs.Items.{Items};
ghost use Rattle.item_store.specs.Left.{IsLeft, Lasts, Leaves, WasOpen};
ghost use Rattle.item_store.specs.Stands.{StandsFor, IsReady, Earlier, IfStands};

use sqlite::{Alter, Connection, Error};

// Whether the database has a table. A store has no other than the item table.
fn has_table<S: Alter>(conn: &Connection<S>) -> bool
    ensures { result ≡ true → (m : Items) → StandsFor (state S.Store conn.now) m → IsReady (state S.Store conn.now) m }
{
    !conn.schema().tables.as_slice().is_empty()
}

// Makes the table where it doesn't stand, by a statement.
fn create<S: Alter>(conn: &mut Connection<S>) -> Result<(), Error>
    ensures ok { IfStands (state S.Store conn.old) (λ m. OnOk result (IsReady (state S.Store conn.new) m)) }
    ensures err { IfStands (state S.Store conn.old) (λ m. OnErr result (StandsFor (state S.Store conn.new) m)) }
    ensures asks { HasCleanDisk (state S.Store conn.new)
        → Asks (state S.Store conn.old) (state S.Store conn.new) result }
    ensures left { IfStands (state S.Store conn.old) (λ m.
        Leaves (state S.Store conn.old) (state S.Store conn.new) result (λ db. IsLeft db m)) }
    ensures was_open { WasOpen (state S.Store conn.old) (state S.Store conn.new) }
    ensures honest { Earlier (state S.Store conn.old) (state S.Store conn.new) }
    ensures lasts { Lasts (state S.Store conn.old) (state S.Store conn.new) }
{
    conn.execute(
        "CREATE TABLE IF NOT EXISTS item (area INTEGER NOT NULL, label BLOB NOT NULL, body BLOB NOT NULL, PRIMARY KEY (area, label)) STRICT",
        &[],
    )?;
    Ok(())
}

/// Makes the table where it doesn't stand. A database that has it is asked nothing.
pub fn make<S: Alter>(conn: &mut Connection<S>) -> Result<(), Error>
    ensures ok { IfStands (state S.Store conn.old) (λ m. OnOk result (IsReady (state S.Store conn.new) m)) }
    ensures err { IfStands (state S.Store conn.old) (λ m. OnErr result (StandsFor (state S.Store conn.new) m)) }
    ensures asks { HasCleanDisk (state S.Store conn.new) → AsksInTurn (state S.Store) conn.old conn.new result }
    ensures left { IfStands (state S.Store conn.old) (λ m.
        Leaves (state S.Store conn.old) (state S.Store conn.new) result (λ db. IsLeft db m)) }
    ensures was_open { WasOpen (state S.Store conn.old) (state S.Store conn.new) }
    ensures honest { Earlier (state S.Store conn.old) (state S.Store conn.new) }
    ensures lasts { Lasts (state S.Store conn.old) (state S.Store conn.new) }
{
    if has_table(conn) {
        return Ok(());
    }
    create(conn)
}
