//! Whether a connection still answers.

ghost use Rattle.std.specs.Prelude.{OnOk, IsTrue};
ghost use Rattle.sqlite.specs.Held.{state};
ghost use Rattle.sqlite.specs.State.{HasCleanDisk};
ghost use Rattle.sqlite.specs.Tree.{Trees};
ghost use Rattle.item_store.specs.Asked.{Asks};
ghost use Rattle.item_store.specs.Left.{Lasts, WasOpen};
ghost use Rattle.item_store.specs.Stands.{StandsFor, Earlier, IfStands};

use sqlite::{Alter, Connection, Error};

/// Asks the statement that does nothing. A connection that a fault has shut refuses it, and leaves its files alone.
pub fn answers<S: Alter>(conn: &mut Connection<S>) -> Result<(), Error>
    ensures same { IfStands (state S.Store conn.old) (StandsFor (state S.Store conn.new)) }
    ensures live { HasCleanDisk (state S.Store conn.new)
        → OnOk result (IsTrue (state S.Store conn.old).is_open × IsTrue (state S.Store conn.new).is_open) }
    ensures left { HasCleanDisk (state S.Store conn.new) → (db : Trees) → (state S.Store conn.new).may_leave db
        → (state S.Store conn.old).may_leave db }
    ensures asks { HasCleanDisk (state S.Store conn.new)
        → Asks (state S.Store conn.old) (state S.Store conn.new) result }
    ensures was_open { WasOpen (state S.Store conn.old) (state S.Store conn.new) }
    ensures honest { Earlier (state S.Store conn.old) (state S.Store conn.new) }
    ensures lasts { Lasts (state S.Store conn.old) (state S.Store conn.new) }
{
    conn.execute("", &[])?;
    Ok(())
}
