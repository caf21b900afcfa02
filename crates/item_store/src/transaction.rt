//! The ends of a transaction.

ghost use Rattle.std.specs.Prelude.{◌≡◌, ◌⊎◌, false, IsTrue, OnOk, OnErr};
ghost use Rattle.sqlite.specs.Held.{state};
ghost use Rattle.sqlite.specs.State.{HasCleanDisk};
ghost use Rattle.sqlite.specs.Tree.{Trees};
ghost use Rattle.item_store.specs.Asked.{Asks};
ghost use Rattle.item_maps.specs.Items.{Items};
ghost use Rattle.item_store.specs.Left.{IsLeft, Lasts, Leaves, WasOpen};
ghost use Rattle.item_store.specs.Stands.{StandsFor, IsWithin, GoesBackTo, Earlier, IfReady, IfWithin};

use sqlite::{Alter, Connection, Error};

/// Begins a transaction.
pub fn begin<S: Alter>(conn: &mut Connection<S>) -> Result<(), Error>
    ensures ok { IfReady (state S.Store conn.old) (λ m. OnOk result (IsWithin (state S.Store conn.new) m m)) }
    ensures err { IfReady (state S.Store conn.old) (λ m. OnErr result (StandsFor (state S.Store conn.new) m)) }
    ensures asks { HasCleanDisk (state S.Store conn.new)
        → Asks (state S.Store conn.old) (state S.Store conn.new) result }
    ensures left { IfReady (state S.Store conn.old) (λ _.
        Leaves (state S.Store conn.old) (state S.Store conn.new) result (λ _. ⊥)) }
    ensures was_open { WasOpen (state S.Store conn.old) (state S.Store conn.new) }
    ensures honest { Earlier (state S.Store conn.old) (state S.Store conn.new) }
    ensures lasts { Lasts (state S.Store conn.old) (state S.Store conn.new) }
{
    conn.execute("BEGIN", &[])?;
    Ok(())
}

/// Commits the transaction.
pub fn commit<S: Alter>(conn: &mut Connection<S>) -> Result<(), Error>
    ensures ok { IfWithin (state S.Store conn.old) (λ _ m. OnOk result (StandsFor (state S.Store conn.new) m)) }
    ensures err { IfWithin (state S.Store conn.old) (λ base _.
        OnErr result (GoesBackTo (state S.Store conn.new) base)) }
    ensures asks { HasCleanDisk (state S.Store conn.new)
        → Asks (state S.Store conn.old) (state S.Store conn.new) result }
    ensures left { IfWithin (state S.Store conn.old) (λ _ m.
        Leaves (state S.Store conn.old) (state S.Store conn.new) result (λ db. IsLeft db m)) }
    ensures was_open { WasOpen (state S.Store conn.old) (state S.Store conn.new) }
    ensures honest { Earlier (state S.Store conn.old) (state S.Store conn.new) }
    ensures lasts { Lasts (state S.Store conn.old) (state S.Store conn.new) }
    ensures live { HasCleanDisk (state S.Store conn.new)
        → OnOk result (IsTrue (state S.Store conn.new).is_open × ((state S.Store conn.new).in_transaction ≡ false)) }
{
    // Read for its clause `live`: what is committed is a database.
    let _ = conn.schema();
    conn.execute("COMMIT", &[])?;
    Ok(())
}

/// Ends a transaction that a failure left open. However the statement ends, the transaction is gone.
pub fn roll_back<S: Alter>(conn: &mut Connection<S>)
    ensures back { (base : Items) → GoesBackTo (state S.Store conn.old) base → StandsFor (state S.Store conn.new) base }
    ensures left { (base : Items) → GoesBackTo (state S.Store conn.old) base → HasCleanDisk (state S.Store conn.new)
        → IsTrue (state S.Store conn.old).is_open ⊎ ((state S.Store conn.old).in_transaction ≡ false)
        → (db : Trees) → (state S.Store conn.new).may_leave db → (state S.Store conn.old).may_leave db }
    ensures was_open { WasOpen (state S.Store conn.old) (state S.Store conn.new) }
    ensures honest { Earlier (state S.Store conn.old) (state S.Store conn.new) }
    ensures lasts { Lasts (state S.Store conn.old) (state S.Store conn.new) }
    ensures outside { (state S.Store conn.old).in_transaction ≡ false → conn.new ≡ conn.old }
{
    if !conn.is_autocommit() {
        let _ = conn.execute("ROLLBACK", &[]);
    }
}
