//! The two statements that change items inside a transaction.

ghost use Rattle.std.specs.Prelude.{[], OnOk, OnErr};
ghost use Rattle.sqlite.specs.Held.{state};
ghost use Rattle.sqlite.specs.State.{HasCleanDisk, Executes, CommitsBy, Survives};
ghost use Rattle.item_store.specs.Asked.{Asks};
ghost use Rattle.item_maps.specs.Items.{cleared, put as put_in};
ghost use Rattle.item_store.specs.Items.{params_of, put_params};
ghost use Rattle.item_store.specs.Left.{Lasts, Leaves, WasOpen};
ghost use Rattle.item_store.specs.Stands.{IsWithin, GoesBackTo, Earlier, IfWithin};
ghost use Rattle.item_store.specs.Table.{delete_text, upsert_text};

use sqlite::{Alter, Connection, Error, params};

// Runs the statement that takes away the items of a range.
fn run_clear<S: Alter>(
    conn: &mut Connection<S>,
    area: u32,
    from: &[u8],
    to: &[u8],
) -> Result<usize, Error>
    ensures runs { HasCleanDisk (state S.Store conn.new)
        → Executes delete_text (params_of area from.now to.now []) (state S.Store conn.old)
        (state S.Store conn.new) result }
    ensures survives { Survives (state S.Store conn.old) (state S.Store conn.new)
        (CommitsBy delete_text (params_of area from.now to.now []) (state S.Store conn.old)) }
    ensures honest { Earlier (state S.Store conn.old) (state S.Store conn.new) }
    ensures lasts { Lasts (state S.Store conn.old) (state S.Store conn.new) }
{
    conn.execute(
        "DELETE FROM item WHERE area = ?1 AND label >= ?2 AND label < ?3",
        params![area, from, to],
    )
}

// Runs the statement that stores an item.
fn run_put<S: Alter>(
    conn: &mut Connection<S>,
    area: u32,
    label: &[u8],
    body: &[u8],
) -> Result<usize, Error>
    ensures runs { HasCleanDisk (state S.Store conn.new)
        → Executes upsert_text (put_params area label.now body.now) (state S.Store conn.old)
        (state S.Store conn.new) result }
    ensures survives { Survives (state S.Store conn.old) (state S.Store conn.new)
        (CommitsBy upsert_text (put_params area label.now body.now) (state S.Store conn.old)) }
    ensures honest { Earlier (state S.Store conn.old) (state S.Store conn.new) }
    ensures lasts { Lasts (state S.Store conn.old) (state S.Store conn.new) }
{
    conn.execute(
        "INSERT INTO item (area, label, body) VALUES (?1, ?2, ?3) ON CONFLICT (area, label) DO UPDATE SET body = excluded.body",
        params![area, label, body],
    )
}

/// Takes away the items of the area whose label is at least `from` and below `to`.
pub fn clear<S: Alter>(
    conn: &mut Connection<S>,
    area: u32,
    from: &[u8],
    to: &[u8],
) -> Result<(), Error>
    ensures ok { IfWithin (state S.Store conn.old) (λ base m.
        OnOk result (IsWithin (state S.Store conn.new) base (cleared area from.now to.now m))) }
    ensures err { IfWithin (state S.Store conn.old) (λ base _.
        OnErr result (GoesBackTo (state S.Store conn.new) base)) }
    ensures asks { HasCleanDisk (state S.Store conn.new)
        → Asks (state S.Store conn.old) (state S.Store conn.new) result }
    ensures left { IfWithin (state S.Store conn.old) (λ _ _.
        Leaves (state S.Store conn.old) (state S.Store conn.new) result (λ _. ⊥)) }
    ensures was_open { WasOpen (state S.Store conn.old) (state S.Store conn.new) }
    ensures honest { Earlier (state S.Store conn.old) (state S.Store conn.new) }
    ensures lasts { Lasts (state S.Store conn.old) (state S.Store conn.new) }
{
    run_clear(conn, area, from, to)?;
    Ok(())
}

/// Stores the body at its place.
pub fn put<S: Alter>(
    conn: &mut Connection<S>,
    area: u32,
    label: &[u8],
    body: &[u8],
) -> Result<(), Error>
    ensures ok { IfWithin (state S.Store conn.old) (λ base m.
        OnOk result (IsWithin (state S.Store conn.new) base (put_in area label.now body.now m))) }
    ensures err { IfWithin (state S.Store conn.old) (λ base _.
        OnErr result (GoesBackTo (state S.Store conn.new) base)) }
    ensures asks { HasCleanDisk (state S.Store conn.new)
        → Asks (state S.Store conn.old) (state S.Store conn.new) result }
    ensures left { IfWithin (state S.Store conn.old) (λ _ _.
        Leaves (state S.Store conn.old) (state S.Store conn.new) result (λ _. ⊥)) }
    ensures was_open { WasOpen (state S.Store conn.old) (state S.Store conn.new) }
    ensures honest { Earlier (state S.Store conn.old) (state S.Store conn.new) }
    ensures lasts { Lasts (state S.Store conn.old) (state S.Store conn.new) }
{
    run_put(conn, area, label, body)?;
    Ok(())
}
