//! Edits made in one transaction.

ghost use Rattle.std.specs.Prelude.{◌≡◌, ◌≢◌, ◌⊎◌, false, IsErr, IsTrue, OnOk, OnErr, IfErr};
ghost use Rattle.sqlite.specs.Held.{state};
ghost use Rattle.sqlite.specs.State.{HasCleanDisk};
ghost use Rattle.sqlite.specs.Tree.{Trees};
ghost use Rattle.item_store.specs.Asked.{AsksInTurn, IsRefused};
ghost use Rattle.item_store.specs.Left.{IsLeft, Lasts, Leaves, WasOpen};
ghost use Rattle.item_store.specs.Stands.{StandsFor, IsWithin, GoesBackTo, Earlier, IfOpen, IfStands, IfWithin};
ghost use Rattle.item_maps.specs.Edits.{after, after_edit};
ghost use Rattle.item_store.specs.Causes.{no_memory};

use crate::probe::answers;
use item_maps::Edit;
use sqlite::{Alter, Connection, Error, ErrorCode};

// Makes an edit inside a transaction.
fn make_edit<S: Alter>(conn: &mut Connection<S>, edit: &Edit) -> Result<(), Error>
    ensures ok { IfWithin (state S.Store conn.old) (λ base m.
        OnOk result (IsWithin (state S.Store conn.new) base (after_edit edit.now m))) }
    ensures err { IfWithin (state S.Store conn.old) (λ base _.
        OnErr result (GoesBackTo (state S.Store conn.new) base)) }
    ensures asks { HasCleanDisk (state S.Store conn.new) → AsksInTurn (state S.Store) conn.old conn.new result }
    ensures left { IfWithin (state S.Store conn.old) (λ _ _.
        Leaves (state S.Store conn.old) (state S.Store conn.new) result (λ _. ⊥)) }
    ensures was_open { WasOpen (state S.Store conn.old) (state S.Store conn.new) }
    ensures honest { Earlier (state S.Store conn.old) (state S.Store conn.new) }
    ensures lasts { Lasts (state S.Store conn.old) (state S.Store conn.new) }
{
    match edit {
        Edit::Put { area, label, body } => {
            crate::changes::put(conn, *area, label.as_slice(), body.as_slice())
        }
        Edit::Clear { area, from, to } => {
            crate::changes::clear(conn, *area, from.as_slice(), to.as_slice())
        }
    }
}

// Makes the edits in order inside a transaction.
fn make_edits<S: Alter>(conn: &mut Connection<S>, edits: &[Edit]) -> Result<(), Error>
    ensures ok { IfWithin (state S.Store conn.old) (λ base m.
        OnOk result (IsWithin (state S.Store conn.new) base (after edits.now m))) }
    ensures err { IfWithin (state S.Store conn.old) (λ base _.
        OnErr result (GoesBackTo (state S.Store conn.new) base)) }
    ensures asks { HasCleanDisk (state S.Store conn.new) → AsksInTurn (state S.Store) conn.old conn.new result }
    ensures left { IfWithin (state S.Store conn.old) (λ _ _.
        Leaves (state S.Store conn.old) (state S.Store conn.new) result (λ _. ⊥)) }
    ensures was_open { WasOpen (state S.Store conn.old) (state S.Store conn.new) }
    ensures honest { Earlier (state S.Store conn.old) (state S.Store conn.new) }
    ensures lasts { Lasts (state S.Store conn.old) (state S.Store conn.new) }
{
    for edit in edits {
        make_edit(conn, edit)?;
    }
    Ok(())
}

// Makes the edits inside a transaction and commits it.
fn finish<S: Alter>(conn: &mut Connection<S>, edits: &[Edit]) -> Result<(), Error>
    ensures ok { IfWithin (state S.Store conn.old) (λ _ m.
        OnOk result (StandsFor (state S.Store conn.new) (after edits.now m))) }
    ensures err { IfWithin (state S.Store conn.old) (λ base _.
        OnErr result (GoesBackTo (state S.Store conn.new) base)) }
    ensures asks { HasCleanDisk (state S.Store conn.new) → AsksInTurn (state S.Store) conn.old conn.new result }
    ensures left { IfWithin (state S.Store conn.old) (λ _ m.
        Leaves (state S.Store conn.old) (state S.Store conn.new) result (λ db. IsLeft db (after edits.now m))) }
    ensures was_open { WasOpen (state S.Store conn.old) (state S.Store conn.new) }
    ensures honest { Earlier (state S.Store conn.old) (state S.Store conn.new) }
    ensures lasts { Lasts (state S.Store conn.old) (state S.Store conn.new) }
    ensures live { HasCleanDisk (state S.Store conn.new)
        → OnOk result (IsTrue (state S.Store conn.new).is_open × ((state S.Store conn.new).in_transaction ≡ false)) }
{
    make_edits(conn, edits)?;
    crate::transaction::commit(conn)
}

// Makes the edits in order, all of them or none, over a connection that answers.
fn commit_answering<S: Alter>(conn: &mut Connection<S>, edits: &[Edit]) -> Result<(), Error>
    ensures ok { IfStands (state S.Store conn.old) (λ m.
        OnOk result (StandsFor (state S.Store conn.new) (after edits.now m))) }
    ensures err { IfStands (state S.Store conn.old) (λ m. OnErr result (StandsFor (state S.Store conn.new) m)) }
    ensures asks { HasCleanDisk (state S.Store conn.new)
        → IfErr result (λ e. e ≢ no_memory → IsRefused (state S.Store) conn.old conn.new e) }
    ensures left { IfOpen (state S.Store conn.old) (state S.Store conn.new) (λ m.
        (db : Trees) → (state S.Store conn.new).may_leave db
        → (state S.Store conn.old).may_leave db ⊎ (IsLeft db m ⊎ IsLeft db (after edits.now m))) }
    ensures was_open { WasOpen (state S.Store conn.old) (state S.Store conn.new) }
    ensures honest { Earlier (state S.Store conn.old) (state S.Store conn.new) }
    ensures lasts { Lasts (state S.Store conn.old) (state S.Store conn.new) }
    ensures live { HasCleanDisk (state S.Store conn.new) → OnOk result (IsTrue (state S.Store conn.new).is_open) }
{
    crate::table::make(conn)?;
    crate::transaction::begin(conn)?;
    let ended = finish(conn, edits);
    crate::transaction::roll_back(conn);
    ended
}

/// Makes the edits in order, all of them or none. Inside a transaction of the caller it is refused.
pub fn commit_edits<S: Alter>(conn: &mut Connection<S>, edits: &[Edit]) -> Result<(), Error>
    ensures ok { IfStands (state S.Store conn.old) (λ m.
        OnOk result (StandsFor (state S.Store conn.new) (after edits.now m))) }
    ensures err { IfStands (state S.Store conn.old) (λ m. OnErr result (StandsFor (state S.Store conn.new) m)) }
    ensures asks { HasCleanDisk (state S.Store conn.new) → (state S.Store conn.old).in_transaction ≡ false
        → IfErr result (λ e. e ≢ no_memory → IsRefused (state S.Store) conn.old conn.new e) }
    ensures left { IfOpen (state S.Store conn.old) (state S.Store conn.new) (λ m.
        (db : Trees) → (state S.Store conn.new).may_leave db
        → (state S.Store conn.old).may_leave db ⊎ (IsLeft db m ⊎ IsLeft db (after edits.now m))) }
    ensures was_open { WasOpen (state S.Store conn.old) (state S.Store conn.new) }
    ensures honest { Earlier (state S.Store conn.old) (state S.Store conn.new) }
    ensures lasts { Lasts (state S.Store conn.old) (state S.Store conn.new) }
    ensures live { HasCleanDisk (state S.Store conn.new) → OnOk result (IsTrue (state S.Store conn.new).is_open) }
    ensures shut { HasCleanDisk (state S.Store conn.new) → (state S.Store conn.old).is_open ≡ false
        → IsErr result × ((db : Trees) → (state S.Store conn.new).may_leave db
        → (state S.Store conn.old).may_leave db) }
{
    if !conn.is_autocommit() {
        return Err(Error::SqliteFailure(ErrorCode::TransactionState));
    }
    answers(conn)?;
    commit_answering(conn, edits)
}
