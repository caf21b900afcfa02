//! The statement that lists items.

ghost use Rattle.std.specs.Prelude.{◌≡◌, ◌≤◌, ◌∷◌, [], pos, map, take, IfOk, IfErr, IsTrue, OnOk};
ghost use Rattle.sqlite.specs.declared.types.Value.TheVariants.{Int};
ghost use Rattle.sqlite.specs.Held.{state};
ghost use Rattle.sqlite.specs.State.{HasCleanDisk, Shown, FailsToQuery, CommitsShowing, Survives};
ghost use Rattle.item_store.specs.Asked.{Asks};
ghost use Rattle.item_maps.specs.Items.{listed};
ghost use Rattle.item_store.specs.Items.{shown, params_of};
ghost use Rattle.item_store.specs.Left.{Lasts, Leaves, WasOpen};
ghost use Rattle.item_store.specs.Stands.{StandsFor, Earlier, IfReady};
ghost use Rattle.item_store.specs.Table.{select_text};

use sqlite::{Alter, Connection, Error, Row, params};

/// How many items one call lists at most.
pub const MOST_ITEMS: u64 = 1_000_000_000_000_000;

// Runs the statement that lists items.
fn run_select<S: Alter>(
    conn: &mut Connection<S>,
    area: u32,
    from: &[u8],
    to: &[u8],
    limit: u64,
) -> Result<Vec<Row>, Error>
    requires { limit ≤ MOST_ITEMS }
    ensures ok { HasCleanDisk (state S.Store conn.new) → IfOk result (λ rows.
        Shown select_text (params_of area from.now to.now (Int (pos limit) ∷ [])) (state S.Store conn.old)
        (state S.Store conn.new) rows.items) }
    ensures err { HasCleanDisk (state S.Store conn.new) → IfErr result
        (FailsToQuery select_text (params_of area from.now to.now (Int (pos limit) ∷ [])) (state S.Store conn.old)
        (state S.Store conn.new)) }
    ensures survives { Survives (state S.Store conn.old) (state S.Store conn.new)
        (CommitsShowing select_text (params_of area from.now to.now (Int (pos limit) ∷ [])) (state S.Store conn.old)) }
    ensures honest { Earlier (state S.Store conn.old) (state S.Store conn.new) }
    ensures lasts { Lasts (state S.Store conn.old) (state S.Store conn.new) }
{
    conn.query_all(
        "SELECT label, body FROM item WHERE area = ?1 AND label >= ?2 AND label < ?3 ORDER BY label LIMIT ?4",
        params![area, from, to, limit as i64],
    )
}

/// The first `limit` items of the area whose label is at least `from` and below `to`, in the order of labels, each as a
/// row of its label and its body.
pub fn select<S: Alter>(
    conn: &mut Connection<S>,
    area: u32,
    from: &[u8],
    to: &[u8],
    limit: u64,
) -> Result<Vec<Row>, Error>
    requires { limit ≤ MOST_ITEMS }
    ensures rows { IfReady (state S.Store conn.old) (λ m.
        HasCleanDisk (state S.Store conn.new)
        → IfOk result (λ rows. rows.items ≡ map shown (take limit (listed area from.now to.now m)))) }
    ensures same { IfReady (state S.Store conn.old) (StandsFor (state S.Store conn.new)) }
    ensures asks { HasCleanDisk (state S.Store conn.new)
        → Asks (state S.Store conn.old) (state S.Store conn.new) result }
    ensures left { IfReady (state S.Store conn.old) (λ _.
        Leaves (state S.Store conn.old) (state S.Store conn.new) result (λ _. ⊥)) }
    ensures was_open { WasOpen (state S.Store conn.old) (state S.Store conn.new) }
    ensures honest { Earlier (state S.Store conn.old) (state S.Store conn.new) }
    ensures lasts { Lasts (state S.Store conn.old) (state S.Store conn.new) }
    ensures live { HasCleanDisk (state S.Store conn.new) → OnOk result (IsTrue (state S.Store conn.new).is_open) }
{
    run_select(conn, area, from, to, limit)
}
