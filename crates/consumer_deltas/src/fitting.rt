//! Whether a delta fits what is held.

ghost use Rattle.std.specs.Prelude.{◌≡◌, ◌++◌};
ghost use Rattle.consumer_deltas.specs.DeltaFits.{apart, fits, has_id, has_row};
ghost use Rattle.consumer_deltas.specs.DeltaJudging.{MayCome};
ghost use Rattle.keeper_memory.specs.copy.Lists.{IsList};
ghost use Rattle.roster_types.specs.Keys.{Ascends, row_key};
ghost use Rattle.version_core.specs.Spans.{key_in};

use crate::gathered::{Entries, Gathered};
use reference_rules::order;
use roster_texts::Id;
use roster_types::row::Row;
use roster_values::Kind;

// Whether a row of a kind has an id; the rows ascend.
fn has_id(kind: Kind, rows: &[Row], id: &Id) -> bool
    requires { Ascends row_key rows.now }
    ensures { result ≡ has_id kind rows.now id.now }
{
    match rows.binary_search_by(|row| order::compare(row.kind(), row.id(), kind, id)) {
        Ok(_) => true,
        Err(_) => false,
    }
}

// Whether one of the ids is that of a row; the ids ascend.
fn has_row(kind: Kind, ids: &[Id], row: &Row) -> bool
    requires { Ascends (key_in kind) ids.now }
    ensures { result ≡ has_row kind ids.now row.now }
{
    match ids.binary_search_by(|id| order::compare(kind, id, row.kind(), row.id())) {
        Ok(_) => true,
        Err(_) => false,
    }
}

// Whether none of the ids is that of a row, each looked for among all rows.
fn are_apart(kind: Kind, rows: &[Row], ids: &[Id]) -> bool
    requires { Ascends row_key rows.now }
    ensures { result ≡ apart kind rows.now ids.now }
{
    for id in ids {
        if has_id(kind, rows, id) {
            return false;
        }
    }
    true
}

// Whether none of the ids is that of a row, each row looked for among all ids.
fn stand_apart(kind: Kind, rows: &[Row], ids: &[Id]) -> bool
    requires { Ascends (key_in kind) ids.now }
    ensures { result ≡ apart kind rows.now ids.now }
{
    for row in rows {
        if has_row(kind, ids, row) {
            return false;
        }
    }
    true
}

// Whether no id is gone of which a row is put, and each is that of a row which is held.
fn fits(kind: Kind, held: &[Row], puts: &[Row], gone: &[Id]) -> bool
    requires held { Ascends row_key held.now }
    requires puts { Ascends row_key puts.now }
    ensures { result ≡ fits kind held.now puts.now gone.now }
{
    for id in gone {
        if !has_id(kind, held, id) {
            return false;
        }
        if has_id(kind, puts, id) {
            return false;
        }
    }
    true
}

/// Whether the entries of a page, with those that came, fit what is held. Those of the page are looked for; those that
/// came, which may be many more, aren't.
pub fn fits_on(kind: Kind, sofar: &Gathered, page: &Entries) -> bool
    requires come { MayCome kind sofar.now }
    requires puts { IsList kind page.now.puts }
    ensures { result ≡ fits kind sofar.now.held (sofar.now.puts ++ page.now.puts) (sofar.now.gone ++ page.now.gone) }
{
    let puts = page.puts.as_slice();
    let gone = page.gone.as_slice();
    if !fits(kind, sofar.held(), puts, gone) {
        return false;
    }
    if !are_apart(kind, sofar.puts(), gone) {
        return false;
    }
    stand_apart(kind, puts, sofar.gone())
}
