//! Parts of what differs.

ghost use Rattle.std.specs.Prelude.{◌≡◌, ◌+◌, ◌<◌, ◌^◌, IfOk, OnOk, filter, option_map};
ghost use Rattle.delta_parts.specs.Parts.{count_on, part_of_delta, with_option};
ghost use Rattle.delta_parts.specs.Turns.{entry_shown};
ghost use Rattle.roster_types.specs.Keys.{count_of, is_of_kind};
ghost use Rattle.row_deltas.specs.Deltas.{delta_of, ids_gone, rows_put};

use crate::cursor::Cursor;
use crate::turn::{EntryRef, next_turn};
use roster_base::{Items, NoMemory, TryCopy};
use roster_texts::Id;
use roster_types::row::Row;
use roster_values::Kind;
use row_deltas::DeltaEntry;
use row_walks::Steps;
use std::alloc::Global;

/// The entries of a delta from an offset on, up to a limit: the rows that are put and the ids that are gone; and how
/// many entries the whole delta has.
#[derive(Drop)]
pub struct DeltaPart {
    pub rows: Items<Row>,
    pub gone: Items<Id>,
    pub total: u64,
}

/// Which entries of a list are asked for: at most `limit` of them, behind the first `offset`.
#[derive(Clone, Copy)]
pub struct Paging {
    pub limit: u64,
    pub offset: u64,
}

// The entry with a copy of the row that is put, or of the id that is gone.
fn owned(alloc: Global, entry: EntryRef<'_>) -> Result<DeltaEntry, NoMemory>
    ensures { IfOk result (λ e. e ≡ entry_shown entry.entry) }
{
    match entry {
        EntryRef::Put(row) => Ok(DeltaEntry::Put(row.copy(alloc)?)),
        EntryRef::Gone(row) => Ok(DeltaEntry::Gone(row.id().copy(alloc)?)),
    }
}

/// Adds an entry, before which so many stand, where it is asked for, and tells how many stand before the next.
pub fn add_within(
    paging: Paging,
    before: u64,
    entry: Option<EntryRef<'_>>,
    found: &mut Vec<DeltaEntry>,
) -> Result<u64, NoMemory>
    requires { before + 1 < 2 ^ 64 }
    ensures found { OnOk result (found.new.items ≡ with_option paging.limit paging.offset before (option_map entry_shown entry.entry) found.old.items) }
    ensures count { IfOk result (λ n. n ≡ count_on before (option_map entry_shown entry.entry)) }
{
    let Some(entry) = entry else {
        return Ok(before);
    };
    if paging.offset <= before && (found.len() as u64) < paging.limit {
        found.push(owned(*found.allocator(), entry)?)?;
    }
    Ok(before + 1)
}

/// The entries as rows and ids.
pub fn parted(alloc: Global, entries: Vec<DeltaEntry>, total: u64) -> Result<DeltaPart, NoMemory>
    ensures { IfOk result (λ p. p ≡ record { rows = rows_put entries.items; gone = ids_gone entries.items; total = total }) }
{
    let mut rows = Vec::new(alloc);
    let mut gone = Vec::new(alloc);
    for entry in entries {
        match entry {
            DeltaEntry::Put(row) => rows.push(row)?,
            DeltaEntry::Gone(id) => gone.push(id)?,
        }
    }
    Ok(DeltaPart {
        rows: Items::from_vec(rows),
        gone: Items::from_vec(gone),
        total,
    })
}

/// The part of what differs between the rows of a kind before and after, from an offset on. Only the rows of the part
/// are copied.
pub fn delta_part<A: Steps, B: Steps>(
    alloc: Global,
    before: &A,
    after: &B,
    kind: Kind,
    paging: Paging,
) -> Result<DeltaPart, NoMemory>
    requires { count_of kind (A.rows before.now) + count_of kind (B.rows after.now) + 1 < 2 ^ 64 }
    ensures { IfOk result (λ p. p ≡ part_of_delta paging.limit paging.offset (delta_of kind (filter (is_of_kind kind) (A.rows before.now)) (filter (is_of_kind kind) (B.rows after.now)))) }
{
    let mut found = Vec::new(alloc);
    let mut total: u64 = 0;
    let mut old = Cursor::new(before, kind);
    let mut new = Cursor::new(after, kind);
    while let Some(turn) = next_turn(old.head(), new.head()) {
        total = add_within(paging, total, turn.entry, &mut found)?;
        old = old.advanced(turn.is_old);
        new = new.advanced(turn.is_new);
    }
    let part = parted(alloc, found, total)?;
    Ok(part)
}
