//! Parts of what differs, by ids among which are those of all rows that differ.

ghost use Rattle.std.specs.Prelude.{◌≡◌, ◌+◌, ◌<◌, ◌^◌, IfOk, filter, map, option_copied, option_map};
ghost use Rattle.delta_parts.specs.Parts.{part_of_delta};
ghost use Rattle.delta_parts.specs.Turns.{entry_shown};
ghost use Rattle.roster_types.specs.Keys.{Ascends, count_of, is_of_kind};
ghost use Rattle.row_deltas.specs.Deltas.{Cover, delta_of, difference};
ghost use Rattle.version_core.specs.Spans.{key_in};

use crate::part::{DeltaPart, Paging, add_within, parted};
use crate::turn::{EntryRef, changed};
use roster_base::NoMemory;
use roster_texts::Id;
use roster_types::row::Row;
use roster_values::Kind;
use std::alloc::Global;
use version_core::references::Refs;

// What differs of one id.
fn difference<'r>(old: Option<&'r Row>, new: Option<&'r Row>) -> Option<EntryRef<'r>>
    ensures { option_map entry_shown result ≡ difference (option_copied old.entry) (option_copied new.entry) }
{
    match (old, new) {
        (None, None) => None,
        (Some(old), None) => Some(EntryRef::Gone(old)),
        (None, Some(new)) => Some(EntryRef::Put(new)),
        (Some(old), Some(new)) => changed(old, new),
    }
}

/// The part that is asked for of what differs between the rows of a kind before and after, where all rows that differ
/// have one of these ids. Only the rows with these ids are looked at.
pub fn delta_part_among<A: Refs, B: Refs>(
    alloc: Global,
    before: &A,
    after: &B,
    kind: Kind,
    ids: &[&Id],
    paging: Paging,
) -> Result<DeltaPart, NoMemory>
    requires few { count_of kind (A.rows before.now) + count_of kind (B.rows after.now) + 1 < 2 ^ 64 }
    requires order { Ascends (key_in kind) (map (λ id. id.now) ids.now) }
    requires cover { Cover kind (filter (is_of_kind kind) (A.rows before.now)) (filter (is_of_kind kind) (B.rows after.now)) (map (λ id. id.now) ids.now) }
    ensures { IfOk result (λ p. p ≡ part_of_delta paging.limit paging.offset (delta_of kind (filter (is_of_kind kind) (A.rows before.now)) (filter (is_of_kind kind) (B.rows after.now)))) }
{
    // Read for the order of the rows.
    before.ascend();
    after.ascend();
    let mut found = Vec::new(alloc);
    let mut total: u64 = 0;
    for id in ids {
        let entry = difference(before.row(kind, id), after.row(kind, id));
        total = add_within(paging, total, entry, &mut found)?;
    }
    let part = parted(alloc, found, total)?;
    Ok(part)
}
