//! What a copy holds, as a set.

ghost use Rattle.std.specs.Prelude.{◌≡◌, ◌≤◌, IfOk, is_some, map};
ghost use Rattle.hub_cascade.specs.Steps.{AreHeldParts, IsHeldPart, ListsHeld, ReadsHeld, dated, held_part};
ghost use Rattle.keeper_memory.specs.copy.Copies.{Copy};
ghost use Rattle.roster_base.specs.Faults.{CountsFailure};

use crate::error::CascadeError;
use keeper_memory::CopyKeeper;
use roster_base::{Items, KeeperError, NoMemory, TryCopy};
use roster_texts::Name;
use roster_types::row::Row;
use roster_types::set::{RosterSet, SetPart};
use roster_types::set_row::SetRow;
use roster_values::{Kind, Mode};
use std::alloc::Global;

// Whether a copy holds anything.
fn holds<C: CopyKeeper>(alloc: Global, copy: &mut C) -> Result<bool, KeeperError>
    ensures holds { IfOk result (λ b. (c : Copy) → C.stands_for copy.new c → is_some c.held ≡ b) }
    ensures same { (c : Copy) → C.stands_for copy.new c → C.stands_for copy.old c }
    ensures leads { C.leads copy.old copy.new }
    ensures later { C.fault_count copy.old ≤ C.fault_count copy.new }
    ensures cause { CountsFailure (C.fault_count copy.old) (C.fault_count copy.new) result }
{
    let state = copy.state(alloc)?;
    Ok(state.held.is_some())
}

// The rows of a list as those of a set, each with its date.
fn dated(alloc: Global, rows: Items<Row>) -> Result<Items<SetRow>, NoMemory>
    ensures { IfOk result (λ v. v ≡ map dated rows) }
{
    let mut listed = Items::new(alloc);
    for row in rows.into_vec() {
        listed.push(SetRow { row, dated: true })?;
    }
    Ok(listed)
}

// All rows of a kind that a copy holds.
fn held_part<C: CopyKeeper>(alloc: Global, copy: &mut C, kind: Kind) -> Result<SetPart, KeeperError>
    ensures is { IfOk result (IsHeldPart kind) }
    ensures held { IfOk result (λ part. (c : Copy) → C.stands_for copy.new c → part ≡ held_part c kind) }
    ensures same { (c : Copy) → C.stands_for copy.new c → C.stands_for copy.old c }
    ensures leads { C.leads copy.old copy.new }
    ensures later { C.fault_count copy.old ≤ C.fault_count copy.new }
    ensures cause { CountsFailure (C.fault_count copy.old) (C.fault_count copy.new) result }
{
    let rows = copy.held(alloc, kind)?;
    Ok(SetPart {
        kind,
        mode: Mode::Bulk,
        rows: dated(alloc, rows)?,
    })
}

// All rows of these kinds that a copy holds, kind by kind.
fn held_parts<C: CopyKeeper>(
    alloc: Global,
    copy: &mut C,
    kinds: &[Kind],
) -> Result<Items<SetPart>, KeeperError>
    ensures are { IfOk result (AreHeldParts kinds.now) }
    ensures held { IfOk result (λ parts. (c : Copy) → C.stands_for copy.new c → parts ≡ map (held_part c) kinds.now) }
    ensures same { (c : Copy) → C.stands_for copy.new c → C.stands_for copy.old c }
    ensures leads { C.leads copy.old copy.new }
    ensures later { C.fault_count copy.old ≤ C.fault_count copy.new }
    ensures cause { CountsFailure (C.fault_count copy.old) (C.fault_count copy.new) result }
{
    let mut parts = Items::new(alloc);
    for kind in kinds {
        parts.push(held_part(alloc, copy, *kind)?)?;
    }
    Ok(parts)
}

// The set of all rows that a copy holds, each with its date, as the whole of what a feed has.
fn read_set<C: CopyKeeper>(
    alloc: Global,
    copy: &mut C,
    feed: &Name,
) -> Result<RosterSet, KeeperError>
    ensures lists { IfOk result (ListsHeld (C.stands_for copy.new) feed.now) }
    ensures same { (c : Copy) → C.stands_for copy.new c → C.stands_for copy.old c }
    ensures leads { C.leads copy.old copy.new }
    ensures later { C.fault_count copy.old ≤ C.fault_count copy.new }
    ensures cause { CountsFailure (C.fault_count copy.old) (C.fault_count copy.new) result }
{
    let feed = feed.copy(alloc)?;
    let parts = held_parts(alloc, copy, &Kind::ALL)?;
    Ok(RosterSet::new(feed, parts))
}

/// The set of all rows that a copy holds, where it holds anything.
///
/// # Errors
///
/// `NothingHeld` exactly where the copy holds nothing, unless its keeper failed or memory ran out; `CopyKeeper`;
/// `NoMemory`.
#[tactic(auto, using(crate::proofs::Answering::keeper_reads, crate::proofs::Answering::hold_nothing, crate::proofs::Answering::hold_something))]
pub fn held_set<C: CopyKeeper>(
    alloc: Global,
    copy: &mut C,
    feed: &Name,
) -> Result<RosterSet, CascadeError>
    ensures lists { IfOk result (ListsHeld (C.stands_for copy.new) feed.now) }
    ensures tells { ReadsHeld (C.stands_for copy.new) (C.fault_count copy.old) (C.fault_count copy.new) result }
    ensures same { (c : Copy) → C.stands_for copy.new c → C.stands_for copy.old c }
    ensures leads { C.leads copy.old copy.new }
    ensures later { C.fault_count copy.old ≤ C.fault_count copy.new }
{
    if !holds(alloc, copy)? {
        return Err(CascadeError::NothingHeld);
    }
    Ok(read_set(alloc, copy, feed)?)
}
