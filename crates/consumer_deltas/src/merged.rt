//! The delta of a kind, merged with what is held of it, and staged.

ghost use Rattle.std.specs.Prelude.{◌≡◌, ◌⊎◌, ◌<◌, ◌≤◌, [], None, Some, IfOk, IfSome, length, map};
ghost use Rattle.consumer_deltas.specs.DeltaGathering.{AreEntries};
ghost use Rattle.consumer_deltas.specs.DeltaJudging.{MayCome};
ghost use Rattle.consumer_deltas.specs.DeltaMerging.{Merges, StagesList, Unmerged};
ghost use Rattle.consumer_sync.specs.Judging.{kind_done};
ghost use Rattle.consumer_sync.specs.Staging.{IsBroken};
ghost use Rattle.exchange_link.specs.Pairs.{CopyFrom};
ghost use Rattle.exchange_link.specs.Places.{IsStaged, kinds_of, next_kind};
ghost use Rattle.keeper_memory.specs.copy.Copies.{Copy, held_list};
ghost use Rattle.keeper_memory.specs.copy.Lists.{IsList, kind_count};
ghost use Rattle.keeper_memory.specs.declared.copy.state.TheConstants.{LAST};
ghost use Rattle.roster_base.specs.Faults.{Rose};
ghost use Rattle.row_deltas.specs.Deltas.{merged};
ghost use Rattle.version_core.specs.Version.{row_limit};

use crate::gathered::Gathered;
use crate::staged::{ListAt, stage_rows};
use consumer_sync::judging::{MAX_ROWS, kind};
use exchange_link::SyncAnswer;
use keeper_memory::{CopyKeeper, StageState};
use roster_base::NoMemory;
use roster_texts::Token;
use roster_types::row::Row;
use roster_values::Kind;
use row_merges::merge;
use std::alloc::Global;

// Stages a whole list of the next kind, where it isn't too long.
fn stage_list<C: CopyKeeper>(
    alloc: Global,
    copy: &mut C,
    stage: &mut Option<StageState>,
    token: &Token,
    pin: u64,
    rows: &[&Row],
) -> Option<SyncAnswer>
    requires holds { IsStaged (C.stands_for copy.old) stage.old }
    requires last { pin ≤ LAST }
    requires room { kinds_of stage.old < kind_count }
    requires rows { IsList (next_kind stage.old) (map (λ row. row.now) rows.now) }
    ensures on { result ≡ None → stage.new ≡ Some (kind_done stage.old pin token.now) }
    ensures holds { result ≡ None → IsStaged (C.stands_for copy.new) stage.new }
    ensures told { CopyFrom (C.stands_for copy.old) (C.stands_for copy.new) (StagesList (next_kind stage.old) stage.old pin token.now (map (λ row. row.now) rows.now) result) }
    ensures ends { (result ≡ None) ⊎ (IsBroken result ⊎ ((row_limit < length rows.now) × (result ≡ Some (SyncAnswer.TooLarge (next_kind stage.old) (length rows.now))))) }
    ensures later { C.fault_count copy.old ≤ C.fault_count copy.new }
    ensures copy_leads { C.leads copy.old copy.new }
    ensures cause { result ≡ Some SyncAnswer.KeeperFault → Rose (C.fault_count copy.old) (C.fault_count copy.new) }
{
    let kind = kind(stage);
    let total = rows.len() as u64;
    if MAX_ROWS < total {
        return Some(SyncAnswer::TooLarge { kind, total });
    }
    let list = ListAt {
        token,
        pin,
        kind,
        total,
    };
    stage_rows(alloc, copy, stage, list, rows)
}

// The rows that are held of a kind, with those that are put and without those that are gone.
fn merged_rows(alloc: Global, kind: Kind, entries: &Gathered) -> Result<Vec<&Row>, NoMemory>
    requires { MayCome kind entries.now }
    ensures { IfOk result (λ rows. map (λ row. row.now) rows.items ≡ merged entries.now.held entries.now.puts entries.now.gone) }
{
    merge(alloc, kind, entries.held(), entries.puts(), entries.gone())
}

/// Merges what differs of the next kind with the rows that are held of it, and stages the list.
pub fn stage_delta<C: CopyKeeper>(
    alloc: Global,
    copy: &mut C,
    stage: &mut Option<StageState>,
    token: &Token,
    pin: u64,
    entries: &Gathered,
) -> Option<SyncAnswer>
    requires holds { IsStaged (C.stands_for copy.old) stage.old }
    requires last { pin ≤ LAST }
    requires room { kinds_of stage.old < kind_count }
    requires entries { AreEntries (next_kind stage.old) entries.now }
    requires held { (c : Copy) → C.stands_for copy.old c → entries.now.held ≡ held_list c (next_kind stage.old) }
    ensures on { result ≡ None → stage.new ≡ Some (kind_done stage.old pin token.now) }
    ensures holds { result ≡ None → IsStaged (C.stands_for copy.new) stage.new }
    ensures told { CopyFrom (C.stands_for copy.old) (C.stands_for copy.new) (Merges (next_kind stage.old) entries.now stage.old pin token.now result) }
    ensures ends { IfSome result (Unmerged (Rose (C.fault_count copy.old) (C.fault_count copy.new)) (C.stands_for copy.new) (next_kind stage.old) entries.now) }
    ensures later { C.fault_count copy.old ≤ C.fault_count copy.new }
    ensures copy_leads { C.leads copy.old copy.new }
    ensures cause { result ≡ Some SyncAnswer.KeeperFault → Rose (C.fault_count copy.old) (C.fault_count copy.new) }
{
    let kind = kind(stage);
    match merged_rows(alloc, kind, entries) {
        Err(_) => Some(SyncAnswer::NoMemory),
        Ok(rows) => stage_list(alloc, copy, stage, token, pin, rows.as_slice()),
    }
}
