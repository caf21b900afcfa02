//! The merged rows of a kind, put into the copy's stage page by page.

ghost use Rattle.std.specs.Prelude.{◌≡◌, ◌⊎◌, ◌+◌, ◌-◌, ◌^◌, ◌<◌, ◌≤◌, [], true, drop, min, None, Some, IfOk, length};
ghost use Rattle.std.specs.Prelude.{map, option_copied, take};
ghost use Rattle.consumer_deltas.specs.declared.staged.TheConstants.{PAGE};
ghost use Rattle.std.specs.List.{All};
ghost use Rattle.consumer_deltas.specs.DeltaStaging.{Stages, above, following};
ghost use Rattle.consumer_sync.specs.Judging.{kind_done, opened, paged};
ghost use Rattle.consumer_sync.specs.Staging.{Adds, IsBroken};
ghost use Rattle.exchange_link.specs.Pairs.{CopyFrom};
ghost use Rattle.exchange_link.specs.Places.{IsStaged, kinds_of, last_of, staged_of};
ghost use Rattle.keeper_memory.specs.copy.Copies.{Copy};
ghost use Rattle.keeper_memory.specs.copy.Lists.{IsList, ascends, kind_count};
ghost use Rattle.keeper_memory.specs.declared.copy.state.TheConstants.{LAST};
ghost use Rattle.roster_base.specs.Faults.{Rose};
ghost use Rattle.roster_values.specs.Kinds.{place_of_kind};

use consumer_sync::judging::{is_above, last, staged};
use consumer_sync::staging::{StagedPage, take_page};
use exchange_link::SyncAnswer;
use keeper_memory::{CopyKeeper, StageState};
use roster_base::{Items, NoMemory, TryCopy};
use roster_texts::{Id, Token};
use roster_types::row::Row;
use roster_values::Kind;
use std::alloc::Global;

/// The most rows of a page of the stage.
const PAGE: usize = 1_000;

/// Which list is staged: under which token, at which version of the hub, of which kind, and how many rows it has.
#[derive(Clone, Copy)]
pub struct ListAt<'a> {
    pub token: &'a Token,
    pub pin: u64,
    pub kind: Kind,
    pub total: u64,
}

// The rows from the first one on whose id is above `last`.
fn rows_above<'a, 'r>(rows: &'a [&'r Row], last: Option<&Id>) -> &'a [&'r Row]
    ensures { map (λ row. row.now) result.now ≡ above (option_copied last.entry) (map (λ row. row.now) rows.now) }
{
    for (place, row) in rows.iter().enumerate() {
        if is_above(last, row.id()) {
            return &rows[place..];
        }
    }
    &rows[rows.len()..]
}

// The first `most` rows, or all where there are fewer.
fn first_rows<'a, 'r>(rows: &'a [&'r Row], most: u64) -> &'a [&'r Row]
    ensures rows { map (λ row. row.now) result.now ≡ take most (map (λ row. row.now) rows.now) }
    ensures few { length result.now ≤ most }
{
    &rows[..rows.len().min(most as usize)]
}

// How many rows of the list aren't staged yet.
fn missing(stage: &Option<StageState>, rows: &[&Row]) -> u64
    ensures missing { result ≡ length (map (λ row. row.now) rows.now) - staged_of stage.now }
    ensures small { staged_of stage.now + result < 2 ^ 64 }
{
    (rows.len() as u64).saturating_sub(staged(stage))
}

// The rows that follow those which are staged, as many as aren't staged yet.
fn rows_following<'a, 'r>(stage: &Option<StageState>, rows: &'a [&'r Row]) -> &'a [&'r Row]
    ensures rows { map (λ row. row.now) result.now ≡ following stage.now (map (λ row. row.now) rows.now) }
    ensures few { staged_of stage.now + length result.now < 2 ^ 64 }
{
    let most = missing(stage, rows);
    let behind = rows_above(rows, last(stage));
    first_rows(behind, most)
}

// A page of the rows, from a place on.
fn page_from<'a, 'r>(rows: &'a [&'r Row], from: usize) -> &'a [&'r Row]
    requires { from ≤ length rows.now }
    ensures rows { map (λ row. row.now) result.now ≡ take PAGE (drop from (map (λ row. row.now) rows.now)) }
    ensures count { length result.now ≡ min PAGE (length rows.now - from) }
{
    first_rows(&rows[from..], PAGE as u64)
}

// Copies of the rows.
fn copies(alloc: Global, rows: &[&Row]) -> Result<Items<Row>, NoMemory>
    ensures { IfOk result (λ copied. copied ≡ map (λ row. row.now) rows.now) }
{
    let mut copied = Vec::new(alloc);
    for row in rows {
        copied.push(row.copy(alloc)?)?;
    }
    Ok(Items::from_vec(copied))
}

// Stages one page of a list. Where `done` is true, it is the last page.
fn stage_page<C: CopyKeeper>(
    alloc: Global,
    copy: &mut C,
    stage: &mut Option<StageState>,
    list: ListAt<'_>,
    rows: &[&Row],
    done: bool,
) -> Option<SyncAnswer>
    requires holds { IsStaged (C.stands_for copy.old) stage.old }
    requires last { list.pin ≤ LAST }
    requires room { kinds_of stage.old < kind_count }
    requires kind { place_of_kind list.kind ≡ kinds_of stage.old }
    requires kinds { All (λ row. row.kind ≡ list.kind) (map (λ row. row.now) rows.now) }
    requires ascend { ascends (last_of stage.old) (map (λ row. row.now) rows.now) ≡ true }
    requires fits { staged_of stage.old + length rows.now < 2 ^ 64 }
    ensures on { result ≡ None → stage.new ≡ Some (paged (opened stage.old list.entry.pin list.entry.token.now) (map (λ row. row.now) rows.now) list.entry.total done) }
    ensures holds { result ≡ None → IsStaged (C.stands_for copy.new) stage.new }
    ensures told { CopyFrom (C.stands_for copy.old) (C.stands_for copy.new) (Adds (record { pin = list.entry.pin; rows = map (λ row. row.now) rows.now; total = list.entry.total; done = done }) list.entry.token.now result) }
    ensures broken { (result ≡ None) ⊎ IsBroken result }
    ensures later { C.fault_count copy.old ≤ C.fault_count copy.new }
    ensures copy_leads { C.leads copy.old copy.new }
    ensures cause { result ≡ Some SyncAnswer.KeeperFault → Rose (C.fault_count copy.old) (C.fault_count copy.new) }
{
    match copies(alloc, rows) {
        Ok(rows) => {
            let page = StagedPage {
                kind: list.kind,
                rows,
                total: list.total,
                done,
            };
            take_page(alloc, copy, stage, list.token, list.pin, page)
        }
        Err(_) => Some(SyncAnswer::NoMemory),
    }
}

/// Stages the rows of a kind that follow those which are staged, page after page. Behind the last page the kind is
/// done.
pub fn stage_rows<C: CopyKeeper>(
    alloc: Global,
    copy: &mut C,
    stage: &mut Option<StageState>,
    list: ListAt<'_>,
    rows: &[&Row],
) -> Option<SyncAnswer>
    requires holds { IsStaged (C.stands_for copy.old) stage.old }
    requires last { list.pin ≤ LAST }
    requires room { kinds_of stage.old < kind_count }
    requires kind { place_of_kind list.kind ≡ kinds_of stage.old }
    requires rows { IsList list.kind (map (λ row. row.now) rows.now) }
    ensures on { result ≡ None → stage.new ≡ Some (kind_done stage.old list.entry.pin list.entry.token.now) }
    ensures holds { result ≡ None → IsStaged (C.stands_for copy.new) stage.new }
    ensures told { CopyFrom (C.stands_for copy.old) (C.stands_for copy.new) (Stages (record { pin = list.entry.pin; rows = following stage.old (map (λ row. row.now) rows.now); total = list.entry.total; done = true }) list.entry.token.now result) }
    ensures broken { (result ≡ None) ⊎ IsBroken result }
    ensures later { C.fault_count copy.old ≤ C.fault_count copy.new }
    ensures copy_leads { C.leads copy.old copy.new }
    ensures cause { result ≡ Some SyncAnswer.KeeperFault → Rose (C.fault_count copy.old) (C.fault_count copy.new) }
{
    let behind = rows_following(stage, rows);
    let mut from: usize = 0;
    'pages: while behind.len() - from > PAGE {
        let page = page_from(behind, from);
        match stage_page(alloc, copy, stage, list, page, false) {
            None => {}
            answer => return answer,
        }
        from += PAGE;
    }
    let page = page_from(behind, from);
    stage_page(alloc, copy, stage, list, page, true)
}
