//! Kind after kind, until all are staged.

ghost use Rattle.std.specs.Prelude.{◌≡◌, ◌⊎◌, ◌+◌, ◌-◌, ◌^◌, ◌<◌, ◌≤◌, ℕ, [], true, None, Some, IfSome};
ghost use Rattle.consumer_deltas.specs.DeltaAnswers.{HasBase};
ghost use Rattle.consumer_deltas.specs.DeltaCalls.{AsksSome};
ghost use Rattle.consumer_deltas.specs.DeltaCauses.{RepliesIf, RepliesOn};
ghost use Rattle.consumer_deltas.specs.DeltaFilling.{CanStage, DeltaEnds, FillTold, Halts, IsPinGone, KindTold, LetsGo};
ghost use Rattle.consumer_deltas.specs.DeltaFilling.{StagesKind, StandsOn, Unstaged, first_place, pin_in};
ghost use Rattle.consumer_deltas.specs.DeltaGathering.{most_asked};
ghost use Rattle.consumer_deltas.specs.DeltaRequests.{IsDeltaUnder};
ghost use Rattle.consumer_sync.specs.Faulted.{SaysGone};
ghost use Rattle.consumer_sync.specs.Filling.{HasToken};
ghost use Rattle.consumer_sync.specs.Judging.{kind_done};
ghost use Rattle.consumer_sync.specs.Requests.{IsUnmarked};
ghost use Rattle.consumer_deltas.specs.declared.judging.Place.{Place as Placed};
ghost use Rattle.exchange_link.specs.Agreement.{CopyFits};
ghost use Rattle.exchange_link.specs.Asked.{SendsOn};
ghost use Rattle.exchange_link.specs.Calls.{CanTry, IsRunNumber, last_exchange};
ghost use Rattle.exchange_link.specs.Causes.{IsMore, IsOwnReply, IsPageStatus, MissedTries};
ghost use Rattle.exchange_link.specs.Exchanges.{LinkState};
ghost use Rattle.exchange_link.specs.Pairs.{AtEach, CopyFrom, LinkFrom};
ghost use Rattle.exchange_link.specs.Places.{IsStaged, kinds_of, next_kind};
ghost use Rattle.exchange_link.specs.Requests.{Asks, IsReady};
ghost use Rattle.exchange_link.specs.Synchronised.{StageOn};
ghost use Rattle.http_wire.specs.declared.reply_reading.WireReply.{WireReply as Reply};
ghost use Rattle.keeper_memory.specs.copy.Copies.{Copy, held_list, largest_limit};
ghost use Rattle.keeper_memory.specs.copy.Lists.{kind_count};
ghost use Rattle.keeper_memory.specs.declared.copy.state.TheConstants.{LAST};
ghost use Rattle.roster_base.specs.Faults.{Rose};

use crate::answer::DeltaAnswer;
use crate::gathering::{Delta, ended, gather};
use crate::judging::Place;
use crate::merged::stage_delta;
use crate::request::Asker;
use consumer_sync::filling::KINDS;
use consumer_sync::judging::{kind, kinds_done, pin, staged};
use consumer_sync::staging::{StagedPage, broken, take_page};
use exchange_link::{Link, SyncAnswer};
use keeper_memory::{CopyChange, CopyKeeper, StageState};
use roster_base::Items;
use roster_texts::Token;
use std::alloc::Global;

// Lets the stage go whose pin is gone, and keeps it under any other answer.
fn let_go<C: CopyKeeper>(alloc: Global, copy: &mut C, answer: DeltaAnswer) -> DeltaAnswer
    ensures told { CopyFrom (C.stands_for copy.old) (C.stands_for copy.new) (LetsGo answer result) }
    ensures ends { (result ≡ answer) ⊎ (((result ≡ DeltaAnswer.Ended SyncAnswer.KeeperFault) × Rose (C.fault_count copy.old) (C.fault_count copy.new)) ⊎ (result ≡ DeltaAnswer.Ended SyncAnswer.NoMemory)) }
    ensures keeps { (IsPinGone answer → ⊥) → result ≡ answer }
    ensures later { C.fault_count copy.old ≤ C.fault_count copy.new }
    ensures copy_leads { C.leads copy.old copy.new }
{
    match answer {
        DeltaAnswer::Ended {
            answer: SyncAnswer::PinGone { .. },
        } => match copy.commit(alloc, CopyChange::Drop) {
            Ok(()) => answer,
            Err(error) => DeltaAnswer::Ended {
                answer: broken(error),
            },
        },
        _ => answer,
    }
}

// The place of the first page of the next kind.
fn first_page(stage: &Option<StageState>, by: Asker<'_>) -> Place
    requires room { kinds_of stage.now < kind_count }
    ensures place { result ≡ first_place stage.now by.entry.base by.entry.limit }
    ensures pin { IfSome result.pin (λ n. n < 2 ^ 64) }
{
    Place {
        kind: kind(stage),
        base: by.base,
        limit: by.limit,
        pin: pin(stage),
        is_fresh: staged(stage) == 0,
    }
}

// Stages what was gathered of the next kind.
fn stage_kind<C: CopyKeeper>(
    alloc: Global,
    copy: &mut C,
    stage: &mut Option<StageState>,
    token: &Token,
    delta: Delta,
) -> Option<SyncAnswer>
    requires holds { IsStaged (C.stands_for copy.old) stage.old }
    requires room { kinds_of stage.old < kind_count }
    requires gathered { CanStage (next_kind stage.old) delta }
    requires held { (c : Copy) → C.stands_for copy.old c → StandsOn (held_list c (next_kind stage.old)) delta }
    ensures on { result ≡ None → stage.new ≡ Some (kind_done stage.old (pin_in delta) token.now) }
    ensures holds { result ≡ None → IsStaged (C.stands_for copy.new) stage.new }
    ensures told { CopyFrom (C.stands_for copy.old) (C.stands_for copy.new) (StagesKind delta (next_kind stage.old) stage.old token.now result) }
    ensures ends { IfSome result (Unstaged (Rose (C.fault_count copy.old) (C.fault_count copy.new)) (C.stands_for copy.new) (next_kind stage.old) delta) }
    ensures later { C.fault_count copy.old ≤ C.fault_count copy.new }
    ensures copy_leads { C.leads copy.old copy.new }
{
    match delta {
        Delta::Closed { pin } => {
            let kind = kind(stage);
            // Read for the bound that its contract gives: fewer than 2 ^ 64 rows are staged.
            let _staged = staged(stage);
            let page = StagedPage {
                kind,
                rows: Items::new(alloc),
                total: 0,
                done: true,
            };
            take_page(alloc, copy, stage, token, pin, page)
        }
        Delta::Whole { pin, entries } => stage_delta(alloc, copy, stage, token, pin, &entries),
    }
}

// Asks for what differs of the next kind, and stages it.
fn fill_kind<C: CopyKeeper, L: Link>(
    alloc: Global,
    copy: &mut C,
    link: &mut L,
    stage: &mut Option<StageState>,
    by: Asker<'_>,
    count: &mut u64,
) -> Option<DeltaAnswer>
    requires holds { IsStaged (C.stands_for copy.old) stage.old }
    requires token { HasToken by.token.now stage.old }
    requires room { kinds_of stage.old < kind_count }
    requires base { by.base ≤ LAST }
    requires run { IsRunNumber by.run }
    requires limit { (0 < by.limit) × (by.limit ≤ largest_limit) }
    requires tries { CanTry by.tries }
    requires few { count.old + most_asked ≤ last_exchange }
    ensures on { result ≡ None → (v : ℕ) × (stage.new ≡ Some (kind_done stage.old v by.entry.token.now)) }
    ensures holds { result ≡ None → IsStaged (C.stands_for copy.new) stage.new }
    ensures copy { (after : Copy) → C.stands_for copy.new after → (before : Copy) × C.stands_for copy.old before
        × (DeltaEnds by.entry.token.now by.entry.base result before after × (StageOn by.entry.token.now before.stage after.stage ⊎ SaysGone (L.kept link.new))) }
    ensures cause { IfSome result (Halts (L.kept link.new) by.entry.run count.new (MissedTries by.entry.tries (L.missed link.new) count.new (L.fault_count link.old) (L.fault_count link.new)) (Rose (C.fault_count copy.old) (C.fault_count copy.new)) (C.stands_for copy.new) (first_place stage.old by.entry.base by.entry.limit)) }
    ensures page { result ≡ None → (w : Reply) → IsOwnReply (L.kept link.new) by.entry.run count.new w → IsPageStatus w.status }
    ensures exact { IfSome result (λ a. (w : Reply) → IsOwnReply (L.kept link.new) by.entry.run count.new w → RepliesIf (first_place stage.old by.entry.base by.entry.limit) w a) }
    ensures count { (count.old ≤ count.new) × (count.new ≤ count.old + most_asked) }
    ensures asked { IsMore (L.asked link.old) (count.new - count.old) (L.asked link.new) }
    ensures link { LinkFrom (L.tells link.old) (L.tells link.new) (Asks by.entry.run count.old count.new IsUnmarked) }
    ensures asks { LinkFrom (L.tells link.old) (L.tells link.new) (λ before after.
        SendsOn (IsDeltaUnder by.entry.token.now by.entry.limit by.entry.base) by.entry.run count.old count.new (result ≡ Some (DeltaAnswer.Ended SyncAnswer.NoMemory)) before.sent after.sent) }
    ensures link_later { L.fault_count link.old ≤ L.fault_count link.new }
    ensures later { C.fault_count copy.old ≤ C.fault_count copy.new }
    ensures copy_leads { C.leads copy.old copy.new }
    ensures link_leads { L.leads link.old link.new }
    // Over a link that tells, where no number was used twice, and copy and link agree.
    ensures told { AtEach (C.stands_for copy.new) (L.tells link.new) (λ after t.
        (before : Copy) × (told : LinkState) × C.stands_for copy.old before × L.tells link.old told
        × Asks by.entry.run count.old count.new IsUnmarked told t
        × (IsReady by.entry.run count.old told.sent → CopyFits before told.hub → HasBase by.entry.base by.entry.token.now before
        → KindTold by.entry.token.now by.entry.limit by.entry.tries by.entry.base (count.new - count.old) stage.old stage.new result told t after)) }
{
    let place = first_page(stage, by);
    match copy.held(alloc, place.kind) {
        Err(error) => Some(ended(broken(error))),
        Ok(held) => match gather(alloc, link, by, place, held, count) {
            Err(answer) => Some(let_go(alloc, copy, answer)),
            Ok(delta) => match stage_kind(alloc, copy, stage, by.token, delta) {
                None => None,
                Some(answer) => Some(DeltaAnswer::Ended { answer }),
            },
        },
    }
}

/// Stages, kind after kind, the rows that are held, changed by what differs. `None`: all kinds are done.
pub fn fill<C: CopyKeeper, L: Link>(
    alloc: Global,
    copy: &mut C,
    link: &mut L,
    stage: &mut Option<StageState>,
    by: Asker<'_>,
) -> Option<DeltaAnswer>
    requires holds { IsStaged (C.stands_for copy.old) stage.old }
    requires token { HasToken by.token.now stage.old }
    requires few { kinds_of stage.old ≤ kind_count }
    requires base { by.base ≤ LAST }
    requires run { IsRunNumber by.run }
    requires limit { (0 < by.limit) × (by.limit ≤ largest_limit) }
    requires tries { CanTry by.tries }
    ensures holds { result ≡ None → IsStaged (C.stands_for copy.new) stage.new }
    ensures done { result ≡ None → kinds_of stage.new ≡ kind_count }
    ensures copy { (after : Copy) → C.stands_for copy.new after → (before : Copy) × C.stands_for copy.old before
        × (DeltaEnds by.entry.token.now by.entry.base result before after × (StageOn by.entry.token.now before.stage after.stage ⊎ SaysGone (L.kept link.new))) }
    ensures cause { (place : Placed) × (n : ℕ) × (place.base ≡ by.entry.base) × (place.limit ≡ by.entry.limit) × IsMore (L.asked link.old) n (L.asked link.new)
        × IfSome result (Halts (L.kept link.new) by.entry.run n (MissedTries by.entry.tries (L.missed link.new) n (L.fault_count link.old) (L.fault_count link.new)) (Rose (C.fault_count copy.old) (C.fault_count copy.new)) (C.stands_for copy.new) place)
        × ((w : Reply) → IsOwnReply (L.kept link.new) by.entry.run n w → RepliesOn place w result) }
    ensures link { (after : LinkState) → L.tells link.new after → (before : LinkState) × L.tells link.old before
        × (count : ℕ) × Asks by.entry.run 0 count IsUnmarked before after }
    ensures asks { (count : ℕ) × IsMore (L.asked link.old) count (L.asked link.new) × IfSome result (λ a. AsksSome a count)
        × LinkFrom (L.tells link.old) (L.tells link.new) (λ before after.
        SendsOn (IsDeltaUnder by.entry.token.now by.entry.limit by.entry.base) by.entry.run 0 count (result ≡ Some (DeltaAnswer.Ended SyncAnswer.NoMemory)) before.sent after.sent) }
    ensures later { C.fault_count copy.old ≤ C.fault_count copy.new }
    ensures link_later { L.fault_count link.old ≤ L.fault_count link.new }
    ensures copy_leads { C.leads copy.old copy.new }
    ensures link_leads { L.leads link.old link.new }
    // Over a link that tells, where no number was used twice, and copy and link agree.
    ensures told { AtEach (C.stands_for copy.old) (L.tells link.old) (λ c t.
        CopyFits c t.hub × IsReady by.entry.run 0 t.sent × HasBase by.entry.base by.entry.token.now c)
        → AtEach (C.stands_for copy.new) (L.tells link.new) (λ c t.
        (before : LinkState) × L.tells link.old before × (n : ℕ) × (L.asked link.new ≤ L.asked link.old + n) × Asks by.entry.run 0 n IsUnmarked before t
        × FillTold by.entry.token.now by.entry.limit by.entry.tries by.entry.base n stage.old stage.new result before t c) }
{
    let mut count: u64 = 0;
    'kinds: while kinds_done(stage) < KINDS {
        match fill_kind(alloc, copy, link, stage, by, &mut count) {
            None => {}
            answer => return answer,
        }
    }
    None
}
