//! The incremental synchronisation.

ghost use Rattle.std.specs.Prelude.{◌≡◌, ◌≢◌, ◌⊎◌, ℕ, ◌+◌, ◌<◌, ◌≤◌, IfErr, IfOk, IfSome, None, Some};
ghost use Rattle.consumer_deltas.specs.DeltaAnswers.{BaseLaw, DeltaLeaves, DeltaTold, HasBase, LacksBase};
ghost use Rattle.consumer_deltas.specs.DeltaCalls.{AnswersPin, AsksDeltas, DeltaBounded, DeltaFaultLaw, DeltaLastLaw};
ghost use Rattle.consumer_deltas.specs.DeltaCalls.{DeltaSynchronised, IsDeltaDone, IsNewPin};
ghost use Rattle.consumer_deltas.specs.DeltaCauses.{DeltaCaused};
ghost use Rattle.exchange_link.specs.Agreement.{StagesAgree};
ghost use Rattle.exchange_link.specs.Between.{call_with, copy_between, link_between};
ghost use Rattle.exchange_link.specs.Completeness.{StandsAt, first_pin};
ghost use Rattle.exchange_link.specs.Exchanges.{LinkState};
ghost use Rattle.exchange_link.specs.Marks.{MarksTold};
ghost use Rattle.exchange_link.specs.Pairs.{AtEach, AtSome, CopyFrom, LinkFrom};
ghost use Rattle.exchange_link.specs.Synchronised.{own_state};
ghost use Rattle.keeper_memory.specs.copy.Copies.{Copy, largest_limit, largest_tries};
ghost use Rattle.keeper_memory.specs.copy.States.{stage_of};
ghost use Rattle.keeper_memory.specs.declared.copy.state.TheConstants.{LAST};
ghost use Rattle.roster_base.specs.Faults.{Rose};

use crate::answer::DeltaAnswer;
use crate::filling::fill;
use crate::request::Asker;
use consumer_sync::run::{drop_other, finish, unentered};
use consumer_sync::staging::broken;
use exchange_link::{Link, begin_run};
use keeper_memory::{CopyKeeper, CopyState};
use roster_base::KeeperError;
use roster_texts::Token;
use std::alloc::Global;

// The version that is held, where it is so under this token.
fn held_under(state: &CopyState, token: &Token) -> Option<u64>
    ensures some { IfSome result (λ base. (state.now.held_token ≡ Some token.now) × (state.now.held ≡ Some base)) }
    ensures none { result ≡ None → state.now.held_token ≡ Some token.now → state.now.held ≡ None }
{
    match &state.held_token {
        Some(held) if held.as_str() == token.as_str() => state.held,
        _ => None,
    }
}

// The base of a call under this token.
fn base_under<C: CopyKeeper>(
    alloc: Global,
    copy: &mut C,
    token: &Token,
) -> Result<Option<u64>, KeeperError>
    ensures some { IfOk result (λ o. IfSome o (λ base. (c : Copy) → C.stands_for copy.new c → HasBase base token.now c)) }
    ensures none { IfOk result (λ o. o ≡ None → (c : Copy) → C.stands_for copy.new c → LacksBase token.now c) }
    ensures low { IfOk result (λ o. IfSome o (λ base. base ≤ LAST)) }
    ensures same { (c : Copy) → C.stands_for copy.new c → C.stands_for copy.old c }
    ensures later { C.fault_count copy.old ≤ C.fault_count copy.new }
    ensures copy_leads { C.leads copy.old copy.new }
    ensures cause { IfErr result (λ e. e ≡ KeeperError.Failed → Rose (C.fault_count copy.old) (C.fault_count copy.new)) }
{
    let state = copy.state(alloc)?;
    Ok(held_under(&state, token))
}

/// Brings what is held to what the token sees of the hub's newest version, or goes on with the stage that stands under
/// the token. It asks for what differs from the held version alone.
pub fn delta_sync<C: CopyKeeper, L: Link>(
    alloc: Global,
    copy: &mut C,
    link: &mut L,
    token: &Token,
    limit: u32,
    tries: u32,
) -> DeltaAnswer
    requires limit { (0 < limit) × (limit ≤ largest_limit) }
    requires tries { (0 < tries) × (tries ≤ largest_tries) }
    // Over any link.
    ensures copy { CopyFrom (C.stands_for copy.old) (C.stands_for copy.new) (DeltaLeaves token.now result) }
    ensures base { CopyFrom (C.stands_for copy.old) (C.stands_for copy.new) (λ before after.
        BaseLaw token.now result before) }
    // Where the keeper failed, a stage under this token ends at the swap alone, or where the hub's reply says that its
    // pin isn't kept.
    ensures faulted { CopyFrom (C.stands_for copy.old) (C.stands_for copy.new) (DeltaFaultLaw token.now (L.kept link.new) result) }
    ensures last_run { CopyFrom (C.stands_for copy.old) (C.stands_for copy.new) (DeltaLastLaw result) }
    ensures cause { DeltaCaused (call_with token.now limit tries) (copy_between C.stands_for C.fault_count copy.old copy.new)
        (link_between L.tells L.asked L.missed L.kept L.fault_count link.old link.new) result }
    ensures later { C.fault_count copy.old ≤ C.fault_count copy.new }
    ensures link_later { L.fault_count link.old ≤ L.fault_count link.new }
    ensures copy_leads { C.leads copy.old copy.new }
    ensures link_leads { L.leads link.old link.new }
    // Over one that tells. Each request asks from the held version on.
    ensures asks { LinkFrom (L.tells link.old) (L.tells link.new) (λ before after.
        AsksDeltas (call_with token.now limit tries) (copy_between C.stands_for C.fault_count copy.old copy.new)
        (link_between L.tells L.asked L.missed L.kept L.fault_count link.old link.new) result before.sent after.sent) }
    // Over one that tells, where copy and link agree.
    ensures told { StagesAgree (C.stands_for copy.old) (L.tells link.old)
        → AtEach (C.stands_for copy.new) (L.tells link.new) (λ after tells.
        AtSome (C.stands_for copy.old) (L.tells link.old) (λ before told.
        DeltaSynchronised token.now result before told after tells)) }
    ensures bound { StagesAgree (C.stands_for copy.old) (L.tells link.old)
        → AtEach (C.stands_for copy.new) (L.tells link.new) (λ after tells.
        (before : Copy) × (told : LinkState) × C.stands_for copy.old before × L.tells link.old told
        × (n : ℕ) × (L.asked link.new ≤ L.asked link.old + n)
        × ((n ≡ 0) ⊎ ((base : ℕ) × HasBase base token.now before
        × DeltaBounded n tries limit token.now base (own_state token.now (stage_of before)) (IsNewPin (AnswersPin result) after told.hub tells.hub) tells.hub))) }
    ensures cause_told { StagesAgree (C.stands_for copy.old) (L.tells link.old)
        → AtEach (C.stands_for copy.new) (L.tells link.new) (λ after tells.
        (told : LinkState) × L.tells link.old told × DeltaTold token.now told tells result) }
    ensures complete { StagesAgree (C.stands_for copy.old) (L.tells link.old)
        → ¬ Rose (L.fault_count link.old) (L.fault_count link.new) → ¬ Rose (C.fault_count copy.old) (C.fault_count copy.new)
        → AtEach (C.stands_for copy.new) (L.tells link.new) (λ after tells.
        AtSome (C.stands_for copy.old) (L.tells link.old) (λ before told.
        before.run ≢ LAST → ¬ Rose told.hub_faults tells.hub_faults → StandsAt (first_pin (own_state token.now (stage_of before)) told.hub) token.now tells.hub
        → (base : ℕ) → HasBase base token.now before → StandsAt base token.now tells.hub → IsDeltaDone result)) }
    // Where they agreed on marks before, they still do.
    ensures marks { AtEach (C.stands_for copy.old) (L.tells link.old) MarksTold
        → AtEach (C.stands_for copy.new) (L.tells link.new) MarksTold }
{
    let base = match base_under(alloc, copy, token) {
        Ok(Some(base)) => base,
        Ok(None) => return DeltaAnswer::NoBase,
        Err(error) => {
            return DeltaAnswer::Ended {
                answer: broken(error),
            };
        }
    };
    let state = match begin_run(alloc, copy) {
        Ok(state) => state,
        Err(error) => {
            return DeltaAnswer::Ended {
                answer: unentered(error),
            };
        }
    };
    // Under which token something is held was looked at before.
    drop(state.held_token);
    let mut stage = match drop_other(alloc, copy, state.stage, token) {
        Ok(begun) => begun,
        Err(answer) => return DeltaAnswer::Ended { answer },
    };
    let by = Asker {
        token,
        base,
        limit: limit as u64,
        run: state.run,
        tries: tries as u64,
    };
    if let Some(answer) = fill(alloc, copy, link, &mut stage, by) {
        return answer;
    }
    match stage {
        // All kinds are done, so that a stage stands.
        None => unreachable!(),
        Some(s) => DeltaAnswer::Ended {
            answer: finish(alloc, copy, s.pin),
        },
    }
}
