//! Page after page, until the delta of a kind is whole.

ghost use Rattle.std.specs.Prelude.{◌≡◌, ◌+◌, ◌-◌, ◌^◌, ◌<◌, ◌≤◌, false, Err, IfErr, IfOk, IfSome, OnOk, Some};
ghost use Rattle.consumer_deltas.specs.DeltaAnswers.{DeltaTold};
ghost use Rattle.consumer_deltas.specs.DeltaFilling.{IsPinGone};
ghost use Rattle.consumer_deltas.specs.DeltaGathering.{IsGathered, Stops, ending_of, most_asked};
ghost use Rattle.consumer_deltas.specs.DeltaJudging.{ArePuts, MayCome, count_in, delta_judged, is_whole, with_page};
ghost use Rattle.consumer_deltas.specs.DeltaRequests.{IsDeltaUnder, page_asked};
ghost use Rattle.consumer_deltas.specs.DeltaTelling.{MayAsk, PagesTold};
ghost use Rattle.consumer_sync.specs.Requests.{IsUnmarked};
ghost use Rattle.exchange_link.specs.Exchanges.{LinkState};
ghost use Rattle.exchange_link.specs.Asked.{SendsOn};
ghost use Rattle.exchange_link.specs.Calls.{CanTry, CountsOn, IsRunNumber, last_exchange};
ghost use Rattle.exchange_link.specs.Causes.{IsMore, IsOwnReply, IsPageStatus, MissedTries};
ghost use Rattle.exchange_link.specs.DeltaPages.{delta_page_request};
ghost use Rattle.exchange_link.specs.Owning.{IsOwnRead};
ghost use Rattle.exchange_link.specs.Pairs.{LinkFrom};
ghost use Rattle.exchange_link.specs.Requests.{Asks, IsReady, number};
ghost use Rattle.http_wire.specs.declared.reply_reading.WireReply.{WireReply as Reply};
ghost use Rattle.keeper_memory.specs.copy.Copies.{largest_limit};
ghost use Rattle.keeper_memory.specs.copy.Lists.{IsList};

use crate::answer::DeltaAnswer;
use crate::gathered::{Entries, Gathered};
use crate::judging::{DeltaAct, Place, judge};
use crate::request::{Asker, fetch};
use exchange_link::{Link, Outcome, SyncAnswer};
use roster_base::Items;
use roster_types::row::Row;
use std::alloc::Global;

/// The delta of a kind, whole, at a version.
#[derive(Drop)]
pub enum Delta {
    /// The kind isn't opened.
    Closed { pin: u64 },
    Whole { pin: u64, entries: Gathered },
}

/// The answer of a call that ends as a synchronisation ends.
pub fn ended(answer: SyncAnswer) -> DeltaAnswer
    ensures { result ≡ DeltaAnswer.Ended answer }
{
    DeltaAnswer::Ended { answer }
}

// The answer of an act that ends the pages.
fn ending(act: DeltaAct, place: Place, offset: u64) -> DeltaAnswer
    ensures { result ≡ ending_of act place offset }
{
    let kind = place.kind;
    match act {
        DeltaAct::PinGone { pin, oldest } => ended(SyncAnswer::PinGone { pin, oldest }),
        DeltaAct::BaseGone { oldest } => DeltaAnswer::BaseGone {
            held: place.base,
            oldest,
        },
        DeltaAct::UnknownToken => ended(SyncAnswer::UnknownToken),
        DeltaAct::TooLarge { total } => ended(SyncAnswer::TooLarge { kind, total }),
        DeltaAct::HubFault => ended(SyncAnswer::HubFault),
        DeltaAct::HubNoMemory => ended(SyncAnswer::HubNoMemory),
        DeltaAct::Take { .. } => ended(SyncAnswer::BadReply { kind, offset }),
        DeltaAct::Close { .. } => ended(SyncAnswer::BadReply { kind, offset }),
        DeltaAct::BadReply => ended(SyncAnswer::BadReply { kind, offset }),
    }
}

// What the hub's answer to the request for the next page means.
fn next_act<L: Link>(
    alloc: Global,
    link: &mut L,
    by: Asker<'_>,
    place: Place,
    sofar: &Gathered,
    count: &mut u64,
) -> Result<DeltaAct, DeltaAnswer>
    requires few_came { count_in sofar.now < 2 ^ 64 }
    requires come { MayCome place.kind sofar.now }
    requires limit { place.limit < 2 ^ 64 }
    requires base { place.base < 2 ^ 64 }
    requires pin { IfSome place.pin (λ n. n < 2 ^ 64) }
    requires run { IsRunNumber by.run }
    requires tries { CanTry by.tries }
    requires few { count.old + by.tries ≤ last_exchange }
    ensures count { CountsOn count.old by.entry.tries count.new }
    ensures asked { IsMore (L.asked link.old) (count.new - count.old) (L.asked link.new) }
    ensures later { L.fault_count link.old ≤ L.fault_count link.new }
    ensures link_leads { L.leads link.old link.new }
    ensures act { IfOk result (λ a. (w : Reply) × IsOwnReply (L.kept link.new) by.entry.run count.new w × (a ≡ delta_judged place sofar.now w)) }
    ensures kinds { IfOk result (ArePuts place.kind) }
    ensures cause { IfErr result (Stops (L.kept link.new) by.entry.run count.new (MissedTries by.entry.tries (L.missed link.new) count.new (L.fault_count link.old) (L.fault_count link.new)) place sofar.now.held) }
    ensures gone { IfErr result (λ a. IsPinGone a → ⊥) }
    // Over a link that tells, where no number was used twice, the reply is the hub's own.
    ensures told { (after : LinkState) → L.tells link.new after → (before : LinkState) × L.tells link.old before
        × Asks by.entry.run count.old count.new IsUnmarked before after
        × (IsReady by.entry.run count.old before.sent → IfOk result (λ a. (w : Reply) × IsOwnRead before after (delta_page_request (page_asked by.entry.token.now place (count_in sofar.now)) place.base (number by.entry.run count.new)) w × (a ≡ delta_judged place sofar.now w)))
        × IfErr result (DeltaTold by.entry.token.now before after) }
    ensures asks { LinkFrom (L.tells link.old) (L.tells link.new) (λ before after.
        SendsOn (IsDeltaUnder by.entry.token.now place.limit place.base) by.entry.run count.old count.new (result ≡ Err (DeltaAnswer.Ended SyncAnswer.NoMemory)) before.sent after.sent) }
{
    let kind = place.kind;
    let offset = sofar.count();
    match fetch(alloc, link, by, place, offset, count) {
        Outcome::Own(reply) => match judge(alloc, place, sofar, &reply) {
            Ok(act) => Ok(act),
            Err(_) => Err(ended(SyncAnswer::NoMemory)),
        },
        Outcome::NoReply => Err(ended(SyncAnswer::BadReply { kind, offset })),
        Outcome::Missed => Err(ended(SyncAnswer::Interrupted { kind, offset })),
        Outcome::NoMemory => Err(ended(SyncAnswer::NoMemory)),
    }
}

// The place of the next page: at the pin, and behind what came.
fn behind(place: Place, pin: u64) -> Place
    ensures { result ≡ record place { pin = Some pin; is_fresh = false } }
{
    Place {
        pin: Some(pin),
        is_fresh: false,
        ..place
    }
}

// Adds the entries of a page, and tells whether all have come.
fn add(sofar: &mut Gathered, page: Entries, total: u64) -> Result<bool, DeltaAnswer>
    requires { count_in (with_page sofar.old page total) < 2 ^ 64 }
    ensures added { OnOk result (sofar.new ≡ with_page sofar.old page total) }
    ensures whole { IfOk result (λ whole. whole ≡ is_whole (with_page sofar.old page total)) }
    ensures wants { IfErr result (λ a. a ≡ DeltaAnswer.Ended SyncAnswer.NoMemory) }
{
    match sofar.add(page, total) {
        Ok(()) => Ok(sofar.is_whole()),
        Err(_) => Err(ended(SyncAnswer::NoMemory)),
    }
}

/// Asks for the whole delta of a kind from the base on, page after page, each judged by the rows that are held. The pin
/// is that of `place`, or the version that the first page tells.
pub fn gather<L: Link>(
    alloc: Global,
    link: &mut L,
    by: Asker<'_>,
    place: Place,
    held: Items<Row>,
    count: &mut u64,
) -> Result<Delta, DeltaAnswer>
    requires held { IsList place.kind held }
    requires limit { (0 < place.limit) × (place.limit ≤ largest_limit) }
    requires base { place.base < 2 ^ 64 }
    requires pin { IfSome place.pin (λ n. n < 2 ^ 64) }
    requires run { IsRunNumber by.run }
    requires tries { CanTry by.tries }
    requires few { count.old + most_asked ≤ last_exchange }
    ensures whole { IfOk result (IsGathered place held) }
    ensures cause { IfErr result (Stops (L.kept link.new) by.entry.run count.new (MissedTries by.entry.tries (L.missed link.new) count.new (L.fault_count link.old) (L.fault_count link.new)) place held) }
    ensures count { (count.old ≤ count.new) × (count.new ≤ count.old + most_asked) }
    ensures asked { IsMore (L.asked link.old) (count.new - count.old) (L.asked link.new) }
    ensures later { L.fault_count link.old ≤ L.fault_count link.new }
    ensures link_leads { L.leads link.old link.new }
    ensures page { IfOk result (λ d. (w : Reply) → IsOwnReply (L.kept link.new) by.entry.run count.new w → IsPageStatus w.status) }
    ensures asks { LinkFrom (L.tells link.old) (L.tells link.new) (λ before after.
        SendsOn (IsDeltaUnder by.entry.token.now place.limit place.base) by.entry.run count.old count.new (result ≡ Err (DeltaAnswer.Ended SyncAnswer.NoMemory)) before.sent after.sent) }
    // Over a link that tells; and where no number was used twice.
    ensures told { (after : LinkState) → L.tells link.new after → (before : LinkState) × L.tells link.old before
        × Asks by.entry.run count.old count.new IsUnmarked before after
        × (IsReady by.entry.run count.old before.sent → MayAsk before.hub by.entry.token.now place held → PagesTold before after by.entry.token.now place by.entry.tries (count.new - count.old) result) }
{
    let mut sofar = Gathered::new(alloc, held);
    let mut here = place;
    'pages: loop {
        match next_act(alloc, link, by, here, &sofar, count) {
            Err(answer) => return Err(answer),
            Ok(act) => match act {
                DeltaAct::Take { pin, page, total } => match add(&mut sofar, page, total) {
                    Err(answer) => return Err(answer),
                    Ok(whole) => {
                        if whole {
                            return Ok(Delta::Whole {
                                pin,
                                entries: sofar,
                            });
                        }
                        here = behind(here, pin);
                    }
                },
                DeltaAct::Close { pin } => return Ok(Delta::Closed { pin }),
                other => return Err(ending(other, here, sofar.count())),
            },
        }
    }
}
