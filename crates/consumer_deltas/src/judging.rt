//! What a reply to a request for what differs means.

ghost use Rattle.std.specs.Prelude.{◌≡◌, ◌<◌, ◌^◌, IfOk, IfSome, option_copied};
ghost use Rattle.std.specs.List.{All};
ghost use Rattle.consumer_deltas.specs.DeltaJudging.{ArePuts, MayCome, base_act, closed_act, count_in, delta_judged};
ghost use Rattle.consumer_deltas.specs.DeltaJudging.{differing_act, entries_of, ids_ascend, lost_act, page_act};
ghost use Rattle.consumer_deltas.specs.DeltaJudging.{part_act};
ghost use Rattle.roster_values.specs.declared.kind.Kind.{Kind as Kinds};

use crate::fitting::fits_on;
use crate::gathered::{Entries, Gathered};
use consumer_sync::judging::{MAX_ROWS, ascend, is_above, is_none_or};
use http_wire::WireReply;
use roster_base::{Items, NoMemory, Refusal};
use roster_texts::Id;
use roster_values::Kind;
use row_json::{read_collection, read_gone};
use std::alloc::Global;

/// The most entries of a delta: each row of a kind may be gone, and as many may be put.
pub const MAX_ENTRIES: u64 = 2 * MAX_ROWS;

/// What follows from a reply.
#[derive(Drop)]
pub enum DeltaAct {
    /// The entries follow those that came.
    Take { pin: u64, page: Entries, total: u64 },
    /// The kind isn't opened, and is staged as empty.
    Close { pin: u64 },
    /// The hub keeps the pinned version no longer.
    PinGone { pin: u64, oldest: u64 },
    /// The hub keeps the base no longer.
    BaseGone { oldest: u64 },
    /// The hub knows no such token.
    UnknownToken,
    /// The delta has more entries than one may have.
    TooLarge { total: u64 },
    /// No hub gives this reply.
    BadReply,
    /// The keeper of the hub failed.
    HubFault,
    /// The hub wanted memory.
    HubNoMemory,
}

/// The request for a page of a kind's delta: the base that is asked from, how many entries are asked for, the pin,
/// where there is one, and whether of the kind nothing is staged and nothing came in this call.
#[derive(Clone, Copy)]
pub struct Place {
    pub kind: Kind,
    pub base: u64,
    pub limit: u64,
    pub pin: Option<u64>,
    pub is_fresh: bool,
}

// Whether the ids rise, from above the last one on.
fn are_ascending(last: Option<&Id>, ids: &[Id]) -> bool
    ensures { result ≡ ids_ascend (option_copied last.entry) ids.now }
{
    let mut below = last;
    for id in ids {
        if !is_above(below, id) {
            return false;
        }
        below = Some(id);
    }
    true
}

// A version isn't kept: the base, unless the reply says that it is kept.
fn judge_base(base: u64, oldest: u64) -> DeltaAct
    ensures act { result ≡ base_act base oldest }
    ensures kinds { (kind : Kinds) → ArePuts kind result }
{
    if base < oldest {
        DeltaAct::BaseGone { oldest }
    } else {
        DeltaAct::BadReply
    }
}

// A version isn't kept: the pin, or else the base.
fn judge_lost(base: u64, pin: Option<u64>, oldest: Option<u64>) -> DeltaAct
    ensures act { result ≡ lost_act base pin oldest }
    ensures kinds { (kind : Kinds) → ArePuts kind result }
{
    match (pin, oldest) {
        (_, None) => DeltaAct::BadReply,
        (None, Some(oldest)) => judge_base(base, oldest),
        (Some(pin), Some(oldest)) => {
            if pin < oldest {
                DeltaAct::PinGone { pin, oldest }
            } else {
                judge_base(base, oldest)
            }
        }
    }
}

// The kind isn't opened, which no hub says of one of which something came already.
fn judge_closed(pin: Option<u64>, is_fresh: bool, version: Option<u64>) -> DeltaAct
    ensures act { result ≡ closed_act pin is_fresh version }
    ensures kinds { (kind : Kinds) → ArePuts kind result }
{
    match version {
        None => DeltaAct::BadReply,
        Some(version) => {
            if is_none_or(pin, version) && is_fresh {
                DeltaAct::Close { pin: version }
            } else {
                DeltaAct::BadReply
            }
        }
    }
}

// The entries of a page at a version, of so many of the delta in all.
fn judge_part(place: Place, sofar: &Gathered, version: u64, total: u64, page: Entries) -> DeltaAct
    requires few { count_in sofar.now < 2 ^ 64 }
    requires come { MayCome place.kind sofar.now }
    requires kinds { All (λ row. row.kind ≡ place.kind) page.puts }
    ensures act { result ≡ part_act place.kind sofar.now place.limit version total page }
    ensures kinds { ArePuts place.kind result }
{
    let left = total.saturating_sub(sofar.count());
    let count = page.puts.as_slice().len() as u64 + page.gone.as_slice().len() as u64;
    if count != place.limit.min(left) {
        DeltaAct::BadReply
    } else if !ascend(sofar.last_put(), page.puts.as_slice()) {
        DeltaAct::BadReply
    } else if !are_ascending(sofar.last_gone(), page.gone.as_slice()) {
        DeltaAct::BadReply
    } else if !fits_on(place.kind, sofar, &page) {
        DeltaAct::BadReply
    } else {
        DeltaAct::Take {
            pin: version,
            page,
            total,
        }
    }
}

// The entries that the body of a page says; none where it can't be read.
fn read_page(alloc: Global, kind: Kind, body: &[u8]) -> Result<Option<Entries>, NoMemory>
    ensures entries { IfOk result (λ o. o ≡ entries_of kind body.now) }
    ensures kinds { IfOk result (λ o. IfSome o (λ page. All (λ row. row.kind ≡ kind) page.puts)) }
{
    match read_collection(alloc, kind, body) {
        Ok(rows) => match read_gone(alloc, body) {
            Ok(ids) => Ok(Some(Entries {
                puts: Items::from_vec(rows),
                gone: Items::from_vec(ids),
            })),
            Err(Refusal::Fault(_)) => Ok(None),
            Err(Refusal::NoMemory) => Err(NoMemory),
        },
        Err(Refusal::Fault(_)) => Ok(None),
        Err(Refusal::NoMemory) => Err(NoMemory),
    }
}

// A page whose body is still to be read.
fn judge_page(
    alloc: Global,
    place: Place,
    sofar: &Gathered,
    version: u64,
    total: u64,
    body: &[u8],
) -> Result<DeltaAct, NoMemory>
    requires few { count_in sofar.now < 2 ^ 64 }
    requires come { MayCome place.kind sofar.now }
    ensures act { IfOk result (λ a. a ≡ page_act place.kind sofar.now place.pin place.limit version total body.now) }
    ensures kinds { IfOk result (ArePuts place.kind) }
{
    if !is_none_or(place.pin, version) {
        return Ok(DeltaAct::BadReply);
    }
    if MAX_ENTRIES < total {
        return Ok(DeltaAct::TooLarge { total });
    }
    if !is_none_or(sofar.total(), total) {
        return Ok(DeltaAct::BadReply);
    }
    let Some(page) = read_page(alloc, place.kind, body)? else {
        return Ok(DeltaAct::BadReply);
    };
    Ok(judge_part(place, sofar, version, total, page))
}

// A reply that tells what differs, where it tells up to which version, and how many entries there are in all.
fn judge_differing(
    alloc: Global,
    place: Place,
    sofar: &Gathered,
    version: Option<u64>,
    total: Option<u64>,
    body: &[u8],
) -> Result<DeltaAct, NoMemory>
    requires few { count_in sofar.now < 2 ^ 64 }
    requires come { MayCome place.kind sofar.now }
    ensures act { IfOk result (λ a. a ≡ differing_act place.kind sofar.now place.pin place.limit version total body.now) }
    ensures kinds { IfOk result (ArePuts place.kind) }
{
    match (version, total) {
        (Some(version), Some(total)) => judge_page(alloc, place, sofar, version, total, body),
        _ => Ok(DeltaAct::BadReply),
    }
}

/// What the own reply to the request for the next page of a kind's delta means.
pub fn judge(
    alloc: Global,
    place: Place,
    sofar: &Gathered,
    reply: &WireReply,
) -> Result<DeltaAct, NoMemory>
    requires few { count_in sofar.now < 2 ^ 64 }
    requires come { MayCome place.kind sofar.now }
    ensures act { IfOk result (λ a. a ≡ delta_judged place sofar.now reply.now) }
    // The rows that it carries are of the kind that was asked for.
    ensures kinds { IfOk result (ArePuts place.kind) }
{
    match reply.status {
        200 => judge_differing(
            alloc,
            place,
            sofar,
            reply.version,
            reply.total,
            reply.body.as_slice(),
        ),
        403 => Ok(judge_closed(place.pin, place.is_fresh, reply.version)),
        404 => Ok(judge_lost(place.base, place.pin, reply.oldest)),
        401 => Ok(DeltaAct::UnknownToken),
        500 => Ok(DeltaAct::HubFault),
        503 => Ok(DeltaAct::HubNoMemory),
        _ => Ok(DeltaAct::BadReply),
    }
}
