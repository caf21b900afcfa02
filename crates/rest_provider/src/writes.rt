//! Answers to writes.

ghost use Rattle.std.specs.Prelude.{◌≡◌, ◌≤◌, ℕ, IfOk, false, true};
ghost use Rattle.std.specs.Option.{ForSome};
ghost use Rattle.gradebook_core.specs.Outcomes.{check_number, outcome_number};
ghost use Rattle.hub_core.specs.Standing.{IsStanding, KeeperFits, StandsFrom};
ghost use Rattle.rest_paths.specs.Paths.{IsPath};
ghost use Rattle.hub_spec.specs.requests.Requests.{wanted_by};
ghost use Rattle.hub_spec.specs.rules.Answers as answers;
ghost use Rattle.hub_spec.specs.rules.Wanted as wanting;
ghost use Rattle.keeper_memory.specs.Kept.{KeptState};
ghost use Rattle.rest_provider.specs.Replies.{IsReadOf};
ghost use Rattle.rest_provider.specs.Steps.{CountsFailed, DidRequest, TakesRequest};
ghost use Rattle.rest_provider.specs.Writes.{DidWrite, TakesWrite, asked_at, asked_in_turn, reply_of, stop_reply};
ghost use Rattle.roster_base.specs.Reading.{Gives};
ghost use Rattle.version_core.specs.HubStates.{HubState};
ghost use Rattle.version_core.specs.Outcomes.{deleted_outcome};

use crate::answering::failing;
use crate::checks::{caller_of, path_of};
use crate::reading::Reading;
use crate::reads::sent;
use crate::refusals::{Stop, refused, refused_at};
use gradebook_core::pages::belonging::id_at;
use gradebook_core::{Asking, Check, Outcome, Written, write};
use grant_scopes::Grant;
use hub_core::Hub;
use keeper_memory::HubKeeper;
use rest_paths::{Path, PathRouter};
use roster_base::{Bytes, NoMemory, Refusal, TryCopy};
use roster_texts::{Moment, Name};
use status_info::{Cause, MarkField, Reply, Request, Verb};
use std::alloc::Global;
use version_core::grant_row::GrantRow;
use version_core::mark::Write;
use version_core::table::Table;

/// Who asks, and for which write.
#[derive(Drop)]
pub struct Asked {
    pub by: GrantRow,
    pub write: Write,
}

// Whether the method asks that a row be deleted.
fn is_delete(verb: Verb) -> bool
    ensures { result ≡ wanting.is_delete verb }
{
    matches!(verb, Verb::Delete)
}

// The number of a mark, where there is one.
fn mark_number(mark: MarkField) -> Option<u64>
    ensures { result ≡ wanting.mark_number mark }
{
    match mark {
        MarkField::Number(number) => Some(number),
        _ => None,
    }
}

// The write that a request wants.
fn write_of(alloc: Global, request: &Request, path: &Path) -> Result<Write, NoMemory>
    requires { wanting.takes_writes path.now ≡ true }
    ensures { IfOk result (λ w. w ≡ answers.write_of (wanted_by request.now) path.now) }
{
    // Read for the number of its ids.
    let _ = path.ids();
    Ok(Write {
        delete: is_delete(request.verb),
        kind: path.route().lists().kind(),
        id: id_at(path, 0).copy(alloc)?,
        body: Bytes::from_vec(Vec::from_slice(alloc, request.body.as_slice())?),
    })
}

// The caller with its grant, copied.
fn row_of(alloc: Global, caller: &Name, grant: &Grant) -> Result<GrantRow, NoMemory>
    ensures { IfOk result (λ row. row ≡ record { caller = caller.now; grant = grant.now }) }
{
    Ok(GrantRow {
        caller: caller.copy(alloc)?,
        grant: grant.copy(alloc)?,
    })
}

// The write, by a caller who may ask for it.
fn asked_by(
    alloc: Global,
    request: &Request,
    path: &Path,
    caller: &Name,
    grant: &Grant,
) -> Result<Asked, NoMemory>
    requires { wanting.takes_writes path.now ≡ true }
    ensures { IfOk result (λ a. a ≡ record { by = record { caller = caller.now; grant = grant.now }; write = answers.write_of (wanted_by request.now) path.now }) }
{
    let by = row_of(alloc, caller, grant)?;
    match write_of(alloc, request, path) {
        Ok(write) => Ok(Asked { by, write }),
        Err(error) => {
            drop(by);
            Err(error)
        }
    }
}

// The checks of a write behind those of its path: token, scope, mark.
fn asked_at(alloc: Global, table: &Table, request: &Request, path: &Path) -> Result<Asked, Stop>
    requires { wanting.takes_writes path.now ≡ true }
    ensures { (state : HubState) → IsReadOf table.now state → Gives (λ a. a) result (asked_at state (wanted_by request.now) path.now) }
{
    let newest = table.newest_rows();
    let (caller, grant) = caller_of(alloc, &newest, request)?;
    let reading = Reading {
        request,
        path,
        grant,
        version: table.newest(),
        oldest: table.oldest().max(grant.since),
    };
    match reading.may_write(alloc) {
        Ok(()) => Ok(asked_by(alloc, request, path, caller, grant)?),
        Err(stop) => Err(stop),
    }
}

// All checks of a write before its verdict.
fn asked_in_turn(
    alloc: Global,
    router: &PathRouter,
    table: &Table,
    request: &Request,
) -> Result<Asked, Stop>
    requires { wanting.is_write request.now.verb ≡ true }
    ensures asked { (state : HubState) → IsReadOf table.now state → Gives (λ a. a) result (asked_in_turn state (wanted_by request.now)) }
    ensures path { IfOk result (λ _. ForSome (wanted_by request.now).path IsPath) }
{
    let path = path_of(alloc, router, request)?;
    // Read for what it keeps.
    let _ = path.route();
    asked_at(alloc, table, request, &path)
}

// The cause of the reply that tells of a check which a write fails.
fn cause_of_check(check: Check) -> Cause
    ensures { result ≡ answers.cause_of (check_number check) }
{
    match check {
        Check::MarkOfAnotherWrite => Cause::MarkOfAnotherWrite,
        Check::BadBody => Cause::BadBody,
        Check::NoSuchObject => Cause::NoSuchObject,
        Check::OwnedByAnother => Cause::OwnedByAnother,
        Check::ReferenceOutsideGrant => Cause::ReferenceOutsideGrant,
        Check::ReferenceOfWrongType => Cause::ReferenceOfWrongType,
        Check::TooManyRows => Cause::TooManyRows,
        Check::LastVersion => Cause::LastVersion,
    }
}

// The cause of the reply that tells what a write came to.
fn cause_of(outcome: Outcome) -> Cause
    ensures { result ≡ answers.cause_of (outcome_number outcome) }
{
    match outcome {
        Outcome::Stored => Cause::Stored,
        Outcome::Refused(check) => cause_of_check(check),
        Outcome::Deleted => Cause::Deleted,
    }
}

// The reply that tells what became of a write.
fn reply_of(alloc: Global, request: &Request, written: Written) -> Reply
    requires { written.outcome ≤ deleted_outcome }
    ensures { result ≡ reply_of (wanted_by request.now) written }
{
    let Some(outcome) = Outcome::from_number(written.outcome) else {
        // Each number up to that of a deleted row is that of an outcome.
        unreachable!();
    };
    let mut reply = refused_at(alloc, request, written.version, cause_of(outcome));
    if written.kept {
        reply.mark = mark_number(request.mark);
    }
    reply
}

// Does what is asked for, and tells what became of it.
fn answer_asked<H: HubKeeper>(
    alloc: Global,
    hub: &mut Hub,
    keeper: &mut H,
    request: &Request,
    asked: Asked,
    at: Moment,
) -> Reply
    requires fits { KeeperFits (H.stands_for keeper.old) hub.old }
    requires settled { hub.old.commit_open ≡ false }
    requires path { ForSome (wanted_by request.now).path IsPath }
    requires writes { wanting.is_write request.now.verb ≡ true }
    ensures fits { KeeperFits (H.stands_for keeper.new) hub.new }
    ensures leads { H.leads keeper.old keeper.new }
    ensures step { (failed : ℕ) × CountsFailed (H.fault_count keeper.old) (H.fault_count keeper.new) failed
        × ((after : KeptState) → IsStanding hub.new after → (H.stands_for keeper.new after → H.stands_for keeper.old hub.old.kept)
        × TakesWrite request.now at asked result hub.old.kept after failed) }
    ensures did { DidWrite request.now at asked result hub.old hub.new (H.fault_count keeper.old) (H.fault_count keeper.new) }
{
    // Read for what it keeps.
    let _ = at.milliseconds();
    let Asked { by, write: wanted } = asked;
    let mark = mark_number(request.mark);
    let asking = Asking { by: &by, mark, at };
    let answer = write(alloc, hub, keeper, &asking, wanted);
    drop(by);
    match answer {
        Ok(written) => sent(request, reply_of(alloc, request, written)),
        Err(error) => failing(alloc, request, error),
    }
}

// The reply to a request that a check stops, or want of memory.
fn stopped(alloc: Global, request: &Request, stop: Stop) -> Reply
    ensures { result ≡ stop_reply (wanted_by request.now) stop }
{
    let reply = match stop {
        Refusal::Fault(reply) => reply,
        Refusal::NoMemory => refused(alloc, request, Cause::NoMemory),
    };
    sent(request, reply)
}

/// Answers a request that writes, over a hub that has no commit left open.
pub fn answer_write<H: HubKeeper>(
    alloc: Global,
    router: &PathRouter,
    hub: &mut Hub,
    keeper: &mut H,
    request: &Request,
    at: Moment,
) -> Reply
    requires fits { KeeperFits (H.stands_for keeper.old) hub.old }
    requires settled { hub.old.commit_open ≡ false }
    requires writes { wanting.is_write request.now.verb ≡ true }
    ensures fits { KeeperFits (H.stands_for keeper.new) hub.new }
    ensures leads { H.leads keeper.old keeper.new }
    ensures step { (failed : ℕ) × CountsFailed (H.fault_count keeper.old) (H.fault_count keeper.new) failed
        × StandsFrom (H.stands_for keeper.old) (H.stands_for keeper.new) hub.old hub.new
        (λ before after. TakesRequest request.now at result before after failed) }
    ensures did { DidRequest request.now at result hub.old hub.new (H.fault_count keeper.old) (H.fault_count keeper.new) }
{
    match asked_in_turn(alloc, router, hub.table(), request) {
        Ok(asked) => answer_asked(alloc, hub, keeper, request, asked, at),
        Err(stop) => stopped(alloc, request, stop),
    }
}
