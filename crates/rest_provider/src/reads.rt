//! Answers to reads.

ghost use Rattle.std.specs.Prelude.{◌≡◌, ◌⊎◌, false, Result, Some, ℤ};
ghost use Rattle.hub_spec.specs.requests.Requests.{AnswersRequest, wanted_by};
ghost use Rattle.hub_spec.specs.rules.Answers.{either, sent};
ghost use Rattle.hub_spec.specs.rules.Checks as spec;
ghost use Rattle.hub_spec.specs.rules.Reads.{read_result};
ghost use Rattle.hub_spec.specs.rules.Wanted.{is_head, is_write};
ghost use Rattle.rest_provider.specs.Replies.{IsReadOf, entry, out_of_memory, read_by_token, read_in_turn};
ghost use Rattle.roster_base.specs.Reading.{Gives};
ghost use Rattle.status_info.specs.declared.cause.Cause.TheVariants as cause;
ghost use Rattle.status_info.specs.declared.reply.Reply.{Reply as Replies};
ghost use Rattle.version_core.specs.HubStates.{HubState};
ghost use Rattle.version_core.specs.declared.grant_row.GrantRow.{GrantRow};

use crate::checks::{caller_of, path_of, version_read};
use crate::reading::Reading;
use crate::refusals::{Stop, refused};
use grant_scopes::Grant;
use rest_paths::{Path, PathRouter};
use roster_base::Refusal;
use status_info::{Cause, Reply, Request, Verb};
use std::alloc::Global;
use version_core::table::Table;

// The read by a caller with this grant.
fn read_granted(
    alloc: Global,
    table: &Table,
    request: &Request,
    path: &Path,
    grant: &Grant,
) -> Result<Reply, Stop>
    ensures { (state : HubState) (by : GrantRow) → IsReadOf table.now state → by.grant ≡ grant.now → (wanted_by request.now).path ≡ Some path.now
        → Gives (λ r. r) result (read_result state (wanted_by request.now) (entry path.now by)) }
{
    let version = version_read(alloc, table, grant.since, request)?;
    let reading = Reading {
        request,
        path,
        grant,
        version,
        oldest: table.oldest().max(grant.since),
    };
    reading.answer(alloc, table)
}

// The read of a path, by the caller that the request's token names.
fn read_path(alloc: Global, table: &Table, request: &Request, path: &Path) -> Result<Reply, Stop>
    ensures { (state : HubState) → IsReadOf table.now state → (wanted_by request.now).path ≡ Some path.now
        → Gives (λ r. r) result (read_by_token state (wanted_by request.now) path.now) }
{
    let newest = table.newest_rows();
    let (_, grant) = caller_of(alloc, &newest, request)?;
    read_granted(alloc, table, request, path, grant)
}

// All checks of a read.
fn read(alloc: Global, router: &PathRouter, table: &Table, request: &Request) -> Result<Reply, Stop>
    ensures { (state : HubState) → IsReadOf table.now state → Gives (λ r. r) result (read_in_turn state (wanted_by request.now)) }
{
    let path = path_of(alloc, router, request)?;
    read_path(alloc, table, request, &path)
}

// The reply of a read, whether it answers or refuses, or the one that tells of want of memory.
fn settled(alloc: Global, request: &Request, read: Result<Reply, Stop>) -> Reply
    ensures { (own : Result Replies Replies) → Gives (λ r. r) read own → (result ≡ either own) ⊎ (result ≡ spec.refused (wanted_by request.now) cause.NoMemory) }
{
    match read {
        Ok(reply) => reply,
        Err(Refusal::Fault(reply)) => reply,
        Err(Refusal::NoMemory) => refused(alloc, request, Cause::NoMemory),
    }
}

// Whether the method asks for a reply without its body.
fn is_head(verb: Verb) -> bool
    ensures { result ≡ is_head verb }
{
    matches!(verb, Verb::Head)
}

/// The reply as it is sent: to a HEAD without its body.
pub fn sent(request: &Request, reply: Reply) -> Reply
    ensures { result ≡ sent (wanted_by request.now) reply }
{
    let mut reply = reply;
    reply.headless = is_head(request.verb);
    reply
}

/// The hub's reply to a request that writes nothing, at the versions of the table; where memory runs out, the reply
/// that says so.
pub fn answer_read(alloc: Global, router: &PathRouter, table: &Table, request: &Request) -> Reply
    requires { is_write request.now.verb ≡ false }
    ensures { (state : HubState) → IsReadOf table.now state
        → (result ≡ out_of_memory (wanted_by request.now)) ⊎ ((at : ℤ) → AnswersRequest state request.now at result state) }
{
    sent(
        request,
        settled(alloc, request, read(alloc, router, table, request)),
    )
}
