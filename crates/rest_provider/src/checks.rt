//! The checks that a read meets on its way.

ghost use Rattle.std.specs.Prelude.{◌≡◌, ◌≤◌, true, ◌&&◌, not, nat_lt, if◌then◌else◌, IfOk, Ok, Err, Some};
ghost use Rattle.hub_spec.specs.requests.Requests.{wanted_by};
ghost use Rattle.hub_spec.specs.rules.Checks as spec;
ghost use Rattle.hub_spec.specs.rules.Verdicts.{newest_in};
ghost use Rattle.hub_spec.specs.rules.Wanted.{access_of, allows, is_good_mark};
ghost use Rattle.rest_provider.specs.Replies.{IsReadOf, path_checked, pin_reply};
ghost use Rattle.roster_base.specs.Reading.{Gives};
ghost use Rattle.roster_texts.specs.Results.{found_or};
ghost use Rattle.status_info.specs.declared.cause.Cause.TheVariants as cause;
ghost use Rattle.version_core.specs.HubStates.{HubState};
ghost use Rattle.version_core.specs.Version.{newest_of, oldest_of};
ghost use Rattle.version_core.specs.declared.grant_row.GrantRow.{GrantRow};

use crate::refusals::{Stop, method_refused, pin_refused, refused, takes_writes};
use filter_grammar::pin_of;
use grant_scopes::{Access, Grant};
use rest_paths::{Path, PathRouter};
use roster_base::Refusal;
use roster_texts::Name;
use status_info::{Cause, MarkField, Request, Verb};
use std::alloc::Global;
use version_core::table::Table;
use version_core::view::VersionView;

/// What a request with this method does with the rows of its path.
pub fn access_of(verb: Verb) -> Access
    ensures { result ≡ access_of verb }
{
    match verb {
        Verb::Put => Access::Put,
        Verb::Delete => Access::Delete,
        _ => Access::Read,
    }
}

/// Whether a mark is none or a number.
pub fn is_good_mark(mark: MarkField) -> bool
    ensures { result ≡ is_good_mark mark }
{
    match mark {
        MarkField::Bad => false,
        _ => true,
    }
}

// Whether the path takes the method.
fn allows(path: &Path, verb: Verb) -> bool
    ensures { result ≡ allows path.now verb }
{
    match verb {
        Verb::Get => true,
        Verb::Put | Verb::Delete => takes_writes(path),
        _ => false,
    }
}

// The check of the method.
fn allowed(alloc: Global, request: &Request, path: &Path) -> Result<(), Stop>
    ensures { Gives (λ _. true) result (spec.check (allows path.now (wanted_by request.now).verb) (spec.method_refused (wanted_by request.now) path.now)) }
{
    if allows(path, request.verb) {
        Ok(())
    } else {
        Err(Refusal::Fault(method_refused(alloc, request, path)))
    }
}

/// The request's path, where it is one and takes the method.
pub fn path_of(alloc: Global, router: &PathRouter, request: &Request) -> Result<Path, Stop>
    ensures path { Gives (λ p. p) result (path_checked (wanted_by request.now)) }
    ensures same { IfOk result (λ p. (wanted_by request.now).path ≡ Some p) }
{
    let Some(path) = Path::read(alloc, router, request.path.as_str())? else {
        return Err(Refusal::Fault(refused(alloc, request, Cause::NoSuchPath)));
    };
    allowed(alloc, request, &path)?;
    Ok(path)
}

/// Who asks: the caller that has the request's token in the newest version, with its grant.
pub fn caller_of<'v>(
    alloc: Global,
    newest: &'v VersionView<'_>,
    request: &Request,
) -> Result<(&'v Name, &'v Grant), Stop>
    ensures { (state : HubState) → newest_in state ≡ newest.now
        → Gives (λ c. record { caller = c.0.now; grant = c.1.now }) result (found_or (spec.refused (wanted_by request.now) cause.NoKnownToken) (spec.grant_in state (wanted_by request.now).token)) }
{
    let found = match &request.token {
        Some(token) => newest.caller_of(token.as_str()),
        None => None,
    };
    match found {
        Some(caller) => Ok(caller),
        None => Err(Refusal::Fault(refused(alloc, request, Cause::NoKnownToken))),
    }
}

// The pin, where it may be read from the oldest open version to the newest.
fn pinned(alloc: Global, request: &Request, oldest: u64, newest: u64, pin: u64) -> Result<u64, Stop>
    ensures { Gives (λ v. v) result (if not (nat_lt pin oldest) && not (nat_lt newest pin) then Ok pin else Err (pin_reply (wanted_by request.now) newest oldest)) }
{
    if oldest <= pin && pin <= newest {
        Ok(pin)
    } else {
        Err(Refusal::Fault(pin_refused(alloc, request, newest, oldest)))
    }
}

/// The version that is read: the pin, where a caller with a grant since this version may read it, or the newest without
/// one.
pub fn version_read(
    alloc: Global,
    table: &Table,
    since: u64,
    request: &Request,
) -> Result<u64, Stop>
    ensures read { (state : HubState) (by : GrantRow) → IsReadOf table.now state → by.grant.since ≡ since
        → Gives (λ v. v) result (spec.version_read state by (wanted_by request.now) (wanted_by request.now).pin) }
    ensures oldest { IfOk result (λ v. (oldest_of table.now).number ≤ v) }
    ensures newest { IfOk result (λ v. v ≤ (newest_of table.now).number) }
{
    let oldest = table.oldest();
    let newest = table.newest();
    match pin_of(request.query.as_str()) {
        Some(pin) => pinned(alloc, request, oldest.max(since), newest, pin),
        None => Ok(newest),
    }
}
