//! Replies that refuse a request.

ghost use Rattle.std.specs.Prelude.{◌≡◌};
ghost use Rattle.hub_spec.specs.requests.Requests.{wanted_by};
ghost use Rattle.std.specs.List.{list_any};
ghost use Rattle.grant_scopes.specs.Opens.{gradebook_kinds, is_kind};
ghost use Rattle.hub_spec.specs.rules.Checks as spec;
ghost use Rattle.hub_spec.specs.rules.Wanted.{takes_writes};
ghost use Rattle.rest_provider.specs.Replies.{pin_reply};

use rest_paths::{Collection, Path, Route};
use roster_base::Refusal;
use roster_values::Kind;
use status_info::{Cause, Reply, Request};
use std::alloc::Global;

/// Why a request has no answer of its own yet: the reply that refuses it, or want of memory.
pub type Stop = Refusal<Reply>;

/// The reply that says the cause and no more; no memory is taken.
pub fn refused(alloc: Global, request: &Request, cause: Cause) -> Reply
    ensures { result ≡ spec.refused (wanted_by request.now) cause }
{
    Reply::failing(alloc, cause, request.echo, request.close)
}

/// The reply that says the cause and the version that it speaks of, and no more; no memory is taken.
pub fn refused_at(alloc: Global, request: &Request, version: u64, cause: Cause) -> Reply
    ensures { result ≡ spec.refused_at (wanted_by request.now) version cause }
{
    let mut reply = refused(alloc, request, cause);
    reply.version = Some(version);
    reply
}

// Whether rows of the kind are written by requests.
fn is_gradebook(kind: Kind) -> bool
    ensures { result ≡ list_any (is_kind kind) gradebook_kinds }
{
    matches!(kind, Kind::Categories | Kind::LineItems | Kind::Results)
}

/// Whether the path takes writes.
pub fn takes_writes(path: &Path) -> bool
    ensures { result ≡ takes_writes path.now }
{
    match path.route() {
        Route::One(Collection::Of(kind)) => is_gradebook(kind),
        _ => false,
    }
}

/// The reply that refuses the method, and says whether the path takes writes.
pub fn method_refused(alloc: Global, request: &Request, path: &Path) -> Reply
    ensures { result ≡ spec.method_refused (wanted_by request.now) path.now }
{
    let mut reply = refused(alloc, request, Cause::MethodNotAllowed);
    reply.allow_write = takes_writes(path);
    reply
}

/// The reply that refuses a pin or a base, with the version that it speaks of and the oldest that may be asked for.
pub fn pin_refused(alloc: Global, request: &Request, version: u64, oldest: u64) -> Reply
    ensures { result ≡ pin_reply (wanted_by request.now) version oldest }
{
    let mut reply = refused_at(alloc, request, version, Cause::VersionNotKept);
    reply.oldest = Some(oldest);
    reply
}
