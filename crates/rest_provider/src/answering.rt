//! Answers of a hub over its keeper.

ghost use Rattle.std.specs.Prelude.{◌≡◌, ℕ, false, true};
ghost use Rattle.hub_core.specs.Standing.{KeeperFits, StandsFrom};
ghost use Rattle.hub_spec.specs.requests.Requests.{wanted_by};
ghost use Rattle.hub_spec.specs.rules.Wanted.{is_write};
ghost use Rattle.hub_core.specs.declared.hub_error.HubError.{HubError};
ghost use Rattle.rest_provider.specs.Steps.{CountsFailed, DidReloadRequest, DidRequest, TakesRequest, error_reply};

use crate::reads::{answer_read, sent};
use crate::refusals::refused;
use crate::writes::answer_write;
use hub_core::{Hub, HubError};
use keeper_memory::HubKeeper;
use rest_paths::PathRouter;
use roster_texts::Moment;
use status_info::{Cause, Reply, Request, Verb};
use std::alloc::Global;

/// The reply where the hub's keeper or memory failed.
pub fn failing(alloc: Global, request: &Request, error: HubError) -> Reply
    ensures { result ≡ error_reply (wanted_by request.now) error }
{
    let cause = match error {
        HubError::Keeper => Cause::StoreFailed,
        _ => Cause::NoMemory,
    };
    sent(request, refused(alloc, request, cause))
}

/// Whether the method asks for a write.
pub fn is_write(verb: Verb) -> bool
    ensures { result ≡ is_write verb }
{
    matches!(verb, Verb::Put | Verb::Delete)
}

// Answers a request over a hub that has no commit left open.
fn answer_settled<H: HubKeeper>(
    alloc: Global,
    router: &PathRouter,
    hub: &mut Hub,
    keeper: &mut H,
    request: &Request,
    at: Moment,
) -> Reply
    requires fits { KeeperFits (H.stands_for keeper.old) hub.old }
    requires settled { hub.old.commit_open ≡ false }
    ensures fits { KeeperFits (H.stands_for keeper.new) hub.new }
    ensures leads { H.leads keeper.old keeper.new }
    ensures step { (failed : ℕ) × CountsFailed (H.fault_count keeper.old) (H.fault_count keeper.new) failed
        × StandsFrom (H.stands_for keeper.old) (H.stands_for keeper.new) hub.old hub.new
        (λ before after. TakesRequest request.now at result before after failed) }
    ensures did { DidRequest request.now at result hub.old hub.new (H.fault_count keeper.old) (H.fault_count keeper.new) }
{
    if is_write(request.verb) {
        answer_write(alloc, router, hub, keeper, request, at)
    } else {
        answer_read(alloc, router, hub.table(), request)
    }
}

/// Answers a request at a moment, over a hub and its keeper. The keeper is asked first what it made of a commit at
/// which it failed, where there is one. What a keeper's failure or want of memory left is told by the reply.
pub fn answer<H: HubKeeper>(
    alloc: Global,
    router: &PathRouter,
    hub: &mut Hub,
    keeper: &mut H,
    request: &Request,
    at: Moment,
) -> Reply
    requires { KeeperFits (H.stands_for keeper.old) hub.old }
    ensures fits { KeeperFits (H.stands_for keeper.new) hub.new }
    ensures leads { H.leads keeper.old keeper.new }
    // What may stand after the call comes of what may have stood before it, by one step that takes the request and has
    // this reply.
    ensures step { (failed : ℕ) × CountsFailed (H.fault_count keeper.old) (H.fault_count keeper.new) failed
        × StandsFrom (H.stands_for keeper.old) (H.stands_for keeper.new) hub.old hub.new
        (λ before after. TakesRequest request.now at result before after failed) }
    // Over a hub with no commit left open, what it made is the last commit, if anything.
    ensures did { hub.old.commit_open ≡ false → DidRequest request.now at result hub.old hub.new (H.fault_count keeper.old) (H.fault_count keeper.new) }
    ensures reloads { DidReloadRequest request.now at result hub.old hub.new (H.fault_count keeper.old) (H.fault_count keeper.new) }
    // A commit is open after the call only where the reply tells that the store failed, or that memory is wanting.
    ensures open { hub.new.commit_open ≡ true → (fault : HubError) × (result ≡ error_reply (wanted_by request.now) fault) }
    ensures keeps { hub.new.keeps ≡ hub.old.keeps }
{
    // Who sees what, and what belongs to a path, is found by references, so they are indexed first.
    hub.index();
    match hub.ready(alloc, keeper) {
        Ok(()) => answer_settled(alloc, router, hub, keeper, request, at),
        Err(error) => failing(alloc, request, error),
    }
}
