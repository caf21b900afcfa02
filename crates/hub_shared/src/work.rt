//! What the calls under the lock do to the hub.

ghost use Rattle.std.specs.Prelude.{◌≡◌, false};
ghost use Rattle.hub_core.specs.Standing.{KeeperFits};
ghost use Rattle.hub_core.specs.Works.{Did};
ghost use Rattle.hub_core.specs.declared.hub_error.HubError.TheVariants as error;
ghost use Rattle.keeper_memory.specs.Kept.{KeptState};

use grant_scopes::GrantList;
use hub_core::{Hub, HubError, Published};
use keeper_memory::HubKeeper;
use rest_paths::PathRouter;
use rest_provider::answer;
use roster_texts::Moment;
use roster_types::set::RosterSet;
use status_info::{Reply, Request};
use std::alloc::Global;

/// A call's own work, which is done where the hub has no commit left open.
pub trait Work<H: HubKeeper> {
    ghost use Rattle.hub_core.specs.declared.hub_error.HubError.{HubError};
    ghost use Rattle.keeper_memory.specs.Kept.{KeptState};

    type Answer: Drop;

    /// What an answer says of what is kept before the call and after it.
    ghost asks: { Self → Self.Answer → KeptState → KeptState → Type 0 };

    /// The answer that tells a failure.
    ghost fails: { Self → HubError → Self.Answer };

    fn run(self, alloc: Global, hub: &mut Hub, keeper: &mut H) -> Self::Answer
        requires fits { KeeperFits (H.stands_for keeper.old) hub.old }
        requires settled { hub.old.commit_open ≡ false }
        ensures fits { KeeperFits (H.stands_for keeper.new) hub.new }
        ensures told { (now : KeptState) → H.stands_for keeper.new now → (before : KeptState) × H.stands_for keeper.old before }
        ensures did { Did (asks self) (fails self error.Keeper) result hub.old hub.new (H.fault_count keeper.old) (H.fault_count keeper.new) };
}

/// A request at a moment, which is to be answered.
#[derive(Drop)]
pub struct Asking<'a> {
    pub router: &'a PathRouter,
    pub request: &'a Request,
    pub at: Moment,
}

impl<'a, H: HubKeeper> Work<H> for Asking<'a> {
    ghost use Rattle.hub_spec.specs.requests.Requests.{wanted_by};
    ghost use Rattle.rest_provider.specs.Steps.{TakesRequest, error_reply};

    type Answer = Reply;

    ghost asks = { λ a reply before after. TakesRequest a.request.now a.at reply before after 0 };

    ghost fails = { λ a fault. error_reply (wanted_by a.request.now) fault };

    fn run(self, alloc: Global, hub: &mut Hub, keeper: &mut H) -> Reply {
        answer(alloc, self.router, hub, keeper, self.request, self.at)
    }
}

/// A set, which is to be published at a moment.
#[derive(Drop)]
pub struct Publishing {
    pub set: RosterSet,
    pub at: Moment,
}

impl<H: HubKeeper> Work<H> for Publishing {
    ghost use Rattle.std.specs.Prelude.{Err};
    ghost use Rattle.hub_core.specs.Steps.{MakesNext};
    ghost use Rattle.hub_shared.specs.Standings.{Unfailed};
    ghost use Rattle.version_changes.specs.sets.Applying.{Applies};

    type Answer = Result<Published, HubError>;

    ghost asks = { λ p. Unfailed (MakesNext (λ version. Applies version p.set p.at)) (Err error.Keeper) };

    ghost fails = { λ _ fault. Err fault };

    fn run(self, alloc: Global, hub: &mut Hub, keeper: &mut H) -> Result<Published, HubError> {
        let Publishing { set, at } = self;
        hub.publish(alloc, keeper, set, at)
    }
}

/// A list of what callers ask for, which is to be granted at a moment.
#[derive(Drop)]
pub struct Granting<'a> {
    pub list: &'a GrantList,
    pub at: Moment,
}

impl<'a, H: HubKeeper> Work<H> for Granting<'a> {
    ghost use Rattle.std.specs.Prelude.{Err};
    ghost use Rattle.hub_core.specs.Steps.{MakesNext};
    ghost use Rattle.hub_shared.specs.Standings.{Unfailed};
    ghost use Rattle.version_changes.specs.grants.Granting.{GrantsMake};

    type Answer = Result<Published, HubError>;

    ghost asks = { λ g. Unfailed (MakesNext (λ version. GrantsMake version g.list.now g.at)) (Err error.Keeper) };

    ghost fails = { λ _ fault. Err fault };

    fn run(self, alloc: Global, hub: &mut Hub, keeper: &mut H) -> Result<Published, HubError> {
        hub.set_grants(alloc, keeper, self.list, self.at)
    }
}
