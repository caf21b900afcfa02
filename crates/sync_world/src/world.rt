//! A hub over its keeper in memory.

ghost use Rattle.std.specs.Prelude.{◌≡◌, [], IfOk, OnErr, OnOk, false, true};
ghost use Rattle.hub_spec.specs.rules.Runs.{Publish, SetGrants};
ghost use Rattle.hub_spec.specs.rules.States.{IsHub};
ghost use Rattle.hub_spec.specs.rules.Wanted.{is_write};
ghost use Rattle.keeper_memory.specs.Calls.{CallsLead};
ghost use Rattle.keeper_memory.specs.Failures.{with_listed};
ghost use Rattle.keeper_memory.specs.Kept.{oldest_kept};
ghost use Rattle.keeper_memory.specs.Parts.{IsPartOf};
ghost use Rattle.sync_world.specs.Worlds.{IsWhole, all_of};
ghost use Rattle.hub_core.specs.Steps.{CountsFault, RefusesNothing};
ghost use Rattle.sync_world.specs.Acts.{Makes, TakesOne};

use crate::gone::hold_oldest;
use crate::rows::{read_set, read_tables};
use grant_scopes::GrantList;
use hub_core::{Hub, HubError, Published};
use keeper_memory::{HubKeeper, MemHub};
use rest_paths::PathRouter;
use rest_provider::answer;
use rest_provider::answering::{failing, is_write};
use roster_base::{KeeperError, NoMemory};
use roster_texts::Moment;
use roster_types::set::RosterSet;
use status_info::{Reply, Request};
use std::alloc::Global;
use std::marker::Model;
use std::mem::replace;
use version_core::change::BaseVersion;
use version_core::hub_tables::tables_stand_for_states;

/// A hub over its keeper in memory, and copies of the versions that the keeper lets go. A clause sees the state with
/// all versions that were ever published, and how many calls of the keeper failed.
#[derive(Drop)]
pub struct World {
    router: PathRouter,
    hub: Hub,
    keeper: MemHub,
    // Versions from 0 on, at least all that the keeper keeps no longer.
    gone: Vec<BaseVersion>,
}

impl Model for World {
    ghost use Rattle.sync_world.specs.Worlds.{HeldWorld, IsWorld, world_in};

    ghost Value = { HeldWorld };

    ghost view = { world_in };

    ghost invariant = { IsWorld };
}

// Has a keeper tell what it keeps, of which all rows are read.
fn read_keeper(alloc: Global, keeper: &mut MemHub) -> Result<(), HubError>
    requires { (oldest_kept keeper.old.kept.versions).number ≡ 0 }
    ensures kept { keeper.new.kept ≡ keeper.old.kept }
    ensures whole { OnOk result (IsWhole [] keeper.old.kept) }
    ensures cause { CountsFault keeper.old.plan.faults keeper.new.plan.faults result }
    ensures calls { CallsLead keeper.old.plan keeper.new.plan }
{
    let tables = keeper.load(alloc)?;
    read_tables(&tables);
    tables_stand_for_states();
    drop(tables);
    Ok(())
}

impl World {
    /// A hub of what this keeper keeps, which is all that was ever published.
    pub fn over(alloc: Global, keeper: MemHub) -> Result<World, HubError>
        requires { (oldest_kept keeper.kept.versions).number ≡ 0 }
        ensures state { IfOk result (λ world. world.state ≡ all_of keeper.kept) }
        ensures faults { IfOk result (λ world. world.faults ≡ world.plan.faults) }
        ensures calls { IfOk result (λ world. CallsLead keeper.plan world.plan) }
    {
        let mut keeper = keeper;
        let router = PathRouter::new(alloc)?;
        read_keeper(alloc, &mut keeper)?;
        let hub = Hub::open(alloc, &mut keeper)?;
        Ok(World {
            router,
            hub,
            keeper,
            gone: Vec::new(alloc),
        })
    }

    // The hub's reply to a read.
    fn take_read(&mut self, alloc: Global, request: &Request, at: Moment) -> Reply
        requires { is_write request.now.verb ≡ false }
        ensures step { TakesOne request.now at result self.old self.new }
        ensures calls { CallsLead self.old.plan self.new.plan }
    {
        answer(
            alloc,
            &self.router,
            &mut self.hub,
            &mut self.keeper,
            request,
            at,
        )
    }

    // The hub's reply to a write. The oldest version is held before, which the keeper may let go then.
    fn take_write(&mut self, alloc: Global, request: &Request, at: Moment) -> Reply
        ensures step { TakesOne request.now at result self.old self.new }
        ensures calls { CallsLead self.old.plan self.new.plan }
    {
        match hold_oldest(alloc, &mut self.keeper, &mut self.gone) {
            Err(error) => failing(alloc, request, HubError::from(error)),
            Ok(()) => answer(
                alloc,
                &self.router,
                &mut self.hub,
                &mut self.keeper,
                request,
                at,
            ),
        }
    }

    /// Has the hub take a request at a moment, and gives its reply.
    pub fn take(&mut self, alloc: Global, request: &Request, at: Moment) -> Reply
        ensures step { TakesOne request.now at result self.old self.new }
        ensures calls { CallsLead self.old.plan self.new.plan }
    {
        if is_write(request.verb) {
            self.take_write(alloc, request, at)
        } else {
            self.take_read(alloc, request, at)
        }
    }

    /// Publishes a set at a moment: one step of the hub.
    pub fn publish(
        &mut self,
        alloc: Global,
        set: RosterSet,
        at: Moment,
    ) -> Result<Published, HubError>
        ensures { Makes (Publish set at) result self.old self.new }
    {
        // Read for what they keep.
        read_set(&set);
        let _ = at.milliseconds();
        match hold_oldest(alloc, &mut self.keeper, &mut self.gone) {
            Ok(()) => self.hub.publish(alloc, &mut self.keeper, set, at),
            Err(error) => {
                drop(set);
                Err(HubError::from(error))
            }
        }
    }

    /// Gives each caller of a list what it asks for, and takes all other grants away, at a moment: one step of the hub.
    pub fn set_grants(
        &mut self,
        alloc: Global,
        list: &GrantList,
        at: Moment,
    ) -> Result<Published, HubError>
        ensures { Makes (SetGrants list.now at) result self.old self.new }
    {
        // Read for what they keep.
        let _ = list.entries();
        let _ = at.milliseconds();
        match hold_oldest(alloc, &mut self.keeper, &mut self.gone) {
            Ok(()) => self.hub.set_grants(alloc, &mut self.keeper, list, at),
            Err(error) => Err(HubError::from(error)),
        }
    }

    /// Drops the hub, and opens it again from its keeper, which leaves the state. Where that fails, the hub goes on as
    /// it was.
    pub fn reopen(&mut self, alloc: Global) -> Result<(), HubError>
        ensures state { self.new.state ≡ self.old.state }
        ensures cause { CountsFault self.old.faults self.new.faults result }
        ensures refused { RefusesNothing result }
        ensures calls { CallsLead self.old.plan self.new.plan }
    {
        match Hub::open(alloc, &mut self.keeper) {
            Ok(hub) => {
                drop(replace(&mut self.hub, hub));
                Ok(())
            }
            Err(error) => Err(error),
        }
    }

    /// Lists one commit more of the keeper that fails, behind what it does or before that.
    pub fn list_commit(&mut self, acted: bool, commit: u64) -> Result<(), NoMemory>
        ensures state { self.new.state ≡ self.old.state }
        ensures faults { self.new.faults ≡ self.old.faults }
        ensures ok { OnOk result (self.new.plan ≡ with_listed acted commit self.old.plan) }
        ensures err { OnErr result (self.new ≡ self.old) }
    {
        self.keeper.list_commit(acted, commit)
    }

    /// How many calls of the keeper failed.
    pub fn faults(&self) -> u64
        ensures faults { result ≡ self.now.faults }
        ensures hub { IsHub self.now.state }
    {
        // Read for what it keeps.
        let _ = &self.gone;
        self.keeper.faults()
    }

    /// The keeper, which keeps its part of the state.
    pub fn into_keeper(self) -> MemHub
        ensures { IsPartOf result.kept self.state }
    {
        let World {
            router: _,
            hub: _,
            keeper,
            gone: _,
        } = self;
        keeper
    }
}

/// Whether a keeper keeps all versions from 0 on.
pub fn keeps_all(alloc: Global, keeper: &mut MemHub) -> Result<bool, KeeperError>
    ensures { IfOk result (λ all. all ≡ true → (oldest_kept keeper.new.kept.versions).number ≡ 0) }
{
    let tables = keeper.load(alloc)?;
    let first = tables.base.number;
    drop(tables);
    Ok(first == 0)
}
