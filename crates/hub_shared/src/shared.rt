//! One hub for many threads.

ghost use Rattle.std.specs.Prelude.{◌≡◌, ◌<◌, List, [], Err, IfErr, IfOk, false};
ghost use Rattle.version_changes.specs.grants.Granting.{GrantsMake};
ghost use Rattle.hub_core.specs.Standing.{HeldHub, KeeperFits};
ghost use Rattle.hub_core.specs.Steps.{MakesNext};
ghost use Rattle.hub_core.specs.declared.hub_error.HubError.TheVariants as error;
ghost use Rattle.hub_spec.specs.requests.Requests.{wanted_by};
ghost use Rattle.hub_spec.specs.rules.Wanted.{is_write};
ghost use Rattle.keeper_memory.specs.Kept.{KeptState};
ghost use Rattle.rest_provider.specs.Replies.{out_of_memory};
ghost use Rattle.rest_provider.specs.Steps.{TakesRequest, error_reply};
ghost use Rattle.version_changes.specs.sets.Applying.{Applies};
ghost use Rattle.hub_history.specs.declared.entry.Entry.{Entry};
ghost use Rattle.hub_history.specs.Histories.{state_after};
ghost use Rattle.hub_history.specs.Published.{Published as Writings};
ghost use Rattle.hub_shared.specs.Seats.{ReadsAt};
ghost use Rattle.hub_shared.specs.Standings.{EndsInFault, Receipted, Standing};

use crate::locked::LockedHub;
use crate::seat::{ReadSeat, Receipt};
use crossbeam_utils::rule::Protocol;
use grant_scopes::GrantList;
use hub_core::{Hub, HubError, Published};
use hub_history::{Entry, Naming, Noted, Opened, Publisher, Sharing, Shown};
use keeper_memory::HubKeeper;
use left_right::Absorb;
use rest_paths::PathRouter;
use roster_base::NoMemory;
use roster_texts::Moment;
use roster_types::set::RosterSet;
use status_info::{Reply, Request};
use std::alloc::Global;
use std::collections::LinkedList;
use std::sync::{Mutex, Wait};

/// No place was free.
#[derive(Clone, Copy, Debug)]
pub struct NoPlace;

/// A hub that threads share. End it by `close`.
pub struct SharedHub<H: HubKeeper, N: Naming>
where
    Shown<N>: Absorb<Noted<N>, State = LinkedList<Entry>>,
    Sharing<N>: Protocol<Shown<N>, LinkedList<Entry>>,
{
    lock: Mutex<LockedHub<H, N>>,
}

impl<H: HubKeeper, N: Naming> SharedHub<H, N> {
    /// Shares a hub, of which so many readers may have a seat. The hub's state is the opening state of the history. At
    /// `Err` there was no memory, and the keeper comes back as it was.
    pub fn open(
        alloc: Global,
        opened: Opened,
        hub: Hub,
        keeper: H,
        places: u32,
    ) -> Result<SharedHub<H, N>, (NoMemory, H)>
        requires places { 0 < places }
        requires fits { KeeperFits (H.stands_for keeper) hub }
        requires settled { hub.commit_open ≡ false }
        requires named { (opened.seen.book ≡ N.book) × (hub.kept ≡ N.opening) × (H.fault_count keeper ≡ N.count) }
        requires stood { (kept : KeptState) → H.stands_for keeper kept → N.stood kept }
        ensures { IfErr result (λ e. e.1 ≡ keeper) }
    {
        let mut hub = hub;
        // What a call made is told by the commits, and look-ups by reference find rows by an index, under the lock too.
        hub.keep_commits();
        hub.index();
        let (head, front) = opened.named::<N>();
        let Ok(publisher) = Publisher::open(alloc, head, front, hub.table(), places) else {
            return Err((NoMemory, keeper));
        };
        Ok(SharedHub {
            lock: Mutex::new(LockedHub::new(hub, keeper, publisher)),
        })
    }

    /// A seat that has seen nothing.
    pub fn place(&mut self) -> Result<ReadSeat<N>, NoPlace>
        ensures { IfOk result (λ s. s ≡ record { seen = []; told = [] }) }
    {
        match self.lock.get_mut().place() {
            Ok(seat) => Ok(seat),
            Err(NoMemory) => Err(NoPlace),
        }
    }

    /// Answers a request that writes nothing, at a state of the history.
    pub fn read_locked<R: Wait>(
        &self,
        rt: &R,
        alloc: Global,
        router: &PathRouter,
        request: &Request,
    ) -> Reply
        requires { is_write request.now.verb ≡ false }
        ensures { (log : List Entry) × ReadsAt (state_after N.opening log) request.now result }
    {
        self.lock.lock(rt).read(alloc, router, request)
    }

    /// Carries out a request. The receipt's history ends with the commit that was made, and the reply is the hub's
    /// before it.
    pub fn write<R: Wait>(
        &self,
        rt: &R,
        alloc: Global,
        router: &PathRouter,
        request: &Request,
        at: Moment,
    ) -> (Reply, Receipt<N>)
        ensures { Receipted (λ reply before after. TakesRequest request.now at reply before after 0) (error_reply (wanted_by request.now) error.Keeper) (out_of_memory (wanted_by request.now)) N.opening result.0 result.1 }
    {
        self.lock.lock(rt).write(rt, alloc, router, request, at)
    }

    /// Publishes a set.
    pub fn publish<R: Wait>(
        &self,
        rt: &R,
        alloc: Global,
        set: RosterSet,
        at: Moment,
    ) -> (Result<Published, HubError>, Receipt<N>)
        ensures receipted { Receipted (MakesNext (λ version. Applies version set at)) (Err error.Keeper) (Err error.NoMemory) N.opening result.0 result.1 }
        ensures keeper { result.0 ≡ Err error.Keeper → EndsInFault result.1 }
    {
        self.lock.lock(rt).publish(rt, alloc, set, at)
    }

    /// Gives each caller of a list what it asks for.
    pub fn set_grants<R: Wait>(
        &self,
        rt: &R,
        alloc: Global,
        list: &GrantList,
        at: Moment,
    ) -> (Result<Published, HubError>, Receipt<N>)
        ensures receipted { Receipted (MakesNext (λ version. GrantsMake version list.now at)) (Err error.Keeper) (Err error.NoMemory) N.opening result.0 result.1 }
        ensures keeper { result.0 ≡ Err error.Keeper → EndsInFault result.1 }
    {
        self.lock.lock(rt).set_grants(rt, alloc, list, at)
    }

    /// Gives the keeper back. It stands for the opening state with a history, and where it failed at the last commit,
    /// for that without it or with it; and where it stands for any state, it stood for the opening one when the hub was
    /// opened. No memory is taken.
    pub fn close<R: Wait>(self, rt: &R) -> H
        ensures { (log : Writings) × (hub : HeldHub) × Standing N.opening N.count N.stood log hub (H.stands_for result) (H.fault_count result) }
    {
        let SharedHub { lock } = self;
        lock.into_inner().end(rt)
    }
}
