//! What lies under the lock.

ghost use Rattle.std.specs.Prelude.{◌≡◌, ◌+◌, [], Err, IfOk, false};
ghost use Rattle.version_changes.specs.grants.Granting.{GrantsMake};
ghost use Rattle.hub_core.specs.Steps.{MakesNext};
ghost use Rattle.hub_core.specs.declared.hub_error.HubError.TheVariants as error;
ghost use Rattle.hub_spec.specs.requests.Requests.{wanted_by};
ghost use Rattle.hub_spec.specs.rules.Wanted.{is_write};
ghost use Rattle.keeper_memory.specs.Kept.{newest_kept};
ghost use Rattle.rest_provider.specs.Replies.{out_of_memory};
ghost use Rattle.rest_provider.specs.Steps.{TakesRequest, error_reply};
ghost use Rattle.version_changes.specs.sets.Applying.{Applies};
ghost use Rattle.hub_history.specs.Histories.{changes_in, state_after};
ghost use Rattle.hub_history.specs.Published.{history};
ghost use Rattle.hub_shared.specs.Reloads.{answer_of};
ghost use Rattle.hub_shared.specs.Seats.{ReadsAt};
ghost use Rattle.hub_shared.specs.Standings.{FaultPublished, Standing, Worked};

use crate::seat::{ReadSeat, Receipt};
use crate::steps::carry_out;
use crate::work::{Asking, Granting, Publishing, Work};
use crossbeam_utils::rule::Protocol;
use grant_scopes::GrantList;
use hub_core::{Hub, HubError, Published};
use hub_history::{Entry, Naming, Noted, Publisher, Sharing, Shown, Slot};
use keeper_memory::HubKeeper;
use left_right::Absorb;
use rest_paths::PathRouter;
use rest_provider::answer_read;
use rest_provider::answering::failing;
use roster_base::NoMemory;
use roster_texts::Moment;
use roster_types::set::RosterSet;
use status_info::{Reply, Request};
use std::alloc::Global;
use std::collections::LinkedList;
use std::marker::Model;
use std::sync::Wait;

/// The hub, its keeper and the publisher of its history. The publisher is away only inside a call.
pub struct LockedHub<H: HubKeeper, N: Naming>
where
    Shown<N>: Absorb<Noted<N>, State = LinkedList<Entry>>,
    Sharing<N>: Protocol<Shown<N>, LinkedList<Entry>>,
{
    hub: Hub,
    keeper: H,
    slot: Slot<N>,
}

impl<H: HubKeeper, N: Naming> Model for LockedHub<H, N>
where
    Shown<N>: Absorb<Noted<N>, State = LinkedList<Entry>>,
    Sharing<N>: Protocol<Shown<N>, LinkedList<Entry>>,
{
    ghost use Rattle.std.specs.Prelude.{IsSome};
    ghost use Rattle.hub_shared.specs.Standings.{Locked, Standing, published_of};

    ghost Value = { Locked H };

    ghost view = { λ l. record { log = published_of l.slot; hub = l.hub; keeper = l.keeper } };

    ghost invariant = { λ l. IsSome l.slot × Standing N.opening N.count N.stood (published_of l.slot) l.hub (H.stands_for l.keeper) (H.fault_count l.keeper) };
}

impl<H: HubKeeper, N: Naming> LockedHub<H, N> {
    /// A hub that keeps its commits, with the publisher of its history.
    pub fn new(hub: Hub, keeper: H, publisher: Publisher<N>) -> LockedHub<H, N>
        requires { Standing N.opening N.count N.stood publisher hub (H.stands_for keeper) (H.fault_count keeper) }
        ensures { result ≡ record { log = publisher; hub = hub; keeper = keeper } }
    {
        LockedHub {
            hub,
            keeper,
            slot: Slot::new(publisher),
        }
    }

    /// Answers a request that writes nothing, at the whole history.
    pub fn read(&self, alloc: Global, router: &PathRouter, request: &Request) -> Reply
        requires { is_write request.now.verb ≡ false }
        ensures { ReadsAt (state_after N.opening (history self.now.log)) request.now result }
    {
        answer_read(alloc, router, self.hub.table(), request)
    }

    /// The number of the newest version: each change of the history has the next one.
    pub fn newest(&self) -> u64
        ensures { result ≡ (newest_kept N.opening.versions).number + changes_in (history self.now.log) }
    {
        self.hub.table().newest()
    }

    /// A seat that has seen nothing.
    pub fn place(&self) -> Result<ReadSeat<N>, NoMemory>
        ensures { IfOk result (λ s. s ≡ record { seen = []; told = [] }) }
    {
        let (reader, start) = self.slot.place()?;
        Ok(ReadSeat::over(reader, start))
    }

    // Does the work of a call at the whole history. The receipt stands for what is then published.
    fn carry_out<W: Work<H> + Drop, R: Wait>(
        &mut self,
        rt: &R,
        alloc: Global,
        work: W,
    ) -> (Result<W::Answer, HubError>, Receipt<N>)
        ensures worked { Worked (W.asks work) (W.fails work error.Keeper) (W.fails work error.NoMemory) N.opening self.old.log self.new.log self.old.hub (H.fault_count self.old.keeper) (H.fault_count self.new.keeper) (answer_of (W.fails work) result.0) }
        ensures receipt { result.1 ≡ self.new.log.published }
    {
        let publisher = self.slot.take();
        let (publisher, done) = carry_out(
            rt,
            alloc,
            &mut self.hub,
            &mut self.keeper,
            publisher,
            work,
        );
        let receipt = publisher.published();
        self.slot.put(publisher);
        (done, receipt)
    }

    /// Carries out a request at the whole history. The receipt stands for what is then published.
    pub fn write<R: Wait>(
        &mut self,
        rt: &R,
        alloc: Global,
        router: &PathRouter,
        request: &Request,
        at: Moment,
    ) -> (Reply, Receipt<N>)
        ensures worked { Worked (λ reply before after. TakesRequest request.now at reply before after 0) (error_reply (wanted_by request.now) error.Keeper) (out_of_memory (wanted_by request.now)) N.opening self.old.log self.new.log self.old.hub (H.fault_count self.old.keeper) (H.fault_count self.new.keeper) result.0 }
        ensures receipt { result.1 ≡ self.new.log.published }
    {
        let work = Asking {
            router,
            request,
            at,
        };
        let (done, receipt) = self.carry_out(rt, alloc, work);
        (replied(alloc, request, done), receipt)
    }

    /// Publishes a set at the whole history. The receipt stands for what is then published.
    pub fn publish<R: Wait>(
        &mut self,
        rt: &R,
        alloc: Global,
        set: RosterSet,
        at: Moment,
    ) -> (Result<Published, HubError>, Receipt<N>)
        ensures worked { Worked (MakesNext (λ version. Applies version set at)) (Err error.Keeper) (Err error.NoMemory) N.opening self.old.log self.new.log self.old.hub (H.fault_count self.old.keeper) (H.fault_count self.new.keeper) result.0 }
        ensures keeper { result.0 ≡ Err error.Keeper → FaultPublished self.old.log self.new.log self.old.hub (H.fault_count self.old.keeper) (H.fault_count self.new.keeper) }
        ensures receipt { result.1 ≡ self.new.log.published }
    {
        let (done, receipt) = self.carry_out(rt, alloc, Publishing { set, at });
        (publication_answer(done), receipt)
    }

    /// Gives each caller of a list what it asks for, at the whole history. The receipt stands for what is then
    /// published.
    pub fn set_grants<R: Wait>(
        &mut self,
        rt: &R,
        alloc: Global,
        list: &GrantList,
        at: Moment,
    ) -> (Result<Published, HubError>, Receipt<N>)
        ensures worked { Worked (MakesNext (λ version. GrantsMake version list.now at)) (Err error.Keeper) (Err error.NoMemory) N.opening self.old.log self.new.log self.old.hub (H.fault_count self.old.keeper) (H.fault_count self.new.keeper) result.0 }
        ensures keeper { result.0 ≡ Err error.Keeper → FaultPublished self.old.log self.new.log self.old.hub (H.fault_count self.old.keeper) (H.fault_count self.new.keeper) }
        ensures receipt { result.1 ≡ self.new.log.published }
    {
        let (done, receipt) = self.carry_out(rt, alloc, Granting { list, at });
        (publication_answer(done), receipt)
    }

    /// Ends the publisher, and gives the keeper back. No memory is taken.
    pub fn end<R: Wait>(self, rt: &R) -> H
        ensures keeper { result ≡ self.keeper }
        ensures standing { Standing N.opening N.count N.stood self.log self.hub (H.stands_for result) (H.fault_count result) }
    {
        let LockedHub {
            hub: _hub,
            keeper,
            slot,
        } = self;
        slot.into_inner().end(rt);
        keeper
    }
}

// The reply to a request, where a step around its work may have failed.
fn replied(alloc: Global, request: &Request, done: Result<Reply, HubError>) -> Reply
    ensures { result ≡ answer_of (error_reply (wanted_by request.now)) done }
{
    match done {
        Ok(reply) => reply,
        Err(error) => failing(alloc, request, error),
    }
}

// What a publication answers, where a step around its work may have failed.
fn publication_answer(
    done: Result<Result<Published, HubError>, HubError>,
) -> Result<Published, HubError>
    ensures { result ≡ answer_of (λ fault. Err fault) done }
{
    match done {
        Ok(answer) => answer,
        Err(error) => Err(error),
    }
}
