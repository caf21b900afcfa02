//! A link to a world.

ghost use Rattle.std.specs.Prelude.{◌≡◌, ◌⊎◌, ◌≤◌, ◌∷◌, [], List, IfOk, IsErr, OnErr, OnOk, Err};
ghost use Rattle.std.specs.Prelude.{false, true};
ghost use Rattle.exchange_link.specs.Exchanges.{Carries, Exchanged, IsLate, IsOwn, IsSentText, IsTextOf, Misses};
ghost use Rattle.exchange_link.specs.Exchanges.{LinkState};
ghost use Rattle.hub_spec.specs.rules.States.{IsHub};
ghost use Rattle.keeper_memory.specs.Calls.{CallsLead};
ghost use Rattle.keeper_memory.specs.Kept.{oldest_kept};
ghost use Rattle.keeper_memory.specs.Parts.{IsPartOf};
ghost use Rattle.outside_ports.specs.declared.failed.IoError.TheVariants as io_error;
ghost use Rattle.roster_base.specs.Faults.{Rose, one_more};
ghost use Rattle.status_info.specs.declared.request.Request.{Request as Asked};
ghost use Rattle.sync_world.specs.Acts.{Acted, IsAct};
ghost use Rattle.sync_world.specs.Deliveries.{Carried, OnCome};
ghost use Rattle.sync_world.specs.Given.{AreGiven, is_stale, requests_in};
ghost use Rattle.sync_world.specs.Links.{fresh_link, link_state, world_state, with_event, with_failure, with_fate};
ghost use Rattle.sync_world.specs.Links.{world_of};
ghost use Rattle.sync_world.specs.Planned.{IsLost, MayFail, fate_at};
ghost use Rattle.sync_world.specs.Worlds.{all_of};
ghost use Rattle.sync_world.specs.Walks.{Walks};

use crate::acts::{HubAct, Saying, act};
use crate::delivery::deliver;
use crate::past::Past;
use crate::traffic::{Event, Exchange, Fate, Happening, Planned, come_to_pass, fate_of};
use crate::world::World;
use exchange_link::{Link, Tally};
use hub_core::HubError;
use keeper_memory::MemHub;
use outside_ports::IoError;
use roster_base::NoMemory;
use roster_texts::Moment;
use std::alloc::Global;
use std::marker::Model;
use std::mem::replace;

/// A link to a hub in the same program, its clock, what is to come to pass at exchanges, and what is told of it. It
/// tells the hub's whole state and all requests that were handed to it.
#[derive(Drop)]
pub struct WorldLink {
    world: World,
    at: Moment,
    // The oldest first.
    past: Vec<Past>,
    kept: Vec<u8>,
    tally: Tally,
    events: Vec<Event>,
    fates: Vec<Planned>,
    // What is told of what others did since it was taken last.
    said: Vec<Saying>,
    // Whether an exchange wanted memory.
    wanted: bool,
}

impl Model for WorldLink {
    ghost use Rattle.sync_world.specs.Links.{HeldLink, IsLink, link_in};

    ghost Value = { HeldLink };

    ghost view = { link_in };

    ghost invariant = { IsLink };
}

// Has the events of an exchange come to pass, and carries its request.
fn carry(
    world: &mut World,
    past: &mut Vec<Past>,
    events: &mut Vec<Event>,
    said: &mut Vec<Saying>,
    request: &[u8],
    exchange: &Exchange,
) -> Result<Vec<u8>, IoError>
    requires text { IsSentText request.now }
    requires given { AreGiven past.old.items }
    ensures walks { Walks world.old world.new }
    ensures given { AreGiven past.new.items }
    ensures sent { (q : Asked) → IsTextOf q request.now → (requests_in past.new.items ≡ q ∷ requests_in past.old.items) ⊎ ((result ≡ Err io_error.NoMemory) × (past.new.items ≡ past.old.items)) }
    ensures own { is_stale exchange.now.fate ≡ false → (q : Asked) → IsTextOf q request.now → (xs ys : List Asked) → IfOk result (λ reply. IsOwn (world_state xs world.old) (world_state ys world.new) q reply.items) }
    ensures late { is_stale exchange.now.fate ≡ true → IfOk result (λ reply. IsLate (requests_in past.old.items) reply.items) }
    ensures lost { IsLost exchange.now.fate → IsErr result }
    ensures exact { result ≡ Err io_error.Failed → MayFail exchange.now.fate past.old.items }
    ensures carried { (q : Asked) → IsTextOf q request.now → OnCome (λ reply. reply.items)
        (Carried exchange.now q (record { past = past.old.items; events = events.old.items; world = world.old; said = said.old.items })
        (record { past = past.new.items; events = events.new.items; world = world.new; said = said.new.items })) result }
{
    let Exchange { number, at, fate } = *exchange;
    match come_to_pass(world, past.as_slice(), events, number, at, said) {
        Ok(()) => deliver(world, past, request, number, at, fate),
        Err(NoMemory) => Err(IoError::NoMemory),
    }
}

// Whether the reply of another exchange comes.
fn is_stale(fate: Fate) -> bool
    ensures { result ≡ is_stale fate }
{
    matches!(fate, Fate::Stale { .. })
}

impl WorldLink {
    /// A link to the hub of what this keeper keeps, which is all that was ever published. Nothing was sent yet.
    pub fn over(alloc: Global, keeper: MemHub, at: Moment) -> Result<WorldLink, HubError>
        requires { (oldest_kept keeper.kept.versions).number ≡ 0 }
        ensures fresh { IfOk result (λ link. link ≡ fresh_link at (all_of keeper.kept) link.hub_faults link.plan) }
        ensures calls { IfOk result (λ link. CallsLead keeper.plan link.plan) }
    {
        Ok(WorldLink {
            world: World::over(alloc, keeper)?,
            at,
            past: Vec::new(alloc),
            kept: Vec::new(alloc),
            tally: Tally::new(),
            events: Vec::new(alloc),
            fates: Vec::new(alloc),
            said: Vec::new(alloc),
            wanted: false,
        })
    }

    /// How many exchanges were made.
    pub fn asked(&self) -> u64
        ensures { result ≡ self.now.asked }
    {
        self.tally.asked
    }

    /// Whether an exchange wanted memory, since the link was made. What came to pass at that one isn't told in full.
    pub fn wanted_memory(&self) -> bool
        ensures { result ≡ self.now.wanted }
    {
        self.wanted
    }

    /// How many calls of the hub's keeper failed.
    pub fn hub_faults(&self) -> u64
        ensures { result ≡ self.now.hub_faults }
    {
        self.world.faults()
    }

    /// Sets the clock.
    pub fn set_clock(&mut self, at: Moment)
        ensures { self.new ≡ record self.old { clock = at } }
    {
        self.at = at;
    }

    /// The clock's moment.
    pub fn clock(&self) -> Moment
        ensures { result ≡ self.now.clock }
    {
        self.at
    }

    /// Does something to the hub now, and notes what is told of it.
    pub fn act(&mut self, alloc: Global, done: HubAct) -> Result<(), NoMemory>
        ensures walks { Walks (world_of self.old) (world_of self.new) }
        ensures acted { OnOk result (Acted (IsAct done self.old.clock) (world_of self.old) (world_of self.new) self.old.said self.new.said) }
        ensures rest { self.new ≡ record self.old { hub = self.new.hub; hub_faults = self.new.hub_faults; plan = self.new.plan; said = self.new.said } }
    {
        act(alloc, &mut self.world, done, self.at, &mut self.said)
    }

    /// Has something happen just before an exchange; nothing where that has passed.
    pub fn plan(&mut self, exchange: u64, happening: Happening) -> Result<(), NoMemory>
        ensures ok { OnOk result (self.new ≡ with_event exchange happening self.old) }
        ensures err { OnErr result (self.new ≡ self.old) }
    {
        if exchange <= self.tally.asked {
            drop(happening);
            return Ok(());
        }
        self.events.push(Event {
            exchange,
            happening,
        })?;
        Ok(())
    }

    /// Has this become of an exchange, in place of what was planned for it before.
    pub fn meet(&mut self, exchange: u64, fate: Fate) -> Result<(), NoMemory>
        ensures ok { OnOk result (self.new ≡ with_fate exchange fate self.old) }
        ensures err { OnErr result (self.new ≡ self.old) }
    {
        self.fates.push(Planned { exchange, fate })?;
        Ok(())
    }

    /// Lists one commit more of the hub's keeper that fails, behind what it does or before that.
    pub fn list_commit(&mut self, acted: bool, commit: u64) -> Result<(), NoMemory>
        ensures ok { OnOk result (self.new ≡ with_failure acted commit self.old) }
        ensures err { OnErr result (self.new ≡ self.old) }
    {
        self.world.list_commit(acted, commit)
    }

    /// What is told of what others did since it was taken last.
    pub fn take_said(&mut self, alloc: Global) -> Vec<Saying>
        ensures said { result.items ≡ self.old.said }
        ensures rest { self.new ≡ record self.old { said = [] } }
    {
        replace(&mut self.said, Vec::new(alloc))
    }

    /// The hub's keeper, which keeps its part of the state.
    pub fn into_keeper(self) -> MemHub
        ensures { IsPartOf result.kept self.hub }
    {
        let WorldLink {
            world,
            at: _,
            past: _,
            kept: _,
            tally: _,
            events: _,
            fates: _,
            said: _,
            wanted: _,
        } = self;
        world.into_keeper()
    }
}

impl Link for WorldLink {
    ghost use Rattle.hub_spec.specs.rules.States.{IsHub};
    ghost use Rattle.std.specs.Prelude.{◌≡◌};
    ghost use Rattle.sync_world.specs.Links.{link_state};
    ghost use Rattle.sync_world.specs.Traffic.{LinkLeads, link_leads_on, link_stays};

    ghost asked = { λ link. link.asked };

    ghost missed = { λ link. link.missed };

    ghost kept = { λ link. link.kept };

    ghost fault_count = { λ link. link.faults };

    ghost tells = { λ link told. (told ≡ link_state link) × IsHub told.hub };

    ghost is_hub = { λ link told tells. tells.1 };

    ghost leads = { LinkLeads };

    ghost stays = { link_stays };

    ghost leads_on = { link_leads_on };

    fn exchange(&mut self, alloc: Global, request: &[u8]) -> Result<(), IoError>
        requires { IsSentText request.now }
        ensures asked { self.new.asked ≡ one_more self.old.asked }
        ensures missed { Misses (Rose self.old.faults self.new.faults) self.old.missed self.new.missed }
        ensures later { self.old.faults ≤ self.new.faults }
        ensures leads { LinkLeads self.old self.new }
        ensures failed { result ≡ Err io_error.Failed → Rose self.old.faults self.new.faults }
        ensures kept { OnErr result (self.new.kept ≡ []) }
        ensures own { (q : Asked) → IsTextOf q request.now → OnOk result (Carries self.new.kept q.echo ⊎ Rose self.old.faults self.new.faults) }
        ensures told { (q : Asked) → IsTextOf q request.now → (after : LinkState) → (after ≡ link_state self.new) × IsHub after.hub
            → (before : LinkState) × ((before ≡ link_state self.old) × IsHub before.hub)
            × Exchanged q result (Rose self.old.faults self.new.faults) self.new.kept before after }
        // What was planned for it comes of it: it fails where something is lost, and only there or where no other reply
        // is there.
        ensures lost { IsLost (fate_at self.old.fates (one_more self.old.asked)) → IsErr result }
        ensures exact { result ≡ Err io_error.Failed → MayFail (fate_at self.old.fates (one_more self.old.asked)) self.old.past }
        ensures quiet { OnOk result (is_stale (fate_at self.old.fates (one_more self.old.asked)) ≡ false → self.new.faults ≡ self.old.faults) }
    {
        // Read for what it keeps.
        let _ = self.world.faults();
        let number = self.tally.asked.saturating_add(1);
        let fate = fate_of(self.fates.as_slice(), number);
        self.kept = Vec::new(alloc);
        let exchange = Exchange {
            number,
            at: self.at,
            fate,
        };
        let came = carry(
            &mut self.world,
            &mut self.past,
            &mut self.events,
            &mut self.said,
            request,
            &exchange,
        );
        match came {
            Ok(reply) => {
                self.tally.count(is_stale(fate));
                self.kept = reply;
                Ok(())
            }
            Err(IoError::Failed) => {
                self.tally.count(true);
                Err(IoError::Failed)
            }
            Err(IoError::NoMemory) => {
                self.wanted = true;
                self.tally.count(false);
                Err(IoError::NoMemory)
            }
        }
    }

    fn reply(&self) -> &[u8] {
        &self.kept
    }

    fn missed(&self) -> u64 {
        self.tally.missed
    }

    fn faults(&self) -> u64
        ensures faults { result ≡ self.now.faults }
        ensures hub { IsHub self.now.hub }
    {
        // Read for what it keeps.
        let _ = self.world.faults();
        self.tally.faults
    }
}
