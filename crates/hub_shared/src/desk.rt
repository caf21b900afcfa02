//! Where a job of a server works.

use crate::shared::SharedHub;
use crossbeam_utils::rule::Protocol;
use hub_history::{Entry, Naming, Noted, Sharing, Shown};
use keeper_memory::HubKeeper;
use left_right::Absorb;
use outside_ports::{Clock, Gate};
use rest_paths::PathRouter;
use std::alloc::Global;
use std::collections::LinkedList;
use std::sync::Wait;

/// The hub that the jobs of a server share, and what goes in with each call of it. Before and after each call the job
/// passes the gate.
#[derive(Drop)]
pub struct Desk<'a, H: HubKeeper, N: Naming, R: Wait, K: Clock, G: Gate>
where
    Shown<N>: Absorb<Noted<N>, State = LinkedList<Entry>>,
    Sharing<N>: Protocol<Shown<N>, LinkedList<Entry>>,
{
    pub rt: &'a R,
    pub alloc: Global,
    pub router: &'a PathRouter,
    pub shared: &'a SharedHub<H, N>,
    pub clock: &'a K,
    pub gate: &'a G,
    /// The number of the job, by which the gate knows it.
    pub job: u32,
}
