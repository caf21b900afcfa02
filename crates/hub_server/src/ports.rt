//! What is handed to a server from outside.

ghost use Rattle.std.specs.Prelude.{◌≡◌, []};

use crate::notices::Notices;
use outside_ports::{Clock, Gate};
use std::alloc::Global;
use std::sync::Wait;

/// The ports that a server works with, in each of its threads.
#[derive(Drop)]
pub struct Ports<'a, R: Wait, K: Clock, G: Gate, T: Notices> {
    pub rt: &'a R,
    pub alloc: Global,
    pub clock: &'a K,
    pub gate: &'a G,
    pub notices: &'a T,
}

/// What a server hears and reads from: an acceptor for each address, and a folder for each feed.
#[derive(Drop)]
pub struct Doors<A: Drop, F: Drop> {
    pub acceptors: Vec<A>,
    pub folders: Vec<F>,
}

impl<A: Drop, F: Drop> Doors<A, F> {
    /// No acceptors and no folders.
    pub fn none(alloc: Global) -> Doors<A, F>
        ensures acceptors { result.acceptors.items ≡ [] }
        ensures folders { result.folders.items ≡ [] }
    {
        Doors {
            acceptors: Vec::new(alloc),
            folders: Vec::new(alloc),
        }
    }
}
