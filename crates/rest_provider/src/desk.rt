//! What answering takes besides a hub.

use outside_ports::Clock;
use rest_paths::PathRouter;
use std::alloc::Global;

/// Where requests are answered: memory, the routes that paths may have, and the clock that dates each answer.
#[derive(Drop)]
pub struct Desk<'a, K: Clock> {
    pub alloc: Global,
    pub router: &'a PathRouter,
    pub clock: &'a K,
}
