//! A link to no hub.

ghost use Rattle.std.specs.Prelude.{◌≡◌, ◌≤◌, Err};
ghost use Rattle.exchange_link.specs.Exchanges.{IsSentText, Misses};
ghost use Rattle.outside_ports.specs.declared.failed.IoError.TheVariants as io_error;
ghost use Rattle.roster_base.specs.Faults.{Rose, one_more};

use crate::link::Link;
use outside_ports::IoError;
use std::alloc::Global;

/// A link to no hub: each exchange fails, and is counted.
#[derive(Drop)]
pub struct NoLink {
    faults: u64,
}

impl NoLink {
    /// A link over which nothing was sent yet.
    pub fn new() -> NoLink {
        NoLink { faults: 0 }
    }
}

impl Link for NoLink {
    ghost use Rattle.std.specs.Prelude.{⊤, []};

    ghost asked = { λ link. link.faults };

    ghost missed = { λ link. link.faults };

    ghost kept = { λ _. [] };

    ghost fault_count = { λ link. link.faults };

    ghost tells = { λ _ _. ⊥ };

    ghost is_hub = { λ _ _ none. absurd none };

    ghost leads = { λ _ _. ⊤ };

    ghost stays = { λ _. tt };

    ghost leads_on = { λ _ _ _ _ _. tt };

    fn exchange(&mut self, _alloc: Global, request: &[u8]) -> Result<(), IoError>
        requires { IsSentText request.now }
        ensures asked { self.new.faults ≡ one_more self.old.faults }
        ensures missed { Misses (Rose self.old.faults self.new.faults) self.old.faults self.new.faults }
        ensures later { self.old.faults ≤ self.new.faults }
        ensures rose { Rose self.old.faults self.new.faults }
        ensures failed { result ≡ Err io_error.Failed }
    {
        let _ = request;
        self.faults = self.faults.saturating_add(1);
        Err(IoError::Failed)
    }

    fn reply(&self) -> &[u8] {
        &[]
    }

    fn missed(&self) -> u64 {
        self.faults
    }

    fn faults(&self) -> u64 {
        self.faults
    }
}
