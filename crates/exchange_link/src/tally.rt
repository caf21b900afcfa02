//! The counts of a link.

ghost use Rattle.std.specs.Prelude.{◌≡◌, ◌≤◌, IsTrue, false};
ghost use Rattle.exchange_link.specs.Exchanges.{Misses};
ghost use Rattle.roster_base.specs.Faults.{Rose, one_more};

/// How many exchanges were made, how many in a row up to the last one raised the count of faults, and how many failed
/// or brought another reply. The counts stay at the end of `u64`.
#[derive(Drop)]
pub struct Tally {
    pub asked: u64,
    pub missed: u64,
    pub faults: u64,
}

impl Tally {
    /// No exchange was made yet.
    pub fn new() -> Tally
        ensures { result ≡ record { asked = 0; missed = 0; faults = 0 } }
    {
        Tally {
            asked: 0,
            missed: 0,
            faults: 0,
        }
    }

    /// Counts an exchange, and a fault where it has one. Where the count of faults stands at its end, each exchange
    /// counts as one that missed.
    pub fn count(&mut self, has_fault: bool)
        ensures asked { self.new.asked ≡ one_more self.old.asked }
        ensures missed { Misses (Rose self.old.faults self.new.faults) self.old.missed self.new.missed }
        ensures later { self.old.faults ≤ self.new.faults }
        ensures rose { IsTrue has_fault → Rose self.old.faults self.new.faults }
        ensures quiet { has_fault ≡ false → self.new.faults ≡ self.old.faults }
    {
        self.asked = self.asked.saturating_add(1);
        if has_fault {
            self.faults = self.faults.saturating_add(1);
        }
        self.missed = if has_fault || self.faults == u64::MAX {
            self.missed.saturating_add(1)
        } else {
            0
        };
    }
}
