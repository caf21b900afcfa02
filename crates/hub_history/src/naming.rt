//! Names of hubs.

use std::marker::Brand;

/// Names one hub: the book of its history, and of its opening the state, the keeper's count of faults, and the states
/// that the keeper stood for. Each program picks it.
pub trait Naming {
    ghost use Rattle.std.specs.Prelude.{ℕ};
    ghost use Rattle.logbook.specs.Pages.{Book};
    ghost use Rattle.keeper_memory.specs.Kept.{KeptState};

    /// The book of its history.
    ghost book: { Book };

    /// The state with which it was opened.
    ghost opening: { KeptState };

    /// The keeper's count of faults at that time.
    ghost count: { ℕ };

    /// The states for which the keeper stood then.
    ghost stood: { KeptState → Type 0 };
}

impl Naming for Brand {
    ghost use Rattle.std.specs.Prelude.{[], ⊤};

    ghost book = { record { number = 0; log_name = 0; cells_name = 0 } };

    ghost opening = { record { keep = 0; versions = []; marks = [] } };

    ghost count = { 0 };

    ghost stood = { λ kept. ⊤ };
}
