//! What holds of the requests that are answered by a seat. Each function here does nothing; its contract is a law.

ghost use Rattle.std.specs.Prelude.{ℤ, List, Option, Some};
ghost use Rattle.hub_history.specs.declared.entry.Entry.{Entry};
ghost use Rattle.hub_shared.specs.Seats.{SeatView};
ghost use Rattle.hub_shared.specs.Serving.{All, AreKnown, Exchange, InOrder, TakesShared};
ghost use Rattle.keeper_memory.specs.Kept.{KeptState};

/// A seat reads on: each read is answered at a beginning of the history that begins with those of the reads before it,
/// with the receipts of the writes before it, and with what the seat had seen or was told of at first.
pub fn a_seat_reads_on()
    ensures { (opening : KeptState) (moment : Option ℤ) (places : List (List Entry)) (exchanges : List Exchange) (before now : SeatView)
        → AreKnown places before → All (TakesShared opening moment) exchanges (Some before) (Some now) → InOrder opening moment places exchanges }
{}
