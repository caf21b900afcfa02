//! What holds of a cascade. Each function here does nothing; its contract is a law.

ghost use Rattle.std.specs.Prelude.{◌≡◌, ℕ, ℤ, List};
ghost use Rattle.hub_cascade.specs.Cascading.{Cascades, active_rows, current_rows};
ghost use Rattle.roster_types.specs.Keys.{Ascends, row_key};
ghost use Rattle.roster_types.specs.Records.{Record};
ghost use Rattle.version_changes.specs.sets.Applying.{Leads, Outcome, Unchanged};
ghost use Rattle.version_core.specs.declared.change.BaseVersion.{BaseVersion};

/// Cascading is a function: held rows make one outcome of a version, as those of a feed, at a moment.
pub fn held_rows_make_one_outcome()
    ensures { (version : BaseVersion) (feed : List ℕ) (held : List Record) (at : ℤ) (one other : Outcome) → Cascades version feed held at one → Cascades version feed held at other → one ≡ other }
{}

/// In the version that held rows lead to, and in one that they leave, the active rows of the feed are exactly the
/// active ones held.
pub fn active_rows_of_the_feed_are_those_held()
    ensures leads { (version next : BaseVersion) (feed : List ℕ) (held : List Record) (at : ℤ) → Ascends row_key held → Cascades version feed held at (Leads next) → current_rows feed next.rows ≡ active_rows held }
    ensures unchanged { (version : BaseVersion) (feed : List ℕ) (held : List Record) (at : ℤ) → Ascends row_key held → Cascades version feed held at Unchanged → current_rows feed version.rows ≡ active_rows held }
{}
