//! That a set makes one outcome of a version.

ghost use Rattle.std.specs.Prelude.{◌≡◌, ℤ};
ghost use Rattle.roster_types.specs.Sets.{SetRecord};
ghost use Rattle.version_changes.specs.sets.Applying.{Applies, Outcome};
ghost use Rattle.version_core.specs.declared.change.BaseVersion.{BaseVersion};
ghost use Rattle.version_core.specs.Version.{IsVersion};

/// Applying is a function: a set that is published at a moment makes one outcome of a version.
pub fn a_set_makes_one_outcome()
    ensures { (version : BaseVersion) (set : SetRecord) (at : ℤ) (one other : Outcome) → Applies version set at one → Applies version set at other → one ≡ other }
{}

/// A set that is published at a moment makes an outcome of a version.
pub fn a_set_makes_an_outcome()
    ensures { (version : BaseVersion) (set : SetRecord) (at : ℤ) → IsVersion version → (outcome : Outcome) × Applies version set at outcome }
{}
