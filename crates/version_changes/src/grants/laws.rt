//! That a list of grants makes one outcome of a version.

ghost use Rattle.std.specs.Prelude.{◌≡◌, ℤ, List, ◌≤◌};
ghost use Rattle.version_changes.specs.grants.Granting.{GrantsMake};
ghost use Rattle.grant_scopes.specs.declared.entry.GrantEntry.{GrantEntry};
ghost use Rattle.version_changes.specs.sets.Applying.{Outcome};
ghost use Rattle.version_core.specs.declared.change.BaseVersion.{BaseVersion};
ghost use Rattle.version_core.specs.Version.{last_version};

/// Granting is a function: a list that is published at a moment makes one outcome of a version.
pub fn a_list_makes_one_outcome()
    ensures { (version : BaseVersion) (entries : List GrantEntry) (at : ℤ) (one other : Outcome) → GrantsMake version entries at one → GrantsMake version entries at other → one ≡ other }
{}

/// A list that is published at a moment makes an outcome of a version.
pub fn a_list_makes_an_outcome()
    ensures { (version : BaseVersion) (entries : List GrantEntry) (at : ℤ) → version.number ≤ last_version → (outcome : Outcome) × GrantsMake version entries at outcome }
{}
