//! Lists of grants as they are asked for.

ghost use Rattle.std.specs.Prelude.{◌≡◌};
ghost use Rattle.grant_scopes.specs.Entries.{AreEntries};

use crate::entry::GrantEntry;
use roster_base::Items;
use std::marker::Model;

/// All grants that a hub is to give: at most 10,000, of which no two are of one caller and no two have one token. A
/// clause sees the list.
#[derive(Drop)]
pub struct GrantList {
    entries: Items<GrantEntry>,
}

impl Model for GrantList {
    ghost use Rattle.std.specs.Prelude.{List};
    ghost use Rattle.grant_scopes.specs.declared.entry.GrantEntry.{GrantEntry as Entry};

    ghost Value = { List Entry };

    ghost use Rattle.grant_scopes.specs.Entries.{AreEntries};

    ghost view = { λ list. list.entries };

    ghost invariant = { λ list. AreEntries list.entries };
}

impl GrantList {
    /// These entries; no memory is taken.
    pub fn new(entries: Items<GrantEntry>) -> GrantList
        requires { AreEntries entries }
        ensures { result ≡ entries }
    {
        GrantList { entries }
    }

    /// The entries, in the order of their file.
    pub fn entries(&self) -> &[GrantEntry]
        ensures entries { result.now ≡ self.now }
        ensures differ { AreEntries self.now }
    {
        self.entries.as_slice()
    }
}
