//! Sets: what a feed publishes at once.

ghost use Rattle.std.specs.Prelude.{◌≡◌};
ghost use Rattle.roster_types.specs.Sets.{AreParts};

use crate::set_row::SetRow;
use roster_base::Items;
use roster_texts::Name;
use roster_values::{Kind, Mode};
use std::marker::Model;

/// The rows of one kind in a set.
#[derive(Drop)]
pub struct SetPart {
    pub kind: Kind,
    /// Whether the rows are all that the feed has of the kind.
    pub mode: Mode,
    pub rows: Items<SetRow>,
}

/// What a feed publishes at once. Each kind has one part at most, and the parts stand in the order of kinds. The rows
/// of a part are of its kind, and their ids differ; a row that brings no date carries the moment 0.
#[derive(Drop)]
pub struct RosterSet {
    feed: Name,
    parts: Items<SetPart>,
}

impl Model for RosterSet {
    ghost use Rattle.roster_types.specs.Sets.{AreParts, SetRecord};

    ghost Value = { SetRecord };

    ghost view = { λ s. record { feed = s.feed; parts = s.parts } };

    ghost invariant = { λ s. AreParts s.parts };
}

impl RosterSet {
    /// The set of a feed with these parts.
    pub fn new(feed: Name, parts: Items<SetPart>) -> RosterSet
        requires { AreParts parts }
        ensures { result ≡ record { feed = feed; parts = parts } }
    {
        RosterSet { feed, parts }
    }

    /// The feed that publishes it.
    pub fn feed(&self) -> &Name
        ensures { result.now ≡ self.now.feed }
    {
        &self.feed
    }

    /// The feed and the parts as they lie in the set; no memory is taken.
    pub fn into_parts(self) -> (Name, Items<SetPart>)
        ensures feed { result.0 ≡ self.feed }
        ensures parts { result.1 ≡ self.parts }
        ensures good { AreParts self.parts }
    {
        let RosterSet { feed, parts } = self;
        (feed, parts)
    }

    /// The parts in the order of kinds.
    pub fn parts(&self) -> &[SetPart]
        ensures parts { result.now ≡ self.now.parts }
        ensures good { AreParts self.now.parts }
    {
        self.parts.as_slice()
    }
}
