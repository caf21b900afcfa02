//! Metadata: what a district says of a row beside the standard's fields.

use roster_base::{Items, NoMemory, Same, Text, are_same};
use roster_texts::Id;
use std::alloc::Global;
use std::marker::Model;

/// A key, which follows the rule of ids, and its text, which isn't blank and has no space at its ends.
#[derive(Drop)]
pub struct Entry {
    pub key: Id,
    pub text: Text,
}

impl Same for Entry {
    fn is_same(&self, other: &Entry) -> bool {
        self.key.is_same(&other.key) && self.text.is_same(&other.text)
    }
}

/// The metadata of a row: entries in ascending order of their keys, each key once.
#[derive(Drop)]
pub struct Metadata {
    entries: Items<Entry>,
}

impl Model for Metadata {
    ghost use Rattle.std.specs.Prelude.{List};
    ghost use Rattle.roster_types.specs.declared.metadata.Entry.{Entry as MetadataEntry};
    ghost use Rattle.roster_types.specs.Records.{IsMetadata};

    ghost Value = { List MetadataEntry };

    ghost view = { λ m. m.entries };

    ghost invariant = { λ m. IsMetadata m.entries };
}

impl Metadata {
    ghost use Rattle.std.specs.Prelude.{◌≡◌, ◌++◌, ◌∷◌, [], true, OnOk, OnErr};
    ghost use Rattle.std.specs.Bool.{Decides};
    ghost use Rattle.roster_base.specs.Order.{RiseBy};
    ghost use Rattle.roster_types.specs.Records.{IsMetadata, key_of};
    ghost use Rattle.roster_values.specs.Fit.{is_plain_text};

    /// No metadata.
    pub fn new(alloc: Global) -> Metadata
        ensures { result ≡ [] }
    {
        Metadata {
            entries: Items::new(alloc),
        }
    }

    /// Adds an entry whose key is above all others.
    pub fn push(&mut self, entry: Entry) -> Result<(), NoMemory>
        requires order { RiseBy key_of (self.old ++ entry ∷ []) }
        requires plain { is_plain_text entry.text ≡ true }
        ensures ok { OnOk result (self.new ≡ self.old ++ entry ∷ []) }
        ensures err { OnErr result (self.new ≡ self.old) }
    {
        // Read for its clause `good`: the key follows the rule of ids.
        let _ = entry.key.as_str();
        self.entries.push(entry)
    }

    /// The entries in order.
    pub fn entries(&self) -> &[Entry]
        ensures entries { result.now ≡ self.now }
        ensures order { IsMetadata self.now }
    {
        self.entries.as_slice()
    }

    /// Whether the metadata is equal.
    pub fn is_same(&self, other: &Metadata) -> bool
        ensures { Decides result (self.now ≡ other.now) }
    {
        are_same(self.entries(), other.entries())
    }
}
