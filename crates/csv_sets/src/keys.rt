//! The keys of metadata that rows have.

ghost use Rattle.std.specs.Prelude.{◌≡◌, ◌++◌, map, IfOk, OnOk};
ghost use Rattle.roster_base.specs.Order.{RiseBy};
ghost use Rattle.csv_sets.specs.Written.{all_keys, entry_key, key_in, keys_of};

use roster_base::{Keyed, NoMemory, TryCopy, sorted};
use roster_texts::Id;
use roster_types::metadata::Entry;
use roster_types::row::Row;
use std::alloc::Global;

/// A key of metadata.
#[derive(Drop)]
pub struct MetadataKey {
    pub key: Id,
}

impl Keyed for MetadataKey {
    ghost key_of = { λ k. k.key };

    fn key(&self) -> &str {
        self.key.as_str()
    }
}

// Adds the keys of a row's metadata.
fn push_keys(alloc: Global, keys: &mut Vec<MetadataKey>, entries: &[Entry]) -> Result<(), NoMemory>
    ensures { OnOk result (keys.new.items ≡ keys.old.items ++ map entry_key entries.now) }
{
    for entry in entries {
        let key = entry.key.copy(alloc)?;
        keys.push(MetadataKey { key })?;
    }
    Ok(())
}

// The keys of the rows' metadata, row by row.
fn all_keys(alloc: Global, rows: &[Row]) -> Result<Vec<MetadataKey>, NoMemory>
    ensures { IfOk result (λ v. v.items ≡ all_keys rows.now) }
{
    let mut keys = Vec::new(alloc);
    for row in rows {
        push_keys(alloc, &mut keys, row.metadata().entries())?;
    }
    Ok(keys)
}

/// The keys of the rows' metadata in ascending order, each once.
pub fn keys_of(alloc: Global, rows: &[Row]) -> Result<Vec<MetadataKey>, NoMemory>
    ensures keys { IfOk result (λ v. v.items ≡ keys_of rows.now) }
    ensures rise { IfOk result (λ v. RiseBy key_in v.items) }
{
    sorted(alloc, all_keys(alloc, rows)?)
}
