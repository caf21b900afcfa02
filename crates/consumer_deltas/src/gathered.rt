//! What a call has of a kind: the rows that are held, and its delta.

ghost use Rattle.std.specs.Prelude.{◌≡◌, ◌<◌, ◌^◌, None, OnOk, option_copied};
ghost use Rattle.consumer_deltas.specs.DeltaJudging.{count_in, is_whole, last_id, nothing_yet, with_page};
ghost use Rattle.keeper_memory.specs.copy.Lists.{last_from};

use roster_base::{Items, NoMemory};
use roster_texts::Id;
use roster_types::row::Row;
use std::alloc::Global;
use std::marker::Model;

/// The entries of a page of a delta: the rows that are put, and the ids that are gone.
#[derive(Drop)]
pub struct Entries {
    pub puts: Items<Row>,
    pub gone: Items<Id>,
}

/// The rows that are held of a kind, and what has come of its delta: in the order of their ids the rows that are put
/// and the ids that are gone, and how many entries there are in all, once a page has said it.
#[derive(Drop)]
pub struct Gathered {
    held: Items<Row>,
    puts: Vec<Row>,
    gone: Vec<Id>,
    total: Option<u64>,
}

impl Model for Gathered {
    ghost use Rattle.consumer_deltas.specs.DeltaJudging.{Sofar, sofar_of};

    ghost Value = { Sofar };

    ghost view = { sofar_of };
}

impl Gathered {
    /// Nothing yet beside what is held.
    pub fn new(alloc: Global, held: Items<Row>) -> Gathered
        ensures { result ≡ nothing_yet held }
    {
        Gathered {
            held,
            puts: Vec::new(alloc),
            gone: Vec::new(alloc),
            total: None,
        }
    }

    /// The rows that are held.
    pub fn held(&self) -> &[Row]
        ensures { result.now ≡ self.now.held }
    {
        self.held.as_slice()
    }

    /// The rows that are put.
    pub fn puts(&self) -> &[Row]
        ensures { result.now ≡ self.now.puts }
    {
        self.puts.as_slice()
    }

    /// The ids that are gone.
    pub fn gone(&self) -> &[Id]
        ensures { result.now ≡ self.now.gone }
    {
        self.gone.as_slice()
    }

    /// How many entries there are in all, where a page has said it.
    pub fn total(&self) -> Option<u64>
        ensures { result ≡ self.now.total }
    {
        self.total
    }

    /// How many entries have come, which is the offset of the next page.
    pub fn count(&self) -> u64
        requires { count_in self.now < 2 ^ 64 }
        ensures count { result ≡ count_in self.now }
        ensures small { result < 2 ^ 64 }
    {
        self.puts.len() as u64 + self.gone.len() as u64
    }

    /// Whether all entries have come.
    pub fn is_whole(&self) -> bool
        requires { count_in self.now < 2 ^ 64 }
        ensures { result ≡ is_whole self.now }
    {
        match self.total {
            None => false,
            Some(total) => total == self.count(),
        }
    }

    /// The id of the last row that is put.
    pub fn last_put(&self) -> Option<&Id>
        ensures { option_copied result ≡ last_from None self.now.puts }
    {
        match self.puts.last() {
            None => None,
            Some(row) => Some(row.id()),
        }
    }

    /// The last id that is gone.
    pub fn last_gone(&self) -> Option<&Id>
        ensures { option_copied result ≡ last_id None self.now.gone }
    {
        self.gone.last()
    }

    /// Adds the entries of a page. Where memory runs out, some may have been added.
    pub fn add(&mut self, page: Entries, total: u64) -> Result<(), NoMemory>
        ensures { OnOk result (self.new ≡ with_page self.old page total) }
    {
        let mut puts = page.puts.into_vec();
        let mut gone = page.gone.into_vec();
        self.puts.append(&mut puts)?;
        self.gone.append(&mut gone)?;
        self.total = Some(total);
        Ok(())
    }
}
