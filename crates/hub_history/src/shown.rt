//! What readers take: a table, with the beginning of the history that it stands for.

ghost use Rattle.std.specs.Prelude.{◌≡◌, IfOk, OnOk, Some, map};
ghost use Rattle.std.specs.Option.{ForSome};
ghost use Rattle.version_core.specs.Changes.{change_key};
ghost use Rattle.hub_history.specs.Histories.{EndsLegally, IsTableOf, change_of, state_after};

use crate::entry::Entry;
use crate::history::Front;
use crate::naming::Naming;
use crossbeam_utils::rule::{Outcome, Protocol};
use keeper_memory::HubCommit;
use keeper_memory::hub_commit::add_change;
use left_right::Absorb;
use left_right::reader::Reader;
use left_right::writer::Writer;
use roster_base::{NoMemory, TryCopy};
use std::alloc::{AllocError, Global};
use std::collections::LinkedList;
use std::marker::{Model, PhantomData};
use version_core::change::Change;
use version_core::table::Table;

/// A table after the entries of a front. Contracts see it as these entries.
#[derive(Drop)]
pub struct Shown<N: Naming> {
    alloc: Global,
    table: Table,
    front: Front<N>,
}

impl<N: Naming> Model for Shown<N> {
    ghost use Rattle.std.specs.Prelude.{List};
    ghost use Rattle.hub_history.specs.Histories.{IsTableOf, state_after};
    ghost use Rattle.hub_history.specs.declared.entry.Entry.{Entry};

    ghost Value = { List Entry };

    ghost view = { λ s. s.front };

    ghost invariant = { λ s. IsTableOf (state_after N.opening s.front) s.table };
}

impl<N: Naming> Shown<N> {
    /// A copy of a table that stands for a front. Look-ups by reference find rows by an index in it.
    pub fn copied(alloc: Global, table: &Table, front: &Front<N>) -> Result<Shown<N>, NoMemory>
        requires { IsTableOf (state_after N.opening front.now) table.now }
        ensures { IfOk result (λ s. s ≡ front.now) }
    {
        let mut table = table.copy(alloc)?;
        table.index();
        Ok(Shown {
            alloc,
            table,
            front: front.again(),
        })
    }

    /// The table.
    pub fn table(&self) -> &Table
        ensures { IsTableOf (state_after N.opening self.now) result.now }
    {
        &self.table
    }

    /// The front.
    pub fn front(&self) -> Front<N>
        ensures { result ≡ self.now }
    {
        self.front.again()
    }
}

/// An entry that is to be published, with the history that ends with it.
#[derive(Drop)]
pub struct Noted<N: Naming> {
    entry: Entry,
    front: Front<N>,
}

impl<N: Naming> Model for Noted<N> {
    ghost use Rattle.hub_history.specs.Histories.{EndsLegally};
    ghost use Rattle.hub_history.specs.Published.{NotedEntry};

    ghost Value = { NotedEntry };

    ghost view = { λ o. record { entry = o.entry; front = o.front } };

    ghost invariant = { λ o. EndsLegally N.opening o.front o.entry };
}

impl<N: Naming> Noted<N> {
    /// An entry with a legal history that ends with it.
    pub fn new(entry: Entry, front: Front<N>) -> Noted<N>
        requires { EndsLegally N.opening front entry }
        ensures { result ≡ record { entry = entry; front = front } }
    {
        Noted { entry, front }
    }

    /// The entry.
    pub fn into_entry(self) -> Entry
        ensures { result ≡ self.entry }
    {
        let Noted { entry, front: _ } = self;
        entry
    }
}

// A copy of an entry's change, where it has one.
fn copied_change(alloc: Global, entry: &Entry) -> Result<Option<Change>, NoMemory>
    ensures { IfOk result (λ change. change ≡ change_of entry.now) }
{
    match entry {
        Entry::Commit(
            HubCommit {
                change: Some(change),
                mark: _,
            },
        ) => Ok(Some(change.copy(alloc)?)),
        _ => Ok(None),
    }
}

// The change of an entry, where it has one.
fn change_in(entry: Entry) -> Option<Change>
    ensures { result ≡ change_of entry }
{
    match entry {
        Entry::Commit(HubCommit { change, mark: _ }) => change,
        Entry::Fault => None,
    }
}

// Makes room for the change of an entry, where it has one.
fn make_room(table: &mut Table, entry: &Entry) -> Result<(), NoMemory>
    ensures keep { table.new.keep ≡ table.old.keep }
    ensures versions { table.new.versions ≡ table.old.versions }
    ensures room { OnOk result
        (ForSome (change_of entry.now) (λ change. table.new.room ≡ Some (map change_key change.rows))) }
{
    match entry {
        Entry::Commit(
            HubCommit {
                change: Some(change),
                mark: _,
            },
        ) => table.reserve(change),
        _ => Ok(()),
    }
}

impl<N: Naming> Absorb<Noted<N>> for Shown<N> {
    ghost use Rattle.hub_history.specs.Keeping.{taken};

    type State = LinkedList<Entry>;

    ghost state = { λ s. s };

    ghost applied = { λ log o. taken log o.front };

    fn absorb_first(&mut self, operation: &Noted<N>, _other: &Shown<N>) -> Result<(), AllocError> {
        if !self.front.is_followed_by(&operation.front) {
            return Ok(());
        }
        let Ok(change) = copied_change(self.alloc, &operation.entry) else {
            return Err(AllocError);
        };
        if make_room(&mut self.table, &operation.entry).is_err() {
            return Err(AllocError);
        }
        add_change(&mut self.table, change);
        self.front = operation.front.again();
        Ok(())
    }

    fn absorb_second(&mut self, operation: Noted<N>, _other: &Shown<N>) -> Result<(), Noted<N>> {
        if !self.front.is_followed_by(&operation.front) {
            return Ok(());
        }
        if make_room(&mut self.table, &operation.entry).is_err() {
            return Err(operation);
        }
        let Noted { entry, front } = operation;
        add_change(&mut self.table, change_in(entry));
        self.front = front;
        Ok(())
    }
}

/// The rule of readers and the writer: what each has seen begins the history that is published.
pub struct Sharing<N: Naming> {
    of: PhantomData<N>,
}

impl<N: Naming> Protocol<Shown<N>, LinkedList<Entry>> for Sharing<N> {
    ghost use Rattle.std.specs.Prelude.{[]};
    ghost use Rattle.hub_history.specs.Keeping.{Keeps};

    ghost holds = { λ x views. Keeps x views };

    ghost first = { [] };
}

/// A step that sees all that is then published.
pub struct Sees<N: Naming> {
    of: PhantomData<N>,
}

impl<N: Naming> Outcome<Shown<N>, LinkedList<Entry>> for Sees<N> {
    ghost use Rattle.hub_history.specs.Keeping.{Saw};

    ghost then = { λ v x y w. Saw v y w };
}

/// A place to read from.
pub type HubReader<N> = Reader<Shown<N>, LinkedList<Entry>, Sharing<N>>;

/// The writer of the two copies.
pub type HubWriter<N> = Writer<Shown<N>, Noted<N>, LinkedList<Entry>, Sharing<N>>;
