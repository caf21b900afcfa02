//! The writer's side: what is published, and the entry that waits.

ghost use Rattle.std.specs.Prelude.{◌≡◌, ◌++◌, ◌<◌, [], drop, IfOk, MatchBool, None, Some};
ghost use Rattle.left_right.specs.Sides.{view};
ghost use Rattle.hub_history.specs.Histories.{CanEnter, EndsLegally, IsLegal, IsTableOf, state_after, waiting_list};
ghost use Rattle.hub_history.specs.Published.{Appends, IsStage, NotedAs, history, none_waits, waiting_of};

use crate::entry::Entry;
use crate::history::{Front, Head};
use crate::naming::Naming;
use crate::shown::{HubReader, HubWriter, Noted, Sees, Sharing, Shown};
use crossbeam_utils::rule::Protocol;
use left_right::Absorb;
use roster_base::NoMemory;
use std::alloc::Global;
use std::collections::LinkedList;
use std::marker::Model;
use std::sync::Wait;
use version_core::table::Table;

// The most entries of a history.
const MOST_ENTRIES: u64 = 1 << 60;

/// The writer, and the entry that waits to be published. Contracts see the published entries and the one that waits.
pub struct Publisher<N: Naming>
where
    Shown<N>: Absorb<Noted<N>, State = LinkedList<Entry>>,
    Sharing<N>: Protocol<Shown<N>, LinkedList<Entry>>,
{
    writer: HubWriter<N>,
    head: Head<N>,
    // All that was noted: what is published, and the entry that waits, unless it is still to be noted.
    front: Front<N>,
    published: Front<N>,
    start: Front<N>,
    // The entry that waits, unless the writer has it.
    waits: Option<Entry>,
    noted: bool,
}

impl<N: Naming> Model for Publisher<N>
where
    Shown<N>: Absorb<Noted<N>, State = LinkedList<Entry>>,
    Sharing<N>: Protocol<Shown<N>, LinkedList<Entry>>,
{
    ghost use Rattle.std.specs.Prelude.{◌≡◌, ◌++◌, [], drop};
    ghost use Rattle.hub_history.specs.Histories.{IsLegal, waiting_list};
    ghost use Rattle.hub_history.specs.Published.{IsStage, Published, waiting_of};

    ghost Value = { Published };

    ghost view = { λ p. record {
      published = p.published;
      waiting = waiting_of p.waits (drop p.writer.behind p.writer.log.items);
    } };

    ghost invariant = { λ p.
        (p.writer.desk.shown.value ≡ p.published)
        × IsStage p.published (drop p.writer.behind p.writer.log.items) p.waits p.noted p.front
        × IsLegal N.opening (p.published ++ waiting_list (waiting_of p.waits (drop p.writer.behind p.writer.log.items)))
        × (p.start ≡ []) };
}

// Adds the entry to the history, unless that was done.
fn note<N: Naming>(head: &Head<N>, front: &mut Front<N>, noted: bool, entry: &Entry) -> bool
    ensures { NotedAs result noted front.old front.new entry.now }
{
    if noted {
        return true;
    }
    if front.len() >= MOST_ENTRIES {
        return false;
    }
    let mut longer = front.again();
    if longer.add(head, entry) {
        *front = longer;
        return true;
    }
    false
}

// Hands the entry to the writer, with the history that ends with it. At `Err` there was no memory, and it comes back.
fn append<N: Naming>(writer: &mut HubWriter<N>, front: &Front<N>, entry: Entry) -> Result<(), Entry>
    requires { EndsLegally N.opening front.now entry }
    ensures desk { writer.new.desk ≡ writer.old.desk }
    ensures has { Appends (drop writer.old.behind writer.old.log.items)
        (drop writer.new.behind writer.new.log.items) front.now entry result }
{
    match writer.append(Noted::new(entry, front.again())) {
        Ok(()) => Ok(()),
        Err(noted) => Err(noted.into_entry()),
    }
}

// Hands the entry that waits to the writer, where one does and the writer hasn't got it. It says what still waits, and
// whether that was noted.
fn hand_over<N: Naming>(
    writer: &mut HubWriter<N>,
    head: &Head<N>,
    front: &mut Front<N>,
    published: &Front<N>,
    waits: Option<Entry>,
    noted: bool,
) -> (Option<Entry>, bool)
    requires stage { IsStage published.now (drop writer.old.behind writer.old.log.items) waits noted front.old }
    requires legal { IsLegal N.opening
        (published.now ++ waiting_list (waiting_of waits (drop writer.old.behind writer.old.log.items))) }
    ensures desk { writer.new.desk ≡ writer.old.desk }
    ensures stage { IsStage published.now (drop writer.new.behind writer.new.log.items) result.0 result.1 front.new }
    ensures same { waiting_of result.0 (drop writer.new.behind writer.new.log.items)
        ≡ waiting_of waits (drop writer.old.behind writer.old.log.items) }
{
    let Some(entry) = waits else {
        return (None, noted);
    };
    if !note(head, front, noted, &entry) {
        return (Some(entry), false);
    }
    match append(writer, front, entry) {
        Ok(()) => (None, false),
        Err(entry) => (Some(entry), true),
    }
}

impl<N: Naming> Publisher<N> {
    /// A publisher of a history that is empty, over two copies of the opening table, with so many places to read from.
    pub fn open(
        alloc: Global,
        head: Head<N>,
        front: Front<N>,
        table: &Table,
        places: u32,
    ) -> Result<Publisher<N>, NoMemory>
        requires places { 0 < places }
        requires front { front ≡ [] }
        requires table { IsTableOf N.opening table.now }
        ensures { IfOk result (λ p. p ≡ none_waits []) }
    {
        let first = Shown::copied(alloc, table, &front)?;
        let second = Shown::copied(alloc, table, &front)?;
        let writer = HubWriter::new(alloc, first, second, places as usize)?;
        Ok(Publisher {
            writer,
            head,
            published: front.again(),
            start: front.again(),
            front,
            waits: None,
            noted: false,
        })
    }

    /// A reader that has seen nothing, and a front that has none.
    pub fn place(&self) -> Result<(HubReader<N>, Front<N>), NoMemory>
        ensures { IfOk result (λ r. (view r.0.place ≡ []) × (r.1 ≡ [])) }
    {
        let reader = self.writer.factory().reader()?;
        Ok((reader, self.start.again()))
    }

    /// What is published.
    pub fn published(&self) -> Front<N>
        ensures { result ≡ self.now.published }
    {
        self.published.again()
    }

    /// Lets an entry wait to be published.
    pub fn put(&mut self, entry: Entry)
        requires none { self.old.waiting ≡ None }
        requires can { CanEnter (state_after N.opening self.old.published) entry }
        ensures { self.new ≡ record { published = self.old.published; waiting = Some entry } }
    {
        drop(self.waits.replace(entry));
        self.noted = false;
    }

    /// Publishes the entry that waits, where one does, and says whether it did. Where not, there was no memory, and it
    /// waits.
    pub fn publish<R: Wait>(self, rt: &R) -> (Publisher<N>, bool)
        ensures { MatchBool result.1 (result.0 ≡ none_waits (history self)) (result.0 ≡ self) }
    {
        let Publisher {
            mut writer,
            head,
            mut front,
            published,
            start,
            waits,
            noted,
        } = self;
        let (waits, noted) = hand_over(&mut writer, &head, &mut front, &published, waits, noted);
        if waits.is_some() || !writer.has_pending_operations() {
            let done = waits.is_none();
            let same = Publisher {
                writer,
                head,
                front,
                published,
                start,
                waits,
                noted,
            };
            return (same, done);
        }
        let (writer, done) = writer.publish_as::<Sees<N>, R>(rt);
        let done = done.is_ok();
        let published = if done { front.again() } else { published };
        let next = Publisher {
            writer,
            head,
            front,
            published,
            start,
            waits,
            noted,
        };
        (next, done)
    }

    /// Readers take nothing from now on.
    pub fn end<R: Wait>(self, rt: &R) {
        let Publisher {
            writer,
            head: _,
            front: _,
            published: _,
            start: _,
            waits: _,
            noted: _,
        } = self;
        let _ = writer.take(rt);
    }
}
