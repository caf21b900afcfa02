//! All marks of writes.

ghost use Rattle.std.specs.Prelude.{◌≡◌, if◌then◌else◌, [], IfOk, IsTrue, List, None, OnErr, OnOk, Some, ℕ, false};
ghost use Rattle.std.specs.Prelude.{option_copied, true};
ghost use Rattle.std.specs.List.Sorted.{IsStrictlySortedBy};
ghost use Rattle.version_core.specs.Marks.{AreMarks, CanMark, key_order, mark_at, mark_cmp, mark_key, same_mark};
ghost use Rattle.version_core.specs.Marks.{with_mark};
ghost use Rattle.version_core.specs.declared.mark.MarkRow.{MarkRow as Mark};

use crate::copies::copied;
use crate::hub_tables::HubTables;
use crate::mark::MarkRow;
use roster_base::NoMemory;
use roster_texts::Name;
use std::alloc::Global;
use std::cmp::Ordering;
use std::marker::Model;

/// A finite map from a caller and a number to a write and what was kept of it. A clause sees the marks in the order of
/// callers and numbers, and whether there is room for one more.
#[derive(Drop)]
pub struct Marks {
    marks: Vec<MarkRow>,
    has_room: bool,
}

impl Model for Marks {
    ghost use Rattle.version_core.specs.HeldMarks.{HeldMarks};

    ghost Value = { HeldMarks };

    ghost use Rattle.version_core.specs.MarksInside.{held_of, IsHeld};

    ghost view = { held_of };

    ghost invariant = { IsHeld };
}

// How a mark stands to a caller and a number.
fn compare(mark: &MarkRow, caller: &Name, number: u64) -> Ordering
    ensures { result ≡ key_order (mark_key mark.now) (caller.now, number) }
{
    mark.caller
        .as_str()
        .cmp(caller.as_str())
        .then(mark.number.cmp(&number))
}

impl Marks {
    /// No marks.
    pub fn new(alloc: Global) -> Marks
        ensures { result ≡ record { marks = []; has_room = false } }
    {
        Marks {
            marks: Vec::new(alloc),
            has_room: false,
        }
    }

    /// Equal copies of the marks of tables.
    pub fn from_tables(alloc: Global, tables: &HubTables) -> Result<Marks, NoMemory>
        requires { IsStrictlySortedBy mark_cmp tables.now.marks }
        ensures { IfOk result (λ m. m ≡ record { marks = tables.now.marks; has_room = false }) }
    {
        let marks = copied(alloc, tables.marks.as_slice())?;
        Ok(Marks {
            marks,
            has_room: false,
        })
    }

    /// All marks, in their order.
    pub fn as_slice(&self) -> &[MarkRow]
        ensures { result.now ≡ self.now.marks }
    {
        &self.marks
    }

    /// The mark of a caller and a number. No memory is taken.
    pub fn get(&self, caller: &Name, number: u64) -> Option<&MarkRow>
        ensures { option_copied result ≡ mark_at (caller.now, number) self.now.marks }
    {
        match self
            .marks
            .binary_search_by(|mark| compare(mark, caller, number))
        {
            Ok(place) => Some(&self.marks[place]),
            Err(_) => None,
        }
    }

    /// Makes room for one mark, so that `add` takes no memory.
    pub fn reserve(&mut self) -> Result<(), NoMemory>
        ensures ok { OnOk result (self.new ≡ record { marks = self.old.marks; has_room = true }) }
        ensures err { OnErr result (self.new ≡ self.old) }
    {
        self.marks.reserve(1)?;
        self.has_room = true;
        Ok(())
    }

    /// Adds a mark that isn't held, in its place. No memory is taken.
    pub fn add(&mut self, mark: MarkRow)
        requires room { IsTrue self.old.has_room }
        requires free { mark_at (mark_key mark) self.old.marks ≡ None }
        ensures { self.new ≡ record { marks = with_mark mark self.old.marks; has_room = false } }
    {
        let place = self
            .marks
            .partition_point(|other| compare(other, &mark.caller, mark.number).is_lt());
        self.has_room = false;
        match self.marks.insert(place, mark) {
            Ok(()) => {}
            Err(_) => unreachable!(),
        }
    }
}

/// A mark that isn't held may be added: the marks stay marks, it is found under its caller and number, and what is
/// found under others stays.
pub fn marks_are_a_map()
    ensures marks { (newest : ℕ) (marks : List Mark) (mark : Mark) → AreMarks newest marks → CanMark newest marks mark → AreMarks newest (with_mark mark marks) }
    ensures found { (key : List ℕ × ℕ) (marks : List Mark) (mark : Mark) → mark_at (mark_key mark) marks ≡ None → mark_at key (with_mark mark marks) ≡ (if same_mark key (mark_key mark) then Some mark else mark_at key marks) }
{}
