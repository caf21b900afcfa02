//! Cycles of parents. A chain is followed only to an id of which an earlier chain told, so that all rows of a kind take
//! as many steps as there are rows.

ghost use Rattle.std.specs.Prelude.{◌≡◌, ◌<◌, IfOk, IsSome, OnOk, Some, bytes_eq, length, option_copied, true};
ghost use Rattle.std.specs.List.{list_any};
ghost use Rattle.reference_rules.specs.Notes.{AreNotedBeside, AreNotedOver, AreNotes, EndsWell, note_of};
ghost use Rattle.reference_rules.specs.Parents.{ArePassed, is_in_cycle, nth_parent, parent_of, returns_within};
ghost use Rattle.roster_types.specs.Keys.{count_of, look_up, row_key};

use crate::chains::{parent, returns_within};
use crate::typed::parent_in;
use roster_base::{NoMemory, Same};
use roster_texts::Id;
use roster_types::row::Row;
use roster_types::rows::Rows;
use roster_values::Kind;
use std::alloc::Global;
use std::collections::HashMap;

/// What is known of ids of one kind: whether each is in a cycle of parents.
pub type Notes<'a> = HashMap<&'a str, bool>;

// The ids that a chain passes, and the id at which it was left, unless it ended.
#[derive(Drop)]
struct Chain<'a> {
    passed: Vec<&'a Id>,
    end: Option<&'a Id>,
}

// Follows a chain to an id that is known, back to the first, to one that was met before, or to its end. Each power of
// two of turns is a place to which a cycle may come back that doesn't go through the first.
fn follow<'a, R: Rows>(
    alloc: Global,
    rows: &'a R,
    kind: Kind,
    id: &'a Id,
    turns: u64,
    notes: &Notes<'a>,
) -> Result<Chain<'a>, NoMemory>
    ensures passed { IfOk result (λ chain. ArePassed (R.rows rows.now) kind id.now chain.passed.items) }
    ensures end { IfOk result (λ chain. nth_parent (R.rows rows.now) kind id.now (length chain.passed.items) ≡ option_copied chain.end) }
{
    let mut passed = Vec::new(alloc);
    let mut current = id;
    let mut met = id;
    for turn in 0..turns {
        if notes.contains_key(current.as_str()) {
            break;
        }
        passed.push(current)?;
        match parent(rows, kind, current) {
            None => return Ok(Chain { passed, end: None }),
            Some(parent) => current = parent,
        }
        if current.is_same(met) || current.is_same(id) {
            break;
        }
        if (turn + 1).is_power_of_two() {
            met = current;
        }
    }
    Ok(Chain {
        passed,
        end: Some(current),
    })
}

// Notes an id to be in no cycle, unless it is known, and says what is known of it then.
fn note_unless_known<'a>(id: &'a Id, notes: &mut Notes<'a>) -> Result<bool, NoMemory>
    ensures notes { OnOk result (AreNotedBeside (λ q. bytes_eq q id.now) notes.old notes.new) }
    ensures known { IfOk result (λ known. note_of notes.new id.now ≡ Some known) }
{
    Ok(*notes.entry(id.as_str())?.or_insert(false))
}

// Notes the ids of a cycle, from one on.
fn note_cycle<'a, R: Rows>(
    rows: &'a R,
    kind: Kind,
    id: &'a Id,
    turns: u64,
    notes: &mut Notes<'a>,
) -> Result<(), NoMemory>
    requires turns { turns ≡ count_of kind (R.rows rows.now) }
    requires notes { AreNotes (R.rows rows.now) kind notes.old }
    requires cycle { returns_within (R.rows rows.now) kind id.now turns ≡ true }
    ensures notes { OnOk result (AreNotes (R.rows rows.now) kind notes.new) }
    ensures known { OnOk result (IsSome (note_of notes.new id.now)) }
{
    let mut current = id;
    for _turn in 0..turns {
        notes.insert(current.as_str(), true)?;
        match parent(rows, kind, current) {
            None => return Ok(()),
            Some(parent) => {
                if parent.is_same(id) {
                    return Ok(());
                }
                current = parent;
            }
        }
    }
    Ok(())
}

// Notes an id, and where it is in a cycle all ids of the cycle.
fn note_id<'a, R: Rows>(
    rows: &'a R,
    kind: Kind,
    id: &'a Id,
    turns: u64,
    notes: &mut Notes<'a>,
) -> Result<(), NoMemory>
    requires turns { turns ≡ count_of kind (R.rows rows.now) }
    requires notes { AreNotes (R.rows rows.now) kind notes.old }
    ensures notes { OnOk result (AreNotes (R.rows rows.now) kind notes.new) }
    ensures known { OnOk result (IsSome (note_of notes.new id.now)) }
{
    if notes.contains_key(id.as_str()) {
        return Ok(());
    }
    if returns_within(rows, kind, id, turns) {
        return note_cycle(rows, kind, id, turns, notes);
    }
    note_unless_known(id, notes)?;
    Ok(())
}

// Notes the id that a chain comes to, where it comes to one.
fn note_end<'a, R: Rows>(
    rows: &'a R,
    kind: Kind,
    id: Option<&'a Id>,
    turns: u64,
    notes: &mut Notes<'a>,
) -> Result<(), NoMemory>
    requires turns { turns ≡ count_of kind (R.rows rows.now) }
    requires notes { AreNotes (R.rows rows.now) kind notes.old }
    ensures notes { OnOk result (AreNotes (R.rows rows.now) kind notes.new) }
    ensures end { OnOk result (EndsWell notes.new (option_copied id.entry)) }
{
    match id {
        Some(id) => note_id(rows, kind, id, turns, notes),
        None => Ok(()),
    }
}

// Notes ids to be in no cycle, unless they are known.
fn note_passed<'a>(passed: &[&'a Id], notes: &mut Notes<'a>) -> Result<(), NoMemory>
    ensures { OnOk result (AreNotedBeside (λ q. list_any (λ id. bytes_eq q id.now) passed.now) notes.old notes.new) }
{
    for id in passed {
        note_unless_known(*id, notes)?;
    }
    Ok(())
}

// Notes the ids of a cycle.
fn note_lap<'a>(passed: &[&'a Id], notes: &mut Notes<'a>) -> Result<(), NoMemory>
    ensures { OnOk result (AreNotedOver (λ q. list_any (λ id. bytes_eq q id.now) passed.now) notes.old notes.new) }
{
    for id in passed {
        notes.insert(id.as_str(), true)?;
    }
    Ok(())
}

// Whether a chain came back to the id that it began with: then it passed the ids of a cycle, and no others.
fn came_back(chain: &Chain, id: &Id) -> bool
    ensures some { result ≡ true → 0 < length chain.now.passed.items }
    ensures end { result ≡ true → option_copied chain.now.end ≡ Some id.now }
{
    match chain.end {
        Some(end) => !chain.passed.is_empty() && end.is_same(id),
        None => false,
    }
}

// Notes an id, unless it is known, and the ids of its chain up to one that is known. A cycle that the chain comes to is
// noted before the ids that it passes, so that those that aren't known then are in none.
fn learn<'a, R: Rows>(
    alloc: Global,
    rows: &'a R,
    kind: Kind,
    id: &'a Id,
    turns: u64,
    notes: &mut Notes<'a>,
) -> Result<(), NoMemory>
    requires turns { turns ≡ count_of kind (R.rows rows.now) }
    requires notes { AreNotes (R.rows rows.now) kind notes.old }
    ensures notes { OnOk result (AreNotes (R.rows rows.now) kind notes.new) }
    ensures known { OnOk result (IsSome (note_of notes.new id.now)) }
{
    if notes.contains_key(id.as_str()) {
        return Ok(());
    }
    let chain = follow(alloc, rows, kind, id, turns, notes)?;
    if came_back(&chain, id) {
        return note_lap(chain.passed.as_slice(), notes);
    }
    note_end(rows, kind, chain.end, turns, notes)?;
    note_passed(chain.passed.as_slice(), notes)
}

// Whether an id whose parent is noted is in a cycle of parents. A cycle is noted whole, so an id that isn't noted is in
// none.
fn known_below<'a, R: Rows>(
    rows: &R,
    kind: Kind,
    id: &'a Id,
    parent: &Id,
    notes: &mut Notes<'a>,
) -> Result<bool, NoMemory>
    requires parent { parent_of (R.rows rows.now) kind id.now ≡ Some parent.now }
    requires notes { AreNotes (R.rows rows.now) kind notes.old }
    requires known { IsSome (note_of notes.old parent.now) }
    ensures notes { OnOk result (AreNotes (R.rows rows.now) kind notes.new) }
    ensures value { IfOk result (λ known. known ≡ is_in_cycle (R.rows rows.now) kind id.now) }
{
    note_unless_known(id, notes)
}

/// Whether a row is in a cycle of parents. Most rows have a parent that is noted: no chain is followed for them.
/// `turns` is the number of rows of the kind, which no cycle exceeds.
pub fn is_in_cycle<'a, R: Rows>(
    alloc: Global,
    rows: &'a R,
    row: &'a Row,
    turns: u64,
    notes: &mut Notes<'a>,
) -> Result<bool, NoMemory>
    requires row { look_up row_key (row_key row.now) (R.rows rows.now) ≡ Some row.now }
    requires turns { turns ≡ count_of row.now.kind (R.rows rows.now) }
    requires notes { AreNotes (R.rows rows.now) row.now.kind notes.old }
    ensures notes { OnOk result (AreNotes (R.rows rows.now) row.now.kind notes.new) }
    ensures value { IfOk result (λ known. known ≡ is_in_cycle (R.rows rows.now) row.now.kind row.now.id) }
{
    let Some(parent) = parent_in(row) else {
        return Ok(false);
    };
    let kind = row.kind();
    learn(alloc, rows, kind, parent, turns, notes)?;
    known_below(rows, kind, row.id(), parent, notes)
}
