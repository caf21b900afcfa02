//! A stage, and what is held, in memory.

ghost use Rattle.std.specs.Prelude.{◌≡◌, ◌≤◌, [], true, false, None, IfOk, OnErr, OnOk, length, get_or, take};
ghost use Rattle.keeper_memory.specs.copy.Changes.{begun, held_of, stage_after};
ghost use Rattle.keeper_memory.specs.copy.Lists.{kind_count, last_from};
ghost use Rattle.keeper_memory.specs.copy.States.{state_of};
ghost use Rattle.keeper_memory.specs.copy.Tables.{held_in, stage_in};
ghost use Rattle.roster_values.specs.Kinds.{place_of_kind};

use crate::copy::state::StageState;
use crate::copy::tables::{HeldRows, StagedRows};
use roster_base::{Items, NoMemory, TryCopy};
use roster_texts::{Id, Token};
use roster_types::row::Row;
use roster_values::Kind;
use std::alloc::Global;
use std::marker::Model;
use std::mem::replace;

/// The rows of an unfinished synchronisation: the lists of the kinds that are done, and what has come of the next kind,
/// with its whole number where that is known. A clause sees a `Stage`.
#[derive(Drop)]
pub(crate) struct MemStage {
    pin: u64,
    token: Token,
    done: Vec<Items<Row>>,
    present: Vec<Row>,
    total: Option<u64>,
}

impl Model for MemStage {
    ghost use Rattle.keeper_memory.specs.copy.Copies.{Stage};

    ghost Value = { Stage };

    ghost view = { λ s. record { pin = s.pin; token = s.token; done = s.done.items; present = s.present.items; total = s.total } };
}

// The id of the last row.
fn last_id(alloc: Global, rows: &[Row]) -> Result<Option<Id>, NoMemory>
    ensures { IfOk result (λ id. id ≡ last_from None rows.now) }
{
    match rows.last() {
        None => Ok(None),
        Some(row) => Ok(Some(row.id().copy(alloc)?)),
    }
}

// The list at a place, which is taken out; none where there is no such place.
fn taken(alloc: Global, rows: &mut Vec<Items<Row>>, place: usize) -> Items<Row>
    ensures list { result ≡ get_or rows.old.items place [] }
    ensures before { take place rows.new.items ≡ take place rows.old.items }
{
    if place < rows.len() {
        replace(&mut rows[place], Items::new(alloc))
    } else {
        Items::new(alloc)
    }
}

impl MemStage {
    /// A stage that was begun just now: no kind is done, and no row is staged.
    pub(crate) fn new(alloc: Global, pin: u64, token: Token) -> MemStage
        ensures { result ≡ begun pin token }
    {
        MemStage {
            pin,
            token,
            done: Vec::new(alloc),
            present: Vec::new(alloc),
            total: None,
        }
    }

    /// The stage of these lists; no memory is taken.
    pub(crate) fn holding(alloc: Global, staged: StagedRows) -> MemStage
        ensures { result ≡ stage_in staged }
    {
        let StagedRows { state, mut rows } = staged;
        let place = state.kinds_done as usize;
        let present = taken(alloc, &mut rows, place);
        rows.truncate(place);
        MemStage {
            pin: state.pin,
            token: state.token,
            done: rows,
            present: present.into_vec(),
            total: state.total,
        }
    }

    // Adds rows of the next kind.
    fn add_some(&mut self, rows: Items<Row>, total: u64) -> Result<(), NoMemory>
        ensures ok { OnOk result (self.new ≡ stage_after self.old rows total false) }
        ensures err { OnErr result (self.new ≡ self.old) }
    {
        let mut rows = rows.into_vec();
        self.present.append(&mut rows)?;
        self.total = Some(total);
        Ok(())
    }

    // Adds the last rows of the next kind.
    fn add_last(&mut self, alloc: Global, rows: Items<Row>) -> Result<(), NoMemory>
        ensures ok { OnOk result (self.new ≡ stage_after self.old rows 0 true) }
        ensures err { OnErr result (self.new ≡ self.old) }
    {
        let mut rows = rows.into_vec();
        self.done.reserve(1)?;
        self.present.append(&mut rows)?;
        let whole = replace(&mut self.present, Vec::new(alloc));
        self.done.push_reserved(Items::from_vec(whole));
        self.total = None;
        Ok(())
    }

    /// Adds rows of the next kind, which is done with them or not.
    pub(crate) fn add(
        &mut self,
        alloc: Global,
        rows: Items<Row>,
        total: u64,
        done: bool,
    ) -> Result<(), NoMemory>
        ensures ok { OnOk result (self.new ≡ stage_after self.old rows total done) }
        ensures err { OnErr result (self.new ≡ self.old) }
    {
        if done {
            self.add_last(alloc, rows)
        } else {
            self.add_some(rows, total)
        }
    }

    /// All that a stage has but its rows.
    pub(crate) fn state(&self, alloc: Global) -> Result<StageState, NoMemory>
        requires { length self.now.done ≤ kind_count }
        ensures { IfOk result (λ s. s ≡ state_of self.now) }
    {
        Ok(StageState {
            pin: self.pin,
            token: self.token.copy(alloc)?,
            kinds_done: self.done.len() as u8,
            staged: self.present.len() as u64,
            total: self.total,
            last: last_id(alloc, &self.present)?,
        })
    }

    /// What the stage holds; no memory is taken.
    pub(crate) fn into_held(self) -> MemHeld
        ensures { result ≡ held_of self }
    {
        MemHeld {
            version: self.pin,
            token: Some(self.token),
            lists: self.done,
        }
    }
}

/// A version, the token under which it was copied, where that is known, and its lists. A clause sees them.
#[derive(Drop)]
pub(crate) struct MemHeld {
    version: u64,
    token: Option<Token>,
    lists: Vec<Items<Row>>,
}

impl Model for MemHeld {
    ghost use Rattle.keeper_memory.specs.copy.Copies.{Held};

    ghost Value = { Held };

    ghost view = { λ h. record { version = h.version; token = h.token; lists = h.lists.items } };
}

impl MemHeld {
    /// The version of these lists, which was copied under the token; no memory is taken.
    pub(crate) fn holding(held: HeldRows, token: Option<Token>) -> MemHeld
        ensures { result ≡ held_in token held }
    {
        MemHeld {
            version: held.version,
            token,
            lists: held.rows,
        }
    }

    /// The number of the version.
    pub(crate) fn version(&self) -> u64
        ensures { result ≡ self.now.version }
    {
        self.version
    }

    /// The token under which the version was copied, where that is known.
    pub(crate) fn token(&self, alloc: Global) -> Result<Option<Token>, NoMemory>
        ensures { IfOk result (λ token. token ≡ self.now.token) }
    {
        match &self.token {
            None => Ok(None),
            Some(token) => Ok(Some(token.copy(alloc)?)),
        }
    }

    /// The rows of a kind.
    pub(crate) fn list(&self, alloc: Global, kind: Kind) -> Result<Items<Row>, NoMemory>
        ensures { IfOk result (λ rows. rows ≡ get_or self.now.lists (place_of_kind kind) []) }
    {
        let place = kind.place();
        if place < self.lists.len() {
            self.lists[place].copy(alloc)
        } else {
            Ok(Items::new(alloc))
        }
    }
}
