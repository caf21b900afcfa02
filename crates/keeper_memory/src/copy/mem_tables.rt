//! A copy in memory.

ghost use Rattle.std.specs.Prelude.{◌≡◌, ◌≤◌, IfOk, IfSome, IsOk, None, OnErr, OnOk, length, option_copied, option_map};
ghost use Rattle.std.specs.Option.{option_map_or};
ghost use Rattle.keeper_memory.specs.copy.Changes.{IsQuick, copy_after, settled_first, stage_after};
ghost use Rattle.keeper_memory.specs.declared.copy.change.CopyChange.TheVariants.{Swap, Enter};
ghost use Rattle.keeper_memory.specs.copy.Copies.{entry_after, held_list};
ghost use Rattle.keeper_memory.specs.copy.HeldCopy.{empty_copy};
ghost use Rattle.keeper_memory.specs.copy.Lists.{kind_count};
ghost use Rattle.keeper_memory.specs.copy.Tables.{copy_in, held_in, stage_in};
ghost use Rattle.keeper_memory.specs.copy.States.{small_part, state_of as small_stage};

use crate::copy::change::CopyChange;
use crate::copy::entry::{OutEntry, Settled};
use crate::copy::mem_stage::{MemHeld, MemStage};
use crate::copy::state::{CopyState, StageState};
use crate::copy::tables::{CopyTables, HeldRows, StagedRows};
use roster_base::{Items, NoMemory, TryCopy};
use roster_texts::Token;
use roster_types::row::Row;
use roster_values::Kind;
use std::alloc::Global;
use std::marker::Model;
use version_core::mark::Write;

/// What a copy in memory holds. A clause sees a `Copy`.
#[derive(Drop)]
pub(crate) struct MemCopyTables {
    run: u64,
    held: Option<MemHeld>,
    stage: Option<MemStage>,
    entries: Vec<OutEntry>,
    last_number: u64,
}

impl Model for MemCopyTables {
    ghost use Rattle.keeper_memory.specs.copy.Copies.{Copy};

    ghost Value = { Copy };

    ghost view = { λ t. record { run = t.run; held = t.held; stage = t.stage; entries = t.entries.items; last_number = t.last_number } };
}

// The version that is held.
fn version_of(held: &Option<MemHeld>) -> Option<u64>
    ensures { result ≡ option_map (λ h. h.version) held.now }
{
    Some(held.as_ref()?.version())
}

// The token of what is held, where it is known.
fn token_of(alloc: Global, held: &Option<MemHeld>) -> Result<Option<Token>, NoMemory>
    ensures { IfOk result (λ token. token ≡ option_map_or (λ h. h.token) held.now None) }
{
    match held {
        None => Ok(None),
        Some(held) => held.token(alloc),
    }
}

// The small part of the stage, where there is one.
fn state_of(alloc: Global, stage: &Option<MemStage>) -> Result<Option<StageState>, NoMemory>
    requires { IfSome stage.now (λ s. length s.done ≤ kind_count) }
    ensures { IfOk result (λ s. s ≡ option_map small_stage stage.now) }
{
    match stage {
        None => Ok(None),
        Some(stage) => Ok(Some(stage.state(alloc)?)),
    }
}

// What tables tell of the held rows, under the token that they were copied with.
fn held_of(held: Option<HeldRows>, token: Option<Token>) -> Option<MemHeld>
    ensures { result ≡ option_map (held_in token) held }
{
    Some(MemHeld::holding(held?, token))
}

// What tables tell of the stage, where there is one.
fn stage_of(alloc: Global, stage: Option<StagedRows>) -> Option<MemStage>
    ensures { result ≡ option_map stage_in stage }
{
    Some(MemStage::holding(alloc, stage?))
}

// The first entry with a number above `after`.
fn entry_in(entries: &[OutEntry], after: u64) -> Option<&OutEntry>
    ensures { option_copied result ≡ entry_after after entries.now }
{
    entries.iter().find(|entry| after < entry.number)
}

// The first entry that isn't settled becomes so.
fn settle(entries: &mut [OutEntry], settled: Settled)
    ensures { entries.new ≡ settled_first settled entries.old }
{
    for place in 0..entries.len() {
        if entries[place].settled.is_none() {
            entries[place].settled = Some(settled);
            return;
        }
    }
}

impl MemCopyTables {
    /// A copy that holds nothing.
    pub(crate) fn new(alloc: Global) -> MemCopyTables
        ensures { result ≡ empty_copy }
    {
        MemCopyTables {
            run: 0,
            held: None,
            stage: None,
            entries: Vec::new(alloc),
            last_number: 0,
        }
    }

    /// The copy of these tables; no memory is taken.
    pub(crate) fn holding(alloc: Global, tables: CopyTables) -> MemCopyTables
        ensures { result ≡ copy_in tables }
    {
        let CopyTables {
            run,
            held,
            held_token,
            stage,
            entries,
            last_number,
        } = tables;
        MemCopyTables {
            run,
            held: held_of(held, held_token),
            stage: stage_of(alloc, stage),
            entries,
            last_number,
        }
    }

    /// All that a copy has but its rows and its entries.
    pub(crate) fn state(&self, alloc: Global) -> Result<CopyState, NoMemory>
        requires { IfSome self.now.stage (λ s. length s.done ≤ kind_count) }
        ensures { IfOk result (λ s. s ≡ small_part self.now) }
    {
        Ok(CopyState {
            run: self.run,
            held: version_of(&self.held),
            held_token: token_of(alloc, &self.held)?,
            stage: state_of(alloc, &self.stage)?,
            last_number: self.last_number,
        })
    }

    /// The rows of a kind that are held; none where nothing is.
    pub(crate) fn held(&self, alloc: Global, kind: Kind) -> Result<Items<Row>, NoMemory>
        ensures { IfOk result (λ rows. rows ≡ held_list self.now kind) }
    {
        match &self.held {
            None => Ok(Items::new(alloc)),
            Some(held) => held.list(alloc, kind),
        }
    }

    /// The first entry with a number above `after`.
    pub(crate) fn entry(&self, alloc: Global, after: u64) -> Result<Option<OutEntry>, NoMemory>
        ensures { IfOk result (λ entry. entry ≡ entry_after after self.now.entries) }
    {
        match entry_in(&self.entries, after) {
            None => Ok(None),
            Some(entry) => Ok(Some(entry.copy(alloc)?)),
        }
    }

    // Adds rows of the next kind to the stage.
    fn page(
        &mut self,
        alloc: Global,
        rows: Items<Row>,
        total: u64,
        done: bool,
    ) -> Result<(), NoMemory>
        ensures ok { OnOk result (self.new ≡ record self.old { stage = option_map (λ s. stage_after s rows total done) self.old.stage }) }
        ensures err { OnErr result (self.new ≡ self.old) }
    {
        match &mut self.stage {
            None => Ok(()),
            Some(stage) => stage.add(alloc, rows, total, done),
        }
    }

    // Lets the stage take the place of what is held.
    fn swap(&mut self)
        ensures { self.new ≡ copy_after Swap self.old }
    {
        match self.stage.take() {
            None => {}
            Some(stage) => self.held = Some(stage.into_held()),
        }
    }

    // Adds an entry that isn't settled.
    fn enter(&mut self, number: u64, write: Write) -> Result<(), NoMemory>
        ensures ok { OnOk result (self.new ≡ copy_after (Enter number write) self.old) }
        ensures err { OnErr result (self.new ≡ self.old) }
    {
        self.entries.push(OutEntry {
            number,
            write,
            settled: None,
        })?;
        self.last_number = number;
        Ok(())
    }

    /// Makes one change, or none where memory runs out.
    pub(crate) fn commit(&mut self, alloc: Global, change: CopyChange) -> Result<(), NoMemory>
        ensures ok { OnOk result (self.new ≡ copy_after change self.old) }
        ensures err { OnErr result (self.new ≡ self.old) }
        ensures quick { IsQuick change → IsOk result }
    {
        match change {
            CopyChange::Run { run } => {
                self.run = run;
                Ok(())
            }
            CopyChange::Begin { pin, token } => {
                self.stage = Some(MemStage::new(alloc, pin, token));
                Ok(())
            }
            CopyChange::Page {
                kind: _,
                rows,
                total,
                done,
            } => self.page(alloc, rows, total, done),
            CopyChange::Drop => {
                self.stage = None;
                Ok(())
            }
            CopyChange::Swap => {
                self.swap();
                Ok(())
            }
            CopyChange::Enter { number, write } => self.enter(number, write),
            CopyChange::Settle {
                number: _,
                status,
                version,
            } => {
                settle(&mut self.entries, Settled { status, version });
                Ok(())
            }
        }
    }
}
