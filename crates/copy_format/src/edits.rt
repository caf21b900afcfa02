//! The edits of a change.

ghost use Rattle.std.specs.Prelude.{◌≡◌, ◌≤◌, ℕ, Some, IfOk, IfSome, OnOk};
ghost use Rattle.keeper_memory.specs.copy.Copies.{Copy, Stage, first_unsettled};
ghost use Rattle.keeper_memory.specs.copy.Lists.{kind_count};
ghost use Rattle.keeper_memory.specs.copy.States.{state_of};
ghost use Rattle.keeper_memory.specs.declared.copy.change.CopyChange.TheVariants.{Begin, Drop as Dropped, Enter, Page};
ghost use Rattle.keeper_memory.specs.declared.copy.change.CopyChange.TheVariants.{Run, Settle, Swap};
ghost use Rattle.copy_format.specs.Edits.{FitsChange, edits as edits_of, first_edits, turn_edits};
ghost use Rattle.copy_format.specs.Roots.{root_in};

use crate::area::CopyArea;
use crate::root::CopyRoot;
use crate::staging::{new_stage, staged_more};
use crate::writing::{push_clear_stage, put_out, put_root, put_rows, put_stage, put_token};
use hub_format::{WRITTEN_FORMAT, put_format};
use item_maps::Edit;
use keeper_memory::{OutEntry, Settled, StageState};
use roster_base::{Items, NoMemory};
use roster_texts::Token;
use roster_types::row::Row;
use roster_values::Kind;
use std::alloc::Global;
use version_core::mark::Write;

/// The edits of a new store, whose copy holds nothing.
pub fn first_edits(alloc: Global) -> Result<Vec<Edit>, NoMemory>
    ensures { IfOk result (λ edits. edits.items ≡ first_edits) }
{
    let mut edits = Vec::new(alloc);
    edits.push(put_format(alloc, WRITTEN_FORMAT)?)?;
    edits.push(put_root(
        alloc,
        CopyRoot {
            run: 0,
            held: None,
            side: 0,
            last_number: 0,
        },
    )?)?;
    Ok(edits)
}

/// The edits by which a store of format 1 becomes one of format 2.
pub fn turn_edits(alloc: Global) -> Result<Vec<Edit>, NoMemory>
    ensures { IfOk result (λ edits. edits.items ≡ turn_edits) }
{
    let mut edits = Vec::new(alloc);
    edits.push(put_format(alloc, WRITTEN_FORMAT)?)?;
    Ok(edits)
}

/// The edits by which a run begins.
pub fn run_edits(alloc: Global, root: CopyRoot, run: u64) -> Result<Vec<Edit>, NoMemory>
    ensures { (side : ℕ) (c : Copy) → root ≡ root_in side c
        → IfOk result (λ edits. edits.items ≡ edits_of side c (Run run)) }
{
    let mut edits = Vec::new(alloc);
    edits.push(put_root(alloc, CopyRoot { run, ..root })?)?;
    Ok(edits)
}

/// The edits by which a stage begins.
pub fn begin_edits(alloc: Global, pin: u64, token: Token) -> Result<Vec<Edit>, NoMemory>
    ensures edits { (side : ℕ) (c : Copy) → IfOk result (λ edits. edits.items ≡ edits_of side c (Begin pin token)) }
    ensures fits { (c : Copy) → OnOk result (FitsChange (Begin pin token) c) }
{
    let mut edits = Vec::new(alloc);
    edits.push(put_stage(alloc, &new_stage(pin, token))?)?;
    Ok(edits)
}

/// The edits by which a page of the next kind goes onto the stage. None where the stage has too many rows.
pub fn page_edits(
    side: u8,
    stage: StageState,
    kind: Kind,
    rows: Items<Row>,
    total: u64,
    done: bool,
) -> Result<Option<Vec<Edit>>, NoMemory>
    requires sides { side ≤ 1 }
    requires kinds { stage.kinds_done ≤ kind_count }
    ensures edits { (c : Copy) (s : Stage) → c.stage ≡ Some s → stage ≡ state_of s
        → IfOk result (λ o. IfSome o (λ edits. edits.items ≡ edits_of side c (Page kind rows total done))) }
    ensures fits { (c : Copy) (s : Stage) → c.stage ≡ Some s → stage ≡ state_of s
        → IfOk result (λ o. IfSome o (λ _. FitsChange (Page kind rows total done) c)) }
{
    let rows = rows.into_vec();
    let alloc = *rows.allocator();
    let Some(later) = staged_more(alloc, stage, rows.as_slice(), total, done)? else {
        return Ok(None);
    };
    let mut edits = Vec::new(alloc);
    edits.push(put_stage(alloc, &later)?)?;
    let side = 1 - side;
    put_rows(
        alloc,
        &mut edits,
        CopyArea::Rows { side, kind },
        rows.as_slice(),
    )?;
    Ok(Some(edits))
}

/// The edits by which the stage is let go, where the held rows stand on this side.
pub fn drop_edits(alloc: Global, side: u8) -> Result<Vec<Edit>, NoMemory>
    requires { side ≤ 1 }
    ensures { (c : Copy) → IfOk result (λ edits. edits.items ≡ edits_of side c Dropped) }
{
    let mut edits = Vec::new(alloc);
    push_clear_stage(alloc, &mut edits, 1 - side)?;
    Ok(edits)
}

/// The edits by which the stage becomes what is held, under its token.
pub fn swap_edits(alloc: Global, root: CopyRoot, stage: &StageState) -> Result<Vec<Edit>, NoMemory>
    requires { root.side ≤ 1 }
    ensures { (side : ℕ) (c : Copy) (s : Stage) → root ≡ root_in side c → c.stage ≡ Some s → stage.now ≡ state_of s
        → IfOk result (λ edits. edits.items ≡ edits_of side c Swap) }
{
    let mut edits = Vec::new(alloc);
    let held = Some(stage.pin);
    let side = 1 - root.side;
    edits.push(put_root(alloc, CopyRoot { held, side, ..root })?)?;
    edits.push(put_token(alloc, &stage.token)?)?;
    push_clear_stage(alloc, &mut edits, root.side)?;
    Ok(edits)
}

/// The edits by which a write that is to be sent is entered under a number.
pub fn enter_edits(
    alloc: Global,
    root: CopyRoot,
    number: u64,
    write: Write,
) -> Result<Vec<Edit>, NoMemory>
    ensures edits { (side : ℕ) (c : Copy) → root ≡ root_in side c
        → IfOk result (λ edits. edits.items ≡ edits_of side c (Enter number write)) }
    ensures fits { (c : Copy) → OnOk result (FitsChange (Enter number write) c) }
{
    let entry = OutEntry {
        number,
        write,
        settled: None,
    };
    let mut edits = Vec::new(alloc);
    edits.push(put_out(alloc, &entry)?)?;
    let last_number = number;
    edits.push(put_root(
        alloc,
        CopyRoot {
            last_number,
            ..root
        },
    )?)?;
    Ok(edits)
}

/// The edits by which an entry, the first one that isn't settled, is settled by the status and the version that the hub
/// kept of it.
pub fn settle_edits(
    alloc: Global,
    entry: OutEntry,
    status: u16,
    version: u64,
) -> Result<Vec<Edit>, NoMemory>
    ensures edits { (side : ℕ) (c : Copy) → first_unsettled c.entries ≡ Some entry
        → IfOk result (λ edits. edits.items ≡ edits_of side c (Settle entry.number status version)) }
    ensures fits { (c : Copy) → OnOk result (FitsChange (Settle entry.number status version) c) }
{
    let OutEntry {
        number,
        write,
        settled: _,
    } = entry;
    let settled = OutEntry {
        number,
        write,
        settled: Some(Settled { status, version }),
    };
    let mut edits = Vec::new(alloc);
    edits.push(put_out(alloc, &settled)?)?;
    Ok(edits)
}
