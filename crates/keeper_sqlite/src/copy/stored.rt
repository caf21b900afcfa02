//! What a store that is ready has of a copy.

ghost use Rattle.std.specs.Prelude.{IfOk, IfSome, OnOk, option_map, slice_get, ℕ, ◌+◌, ◌<◌, ◌^◌, ◌≡◌};
ghost use Rattle.roster_base.specs.Faults.{CountsFailure};
ghost use Rattle.keeper_memory.specs.copy.Copies.{Copy, entry_after, held_list, held_token};
ghost use Rattle.keeper_memory.specs.copy.Lists.{IsList};
ghost use Rattle.keeper_memory.specs.copy.States.{CanBeEntry, CanBeStage, stage_of as stage_in};
ghost use Rattle.keeper_memory.specs.declared.copy.entry.OutEntry.{OutEntry as EntryValue};
ghost use Rattle.keeper_memory.specs.declared.copy.state.TheConstants.{LAST as last_number};
ghost use Rattle.hub_format.specs.Pieces.{number};
ghost use Rattle.item_maps.specs.Edits.{entry_of};
ghost use Rattle.item_maps.specs.Items.{Items as Kept, listed};
ghost use Rattle.copy_format.specs.Areas.{outbox_area};
ghost use Rattle.copy_format.specs.Format.{IsOut, out_entry};
ghost use Rattle.copy_format.specs.Roots.{CanBeRoot, root_in};
ghost use Rattle.keeper_sqlite.specs.hub.Keeping.{Stay};
ghost use Rattle.keeper_sqlite.specs.copy.Keeping.{HasCopy};
ghost use Rattle.keeper_sqlite.specs.Trust.{Clean};

use crate::stored_items::StoredItems;
use copy_format::{CopyArea, CopyRoot, out_of, root_of, rows_of, stage_of, token_of};
use hub_format::END_BYTE;
use item_maps::Item;
use keeper_memory::{LAST, OutEntry, StageState};
use roster_base::{Items, KeeperError, NoMemory};
use roster_texts::Token;
use roster_types::row::Row;
use roster_values::Kind;
use std::alloc::Global;

/// The small part of a copy that stands in the item of its state.
pub(crate) fn stored_root<S: StoredItems>(
    alloc: Global,
    store: &mut S,
) -> Result<CopyRoot, KeeperError>
    ensures root { (side : ℕ) (c : Copy) → HasCopy (S.stands_for store.old) side c → S.is_trusted store.new
        → IfOk result (λ r. r ≡ root_in side c) }
    ensures can { IfOk result CanBeRoot }
    ensures same { Stay (S.stands_for store.old) (S.stands_for store.new) }
    ensures cause { CountsFailure (S.fault_count store.old) (S.fault_count store.new) result }
    ensures trust { S.is_trusted store.new → S.is_trusted store.old }
    ensures held { Stay (S.may_hold store.new) (S.may_hold store.old) }
    ensures signs { Stay (S.shows store.new) (S.shows store.old) }
    ensures live { S.shows store.new Clean → OnOk result (S.is_trusted store.new) }
{
    let items = store.all_of(alloc, CopyArea::State.number(), &[], &[0])?;
    match root_of(items.as_slice()) {
        Some(root) => Ok(root),
        None => Err(store.refuse()),
    }
}

/// The small part of the stage, where there is one.
pub(crate) fn stored_stage<S: StoredItems>(
    alloc: Global,
    store: &mut S,
) -> Result<Option<StageState>, KeeperError>
    ensures stage { (side : ℕ) (c : Copy) → HasCopy (S.stands_for store.old) side c → S.is_trusted store.new
        → IfOk result (λ s. s ≡ stage_in c) }
    ensures can { IfOk result (λ s. IfSome s CanBeStage) }
    ensures same { Stay (S.stands_for store.old) (S.stands_for store.new) }
    ensures cause { CountsFailure (S.fault_count store.old) (S.fault_count store.new) result }
    ensures trust { S.is_trusted store.new → S.is_trusted store.old }
    ensures held { Stay (S.may_hold store.new) (S.may_hold store.old) }
    ensures signs { Stay (S.shows store.new) (S.shows store.old) }
    ensures live { S.shows store.new Clean → OnOk result (S.is_trusted store.new) }
{
    let items = store.all_of(alloc, CopyArea::Stage.number(), &[], &[0])?;
    match stage_of(alloc, items.as_slice())? {
        Some(stage) => Ok(stage),
        None => Err(store.refuse()),
    }
}

/// The token under which what is held was copied, where there is one.
pub(crate) fn stored_token<S: StoredItems>(
    alloc: Global,
    store: &mut S,
) -> Result<Option<Token>, KeeperError>
    ensures token { (side : ℕ) (c : Copy) → HasCopy (S.stands_for store.old) side c → S.is_trusted store.new
        → IfOk result (λ t. t ≡ held_token c) }
    ensures same { Stay (S.stands_for store.old) (S.stands_for store.new) }
    ensures cause { CountsFailure (S.fault_count store.old) (S.fault_count store.new) result }
    ensures trust { S.is_trusted store.new → S.is_trusted store.old }
    ensures held { Stay (S.may_hold store.new) (S.may_hold store.old) }
    ensures signs { Stay (S.shows store.new) (S.shows store.old) }
    ensures live { S.shows store.new Clean → OnOk result (S.is_trusted store.new) }
{
    let items = store.all_of(alloc, CopyArea::Token.number(), &[], &[0])?;
    match token_of(alloc, items.as_slice())? {
        Some(token) => Ok(token),
        None => Err(store.refuse()),
    }
}

/// The rows of a kind that are held.
pub(crate) fn stored_rows<S: StoredItems>(
    alloc: Global,
    store: &mut S,
    side: u8,
    kind: Kind,
) -> Result<Items<Row>, KeeperError>
    ensures rows { (c : Copy) → HasCopy (S.stands_for store.old) side c → S.is_trusted store.new
        → IfOk result (λ rows. rows ≡ held_list c kind) }
    ensures list { IfOk result (IsList kind) }
    ensures same { Stay (S.stands_for store.old) (S.stands_for store.new) }
    ensures cause { CountsFailure (S.fault_count store.old) (S.fault_count store.new) result }
    ensures trust { S.is_trusted store.new → S.is_trusted store.old }
    ensures held { Stay (S.may_hold store.new) (S.may_hold store.old) }
    ensures signs { Stay (S.shows store.new) (S.shows store.old) }
    ensures live { S.shows store.new Clean → OnOk result (S.is_trusted store.new) }
{
    let area = CopyArea::Rows { side, kind };
    let items = store.all_of(alloc, area.number(), &[], &[END_BYTE])?;
    match rows_of(alloc, kind, items.as_slice())? {
        Some(rows) => Ok(Items::from_vec(rows)),
        None => Err(store.refuse()),
    }
}

// The entry of an item, if its number is above `after`.
fn entry_in(alloc: Global, after: u64, item: &Item) -> Result<Option<OutEntry>, NoMemory>
    ensures found { (entry : EntryValue) → IsOut entry → after < entry.number → entry_of item.now ≡ out_entry entry
        → IfOk result (λ o. IfSome o (λ found. found ≡ entry)) }
    ensures can { IfOk result (λ o. IfSome o (CanBeEntry after)) }
{
    match out_of(alloc, item)? {
        Some(entry) if after < entry.number => Ok(Some(entry)),
        _ => Ok(None),
    }
}

// The first item of an entry whose number is above `after`.
fn item_above<S: StoredItems>(
    alloc: Global,
    store: &mut S,
    after: u64,
) -> Result<Option<Item>, KeeperError>
    requires { after + 1 < 2 ^ 64 }
    ensures item { (m : Kept) → S.stands_for store.old m → S.is_trusted store.new
        → IfOk result (λ item. option_map entry_of item
        ≡ slice_get (listed outbox_area (number (after + 1)) (number (last_number + 1)) m) 0) }
    ensures same { Stay (S.stands_for store.old) (S.stands_for store.new) }
    ensures cause { CountsFailure (S.fault_count store.old) (S.fault_count store.new) result }
    ensures trust { S.is_trusted store.new → S.is_trusted store.old }
    ensures held { Stay (S.may_hold store.new) (S.may_hold store.old) }
    ensures signs { Stay (S.shows store.new) (S.shows store.old) }
    ensures live { S.shows store.new Clean → OnOk result (S.is_trusted store.new) }
{
    let mut items = store.part_of(
        alloc,
        CopyArea::Outbox.number(),
        &(after + 1).to_be_bytes(),
        &(LAST + 1).to_be_bytes(),
        1,
    )?;
    Ok(items.pop())
}

// The entry with the least number above `after`, which is below the greatest.
fn entry_above<S: StoredItems>(
    alloc: Global,
    store: &mut S,
    after: u64,
) -> Result<Option<OutEntry>, KeeperError>
    requires { after + 1 < 2 ^ 64 }
    ensures entry { (side : ℕ) (c : Copy) → HasCopy (S.stands_for store.old) side c → S.is_trusted store.new
        → IfOk result (λ entry. entry ≡ entry_after after c.entries) }
    ensures can { IfOk result (λ entry. IfSome entry (CanBeEntry after)) }
    ensures same { Stay (S.stands_for store.old) (S.stands_for store.new) }
    ensures cause { CountsFailure (S.fault_count store.old) (S.fault_count store.new) result }
    ensures trust { S.is_trusted store.new → S.is_trusted store.old }
    ensures held { Stay (S.may_hold store.new) (S.may_hold store.old) }
    ensures signs { Stay (S.shows store.new) (S.shows store.old) }
    ensures live { S.shows store.new Clean → OnOk result (S.is_trusted store.new) }
{
    let Some(item) = item_above(alloc, store, after)? else {
        return Ok(None);
    };
    match entry_in(alloc, after, &item)? {
        Some(entry) => Ok(Some(entry)),
        None => Err(store.refuse()),
    }
}

/// The entry with the least number above `after`. One item is read.
pub(crate) fn stored_entry<S: StoredItems>(
    alloc: Global,
    store: &mut S,
    after: u64,
) -> Result<Option<OutEntry>, KeeperError>
    ensures entry { (side : ℕ) (c : Copy) → HasCopy (S.stands_for store.old) side c → S.is_trusted store.new
        → IfOk result (λ entry. entry ≡ entry_after after c.entries) }
    ensures can { IfOk result (λ entry. IfSome entry (CanBeEntry after)) }
    ensures same { Stay (S.stands_for store.old) (S.stands_for store.new) }
    ensures cause { CountsFailure (S.fault_count store.old) (S.fault_count store.new) result }
    ensures trust { S.is_trusted store.new → S.is_trusted store.old }
    ensures held { Stay (S.may_hold store.new) (S.may_hold store.old) }
    ensures signs { Stay (S.shows store.new) (S.shows store.old) }
    ensures live { S.shows store.new Clean → S.is_trusted store.old → OnOk result (S.is_trusted store.new) }
{
    if after >= LAST {
        return Ok(None);
    }
    entry_above(alloc, store, after)
}
