//! What a store keeps, read back.

ghost use Rattle.std.specs.Prelude.{IfOk, IfSome, IsErr, None, OnOk, false, ◌≡◌, ◌≤◌};
ghost use Rattle.roster_base.specs.Faults.{CountsFailure};
ghost use Rattle.item_maps.specs.Items.{Items as Kept};
ghost use Rattle.keeper_memory.specs.copy.Copies.{entry_after, held_list};
ghost use Rattle.keeper_memory.specs.copy.Lists.{IsList};
ghost use Rattle.keeper_memory.specs.copy.States.{CanBe, CanBeEntry, Shows};
ghost use Rattle.copy_format.specs.Format.{Keep};
ghost use Rattle.keeper_sqlite.specs.hub.Keeping.{ComeOf, HasOtherFormat, IfKeeps, Keeps, Stay};
ghost use Rattle.keeper_sqlite.specs.copy.Keeping.{KeepEither, KeepOrNew};
ghost use Rattle.keeper_sqlite.specs.Trust.{Clean};

use crate::copy::prepare::prepare;
use crate::copy::stored::{stored_entry, stored_root, stored_rows, stored_stage, stored_token};
use crate::stored_items::StoredItems;
use keeper_memory::{CopyState, OutEntry};
use roster_base::{Items, KeeperError};
use roster_texts::Token;
use roster_types::row::Row;
use roster_values::Kind;
use std::alloc::Global;

// Whether a token stands where no version is held.
fn is_stray(held: Option<u64>, token: &Option<Token>) -> bool
    ensures { result ≡ false → held ≡ None → token.now ≡ None }
{
    held.is_none() && token.is_some()
}

// The small part of the copy that a store that is ready keeps. A token of no version is refused.
fn ready_state<S: StoredItems>(alloc: Global, store: &mut S) -> Result<CopyState, KeeperError>
    ensures shown { IfKeeps Keep (S.stands_for store.old) (S.is_trusted store.new) (λ c. IfOk result (Shows c)) }
    ensures can { IfOk result CanBe }
    ensures same { Stay (S.stands_for store.old) (S.stands_for store.new) }
    ensures cause { CountsFailure (S.fault_count store.old) (S.fault_count store.new) result }
    ensures trust { S.is_trusted store.new → S.is_trusted store.old }
    ensures held { Stay (S.may_hold store.new) (S.may_hold store.old) }
    ensures signs { Stay (S.shows store.new) (S.shows store.old) }
    ensures live { S.shows store.new Clean → OnOk result (S.is_trusted store.new) }
{
    let root = stored_root(alloc, store)?;
    let held_token = stored_token(alloc, store)?;
    if is_stray(root.held, &held_token) {
        return Err(store.refuse());
    }
    let stage = stored_stage(alloc, store)?;
    Ok(CopyState {
        run: root.run,
        held: root.held,
        held_token,
        stage,
        last_number: root.last_number,
    })
}

/// The small part of the copy that a store keeps.
pub(crate) fn state_from<S: StoredItems>(
    alloc: Global,
    store: &mut S,
) -> Result<CopyState, KeeperError>
    ensures shown { IfKeeps KeepOrNew (S.stands_for store.old) (S.is_trusted store.new) (λ c. IfOk result (Shows c)) }
    ensures can { IfOk result CanBe }
    ensures kept { IfKeeps KeepOrNew (S.stands_for store.old) (S.is_trusted store.new)
        (Keeps KeepOrNew (S.stands_for store.new)) }
    ensures turned { IfKeeps KeepOrNew (S.stands_for store.old) (S.is_trusted store.new) (λ c.
        OnOk result (Keeps Keep (S.stands_for store.new) c)) }
    ensures whole { IfKeeps KeepEither (S.stands_for store.old) (S.is_trusted store.new)
        (Keeps KeepEither (S.stands_for store.new)) }
    ensures other { (m : Kept) → S.stands_for store.old m → HasOtherFormat m → S.is_trusted store.new
        → IsErr result × S.stands_for store.new m }
    ensures cause { CountsFailure (S.fault_count store.old) (S.fault_count store.new) result }
    ensures trust { S.is_trusted store.new → S.is_trusted store.old }
    ensures signs { Stay (S.shows store.new) (S.shows store.old) }
    ensures made { (n : Kept) → S.may_hold store.new n
        → ComeOf (S.may_hold store.old) (S.is_trusted store.old) (S.stands_for store.old) KeepOrNew
        (λ c now. KeepOrNew now c) n }
    ensures live { S.shows store.new Clean → OnOk result (S.is_trusted store.new) }
{
    prepare(alloc, store)?;
    ready_state(alloc, store)
}

// The rows of a kind that a store that is ready holds. Rows of no version are refused.
fn ready_rows<S: StoredItems>(
    alloc: Global,
    store: &mut S,
    kind: Kind,
) -> Result<Items<Row>, KeeperError>
    ensures shown { IfKeeps Keep (S.stands_for store.old) (S.is_trusted store.new) (λ c.
        IfOk result (λ rows. rows ≡ held_list c kind)) }
    ensures can { IfOk result (IsList kind) }
    ensures same { Stay (S.stands_for store.old) (S.stands_for store.new) }
    ensures cause { CountsFailure (S.fault_count store.old) (S.fault_count store.new) result }
    ensures trust { S.is_trusted store.new → S.is_trusted store.old }
    ensures held { Stay (S.may_hold store.new) (S.may_hold store.old) }
    ensures signs { Stay (S.shows store.new) (S.shows store.old) }
    ensures live { S.shows store.new Clean → OnOk result (S.is_trusted store.new) }
{
    let root = stored_root(alloc, store)?;
    let rows = stored_rows(alloc, store, root.side, kind)?;
    if root.held.is_none() && !rows.is_empty() {
        return Err(store.refuse());
    }
    Ok(rows)
}

/// The rows of a kind that a store holds.
pub(crate) fn held_from<S: StoredItems>(
    alloc: Global,
    store: &mut S,
    kind: Kind,
) -> Result<Items<Row>, KeeperError>
    ensures shown { IfKeeps KeepOrNew (S.stands_for store.old) (S.is_trusted store.new) (λ c.
        IfOk result (λ rows. rows ≡ held_list c kind)) }
    ensures can { IfOk result (IsList kind) }
    ensures kept { IfKeeps KeepOrNew (S.stands_for store.old) (S.is_trusted store.new)
        (Keeps KeepOrNew (S.stands_for store.new)) }
    ensures turned { IfKeeps KeepOrNew (S.stands_for store.old) (S.is_trusted store.new) (λ c.
        OnOk result (Keeps Keep (S.stands_for store.new) c)) }
    ensures whole { IfKeeps KeepEither (S.stands_for store.old) (S.is_trusted store.new)
        (Keeps KeepEither (S.stands_for store.new)) }
    ensures other { (m : Kept) → S.stands_for store.old m → HasOtherFormat m → S.is_trusted store.new
        → IsErr result × S.stands_for store.new m }
    ensures cause { CountsFailure (S.fault_count store.old) (S.fault_count store.new) result }
    ensures trust { S.is_trusted store.new → S.is_trusted store.old }
    ensures signs { Stay (S.shows store.new) (S.shows store.old) }
    ensures made { (n : Kept) → S.may_hold store.new n
        → ComeOf (S.may_hold store.old) (S.is_trusted store.old) (S.stands_for store.old) KeepOrNew
        (λ c now. KeepOrNew now c) n }
    ensures live { S.shows store.new Clean → OnOk result (S.is_trusted store.new) }
{
    prepare(alloc, store)?;
    ready_rows(alloc, store, kind)
}

// Whether an entry is numbered above the last number.
fn is_beyond(entry: &Option<OutEntry>, last_number: u64) -> bool
    ensures { result ≡ false → IfSome entry.now (λ e. e.number ≤ last_number) }
{
    match entry {
        Some(entry) => entry.number > last_number,
        None => false,
    }
}

// The entry of a store that is ready with the least number above `after`. One above the last number is refused.
fn ready_entry<S: StoredItems>(
    alloc: Global,
    store: &mut S,
    after: u64,
) -> Result<Option<OutEntry>, KeeperError>
    ensures shown { IfKeeps Keep (S.stands_for store.old) (S.is_trusted store.new) (λ c.
        IfOk result (λ entry. entry ≡ entry_after after c.entries)) }
    ensures can { IfOk result (λ entry. IfSome entry (CanBeEntry after)) }
    ensures same { Stay (S.stands_for store.old) (S.stands_for store.new) }
    ensures cause { CountsFailure (S.fault_count store.old) (S.fault_count store.new) result }
    ensures trust { S.is_trusted store.new → S.is_trusted store.old }
    ensures held { Stay (S.may_hold store.new) (S.may_hold store.old) }
    ensures signs { Stay (S.shows store.new) (S.shows store.old) }
    ensures live { S.shows store.new Clean → OnOk result (S.is_trusted store.new) }
{
    let root = stored_root(alloc, store)?;
    let entry = stored_entry(alloc, store, after)?;
    if is_beyond(&entry, root.last_number) {
        return Err(store.refuse());
    }
    Ok(entry)
}

/// The entry of a store with the least number above `after`.
pub(crate) fn entry_from<S: StoredItems>(
    alloc: Global,
    store: &mut S,
    after: u64,
) -> Result<Option<OutEntry>, KeeperError>
    ensures shown { IfKeeps KeepOrNew (S.stands_for store.old) (S.is_trusted store.new) (λ c.
        IfOk result (λ entry. entry ≡ entry_after after c.entries)) }
    ensures can { IfOk result (λ entry. IfSome entry (CanBeEntry after)) }
    ensures kept { IfKeeps KeepOrNew (S.stands_for store.old) (S.is_trusted store.new)
        (Keeps KeepOrNew (S.stands_for store.new)) }
    ensures turned { IfKeeps KeepOrNew (S.stands_for store.old) (S.is_trusted store.new) (λ c.
        OnOk result (Keeps Keep (S.stands_for store.new) c)) }
    ensures whole { IfKeeps KeepEither (S.stands_for store.old) (S.is_trusted store.new)
        (Keeps KeepEither (S.stands_for store.new)) }
    ensures other { (m : Kept) → S.stands_for store.old m → HasOtherFormat m → S.is_trusted store.new
        → IsErr result × S.stands_for store.new m }
    ensures cause { CountsFailure (S.fault_count store.old) (S.fault_count store.new) result }
    ensures trust { S.is_trusted store.new → S.is_trusted store.old }
    ensures signs { Stay (S.shows store.new) (S.shows store.old) }
    ensures made { (n : Kept) → S.may_hold store.new n
        → ComeOf (S.may_hold store.old) (S.is_trusted store.old) (S.stands_for store.old) KeepOrNew
        (λ c now. KeepOrNew now c) n }
    ensures live { S.shows store.new Clean → OnOk result (S.is_trusted store.new) }
{
    prepare(alloc, store)?;
    ready_entry(alloc, store, after)
}
