//! The items of an area, read piece by piece, so that never more than a piece of them is in memory.

ghost use Rattle.std.specs.Prelude.{◌≡◌, ◌∷◌, ◌++◌, [], IfOk, OnOk, false, map, take};
ghost use Rattle.roster_base.specs.Faults.{CountsFailure};
ghost use Rattle.item_maps.specs.Edits.{entry_of};
ghost use Rattle.item_maps.specs.Items.{Items, listed};
ghost use Rattle.hub_format.specs.Pieces.{labels_end};
ghost use Rattle.keeper_sqlite.specs.Rest.{rest_of};
ghost use Rattle.keeper_sqlite.specs.declared.rest.TheConstants.{PIECE};
ghost use Rattle.keeper_sqlite.specs.hub.Keeping.{Stay};

use crate::stored_items::StoredItems;
use hub_format::END_BYTE;
use item_maps::Item;
use roster_base::{Bytes, KeeperError, NoMemory};
use std::alloc::Global;

// How many items are read at once: some megabytes of them, so that their statements cost little beside them.
const PIECE: u64 = 4096;

/// The items of an area that are still to be read: of those whose label is below 255, the ones from a label on, or
/// none.
#[derive(Drop)]
pub(crate) struct Rest {
    area: u32,
    from: Bytes,
    is_over: bool,
}

// The least label above this one: the same, and a 0 behind it.
fn label_behind(alloc: Global, label: &[u8]) -> Result<Bytes, NoMemory>
    ensures { IfOk result (λ behind. behind ≡ label.now ++ 0 ∷ []) }
{
    let mut behind = Vec::from_slice(alloc, label)?;
    behind.push(0)?;
    Ok(Bytes::from_vec(behind))
}

impl Rest {
    /// All items of an area.
    pub(crate) fn all(alloc: Global, area: u32) -> Rest
        ensures area { result.area ≡ area }
        ensures from { result.from ≡ [] }
        ensures over { result.is_over ≡ false }
    {
        Rest {
            area,
            from: Bytes::from_vec(Vec::new(alloc)),
            is_over: false,
        }
    }

    /// Whether all of them are read.
    pub(crate) fn is_over(&self) -> bool
        ensures { result ≡ self.now.is_over }
    {
        self.is_over
    }

    // Goes behind these items, which are the first of those that were still to be read.
    fn go_behind(&mut self, alloc: Global, items: &[Item]) -> Result<(), NoMemory>
        requires { self.old.is_over ≡ false }
        ensures { (m : Items) → map entry_of items.now ≡ take PIECE (listed self.old.area self.old.from labels_end m)
            → OnOk result (map entry_of items.now ++ rest_of self.new m
            ≡ listed self.old.area self.old.from labels_end m) }
    {
        if (items.len() as u64) < PIECE {
            self.is_over = true;
            return Ok(());
        }
        let Some(last) = items.last() else {
            unreachable!();
        };
        self.from = label_behind(alloc, last.label.as_slice())?;
        Ok(())
    }

    /// The next of them, in the order of label bytes. The items of the store stay as they are.
    pub(crate) fn next<S: StoredItems>(
        &mut self,
        alloc: Global,
        store: &mut S,
    ) -> Result<Vec<Item>, KeeperError>
        requires { self.old.is_over ≡ false }
        ensures items { (m : Items) → S.stands_for store.old m → S.is_trusted store.new
            → IfOk result (λ items. map entry_of items.items ++ rest_of self.new m ≡ rest_of self.old m) }
        ensures same { Stay (S.stands_for store.old) (S.stands_for store.new) }
        ensures cause { CountsFailure (S.fault_count store.old) (S.fault_count store.new) result }
        ensures trust { S.is_trusted store.new → S.is_trusted store.old }
        ensures held { Stay (S.may_hold store.new) (S.may_hold store.old) }
        ensures signs { Stay (S.shows store.new) (S.shows store.old) }
    {
        let items = store.part_of(alloc, self.area, self.from.as_slice(), &[END_BYTE], PIECE)?;
        self.go_behind(alloc, items.as_slice())?;
        Ok(items)
    }
}
