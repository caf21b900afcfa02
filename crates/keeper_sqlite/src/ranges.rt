//! Ranges of items.

ghost use Rattle.std.specs.Prelude.{◌≡◌, ◌≤◌, Bool, IfOk, OnOk, map, take};
ghost use Rattle.sqlite.specs.Held.{state};
ghost use Rattle.sqlite.specs.State.{HasCleanDisk};
ghost use Rattle.roster_base.specs.Faults.{CountsFailure};
ghost use Rattle.item_maps.specs.Edits.{entry_of};
ghost use Rattle.item_maps.specs.Items.{Items, listed};
ghost use Rattle.item_store.specs.Stands.{StandsFor};
ghost use Rattle.item_store.specs.declared.listing.TheConstants.{MOST_ITEMS};
ghost use Rattle.keeper_sqlite.specs.Trust.{IsTrusted, MayHold, shown_by};
ghost use Rattle.keeper_sqlite.specs.hub.Keeping.{Stay};

use item_store::{Item, ItemStore};
use roster_base::KeeperError;
use sqlite::Alter;
use std::alloc::Global;

// More items than a store has: a range that gives so many is refused.
const MOST: u64 = 1_000_000_000_000_000;

/// All items of the area whose label is at least `from` and below `to`, in the order of label bytes.
pub fn all_of<S: Alter>(
    alloc: Global,
    store: &mut ItemStore<S>,
    area: u32,
    from: &[u8],
    to: &[u8],
) -> Result<Vec<Item>, KeeperError>
    ensures items { (m : Items) → StandsFor (state S.Store store.old.connection) m
        → IsTrusted (state S.Store store.new.connection)
        → IfOk result (λ items. map entry_of items.items ≡ listed area from.now to.now m) }
    ensures same { (m : Items) → StandsFor (state S.Store store.old.connection) m
        → StandsFor (state S.Store store.new.connection) m }
    ensures cause { CountsFailure store.old.faults store.new.faults result }
    ensures trust { IsTrusted (state S.Store store.new.connection) → IsTrusted (state S.Store store.old.connection) }
    ensures held { (lost : Bool)
        → Stay (MayHold (state S.Store store.new.connection) lost) (MayHold (state S.Store store.old.connection) lost) }
    ensures signs { Stay (shown_by (state S.Store store.new.connection))
        (shown_by (state S.Store store.old.connection)) }
    ensures live { HasCleanDisk (state S.Store store.new.connection)
        → OnOk result (IsTrusted (state S.Store store.new.connection)) }
{
    let items = store.range(alloc, area, from, to, MOST)?;
    if items.len() as u64 >= MOST {
        return Err(store.refuse_items());
    }
    Ok(items)
}

/// The first `limit` items of the area whose label is at least `from` and below `to`, in the order of label bytes. The
/// limit is at most `MOST_ITEMS`.
pub fn part_of<S: Alter>(
    alloc: Global,
    store: &mut ItemStore<S>,
    area: u32,
    from: &[u8],
    to: &[u8],
    limit: u64,
) -> Result<Vec<Item>, KeeperError>
    requires { limit ≤ MOST_ITEMS }
    ensures items { (m : Items) → StandsFor (state S.Store store.old.connection) m
        → IsTrusted (state S.Store store.new.connection)
        → IfOk result (λ items. map entry_of items.items ≡ take limit (listed area from.now to.now m)) }
    ensures same { (m : Items) → StandsFor (state S.Store store.old.connection) m
        → StandsFor (state S.Store store.new.connection) m }
    ensures cause { CountsFailure store.old.faults store.new.faults result }
    ensures trust { IsTrusted (state S.Store store.new.connection) → IsTrusted (state S.Store store.old.connection) }
    ensures held { (lost : Bool)
        → Stay (MayHold (state S.Store store.new.connection) lost) (MayHold (state S.Store store.old.connection) lost) }
    ensures signs { Stay (shown_by (state S.Store store.new.connection))
        (shown_by (state S.Store store.old.connection)) }
    ensures live { HasCleanDisk (state S.Store store.new.connection)
        → OnOk result (IsTrusted (state S.Store store.new.connection)) }
{
    let items = store.range(alloc, area, from, to, limit)?;
    Ok(items)
}
