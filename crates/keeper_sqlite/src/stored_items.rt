//! Stores of items.

ghost use Rattle.std.specs.Prelude.{◌≡◌, ◌≤◌, ◌⊎◌, ℕ, IfOk, IsErr, OnErr, OnOk, map, take};
ghost use Rattle.roster_base.specs.Faults.{CountsError, CountsFailure};
ghost use Rattle.roster_base.specs.declared.keeper.KeeperError.TheVariants as keeper;
ghost use Rattle.item_maps.specs.Edits.{after, entry_of};
ghost use Rattle.item_maps.specs.Items.{Items, listed};
ghost use Rattle.item_store.specs.declared.listing.TheConstants.{MOST_ITEMS};
ghost use Rattle.keeper_sqlite.specs.Trust.{Clean, KnownBehind, Sign};
ghost use Rattle.keeper_sqlite.specs.hub.Keeping.{CameOf, Stay};

use item_maps::{Edit, Item};
use roster_base::KeeperError;
use std::alloc::Global;

/// Items that a store keeps. What the clauses say of items holds as long as the store can be trusted.
pub trait StoredItems: Drop {
    ghost use Rattle.std.specs.Prelude.{◌≡◌, ◌≤◌, ◌⊎◌, ℕ, IfOk, IsErr, OnErr, OnOk, map, take};
    ghost use Rattle.roster_base.specs.Faults.{CountsError, CountsFailure};
    ghost use Rattle.roster_base.specs.declared.keeper.KeeperError.TheVariants as keeper;
    ghost use Rattle.item_maps.specs.Edits.{after, entry_of};
    ghost use Rattle.item_maps.specs.Items.{Items, listed};
    ghost use Rattle.item_store.specs.declared.listing.TheConstants.{MOST_ITEMS};
    ghost use Rattle.keeper_sqlite.specs.Trust.{Clean, KnownBehind, Sign};
    ghost use Rattle.keeper_sqlite.specs.hub.Keeping.{CameOf, Stay};

    /// The items that it stands for.
    ghost stands_for: { Self → Items → Type 0 };

    /// It has given back what was written so far, and it still answers.
    ghost is_trusted: { Self → Type 0 };

    /// The items that an open may find: those for which it stands, or, once a fault has shut it, those that a stop may
    /// leave.
    ghost may_hold: { Self → Items → Type 0 };

    /// Some clause says what an open may find, also once a fault has shut it.
    ghost is_known: { Self → Type 0 };

    /// What it shows of its past.
    ghost shows: { Self → Sign → Type 0 };

    /// How many calls failed. The count stays at the end of `u64`.
    ghost fault_count: { Self → ℕ };

    /// All items of the area whose label is at least `from` and below `to`, in the order of label bytes. From `[]` to
    /// `[0]` that is the one without a label, and to `[255]` all of the area, since the keepers write no label that
    /// begins with 255. The items stay as they are.
    fn all_of(
        &mut self,
        alloc: Global,
        area: u32,
        from: &[u8],
        to: &[u8],
    ) -> Result<Vec<Item>, KeeperError>
        ensures items { (m : Items) → stands_for self.old m → is_trusted self.new
            → IfOk result (λ items. map entry_of items.items ≡ listed area from.now to.now m) }
        ensures same { Stay (stands_for self.old) (stands_for self.new) }
        ensures cause { CountsFailure (fault_count self.old) (fault_count self.new) result }
        ensures trust { is_trusted self.new → is_trusted self.old }
        // Also where the call shuts it.
        ensures held { Stay (may_hold self.new) (may_hold self.old) }
        ensures known { is_known self.old → is_known self.new }
        ensures signs { Stay (shows self.new) (shows self.old) }
        ensures live { shows self.new Clean → OnOk result (is_trusted self.new) };

    /// The first `limit` items of the area whose label is at least `from` and below `to`, in the order of label bytes.
    /// The items stay as they are. The limit is at most `MOST_ITEMS`.
    fn part_of(
        &mut self,
        alloc: Global,
        area: u32,
        from: &[u8],
        to: &[u8],
        limit: u64,
    ) -> Result<Vec<Item>, KeeperError>
        requires { limit ≤ MOST_ITEMS }
        ensures items { (m : Items) → stands_for self.old m → is_trusted self.new
            → IfOk result (λ items. map entry_of items.items ≡ take limit (listed area from.now to.now m)) }
        ensures same { Stay (stands_for self.old) (stands_for self.new) }
        ensures cause { CountsFailure (fault_count self.old) (fault_count self.new) result }
        ensures trust { is_trusted self.new → is_trusted self.old }
        // Also where the call shuts it.
        ensures held { Stay (may_hold self.new) (may_hold self.old) }
        ensures known { is_known self.old → is_known self.new }
        ensures signs { Stay (shows self.new) (shows self.old) }
        ensures live { shows self.new Clean → OnOk result (is_trusted self.new) };

    /// Makes the edits in order, all of them or none. After an error the items are as they were.
    fn commit(&mut self, edits: &[Edit]) -> Result<(), KeeperError>
        ensures ok { (m : Items) → stands_for self.old m → OnOk result (stands_for self.new (after edits.now m)) }
        ensures err { (m : Items) → stands_for self.old m → OnErr result (stands_for self.new m) }
        ensures cause { CountsFailure (fault_count self.old) (fault_count self.new) result }
        ensures trust { is_trusted self.new → is_trusted self.old }
        // Also where the call shuts it.
        ensures made { (n : Items) → may_hold self.new n
            → (IsErr result × may_hold self.old n)
            ⊎ (is_trusted self.old × ((m : Items) → stands_for self.old m → CameOf result edits.now m n)) }
        // Want of memory alone may leave unknown what was made.
        ensures known { KnownBehind result (is_known self.old) (is_known self.new) }
        ensures signs { Stay (shows self.new) (shows self.old) }
        ensures live { shows self.new Clean → OnOk result (is_trusted self.new) };

    /// Counts a failure that the caller met in the items: they are none that it stores. The items stay as they are.
    fn refuse(&mut self) -> KeeperError
        ensures same { Stay (stands_for self.old) (stands_for self.new) }
        ensures counted { CountsError (fault_count self.old) (fault_count self.new) result }
        ensures failed { result ≡ keeper.Failed }
        ensures trust { is_trusted self.new → is_trusted self.old }
        ensures held { Stay (may_hold self.new) (may_hold self.old) }
        ensures known { is_known self.old → is_known self.new }
        ensures signs { Stay (shows self.new) (shows self.old) };

    /// The number of calls that answered `Failed`.
    fn faults(&self) -> u64
        ensures { result ≡ fault_count self.now };

    /// It stands for one map of items, as long as it is trusted.
    ghost one: { (store : Self) (m n : Items) → is_trusted store → stands_for store m → stands_for store n → m ≡ n };

    /// While it is trusted an open finds what it stands for.
    ghost holds: { (store : Self) (m : Items) → is_trusted store → stands_for store m → may_hold store m };

    /// And nothing else.
    ghost alone: { (store : Self) (m n : Items) → is_trusted store → stands_for store m → may_hold store n → n ≡ m };

    /// What an open may find is said over a clean disk.
    ghost clean: { (store : Self) (n : Items) → may_hold store n → shows store Clean };
}
