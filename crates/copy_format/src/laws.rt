//! Laws on the items of a copy. Each function here does nothing; its contract is a law.

ghost use Rattle.std.specs.Prelude.{◌≡◌};
ghost use Rattle.keeper_memory.specs.copy.Changes.{CanChange, copy_after};
ghost use Rattle.keeper_memory.specs.copy.Copies.{Copy};
ghost use Rattle.keeper_memory.specs.copy.HeldCopy.{empty_copy};
ghost use Rattle.keeper_memory.specs.declared.copy.change.CopyChange.{CopyChange as Change};
ghost use Rattle.item_maps.specs.Edits.{after};
ghost use Rattle.item_maps.specs.Items.{Items, no_items};
ghost use Rattle.copy_format.specs.Edits.{FitsChange, edits, first_edits, turn_edits};
ghost use Rattle.copy_format.specs.Format.{Keep, KeepOne};

/// Where items keep a copy, the edits of a change lead to items that keep the copy after it.
pub fn edits_keep_the_copy_after_a_change()
    ensures { (items : Items) (c : Copy) (change : Change) (keep : Keep items c) → CanChange change c
        → FitsChange change c
        → Keep (after (edits keep.side c change) items) (copy_after change c) }
{}

/// The first edits of a store lead to items that keep the copy that holds nothing.
pub fn first_edits_keep_the_empty_copy()
    ensures { Keep (after first_edits no_items) empty_copy }
{}

/// Items of format 1 that keep a copy become items of format 2 that keep the same.
pub fn turned_items_keep_the_copy()
    ensures { (items : Items) (c : Copy) → KeepOne items c → Keep (after turn_edits items) c }
{}

/// Items keep one copy at most.
pub fn items_keep_one_copy()
    ensures { (items : Items) (c other : Copy) → Keep items c → Keep items other → c ≡ other }
{}
