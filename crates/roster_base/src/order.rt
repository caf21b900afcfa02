//! Lists in ascending order of their items' keys.

ghost use Rattle.std.specs.Prelude.{◌≡◌, ℕ, List, map, true, option_copied, IfOk, OnOk, bytes_eq};
ghost use Rattle.std.specs.Cmp.Lexicographic.{slice_cmp};
ghost use Rattle.std.specs.List.{IsDistinct};
ghost use Rattle.std.specs.List.Sorted.{IsPermutation, IsSortedByKey, IsStableByKey};
ghost use Rattle.std.specs.Ordering.{nat_cmp};
ghost use Rattle.roster_base.specs.Order.{RiseBy, in_order, is_below, last_key, with_item};

use crate::memory::NoMemory;
use std::alloc::Global;

/// A value that has a text by which it is found and put in order.
pub trait Keyed {
    ghost key_of: { Self → List ℕ };

    /// The text by which the value is put in order.
    fn key(&self) -> &str
        ensures { result.now ≡ key_of self.now };
}

// Whether a key is above the last one, if there is one.
fn is_below(last: Option<&str>, key: &str) -> bool
    ensures { result ≡ is_below (option_copied last.entry) key.now }
{
    match last {
        None => true,
        Some(last) => last.cmp(key).is_lt(),
    }
}

// Whether each key is below the one behind it, as most lists come.
fn is_in_order<T: Keyed>(items: &[T]) -> bool
    ensures { result ≡ true → in_order T.key_of items.now ≡ items.now }
{
    let mut below = None;
    for item in items {
        if !is_below(below, item.key()) {
            return false;
        }
        below = Some(item.key());
    }
    true
}

// Sorts by key. Items with the same key stay in the order in which they stood.
fn sort<T: Keyed>(items: &mut Vec<T>) -> Result<(), NoMemory>
    ensures moved { IsPermutation items.old.items items.new.items }
    ensures sorted { OnOk result (IsSortedByKey T.key_of (slice_cmp nat_cmp) items.new.items) }
    ensures stable { IsStableByKey T.key_of (slice_cmp nat_cmp) items.old.items items.new.items }
{
    items.sort_by(|one, other| one.key().cmp(other.key()))?;
    Ok(())
}

// Whether an item's key is above that of the last.
fn is_above_last<T: Keyed>(kept: &[T], item: &T) -> bool
    ensures { result ≡ is_below (last_key T.key_of kept.now) (T.key_of item.now) }
{
    match kept.last() {
        None => true,
        Some(last) => is_below(Some(last.key()), item.key()),
    }
}

// Adds an item, where its key is above that of the last.
fn keep<T: Keyed + Drop>(kept: &mut Vec<T>, item: T) -> Result<(), NoMemory>
    ensures { OnOk result (kept.new.items ≡ with_item T.key_of kept.old.items item) }
{
    if is_above_last(kept, &item) {
        return Ok(kept.push(item)?);
    }
    drop(item);
    Ok(())
}

// Of each key the first item of a sorted list.
fn firsts<T: Keyed + Drop>(alloc: Global, items: Vec<T>) -> Result<Vec<T>, NoMemory>
    requires { IsSortedByKey T.key_of (slice_cmp nat_cmp) items.items }
    ensures { IfOk result (λ v. v.items ≡ in_order T.key_of items.items) }
{
    let mut kept = Vec::new(alloc);
    for item in items {
        keep(&mut kept, item)?;
    }
    Ok(kept)
}

/// The items in ascending order of their keys' bytes. Of two with one key the first stays.
pub fn sorted<T: Keyed + Drop>(alloc: Global, mut items: Vec<T>) -> Result<Vec<T>, NoMemory>
    ensures value { IfOk result (λ v. v.items ≡ in_order T.key_of items.items) }
    ensures rise { IfOk result (λ v. RiseBy T.key_of v.items) }
    ensures all { IsDistinct bytes_eq (map T.key_of items.items)
        → IfOk result (λ v. IsPermutation items.items v.items) }
{
    if is_in_order(&items) {
        return Ok(items);
    }
    sort(&mut items)?;
    // Where no keys repeat, no second list is made.
    if is_in_order(&items) {
        return Ok(items);
    }
    firsts(alloc, items)
}
