//! The rows of a set in the order of kinds and ids, so that one is found without going through all.

ghost use Rattle.std.specs.Prelude.{◌≡◌, ◌<◌, IfOk, flat_map, is_some, length, map, true};
ghost use Rattle.roster_types.specs.Keys.{Ascends, Key, look_up};
ghost use Rattle.roster_types.specs.Sets.{AreParts};
ghost use Rattle.roster_values.specs.Kinds.{place_of_kind};
ghost use Rattle.version_changes.specs.sets.Applying.{set_key};
ghost use Rattle.version_changes.specs.sets.Steps.{bare};

use reference_rules::order;
use roster_base::{Items, NoMemory, sorted};
use roster_texts::Id;
use roster_types::set::SetPart;
use roster_types::set_row::SetRow;
use roster_values::Kind;
use std::alloc::Global;

/// The parts of a set without their rows.
pub fn bare_parts(alloc: Global, parts: &[SetPart]) -> Result<Items<SetPart>, NoMemory>
    ensures { IfOk result (λ v. v ≡ map bare parts.now) }
{
    let mut bare = Items::new(alloc);
    for part in parts {
        bare.push(SetPart {
            kind: part.kind,
            mode: part.mode,
            rows: Items::new(alloc),
        })?;
    }
    Ok(bare)
}

/// The rows of the parts of a set in the order of kinds and ids, as they lie in them. No row is copied.
pub fn ordered_rows(alloc: Global, parts: Items<SetPart>) -> Result<Vec<SetRow>, NoMemory>
    requires { AreParts parts }
    ensures order { IfOk result (λ v. Ascends set_key v.items) }
    ensures rows { IfOk result (λ v. (k : Key) → look_up set_key k v.items ≡ look_up set_key k (flat_map (λ part. part.rows) parts)) }
{
    let mut all = Vec::new(alloc);
    for part in parts.into_vec() {
        let mut rows = sorted(alloc, part.rows.into_vec())?;
        all.append(&mut rows)?;
    }
    Ok(all)
}

// Whether the row at a place has this kind and id.
fn is_at(rows: &[SetRow], kind: Kind, id: &Id, place: usize) -> bool
    requires { Ascends set_key rows.now }
    ensures bound { result ≡ true → place < length rows.now }
    ensures listed { result ≡ true → is_some (look_up set_key (place_of_kind kind, id.now) rows.now) ≡ true }
{
    if place >= rows.len() {
        return false;
    }
    let listed = &rows[place].row;
    order::compare(listed.kind(), listed.id(), kind, id).is_eq()
}

/// Whether a row of this kind and id is among rows in order. They are looked for at the place `near` first, which is
/// then the one behind them: of rows asked for in their order each is found in one step.
pub fn is_listed(rows: &[SetRow], kind: Kind, id: &Id, near: &mut usize) -> bool
    requires { Ascends set_key rows.now }
    ensures { result ≡ is_some (look_up set_key (place_of_kind kind, id.now) rows.now) }
{
    if is_at(rows, kind, id, *near) {
        *near += 1;
        return true;
    }
    match rows.binary_search_by(|listed| order::compare(
        listed.row.kind(),
        listed.row.id(),
        kind,
        id,
    )) {
        Ok(place) => {
            *near = place + 1;
            true
        }
        Err(gap) => {
            *near = gap;
            false
        }
    }
}
