//! The rows of an earlier set, found by id.

ghost use Rattle.std.specs.Prelude.{◌≡◌, IfOk, map, option_copied};
ghost use Rattle.std.specs.List.{All, AllByRecursion};
ghost use Rattle.bulk_export.specs.Changes.{rows_in};
ghost use Rattle.bulk_export.specs.Steps.{earlier_at, earlier_key, set_row};
ghost use Rattle.roster_types.specs.Keys.{Ascends, Key, look_up};
ghost use Rattle.roster_values.specs.Kinds.{place_of_kind};
ghost use Rattle.version_changes.specs.sets.Applying.{set_key};

use reference_rules::order;
use roster_base::{Keyed, NoMemory, sorted};
use roster_texts::Id;
use roster_types::set::RosterSet;
use roster_types::set_row::SetRow;
use roster_values::Kind;
use std::alloc::Global;

/// A row as it lies in an earlier set.
#[derive(Clone, Copy)]
pub struct EarlierRow<'a> {
    pub listed: &'a SetRow,
}

impl<'a> Keyed for EarlierRow<'a> {
    ghost key_of = { λ earlier. earlier.listed.now.row.id };

    fn key(&self) -> &str {
        self.listed.row.id().as_str()
    }
}

/// The rows of a kind in a set, in its order.
pub fn rows_in(set: &RosterSet, kind: Kind) -> &[SetRow]
    ensures rows { result.now ≡ rows_in kind set.now.parts }
    ensures kinds { All (λ listed. listed.row.kind ≡ kind) result.now }
{
    for part in set.parts() {
        if part.kind.place() == kind.place() {
            return part.rows.as_slice();
        }
    }
    &[]
}

// The rows of a set, each as a reference to it.
fn earlier_rows<'a>(alloc: Global, rows: &'a [SetRow]) -> Result<Vec<EarlierRow<'a>>, NoMemory>
    ensures { IfOk result (λ v. map set_row v.items ≡ rows.now) }
{
    let mut earlier = Vec::new(alloc);
    for listed in rows {
        earlier.push(EarlierRow { listed })?;
    }
    Ok(earlier)
}

/// The rows of a kind in order of id, as they lie in the set. No row is copied.
pub fn ordered<'a>(
    alloc: Global,
    kind: Kind,
    rows: &'a [SetRow],
) -> Result<Vec<EarlierRow<'a>>, NoMemory>
    requires { All (λ listed. listed.row.kind ≡ kind) rows.now }
    ensures order { IfOk result (λ v. Ascends earlier_key v.items) }
    ensures rows { IfOk result (λ v. (k : Key) → earlier_at v.items k ≡ look_up set_key k rows.now) }
    ensures kinds { IfOk result (λ v. AllByRecursion (λ earlier. (set_row earlier).row.kind ≡ kind) v.items) }
{
    // The contract alone speaks of it.
    let _ = kind;
    let earlier = earlier_rows(alloc, rows)?;
    let ordered = sorted(alloc, earlier)?;
    Ok(ordered)
}

/// The row of this kind and id among rows in order.
pub fn earlier_at<'a>(rows: &[EarlierRow<'a>], kind: Kind, id: &Id) -> Option<&'a SetRow>
    requires { Ascends earlier_key rows.now }
    ensures { option_copied result ≡ earlier_at rows.now (place_of_kind kind, id.now) }
{
    match rows.binary_search_by(|earlier| order::compare(
        earlier.listed.row.kind(),
        earlier.listed.row.id(),
        kind,
        id,
    )) {
        Ok(place) => Some(rows[place].listed),
        Err(_) => None,
    }
}
