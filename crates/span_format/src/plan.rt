//! The edits of a commit, from what a store has of its oldest versions.

ghost use Rattle.std.specs.Prelude.{◌≡◌, ◌++◌, ◌∷◌, [], ◌+◌, ◌-◌, ◌<◌, ◌^◌, List, nat_lt, true, IfOk, IfSome, IsTrue};
ghost use Rattle.std.specs.Prelude.{OnOk};
ghost use Rattle.std.specs.Option.{ForSome};
ghost use Rattle.keeper_memory.specs.Commits.{CanCommit, CanLead};
ghost use Rattle.keeper_memory.specs.Kept.{kept_by};
ghost use Rattle.version_core.specs.Tables.{AreTables};
ghost use Rattle.version_core.specs.Version.{versions_from};
ghost use Rattle.version_core.specs.declared.change.Change.{Change as ChangeValue};
ghost use Rattle.version_core.specs.declared.hub_tables.HubTables.{HubTables};
ghost use Rattle.span_format.specs.Edits.{change_edits, edits as edits_of, folded, let_go};
ghost use Rattle.hub_format.specs.Format.{FitsChange};
ghost use Rattle.span_format.specs.Format.{FitsSpanCommit, HasPlainIds};
ghost use Rattle.span_format.specs.Oldest.{AreOldest, AreOldestFor};

use crate::edits::added_edits;
use crate::fold::{push_folded, push_folded_change};
use hub_format::{lets_go, only_body, push_mark};
use item_maps::{Edit, Item};
use keeper_memory::HubCommit;
use roster_base::NoMemory;
use std::alloc::Global;
use version_core::change::Change;

/// What a store has of the oldest versions that it keeps: the items of the base's grants, and those of the version and
/// of the rows' names of the change behind it, where one is stored.
#[derive(Drop)]
pub struct Oldest {
    pub grants: Vec<Item>,
    pub version: Vec<Item>,
    pub names: Vec<Item>,
}

// Adds the edits by which a change that is stored goes into the base. False where its items are none of a version.
fn push_stored(
    edits: &mut Vec<Edit>,
    keep: u64,
    base: u64,
    oldest: &Oldest,
) -> Result<bool, NoMemory>
    requires { base + 2 < 2 ^ 64 }
    ensures { (t : HubTables) (first : ChangeValue) (rest : List ChangeValue) → base ≡ t.base.number
        → first.version ≡ base + 1 → t.changes ≡ first ∷ rest
        → AreOldest t oldest.now.grants.items oldest.now.version.items oldest.now.names.items
        → IfOk result (λ done. IsTrue done → edits.new.items ≡ edits.old.items ++ folded keep t.base first) }
{
    match only_body(oldest.version.as_slice()) {
        Some(body) => push_folded(
            edits,
            keep,
            base,
            body,
            oldest.names.as_slice(),
            oldest.grants.as_slice(),
        ),
        None => Ok(false),
    }
}

// Adds the edits by which the oldest change goes into the base: the new one itself where no other is stored. False
// where the items of a stored one are none of a version.
fn push_oldest(
    edits: &mut Vec<Edit>,
    keep: u64,
    base: u64,
    oldest: &Oldest,
    change: &Change,
) -> Result<bool, NoMemory>
    requires { base + 2 < 2 ^ 64 }
    ensures { (t : HubTables) → AreTables t → base ≡ t.base.number → nat_lt keep (change.now.version - base) ≡ true
        → CanLead (versions_from t.base t.changes) change.now
        → AreOldest t oldest.now.grants.items oldest.now.version.items oldest.now.names.items
        → IfOk result (λ done. IsTrue done
        → edits.new.items ≡ edits.old.items ++ let_go keep t.base (t.changes ++ change.now ∷ [])) }
{
    if change.version == base + 1 {
        push_folded_change(edits, keep, base, change, oldest.grants.as_slice())
    } else {
        push_stored(edits, keep, base, oldest)
    }
}

// The edits of a change: they add it, and let the oldest go where it is one too many. None where the items of the
// oldest are none of a version.
fn change_edits(
    alloc: Global,
    keep: u64,
    base: u64,
    oldest: &Oldest,
    change: &Change,
) -> Result<Option<Vec<Edit>>, NoMemory>
    requires { base + 2 < 2 ^ 64 }
    ensures edits { (t : HubTables) → AreTables t → keep ≡ t.keep → base ≡ t.base.number
        → CanLead (versions_from t.base t.changes) change.now
        → (nat_lt keep (change.now.version - base) ≡ true
        → AreOldest t oldest.now.grants.items oldest.now.version.items oldest.now.names.items)
        → IfOk result (λ o. IfSome o (λ edits. edits.items ≡ change_edits t (Some change.now))) }
    ensures fits { OnOk result (FitsChange change.now) }
    ensures plain { OnOk result (HasPlainIds change.now) }
{
    let mut edits = added_edits(alloc, change)?;
    if !lets_go(keep, base, change.version) {
        return Ok(Some(edits));
    }
    if push_oldest(&mut edits, keep, base, oldest, change)? {
        Ok(Some(edits))
    } else {
        Ok(None)
    }
}

// The edits of a change, where there is one.
fn some_change_edits(
    alloc: Global,
    keep: u64,
    base: u64,
    oldest: &Oldest,
    change: &Option<Change>,
) -> Result<Option<Vec<Edit>>, NoMemory>
    requires { base + 2 < 2 ^ 64 }
    ensures edits { (t : HubTables) → AreTables t → keep ≡ t.keep → base ≡ t.base.number
        → ForSome change.now (CanLead (versions_from t.base t.changes))
        → AreOldestFor t keep base change.now oldest.now.grants.items oldest.now.version.items oldest.now.names.items
        → IfOk result (λ o. IfSome o (λ edits. edits.items ≡ change_edits t change.now)) }
    ensures fits { OnOk result (ForSome change.now FitsChange) }
    ensures plain { OnOk result (ForSome change.now HasPlainIds) }
{
    match change {
        Some(change) => change_edits(alloc, keep, base, oldest, change),
        None => Ok(Some(Vec::new(alloc))),
    }
}

/// The edits of a commit, by which the items of a state become those of the state after it. What a store has of its
/// oldest versions is asked only where the change lets the oldest go. None where the items are none of a state.
pub fn commit_edits(
    alloc: Global,
    keep: u64,
    base: u64,
    oldest: &Oldest,
    commit: &HubCommit,
) -> Result<Option<Vec<Edit>>, NoMemory>
    requires { base + 2 < 2 ^ 64 }
    ensures edits { (t : HubTables) → AreTables t → keep ≡ t.keep → base ≡ t.base.number
        → CanCommit (kept_by t) commit.now
        → AreOldestFor t keep base commit.now.change
        oldest.now.grants.items oldest.now.version.items oldest.now.names.items
        → IfOk result (λ o. IfSome o (λ edits. edits.items ≡ edits_of t commit.now)) }
    ensures fits { IfOk result (λ o. IfSome o (λ _. FitsSpanCommit commit.now)) }
{
    let Some(mut edits) = some_change_edits(alloc, keep, base, oldest, &commit.change)? else {
        return Ok(None);
    };
    push_mark(alloc, &mut edits, &commit.mark)?;
    Ok(Some(edits))
}
