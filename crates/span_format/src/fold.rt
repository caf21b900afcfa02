//! The edits by which the oldest change goes into the base, from its items: no row is put anew.

ghost use Rattle.std.specs.Prelude.{◌≡◌, ◌++◌, ◌∷◌, [], ◌+◌, ◌<◌, ◌^◌, IfOk, IsTrue, OnOk, drop, map};
ghost use Rattle.item_maps.specs.Edits.{entry_of};
ghost use Rattle.version_core.specs.declared.change.BaseVersion.{BaseVersion};
ghost use Rattle.version_core.specs.declared.change.Change.{Change as ChangeValue};
ghost use Rattle.hub_format.specs.Areas.{grants_area, names_area, versions_area};
ghost use Rattle.hub_format.specs.Edits.{clear_version};
ghost use Rattle.hub_format.specs.Format.{grants_under};
ghost use Rattle.hub_format.specs.Moves.{grants_moved};
ghost use Rattle.hub_format.specs.Pieces.{change_body, number_size};
ghost use Rattle.span_format.specs.Edits.{folded, hidden_by, hidden_names, hidden_under};
ghost use Rattle.span_format.specs.Format.{own_names};

use crate::keys::{label_from, name_label};
use hub_format::{
    HubArea, NUMBER_SIZE, behind, change_body, change_parts, clear_version, push_grants, put_state,
};
use item_maps::{Edit, Item};
use roster_base::NoMemory;
use std::alloc::Global;
use version_core::change::Change;
use version_core::row_change::RowChange;

// The edit that takes away what the key of this label had before a version.
fn hide(alloc: Global, version: u64, key: &[u8]) -> Result<Edit, NoMemory>
    ensures { IfOk result (λ edit. edit ≡ hidden_under version key.now) }
{
    Ok(Edit::Clear {
        area: HubArea::Spans.number(),
        from: label_from(alloc, key, 0)?,
        to: label_from(alloc, key, version)?,
    })
}

// The same for a name, whose key stands behind a version's number.
fn hide_name(alloc: Global, version: u64, name: &Item) -> Result<Edit, NoMemory>
    ensures { IfOk result (λ edit. edit ≡ hidden_under version (drop number_size (entry_of name.now).0)) }
{
    hide(alloc, version, behind(name.label.as_slice(), NUMBER_SIZE))
}

// Adds the edits that take away what the keys of these names had before a version.
fn push_hidden(
    alloc: Global,
    edits: &mut Vec<Edit>,
    version: u64,
    names: &[Item],
) -> Result<(), NoMemory>
    ensures { OnOk result (edits.new.items ≡ edits.old.items ++ hidden_names version (map entry_of names.now)) }
{
    for name in names {
        edits.push(hide_name(alloc, version, name)?)?;
    }
    Ok(())
}

// The same for the key of a row.
fn hide_row(alloc: Global, version: u64, row: &RowChange) -> Result<Edit, NoMemory>
    ensures { IfOk result (λ edit. edit ≡ hidden_by version row.now) }
{
    let name = name_label(alloc, 0, row.row.kind(), row.row.id())?;
    hide(alloc, version, behind(name.as_slice(), NUMBER_SIZE))
}

// Adds the edits that take away what the keys of these rows had before a version, where the rows aren't stored yet.
fn push_hidden_rows(
    alloc: Global,
    edits: &mut Vec<Edit>,
    version: u64,
    rows: &[RowChange],
) -> Result<(), NoMemory>
    ensures { OnOk result (edits.new.items ≡ edits.old.items ++ map (hidden_by version) rows.now) }
{
    for row in rows {
        edits.push(hide_row(alloc, version, row)?)?;
    }
    Ok(())
}

// Adds the edits that take away what the base has taken in: the version and the names behind the next number, and its
// old grants.
fn push_clears(alloc: Global, edits: &mut Vec<Edit>, base: u64) -> Result<(), NoMemory>
    requires { base + 2 < 2 ^ 64 }
    ensures { OnOk result (edits.new.items
        ≡ edits.old.items ++ (clear_version versions_area (base + 1) ∷ clear_version names_area (base + 1)
        ∷ clear_version grants_area base ∷ [])) }
{
    edits.push(clear_version(alloc, HubArea::Versions, base + 1)?)?;
    edits.push(clear_version(alloc, HubArea::Names, base + 1)?)?;
    edits.push(clear_version(alloc, HubArea::Grants, base)?)?;
    Ok(())
}

// Adds the edits by which the base's grants go along, where the flag is 0, and those that take away what the base has
// taken in.
fn push_rest(edits: &mut Vec<Edit>, base: u64, flag: u8, grants: &[Item]) -> Result<(), NoMemory>
    requires { base + 2 < 2 ^ 64 }
    ensures { OnOk result (edits.new.items
        ≡ (edits.old.items ++ grants_moved flag (base + 1) (map entry_of grants.now))
        ++ (clear_version versions_area (base + 1) ∷ clear_version names_area (base + 1)
        ∷ clear_version grants_area base ∷ [])) }
{
    let alloc = *edits.allocator();
    push_grants(alloc, edits, flag, base + 1, grants)?;
    push_clears(alloc, edits, base)
}

/// Adds the edits by which the change behind the base goes into it, from the body of the change's version, its rows'
/// names and the base's grants. False where the body is none of a version.
pub(crate) fn push_folded(
    edits: &mut Vec<Edit>,
    keep: u64,
    base: u64,
    body: &[u8],
    names: &[Item],
    grants: &[Item],
) -> Result<bool, NoMemory>
    requires { base + 2 < 2 ^ 64 }
    ensures { (was : BaseVersion) (oldest : ChangeValue) → base ≡ was.number → oldest.version ≡ base + 1
        → body.now ≡ change_body oldest → map entry_of names.now ≡ own_names oldest
        → map entry_of grants.now ≡ grants_under base was.grants
        → IfOk result (λ done. IsTrue done → edits.new.items ≡ edits.old.items ++ folded keep was oldest) }
{
    let alloc = *edits.allocator();
    let Some((at, flag)) = change_parts(body) else {
        return Ok(false);
    };
    edits.push(put_state(alloc, keep, base + 1, at)?)?;
    push_hidden(alloc, edits, base + 1, names)?;
    push_rest(edits, base, flag, grants)?;
    Ok(true)
}

/// Adds the edits by which a change that isn't stored yet goes into the base, from the base's grants: such a change is
/// the oldest where no version is kept beside the newest. False where its body is none of a version.
pub(crate) fn push_folded_change(
    edits: &mut Vec<Edit>,
    keep: u64,
    base: u64,
    change: &Change,
    grants: &[Item],
) -> Result<bool, NoMemory>
    requires { base + 2 < 2 ^ 64 }
    ensures { (was : BaseVersion) → base ≡ was.number → change.now.version ≡ base + 1
        → map entry_of grants.now ≡ grants_under base was.grants
        → IfOk result (λ done. IsTrue done → edits.new.items ≡ edits.old.items ++ folded keep was change.now) }
{
    let alloc = *edits.allocator();
    let body = change_body(alloc, change)?;
    let Some((at, flag)) = change_parts(body.as_slice()) else {
        return Ok(false);
    };
    edits.push(put_state(alloc, keep, base + 1, at)?)?;
    push_hidden_rows(alloc, edits, base + 1, change.rows.as_slice())?;
    push_rest(edits, base, flag, grants)?;
    Ok(true)
}
