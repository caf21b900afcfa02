//! The edits that store versions, grants and marks, and the body of a row.

ghost use Rattle.std.specs.Prelude.{◌≡◌, ◌++◌, ◌<◌, ◌^◌, IfOk, OnOk};
ghost use Rattle.std.specs.Int.{w64};
ghost use Rattle.std.specs.Int.RustNames.{FitsSigned};
ghost use Rattle.std.specs.List.{AllByRecursion};
ghost use Rattle.hub_format.specs.Areas.{grants_area, marks_area, versions_area};
ghost use Rattle.hub_format.specs.Edits.{put_at, puts};
ghost use Rattle.hub_format.specs.Format.{FitsGrant, FitsMark, grant_entry, grants_under, mark_entry, version_entry};
ghost use Rattle.hub_format.specs.Pieces.{AreSized, HasNoZero, IsReadBack, IsSized, StaysBelowEnd, caller_label};
ghost use Rattle.hub_format.specs.Pieces.{change_body, grant_body, mark_body, mark_label, number, row_body};

use crate::area::HubArea;
use crate::pieces::{
    kind_byte, push_caller, push_moment, push_number, push_owner, push_schools, push_sized,
};
use grant_scopes::Grant;
use item_maps::Edit;
use roster_base::{Bytes, NoMemory};
use roster_texts::Name;
use row_json::single_text;
use std::alloc::Global;
use version_core::change::Change;
use version_core::grant_row::GrantRow;
use version_core::mark::MarkRow;
use version_core::row_change::RowChange;

fn version_label(alloc: Global, version: u64) -> Result<Bytes, NoMemory>
    ensures { IfOk result (λ label. label ≡ number version) }
{
    let mut label = Vec::new(alloc);
    push_number(&mut label, version)?;
    Ok(Bytes::from_vec(label))
}

/// The body of a change's version.
pub fn change_body(alloc: Global, change: &Change) -> Result<Bytes, NoMemory>
    ensures body { IfOk result (λ body. body ≡ change_body change.now) }
    ensures fits { OnOk result (FitsSigned w64 change.now.moment) }
{
    let mut body = Vec::new(alloc);
    push_moment(&mut body, change.moment)?;
    body.push(u8::from(change.grants.is_some()))?;
    Ok(Bytes::from_vec(body))
}

/// The edit that stores a change's version.
pub fn put_version(alloc: Global, change: &Change) -> Result<Edit, NoMemory>
    ensures edit { IfOk result (λ edit. edit ≡ put_at versions_area (version_entry change.now)) }
    ensures fits { OnOk result (FitsSigned w64 change.now.moment) }
{
    Ok(Edit::Put {
        area: HubArea::Versions.number(),
        label: version_label(alloc, change.version)?,
        body: change_body(alloc, change)?,
    })
}

/// A row's owner and its text, from which the row is read back.
pub fn row_body(alloc: Global, change: &RowChange) -> Result<Bytes, NoMemory>
    ensures body { IfOk result (λ body. body ≡ row_body change.now) }
    ensures back { OnOk result (IsReadBack change.now) }
{
    let mut body = Vec::new(alloc);
    push_owner(&mut body, &change.owner)?;
    let text = single_text(alloc, &change.row, None)?;
    push_sized(&mut body, text.as_bytes())?;
    Ok(Bytes::from_vec(body))
}

fn grant_label(alloc: Global, version: u64, caller: &Name) -> Result<Bytes, NoMemory>
    ensures label { IfOk result (λ label. label ≡ number version ++ caller_label caller.now) }
    ensures good { OnOk result (HasNoZero caller.now) }
{
    let mut label = Vec::new(alloc);
    push_number(&mut label, version)?;
    push_caller(&mut label, caller)?;
    Ok(Bytes::from_vec(label))
}

fn grant_body(alloc: Global, grant: &Grant) -> Result<Bytes, NoMemory>
    ensures body { IfOk result (λ body. body ≡ grant_body grant.now) }
    ensures token { OnOk result (IsSized grant.now.token) }
    ensures schools { OnOk result (AreSized grant.now.schools) }
    ensures since { OnOk result (grant.now.since < 2 ^ 64) }
{
    let mut body = Vec::new(alloc);
    push_sized(&mut body, grant.token.as_str().as_bytes())?;
    body.push(grant.scopes.bits())?;
    push_schools(&mut body, &grant.schools)?;
    push_number(&mut body, grant.since)?;
    Ok(Bytes::from_vec(body))
}

fn put_grant(alloc: Global, version: u64, row: &GrantRow) -> Result<Edit, NoMemory>
    ensures edit { IfOk result (λ edit. edit ≡ put_at grants_area (grant_entry version row.now)) }
    ensures fits { OnOk result (FitsGrant row.now) }
{
    Ok(Edit::Put {
        area: HubArea::Grants.number(),
        label: grant_label(alloc, version, &row.caller)?,
        body: grant_body(alloc, &row.grant)?,
    })
}

/// Adds the edits that store a version's grants.
pub(crate) fn put_grants(
    alloc: Global,
    edits: &mut Vec<Edit>,
    version: u64,
    grants: &[GrantRow],
) -> Result<(), NoMemory>
    ensures edits { OnOk result
        (edits.new.items ≡ edits.old.items ++ puts grants_area (grants_under version grants.now)) }
    ensures fits { OnOk result (AllByRecursion FitsGrant grants.now) }
{
    for row in grants {
        edits.push(put_grant(alloc, version, row)?)?;
    }
    Ok(())
}

fn mark_label(alloc: Global, caller: &Name, number: u64) -> Result<Bytes, NoMemory>
    ensures label { IfOk result (λ label. label ≡ mark_label (caller.now, number)) }
    ensures good { OnOk result (HasNoZero caller.now) }
    ensures below { OnOk result (StaysBelowEnd caller.now) }
    ensures small { OnOk result (number < 2 ^ 64) }
{
    let mut label = Vec::new(alloc);
    push_caller(&mut label, caller)?;
    push_number(&mut label, number)?;
    Ok(Bytes::from_vec(label))
}

fn mark_body(alloc: Global, mark: &MarkRow) -> Result<Bytes, NoMemory>
    ensures body { IfOk result (λ body. body ≡ mark_body mark.now) }
    ensures id { OnOk result (IsSized mark.now.write.id) }
    ensures text { OnOk result (IsSized mark.now.write.body) }
    ensures version { OnOk result (mark.now.kept.version < 2 ^ 64) }
{
    let mut body = Vec::new(alloc);
    body.push(u8::from(mark.write.delete))?;
    body.push(kind_byte(mark.write.kind))?;
    push_sized(&mut body, mark.write.id.as_str().as_bytes())?;
    push_sized(&mut body, mark.write.body.as_slice())?;
    body.push(mark.kept.outcome)?;
    push_number(&mut body, mark.kept.version)?;
    Ok(Bytes::from_vec(body))
}

/// The edit that stores a mark.
pub(crate) fn put_mark(alloc: Global, mark: &MarkRow) -> Result<Edit, NoMemory>
    ensures edit { IfOk result (λ edit. edit ≡ put_at marks_area (mark_entry mark.now)) }
    ensures fits { OnOk result (FitsMark mark.now) }
{
    Ok(Edit::Put {
        area: HubArea::Marks.number(),
        label: mark_label(alloc, &mark.caller, mark.number)?,
        body: mark_body(alloc, mark)?,
    })
}
