//! The edits of which those of a commit are made.

ghost use Rattle.std.specs.Prelude.{◌≡◌, ◌++◌, [], ◌+◌, ◌<◌, ◌^◌, IfOk, OnOk};
ghost use Rattle.std.specs.List.{AllByRecursion};
ghost use Rattle.std.specs.Option.{ForSome};
ghost use Rattle.hub_format.specs.Areas.{area_number, format_area, grants_area, state_area};
ghost use Rattle.hub_format.specs.Edits.{clear_version, mark_edits, put_at, puts};
ghost use Rattle.hub_format.specs.Format.{FitsGrant, FitsMark, format_entry, some_grants};
ghost use Rattle.hub_format.specs.Pieces.{number};

use crate::area::HubArea;
use crate::pieces::push_number;
use crate::writing::{put_grants, put_mark};
use item_maps::Edit;
use roster_base::{Bytes, Items, NoMemory};
use std::alloc::Global;
use version_core::grant_row::GrantRow;
use version_core::mark::MarkRow;

/// A number in 8 bytes.
pub fn number_bytes(alloc: Global, n: u64) -> Result<Vec<u8>, NoMemory>
    ensures { IfOk result (λ bytes. bytes.items ≡ number n) }
{
    let mut bytes = Vec::new(alloc);
    push_number(&mut bytes, n)?;
    Ok(bytes)
}

/// The format in which stores are written: `Format::Two`.
pub const WRITTEN_FORMAT: u64 = 2;

/// The edit that stores the number of a format.
pub fn put_format(alloc: Global, format: u64) -> Result<Edit, NoMemory>
    ensures { IfOk result (λ edit. edit ≡ put_at format_area (format_entry format)) }
{
    Ok(Edit::Put {
        area: HubArea::Format.number(),
        label: Bytes::from_vec(Vec::new(alloc)),
        body: Bytes::from_vec(number_bytes(alloc, format)?),
    })
}

/// The edit that stores a state: how many versions it keeps beside the newest, and of its base the number and the bytes
/// of the moment.
pub fn put_state(alloc: Global, keep: u64, base: u64, at: &[u8]) -> Result<Edit, NoMemory>
    ensures { IfOk result (λ edit. edit ≡ put_at state_area ([], number keep ++ number base ++ at.now)) }
{
    let mut body = Vec::new(alloc);
    push_number(&mut body, keep)?;
    push_number(&mut body, base)?;
    body.extend_from_slice(at)?;
    Ok(Edit::Put {
        area: HubArea::State.number(),
        label: Bytes::from_vec(Vec::new(alloc)),
        body: Bytes::from_vec(body),
    })
}

/// Adds the edits that store the grants of a version, where it has any of its own.
pub fn put_some_grants(
    alloc: Global,
    edits: &mut Vec<Edit>,
    version: u64,
    grants: &Option<Items<GrantRow>>,
) -> Result<(), NoMemory>
    ensures edits { OnOk result
        (edits.new.items ≡ edits.old.items ++ puts grants_area (some_grants version grants.now)) }
    ensures fits { OnOk result (ForSome grants.now (AllByRecursion FitsGrant)) }
{
    match grants {
        Some(grants) => put_grants(alloc, edits, version, grants.as_slice()),
        None => Ok(()),
    }
}

/// Adds the edit that stores a mark, where there is one.
pub fn push_mark(
    alloc: Global,
    edits: &mut Vec<Edit>,
    mark: &Option<MarkRow>,
) -> Result<(), NoMemory>
    ensures edits { OnOk result (edits.new.items ≡ edits.old.items ++ mark_edits mark.now) }
    ensures fits { OnOk result (ForSome mark.now FitsMark) }
{
    match mark {
        Some(mark) => {
            edits.push(put_mark(alloc, mark)?)?;
            Ok(())
        }
        None => Ok(()),
    }
}

/// The edit that takes away what stands behind a version's number.
pub fn clear_version(alloc: Global, area: HubArea, version: u64) -> Result<Edit, NoMemory>
    requires { version + 1 < 2 ^ 64 }
    ensures { IfOk result (λ edit. edit ≡ clear_version (area_number area) version) }
{
    Ok(Edit::Clear {
        area: area.number(),
        from: Bytes::from_vec(number_bytes(alloc, version)?),
        to: Bytes::from_vec(number_bytes(alloc, version + 1)?),
    })
}
