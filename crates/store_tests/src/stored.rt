//! How much a store holds, as a text, and items that are put into it.

use crate::ten_kinds_items::Kept;
use item_maps::Edit;
use keeper_sqlite::StoredItems;
use roster_base::{Bytes, NoMemory};
use std::alloc::Global;

// The areas of a hub, and those of a copy with orgs alone.
static AREAS: [u32; 11] = [0, 1, 2, 3, 4, 5, 6, 7, 8, 32, 64];

fn push_area<I: StoredItems>(
    alloc: Global,
    text: &mut String,
    items: &mut I,
    area: u32,
) -> Result<(), NoMemory> {
    let count = match items.all_of(alloc, area, &[], &[255, 255]) {
        Ok(found) => found.len(),
        Err(_) => return Ok(text.push_str("failed")?),
    };
    if count != 0 {
        text.push_str(format!(in alloc; "{area}:{count} ")?.as_str())?;
    }
    Ok(())
}

/// Tells how many items each area has, where it has any.
pub fn areas_told<I: StoredItems>(alloc: Global, items: &mut I) -> Result<String, NoMemory> {
    let mut text = String::new(alloc);
    for area in &AREAS {
        push_area(alloc, &mut text, items, *area)?;
    }
    Ok(text)
}

fn put_edit(alloc: Global, item: &Kept) -> Result<Edit, NoMemory> {
    Ok(Edit::Put {
        area: item.area,
        label: Bytes::from_vec(item.label.to_vec(alloc)?),
        body: Bytes::from_vec(item.body.to_vec(alloc)?),
    })
}

/// The edits that put items.
pub fn put_edits(alloc: Global, kept: &[Kept]) -> Result<Vec<Edit>, NoMemory> {
    let mut edits = Vec::new(alloc);
    for item in kept {
        edits.push(put_edit(alloc, item)?)?;
    }
    Ok(edits)
}

/// Puts items, and tells whether that succeeded.
pub fn put_told<I: StoredItems>(
    alloc: Global,
    items: &mut I,
    kept: &[Kept],
) -> Result<String, NoMemory> {
    let edits = put_edits(alloc, kept)?;
    let done = items.commit(edits.as_slice()).is_ok();
    drop(edits);
    Ok(String::from_str(alloc, if done { "put" } else { "failed" })?)
}
