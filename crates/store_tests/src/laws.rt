//! A law of stores of items, as it runs.

use crate::stored::put_edits;
use crate::ten_kinds_items::Kept;
use item_maps::{Edit, Item};
use roster_base::{Bytes, NoMemory};
use std::alloc::Global;
use std::test::Fail;
use store_laws::items::{fresh, read_back};

// Labels put out of order, one of them twice.
static PUT: [Kept; 6] = [
    Kept {
        area: 1,
        label: b"b",
        body: b"two",
    },
    Kept {
        area: 1,
        label: b"a",
        body: b"one",
    },
    Kept {
        area: 2,
        label: b"a",
        body: b"other",
    },
    Kept {
        area: 1,
        label: b"c",
        body: b"five",
    },
    Kept {
        area: 1,
        label: b"ab",
        body: b"three",
    },
    Kept {
        area: 1,
        label: b"a",
        body: b"four",
    },
];

// A range is taken away behind them.
fn edits(alloc: Global) -> Result<Vec<Edit>, NoMemory> {
    let mut edits = put_edits(alloc, &PUT)?;
    edits.push(Edit::Clear {
        area: 1,
        from: Bytes::from_vec(b"b".to_vec(alloc)?),
        to: Bytes::from_vec(b"c".to_vec(alloc)?),
    })?;
    Ok(edits)
}

// What is listed of area 1 below `c`.
static LISTED: [Kept; 2] = [
    Kept {
        area: 1,
        label: b"a",
        body: b"four",
    },
    Kept {
        area: 1,
        label: b"ab",
        body: b"three",
    },
];

fn are_kept(items: &[Item], kept: &[Kept]) -> bool {
    for (item, want) in items.iter().zip(kept) {
        if item.label.as_slice() != want.label || item.body.as_slice() != want.body {
            return false;
        }
    }
    items.len() == kept.len()
}

fn read_again(alloc: Global) -> Result<bool, Fail> {
    let edits = edits(alloc)?;
    let mut store = fresh(alloc)?;
    let read = read_back(alloc, &mut store, edits.as_slice(), 1, b"a", b"c");
    drop(store);
    Ok(are_kept(read?.as_slice(), &LISTED))
}

#[test]
fn items_are_read_back(rt: HostRuntime) -> Result<(), Fail> {
    assert!(rt; read_again(rt.alloc())?);
    Ok(())
}
