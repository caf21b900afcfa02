//! Why a set is refused.

use reference_rules::RefFault;
use roster_base::Items;
use roster_texts::Id;
use roster_types::owner::Owner;
use roster_values::Kind;

/// Why a set is refused. Where several are so, the first of these is told.
#[derive(Drop)]
pub enum PublishFault {
    /// The first row of the set, in its order, whose id stands with another owner than this feed, and that owner.
    OwnedByOther { kind: Kind, id: Id, owner: Owner },
    /// The first kind that would have more rows than `ROW_LIMIT`, and how many it would have.
    TooManyRows { kind: Kind, count: u64 },
    /// The broken references of the new rows; not empty.
    Unsound(Items<RefFault>),
    /// A change is due, and the newest version has the last number, `LAST_VERSION`.
    LastVersion,
}
