//! The areas of a copy's store.

ghost use Rattle.std.specs.Prelude.{◌≡◌};
ghost use Rattle.copy_format.specs.Areas.{area_number};
ghost use Rattle.copy_format.specs.Format.{row_area as area_of_rows};

use roster_values::Kind;

/// What stands in an area of a copy's store.
#[derive(Clone, Copy)]
pub enum CopyArea {
    /// The number of the format.
    Format,
    /// The number of the last run, the version that is held and its side, and the number of the last entry.
    State,
    /// The small part of the stage.
    Stage,
    /// The entries: the writes that were sent or have to be.
    Outbox,
    /// The token under which what is held was copied, where that is known.
    Token,
    /// The rows of a kind on a side.
    Rows { side: u8, kind: Kind },
}

impl CopyArea {
    /// The number of the area in a store.
    pub fn number(self) -> u32
        ensures { result ≡ area_number self }
    {
        match self {
            CopyArea::Format => 0,
            CopyArea::State => 1,
            CopyArea::Stage => 2,
            CopyArea::Outbox => 3,
            CopyArea::Token => 4,
            CopyArea::Rows { side, kind } => row_area(side, kind),
        }
    }
}

// The area of a kind's rows on a side.
fn row_area(side: u8, kind: Kind) -> u32
    ensures { result ≡ area_of_rows side kind }
{
    32 + 32 * u32::from(side) + kind.place() as u32
}
