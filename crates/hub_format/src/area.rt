//! The areas of a hub's store.

ghost use Rattle.std.specs.Prelude.{◌≡◌};
ghost use Rattle.hub_format.specs.Areas.{area_number};

/// Ends a range of labels that takes a whole area: no label of a row or a mark begins with this byte.
pub const END_BYTE: u8 = 255;

/// What stands in an area of a hub's store.
#[derive(Clone, Copy)]
pub enum HubArea {
    /// The number of the format.
    Format,
    /// How many versions are kept, and the number and the moment of the base.
    State,
    /// The rows of the base.
    BaseRows,
    /// The versions behind the base.
    Versions,
    /// The rows that each version behind the base changes.
    ChangeRows,
    /// The grants of the base, and of each version that has its own.
    Grants,
    /// The marks of callers' writes.
    Marks,
    /// The rows of the base and of the changes, each with the version in which it came.
    Spans,
    /// The kinds and ids of the rows that each version behind the base changes.
    Names,
}

impl HubArea {
    /// The number of the area in a store.
    pub fn number(self) -> u32
        ensures { result ≡ area_number self }
    {
        match self {
            HubArea::Format => 0,
            HubArea::State => 1,
            HubArea::BaseRows => 2,
            HubArea::Versions => 3,
            HubArea::ChangeRows => 4,
            HubArea::Grants => 5,
            HubArea::Marks => 6,
            HubArea::Spans => 7,
            HubArea::Names => 8,
        }
    }
}
