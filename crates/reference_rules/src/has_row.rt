//! Values that have a row.

use roster_types::row::Row;

/// A value that has a row.
pub trait HasRow {
    ghost use Rattle.std.specs.Prelude.{◌≡◌};
    ghost use Rattle.roster_types.specs.Records.{Record};

    /// The row.
    ghost row_of: { Self → Record };

    /// The value's row.
    fn row(&self) -> &Row
        ensures { result.now ≡ row_of self.now };
}
