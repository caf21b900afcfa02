//! Many rows, read by kind and id.

use crate::row::Row;
use roster_texts::Id;
use roster_values::Kind;

/// Rows of all kinds as a finite map, read by kind and id and in ascending order of the ids' bytes. No call takes
/// memory.
pub trait Rows {
    ghost use Rattle.std.specs.Prelude.{◌≡◌, List, option_copied};
    ghost use Rattle.roster_types.specs.Keys.{Ascends, count_of, look_up, next_of, row_key};
    ghost use Rattle.roster_types.specs.Records.{Record};
    ghost use Rattle.roster_values.specs.Kinds.{place_of_kind};

    /// The rows, in the order of kinds and of ids.
    ghost rows: { Self → List Record };

    /// The row of this kind and id.
    fn row(&self, kind: Kind, id: &Id) -> Option<&Row>
        ensures { option_copied result ≡ look_up row_key (place_of_kind kind, id.now) (rows self.now) };

    /// The row of this kind with the least id above `after`, or with the least of all.
    fn next(&self, kind: Kind, after: Option<&Id>) -> Option<&Row>
        ensures { option_copied result ≡ next_of kind (option_copied after.entry) (rows self.now) };

    /// How many rows are of this kind.
    fn count(&self, kind: Kind) -> u64
        ensures count { result ≡ count_of kind (rows self.now) }
        ensures order { Ascends row_key (rows self.now) };
}
