//! Which rows stand on a list.

use roster_base::NoMemory;
use roster_types::row::Row;
use roster_values::Kind;
use std::alloc::Global;

/// A test that picks the rows of a list, all of one kind.
pub trait ListTest {
    ghost use Rattle.std.specs.Prelude.{◌≡◌, Bool, true, IfOk};
    ghost use Rattle.roster_types.specs.Keys.{is_of_kind};
    ghost use Rattle.roster_types.specs.Records.{Record};
    ghost use Rattle.roster_values.specs.declared.kind.Kind.{Kind as Kinds};

    /// Whether a row stands on the list, as a clause sees it.
    ghost passes: { Self → Record → Bool };

    /// The kind of the list's rows, as a clause sees it.
    ghost kind_of: { Self → Kinds };

    /// The kind of the list's rows.
    fn kind(&self) -> Kind
        ensures { result ≡ kind_of self.now };

    /// Whether a row stands on the list.
    fn passes(&self, alloc: Global, row: &Row) -> Result<bool, NoMemory>
        ensures { IfOk result (λ b. b ≡ passes self.now row.now) };

    /// A row of another kind doesn't stand on the list.
    ghost of_kind: { (test : Self) (row : Record) → passes test row ≡ true → is_of_kind (kind_of test) row ≡ true };
}
