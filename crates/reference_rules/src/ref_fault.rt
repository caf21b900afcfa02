//! Broken references.

ghost use Rattle.std.specs.Prelude.{◌≡◌};
ghost use Rattle.std.specs.List.{list_any};
ghost use Rattle.reference_rules.specs.Faults.{is_cycle};

use roster_base::Text;
use roster_texts::Id;
use roster_values::Kind;

/// What is wrong with a reference.
#[derive(Clone, Copy, Debug, PartialEq, Eq)]
pub enum Fault {
    /// No row has the id.
    Missing,
    /// The row with the id is of another type than the field asks for.
    WrongType,
    /// The chain of parents comes back to the row.
    Cycle,
    /// The last day is before the first.
    DayOrder,
}

/// A broken reference of a row.
#[derive(Drop)]
pub struct RefFault {
    /// The kind of the row that has it.
    pub kind: Kind,
    /// The id of the row.
    pub id: Id,
    /// The field by its name in JSON.
    pub field: Text,
    /// The id that stands in the field; nothing where days are in the wrong order.
    pub target: Option<Id>,
    /// What is wrong.
    pub fault: Fault,
}

/// Whether one of these broken references is that of a row in a cycle of parents.
pub fn has_cycle(broken: &[RefFault]) -> bool
    ensures { result ≡ list_any is_cycle broken.now }
{
    broken
        .iter()
        .any(|reference| matches!(reference.fault, Fault::Cycle))
}
