//! Whether a row is in force.

ghost use Rattle.std.specs.Prelude.{◌≡◌};
ghost use Rattle.roster_types.specs.Records.{status_word};

/// The status of a row: in force, or to be deleted. A row is never taken away.
#[derive(Clone, Copy, Debug, PartialEq, Eq)]
pub enum Status {
    Active,
    ToBeDeleted,
}

impl Status {
    /// The standard's word for it.
    pub fn word(self) -> &'static str
        ensures { result.now ≡ status_word self }
    {
        match self {
            Status::Active => "active",
            Status::ToBeDeleted => "tobedeleted",
        }
    }
}
