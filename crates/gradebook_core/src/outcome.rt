//! What writes come to.

ghost use Rattle.std.specs.Prelude.{◌≡◌, ◌≤◌, ◌==◌, IfSome, IsSome, nat_lt, not};
ghost use Rattle.gradebook_core.specs.Outcomes.{check_number, outcome_number};
ghost use Rattle.version_core.specs.Outcomes.{deleted_outcome, mark_taken_outcome};

/// The checks of a write, in their order.
#[derive(Clone, Copy, Debug, PartialEq, Eq)]
pub enum Check {
    /// Its mark is held with another write.
    MarkOfAnotherWrite,
    /// The body that is put tells of no row.
    BadBody,
    /// The object that is to be deleted doesn't stand, or isn't seen.
    NoSuchObject,
    /// The row belongs to another.
    OwnedByAnother,
    /// The row refers to an object that the caller doesn't see.
    ReferenceOutsideGrant,
    /// The row refers to an object of the wrong type.
    ReferenceOfWrongType,
    /// The kind has as many rows as it may have.
    TooManyRows,
    /// No version may follow the newest.
    LastVersion,
}

impl Check {
    /// The number of the check, from 1 to 8.
    pub fn number(self) -> u8
        ensures { result ≡ check_number self }
    {
        match self {
            Check::MarkOfAnotherWrite => 1,
            Check::BadBody => 2,
            Check::NoSuchObject => 3,
            Check::OwnedByAnother => 4,
            Check::ReferenceOutsideGrant => 5,
            Check::ReferenceOfWrongType => 6,
            Check::TooManyRows => 7,
            Check::LastVersion => 8,
        }
    }

    /// Whether a write that fails this check is kept under its mark: where the mark is another write's, it keeps that
    /// one.
    pub fn is_kept(self) -> bool
        ensures above { result ≡ nat_lt mark_taken_outcome (check_number self) }
        ensures other { result ≡ not (check_number self == mark_taken_outcome) }
    {
        match self {
            Check::MarkOfAnotherWrite => false,
            _ => true,
        }
    }
}

/// What a write comes to.
#[derive(Clone, Copy, Debug, PartialEq, Eq)]
pub enum Outcome {
    /// The row was put.
    Stored,
    /// The write fails a check.
    Refused(Check),
    /// The row was deleted.
    Deleted,
}

impl Outcome {
    /// The number by which it is kept: 0 where the row was put, 9 where it was deleted, and else that of the check.
    pub fn number(self) -> u8
        ensures { result ≡ outcome_number self }
    {
        match self {
            Outcome::Stored => 0,
            Outcome::Refused(check) => check.number(),
            Outcome::Deleted => 9,
        }
    }

    /// What a write came to, by its number. None where it is the number of nothing.
    pub fn from_number(number: u8) -> Option<Outcome>
        ensures known { number ≤ deleted_outcome → IsSome result }
        ensures number { IfSome result (λ outcome. outcome_number outcome ≡ number) }
    {
        match number {
            0 => Some(Outcome::Stored),
            1 => Some(Outcome::Refused(Check::MarkOfAnotherWrite)),
            2 => Some(Outcome::Refused(Check::BadBody)),
            3 => Some(Outcome::Refused(Check::NoSuchObject)),
            4 => Some(Outcome::Refused(Check::OwnedByAnother)),
            5 => Some(Outcome::Refused(Check::ReferenceOutsideGrant)),
            6 => Some(Outcome::Refused(Check::ReferenceOfWrongType)),
            7 => Some(Outcome::Refused(Check::TooManyRows)),
            8 => Some(Outcome::Refused(Check::LastVersion)),
            9 => Some(Outcome::Deleted),
            _ => None,
        }
    }
}
