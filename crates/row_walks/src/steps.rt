//! Rows that are gone through one after another.

use roster_texts::Id;
use roster_types::row::Row;
use roster_values::Kind;
use version_core::references::Refs;
use version_core::view::VersionView;

/// Rows of which the next one may be found from the place of the last, with no search. No call takes memory.
pub trait Steps: Refs {
    ghost use Rattle.std.specs.Prelude.{◌≡◌, option_copied};
    ghost use Rattle.roster_types.specs.Keys.{next_of};

    /// As `next`, where `near` is what the call for the row before left there: begin with 0. Any other value is as
    /// right, and only slower.
    fn next_near(&self, kind: Kind, after: Option<&Id>, near: &mut usize) -> Option<&Row>
        ensures { option_copied result ≡ next_of kind (option_copied after.entry) (Self.rows self.now) };
}

impl<'a> Steps for VersionView<'a> {
    #[tactic(auto, using(version_core::proofs::RowsOf::rows_of_look_ups))]
    fn next_near(&self, kind: Kind, after: Option<&Id>, near: &mut usize) -> Option<&Row> {
        Some(&self.next_change_near(kind, after, near)?.row)
    }
}
