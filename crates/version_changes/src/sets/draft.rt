//! A version with changes over it that are in no table.

ghost use Rattle.std.specs.Prelude.{◌≡◌, ◌≤◌, find, option_copied};
ghost use Rattle.roster_types.specs.Keys.{count_of, look_up};
ghost use Rattle.roster_values.specs.Kinds.{place_of_kind};
ghost use Rattle.roster_values.specs.declared.kind.Kind.{Kind as Kinds};
ghost use Rattle.version_changes.specs.sets.Steps.{added, is_added};
ghost use Rattle.version_core.specs.Changes.{change_key, is_next, rows_of};
ghost use Rattle.version_core.specs.Order.{overlaid};
ghost use Rattle.version_core.specs.Version.{row_limit};

use roster_texts::Id;
use roster_types::row::Row;
use roster_types::rows::Rows;
use roster_values::Kind;
use version_core::row_change::RowChange;
use version_core::sorted::{following, found};
use version_core::sorted_rows::SortedRows;
use version_core::view::{VersionView, earlier};

/// A version with changes over it. No call takes memory.
#[derive(Drop)]
pub struct Draft<'a> {
    pub view: &'a VersionView<'a>,
    pub changes: &'a SortedRows,
    ghost few: { (kind : Kinds) → count_of kind (rows_of view.now.rows) ≤ row_limit },
}

// The row of this kind and id.
fn drafted<'a>(
    view: &'a VersionView,
    changes: &'a SortedRows,
    kind: Kind,
    id: &Id,
) -> Option<&'a RowChange>
    ensures { option_copied result ≡ look_up change_key (place_of_kind kind, id.now) (overlaid change_key view.now.rows changes.now) }
{
    if let Some(change) = found(changes.as_slice(), kind, id) {
        return Some(change);
    }
    view.change(kind, id)
}

// The row of this kind with the least id above `after`.
fn next_drafted<'a>(
    view: &'a VersionView,
    changes: &'a SortedRows,
    kind: Kind,
    after: Option<&Id>,
) -> Option<&'a RowChange>
    ensures { option_copied result ≡ find (λ change. is_next kind (option_copied after.entry) change.row) (overlaid change_key view.now.rows changes.now) }
{
    let change = following(changes.as_slice(), kind, after);
    earlier(change, view.next_change(kind, after))
}

// Whether a change is of the kind and of no row that stands.
fn is_added(view: &VersionView, kind: Kind, change: &RowChange) -> bool
    ensures { result ≡ is_added kind view.now.rows change.now }
{
    change.row.kind().place() == kind.place()
        && view.change(change.row.kind(), change.row.id()).is_none()
}

// How many rows of the kind the changes add.
fn added(view: &VersionView, changes: &[RowChange], kind: Kind) -> u64
    ensures { result ≡ added kind view.now.rows changes.now }
{
    changes
        .iter()
        .filter(|change| is_added(view, kind, change))
        .count() as u64
}

impl<'a> Rows for Draft<'a> {
    ghost use Rattle.version_core.specs.Changes.{change_key, rows_of};
    ghost use Rattle.version_core.specs.Order.{overlaid};

    ghost rows = { λ draft. rows_of (overlaid change_key draft.view.now.rows draft.changes.now) };

    #[tactic(auto, using(version_core::proofs::RowsOf::rows_of_look_ups))]
    fn row(&self, kind: Kind, id: &Id) -> Option<&Row> {
        Some(&drafted(self.view, self.changes, kind, id)?.row)
    }

    #[tactic(auto, using(version_core::proofs::RowsOf::rows_of_look_ups))]
    fn next(&self, kind: Kind, after: Option<&Id>) -> Option<&Row> {
        Some(&next_drafted(self.view, self.changes, kind, after)?.row)
    }

    fn count(&self, kind: Kind) -> u64 {
        self.view.count(kind) + added(self.view, self.changes.as_slice(), kind)
    }
}
