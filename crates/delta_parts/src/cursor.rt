//! The rows of a kind, one after another.

ghost use Rattle.std.specs.Prelude.{◌≡◌, drop, filter, if◌then◌else◌, option_copied, slice_get};
ghost use Rattle.roster_types.specs.Keys.{Ascends, is_of_kind, next_of, row_key};

use roster_texts::Id;
use roster_types::row::Row;
use roster_values::Kind;
use row_walks::Steps;
use std::marker::Model;

/// A place among the rows of a kind. A clause sees the rows from there on.
#[derive(Drop)]
pub struct Cursor<'a, R: Steps> {
    rows: &'a R,
    kind: Kind,
    after: Option<&'a Id>,
    head: Option<&'a Row>,
    // Where the row was found, so that the next is found in one step.
    near: usize,
    ghost order: { Ascends row_key (R.rows rows.now) },
    ghost next: { option_copied head ≡ next_of kind (option_copied after) (R.rows rows.now) },
}

impl<'a, R: Steps> Model for Cursor<'a, R> {
    ghost use Rattle.std.specs.Prelude.{List, option_copied};
    ghost use Rattle.reference_rules.proofs.Rest.{rest_of};
    ghost use Rattle.roster_types.specs.Records.{Record};

    ghost Value = { List Record };

    ghost view = { λ c. rest_of c.kind (option_copied c.after) (R.rows c.rows.now) };
}

impl<'a, R: Steps> Cursor<'a, R> {
    /// The first of these rows.
    pub fn new(rows: &'a R, kind: Kind) -> Cursor<'a, R>
        ensures rows { result ≡ filter (is_of_kind kind) (R.rows rows.now) }
        ensures order { Ascends row_key (R.rows rows.now) }
    {
        // Read for the order of the rows.
        rows.ascend();
        let mut near = 0;
        let head = rows.next_near(kind, None, &mut near);
        Cursor {
            rows,
            kind,
            after: None,
            head,
            near,
        }
    }

    /// The row at this place, where rows are left.
    pub fn head(&self) -> Option<&'a Row>
        ensures { option_copied result ≡ slice_get self.now 0 }
    {
        self.head
    }

    // The same place, as a value of its own.
    fn same(&self) -> Cursor<'a, R>
        ensures { result ≡ self.now }
    {
        Cursor {
            rows: self.rows,
            kind: self.kind,
            after: self.after,
            head: self.head,
            near: self.near,
        }
    }

    // The place behind the head, or this one where no rows are left.
    fn passed(&self) -> Cursor<'a, R>
        ensures { result ≡ drop 1 self.now }
    {
        let rows = self.rows;
        let kind = self.kind;
        match self.head {
            Some(row) => {
                let after = Some(row.id());
                let mut near = self.near;
                let head = rows.next_near(kind, after, &mut near);
                Cursor {
                    rows,
                    kind,
                    after,
                    head,
                    near,
                }
            }
            None => self.same(),
        }
    }

    /// The next place where the head is passed, and else this one.
    pub fn advanced(&self, is_passed: bool) -> Cursor<'a, R>
        ensures { result ≡ (if is_passed then drop 1 self.now else self.now) }
    {
        if is_passed {
            self.passed()
        } else {
            self.same()
        }
    }
}
