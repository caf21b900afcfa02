//! The rows that a grant sees, read as rows.

ghost use Rattle.std.specs.Prelude.{◌≡◌, IfOk, option_copied};
ghost use Rattle.hub_spec.specs.views.Seen.{seen};
ghost use Rattle.roster_types.specs.Keys.{Ascends, count_of, next_of, row_key};
ghost use Rattle.version_core.specs.References as spec;

use crate::seen::known::KnownRows;
use crate::seen::sight::sees_row;
use grant_scopes::Schools;
use roster_base::NoMemory;
use roster_texts::Id;
use roster_types::row::Row;
use roster_types::rows::Rows;
use roster_values::Kind;
use row_walks::Steps;
use std::alloc::Global;
use std::marker::Model;
use version_core::references::Refs;

/// The rows that a grant at these schools sees among all. A clause sees those rows.
#[derive(Drop)]
pub struct SeenRows<'a, R: Refs> {
    known: KnownRows<'a, R>,
}

impl<'a, R: Refs> Model for SeenRows<'a, R> {
    ghost use Rattle.std.specs.Prelude.{List};
    ghost use Rattle.hub_spec.specs.views.Seen.{seen};
    ghost use Rattle.roster_types.specs.Records.{Record};

    ghost Value = { List Record };

    ghost view = { λ s. seen s.known.schools.now (R.rows s.known.rows.now) };
}

impl<'a, R: Refs> SeenRows<'a, R> {
    /// What is seen of these rows. Their orgs are counted once.
    pub fn new(schools: &'a Schools, rows: &'a R) -> SeenRows<'a, R>
        ensures { result ≡ seen schools.now (R.rows rows.now) }
    {
        SeenRows {
            known: KnownRows::new(schools, rows),
        }
    }

    /// What is seen of these rows, made for asking of many of them: the orgs that the listed schools lead up to are
    /// looked up once.
    pub fn with_ancestors(
        alloc: Global,
        schools: &'a Schools,
        rows: &'a R,
    ) -> Result<SeenRows<'a, R>, NoMemory>
        ensures { IfOk result (λ rows_seen. rows_seen ≡ seen schools.now (R.rows rows.now)) }
    {
        let known = KnownRows::with_ancestors(alloc, schools, rows)?;
        Ok(SeenRows { known })
    }
}

// The seen row of this kind with the least id above `after`, or with the least of all.
fn next_seen<'r, R: Refs>(
    known: &'r KnownRows<'_, R>,
    kind: Kind,
    after: Option<&Id>,
) -> Option<&'r Row>
    ensures { option_copied result ≡ next_of kind (option_copied after.entry) (seen known.now.schools.now (R.rows known.now.rows.now)) }
{
    let mut after = after;
    while let Some(row) = known.rows.next(kind, after) {
        if sees_row(known, row) {
            return Some(row);
        }
        after = Some(row.id());
    }
    None
}

// The seen row of this kind with the least id above `after` whose field names the target.
fn seen_referring<'r, R: Refs>(
    known: &'r KnownRows<'_, R>,
    kind: Kind,
    name: &str,
    target: &Id,
    after: Option<&Id>,
) -> Option<&'r Row>
    ensures { option_copied result ≡ spec.next_referring kind name.now target.now (option_copied after.entry) (seen known.now.schools.now (R.rows known.now.rows.now)) }
{
    let mut after = after;
    while let Some(row) = known.rows.referring(kind, name, target, after) {
        if sees_row(known, row) {
            return Some(row);
        }
        after = Some(row.id());
    }
    None
}

// How many rows of this kind are seen.
fn count_seen<R: Refs>(known: &KnownRows<'_, R>, kind: Kind) -> u64
    ensures count { result ≡ count_of kind (seen known.now.schools.now (R.rows known.now.rows.now)) }
    ensures order { Ascends row_key (seen known.now.schools.now (R.rows known.now.rows.now)) }
{
    // Read for the bound of a count: as many rows of the kind stand, and not more are seen.
    let _all = known.rows.count(kind);
    let mut count = 0;
    let mut after = None;
    while let Some(row) = next_seen(known, kind, after) {
        count += 1;
        after = Some(row.id());
    }
    count
}

impl<'a, R: Refs> Rows for SeenRows<'a, R> {
    ghost rows = { λ s. s };

    fn row(&self, kind: Kind, id: &Id) -> Option<&Row> {
        let Some(row) = self.known.rows.row(kind, id) else {
            return None;
        };
        if sees_row(&self.known, row) {
            Some(row)
        } else {
            None
        }
    }

    fn next(&self, kind: Kind, after: Option<&Id>) -> Option<&Row> {
        next_seen(&self.known, kind, after)
    }

    fn count(&self, kind: Kind) -> u64 {
        count_seen(&self.known, kind)
    }
}

impl<'a, R: Refs> Refs for SeenRows<'a, R> {
    fn referring(&self, kind: Kind, name: &str, target: &Id, after: Option<&Id>) -> Option<&Row> {
        seen_referring(&self.known, kind, name, target, after)
    }

    fn ascend(&self) {
        self.known.rows.ascend();
    }
}

// A row that is seen is looked for anew each time: the place of the last one isn't used.
impl<'a, R: Refs> Steps for SeenRows<'a, R> {
    fn next_near(&self, kind: Kind, after: Option<&Id>, _near: &mut usize) -> Option<&Row> {
        next_seen(&self.known, kind, after)
    }
}
