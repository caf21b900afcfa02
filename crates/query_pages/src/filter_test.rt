//! Filters, made ready once for all rows of a kind.

ghost use Rattle.std.specs.Prelude.{◌≡◌, IfOk};
ghost use Rattle.std.specs.Option.{ForSome};
ghost use Rattle.filter_grammar.specs.rows.Filters as filters;
ghost use Rattle.query_pages.specs.FilterTests as spec;
ghost use Rattle.roster_types.specs.Records.{Record};

use crate::field_test::{FieldTest, field_test};
use filter_grammar::{Filter, Joint, joined, passes};
use roster_base::NoMemory;
use roster_types::row::Row;
use roster_values::Kind;
use std::alloc::Global;

/// A filter that asks for fields of the field table alone.
#[derive(Clone, Copy)]
pub enum ReadyFilter<'q> {
    One(FieldTest<'q>),
    Two(FieldTest<'q>, Joint, FieldTest<'q>),
}

impl ReadyFilter<'_> {
    // Whether a row passes.
    fn passes(self, alloc: Global, row: &Row) -> Result<bool, NoMemory>
        ensures { IfOk result (λ b. b ≡ spec.ready_filter_passes self.entry row.now) }
    {
        match self {
            ReadyFilter::One(test) => test.passes(alloc, row),
            ReadyFilter::Two(first, joint, second) => {
                let first = first.passes(alloc, row)?;
                let second = second.passes(alloc, row)?;
                Ok(joined(joint, first, second))
            }
        }
    }
}

// A filter as rows of a kind are asked for it, where it asks for fields of the field table alone.
fn ready_filter<'q>(
    alloc: Global,
    kind: Kind,
    filter: &'q Option<Filter>,
) -> Option<ReadyFilter<'q>>
    ensures { ForSome result (λ test. (row : Record) → row.kind ≡ kind → filters.passes filter.now row ≡ spec.ready_filter_passes test row) }
{
    let Some(asked) = filter else {
        return None;
    };
    let first = field_test(alloc, kind, &asked.first)?;
    match &asked.second {
        None => Some(ReadyFilter::One(first)),
        Some((joint, second)) => Some(ReadyFilter::Two(
            first,
            *joint,
            field_test(alloc, kind, second)?,
        )),
    }
}

/// A filter that many rows are asked for, most of them of one kind.
#[derive(Clone, Copy)]
pub struct FilterTest<'q> {
    filter: &'q Option<Filter>,
    kind: Kind,
    // What stands for the filter at rows of the kind.
    ready: Option<ReadyFilter<'q>>,
    ghost same: { ForSome ready (λ test. (row : Record) → row.kind ≡ kind → filters.passes filter.now row ≡ spec.ready_filter_passes test row) },
}

impl<'q> FilterTest<'q> {
    /// The filter, made ready for the rows of a kind.
    pub fn new(alloc: Global, kind: Kind, filter: &'q Option<Filter>) -> FilterTest<'q>
        ensures { result.filter.now ≡ filter.now }
    {
        let ready = ready_filter(alloc, kind, filter);
        FilterTest {
            filter,
            kind,
            ready,
        }
    }

    /// Whether a row passes the filter.
    pub fn passes(&self, alloc: Global, row: &Row) -> Result<bool, NoMemory>
        ensures { IfOk result (λ b. b ≡ filters.passes self.now.filter.now row.now) }
    {
        match self.ready {
            Some(ready) if row.kind() == self.kind => ready.passes(alloc, row),
            _ => passes(alloc, row, self.filter),
        }
    }
}
