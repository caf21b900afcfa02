//! What the rules of routes ask of one row.

ghost use Rattle.std.specs.Prelude.{◌≡◌, ◌&&◌, codes};
ghost use Rattle.hub_spec.specs.views.Rules.{has_role, is_in, is_of_type};
ghost use Rattle.reference_rules.specs.Faults.{is_word};
ghost use Rattle.roster_types.specs.Records.{field_of};
ghost use Rattle.version_core.specs.References.{names};

use crate::seen::RowTest;
use rest_paths::Collection;
use roster_texts::Id;
use roster_types::row::Row;
use roster_values::ValueRef;
use version_core::references::names;

// Whether the field is this word.
fn has_word(row: &Row, field: &str, word: &str) -> bool
    ensures { result ≡ is_word (field_of row.now field.now) word.now }
{
    match row.named(field) {
        Some(ValueRef::Word(other)) => other == word,
        _ => false,
    }
}

// Whether the row has the type or the role that the collection asks for.
fn is_of_type(collection: Collection, row: &Row) -> bool
    ensures { result ≡ is_of_type collection row.now }
{
    match collection {
        Collection::Of(_) => true,
        Collection::Schools => has_word(row, "type", "school"),
        Collection::Terms => has_word(row, "type", "term"),
        Collection::GradingPeriods => has_word(row, "type", "gradingPeriod"),
        Collection::Students => has_word(row, "role", "student"),
        Collection::Teachers => has_word(row, "role", "teacher"),
    }
}

/// Whether the row is one of the collection's.
pub fn is_in(collection: Collection, row: &Row) -> bool
    ensures { result ≡ is_in collection row.now }
{
    row.kind().place() == collection.kind().place() && is_of_type(collection, row)
}

/// The test whether the row is one of the collection's.
#[derive(Drop)]
pub struct IsIn {
    pub collection: Collection,
}

impl RowTest for IsIn {
    ghost passes = { λ t row. is_in t.collection row };

    fn passes(&self, row: &Row) -> bool {
        is_in(self.collection, row)
    }
}

/// The test whether the field of the row names the id.
#[derive(Drop)]
pub struct Names<'a> {
    pub field: &'a str,
    pub id: &'a Id,
}

impl<'a> RowTest for Names<'a> {
    ghost passes = { λ t row. names t.field.now t.id.now row };

    fn passes(&self, row: &Row) -> bool {
        names(row, self.field, self.id)
    }
}

/// The test whether the row, an enrollment, is in the class with the role.
#[derive(Drop)]
pub struct IsInClass<'a> {
    pub class: &'a Id,
    pub role: &'a str,
}

impl<'a> RowTest for IsInClass<'a> {
    ghost passes = { λ t row. names (codes "class") t.class.now row && has_role row t.role.now };

    fn passes(&self, row: &Row) -> bool {
        names(row, "class", self.class) && has_word(row, "role", self.role)
    }
}
