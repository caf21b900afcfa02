//! What the rules ask of a row's own fields.

ghost use Rattle.std.specs.Prelude.{◌≡◌, option_copied, option_map};
ghost use Rattle.reference_rules.specs.Faults.{first_day_name, has_type, type_in};
ghost use Rattle.reference_rules.specs.Parents.{parent_in};
ghost use Rattle.roster_types.specs.Records.{field_of};
ghost use Rattle.roster_values.specs.declared.value.Value.{Value as Values};

use roster_texts::{Day, Id};
use roster_types::row::Row;
use roster_types::structs::Fields;

/// The parent that an org or a session names.
pub fn parent_in(row: &Row) -> Option<&Id>
    ensures { option_copied result ≡ parent_in row.now }
{
    match row.fields() {
        Fields::Orgs(org) => org.parent.as_ref(),
        Fields::AcademicSessions(session) => session.parent.as_ref(),
        _ => None,
    }
}

/// Whether an org or a session has this type.
pub fn has_type(row: &Row, word: &str) -> bool
    ensures { result ≡ has_type row.now word.now }
{
    match row.fields() {
        Fields::Orgs(org) => org.type_word.as_str() == word,
        Fields::AcademicSessions(session) => session.type_word.as_str() == word,
        _ => false,
    }
}

/// The type of an org or a session.
pub fn type_in(row: &Row) -> Option<&str>
    ensures { option_map (λ s. s.now) result ≡ type_in row.now }
{
    match row.fields() {
        Fields::Orgs(org) => Some(org.type_word.as_str()),
        Fields::AcademicSessions(session) => Some(session.type_word.as_str()),
        _ => None,
    }
}

/// The first of the days of which the field `endDate` is the last.
pub fn first_day(row: &Row) -> Option<Day>
    ensures { option_map (λ d. Values.Day d) result ≡ field_of row.now (first_day_name row.now.kind) }
{
    match row.fields() {
        Fields::AcademicSessions(session) => Some(session.start_date),
        Fields::Enrollments(enrollment) => enrollment.begin_date,
        _ => None,
    }
}
