//! What a row has in the fields that filters and orders name.

ghost use Rattle.std.specs.Prelude.{◌≡◌, true, bytes_eq, find, option_map, IfSome};
ghost use Rattle.filter_grammar.specs.Subjects.{subject_shown};
ghost use Rattle.roster_values.specs.CellText.{has_short_year};
ghost use Rattle.roster_values.specs.Value.{shown};
ghost use Rattle.filter_grammar.specs.rows.SubjectValues as spec;

use crate::subject::Subject;
use roster_types::metadata::Entry;
use roster_types::row::Row;
use roster_values::ValueRef;

/// The value that a row has in a field of the table, or under a key of metadata; nothing where it has none.
pub(crate) fn subject_value<'r>(row: &'r Row, subject: Subject<'_>) -> Option<ValueRef<'r>>
    ensures value { option_map shown result ≡ spec.subject_value (subject_shown subject.entry) row.now }
    ensures year { IfSome result (λ v. has_short_year (shown v) ≡ true) }
{
    match subject {
        Subject::OfTable(info) => row.named(info.name),
        Subject::OfMetadata(key) => lent_entry(row.metadata().entries(), key),
    }
}

// The text of the entry with a key, as a value.
fn lent_entry<'e>(entries: &'e [Entry], key: &str) -> Option<ValueRef<'e>>
    ensures value { option_map shown result ≡ spec.entry_value (find (λ e. bytes_eq e.key key.now) entries.now) }
    ensures year { IfSome result (λ v. has_short_year (shown v) ≡ true) }
{
    for entry in entries {
        if entry.key.as_str() == key {
            return Some(ValueRef::Text(&entry.text));
        }
    }
    None
}
