//! What the fields of a row name.

ghost use Rattle.std.specs.Prelude.{◌≡◌, codes, option_copied, option_map, option_to_list, true};
ghost use Rattle.std.specs.List.{list_all};
ghost use Rattle.std.specs.Option.{option_map_or};
ghost use Rattle.hub_spec.specs.rules.Refusals as spec;
ghost use Rattle.hub_spec.specs.views.Seen as seeing;
ghost use Rattle.roster_values.specs.Table.{form_of};
ghost use Rattle.roster_values.specs.Value.{shown};
ghost use Rattle.version_core.specs.Changes.{rows_of};
ghost use Rattle.version_core.specs.References.{named_in, refs_in};

use grant_scopes::Grant;
use query_pages::sees;
use roster_texts::Id;
use roster_types::row::Row;
use roster_types::structs::Fields;
use roster_values::fields::fields;
use roster_values::{FieldForm, Kind, ValueRef};
use version_core::view::VersionView;

// Whether each row of the kind that a value names is seen.
fn sees_each(view: &VersionView<'_>, grant: &Grant, kind: Kind, value: Option<ValueRef<'_>>) -> bool
    ensures { result ≡ list_all (seeing.sees grant.now.schools (rows_of view.now.rows) kind) (refs_in (option_map shown value.entry)) }
{
    match value {
        Some(ValueRef::Ref(id)) => sees(view, grant, kind, id),
        Some(ValueRef::Refs(ids)) => ids.as_slice().iter().all(|id| sees(view, grant, kind, id)),
        _ => true,
    }
}

// Whether a field of this form names seen rows alone.
fn names_seen(
    view: &VersionView<'_>,
    grant: &Grant,
    form: FieldForm,
    value: Option<ValueRef<'_>>,
) -> bool
    ensures { result ≡ option_map_or (λ kind. list_all (seeing.sees grant.now.schools (rows_of view.now.rows) kind) (refs_in (option_map shown value.entry))) (spec.kind_named (form_of form)) true }
{
    match form {
        FieldForm::Ref(kind) | FieldForm::Refs(kind) => sees_each(view, grant, kind, value),
        _ => true,
    }
}

/// Whether each field names rows alone that stand in the version and are seen by the grant.
pub fn is_within(view: &VersionView<'_>, grant: &Grant, row: &Row) -> bool
    ensures { result ≡ spec.is_within grant.now.schools (rows_of view.now.rows) row.now }
{
    let infos = fields(row.kind());
    for place in 0..infos.len() {
        if !names_seen(view, grant, infos[place].form, row.value(place)) {
            return false;
        }
    }
    true
}

/// What a row names as its grading period.
pub fn grading_period(row: &Row) -> Option<&Id>
    ensures { option_to_list (option_copied result) ≡ named_in (codes "gradingPeriod") row.now }
{
    match row.fields() {
        Fields::LineItems(item) => item.grading_period.as_ref(),
        _ => None,
    }
}
