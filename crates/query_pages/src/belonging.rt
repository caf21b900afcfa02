//! Which rows belong to a path.

ghost use Rattle.std.specs.Prelude.{◌≡◌, ◌<◌, ◌&&◌, ◌||◌, codes, length};
ghost use Rattle.hub_spec.specs.views.Lists as spec;
ghost use Rattle.hub_spec.specs.views.Rules.{has_role, rule_of};
ghost use Rattle.hub_spec.specs.views.References.{is_named_by, leads_to, stands_where};
ghost use Rattle.version_core.specs.References.{names};

use crate::row_tests::{IsIn, IsInClass, Names, is_in};
use crate::seen::references::{is_named_by, leads_to, stands_where};
use rest_paths::{Collection, Path, Route};
use roster_texts::Id;
use roster_types::row::Row;
use roster_values::Kind;
use version_core::references::{Refs, names};

/// The id of the object at a place.
pub fn id_at(path: &Path, place: usize) -> &Id
    requires { place < length path.now.ids }
    ensures { result.now ≡ spec.id_at path.now place }
{
    &path.ids()[place]
}

// Whether each object is among the rows and is one of its collection.
fn objects_stand<R: Refs>(rows: &R, objects: &[Collection], ids: &[Id]) -> bool
    ensures { result ≡ spec.objects_stand (R.rows rows.now) objects.now ids.now }
{
    let Some((collection, objects)) = objects.split_first() else {
        return true;
    };
    let Some((id, ids)) = ids.split_first() else {
        return false;
    };
    let collection = *collection;
    stands_where(rows, &IsIn { collection }, collection.kind(), id)
        && objects_stand(rows, objects, ids)
}

// Whether an enrollment in the class with the role names the user.
fn is_enrolled<R: Refs>(rows: &R, class: &Id, role: &str, user: &Row) -> bool
    ensures { result ≡ is_named_by (λ other. names (codes "class") class.now other && has_role other role.now) (R.rows rows.now) Kind.Enrollments (codes "user") user.now }
{
    is_named_by(
        rows,
        &IsInClass { class, role },
        Kind::Enrollments,
        "user",
        user,
    )
}

// Whether a row of the kind that names the target by the field `by` names the row.
fn is_named_under<R: Refs>(
    rows: &R,
    kind: Kind,
    field: &str,
    by: &str,
    target: &Id,
    row: &Row,
) -> bool
    ensures { result ≡ is_named_by (names by.now target.now) (R.rows rows.now) kind field.now row.now }
{
    let test = Names {
        field: by,
        id: target,
    };
    is_named_by(rows, &test, kind, field, row)
}

/// Whether each object that a path names is among the rows.
pub fn has_objects<R: Refs>(rows: &R, path: &Path) -> bool
    ensures { result ≡ spec.has_objects (R.rows rows.now) path.now }
{
    objects_stand(rows, path.route().objects(), path.ids())
}

// Whether the second object, of a kind, names the first by a field.
fn second_names<R: Refs>(rows: &R, path: &Path, kind: Kind, field: &str) -> bool
    requires { length path.now.ids ≡ 2 }
    ensures { result ≡ stands_where (names field.now (spec.id_at path.now 0)) (R.rows rows.now) kind (spec.id_at path.now 1) }
{
    let test = Names {
        field,
        id: id_at(path, 0),
    };
    stands_where(rows, &test, kind, id_at(path, 1))
}

// Whether the second object, a class, is of the first, a school, and an enrollment in it with the role names the user.
fn is_enrolled_at_school<R: Refs>(rows: &R, path: &Path, role: &str, user: &Row) -> bool
    requires { length path.now.ids ≡ 2 }
    ensures { result
        ≡ (stands_where (names (codes "school") (spec.id_at path.now 0)) (R.rows rows.now) Kind.Classes (spec.id_at path.now 1)
        && is_named_by (λ other. names (codes "class") (spec.id_at path.now 1) other && has_role other role.now) (R.rows rows.now) Kind.Enrollments (codes "user") user.now) }
{
    second_names(rows, path, Kind::Classes, "school")
        && is_enrolled(rows, id_at(path, 1), role, user)
}

// Whether the user is of the school: it names the school, or is enrolled there.
fn is_at_school<R: Refs>(rows: &R, school: &Id, user: &Row) -> bool
    ensures { result
        ≡ (names (codes "orgs") school.now user.now
        || is_named_by (names (codes "school") school.now) (R.rows rows.now) Kind.Enrollments (codes "user") user.now) }
{
    names(user, "orgs", school)
        || is_named_under(rows, Kind::Enrollments, "user", "school", school, user)
}

// Whether a class of the school is in the term.
fn is_term_at_school<R: Refs>(rows: &R, school: &Id, term: &Row) -> bool
    ensures { result ≡ is_named_by (names (codes "school") school.now) (R.rows rows.now) Kind.Classes (codes "terms") term.now }
{
    is_named_under(rows, Kind::Classes, "terms", "school", school, term)
}

// Whether the user is enrolled in the class.
fn is_class_of_user<R: Refs>(rows: &R, user: &Id, class: &Row) -> bool
    ensures { result ≡ is_named_by (names (codes "user") user.now) (R.rows rows.now) Kind.Enrollments (codes "class") class.now }
{
    is_named_under(rows, Kind::Enrollments, "class", "user", user, class)
}

// Whether the second object, of a kind, names the first by a field, and the row the second by another.
fn both_name<R: Refs>(rows: &R, path: &Path, kind: Kind, field: &str, by: &str, row: &Row) -> bool
    requires { length path.now.ids ≡ 2 }
    ensures { result
        ≡ (stands_where (names field.now (spec.id_at path.now 0)) (R.rows rows.now) kind (spec.id_at path.now 1)
        && names by.now (spec.id_at path.now 1) row.now) }
{
    second_names(rows, path, kind, field) && names(row, by, id_at(path, 1))
}

// Whether a link of this kind leads from the path's object, which it names by a field, to the resource.
fn is_resource_of<R: Refs>(rows: &R, path: &Path, links: Kind, by: &str, resource: &Row) -> bool
    requires { length path.now.ids ≡ 1 }
    ensures { result ≡ is_named_by (names by.now (spec.id_at path.now 0)) (R.rows rows.now) links (codes "resource") resource.now }
{
    is_named_under(rows, links, "resource", by, id_at(path, 0), resource)
}

// Whether the rule of the path's route holds for the row.
#[tactic(auto, unfolding(hub_spec::specs::views::Rules::rule_of))]
fn rule_holds<R: Refs>(rows: &R, path: &Path, row: &Row) -> bool
    ensures { result ≡ rule_of path.now.route (R.rows rows.now) (spec.id_at path.now 0) (spec.id_at path.now 1) row.now }
{
    match path.route() {
        Route::All(_) | Route::One(_) => true,
        Route::SchoolCourses => names(row, "org", id_at(path, 0)),
        Route::SchoolClasses | Route::SchoolEnrollments => names(row, "school", id_at(path, 0)),
        Route::SchoolStudents => is_at_school(rows, id_at(path, 0), row),
        Route::SchoolTeachers => is_at_school(rows, id_at(path, 0), row),
        Route::SchoolTerms => is_term_at_school(rows, id_at(path, 0), row),
        Route::SchoolClassEnrollments => {
            both_name(rows, path, Kind::Classes, "school", "class", row)
        }
        Route::SchoolClassStudents => is_enrolled_at_school(rows, path, "student", row),
        Route::SchoolClassTeachers => is_enrolled_at_school(rows, path, "teacher", row),
        Route::ClassStudents => is_enrolled(rows, id_at(path, 0), "student", row),
        Route::ClassTeachers => is_enrolled(rows, id_at(path, 0), "teacher", row),
        Route::TermClasses => names(row, "terms", id_at(path, 0)),
        Route::TermGradingPeriods => names(row, "parent", id_at(path, 0)),
        Route::CourseClasses => names(row, "course", id_at(path, 0)),
        Route::StudentClasses | Route::TeacherClasses | Route::UserClasses => {
            is_class_of_user(rows, id_at(path, 0), row)
        }
        Route::ClassLineItems => names(row, "class", id_at(path, 0)),
        Route::ClassResults => is_of_class(rows, id_at(path, 0), row),
        Route::ClassLineItemResults => {
            both_name(rows, path, Kind::LineItems, "class", "lineItem", row)
        }
        Route::ClassStudentResults => {
            is_of_class(rows, id_at(path, 0), row) && names(row, "student", id_at(path, 1))
        }
        Route::ClassResources => is_resource_of(rows, path, Kind::ClassResources, "class", row),
        Route::CourseResources => {
            is_resource_of(rows, path, Kind::CourseResources, "course", row)
        }
    }
}

// Whether the line item of the result is of the class.
fn is_of_class<R: Refs>(rows: &R, class: &Id, result_row: &Row) -> bool
    ensures { result ≡ leads_to (names (codes "class") class.now) (R.rows rows.now) (codes "lineItem") Kind.LineItems result_row.now }
{
    let test = Names {
        field: "class",
        id: class,
    };
    leads_to(rows, &test, "lineItem", Kind::LineItems, result_row)
}

/// Whether the row belongs to the path.
#[tactic(auto, unfolding(hub_spec::specs::views::Lists::belongs))]
pub fn belongs<R: Refs>(rows: &R, path: &Path, row: &Row) -> bool
    ensures { result ≡ spec.belongs (R.rows rows.now) path.now row.now }
{
    is_in(path.route().lists(), row) && rule_holds(rows, path, row)
}
