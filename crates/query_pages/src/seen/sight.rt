//! What a grant sees.

ghost use Rattle.std.specs.Prelude.{◌≡◌};
ghost use Rattle.grant_scopes.specs.declared.schools.Schools.TheVariants.{Listed};
ghost use Rattle.hub_spec.specs.views.Seen as spec;

use crate::seen::chains::leads_up;
use crate::seen::known::KnownRows;
use crate::seen::references::{is_named_by, leads_to, names_one_of, stands_where};
use crate::seen::row_test::RowTest;
use grant_scopes::{Grant, Schools};
use roster_texts::Id;
use roster_types::row::Row;
use roster_types::rows::Rows;
use roster_values::Kind;
use version_core::references::Refs;

// The test whether the school of the row is listed.
#[derive(Drop)]
struct IsAtSchool<'a> {
    schools: &'a [Id],
}

impl<'a> RowTest for IsAtSchool<'a> {
    ghost passes = { λ t row. spec.is_at_school t.schools.now row };

    #[tactic(auto, unfolding(hub_spec::specs::views::Seen::is_at_school))]
    fn passes(&self, row: &Row) -> bool {
        names_one_of(row, "school", self.schools)
    }
}

// The test whether the org is listed, or an ancestor of one that is.
#[derive(Drop)]
struct SeesOrg<'a, R: Refs> {
    schools: &'a [Id],
    known: &'a KnownRows<'a, R>,
    ghost listed: { known.now.schools.now ≡ Listed schools.now },
}

impl<'a, R: Refs> RowTest for SeesOrg<'a, R> {
    ghost passes = { λ t org. spec.sees_org t.schools.now (R.rows t.known.now.rows.now) org };

    #[tactic(auto, unfolding(hub_spec::specs::views::Seen::sees_org))]
    fn passes(&self, org: &Row) -> bool {
        let id = org.id();
        if let Some(ancestors) = &self.known.ancestors {
            return ancestors.contains(id.as_str());
        }
        let rows = self.known.rows;
        let turns = self.known.orgs;
        self.schools
            .iter()
            .any(|school| leads_up(rows, id, turns, school))
    }
}

// The test whether one of the user's orgs is listed, or an enrollment whose school is listed names the user.
#[derive(Drop)]
struct SeesUser<'a, R: Refs> {
    schools: &'a [Id],
    rows: &'a R,
}

impl<'a, R: Refs> RowTest for SeesUser<'a, R> {
    ghost passes = { λ t user. spec.sees_user t.schools.now (R.rows t.rows.now) user };

    #[tactic(auto, unfolding(hub_spec::specs::views::Seen::sees_user))]
    fn passes(&self, user: &Row) -> bool {
        let schools = self.schools;
        names_one_of(user, "orgs", schools)
            || is_named_by(
                self.rows,
                &IsAtSchool { schools },
                Kind::Enrollments,
                "user",
                user,
            )
    }
}

// The test whether the class of a line item or of a class resource is seen.
#[derive(Drop)]
struct SeesClassOf<'a, R: Refs> {
    schools: &'a [Id],
    rows: &'a R,
}

impl<'a, R: Refs> RowTest for SeesClassOf<'a, R> {
    ghost passes = { λ t row. spec.sees_class_of t.schools.now (R.rows t.rows.now) row };

    #[tactic(auto, unfolding(hub_spec::specs::views::Seen::sees_class_of))]
    fn passes(&self, row: &Row) -> bool {
        let schools = self.schools;
        leads_to(
            self.rows,
            &IsAtSchool { schools },
            "class",
            Kind::Classes,
            row,
        )
    }
}

// The test whether the org of the course is seen, or a class that is seen names the course.
#[derive(Drop)]
struct SeesCourse<'a, R: Refs> {
    schools: &'a [Id],
    known: &'a KnownRows<'a, R>,
    ghost listed: { known.now.schools.now ≡ Listed schools.now },
}

impl<'a, R: Refs> RowTest for SeesCourse<'a, R> {
    ghost passes = { λ t course. spec.sees_course t.schools.now (R.rows t.known.now.rows.now) course };

    #[tactic(auto, unfolding(hub_spec::specs::views::Seen::sees_course))]
    fn passes(&self, course: &Row) -> bool {
        let schools = self.schools;
        let known = self.known;
        leads_to(
            known.rows,
            &SeesOrg { schools, known },
            "org",
            Kind::Orgs,
            course,
        ) || is_named_by(
            known.rows,
            &IsAtSchool { schools },
            Kind::Classes,
            "course",
            course,
        )
    }
}

// The test whether the course of the course resource is seen.
#[derive(Drop)]
struct SeesCourseResource<'a, R: Refs> {
    schools: &'a [Id],
    known: &'a KnownRows<'a, R>,
    ghost listed: { known.now.schools.now ≡ Listed schools.now },
}

impl<'a, R: Refs> RowTest for SeesCourseResource<'a, R> {
    ghost passes = { λ t row. spec.sees_course_resource t.schools.now (R.rows t.known.now.rows.now) row };

    #[tactic(auto, unfolding(hub_spec::specs::views::Seen::sees_course_resource))]
    fn passes(&self, row: &Row) -> bool {
        let schools = self.schools;
        let known = self.known;
        leads_to(
            known.rows,
            &SeesCourse { schools, known },
            "course",
            Kind::Courses,
            row,
        )
    }
}

// A class resource or a course resource that is seen names the resource.
#[tactic(auto, unfolding(hub_spec::specs::views::Seen::sees_resource))]
fn sees_resource<R: Refs>(schools: &[Id], known: &KnownRows<'_, R>, resource: &Row) -> bool
    requires { known.now.schools.now ≡ Listed schools.now }
    ensures { result ≡ spec.sees_resource schools.now (R.rows known.now.rows.now) resource.now }
{
    let rows = known.rows;
    is_named_by(
        rows,
        &SeesClassOf { schools, rows },
        Kind::ClassResources,
        "resource",
        resource,
    ) || is_named_by(
        rows,
        &SeesCourseResource { schools, known },
        Kind::CourseResources,
        "resource",
        resource,
    )
}

// Whether a row is seen under a list of schools, by the rule of its kind.
fn sees_at<R: Refs>(schools: &[Id], known: &KnownRows<'_, R>, row: &Row) -> bool
    requires { known.now.schools.now ≡ Listed schools.now }
    ensures { result ≡ spec.sees_at schools.now (R.rows known.now.rows.now) row.now.kind row.now }
{
    let rows = known.rows;
    match row.kind() {
        Kind::Orgs => SeesOrg { schools, known }.passes(row),
        Kind::AcademicSessions | Kind::Categories => true,
        Kind::Courses => SeesCourse { schools, known }.passes(row),
        Kind::Classes | Kind::Enrollments => IsAtSchool { schools }.passes(row),
        Kind::Users => SeesUser { schools, rows }.passes(row),
        Kind::Demographics => {
            stands_where(rows, &SeesUser { schools, rows }, Kind::Users, row.id())
        }
        Kind::LineItems => SeesClassOf { schools, rows }.passes(row),
        Kind::Results => leads_to(
            rows,
            &SeesClassOf { schools, rows },
            "lineItem",
            Kind::LineItems,
            row,
        ),
        Kind::Resources => sees_resource(schools, known, row),
        Kind::ClassResources => SeesClassOf { schools, rows }.passes(row),
        Kind::CourseResources => SeesCourseResource { schools, known }.passes(row),
    }
}

/// Whether a grant at the schools sees the row among the others.
#[tactic(auto, unfolding(hub_spec::specs::views::Seen::sees_row))]
pub fn sees_row<R: Refs>(known: &KnownRows<'_, R>, row: &Row) -> bool
    ensures { result ≡ spec.sees_row known.now.schools.now (R.rows known.now.rows.now) row.now }
{
    match known.schools {
        Schools::All => true,
        Schools::Listed(list) => sees_at(list.ids(), known, row),
    }
}

/// Whether the row of a kind and id stands and the grant sees it.
pub fn sees<R: Refs>(rows: &R, grant: &Grant, kind: Kind, id: &Id) -> bool
    ensures { result ≡ spec.sees grant.now.schools (R.rows rows.now) kind id.now }
{
    let known = KnownRows::new(&grant.schools, rows);
    match rows.row(kind, id) {
        Some(row) => sees_row(&known, row),
        None => false,
    }
}
