//! The words of kinds, their files and their fields, and what each scope opens.

use grant_scopes::{Access, Scopes, opens};
use roster_values::Kind;
use roster_values::fields::fields;

// What is said of a kind: its words, its file, and how many fields it has.
type Facts = (&'static str, &'static str, &'static str, usize);

static KINDS: [(Kind, Facts); 13] = [
    (Kind::Orgs, ("orgs", "org", "orgs.csv", 7)),
    (
        Kind::AcademicSessions,
        (
            "academicSessions",
            "academicSession",
            "academicSessions.csv",
            9,
        ),
    ),
    (Kind::Courses, ("courses", "course", "courses.csv", 10)),
    (Kind::Classes, ("classes", "class", "classes.csv", 14)),
    (Kind::Users, ("users", "user", "users.csv", 17)),
    (
        Kind::Enrollments,
        ("enrollments", "enrollment", "enrollments.csv", 10),
    ),
    (
        Kind::Demographics,
        ("demographics", "demographics", "demographics.csv", 16),
    ),
    (
        Kind::Categories,
        ("categories", "category", "categories.csv", 4),
    ),
    (
        Kind::LineItems,
        ("lineItems", "lineItem", "lineItems.csv", 12),
    ),
    (Kind::Results, ("results", "result", "results.csv", 9)),
    (
        Kind::Resources,
        ("resources", "resource", "resources.csv", 9),
    ),
    (
        Kind::ClassResources,
        ("classResources", "classResource", "classResources.csv", 6),
    ),
    (
        Kind::CourseResources,
        (
            "courseResources",
            "courseResource",
            "courseResources.csv",
            6,
        ),
    ),
];

fn facts_of(kind: Kind) -> Facts {
    (
        kind.plural(),
        kind.single(),
        kind.file_name(),
        fields(kind).len(),
    )
}

#[test]
fn kinds_and_their_fields(rt: HostRuntime) {
    for (kind, want) in &KINDS {
        assert_eq!(rt; (Kind::read(want.0), facts_of(*kind)), (Some(*kind), *want));
    }
}

// The text of a grant's scopes, an access, a kind, and whether the scopes open that access to the kind.
static OPENED: [(&str, Access, Kind, bool); 16] = [
    ("", Access::Read, Kind::Orgs, false),
    ("roster.readonly", Access::Read, Kind::Orgs, true),
    ("roster.readonly", Access::Read, Kind::Demographics, true),
    ("roster.readonly", Access::Read, Kind::Results, false),
    (
        "roster-core.readonly",
        Access::Read,
        Kind::Enrollments,
        true,
    ),
    (
        "roster-core.readonly",
        Access::Read,
        Kind::Demographics,
        false,
    ),
    (
        "roster-demographics.readonly",
        Access::Read,
        Kind::Demographics,
        true,
    ),
    (
        "roster-demographics.readonly",
        Access::Read,
        Kind::Users,
        false,
    ),
    ("gradebook.readonly", Access::Read, Kind::LineItems, true),
    ("gradebook.readonly", Access::Put, Kind::LineItems, false),
    ("gradebook.createput", Access::Put, Kind::Results, true),
    ("gradebook.createput", Access::Delete, Kind::Results, false),
    (
        "gradebook.delete roster.readonly",
        Access::Delete,
        Kind::Categories,
        true,
    ),
    (
        "resource.readonly",
        Access::Read,
        Kind::CourseResources,
        true,
    ),
    ("resource.readonly", Access::Read, Kind::Courses, false),
    ("roster.readonly roster", Access::Read, Kind::Orgs, false),
];

// Whether the scopes of a text open a kind. A text that is no list of scopes opens none.
fn is_opened(text: &str, kind: Kind, access: Access) -> bool {
    match Scopes::read(text) {
        Some(scopes) => opens(scopes, kind, access),
        None => false,
    }
}

#[test]
fn scopes_open_their_kinds(rt: HostRuntime) {
    for (text, access, kind, want) in &OPENED {
        assert_eq!(rt; is_opened(text, *kind, *access), *want, "{text} {kind:?}");
    }
}
