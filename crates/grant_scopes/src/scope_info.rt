//! The scopes of OneRoster 1.1.

ghost use Rattle.std.specs.Prelude.{◌≡◌, map};
ghost use Rattle.std.specs.List.{list_any};
ghost use Rattle.grant_scopes.specs.Infos.{scope_of};
ghost use Rattle.grant_scopes.specs.Opens.{is_kind, opens_by, scopes};

use crate::access::Access;
use roster_values::Kind;

/// A scope: the last word of its URI, and which access to which kinds it opens.
#[derive(Clone, Copy)]
pub struct ScopeInfo {
    pub word: &'static str,
    pub access: Access,
    pub kinds: &'static [Kind],
}

const ROSTER_KINDS: &[Kind] = &[
    Kind::Orgs,
    Kind::AcademicSessions,
    Kind::Courses,
    Kind::Classes,
    Kind::Users,
    Kind::Enrollments,
    Kind::Demographics,
];

const CORE_KINDS: &[Kind] = &[
    Kind::Orgs,
    Kind::AcademicSessions,
    Kind::Courses,
    Kind::Classes,
    Kind::Users,
    Kind::Enrollments,
];

const DEMOGRAPHICS: &[Kind] = &[Kind::Demographics];

const GRADEBOOK_KINDS: &[Kind] = &[Kind::Categories, Kind::LineItems, Kind::Results];

const RESOURCE_KINDS: &[Kind] = &[Kind::Resources, Kind::ClassResources, Kind::CourseResources];

static SCOPES: [ScopeInfo; 7] = [
    ScopeInfo {
        word: "roster.readonly",
        access: Access::Read,
        kinds: ROSTER_KINDS,
    },
    ScopeInfo {
        word: "roster-core.readonly",
        access: Access::Read,
        kinds: CORE_KINDS,
    },
    ScopeInfo {
        word: "roster-demographics.readonly",
        access: Access::Read,
        kinds: DEMOGRAPHICS,
    },
    ScopeInfo {
        word: "gradebook.readonly",
        access: Access::Read,
        kinds: GRADEBOOK_KINDS,
    },
    ScopeInfo {
        word: "gradebook.createput",
        access: Access::Put,
        kinds: GRADEBOOK_KINDS,
    },
    ScopeInfo {
        word: "gradebook.delete",
        access: Access::Delete,
        kinds: GRADEBOOK_KINDS,
    },
    ScopeInfo {
        word: "resource.readonly",
        access: Access::Read,
        kinds: RESOURCE_KINDS,
    },
];

impl ScopeInfo {
    /// Every scope, in the order of the bits of a set of them.
    pub fn all() -> &'static [ScopeInfo]
        ensures { map scope_of result.now ≡ scopes }
    {
        &SCOPES
    }

    /// Whether the scope opens the access to the kind.
    pub fn opens(&self, kind: Kind, access: Access) -> bool
        ensures { result ≡ opens_by kind access (scope_of self.now) }
    {
        self.access.place() == access.place() && is_among(kind, self.kinds)
    }
}

fn is_among(kind: Kind, kinds: &[Kind]) -> bool
    ensures { result ≡ list_any (is_kind kind) kinds.now }
{
    kinds.iter().any(|other| other.place() == kind.place())
}
