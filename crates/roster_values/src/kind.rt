//! The kinds of roster data.

ghost use Rattle.std.specs.Prelude.{◌≡◌, bytes_eq, find, Some};
ghost use Rattle.roster_values.specs.Kinds.{file_of, kind_of_word, place_of_kind, plural_of, single_of};
ghost use Rattle.roster_values.specs.declared.kind.Kind.{Kind as Kinds};

/// A kind of record of OneRoster 1.1: what one of its files, or one collection of its JSON form, holds.
#[derive(Clone, Copy, Debug, PartialEq, Eq, PartialOrd, Ord)]
pub enum Kind {
    /// Schools, districts, departments and other organizations.
    Orgs,
    /// School years, semesters, terms and grading periods.
    AcademicSessions,
    /// What classes teach.
    Courses,
    /// Courses as they are taught at one school in certain terms.
    Classes,
    /// People.
    Users,
    /// Who is in which class, and as what.
    Enrollments,
    /// What is on record of a user's birth, sex and origin.
    Demographics,
    /// Kinds of line items, as homework.
    Categories,
    /// What is assigned and graded in a class.
    LineItems,
    /// What a student got for a line item.
    Results,
    /// Books, films, programs and what else is learned from.
    Resources,
    /// Which resources a class learns from.
    ClassResources,
    /// Which resources a course learns from.
    CourseResources,
}

// The word for many records of a kind, with this ending.
macro_rules! plural_and {
    ($kind:expr, $ending:literal) => {
        match $kind {
            Kind::Orgs => concat!("orgs", $ending),
            Kind::AcademicSessions => concat!("academicSessions", $ending),
            Kind::Courses => concat!("courses", $ending),
            Kind::Classes => concat!("classes", $ending),
            Kind::Users => concat!("users", $ending),
            Kind::Enrollments => concat!("enrollments", $ending),
            Kind::Demographics => concat!("demographics", $ending),
            Kind::Categories => concat!("categories", $ending),
            Kind::LineItems => concat!("lineItems", $ending),
            Kind::Results => concat!("results", $ending),
            Kind::Resources => concat!("resources", $ending),
            Kind::ClassResources => concat!("classResources", $ending),
            Kind::CourseResources => concat!("courseResources", $ending),
        }
    };
}

impl Kind {
    /// Every kind, in the order of `place`.
    pub const ALL: [Kind; 13] = [
        Kind::Orgs,
        Kind::AcademicSessions,
        Kind::Courses,
        Kind::Classes,
        Kind::Users,
        Kind::Enrollments,
        Kind::Demographics,
        Kind::Categories,
        Kind::LineItems,
        Kind::Results,
        Kind::Resources,
        Kind::ClassResources,
        Kind::CourseResources,
    ];

    /// The kind's place in `Kind::ALL`.
    pub fn place(self) -> usize
        ensures { result ≡ place_of_kind self }
    {
        match self {
            Kind::Orgs => 0,
            Kind::AcademicSessions => 1,
            Kind::Courses => 2,
            Kind::Classes => 3,
            Kind::Users => 4,
            Kind::Enrollments => 5,
            Kind::Demographics => 6,
            Kind::Categories => 7,
            Kind::LineItems => 8,
            Kind::Results => 9,
            Kind::Resources => 10,
            Kind::ClassResources => 11,
            Kind::CourseResources => 12,
        }
    }

    /// The word for many records of the kind: the key of their array in JSON, and the stem of their file.
    pub fn plural(self) -> &'static str
        ensures { result.now ≡ plural_of self }
    {
        plural_and!(self, "")
    }

    /// The word for one record of the kind: its key in JSON, and the `type` of a reference to it.
    pub fn single(self) -> &'static str
        ensures { result.now ≡ single_of self }
    {
        match self {
            Kind::Orgs => "org",
            Kind::AcademicSessions => "academicSession",
            Kind::Courses => "course",
            Kind::Classes => "class",
            Kind::Users => "user",
            Kind::Enrollments => "enrollment",
            Kind::Demographics => "demographics",
            Kind::Categories => "category",
            Kind::LineItems => "lineItem",
            Kind::Results => "result",
            Kind::Resources => "resource",
            Kind::ClassResources => "classResource",
            Kind::CourseResources => "courseResource",
        }
    }

    /// The name of the kind's file of comma-separated values.
    pub fn file_name(self) -> &'static str
        ensures { result.now ≡ file_of self }
    {
        plural_and!(self, ".csv")
    }

    /// The kind whose plural word the text is, letter by letter.
    pub fn read(text: &str) -> Option<Kind>
        ensures { result ≡ kind_of_word text.now }
    {
        first_named(&Kind::ALL, text)
    }
}

// The first of the kinds whose plural word is this.
fn first_named(kinds: &[Kind], word: &str) -> Option<Kind>
    ensures { result ≡ find (λ kind. bytes_eq (plural_of kind) word.now) kinds.now }
{
    kinds.iter().copied().find(|kind| kind.plural() == word)
}

/// A law: the plural word of a kind reads as that kind, so no two kinds have the same.
pub fn kinds_read_back()
    ensures { (kind : Kinds) → kind_of_word (plural_of kind) ≡ Some kind }
{}
