//! The routes of OneRoster 1.1.

ghost use Rattle.std.specs.Prelude.{◌≡◌, ◌∷◌, []};
ghost use Rattle.rest_paths.specs.Routed.{pattern_of};
ghost use Rattle.rest_paths.specs.Routes as spec;
ghost use Rattle.rest_paths.specs.Segments.{places_of};

use roster_values::Kind;

/// A collection that has a path of its own: all rows of a kind, or those of one type.
#[derive(Clone, Copy, Debug, PartialEq, Eq)]
pub enum Collection {
    Of(Kind),
    Schools,
    Terms,
    GradingPeriods,
    Students,
    Teachers,
}

/// A route: a collection, one object of a collection, or rows that belong to objects. `SchoolClasses`, say, lists the
/// classes of a school, and `SchoolClassStudents` the students of a class of a school.
#[derive(Clone, Copy, Debug, PartialEq, Eq)]
pub enum Route {
    All(Collection),
    One(Collection),
    SchoolCourses,
    SchoolClasses,
    SchoolEnrollments,
    SchoolStudents,
    SchoolTeachers,
    SchoolTerms,
    SchoolClassEnrollments,
    SchoolClassStudents,
    SchoolClassTeachers,
    ClassStudents,
    ClassTeachers,
    TermClasses,
    TermGradingPeriods,
    CourseClasses,
    StudentClasses,
    TeacherClasses,
    UserClasses,
    ClassLineItems,
    ClassResults,
    ClassLineItemResults,
    ClassStudentResults,
    ClassResources,
    CourseResources,
}

// A path of the hub, of the parts that stand behind its beginning.
macro_rules! path {
    ($($part:literal),+) => {
        concat!("/ims/oneroster/v1p1/", $($part),+)
    };
}

// The path of a collection, or of one of its objects.
macro_rules! collection_path {
    ($collection:expr, $behind:literal) => {
        match $collection {
            Collection::Of(Kind::Orgs) => path!("orgs", $behind),
            Collection::Of(Kind::AcademicSessions) => path!("academicSessions", $behind),
            Collection::Of(Kind::Courses) => path!("courses", $behind),
            Collection::Of(Kind::Classes) => path!("classes", $behind),
            Collection::Of(Kind::Users) => path!("users", $behind),
            Collection::Of(Kind::Enrollments) => path!("enrollments", $behind),
            Collection::Of(Kind::Demographics) => path!("demographics", $behind),
            Collection::Of(Kind::Categories) => path!("categories", $behind),
            Collection::Of(Kind::LineItems) => path!("lineItems", $behind),
            Collection::Of(Kind::Results) => path!("results", $behind),
            Collection::Of(Kind::Resources) => path!("resources", $behind),
            Collection::Of(Kind::ClassResources) => path!("classResources", $behind),
            Collection::Of(Kind::CourseResources) => path!("courseResources", $behind),
            Collection::Schools => path!("schools", $behind),
            Collection::Terms => path!("terms", $behind),
            Collection::GradingPeriods => path!("gradingPeriods", $behind),
            Collection::Students => path!("students", $behind),
            Collection::Teachers => path!("teachers", $behind),
        }
    };
}

impl Collection {
    /// The word for the collection in a path.
    pub fn word(self) -> &'static str
        ensures { result.now ≡ spec.word_of self }
    {
        match self {
            Collection::Of(kind) => kind.plural(),
            Collection::Schools => "schools",
            Collection::Terms => "terms",
            Collection::GradingPeriods => "gradingPeriods",
            Collection::Students => "students",
            Collection::Teachers => "teachers",
        }
    }

    // The list of this collection alone.
    fn alone(self) -> &'static [Collection]
        ensures { result.now ≡ self ∷ [] }
    {
        match self {
            Collection::Of(kind) => all_of(kind),
            Collection::Schools => &[Collection::Schools],
            Collection::Terms => &[Collection::Terms],
            Collection::GradingPeriods => &[Collection::GradingPeriods],
            Collection::Students => &[Collection::Students],
            Collection::Teachers => &[Collection::Teachers],
        }
    }

    /// The kind of the rows.
    pub fn kind(self) -> Kind
        ensures { result ≡ spec.kind_in self }
    {
        match self {
            Collection::Of(kind) => kind,
            Collection::Schools => Kind::Orgs,
            Collection::Terms | Collection::GradingPeriods => Kind::AcademicSessions,
            Collection::Students | Collection::Teachers => Kind::Users,
        }
    }
}

// The list of the collection of all rows of a kind alone.
fn all_of(kind: Kind) -> &'static [Collection]
    ensures { result.now ≡ Collection.Of kind ∷ [] }
{
    match kind {
        Kind::Orgs => &[Collection::Of(Kind::Orgs)],
        Kind::AcademicSessions => &[Collection::Of(Kind::AcademicSessions)],
        Kind::Courses => &[Collection::Of(Kind::Courses)],
        Kind::Classes => &[Collection::Of(Kind::Classes)],
        Kind::Users => &[Collection::Of(Kind::Users)],
        Kind::Enrollments => &[Collection::Of(Kind::Enrollments)],
        Kind::Demographics => &[Collection::Of(Kind::Demographics)],
        Kind::Categories => &[Collection::Of(Kind::Categories)],
        Kind::LineItems => &[Collection::Of(Kind::LineItems)],
        Kind::Results => &[Collection::Of(Kind::Results)],
        Kind::Resources => &[Collection::Of(Kind::Resources)],
        Kind::ClassResources => &[Collection::Of(Kind::ClassResources)],
        Kind::CourseResources => &[Collection::Of(Kind::CourseResources)],
    }
}

impl Route {
    /// Every route, in the order in which a router takes them.
    pub const ALL: [Route; 59] = [
        Route::All(Collection::Of(Kind::Orgs)),
        Route::All(Collection::Of(Kind::AcademicSessions)),
        Route::All(Collection::Of(Kind::Courses)),
        Route::All(Collection::Of(Kind::Classes)),
        Route::All(Collection::Of(Kind::Users)),
        Route::All(Collection::Of(Kind::Enrollments)),
        Route::All(Collection::Of(Kind::Demographics)),
        Route::All(Collection::Of(Kind::Categories)),
        Route::All(Collection::Of(Kind::LineItems)),
        Route::All(Collection::Of(Kind::Results)),
        Route::All(Collection::Of(Kind::Resources)),
        Route::All(Collection::Of(Kind::ClassResources)),
        Route::All(Collection::Of(Kind::CourseResources)),
        Route::All(Collection::Schools),
        Route::All(Collection::Terms),
        Route::All(Collection::GradingPeriods),
        Route::All(Collection::Students),
        Route::All(Collection::Teachers),
        Route::One(Collection::Of(Kind::Orgs)),
        Route::One(Collection::Of(Kind::AcademicSessions)),
        Route::One(Collection::Of(Kind::Courses)),
        Route::One(Collection::Of(Kind::Classes)),
        Route::One(Collection::Of(Kind::Users)),
        Route::One(Collection::Of(Kind::Enrollments)),
        Route::One(Collection::Of(Kind::Demographics)),
        Route::One(Collection::Of(Kind::Categories)),
        Route::One(Collection::Of(Kind::LineItems)),
        Route::One(Collection::Of(Kind::Results)),
        Route::One(Collection::Of(Kind::Resources)),
        Route::One(Collection::Of(Kind::ClassResources)),
        Route::One(Collection::Of(Kind::CourseResources)),
        Route::One(Collection::Schools),
        Route::One(Collection::Terms),
        Route::One(Collection::GradingPeriods),
        Route::One(Collection::Students),
        Route::One(Collection::Teachers),
        Route::SchoolCourses,
        Route::SchoolClasses,
        Route::SchoolEnrollments,
        Route::SchoolStudents,
        Route::SchoolTeachers,
        Route::SchoolTerms,
        Route::SchoolClassEnrollments,
        Route::SchoolClassStudents,
        Route::SchoolClassTeachers,
        Route::ClassStudents,
        Route::ClassTeachers,
        Route::TermClasses,
        Route::TermGradingPeriods,
        Route::CourseClasses,
        Route::StudentClasses,
        Route::TeacherClasses,
        Route::UserClasses,
        Route::ClassLineItems,
        Route::ClassResults,
        Route::ClassLineItemResults,
        Route::ClassStudentResults,
        Route::ClassResources,
        Route::CourseResources,
    ];

    /// How the paths of the route are written, with a name in braces for the id of each object.
    pub fn pattern(self) -> &'static str
        ensures { result.now ≡ pattern_of self }
    {
        match self {
            Route::All(collection) => collection_path!(collection, ""),
            Route::One(collection) => collection_path!(collection, "/{first}"),
            Route::SchoolCourses => path!("schools/{first}/courses"),
            Route::SchoolClasses => path!("schools/{first}/classes"),
            Route::SchoolEnrollments => path!("schools/{first}/enrollments"),
            Route::SchoolStudents => path!("schools/{first}/students"),
            Route::SchoolTeachers => path!("schools/{first}/teachers"),
            Route::SchoolTerms => path!("schools/{first}/terms"),
            Route::SchoolClassEnrollments => path!("schools/{first}/classes/{second}/enrollments"),
            Route::SchoolClassStudents => path!("schools/{first}/classes/{second}/students"),
            Route::SchoolClassTeachers => path!("schools/{first}/classes/{second}/teachers"),
            Route::ClassStudents => path!("classes/{first}/students"),
            Route::ClassTeachers => path!("classes/{first}/teachers"),
            Route::TermClasses => path!("terms/{first}/classes"),
            Route::TermGradingPeriods => path!("terms/{first}/gradingPeriods"),
            Route::CourseClasses => path!("courses/{first}/classes"),
            Route::StudentClasses => path!("students/{first}/classes"),
            Route::TeacherClasses => path!("teachers/{first}/classes"),
            Route::UserClasses => path!("users/{first}/classes"),
            Route::ClassLineItems => path!("classes/{first}/lineItems"),
            Route::ClassResults => path!("classes/{first}/results"),
            Route::ClassLineItemResults => path!("classes/{first}/lineItems/{second}/results"),
            Route::ClassStudentResults => path!("classes/{first}/students/{second}/results"),
            Route::ClassResources => path!("classes/{first}/resources"),
            Route::CourseResources => path!("courses/{first}/resources"),
        }
    }

    /// The collection that the route lists, or of which it names one object.
    pub fn lists(self) -> Collection
        ensures { result ≡ (spec.line_of self).lists }
    {
        match self {
            Route::All(collection) | Route::One(collection) => collection,
            Route::SchoolCourses => Collection::Of(Kind::Courses),
            Route::SchoolClasses
            | Route::TermClasses
            | Route::CourseClasses
            | Route::StudentClasses
            | Route::TeacherClasses
            | Route::UserClasses => Collection::Of(Kind::Classes),
            Route::SchoolEnrollments | Route::SchoolClassEnrollments => Collection::Of(
                Kind::Enrollments,
            ),
            Route::SchoolStudents | Route::SchoolClassStudents | Route::ClassStudents =>
                Collection::Students,
            Route::SchoolTeachers | Route::SchoolClassTeachers | Route::ClassTeachers =>
                Collection::Teachers,
            Route::SchoolTerms => Collection::Terms,
            Route::TermGradingPeriods => Collection::GradingPeriods,
            Route::ClassLineItems => Collection::Of(Kind::LineItems),
            Route::ClassResults | Route::ClassLineItemResults | Route::ClassStudentResults =>
                Collection::Of(Kind::Results),
            Route::ClassResources | Route::CourseResources => Collection::Of(Kind::Resources),
        }
    }

    /// The collections whose objects a path of the route names, in their order in the path.
    pub fn objects(self) -> &'static [Collection]
        ensures { result.now ≡ spec.objects_in self }
    {
        match self {
            Route::All(_) => &[],
            Route::One(collection) => collection.alone(),
            Route::SchoolCourses
            | Route::SchoolClasses
            | Route::SchoolEnrollments
            | Route::SchoolStudents
            | Route::SchoolTeachers
            | Route::SchoolTerms => &[Collection::Schools],
            Route::SchoolClassEnrollments
            | Route::SchoolClassStudents
            | Route::SchoolClassTeachers => &[Collection::Schools, Collection::Of(Kind::Classes)],
            Route::TermClasses | Route::TermGradingPeriods => &[Collection::Terms],
            Route::CourseClasses | Route::CourseResources => &[Collection::Of(Kind::Courses)],
            Route::StudentClasses => &[Collection::Students],
            Route::TeacherClasses => &[Collection::Teachers],
            Route::UserClasses => &[Collection::Of(Kind::Users)],
            Route::ClassStudents
            | Route::ClassTeachers
            | Route::ClassLineItems
            | Route::ClassResults
            | Route::ClassResources => &[Collection::Of(Kind::Classes)],
            Route::ClassLineItemResults => &[
                Collection::Of(Kind::Classes),
                Collection::Of(Kind::LineItems),
            ],
            Route::ClassStudentResults => &[Collection::Of(Kind::Classes), Collection::Students],
        }
    }

    /// The places of the ids among the segments of the route's paths. The first four segments of a path are the empty
    /// one before its first slash, `ims`, `oneroster` and `v1p1`.
    pub fn places(self) -> &'static [usize]
        ensures { result.now ≡ places_of self }
    {
        match self {
            Route::All(_) => &[],
            Route::SchoolClassEnrollments
            | Route::SchoolClassStudents
            | Route::SchoolClassTeachers
            | Route::ClassLineItemResults
            | Route::ClassStudentResults => &[5, 7],
            _ => &[5],
        }
    }
}
