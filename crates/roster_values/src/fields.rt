//! The fields of each kind.

ghost use Rattle.std.specs.Prelude.{◌≡◌, map};
ghost use Rattle.roster_values.specs.Table.{info_in, info_of, table};

use crate::kind::Kind;
use crate::mode::Mode;

/// What the texts of a field write.
#[derive(Clone, Copy)]
pub enum FieldForm {
    /// Any text.
    Text,
    /// The record's own id.
    Id,
    /// A day, as 2024-08-01.
    Day,
    /// A moment, as 2024-08-01T09:30:00.000Z.
    Moment,
    /// A whole number of at most 12 digits.
    Number,
    /// A year of four digits.
    Year,
    /// `true` or `false`.
    Flag,
    /// One of these words.
    Word(&'static [&'static str]),
    /// Texts between commas.
    Texts,
    /// User ids between commas, each a type and an identifier in braces.
    UserIds,
    /// The id of a record of this kind.
    Ref(Kind),
    /// Ids of records of this kind, between commas.
    Refs(Kind),
}

/// A field of a kind.
#[derive(Clone, Copy)]
pub struct FieldInfo {
    /// Its key in JSON.
    pub name: &'static str,
    /// The head of its column in a file.
    pub column: &'static str,
    /// What its texts write.
    pub form: FieldForm,
    /// Whether a record without it is refused.
    pub required: bool,
}

/// How many fields every kind begins with: `sourcedId`, `status` and `dateLastModified`.
pub const COMMON_FIELDS: usize = 3;

// A field that each record has, by its column, its name and its form. (A static's value cannot call a function.)
macro_rules! needed {
    ($column:expr, $name:expr, $form:expr) => {
        FieldInfo {
            name: $name,
            column: $column,
            form: $form,
            required: true,
        }
    };
}

// A field that a record may lack, by its column, its name and its form.
macro_rules! optional {
    ($column:expr, $name:expr, $form:expr) => {
        FieldInfo {
            name: $name,
            column: $column,
            form: $form,
            required: false,
        }
    };
}

const STATUSES: &[&str] = &["active", "tobedeleted"];

const ORG_TYPES: &[&str] = &[
    "department",
    "school",
    "district",
    "local",
    "state",
    "national",
];

const SESSION_TYPES: &[&str] = &["gradingPeriod", "semester", "schoolYear", "term"];

const CLASS_TYPES: &[&str] = &["homeroom", "scheduled"];

const ROLES: &[&str] = &[
    "administrator",
    "aide",
    "guardian",
    "parent",
    "proctor",
    "relative",
    "student",
    "teacher",
];

const SEXES: &[&str] = &["male", "female"];

const IMPORTANCES: &[&str] = &["primary", "secondary"];

const SCORE_STATUSES: &[&str] = &[
    "exempt",
    "fully graded",
    "not submitted",
    "partially graded",
    "submitted",
];

const SOURCED_ID: FieldInfo = needed!("sourcedId", "sourcedId", FieldForm::Id);

const STATUS: FieldInfo = optional!("status", "status", FieldForm::Word(STATUSES));

const DATE_LAST_MODIFIED: FieldInfo = optional!(
    "dateLastModified",
    "dateLastModified",
    FieldForm::Moment
);

static ORGS: [FieldInfo; 7] = [
    SOURCED_ID,
    STATUS,
    DATE_LAST_MODIFIED,
    needed!("name", "name", FieldForm::Text),
    needed!("type", "type", FieldForm::Word(ORG_TYPES)),
    optional!("identifier", "identifier", FieldForm::Text),
    optional!("parentSourcedId", "parent", FieldForm::Ref(Kind::Orgs)),
];

static ACADEMIC_SESSIONS: [FieldInfo; 9] = [
    SOURCED_ID,
    STATUS,
    DATE_LAST_MODIFIED,
    needed!("title", "title", FieldForm::Text),
    needed!("type", "type", FieldForm::Word(SESSION_TYPES)),
    needed!("startDate", "startDate", FieldForm::Day),
    needed!("endDate", "endDate", FieldForm::Day),
    optional!(
        "parentSourcedId",
        "parent",
        FieldForm::Ref(Kind::AcademicSessions)
    ),
    needed!("schoolYear", "schoolYear", FieldForm::Year),
];

static COURSES: [FieldInfo; 10] = [
    SOURCED_ID,
    STATUS,
    DATE_LAST_MODIFIED,
    optional!(
        "schoolYearSourcedId",
        "schoolYear",
        FieldForm::Ref(Kind::AcademicSessions)
    ),
    needed!("title", "title", FieldForm::Text),
    optional!("courseCode", "courseCode", FieldForm::Text),
    optional!("grades", "grades", FieldForm::Texts),
    needed!("orgSourcedId", "org", FieldForm::Ref(Kind::Orgs)),
    optional!("subjects", "subjects", FieldForm::Texts),
    optional!("subjectCodes", "subjectCodes", FieldForm::Texts),
];

static CLASSES: [FieldInfo; 14] = [
    SOURCED_ID,
    STATUS,
    DATE_LAST_MODIFIED,
    needed!("title", "title", FieldForm::Text),
    optional!("grades", "grades", FieldForm::Texts),
    needed!("courseSourcedId", "course", FieldForm::Ref(Kind::Courses)),
    optional!("classCode", "classCode", FieldForm::Text),
    needed!("classType", "classType", FieldForm::Word(CLASS_TYPES)),
    optional!("location", "location", FieldForm::Text),
    needed!("schoolSourcedId", "school", FieldForm::Ref(Kind::Orgs)),
    needed!(
        "termSourcedIds",
        "terms",
        FieldForm::Refs(Kind::AcademicSessions)
    ),
    optional!("subjects", "subjects", FieldForm::Texts),
    optional!("subjectCodes", "subjectCodes", FieldForm::Texts),
    optional!("periods", "periods", FieldForm::Texts),
];

static USERS: [FieldInfo; 17] = [
    SOURCED_ID,
    STATUS,
    DATE_LAST_MODIFIED,
    needed!("enabledUser", "enabledUser", FieldForm::Flag),
    needed!("orgSourcedIds", "orgs", FieldForm::Refs(Kind::Orgs)),
    needed!("role", "role", FieldForm::Word(ROLES)),
    needed!("username", "username", FieldForm::Text),
    optional!("userIds", "userIds", FieldForm::UserIds),
    needed!("givenName", "givenName", FieldForm::Text),
    needed!("familyName", "familyName", FieldForm::Text),
    optional!("middleName", "middleName", FieldForm::Text),
    optional!("identifier", "identifier", FieldForm::Text),
    optional!("email", "email", FieldForm::Text),
    optional!("sms", "sms", FieldForm::Text),
    optional!("phone", "phone", FieldForm::Text),
    optional!("agentSourcedIds", "agents", FieldForm::Refs(Kind::Users)),
    optional!("grades", "grades", FieldForm::Texts),
];

static ENROLLMENTS: [FieldInfo; 10] = [
    SOURCED_ID,
    STATUS,
    DATE_LAST_MODIFIED,
    needed!("classSourcedId", "class", FieldForm::Ref(Kind::Classes)),
    needed!("schoolSourcedId", "school", FieldForm::Ref(Kind::Orgs)),
    needed!("userSourcedId", "user", FieldForm::Ref(Kind::Users)),
    needed!("role", "role", FieldForm::Word(ROLES)),
    optional!("primary", "primary", FieldForm::Flag),
    optional!("beginDate", "beginDate", FieldForm::Day),
    optional!("endDate", "endDate", FieldForm::Day),
];

static DEMOGRAPHICS: [FieldInfo; 16] = [
    SOURCED_ID,
    STATUS,
    DATE_LAST_MODIFIED,
    optional!("birthDate", "birthDate", FieldForm::Day),
    optional!("sex", "sex", FieldForm::Word(SEXES)),
    optional!(
        "americanIndianOrAlaskaNative",
        "americanIndianOrAlaskaNative",
        FieldForm::Flag
    ),
    optional!("asian", "asian", FieldForm::Flag),
    optional!(
        "blackOrAfricanAmerican",
        "blackOrAfricanAmerican",
        FieldForm::Flag
    ),
    optional!(
        "nativeHawaiianOrOtherPacificIslander",
        "nativeHawaiianOrOtherPacificIslander",
        FieldForm::Flag
    ),
    optional!("white", "white", FieldForm::Flag),
    optional!(
        "demographicRaceTwoOrMoreRaces",
        "demographicRaceTwoOrMoreRaces",
        FieldForm::Flag
    ),
    optional!(
        "hispanicOrLatinoEthnicity",
        "hispanicOrLatinoEthnicity",
        FieldForm::Flag
    ),
    optional!("countryOfBirthCode", "countryOfBirthCode", FieldForm::Text),
    optional!(
        "stateOfBirthAbbreviation",
        "stateOfBirthAbbreviation",
        FieldForm::Text
    ),
    optional!("cityOfBirth", "cityOfBirth", FieldForm::Text),
    optional!(
        "publicSchoolResidenceStatus",
        "publicSchoolResidenceStatus",
        FieldForm::Text
    ),
];

static CATEGORIES: [FieldInfo; 4] = [
    SOURCED_ID,
    STATUS,
    DATE_LAST_MODIFIED,
    needed!("title", "title", FieldForm::Text),
];

static LINE_ITEMS: [FieldInfo; 12] = [
    SOURCED_ID,
    STATUS,
    DATE_LAST_MODIFIED,
    needed!("title", "title", FieldForm::Text),
    optional!("description", "description", FieldForm::Text),
    needed!("assignDate", "assignDate", FieldForm::Day),
    needed!("dueDate", "dueDate", FieldForm::Day),
    needed!("classSourcedId", "class", FieldForm::Ref(Kind::Classes)),
    needed!(
        "categorySourcedId",
        "category",
        FieldForm::Ref(Kind::Categories)
    ),
    optional!(
        "gradingPeriodSourcedId",
        "gradingPeriod",
        FieldForm::Ref(Kind::AcademicSessions)
    ),
    optional!("resultValueMin", "resultValueMin", FieldForm::Number),
    optional!("resultValueMax", "resultValueMax", FieldForm::Number),
];

static RESULTS: [FieldInfo; 9] = [
    SOURCED_ID,
    STATUS,
    DATE_LAST_MODIFIED,
    needed!(
        "lineItemSourcedId",
        "lineItem",
        FieldForm::Ref(Kind::LineItems)
    ),
    needed!("studentSourcedId", "student", FieldForm::Ref(Kind::Users)),
    needed!(
        "scoreStatus",
        "scoreStatus",
        FieldForm::Word(SCORE_STATUSES)
    ),
    optional!("score", "score", FieldForm::Number),
    needed!("scoreDate", "scoreDate", FieldForm::Day),
    optional!("comment", "comment", FieldForm::Text),
];

static RESOURCES: [FieldInfo; 9] = [
    SOURCED_ID,
    STATUS,
    DATE_LAST_MODIFIED,
    needed!("vendorResourceId", "vendorResourceId", FieldForm::Text),
    optional!("title", "title", FieldForm::Text),
    optional!("roles", "roles", FieldForm::Texts),
    optional!("importance", "importance", FieldForm::Word(IMPORTANCES)),
    optional!("vendorId", "vendorId", FieldForm::Text),
    optional!("applicationId", "applicationId", FieldForm::Text),
];

static CLASS_RESOURCES: [FieldInfo; 6] = [
    SOURCED_ID,
    STATUS,
    DATE_LAST_MODIFIED,
    optional!("title", "title", FieldForm::Text),
    needed!("classSourcedId", "class", FieldForm::Ref(Kind::Classes)),
    needed!(
        "resourceSourcedId",
        "resource",
        FieldForm::Ref(Kind::Resources)
    ),
];

static COURSE_RESOURCES: [FieldInfo; 6] = [
    SOURCED_ID,
    STATUS,
    DATE_LAST_MODIFIED,
    optional!("title", "title", FieldForm::Text),
    needed!("courseSourcedId", "course", FieldForm::Ref(Kind::Courses)),
    needed!(
        "resourceSourcedId",
        "resource",
        FieldForm::Ref(Kind::Resources)
    ),
];

/// The fields of a kind, in the order of the columns of its file, as OneRoster 1.1 lists them.
pub fn fields(kind: Kind) -> &'static [FieldInfo]
    ensures { map info_of result.now ≡ table kind }
{
    match kind {
        Kind::Orgs => &ORGS,
        Kind::AcademicSessions => &ACADEMIC_SESSIONS,
        Kind::Courses => &COURSES,
        Kind::Classes => &CLASSES,
        Kind::Users => &USERS,
        Kind::Enrollments => &ENROLLMENTS,
        Kind::Demographics => &DEMOGRAPHICS,
        Kind::Categories => &CATEGORIES,
        Kind::LineItems => &LINE_ITEMS,
        Kind::Results => &RESULTS,
        Kind::Resources => &RESOURCES,
        Kind::ClassResources => &CLASS_RESOURCES,
        Kind::CourseResources => &COURSE_RESOURCES,
    }
}

/// What a field asks for in a file of a mode, by its place in the table of its kind:
/// a delta file must say what became of each record, and when.
pub fn info_in(mode: Mode, place: usize, info: &FieldInfo) -> FieldInfo
    ensures { info_of result ≡ info_in mode place (info_of info.now) }
{
    let is_asked = match mode {
        Mode::Bulk => false,
        Mode::Delta => place < COMMON_FIELDS,
    };
    FieldInfo {
        required: info.required || is_asked,
        ..*info
    }
}
