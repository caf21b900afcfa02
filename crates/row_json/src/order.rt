//! The fields of each kind in the order of their names in JSON.

ghost use Rattle.std.specs.Prelude.{◌≡◌};
ghost use Rattle.row_json.specs.Tokens.{order_of};

use roster_values::Kind;

static ORGS: [usize; 8] = [2, 5, 7, 3, 6, 0, 1, 4];

static ACADEMIC_SESSIONS: [usize; 10] = [2, 6, 9, 7, 8, 0, 5, 1, 3, 4];

static COURSES: [usize; 11] = [5, 2, 6, 10, 7, 3, 0, 1, 9, 8, 4];

static CLASSES: [usize; 15] = [6, 7, 5, 2, 4, 8, 14, 13, 9, 0, 1, 12, 11, 10, 3];

static USERS: [usize; 18] = [15, 2, 12, 3, 9, 8, 16, 11, 17, 10, 4, 14, 5, 13, 0, 1, 7, 6];

static ENROLLMENTS: [usize; 11] = [8, 3, 2, 9, 10, 7, 6, 4, 0, 1, 5];

static DEMOGRAPHICS: [usize; 17] = [5, 6, 3, 7, 14, 12, 2, 10, 11, 16, 8, 15, 4, 0, 13, 1, 9];

static CATEGORIES: [usize; 5] = [2, 4, 0, 1, 3];

static LINE_ITEMS: [usize; 13] = [5, 8, 7, 2, 4, 6, 9, 12, 11, 10, 0, 1, 3];

static RESULTS: [usize; 10] = [8, 2, 3, 9, 6, 7, 5, 0, 1, 4];

static RESOURCES: [usize; 10] = [8, 2, 6, 9, 5, 0, 1, 4, 7, 3];

static CLASS_RESOURCES: [usize; 7] = [4, 2, 6, 5, 0, 1, 3];

static COURSE_RESOURCES: [usize; 7] = [4, 2, 6, 5, 0, 1, 3];

/// The places of a kind's fields in the order of their JSON names. Among them is the place past the fields, which
/// stands for the metadata.
pub fn name_order(kind: Kind) -> &'static [usize]
    ensures { result.now ≡ order_of kind }
{
    match kind {
        Kind::Orgs => &ORGS,
        Kind::AcademicSessions => &ACADEMIC_SESSIONS,
        Kind::Courses => &COURSES,
        Kind::Classes => &CLASSES,
        Kind::Users => &USERS,
        Kind::Enrollments => &ENROLLMENTS,
        Kind::Demographics => &DEMOGRAPHICS,
        Kind::Categories => &CATEGORIES,
        Kind::LineItems => &LINE_ITEMS,
        Kind::Results => &RESULTS,
        Kind::Resources => &RESOURCES,
        Kind::ClassResources => &CLASS_RESOURCES,
        Kind::CourseResources => &COURSE_RESOURCES,
    }
}
