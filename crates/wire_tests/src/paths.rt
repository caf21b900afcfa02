//! Paths that are read, and texts that are none.

use rest_paths::{Collection, Path, PathRouter, Route};
use roster_base::NoMemory;
use roster_values::Kind;
use std::alloc::Global;
use std::test::Fail;

// Texts, and of each that is a path the route and the number of the objects.
static PATHS: [(&str, Option<(Route, usize)>); 15] = [
    (
        "/ims/oneroster/v1p1/orgs",
        Some((Route::All(Collection::Of(Kind::Orgs)), 0)),
    ),
    (
        "/ims/oneroster/v1p1/users/u3",
        Some((Route::One(Collection::Of(Kind::Users)), 1)),
    ),
    (
        "/ims/oneroster/v1p1/schools/a%2Fb/classes",
        Some((Route::SchoolClasses, 1)),
    ),
    (
        "/ims/oneroster/v1p1/classes/k1/students/u1/results",
        Some((Route::ClassStudentResults, 2)),
    ),
    (
        "/ims/oneroster/v1p1/resources",
        Some((Route::All(Collection::Of(Kind::Resources)), 0)),
    ),
    (
        "/ims/oneroster/v1p1/courseResources/x1",
        Some((Route::One(Collection::Of(Kind::CourseResources)), 1)),
    ),
    (
        "/ims/oneroster/v1p1/classes/k1/resources",
        Some((Route::ClassResources, 1)),
    ),
    (
        "/ims/oneroster/v1p1/courses/alg/resources",
        Some((Route::CourseResources, 1)),
    ),
    ("/ims/oneroster/v1p1/categories/%20x", None),
    ("/ims/oneroster/v1p1/categories/%zz", None),
    ("/ims/oneroster/v1p1/categories/%C3", None),
    ("/ims/oneroster/v1p1/orgs/", None),
    ("/ims/oneroster/v1p1/schools//classes", None),
    ("/ims/oneroster/v1p1/lessons", None),
    ("", None),
];

fn shown(
    alloc: Global,
    router: &PathRouter,
    text: &str,
) -> Result<Option<(Route, usize)>, NoMemory> {
    match Path::read(alloc, router, text)? {
        Some(path) => Ok(Some((path.route(), path.ids().len()))),
        None => Ok(None),
    }
}

#[test]
fn paths_are_read(rt: HostRuntime) -> Result<(), Fail> {
    let router = PathRouter::new(rt.alloc())?;
    for (text, want) in &PATHS {
        assert_eq!(rt; shown(rt.alloc(), &router, text)?, *want, "{text}");
    }
    Ok(())
}
