//! The pages of a small district, as callers, paths and queries ask for them.

use crate::district::table;
use filter_grammar::read_query;
use grant_scopes::{SchoolList, Schools};
use hub_spec::Page;
use query_pages::{one, version_page};
use rest_paths::{Path, PathRouter, Route};
use roster_base::Items;
use roster_texts::Id;
use status_info::{LinkItem, Rel};
use std::alloc::Global;
use std::process::Abort;
use std::test::Fail;
use version_core::table::Table;
use version_core::view::VersionView;

// The version that is read.
const VERSION: u64 = 7;

// A school that is granted, or `*` for all; a path behind the address of the hub's collections; a query; and what is
// told of the page.
type Asked = (&'static str, &'static str, &'static str, &'static str);

fn schools_of(alloc: Global, text: &str) -> Result<Schools, Fail> {
    if text == "*" {
        return Ok(Schools::All);
    }
    let mut ids = Items::new(alloc);
    ids.push(Id::read(alloc, text)?.ok_or("an id")?)?;
    let list = SchoolList::of_rising(ids).ok_or("an order")?;
    Ok(Schools::Listed(list))
}

fn path_of(alloc: Global, router: &PathRouter, text: &str) -> Result<Path, Fail> {
    let whole = format!(in alloc; "/ims/oneroster/v1p1/{text}")?;
    Ok(Path::read(alloc, router, whole.as_str())?.ok_or("a path")?)
}

// The page that is asked for.
fn page_of(
    alloc: Global,
    view: &VersionView<'_>,
    schools: &Schools,
    path: &Path,
    query: &str,
) -> Result<Option<Page>, Fail> {
    match read_query(alloc, path.route().lists().kind(), query) {
        Ok(query) => Ok(version_page(alloc, view, schools, VERSION, path, &query)?),
        Err(_) => Err(Fail::new("no query")),
    }
}

// The length of the list and the ids of the page.
fn ids_of(alloc: Global, page: &Page) -> Result<String, Fail> {
    let total = page.total;
    let mut line = format!(in alloc; "{total}:")?;
    for row in page.rows.as_slice() {
        line.push(' ')?;
        line.push_str(row.id().as_str())?;
    }
    Ok(line)
}

// The line that tells of a page, or that there is none.
fn page_line(alloc: Global, page: Option<Page>) -> Result<String, Fail> {
    match page {
        Some(page) => ids_of(alloc, &page),
        None => Ok(String::from_str(alloc, "no object")?),
    }
}

// The line that tells of the page that is asked for.
fn line_of(
    alloc: Global,
    router: &PathRouter,
    view: &VersionView<'_>,
    (schools, path, query, _): &Asked,
) -> Result<String, Fail> {
    let schools = schools_of(alloc, schools)?;
    let path = path_of(alloc, router, path)?;
    page_line(alloc, page_of(alloc, view, &schools, &path, query)?)
}

fn assert_told(rt: &impl Abort, alloc: Global, table: &Table, asks: &[Asked]) -> Result<(), Fail> {
    let router = PathRouter::new(alloc)?;
    for asked in asks {
        let line = line_of(alloc, &router, &table.newest_rows(), asked)?;
        let (schools, path, query, want) = *asked;
        assert_eq!(rt; line.as_str(), want, "{schools} {path} {query}");
    }
    Ok(())
}

fn assert_asks(rt: &impl Abort, alloc: Global, asks: &[Asked]) -> Result<(), Fail> {
    let table = table(alloc)?;
    let asserted = assert_told(rt, alloc, &table, asks);
    drop(table);
    asserted
}

const LISTS: &[Asked] = &[
    ("*", "orgs", "", "3: d1 s1 s2"),
    ("*", "schools", "", "2: s1 s2"),
    ("*", "terms", "", "1: t1"),
    ("*", "gradingPeriods", "", "1: g1"),
    ("*", "students", "", "2: u1 u2"),
    ("*", "teachers", "", "1: u3"),
    ("*", "demographics", "", "1: u1"),
    ("*", "schools/s1/courses", "", "1: bio"),
    ("*", "schools/s1/classes", "", "1: k1"),
    ("*", "schools/s1/enrollments", "", "2: e1 e4"),
    ("*", "schools/s1/students", "", "2: u1 u2"),
    // Enrolled at the school, though not of it.
    ("*", "schools/s1/teachers", "", "1: u3"),
    ("*", "schools/s2/students", "", "1: u2"),
    ("*", "schools/s2/teachers", "", "1: u3"),
    ("*", "schools/s2/terms", "", "1: t1"),
    ("*", "schools/s1/classes/k1/enrollments", "", "2: e1 e4"),
    ("*", "schools/s1/classes/k1/students", "", "1: u1"),
    ("*", "schools/s1/classes/k1/teachers", "", "1: u3"),
    // A class of another school.
    ("*", "schools/s1/classes/k2/students", "", "0:"),
    ("*", "schools/s1/classes/k2/enrollments", "", "0:"),
    ("*", "classes/k2/students", "", "1: u2"),
    ("*", "classes/k2/teachers", "", "1: u3"),
    ("*", "terms/t1/classes", "", "2: k1 k2"),
    ("*", "terms/t1/gradingPeriods", "", "1: g1"),
    ("*", "courses/bio/classes", "", "1: k2"),
    ("*", "students/u1/classes", "", "1: k1"),
    ("*", "teachers/u3/classes", "", "2: k1 k2"),
    ("*", "users/u3/classes", "", "2: k1 k2"),
    ("*", "users/u4/classes", "", "0:"),
    ("*", "classes/k1/lineItems", "", "1: l1"),
    ("*", "classes/k1/results", "", "1: r1"),
    ("*", "classes/k1/lineItems/l1/results", "", "1: r1"),
    ("*", "classes/k2/lineItems/l1/results", "", "0:"),
    ("*", "classes/k1/students/u1/results", "", "1: r1"),
    ("*", "classes/k1/students/u2/results", "", "0:"),
    ("*", "schools/d1/classes", "", "no object"),
    ("*", "schools/x/classes", "", "no object"),
    ("*", "terms/g1/classes", "", "no object"),
    ("*", "students/u3/classes", "", "no object"),
    ("*", "teachers/u1/classes", "", "no object"),
    ("*", "schools/s1/classes/x/students", "", "no object"),
    ("*", "schools/x/classes/k1/students", "", "no object"),
    ("*", "classes/k2/resources", "", "1: x2"),
    ("*", "courses/bio/resources", "", "1: x3"),
];

#[test]
fn paths_list_their_rows(rt: HostRuntime) -> Result<(), Fail> {
    assert_asks(&rt, rt.alloc(), LISTS)
}

const QUERIES: &[Asked] = &[
    ("*", "users", "limit=2", "4: u1 u2"),
    ("*", "users", "limit=2&offset=2", "4: u3 u4"),
    ("*", "users", "limit=1&offset=3", "4: u4"),
    ("*", "users", "offset=4", "4:"),
    ("*", "users", "orderBy=desc", "4: u4 u3 u2 u1"),
    ("*", "users", "orderBy=desc&limit=2&offset=1", "4: u3 u2"),
    ("*", "users", "sort=familyName", "4: u4 u3 u1 u2"),
    // Equal keys stand by ascending id in either direction.
    (
        "*",
        "users",
        "sort=familyName&orderBy=desc",
        "4: u1 u2 u3 u4",
    ),
    (
        "*",
        "users",
        "sort=familyName&orderBy=desc&limit=2&offset=1",
        "4: u2 u3",
    ),
    // What is absent comes first.
    ("*", "users", "sort=grades", "4: u3 u4 u1 u2"),
    ("*", "users", "sort=shoe&orderBy=desc", "4: u1 u2 u3 u4"),
    ("*", "users", "filter=role='student'", "2: u1 u2"),
    (
        "*",
        "users",
        "filter=role='student'&limit=1&offset=1",
        "2: u2",
    ),
    (
        "*",
        "users",
        "filter=familyName~'o'&sort=givenName&orderBy=desc",
        "3: u3 u2 u1",
    ),
    ("*", "academicSessions", "sort=title", "3: t1 g1 y"),
    (
        "*",
        "academicSessions",
        "sort=endDate&orderBy=desc",
        "3: y t1 g1",
    ),
    // What a filter compares: texts of any case, references, days, words, lists, numbers and metadata.
    ("*", "academicSessions", "filter=title~'FALL'", "1: t1"),
    ("*", "academicSessions", "filter=title != 'fall'", "2: g1 y"),
    ("*", "academicSessions", "filter=parent='t1'", "1: g1"),
    (
        "*",
        "academicSessions",
        "filter=parent.sourcedId!='t1'",
        "2: t1 y",
    ),
    (
        "*",
        "academicSessions",
        "filter=endDate>'2024-12-20'",
        "1: y",
    ),
    (
        "*",
        "academicSessions",
        "filter=endDate<='2024-12-20'",
        "2: g1 t1",
    ),
    (
        "*",
        "academicSessions",
        "filter=startDate~'2024-08-01'",
        "3: g1 t1 y",
    ),
    (
        "*",
        "academicSessions",
        "filter=type='term' OR type='schoolYear'",
        "2: t1 y",
    ),
    (
        "*",
        "academicSessions",
        "filter=title~'a' AND parent='y'",
        "1: t1",
    ),
    ("*", "classes", "filter=grades='10,09'", "1: k1"),
    ("*", "classes", "filter=grades=''", "1: k2"),
    ("*", "classes", "filter=terms~'t1'", "2: k1 k2"),
    ("*", "classes", "filter=terms!='t1'", "0:"),
    ("*", "results", "filter=score>'9'", "1: r1"),
    ("*", "results", "filter=score!='78'", "1: r2"),
    (
        "*",
        "orgs",
        "filter=dateLastModified<='1970-01-01T00:00:01Z'",
        "3: d1 s1 s2",
    ),
    ("*", "orgs", "filter=metadata.room>='B'", "1: s1"),
    ("*", "orgs", "filter=metadata.room!='B'", "2: d1 s2"),
];

#[test]
fn queries_choose_and_order(rt: HostRuntime) -> Result<(), Fail> {
    assert_asks(&rt, rt.alloc(), QUERIES)
}

// What is of a school is seen, with what it names and what names it; sessions and categories are seen by all.
const SEEN: &[Asked] = &[
    ("s1", "orgs", "", "2: d1 s1"),
    ("d1", "orgs", "", "1: d1"),
    ("x", "orgs", "", "0:"),
    ("x", "academicSessions", "", "3: g1 t1 y"),
    ("s2", "courses", "", "2: alg bio"),
    ("s1", "classes", "", "1: k1"),
    ("s1", "users", "", "4: u1 u2 u3 u4"),
    ("s2", "users", "", "2: u2 u3"),
    ("s1", "enrollments", "", "2: e1 e4"),
    ("s1", "demographics", "", "1: u1"),
    ("s2", "demographics", "", "0:"),
    ("x", "categories", "", "1: hw"),
    ("s1", "lineItems", "", "1: l1"),
    ("s1", "results", "", "1: r1"),
    ("s1", "resources", "", "2: x1 x3"),
    ("s1", "classResources", "", "1: a1"),
    ("s1", "courseResources", "", "1: b1"),
    ("s1", "schools/s1/students", "", "2: u1 u2"),
    ("s1", "schools/s2/classes", "", "no object"),
    ("s1", "classes/k2/results", "", "no object"),
];

#[test]
fn seen_rows_are_listed(rt: HostRuntime) -> Result<(), Fail> {
    assert_asks(&rt, rt.alloc(), SEEN)
}

// The id of the row that a path names.
fn object_of<'a>(view: &'a VersionView<'_>, path: &Path) -> Option<&'a str> {
    match path.route() {
        Route::One(_) => Some(one(view, path)?.id().as_str()),
        _ => None,
    }
}

// Paths of one object, and what they name.
static OBJECTS: [(&str, Option<&str>); 9] = [
    ("orgs/d1", Some("d1")),
    ("schools/s2", Some("s2")),
    ("schools/d1", None),
    ("students/u1", Some("u1")),
    ("teachers/u1", None),
    ("gradingPeriods/g1", Some("g1")),
    ("terms/g1", None),
    ("results/r2", Some("r2")),
    ("results/x", None),
];

fn assert_objects(rt: &impl Abort, alloc: Global, table: &Table) -> Result<(), Fail> {
    let router = PathRouter::new(alloc)?;
    for (text, want) in &OBJECTS {
        let path = path_of(alloc, &router, text)?;
        assert_eq!(rt; object_of(&table.newest_rows(), &path), *want, "{text}");
    }
    Ok(())
}

#[test]
fn paths_name_their_objects(rt: HostRuntime) -> Result<(), Fail> {
    let table = table(rt.alloc())?;
    let asserted = assert_objects(&rt, rt.alloc(), &table);
    drop(table);
    asserted
}

fn word(rel: Rel) -> &'static str {
    match rel {
        Rel::Next => "next",
        Rel::Prev => "prev",
        Rel::First => "first",
        Rel::Last => "last",
    }
}

// Links, each with its target.
fn links_told(alloc: Global, links: &[LinkItem]) -> Result<String, Fail> {
    let mut lines = String::new(alloc);
    for link in links {
        let (rel, target) = (word(link.rel), link.target.as_str());
        write!(lines, "{rel} {target}\n")?;
    }
    Ok(lines)
}

// Paths and queries, and the links of their pages.
const LINKS: &[Asked] = &[
    (
        "*",
        "users",
        "limit=2",
        "next /ims/oneroster/v1p1/users?limit=2&offset=2&hubVersion=7\n\
first /ims/oneroster/v1p1/users?limit=2&offset=0&hubVersion=7\n\
last /ims/oneroster/v1p1/users?limit=2&offset=2&hubVersion=7\n",
    ),
    // The list ends with the page.
    (
        "*",
        "users",
        "limit=2&offset=2",
        "prev /ims/oneroster/v1p1/users?limit=2&offset=0&hubVersion=7\n\
first /ims/oneroster/v1p1/users?limit=2&offset=0&hubVersion=7\n\
last /ims/oneroster/v1p1/users?limit=2&offset=2&hubVersion=7\n",
    ),
    // Pages that aren't those from the front on.
    (
        "*",
        "users",
        "limit=2&offset=1&sort=familyName&orderBy=desc",
        "next /ims/oneroster/v1p1/users?limit=2&offset=3&sort=familyName&orderBy=desc&hubVersion=7\n\
prev /ims/oneroster/v1p1/users?limit=2&offset=0&sort=familyName&orderBy=desc&hubVersion=7\n\
first /ims/oneroster/v1p1/users?limit=2&offset=0&sort=familyName&orderBy=desc&hubVersion=7\n\
last /ims/oneroster/v1p1/users?limit=2&offset=2&sort=familyName&orderBy=desc&hubVersion=7\n",
    ),
    // An empty list.
    (
        "*",
        "users/u4/classes",
        "",
        "first /ims/oneroster/v1p1/users/u4/classes?limit=100&offset=0&hubVersion=7\n\
last /ims/oneroster/v1p1/users/u4/classes?limit=100&offset=0&hubVersion=7\n",
    ),
    (
        "*",
        "schools/s1/classes/k1/enrollments",
        "limit=2000&filter=role%3d'student'&fields=role",
        "first /ims/oneroster/v1p1/schools/s1/classes/k1/enrollments?limit=1000&offset=0&filter=role%3D%27student%27&fields=role&hubVersion=7\n\
last /ims/oneroster/v1p1/schools/s1/classes/k1/enrollments?limit=1000&offset=0&filter=role%3D%27student%27&fields=role&hubVersion=7\n",
    ),
    ("*", "schools/x/classes", "", ""),
];

fn links_of(
    alloc: Global,
    router: &PathRouter,
    view: &VersionView<'_>,
    (_, path, query, _): &Asked,
) -> Result<String, Fail> {
    let path = path_of(alloc, router, path)?;
    match page_of(alloc, view, &Schools::All, &path, query)? {
        Some(page) => links_told(alloc, page.links.as_slice()),
        None => Ok(String::new(alloc)),
    }
}

fn assert_links(rt: &impl Abort, alloc: Global, table: &Table, asks: &[Asked]) -> Result<(), Fail> {
    let router = PathRouter::new(alloc)?;
    for asked in asks {
        let lines = links_of(alloc, &router, &table.newest_rows(), asked)?;
        let (_, path, query, want) = *asked;
        assert_eq!(rt; lines.as_str(), want, "{path} {query}");
    }
    Ok(())
}

#[test]
fn pages_name_the_others(rt: HostRuntime) -> Result<(), Fail> {
    let table = table(rt.alloc())?;
    let asserted = assert_links(&rt, rt.alloc(), &table, LINKS);
    drop(table);
    asserted
}
