//! The program's `export`: what it prints of a copy of the example district, and a hub that publishes what is printed.

use crate::files::made;
use crate::hubs::Fault::Nothing;
use crate::hubs::Place::{District, Library, Reader, Region};
use crate::hubs::{Hubs, Step, assert_alike, assert_scene, assert_steps, new_hubs, run};
use hub_words::statuses::{DONE, NOTHING_HELD, REFUSED};
use outside_ports::MemFolder;
use roster_values::Kind;
use std::alloc::Global;
use std::mem::replace;
use std::process::Abort;
use std::test::Fail;
use test_lake::file;

// The manifest of exports of one mode.
macro_rules! manifest {
    ($mode:literal) => {
        concat!(
            "propertyName,value\nmanifest.version,1.0\noneroster.version,1.1\n",
            "file.orgs,", $mode, "\nfile.academicSessions,", $mode, "\nfile.courses,", $mode,
            "\nfile.classes,", $mode, "\nfile.users,", $mode, "\nfile.enrollments,", $mode,
            "\nfile.demographics,", $mode, "\nfile.categories,", $mode, "\nfile.lineItems,", $mode,
            "\nfile.results,", $mode, "\nfile.resources,", $mode, "\nfile.classResources,", $mode,
            "\nfile.courseResources,", $mode, "\nsource.systemName,hub\nsource.systemCode,hub\n"
        )
    };
}

const BULK: &str = manifest!("bulk");

const DELTA: &str = manifest!("delta");

// The orgs and the categories that a caller of one school sees.
const ORGS: &str = "sourcedId,status,dateLastModified,name,type,identifier,parentSourcedId\n\
    d1,active,2024-08-01T12:00:00.000Z,\"Lake District, Unified\",district,LDU,\n\
    s1,active,2024-08-01T12:00:00.000Z,East High,school,E-1,d1\n";

const CATEGORIES: &str =
    "sourcedId,status,dateLastModified,title\nhw,active,2024-08-01T12:00:00.000Z,Homework\n";

// Two enrollments of a class that the caller doesn't see.
const GONE: &str =
    "sourcedId,status,dateLastModified,classSourcedId,schoolSourcedId,userSourcedId,role,primary,beginDate,endDate\n\
    e2,tobedeleted,2024-08-01T12:00:00.000Z,k2,s2,u2,student,,,\n\
    e3,tobedeleted,2024-08-01T12:00:00.000Z,k2,s2,u3,teacher,true,,\n";

// The set's category has no date there, so that an export since the set always tells it.
#[rattlefmt::skip]
static PRINTED: [Step; 13] = [
    (District, Nothing, "publish sis=lake", DONE, "sis version 1\n"),
    (District, Nothing, "grant g.csv", DONE, "grants version 2\n"),
    (Region, Nothing, "export orgs", NOTHING_HELD, "nothing held\n"),
    (Region, Nothing, "export orgs since lake", NOTHING_HELD, "nothing held\n"),
    (Region, Nothing, "export orgs since none", REFUSED, "refused: manifest.csv: missing file\n"),
    (Region, Nothing, "export manifest bulk", DONE, BULK),
    (Region, Nothing, "export manifest delta", DONE, DELTA),
    (Region, Nothing, "sync tok-e 100 1", DONE, "complete 2\n"),
    (Region, Nothing, "export orgs", DONE, ORGS),
    (Region, Nothing, "export categories", DONE, CATEGORIES),
    (Region, Nothing, "export categories since lake", DONE, CATEGORIES),
    (Region, Nothing, "export enrollments since lake", DONE, GONE),
    (Region, Nothing, "export enrollments since none", REFUSED, "refused: manifest.csv: missing file\n"),
];

#[test]
fn what_is_held_is_printed_whole_or_since_a_set(rt: HostRuntime) -> Result<(), Fail> {
    assert_scene(&rt, rt.alloc(), &PRINTED)
}

// A folder with the exports of the region's copy, of all kinds, and their manifest, in `out`.
fn exported(rt: &impl Abort, alloc: Global, hubs: &mut Hubs) -> Result<MemFolder, Fail> {
    let mut files = made(alloc)?;
    files.push(file(alloc, "out", "manifest.csv", BULK)?)?;
    for kind in &Kind::ALL {
        let line = format!(in alloc; "export {}", kind.plural())?;
        let (status, sink) = run(rt, alloc, hubs, Region, Nothing, line.as_str())?;
        let text = str::from_utf8(sink.written())?;
        assert_eq!(rt; status, DONE, "{line}");
        files.push(file(alloc, "out", kind.file_name(), text)?)?;
    }
    Ok(MemFolder::new(files, Vec::new(alloc)))
}

// The region copies two sets of the district.
#[rattlefmt::skip]
static COPIED: [Step; 3] = [
    (District, Nothing, "publish sis=lake sis=odd", DONE, "sis version 1\nsis version 2\n"),
    (District, Nothing, "grant g.csv", DONE, "grants version 3\n"),
    (Region, Nothing, "sync tok-a 100 1", DONE, "complete 3\n"),
];

// The library publishes the exports of that copy, and the reader copies them from it.
#[rattlefmt::skip]
static PUBLISHED: [Step; 3] = [
    (Library, Nothing, "publish up=out", DONE, "up version 1\n"),
    (Library, Nothing, "grant g.csv", DONE, "grants version 2\n"),
    (Reader, Nothing, "sync tok-a 100 1", DONE, "complete 2\n"),
];

// The copy of a hub that publishes the exports of a copy holds the same rows as that copy.
fn assert_published(rt: &impl Abort, alloc: Global, hubs: &mut Hubs) -> Result<(), Fail> {
    assert_steps(rt, alloc, hubs, &COPIED)?;
    let folder = exported(rt, alloc, hubs)?;
    drop(replace(&mut hubs.folder, folder));
    assert_steps(rt, alloc, hubs, &PUBLISHED)?;
    assert_alike(rt, alloc, hubs, Region, Reader)
}

#[test]
fn a_hub_that_publishes_the_exports_is_copied_alike(rt: HostRuntime) -> Result<(), Fail> {
    let mut hubs = new_hubs(rt.alloc())?;
    let asserted = assert_published(&rt, rt.alloc(), &mut hubs);
    drop(hubs);
    asserted
}
