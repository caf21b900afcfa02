//! Words that are run over a keeper, and the files that they name.

use exchange_link::PeerLink;
use keeper_memory::{CopyKeeper, HubKeeper};
use outside_ports::{FixedClock, MemFolder, MemSink};
use real_run::run_hub;
use roster_base::NoMemory;
use std::alloc::Global;
use test_lake::{NOON, file, words_of};

const ALL_ORGS: &str =
    "propertyName,value\nmanifest.version,1.0\noneroster.version,1.1\nfile.orgs,bulk\nfile.academicSessions,absent\n\
file.courses,absent\nfile.classes,absent\nfile.users,absent\nfile.enrollments,absent\nfile.demographics,absent\n\
file.categories,absent\nfile.lineItems,absent\nfile.results,absent\nfile.resources,absent\nfile.classResources,absent\n\
file.courseResources,absent\nsource.systemName,Lake SIS\nsource.systemCode,LSIS\n";

const SOME_ORGS: &str =
    "propertyName,value\nmanifest.version,1.0\noneroster.version,1.1\nfile.orgs,delta\n";

/// A file by its folder and name, with its text.
pub type File = (&'static str, &'static str, &'static str);

/// The set of all orgs, two sets of some, two files of grants, the body of a category, a set of resources, a grant of
/// these, and requests.
pub static FILES: [File; 18] = [
    ("lake", "manifest.csv", ALL_ORGS),
    (
        "lake",
        "orgs.csv",
        "sourcedId,status,dateLastModified,name,type,identifier,parentSourcedId,metadata.bus\n\
d1,,,\"Lake, \"\"Unified\"\"\",district,LDU,,\ns1,,,East,school,,d1,7\ns2,,,Wést,school,,d1,\n",
    ),
    ("new", "manifest.csv", SOME_ORGS),
    (
        "new",
        "orgs.csv",
        "sourcedId,status,dateLastModified,name,type\n\
s2,active,2024-09-01T00:00:00.000Z,West High,school\ns3,active,2024-09-01T00:00:00.001Z,North,school\n",
    ),
    ("gone", "manifest.csv", SOME_ORGS),
    (
        "gone",
        "orgs.csv",
        "sourcedId,status,dateLastModified,name,type\ns3,tobedeleted,2024-09-02T00:00:00.000Z,North,school\n",
    ),
    (
        "",
        "g.csv",
        "caller,token,scopes,schools\neast,tok-e,roster.readonly gradebook.delete,\"s1,s2\"\nall,tok-a,roster.readonly,*\n",
    ),
    (
        "",
        "g2.csv",
        "caller,token,scopes,schools\nall,tok-a,roster.readonly,*\n",
    ),
    ("", "c2.json", "{\"category\":{\"title\":\"Quiz\"}}"),
    (
        "lake3",
        "manifest.csv",
        "propertyName,value\nmanifest.version,1.0\noneroster.version,1.1\nfile.resources,bulk\nfile.classResources,bulk\n",
    ),
    (
        "lake3",
        "resources.csv",
        "sourcedId,status,dateLastModified,vendorResourceId,title\nrs1,,,VR-1,Workbook\n",
    ),
    (
        "lake3",
        "classResources.csv",
        "sourcedId,status,dateLastModified,title,classSourcedId,resourceSourcedId\ncr1,,,Book of A,k1,rs1\n",
    ),
    (
        "",
        "g3.csv",
        "caller,token,scopes,schools\neast,tok-e,gradebook.readonly resource.readonly,s1\n",
    ),
    (
        "",
        "result.http",
        "GET /ims/oneroster/v1p1/results/r1?fields=sourcedId HTTP/1.1\r\nHost: hub\r\nAuthorization: Bearer tok-e\r\n\r\n",
    ),
    (
        "",
        "resource.http",
        "GET /ims/oneroster/v1p1/resources/rs1?fields=sourcedId HTTP/1.1\r\nHost: hub\r\nAuthorization: Bearer tok-e\r\n\r\n",
    ),
    (
        "",
        "before.http",
        "GET /ims/oneroster/v1p1/resources/rs1?fields=sourcedId&hubVersion=3 HTTP/1.1\r\nHost: hub\r\nAuthorization: Bearer tok-e\r\n\r\n",
    ),
    (
        "",
        "s2.http",
        "GET /ims/oneroster/v1p1/orgs/s2?fields=sourcedId,name HTTP/1.1\r\nHost: hub\r\nAuthorization: Bearer tok-a\r\n\r\n",
    ),
    (
        "",
        "marked.http",
        "DELETE /ims/oneroster/v1p1/categories/c1 HTTP/1.1\r\nHost: hub\r\nAuthorization: Bearer tok-e\r\nX-Hub-Mark: 7\r\n\r\n",
    ),
];

fn folder(alloc: Global) -> Result<MemFolder, NoMemory> {
    let mut files = Vec::new(alloc);
    for (dir, name, text) in &FILES {
        files.push(file(alloc, dir, name, text)?)?;
    }
    Ok(MemFolder::new(files, Vec::new(alloc)))
}

// Runs the words over a hub, a copy and a link, and tells the status and what is printed.
fn run_words<H: HubKeeper, C: CopyKeeper>(
    alloc: Global,
    words: &[String],
    keeper: &mut H,
    copy: &mut C,
    link: &mut PeerLink,
) -> Result<String, NoMemory> {
    let mut folder = folder(alloc)?;
    let mut sink = MemSink::new(alloc, 1024, Vec::new(alloc))?;
    let clock = FixedClock::at(NOON);
    let status = run_hub(
        alloc,
        words,
        &mut folder,
        keeper,
        copy,
        link,
        &clock,
        &mut sink,
    );
    drop(folder);
    let text = str::from_utf8(sink.written()).unwrap_or("no text");
    Ok(format!(in alloc; "{status} {text}")?)
}

/// Runs the words between spaces over a hub, a copy and a link at noon, and tells the status and what is printed.
pub fn run_line<H: HubKeeper, C: CopyKeeper>(
    alloc: Global,
    line: &str,
    keeper: &mut H,
    copy: &mut C,
    link: &mut PeerLink,
) -> Result<String, NoMemory> {
    let words = words_of(alloc, line)?;
    run_words(alloc, words.as_slice(), keeper, copy, link)
}
