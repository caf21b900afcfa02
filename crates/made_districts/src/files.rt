//! The files of a district of so many schools.

ghost use Rattle.std.specs.Prelude.{◌≡◌, ◌++◌, ◌≤◌, map, IfOk, OnOk};
ghost use Rattle.made_districts.specs.Districts as districts;
ghost use Rattle.outside_ports.specs.Files.{stored_of};

use crate::rows::{Part, school_lines, with_lines};
use csv_sets::write_file;
use outside_ports::MemFolder;
use roster_base::NoMemory;
use roster_values::Kind;
use std::alloc::Global;

/// The folder of the files of the district's set.
pub const DIR: &str = "gen";

/// The file of grants, in the root folder.
pub const GRANTS_FILE: &str = "grants.csv";

const GRANTS: &str =
    "caller,token,scopes,schools\ncopy,make,roster.readonly gradebook.readonly,*\n";

const ORGS: &str =
    "sourcedId,status,dateLastModified,name,type,parentSourcedId\nd,,,District,district,\n";

const SESSIONS: &str =
    "sourcedId,status,dateLastModified,title,type,startDate,endDate,parentSourcedId,schoolYear\ny,,,Year,schoolYear,2024-08-01,2025-06-30,,2025\nt,,,Fall,term,2024-08-01,2024-12-20,y,2025\n";

const COURSES: &str = "sourcedId,status,dateLastModified,title,orgSourcedId\n";

const CLASSES: &str =
    "sourcedId,status,dateLastModified,title,courseSourcedId,classType,schoolSourcedId,termSourcedIds\n";

const USERS: &str =
    "sourcedId,status,dateLastModified,enabledUser,orgSourcedIds,role,username,givenName,familyName\n";

const ENROLLMENTS: &str =
    "sourcedId,status,dateLastModified,classSourcedId,schoolSourcedId,userSourcedId,role\n";

const CATEGORIES: &str = "sourcedId,status,dateLastModified,title\nhw,,,Homework\n";

const MANIFEST: &str =
    "propertyName,value\nmanifest.version,1.0\noneroster.version,1.1\nfile.orgs,bulk\nfile.academicSessions,bulk\nfile.courses,bulk\nfile.classes,bulk\nfile.users,bulk\nfile.enrollments,bulk\nfile.demographics,bulk\nfile.categories,bulk\nfile.lineItems,bulk\nfile.results,bulk\nfile.resources,bulk\nfile.classResources,bulk\nfile.courseResources,bulk\n";

// A file: its folder, its name and its bytes.
type File = (String, String, Vec<u8>);

// A header, perhaps with rows behind it, and the rows of each school.
fn by_school(alloc: Global, part: Part, head: &str, count: u16) -> Result<Vec<u8>, NoMemory>
    requires { count ≤ 200 }
    ensures { IfOk result (λ v. v.items ≡ districts.by_school part head.now count) }
{
    let begun = String::from_str(alloc, head)?;
    let mut text = begun;
    for place in 0..count {
        let lines = school_lines(alloc, part, place + 1)?;
        text = with_lines(text, lines)?;
    }
    Ok(text.into_bytes())
}

fn bytes_of(alloc: Global, text: &str) -> Result<Vec<u8>, NoMemory>
    ensures { IfOk result (λ v. v.items ≡ text.now) }
{
    Ok(text.as_bytes().to_vec(alloc)?)
}

// The bytes of a kind's file.
#[tactic(auto, unfolding(crate::specs::Districts::file_bytes))]
fn file_bytes(alloc: Global, kind: Kind, count: u16) -> Result<Vec<u8>, NoMemory>
    requires { count ≤ 200 }
    ensures { IfOk result (λ v. v.items ≡ districts.file_bytes kind count) }
{
    match kind {
        Kind::Orgs => by_school(alloc, Part::Org, ORGS, count),
        Kind::AcademicSessions => bytes_of(alloc, SESSIONS),
        Kind::Courses => by_school(alloc, Part::Course, COURSES, count),
        Kind::Classes => by_school(alloc, Part::Classes, CLASSES, count),
        Kind::Users => by_school(alloc, Part::Users, USERS, count),
        Kind::Enrollments => by_school(alloc, Part::Enrollments, ENROLLMENTS, count),
        Kind::Categories => bytes_of(alloc, CATEGORIES),
        _ => write_file(alloc, kind, &[]),
    }
}

fn file(alloc: Global, dir: &str, name: &str, bytes: Vec<u8>) -> Result<File, NoMemory>
    ensures { IfOk result (λ f. stored_of f ≡ record { dir = dir.now; name = name.now; bytes = bytes.items }) }
{
    let dir = String::from_str(alloc, dir)?;
    let name = String::from_str(alloc, name)?;
    Ok((dir, name, bytes))
}

fn kind_file(alloc: Global, kind: Kind, count: u16) -> Result<File, NoMemory>
    requires { count ≤ 200 }
    ensures { IfOk result (λ f. stored_of f ≡ districts.kind_file count kind) }
{
    let bytes = file_bytes(alloc, kind, count)?;
    file(alloc, DIR, kind.file_name(), bytes)
}

fn fixed_file(alloc: Global, dir: &str, name: &str, text: &str) -> Result<File, NoMemory>
    ensures { IfOk result (λ f. stored_of f ≡ record { dir = dir.now; name = name.now; bytes = text.now }) }
{
    let bytes = bytes_of(alloc, text)?;
    file(alloc, dir, name, bytes)
}

// Adds the files of these kinds.
fn push_kind_files(
    alloc: Global,
    files: &mut Vec<File>,
    kinds: &[Kind],
    count: u16,
) -> Result<(), NoMemory>
    requires { count ≤ 200 }
    ensures { OnOk result (map stored_of files.new.items ≡ map stored_of files.old.items
        ++ map (districts.kind_file count) kinds.now) }
{
    for kind in kinds {
        files.push(kind_file(alloc, *kind, count)?)?;
    }
    Ok(())
}

/// A folder with the set of a district of so many schools, a manifest and a file for each kind, and a file of grants
/// beside it.
pub fn made_folder(alloc: Global, count: u16) -> Result<MemFolder, NoMemory>
    requires { count ≤ 200 }
    ensures { IfOk result (λ f. f.files ≡ districts.made_files count) }
{
    let mut files = Vec::new(alloc);
    files.push(fixed_file(alloc, "", GRANTS_FILE, GRANTS)?)?;
    files.push(fixed_file(alloc, DIR, "manifest.csv", MANIFEST)?)?;
    push_kind_files(alloc, &mut files, &Kind::ALL, count)?;
    Ok(MemFolder::new(files, Vec::new(alloc)))
}
