//! Files of rows and sets of files, and the first fault of some.

use csv_sets::{SetError, SetFault, read_file, read_set};
use outside_ports::MemFolder;
use roster_base::{NoMemory, Refusal};
use roster_texts::{Name, ValueFault};
use roster_types::set::RosterSet;
use roster_types::set_row::SetRow;
use roster_values::{Kind, Mode};
use std::alloc::Global;
use std::process::Abort;
use std::test::Fail;
use test_lake::file;

// A file's name or what else is at fault, the number of a record, a column, and what is wrong with its value. What is
// read has its count in place of the number.
type Told<'a> = (&'a str, u64, &'a str, Option<ValueFault>);

fn fault_told(fault: &SetFault) -> Told<'_> {
    match fault {
        SetFault::Manifest(_) => ("manifest.csv", 0, "", None),
        SetFault::MissingFile { file } => (file.name(), 0, "is missing", None),
        SetFault::UnexpectedFile { file } => (file.name(), 0, "is unexpected", None),
        SetFault::Column { file, column, .. } => (file.name(), 1, column.as_str(), None),
        SetFault::Row {
            file,
            record_no,
            field,
            fault,
        } => (file.name(), *record_no, field.as_str(), Some(*fault)),
        SetFault::RepeatedId { file, record_no } => (file.name(), *record_no, "repeated id", None),
        SetFault::TooLarge { file } => (file.name(), 0, "is too large", None),
        SetFault::NotUtf8 { file } => (file.name(), 0, "is no UTF-8", None),
        SetFault::Folder => ("folder", 0, "", None),
    }
}

fn error_told(error: &SetError) -> Told<'_> {
    match error {
        Refusal::Fault(fault) => fault_told(fault),
        Refusal::NoMemory => ("memory", 0, "", None),
    }
}

fn assert_file(rt: &impl Abort, read: &Result<Vec<SetRow>, SetError>, want: Told<'_>) {
    let told = match read {
        Ok(rows) => ("rows", rows.len() as u64, "", None),
        Err(error) => error_told(error),
    };
    assert_eq!(rt; told, want);
}

// Files of orgs, and what is read.
static FILES: [(Mode, &[u8], Told<'static>); 28] = [
    (Mode::Bulk, b"sourcedId,name,type\n", ("rows", 0, "", None)),
    (Mode::Bulk, b"", ("orgs.csv", 1, "sourcedId", None)),
    (
        Mode::Bulk,
        b"\xef\xbb\xbfsourcedId,name,type\na,A,school\n",
        ("rows", 1, "", None),
    ),
    (
        Mode::Bulk,
        b"\xef\xbb\xbf\xef\xbb\xbfsourcedId,name,type\n",
        ("orgs.csv", 1, "sourcedId", None),
    ),
    (
        Mode::Bulk,
        b" sourcedId , name,type \na,A,school\n",
        ("rows", 1, "", None),
    ),
    (Mode::Bulk, b"name,name\n", ("orgs.csv", 1, "name", None)),
    (
        Mode::Bulk,
        b"sourcedId,metadata.k,metadata.k,name,type\n",
        ("orgs.csv", 1, "metadata.k", None),
    ),
    (
        Mode::Bulk,
        b"\"metadata.k,l\",sourcedId,name,type\n",
        ("orgs.csv", 1, "metadata.k,l", None),
    ),
    (
        Mode::Bulk,
        b"metadata.\n",
        ("orgs.csv", 1, "metadata.", None),
    ),
    (Mode::Bulk, b"sourcedId\n", ("orgs.csv", 1, "name", None)),
    (
        Mode::Bulk,
        b"x,sourcedId,x,name,type\n1,a,2,A,school\n",
        ("rows", 1, "", None),
    ),
    (
        Mode::Bulk,
        b"sourcedId,name,type\na,A,school,x\n",
        ("orgs.csv", 2, "*", Some(ValueFault::Width)),
    ),
    (
        Mode::Bulk,
        b"sourcedId,name,type\na,A,school\nb,B\n",
        ("orgs.csv", 3, "*", Some(ValueFault::Width)),
    ),
    // Of several faults the first in the order of fields.
    (
        Mode::Bulk,
        b"type,name,sourcedId\nacademy,  ,a\n",
        ("orgs.csv", 2, "name", Some(ValueFault::Empty)),
    ),
    (
        Mode::Bulk,
        b"sourcedId,name,type\na,A,academy\n",
        ("orgs.csv", 2, "type", Some(ValueFault::NotInList)),
    ),
    (
        Mode::Bulk,
        b"sourcedId,name,type\n\"a,b\",A,school\n",
        ("orgs.csv", 2, "sourcedId", Some(ValueFault::BadId)),
    ),
    // Blank lines are no records, and a cell between quotes may have some.
    (
        Mode::Bulk,
        b"sourcedId,name,type\n\n\na,\"A\n\nA\",school\n\nb,B,academy\n",
        ("orgs.csv", 3, "type", Some(ValueFault::NotInList)),
    ),
    (
        Mode::Bulk,
        b"sourcedId,name,type\r\nb,B,school\r\na,A,school\r\nc,C,school",
        ("rows", 3, "", None),
    ),
    (
        Mode::Bulk,
        b"sourcedId,name,type\na,A,school\nb,B,school\n a ,A,school\n",
        ("orgs.csv", 4, "repeated id", None),
    ),
    (
        Mode::Bulk,
        b"sourcedId,name,type\nb,B,school\na,A,school\na,A,school\nc,C,academy\n",
        ("orgs.csv", 4, "repeated id", None),
    ),
    (
        Mode::Bulk,
        b"sourcedId,name,type\nb,B,school\na,A,school\nc,C,academy\na,A,school\n",
        ("orgs.csv", 4, "type", Some(ValueFault::NotInList)),
    ),
    (
        Mode::Bulk,
        b"sourcedId,name,type,dateLastModified\na,A,school,2024-08-01\nb,B,school,\n",
        ("rows", 2, "", None),
    ),
    (
        Mode::Bulk,
        b"sourcedId,name,type,dateLastModified\na,A,school,2024-08-01T10:00:00\n",
        (
            "orgs.csv",
            2,
            "dateLastModified",
            Some(ValueFault::BadMoment),
        ),
    ),
    (
        Mode::Bulk,
        b"sourcedId,name,type\na,\xff,school\n",
        ("orgs.csv", 0, "is no UTF-8", None),
    ),
    // A file of changes says of each row what became of it and when.
    (
        Mode::Delta,
        b"sourcedId,name,type\n",
        ("orgs.csv", 1, "status", None),
    ),
    (
        Mode::Delta,
        b"sourcedId,status,dateLastModified,name,type\na,active, ,A,school\n",
        ("orgs.csv", 2, "dateLastModified", Some(ValueFault::Empty)),
    ),
    (
        Mode::Delta,
        b"sourcedId,status,dateLastModified,name,type\na,,2024-08-01,A,school\n",
        ("orgs.csv", 2, "status", Some(ValueFault::Empty)),
    ),
    (
        Mode::Delta,
        b"sourcedId,status,dateLastModified,name,type\na,tobedeleted,2024-08-01,A,school\n",
        ("rows", 1, "", None),
    ),
];

#[test]
fn files_of_orgs(rt: HostRuntime) {
    for (mode, bytes, want) in &FILES {
        let read = read_file(rt.alloc(), Kind::Orgs, *mode, bytes);
        assert_file(&rt, &read, *want);
        drop(read);
    }
}

// A file of one org with a name of that length.
fn named(alloc: Global, length: usize) -> Result<String, Fail> {
    let name = "x".repeat(alloc, length)?;
    Ok(format!(in alloc; "sourcedId,name,type\na,{name},school\n")?)
}

// Lengths of names, and what is read. The JSON object of the org has 112 bytes beside its name.
static LENGTHS: [(usize, Told<'static>); 2] = [
    (65_424, ("rows", 1, "", None)),
    (65_425, ("orgs.csv", 2, "*", Some(ValueFault::TooLong))),
];

#[test]
fn rows_may_be_too_long(rt: HostRuntime) -> Result<(), Fail> {
    for (length, want) in &LENGTHS {
        let text = named(rt.alloc(), *length)?;
        let read = read_file(rt.alloc(), Kind::Orgs, Mode::Bulk, text.as_bytes());
        assert_file(&rt, &read, *want);
        drop(read);
    }
    Ok(())
}

// The files of `lake`, one of which has another text in place of one of its texts; where that is empty, the file is
// taken away.
fn lake(
    alloc: Global,
    changed: &str,
    old: &str,
    new: &str,
    failing: u64,
) -> Result<MemFolder, NoMemory> {
    let mut files = Vec::new(alloc);
    for (name, text) in test_lake::files() {
        let is_changed = *name == changed;
        if is_changed && old.is_empty() {
            continue;
        }
        let text = if is_changed {
            text.replace(alloc, old, new)?
        } else {
            String::from_str(alloc, text)?
        };
        files.push(file(alloc, "lake", name, text.as_str())?)?;
    }
    Ok(MemFolder::new(files, vec![in alloc; failing]?))
}

fn assert_set(rt: &impl Abort, read: &Result<RosterSet, SetError>, want: Told<'_>) {
    let told = match read {
        Ok(set) => ("parts", set.parts().len() as u64, "", None),
        Err(error) => error_told(error),
    };
    assert_eq!(rt; told, want);
}

// The changed file, the text that is changed, what stands in its place, the number of a call of the folder that fails,
// and what is read then. The folder is asked for the manifest, then for the size of each kind's file, then for ten
// files.
static CHANGES: [(&str, &str, &str, u64, Told<'static>); 12] = [
    ("", "", "", 0, ("parts", 10, "", None)),
    (
        "manifest.csv",
        "users,bulk",
        "users,full",
        0,
        ("manifest.csv", 0, "", None),
    ),
    (
        "manifest.csv",
        "manifest.version,1.0\n",
        "",
        0,
        ("manifest.csv", 0, "", None),
    ),
    (
        "manifest.csv",
        "courses,bulk",
        "courses,absent",
        0,
        ("courses.csv", 0, "is unexpected", None),
    ),
    ("users.csv", "", "", 0, ("users.csv", 0, "is missing", None)),
    (
        "users.csv",
        "givenName",
        "userIds",
        0,
        ("users.csv", 1, "userIds", None),
    ),
    (
        "enrollments.csv",
        "2024-08-12,",
        "2024-08-12,2024-02-30",
        0,
        ("enrollments.csv", 2, "endDate", Some(ValueFault::BadDay)),
    ),
    (
        "results.csv",
        "78.0",
        "78.5",
        0,
        ("results.csv", 2, "score", Some(ValueFault::Fractional)),
    ),
    (
        "users.csv",
        "{LDAP:aoak}",
        "{LDAP}",
        0,
        ("users.csv", 2, "userIds", Some(ValueFault::BadList)),
    ),
    ("", "", "", 1, ("folder", 0, "", None)),
    ("", "", "", 2, ("folder", 0, "", None)),
    ("", "", "", 24, ("folder", 0, "", None)),
];

#[test]
fn changed_sets(rt: HostRuntime) -> Result<(), Fail> {
    let alloc = rt.alloc();
    let feed = Name::read(alloc, "sis")?.ok_or("a name")?;
    for (file, old, new, failing, want) in &CHANGES {
        let mut folder = lake(alloc, file, old, new, *failing)?;
        let read = read_set(alloc, &mut folder, "lake", &feed);
        assert_set(&rt, &read, *want);
        drop(read);
    }
    Ok(())
}
