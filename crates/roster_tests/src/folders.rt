//! A folder of the file system.

use outside_ports::{DirFolder, Failed, FileRead, Folder, IoError};
use std::test::Fail;
use std::{env, fs, io, process};

// What a read found: the bytes, or a word in brackets.
fn shown(read: &Result<FileRead, IoError>) -> &[u8] {
    match read {
        Ok(FileRead::Bytes(bytes)) => bytes.as_slice(),
        Ok(FileRead::Absent) => "(absent)".as_bytes(),
        Ok(FileRead::TooLong) => "(too long)".as_bytes(),
        Err(IoError::Failed) => "(failed)".as_bytes(),
        Err(IoError::NoMemory) => "(no memory)".as_bytes(),
    }
}

// A read by folder, name and limit, and what it is to find.
struct Read(&'static str, &'static str, u64, &'static str);

// A size by folder and name, and what it is to answer.
struct Size(&'static str, &'static str, Result<Option<u64>, Failed>);

// A new folder with an orgs.csv of seven bytes and lake/empty.csv.
fn make_lake(rt: HostRuntime) -> io::Result<String> {
    let alloc = rt.alloc();
    let id = process::id(rt.process());
    let root = env::temp_dir(&rt)?.join(alloc, format!(in alloc; "outside_ports_{id}")?)?;
    fs::create_dir_all(&rt, root.join(alloc, "lake")?)?;
    fs::write(&rt, root.join(alloc, "orgs.csv")?, "seven b")?;
    fs::write(&rt, root.join(alloc, "lake/empty.csv")?, "")?;
    Ok(root.into_string())
}

static LAKE_READS: [Read; 5] = [
    Read("", "orgs.csv", 7, "seven b"),
    Read("", "orgs.csv", 6, "(too long)"),
    Read("lake", "empty.csv", 0, ""),
    Read("lake", "orgs.csv", 7, "(absent)"),
    Read("", "lake", 9, "(failed)"),
];

static LAKE_SIZES: [Size; 4] = [
    Size("", "orgs.csv", Ok(Some(7))),
    Size("lake", "empty.csv", Ok(Some(0))),
    Size("none", "orgs.csv", Ok(None)),
    Size("", "lake", Err(Failed)),
];

#[test]
fn folder_of_the_system_reads_files(rt: HostRuntime) -> Result<(), Fail> {
    let root = make_lake(rt)?;
    let mut folder = DirFolder::new(rt, root.clone()?);
    for Read(dir, name, limit, want) in &LAKE_READS {
        let read = folder.read(rt.alloc(), dir, name, *limit);
        assert_eq!(rt; shown(&read), want.as_bytes(), "{dir}/{name} to {limit}");
    }
    for Size(dir, name, want) in &LAKE_SIZES {
        assert_eq!(rt; folder.size(dir, name), *want, "{dir}/{name}");
    }
    assert_eq!(rt; folder.faults(), 2);
    fs::remove_dir_all(&rt, root)?;
    Ok(())
}
