//! Where a store's files are found, made and opened.

use crate::file_items::FileItems;
use roster_base::NoMemory;
use sqlite::{Connection, Error, ErrorCode, File, FileStore};
use std::alloc::Global;
use std::fs::DirBuilder;
use std::io::{self, ErrorKind};
use std::os::unix::fs::DirBuilderExt;
use std::path::Path;
use std::thread::sleep;
use std::time::Duration;

/// The file of a hub in the folder of its store.
pub const HUB_FILE: &str = "hub.db";

/// The file of a consumer's copy in the folder of its store.
pub const COPY_FILE: &str = "copy.db";

// How often the file of a store is tried that another process uses, and the milliseconds between two tries: two seconds
// in all.
const TRIES: u32 = 20;

const PAUSE: u64 = 100;

// The rights of a store's folder that is made: its owner's alone, since tokens stand in the store.
const OWNER_ALONE: u32 = 0o700;

// The path of a file in a store's folder, which is made where it isn't there.
fn path_in(rt: HostRuntime, alloc: Global, folder: &str, file: &str) -> io::Result<String> {
    DirBuilder::new()
        .recursive(true)
        .mode(OWNER_ALONE)
        .create(&rt, folder)?;
    Ok(Path::new(folder).join(alloc, file)?.into_string())
}

// Opens the database of a file, or makes it. One that another process uses is tried again for a while.
fn open_soon(rt: HostRuntime, path: &str) -> Result<Connection<FileStore<File>>, Error> {
    for _ in 1..TRIES {
        match Connection::open(&rt, path) {
            Err(Error::SqliteFailure(ErrorCode::DatabaseBusy)) => sleep(
                &rt,
                Duration::from_millis(PAUSE),
            ),
            opened => return opened,
        }
    }
    Connection::open(&rt, path)
}

// Says on standard error why a store can't be opened. A line that can't be written changes nothing.
fn tell_unopened(rt: HostRuntime, path: &str, error: Error) {
    let _ = match error {
        Error::SqliteFailure(ErrorCode::DatabaseBusy) => {
            eprintln!(rt; "{path}: in use by another process")
        }
        error => eprintln!(rt; "{path}: {error}"),
    };
}

// The items of a file, which is made where it isn't there. Nothing where it can't be opened. Standard error is told why
// it can't, or that it is new, so that a mistyped name is seen.
fn open_file(rt: HostRuntime, path: &str) -> Result<Option<FileItems>, NoMemory> {
    let is_new = !Path::new(path).exists(&rt);
    match open_soon(rt, path) {
        Ok(connection) => {
            if is_new {
                let _ = eprintln!(rt; "{path}: new");
            }
            Ok(Some(FileItems::adopt(connection)))
        }
        Err(Error::SqliteFailure(ErrorCode::OutOfMemory)) => Err(NoMemory),
        Err(error) => {
            tell_unopened(rt, path, error);
            Ok(None)
        }
    }
}

/// The items of a file in a store's folder. Both are made where they aren't there. Nothing where they can't be opened.
pub fn open_store(
    rt: HostRuntime,
    alloc: Global,
    folder: &str,
    file: &str,
) -> Result<Option<FileItems>, NoMemory> {
    match path_in(rt, alloc, folder, file) {
        Ok(path) => open_file(rt, path.as_str()),
        Err(error) if error.kind() == ErrorKind::OutOfMemory => Err(NoMemory),
        Err(error) => {
            // A line that can't be written changes nothing.
            let _ = eprintln!(rt; "{folder}: {error}");
            Ok(None)
        }
    }
}
