//! A folder of the file system.

ghost use Rattle.std.specs.Prelude.{◌≡◌, IfOk};
ghost use Rattle.outside_ports.specs.Files.{IsWithin};

use crate::failed::{Failed, IoError};
use crate::folder::{FileRead, Folder};
use roster_base::Bytes;
use std::alloc::{AllocError, Global};
use std::io::{ErrorKind, Read};
use std::marker::Model;
use std::path::{Path, PathBuf};
use std::rt::Files;
use std::{fs, io};

/// The folders and files below a root of the file system. It tells nothing of them, and a clause sees its count of
/// faults alone.
///
/// Only what the system says is not found is absent. Every other error is a fault, and so are a name that stands for
/// something else than a file, as a folder, and want of memory in `size`. A `dir` or a `name` that begins with a slash
/// leaves the root, as does `..`: hand in plain names.
#[derive(Drop)]
pub struct DirFolder<R> {
    runtime: R,
    root: String,
    faults: u64,
}

impl<R> Model for DirFolder<R> {
    ghost use Rattle.std.specs.Prelude.{ℕ};

    ghost Value = { ℕ };

    ghost view = { λ f. f.faults };
}

impl<R: Files + AllocGlobal> DirFolder<R> {
    /// The folder at the path `root`, where the empty path is the working folder.
    pub fn new(runtime: R, root: String) -> DirFolder<R>
        ensures { result ≡ 0 }
    {
        DirFolder {
            runtime,
            root,
            faults: 0,
        }
    }
}

// The path of a file. An empty `dir` adds nothing to the root.
fn path_of(alloc: Global, root: &str, dir: &str, name: &str) -> Result<PathBuf, AllocError> {
    let mut path = Path::new(root).join(alloc, dir)?;
    path.push(name)?;
    Ok(path)
}

// The length of the file at a path; an absent file is an error.
fn length_of<R: Files>(files: &R, path: Path<'_>) -> io::Result<u64> {
    let metadata = fs::metadata(files, path)?;
    if !metadata.is_file() {
        return Err(io::Error::from(ErrorKind::InvalidInput));
    }
    Ok(metadata.len())
}

// What a read of at most `limit` bytes finds at a path; an absent file is an error.
fn read_file<R: Files>(files: &R, alloc: Global, path: Path<'_>, limit: u64) -> io::Result<FileRead>
    ensures { IfOk result (IsWithin limit) }
{
    let length = length_of(files, path)?;
    if length > limit {
        return Ok(FileRead::TooLong);
    }
    // One byte of room more than the length, so that the end is found without growth.
    let mut bytes = Vec::with_capacity(alloc, length.saturating_add(1) as usize)?;
    // One byte more than the limit, so that a file that has grown meanwhile is seen to be too long.
    let mut file = fs::open(files, path)?.take(limit.saturating_add(1));
    file.read_to_end(&mut bytes)?;
    if bytes.len() as u64 > limit {
        return Ok(FileRead::TooLong);
    }
    Ok(FileRead::Bytes(Bytes::from_vec(bytes)))
}

impl<R: Files + AllocGlobal> DirFolder<R> {
    // The length of a file below the root; an absent file is an error.
    fn length(&self, dir: &str, name: &str) -> io::Result<u64> {
        let path = path_of(self.runtime.alloc(), self.root.as_str(), dir, name)?;
        length_of(&self.runtime, path.as_path())
    }

    // What a read of at most `limit` bytes finds below the root; an absent file is an error.
    fn found(&self, alloc: Global, dir: &str, name: &str, limit: u64) -> io::Result<FileRead>
        ensures { IfOk result (IsWithin limit) }
    {
        let path = path_of(alloc, self.root.as_str(), dir, name)?;
        read_file(&self.runtime, alloc, path.as_path(), limit)
    }
}

impl<R: Files + AllocGlobal> Folder for DirFolder<R> {
    ghost use Rattle.std.specs.Prelude.{None};

    ghost files = { λ _. None };

    ghost faults = { λ f. f };

    fn size(&mut self, dir: &str, name: &str) -> Result<Option<u64>, Failed> {
        match self.length(dir, name) {
            Ok(length) => Ok(Some(length)),
            Err(e) if e.kind() == ErrorKind::NotFound => Ok(None),
            Err(_) => {
                self.faults = self.faults.saturating_add(1);
                Err(Failed)
            }
        }
    }

    fn read(
        &mut self,
        alloc: Global,
        dir: &str,
        name: &str,
        limit: u64,
    ) -> Result<FileRead, IoError> {
        match self.found(alloc, dir, name, limit) {
            Ok(found) => Ok(found),
            Err(e) if e.kind() == ErrorKind::NotFound => Ok(FileRead::Absent),
            Err(e) if e.kind() == ErrorKind::OutOfMemory => Err(IoError::NoMemory),
            Err(_) => {
                self.faults = self.faults.saturating_add(1);
                Err(IoError::Failed)
            }
        }
    }

    fn faults(&self) -> u64 {
        self.faults
    }
}
