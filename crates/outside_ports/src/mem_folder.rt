//! A folder in memory.

ghost use Rattle.std.specs.Prelude.{◌≡◌, ◌↔◌, Some, Err, IsErr, map, option_map, IfOk, IsTrue};
ghost use Rattle.roster_base.specs.Faults.{HasCause};
ghost use Rattle.outside_ports.specs.declared.failed.IoError.TheVariants as io_error;
ghost use Rattle.outside_ports.specs.Causes.{Explains};
ghost use Rattle.outside_ports.specs.Files.{IsWithin, IsReadOf, ReadsFile, SizesFile, file_at, stored_of};
ghost use Rattle.outside_ports.specs.Calls.{after_call, is_next_listed, no_calls};

use crate::calls::Calls;
use crate::failed::{Failed, IoError};
use crate::folder::{FileRead, Folder};
use roster_base::{Bytes, NoMemory};
use std::alloc::Global;
use std::marker::Model;

/// Files in memory, which it tells, and the numbers, from 1, of the calls that fail. Calls of `size` and of `read` are
/// counted together.
#[derive(Drop)]
pub struct MemFolder {
    files: Vec<(String, String, Vec<u8>)>,
    calls: Calls,
}

impl Model for MemFolder {
    ghost use Rattle.std.specs.Prelude.{map};
    ghost use Rattle.outside_ports.specs.HeldFiles.{HeldFiles};

    ghost Value = { HeldFiles };

    ghost use Rattle.outside_ports.specs.Files.{stored_of};

    ghost view = { λ f. record { files = map stored_of f.files.items; calls = f.calls } };
}

impl MemFolder {
    /// The folder of these files, each a folder, a name and its bytes.
    pub fn new(files: Vec<(String, String, Vec<u8>)>, failing: Vec<u64>) -> MemFolder
        ensures files { result.files ≡ map stored_of files.items }
        ensures calls { result.calls ≡ no_calls failing.items }
    {
        MemFolder {
            files,
            calls: Calls::new(failing),
        }
    }

    // Counts a call, which fails where it is listed.
    fn begin(&mut self) -> Result<(), Failed>
        ensures listed { IsErr result ↔ IsTrue (is_next_listed self.old.calls) }
        ensures calls { self.new ≡ record self.old { calls = after_call self.old.calls } }
        ensures cause { HasCause self.old.calls.faults self.new.calls.faults result }
    {
        if self.calls.begin() {
            self.calls.fail();
            return Err(Failed);
        }
        Ok(())
    }
}

// The bytes of the first file of a folder and a name.
fn find<'a>(files: &'a [(String, String, Vec<u8>)], dir: &str, name: &str) -> Option<&'a [u8]>
    ensures { option_map (λ b. b.now) result ≡ file_at (map stored_of files.now) dir.now name.now }
{
    for file in files {
        if file.0.as_str() == dir && file.1.as_str() == name {
            return Some(file.2.as_slice());
        }
    }
    None
}

// A copy of what was found, where it is not too long.
fn copy_of(alloc: Global, found: Option<&[u8]>, limit: u64) -> Result<FileRead, NoMemory>
    ensures { IfOk result (IsReadOf (option_map (λ b. b.now) found.entry) limit) }
{
    let Some(bytes) = found else {
        return Ok(FileRead::Absent);
    };
    if bytes.len() as u64 > limit {
        return Ok(FileRead::TooLong);
    }
    Ok(FileRead::Bytes(Bytes::from_vec(bytes.to_vec(alloc)?)))
}

impl Folder for MemFolder {
    ghost use Rattle.std.specs.Prelude.{Some};

    ghost files = { λ f. Some f.files };

    ghost faults = { λ f. f.calls.faults };

    fn size(&mut self, dir: &str, name: &str) -> Result<Option<u64>, Failed>
        ensures size { SizesFile (Some self.old.files) dir.now name.now result }
        ensures files { Some self.new.files ≡ Some self.old.files }
        ensures cause { HasCause self.old.calls.faults self.new.calls.faults result }
        // It fails exactly at the listed calls.
        ensures exact { IsErr result ↔ IsTrue (is_next_listed self.old.calls) }
        ensures calls { self.new.calls ≡ after_call self.old.calls }
    {
        self.begin()?;
        let found = find(self.files.as_slice(), dir, name);
        Ok(found.map(|bytes| bytes.len() as u64))
    }

    fn read(
        &mut self,
        alloc: Global,
        dir: &str,
        name: &str,
        limit: u64,
    ) -> Result<FileRead, IoError>
        ensures bytes { ReadsFile (Some self.old.files) dir.now name.now limit result }
        ensures within { IfOk result (IsWithin limit) }
        ensures files { Some self.new.files ≡ Some self.old.files }
        ensures cause { Explains self.old.calls.faults self.new.calls.faults result }
        // It fails exactly at the listed calls.
        ensures exact { (result ≡ Err io_error.Failed) ↔ IsTrue (is_next_listed self.old.calls) }
        ensures calls { self.new.calls ≡ after_call self.old.calls }
    {
        self.begin()?;
        let found = find(self.files.as_slice(), dir, name);
        Ok(copy_of(alloc, found, limit)?)
    }

    fn faults(&self) -> u64 {
        self.calls.faults()
    }
}
