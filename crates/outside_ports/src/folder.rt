//! Folders of files.

ghost use Rattle.std.specs.Prelude.{◌≡◌, ℕ, Option, List, IfOk};
ghost use Rattle.roster_base.specs.Faults.{HasCause};

use crate::failed::{Failed, IoError};
use roster_base::Bytes;
use std::alloc::Global;

/// What a read of a file found.
#[derive(Drop)]
pub enum FileRead {
    /// There is no such file.
    Absent,
    /// The file has more bytes than the limit.
    TooLong,
    /// All bytes of the file.
    Bytes(Bytes),
}

/// Files by folder and name, and a count of faults, which stays at the end of `u64` once it is there.
/// The root folder is the empty `dir`.
pub trait Folder {
    ghost use Rattle.outside_ports.specs.Causes.{Explains};
    ghost use Rattle.outside_ports.specs.Files.{Stored, IsWithin, ReadsFile, SizesFile};

    /// The files, where they are told. Of two with one folder and name the first counts.
    ghost files: { Self → Option (List Stored) };

    /// How many calls failed.
    ghost faults: { Self → ℕ };

    /// The length of a file in bytes, or `None` where there is no such file.
    fn size(&mut self, dir: &str, name: &str) -> Result<Option<u64>, Failed>
        ensures size { SizesFile (files self.old) dir.now name.now result }
        ensures files { files self.new ≡ files self.old }
        ensures cause { HasCause (faults self.old) (faults self.new) result };

    /// Reads a file of at most `limit` bytes.
    fn read(
        &mut self,
        alloc: Global,
        dir: &str,
        name: &str,
        limit: u64,
    ) -> Result<FileRead, IoError>
        ensures bytes { ReadsFile (files self.old) dir.now name.now limit result }
        ensures within { IfOk result (IsWithin limit) }
        ensures files { files self.new ≡ files self.old }
        ensures cause { Explains (faults self.old) (faults self.new) result };

    /// The number of calls that answered `Failed`.
    fn faults(&self) -> u64
        ensures { result ≡ faults self.now };
}
