//! Folders in memory with a district's files, and the set that those files are.

use csv_sets::read_set;
use outside_ports::MemFolder;
use roster_base::NoMemory;
use roster_texts::Name;
use roster_types::set::RosterSet;
use std::alloc::Global;
use std::test::Fail;

/// A file: its folder, its name and its bytes.
pub type File = (String, String, Vec<u8>);

/// A file of a folder in memory.
pub fn file(alloc: Global, dir: &str, name: &str, text: &str) -> Result<File, NoMemory> {
    let dir = String::from_str(alloc, dir)?;
    let name = String::from_str(alloc, name)?;
    Ok((dir, name, text.as_bytes().to_vec(alloc)?))
}

/// A folder with these files in `lake`.
pub fn folder(alloc: Global, files: &[(&str, &str)]) -> Result<MemFolder, NoMemory> {
    let mut made = Vec::new(alloc);
    for (name, text) in files {
        made.push(file(alloc, "lake", name, text)?)?;
    }
    Ok(MemFolder::new(made, Vec::new(alloc)))
}

/// The set of these files, by the feed `sis`.
pub fn set_of(alloc: Global, files: &[(&str, &str)]) -> Result<RosterSet, Fail> {
    let Some(feed) = Name::read(alloc, "sis")? else {
        return Err(Fail::new("no name"));
    };
    let mut folder = folder(alloc, files)?;
    match read_set(alloc, &mut folder, "lake", &feed) {
        Ok(set) => Ok(set),
        Err(_) => Err(Fail::new("no set")),
    }
}
