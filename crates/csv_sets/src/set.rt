//! Whole sets.

ghost use Rattle.std.specs.Prelude.{◌≡◌, Ok, is_some, map, true, IfOk};
ghost use Rattle.std.specs.List.{All};
ghost use Rattle.csv.specs.Reading.{default_config, records, strip_bom};
ghost use Rattle.csv_sets.specs.declared.fault.SetFile.TheVariants.{RowsOf};
ghost use Rattle.csv_sets.specs.Manifests.{RisingFiles, manifest_of};
ghost use Rattle.roster_base.specs.Reading.{Gives};
ghost use Rattle.roster_types.specs.Sets.{IsPart};
ghost use Rattle.csv_sets.specs.Folders.{ReadsFolder, folder_read};
ghost use Rattle.csv_sets.specs.Sets as spec;

use crate::fault::{SetError, SetFault, SetFile};
use crate::file::{LARGEST, read_file};
use crate::manifest::{ListedFile, Manifest, read_manifest};
use outside_ports::{FileRead, Folder, IoError};
use roster_base::{Bytes, Items, Refusal, TryCopy};
use roster_texts::Name;
use roster_types::set::{RosterSet, SetPart};
use roster_values::Kind;
use std::alloc::Global;

// The bytes of a file that ought to be there and isn't too large.
#[tactic(auto, unfolding(crate::specs::Sets::bytes_of))]
fn read_bytes<F: Folder>(
    alloc: Global,
    folder: &mut F,
    dir: &str,
    file: SetFile,
) -> Result<Bytes, SetError>
    ensures bytes { ReadsFolder (λ b. b) (folder_read (F.files folder.old) (F.faults folder.old)
        (F.faults folder.new)) result (λ fs. spec.bytes_of file (spec.bytes_at fs dir.now file)) }
    ensures files { F.files folder.new ≡ F.files folder.old }
{
    match folder.read(alloc, dir, file.name(), LARGEST as u64) {
        Ok(FileRead::Bytes(bytes)) => Ok(bytes),
        Ok(FileRead::Absent) => Err(Refusal::Fault(SetFault::MissingFile { file })),
        Ok(FileRead::TooLong) => Err(Refusal::Fault(SetFault::TooLarge { file })),
        Err(IoError::Failed) => Err(Refusal::Fault(SetFault::Folder)),
        Err(IoError::NoMemory) => Err(Refusal::NoMemory),
    }
}

// The files that a manifest's text lists.
fn listed_by(alloc: Global, text: &str) -> Result<Manifest, SetError>
    ensures listed { Gives (λ m. m.files) result (spec.in_manifest
        (manifest_of (records default_config (strip_bom text.now)))) }
    ensures rise { IfOk result (λ m. RisingFiles m.files) }
{
    match read_manifest(alloc, text) {
        Ok(manifest) => Ok(manifest),
        Err(Refusal::Fault(fault)) => Err(Refusal::Fault(SetFault::Manifest(fault))),
        Err(Refusal::NoMemory) => Err(Refusal::NoMemory),
    }
}

// The files that a manifest's bytes list.
fn listed_in(alloc: Global, bytes: &[u8]) -> Result<Manifest, SetError>
    ensures listed { Gives (λ m. m.files) result (spec.listed_in bytes.now) }
    ensures rise { IfOk result (λ m. RisingFiles m.files) }
{
    match str::from_utf8(bytes) {
        Ok(text) => listed_by(alloc, text),
        Err(_) => Err(Refusal::Fault(SetFault::NotUtf8 {
            file: SetFile::Manifest,
        })),
    }
}

// What the manifest of a folder says.
#[tactic(auto, unfolding(crate::specs::Sets::manifest_at))]
fn manifest_at<F: Folder>(alloc: Global, folder: &mut F, dir: &str) -> Result<Manifest, SetError>
    ensures listed { ReadsFolder (λ m. m.files) (folder_read (F.files folder.old) (F.faults folder.old)
        (F.faults folder.new)) result (spec.manifest_at dir.now) }
    ensures files { F.files folder.new ≡ F.files folder.old }
    ensures rise { IfOk result (λ m. RisingFiles m.files) }
    ensures some { IfOk result (λ m. spec.AreListed m.files) }
{
    let bytes = read_bytes(alloc, folder, dir, SetFile::Manifest)?;
    listed_in(alloc, bytes.as_slice())
}

fn is_listed(kind: Kind, listed: &[ListedFile]) -> bool
    ensures { result ≡ spec.is_listed kind listed.now }
{
    listed.iter().any(|f| f.kind.place() == kind.place())
}

// Whether a kind's file is there exactly where the manifest lists it.
fn check_stands(kind: Kind, listed: bool, there: bool) -> Result<(), SetError>
    ensures { Gives (λ _. true) result (spec.stands kind listed there) }
{
    let file = SetFile::RowsOf(kind);
    match (listed, there) {
        (true, false) => Err(Refusal::Fault(SetFault::MissingFile { file })),
        (false, true) => Err(Refusal::Fault(SetFault::UnexpectedFile { file })),
        _ => Ok(()),
    }
}

// Whether a kind's file is there. A read of no byte asks for it: `size` has no answer for want of memory.
fn is_there<F: Folder>(
    alloc: Global,
    folder: &mut F,
    dir: &str,
    kind: Kind,
) -> Result<bool, SetError>
    ensures there { ReadsFolder (λ b. b) (folder_read (F.files folder.old) (F.faults folder.old)
        (F.faults folder.new)) result (λ fs. Ok (is_some (spec.bytes_at fs dir.now (RowsOf kind)))) }
    ensures files { F.files folder.new ≡ F.files folder.old }
{
    match folder.read(alloc, dir, kind.file_name(), 0) {
        Ok(FileRead::Absent) => Ok(false),
        Ok(FileRead::TooLong | FileRead::Bytes(_)) => Ok(true),
        Err(IoError::Failed) => Err(Refusal::Fault(SetFault::Folder)),
        Err(IoError::NoMemory) => Err(Refusal::NoMemory),
    }
}

// Whether a kind's file is there as the manifest says.
fn check_file<F: Folder>(
    alloc: Global,
    folder: &mut F,
    dir: &str,
    listed: &[ListedFile],
    kind: Kind,
) -> Result<(), SetError>
    ensures stands { ReadsFolder (λ _. true) (folder_read (F.files folder.old) (F.faults folder.old)
        (F.faults folder.new)) result (spec.stands_at dir.now listed.now kind) }
    ensures files { F.files folder.new ≡ F.files folder.old }
{
    let there = is_there(alloc, folder, dir, kind)?;
    check_stands(kind, is_listed(kind, listed), there)
}

// Whether the file of each of these kinds is there as the manifest says.
fn check_files<F: Folder>(
    alloc: Global,
    folder: &mut F,
    dir: &str,
    listed: &[ListedFile],
    kinds: &[Kind],
) -> Result<(), SetError>
    ensures stand { ReadsFolder (λ _. true) (folder_read (F.files folder.old) (F.faults folder.old)
        (F.faults folder.new)) result (spec.all_stand dir.now listed.now kinds.now) }
    ensures files { F.files folder.new ≡ F.files folder.old }
{
    for kind in kinds {
        check_file(alloc, folder, dir, listed, *kind)?;
    }
    Ok(())
}

// The part of a listed file.
#[tactic(auto, unfolding(crate::specs::Sets::part_at))]
fn read_part<F: Folder>(
    alloc: Global,
    folder: &mut F,
    dir: &str,
    listed: &ListedFile,
) -> Result<SetPart, SetError>
    ensures part { ReadsFolder (λ p. p) (folder_read (F.files folder.old) (F.faults folder.old)
        (F.faults folder.new)) result (spec.part_at dir.now listed.now) }
    ensures files { F.files folder.new ≡ F.files folder.old }
    ensures listed { IfOk result (λ p. spec.listed_as p ≡ listed.now) }
    ensures good { IfOk result IsPart }
    ensures some { IfOk result spec.IsSpelled }
{
    let kind = listed.kind;
    let mode = listed.mode;
    let bytes = read_bytes(alloc, folder, dir, SetFile::RowsOf(kind))?;
    let rows = read_file(alloc, kind, mode, bytes.as_slice())?;
    Ok(SetPart {
        kind,
        mode,
        rows: Items::from_vec(rows),
    })
}

// The parts of the listed files, in turn.
fn read_parts<F: Folder>(
    alloc: Global,
    folder: &mut F,
    dir: &str,
    listed: &[ListedFile],
) -> Result<Vec<SetPart>, SetError>
    ensures parts { ReadsFolder (λ v. v.items) (folder_read (F.files folder.old) (F.faults folder.old)
        (F.faults folder.new)) result (spec.parts_at dir.now listed.now) }
    ensures files { F.files folder.new ≡ F.files folder.old }
    ensures listed { IfOk result (λ v. map spec.listed_as v.items ≡ listed.now) }
    ensures good { IfOk result (λ v. All IsPart v.items) }
    ensures some { IfOk result (λ v. All spec.IsSpelled v.items) }
{
    let mut parts = Vec::new(alloc);
    for file in listed {
        parts.push(read_part(alloc, folder, dir, file)?)?;
    }
    Ok(parts)
}

// The set that the files of a folder mean together, where each of these kinds' files is looked for.
#[tactic(auto, unfolding(crate::specs::Sets::set_among))]
fn set_among<F: Folder>(
    alloc: Global,
    folder: &mut F,
    dir: &str,
    feed: &Name,
    kinds: &[Kind],
) -> Result<RosterSet, SetError>
    ensures set { ReadsFolder (λ s. s) (folder_read (F.files folder.old) (F.faults folder.old)
        (F.faults folder.new)) result (spec.set_among kinds.now dir.now feed.now) }
    ensures files { F.files folder.new ≡ F.files folder.old }
    ensures feed { IfOk result (λ s. s.feed ≡ feed.now) }
    ensures some { IfOk result (λ s. spec.AreSpelled s.parts) }
{
    let manifest = manifest_at(alloc, folder, dir)?;
    let listed = manifest.files.as_slice();
    check_files(alloc, folder, dir, listed, kinds)?;
    let parts = read_parts(alloc, folder, dir, listed)?;
    let feed = feed.copy(alloc)?;
    Ok(RosterSet::new(feed, Items::from_vec(parts)))
}

/// The set that the files of a folder mean together, or the first fault: of the manifest; then of the first kind whose
/// file is missing, or there though the manifest says that it is absent; then of the files in the kinds' order. Where
/// the folder fails, the fault is `Folder`.
#[tactic(auto, unfolding(crate::specs::Sets::set_of))]
pub fn read_set<F: Folder>(
    alloc: Global,
    folder: &mut F,
    dir: &str,
    feed: &Name,
) -> Result<RosterSet, SetError>
    ensures set { ReadsFolder (λ s. s) (folder_read (F.files folder.old) (F.faults folder.old)
        (F.faults folder.new)) result (spec.set_of dir.now feed.now) }
    ensures files { F.files folder.new ≡ F.files folder.old }
    // The two clauses below hold whether or not the folder tells its files.
    ensures feed { IfOk result (λ s. s.feed ≡ feed.now) }
    ensures some { IfOk result (λ s. spec.AreSpelled s.parts) }
{
    set_among(alloc, folder, dir, feed, &Kind::ALL)
}
