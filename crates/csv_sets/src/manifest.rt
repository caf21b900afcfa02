//! Manifests of sets.

ghost use Rattle.std.specs.Prelude.{◌≡◌, ◌<◌, ◌^◌, ◌++◌, [], find, length, true, IfOk, OnOk};
ghost use Rattle.csv.specs.Reading.{default_config, records, strip_bom};
ghost use Rattle.csv.specs.Records.{AllText, fields_of};
ghost use Rattle.roster_base.specs.Reading.{Gives};
ghost use Rattle.csv_sets.specs.Left.{AllRowsText};
ghost use Rattle.csv_sets.specs.Manifests as spec;

use crate::cells::text_at;
use crate::fault::{ManifestError, ManifestFault};
use crate::property::Property;
use crate::records::RecordReader;
use csv::ByteRecord;
use roster_base::{Items, NoMemory, Refusal};
use roster_values::{Kind, Mode};
use std::alloc::Global;

/// A file that a manifest lists: its kind, and how it is to be read.
#[derive(Clone, Copy, Debug, PartialEq, Eq)]
pub struct ListedFile {
    pub kind: Kind,
    pub mode: Mode,
}

/// What a manifest says: the files that aren't absent, in the kinds' order.
#[derive(Drop)]
pub struct Manifest {
    pub files: Items<ListedFile>,
}

/// What a record says of a property: for a file that isn't absent, how it is to be read.
#[derive(Clone, Copy)]
pub struct Said {
    property: Property,
    mode: Option<Mode>,
}

fn is_header(cells: &ByteRecord) -> bool
    requires { AllText (fields_of cells.now) }
    ensures { result ≡ spec.is_header (fields_of cells.now) }
{
    cells.len() == 2 && text_at(cells, 0) == "propertyName" && text_at(cells, 1) == "value"
}

// A version says nothing but that it is the one that is read.
fn check_version(
    property: Property,
    version: &str,
    value: &str,
) -> Result<Option<Mode>, ManifestError>
    ensures { Gives (λ m. m) result (spec.version_checked property version.now value.now) }
{
    if value != version {
        return Err(Refusal::Fault(ManifestFault::Version { property }));
    }
    Ok(None)
}

// What a file's property says.
#[tactic(auto, unfolding(crate::specs::Manifests::mode_of_word))]
fn read_mode(property: Property, word: &str) -> Result<Option<Mode>, ManifestError>
    ensures { Gives (λ m. m) result (spec.mode_of_word property word.now) }
{
    match word {
        "bulk" => Ok(Some(Mode::Bulk)),
        "delta" => Ok(Some(Mode::Delta)),
        "absent" => Ok(None),
        _ => Err(Refusal::Fault(ManifestFault::UnknownMode { property })),
    }
}

// What a property says by its value.
#[tactic(auto, unfolding(crate::specs::Manifests::mode_said))]
fn mode_said(property: Property, value: &str) -> Result<Option<Mode>, ManifestError>
    ensures { Gives (λ m. m) result (spec.mode_said property value.now) }
{
    match property {
        Property::ManifestVersion => check_version(property, "1.0", value),
        Property::OneRosterVersion => check_version(property, "1.1", value),
        _ => read_mode(property, value),
    }
}

fn is_of(said: &Said, property: Property) -> bool
    ensures { result ≡ spec.is_of property said.now }
{
    said.property.name() == property.name()
}

fn is_said(said: &[Said], property: Property) -> bool
    ensures { result ≡ spec.is_said property said.now }
{
    said.iter().any(|s| is_of(s, property))
}

// Notes what a property says, which may stand once.
#[tactic(auto, unfolding(crate::specs::Manifests::said_with))]
fn note_property(
    said: &mut Vec<Said>,
    property: Option<Property>,
    value: &str,
) -> Result<(), ManifestError>
    ensures { Gives (λ _. said.new.items) result (spec.said_with said.old.items property value.now) }
{
    let Some(property) = property else {
        return Ok(());
    };
    if is_said(said.as_slice(), property) {
        return Err(Refusal::Fault(ManifestFault::Repeated { property }));
    }
    let mode = mode_said(property, value)?;
    said.push(Said { property, mode })?;
    Ok(())
}

// Notes what a record says.
#[tactic(auto, unfolding(crate::specs::Manifests::said_by))]
fn note_record(said: &mut Vec<Said>, number: u64, cells: &ByteRecord) -> Result<(), ManifestError>
    requires { AllText (fields_of cells.now) }
    ensures { Gives (λ _. said.new.items) result (spec.said_by said.old.items number (fields_of cells.now)) }
{
    if cells.len() != 2 {
        return Err(Refusal::Fault(ManifestFault::Width { record_no: number }));
    }
    let property = Property::read(text_at(cells, 0));
    note_property(said, property, text_at(cells, 1))?;
    Ok(())
}

// What the records below the header say.
fn read_said(alloc: Global, reader: &mut RecordReader<'_>) -> Result<Vec<Said>, ManifestError>
    requires text { AllRowsText reader.old }
    requires few { length reader.old < 2 ^ 63 }
    ensures { Gives (λ v. v.items) result (spec.said_after [] 2 reader.old) }
{
    let mut said = Vec::new(alloc);
    let mut cells = ByteRecord::new(alloc);
    let mut number = 2;
    while reader.read(&mut cells)? {
        note_record(&mut said, number, &cells)?;
        number += 1;
    }
    Ok(said)
}

// Whether both versions are said, as they must be.
#[tactic(auto, unfolding(crate::specs::Manifests::versions_checked))]
fn check_versions(said: &[Said]) -> Result<(), ManifestError>
    ensures { Gives (λ _. true) result (spec.versions_checked said.now) }
{
    if !is_said(said, Property::ManifestVersion) {
        return Err(Refusal::Fault(ManifestFault::Missing {
            property: Property::ManifestVersion,
        }));
    }
    if !is_said(said, Property::OneRosterVersion) {
        return Err(Refusal::Fault(ManifestFault::Missing {
            property: Property::OneRosterVersion,
        }));
    }
    Ok(())
}

fn find_said(said: &[Said], property: Property) -> Option<Said>
    ensures { result ≡ find (spec.is_of property) said.now }
{
    said.iter().copied().find(|s| is_of(s, property))
}

// How a kind's file is to be read, if there is to be one.
#[tactic(auto, unfolding(crate::specs::Manifests::mode_of))]
fn mode_of(said: &[Said], kind: Kind) -> Option<Mode>
    ensures { result ≡ spec.mode_of said.now kind }
{
    find_said(said, Property::FileOf(kind))?.mode
}

// Adds a kind's file, if there is to be one.
fn push_listed(files: &mut Vec<ListedFile>, kind: Kind, mode: Option<Mode>) -> Result<(), NoMemory>
    ensures { OnOk result (files.new.items ≡ files.old.items ++ spec.listed kind mode) }
{
    if let Some(mode) = mode {
        files.push(ListedFile { kind, mode })?;
    }
    Ok(())
}

// The files of these kinds that there are to be.
fn files_said(alloc: Global, said: &[Said], kinds: &[Kind]) -> Result<Vec<ListedFile>, NoMemory>
    ensures { IfOk result (λ v. v.items ≡ spec.files_said said.now kinds.now) }
{
    let mut files = Vec::new(alloc);
    for kind in kinds {
        push_listed(&mut files, *kind, mode_of(said, *kind))?;
    }
    Ok(files)
}

// What the records below the header say, once both versions are said.
#[tactic(auto, unfolding(crate::specs::Manifests::manifest_below))]
fn read_below(alloc: Global, reader: &mut RecordReader<'_>) -> Result<Manifest, ManifestError>
    requires text { AllRowsText reader.old }
    requires few { length reader.old < 2 ^ 63 }
    ensures files { Gives (λ m. m.files) result (spec.manifest_below reader.old) }
    ensures rise { IfOk result (λ m. spec.RisingFiles m.files) }
{
    let said = read_said(alloc, reader)?;
    check_versions(said.as_slice())?;
    let files = files_said(alloc, said.as_slice(), &Kind::ALL)?;
    Ok(Manifest {
        files: Items::from_vec(files),
    })
}

/// What a manifest says, or its first fault. The first record is the header `propertyName,value`. By OneRoster 1.1 both
/// versions must stand in it; a file that it doesn't name is absent, and other properties are passed over.
#[tactic(auto, unfolding(crate::specs::Manifests::manifest_of))]
pub fn read_manifest(alloc: Global, text: &str) -> Result<Manifest, ManifestError>
    ensures files { Gives (λ m. m.files) result (spec.manifest_of (records default_config (strip_bom text.now))) }
    ensures rise { IfOk result (λ m. spec.RisingFiles m.files) }
{
    let mut reader = RecordReader::new(alloc, text);
    let mut cells = ByteRecord::new(alloc);
    if !reader.read(&mut cells)? {
        return Err(Refusal::Fault(ManifestFault::Header));
    }
    if !is_header(&cells) {
        return Err(Refusal::Fault(ManifestFault::Header));
    }
    read_below(alloc, &mut reader)
}
