//! The texts of all lines. No other module of the crate is named here.

ghost use Rattle.std.specs.Prelude.{◌≡◌, ◌++◌, IfOk, OnOk, codes, decimal, string_bytes};
ghost use Rattle.std.specs.List.{flat_map};
ghost use Rattle.csv_sets.specs.Names.{name_of};
ghost use Rattle.csv_sets.specs.Properties.{property_name};
ghost use Rattle.roster_values.specs.Kinds.{plural_of};
ghost use Rattle.hub_commands.specs.Lines as lines;

use csv_sets::{ColumnFault, ManifestFault, Property, SetFault, SetFile};
use grant_files::GrantFault;
use http_wire::WireFault;
use reference_rules::{Fault, RefFault};
use rest_provider::RequestFault;
use roster_base::NoMemory;
use roster_texts::{Id, ValueFault};
use roster_types::owner::Owner;
use roster_values::Kind;
use std::alloc::Global;
use version_changes::PublishFault;

/// The line that tells that the folder failed.
pub const FOLDER_FAILED: &str = "folder failed\n";

/// The line that tells that the hub's keeper failed.
pub const HUB_FAILED: &str = "hub store failed\n";

/// The line that tells that a copy holds nothing.
pub const NOTHING_HELD: &str = "nothing held\n";

/// The line that tells that memory ran out.
pub const NO_MEMORY: &str = "no memory\n";

fn column_word(fault: ColumnFault) -> &'static str
    ensures { result.now ≡ lines.column_word fault }
{
    match fault {
        ColumnFault::Repeated => "repeated",
        ColumnFault::BadKey => "bad key",
        ColumnFault::Missing => "missing",
    }
}

fn value_word(fault: ValueFault) -> &'static str
    ensures { result.now ≡ lines.value_word fault }
{
    match fault {
        ValueFault::Empty => "empty",
        ValueFault::NotInList => "not in list",
        ValueFault::BadDay => "bad day",
        ValueFault::BadMoment => "bad moment",
        ValueFault::BadNumber => "bad number",
        ValueFault::Fractional => "fractional",
        ValueFault::TooLong => "too long",
        ValueFault::BadList => "bad list",
        ValueFault::BadId => "bad id",
        ValueFault::Width => "width",
    }
}

// The beginning of a line: `refused: ` and a file's name.
fn refused(alloc: Global, file: SetFile) -> Result<String, NoMemory>
    ensures { IfOk result (λ s. string_bytes s ≡ codes "refused: " ++ name_of file) }
{
    let mut line = String::from_str(alloc, "refused: ")?;
    line.push_str(file.name())?;
    Ok(line)
}

// The line of a file that is refused, and what is wrong with the whole of it.
fn file_line(alloc: Global, file: SetFile, why: &str) -> Result<String, NoMemory>
    ensures { IfOk result (λ s. string_bytes s ≡ codes "refused: " ++ name_of file ++ why.now) }
{
    let mut line = refused(alloc, file)?;
    line.push_str(why)?;
    Ok(line)
}

// The beginning of a line: the file that is refused, and a record's number.
fn record_line(alloc: Global, file: SetFile, number: u64) -> Result<String, NoMemory>
    ensures { IfOk result (λ s. string_bytes s ≡ codes "refused: " ++ name_of file ++ codes " record " ++ decimal number) }
{
    let mut line = file_line(alloc, file, " record ")?;
    line.push_str(format!(in alloc; "{number}")?.as_str())?;
    Ok(line)
}

fn column_line(
    alloc: Global,
    file: SetFile,
    column: &str,
    fault: ColumnFault,
) -> Result<String, NoMemory>
    ensures { IfOk result (λ s. string_bytes s ≡ codes "refused: " ++ name_of file ++ codes ": column " ++ column.now ++ codes " " ++ lines.column_word fault ++ codes "\n") }
{
    let mut line = file_line(alloc, file, ": column ")?;
    line.push_str(column)?;
    line.push_str(" ")?;
    line.push_str(column_word(fault))?;
    line.push_str("\n")?;
    Ok(line)
}

fn field_line(
    alloc: Global,
    file: SetFile,
    number: u64,
    field: &str,
    fault: ValueFault,
) -> Result<String, NoMemory>
    ensures { IfOk result (λ s. string_bytes s ≡ codes "refused: " ++ name_of file ++ codes " record " ++ decimal number ++ codes " field " ++ field.now ++ codes ": " ++ lines.value_word fault ++ codes "\n") }
{
    let mut line = record_line(alloc, file, number)?;
    line.push_str(" field ")?;
    line.push_str(field)?;
    line.push_str(": ")?;
    line.push_str(value_word(fault))?;
    line.push_str("\n")?;
    Ok(line)
}

#[tactic(auto, unfolding(crate::specs::Lines::row_text))]
fn row_line(
    alloc: Global,
    file: SetFile,
    number: u64,
    field: &str,
    fault: ValueFault,
) -> Result<String, NoMemory>
    ensures { IfOk result (λ s. string_bytes s ≡ lines.row_text (name_of file) number field.now fault) }
{
    match fault {
        ValueFault::Width => {
            let mut line = record_line(alloc, file, number)?;
            line.push_str(": width\n")?;
            Ok(line)
        }
        _ => field_line(alloc, file, number, field, fault),
    }
}

fn repeated_line(alloc: Global, file: SetFile, number: u64) -> Result<String, NoMemory>
    ensures { IfOk result (λ s. string_bytes s ≡ codes "refused: " ++ name_of file ++ codes " record " ++ decimal number ++ codes ": repeated id\n") }
{
    let mut line = record_line(alloc, file, number)?;
    line.push_str(": repeated id\n")?;
    Ok(line)
}

fn property_line(alloc: Global, why: &str, property: Property) -> Result<String, NoMemory>
    ensures { IfOk result (λ s. string_bytes s ≡ lines.property_text why.now (property_name property)) }
{
    let mut line = String::from_str(alloc, "refused: manifest.csv: ")?;
    line.push_str(why)?;
    line.push_str(property.name())?;
    line.push_str("\n")?;
    Ok(line)
}

fn manifest_width_line(alloc: Global, number: u64) -> Result<String, NoMemory>
    ensures { IfOk result (λ s. string_bytes s ≡ codes "refused: manifest.csv record " ++ decimal number ++ codes ": width\n") }
{
    let mut line = record_line(alloc, SetFile::Manifest, number)?;
    line.push_str(": width\n")?;
    Ok(line)
}

#[tactic(auto, unfolding(crate::specs::Lines::manifest_text))]
fn manifest_line(alloc: Global, fault: ManifestFault) -> Result<String, NoMemory>
    ensures { IfOk result (λ s. string_bytes s ≡ lines.manifest_text fault) }
{
    match fault {
        ManifestFault::Header => file_line(alloc, SetFile::Manifest, ": header\n"),
        ManifestFault::Width { record_no } => manifest_width_line(alloc, record_no),
        ManifestFault::Repeated { property } => property_line(alloc, "repeated ", property),
        ManifestFault::Version { property } => property_line(alloc, "version of ", property),
        ManifestFault::UnknownMode { property } => {
            property_line(alloc, "unknown mode of ", property)
        }
        ManifestFault::Missing { property } => property_line(alloc, "missing ", property),
    }
}

/// The line of the first fault of a set. Status 4.
#[tactic(auto, unfolding(crate::specs::Lines::fault_text))]
pub fn fault_line(alloc: Global, fault: &SetFault) -> Result<String, NoMemory>
    ensures { IfOk result (λ s. string_bytes s ≡ lines.fault_text fault.now) }
{
    match fault {
        SetFault::Manifest(fault) => manifest_line(alloc, *fault),
        SetFault::MissingFile { file } => file_line(alloc, *file, ": missing file\n"),
        SetFault::UnexpectedFile { file } => file_line(alloc, *file, ": unexpected file\n"),
        SetFault::Column {
            file,
            column,
            fault,
        } => column_line(alloc, *file, column.as_str(), *fault),
        SetFault::Row {
            file,
            record_no,
            field,
            fault,
        } => row_line(alloc, *file, *record_no, field.as_str(), *fault),
        SetFault::RepeatedId { file, record_no } => repeated_line(alloc, *file, *record_no),
        SetFault::TooLarge { file } => file_line(alloc, *file, ": too large\n"),
        SetFault::NotUtf8 { file } => file_line(alloc, *file, ": not UTF-8\n"),
        SetFault::Folder => Ok(String::from_str(alloc, FOLDER_FAILED)?),
    }
}

/// The line of what is published under a name as a version.
#[tactic(auto, unfolding(crate::specs::Lines::published_text))]
pub fn published_line(alloc: Global, name: &str, version: u64) -> Result<String, NoMemory>
    ensures { IfOk result (λ s. string_bytes s ≡ lines.published_text name.now version) }
{
    let mut line = String::from_str(alloc, name)?;
    line.push_str(format!(in alloc; " version {version}\n")?.as_str())?;
    Ok(line)
}

/// The line of a set that changes nothing.
#[tactic(auto, unfolding(crate::specs::Lines::unchanged_text))]
pub fn unchanged_line(alloc: Global, name: &str, version: u64) -> Result<String, NoMemory>
    ensures { IfOk result (λ s. string_bytes s ≡ lines.unchanged_text name.now version) }
{
    let mut line = String::from_str(alloc, name)?;
    line.push_str(format!(in alloc; " unchanged {version}\n")?.as_str())?;
    Ok(line)
}

// The beginning of a line: `refused: `, a kind, and what follows it.
fn kind_line(alloc: Global, kind: Kind, rest: &str) -> Result<String, NoMemory>
    ensures { IfOk result (λ s. string_bytes s ≡ codes "refused: " ++ plural_of kind ++ rest.now) }
{
    let mut line = String::from_str(alloc, "refused: ")?;
    line.push_str(kind.plural())?;
    line.push_str(rest)?;
    Ok(line)
}

// The beginning of a line: `refused: `, a kind and an id.
fn id_line(alloc: Global, kind: Kind, id: &Id) -> Result<String, NoMemory>
    ensures { IfOk result (λ s. string_bytes s ≡ codes "refused: " ++ plural_of kind ++ codes " " ++ id.now) }
{
    let mut line = kind_line(alloc, kind, " ")?;
    line.push_str(id.as_str())?;
    Ok(line)
}

// Adds who owns a row.
fn push_owner(line: &mut String, owner: &Owner) -> Result<(), NoMemory>
    ensures { OnOk result (string_bytes line.new ≡ string_bytes line.old ++ lines.owner_text owner.now) }
{
    match owner {
        Owner::Feed(name) => {
            line.push_str("feed ")?;
            Ok(line.push_str(name.as_str())?)
        }
        Owner::Caller(name) => {
            line.push_str("caller ")?;
            Ok(line.push_str(name.as_str())?)
        }
    }
}

fn owner_line(alloc: Global, kind: Kind, id: &Id, owner: &Owner) -> Result<String, NoMemory>
    ensures { IfOk result (λ s. string_bytes s ≡ codes "refused: " ++ plural_of kind ++ codes " " ++ id.now ++ codes " is owned by " ++ lines.owner_text owner.now ++ codes "\n") }
{
    let mut line = id_line(alloc, kind, id)?;
    line.push_str(" is owned by ")?;
    push_owner(&mut line, owner)?;
    line.push_str("\n")?;
    Ok(line)
}

fn reference_word(fault: Fault) -> &'static str
    ensures { result.now ≡ lines.reference_word fault }
{
    match fault {
        Fault::Missing => "missing",
        Fault::WrongType => "wrong type",
        Fault::Cycle => "cycle",
        Fault::DayOrder => "day order",
    }
}

// Adds the id that a broken reference names.
fn push_target(line: &mut String, target: &Option<Id>) -> Result<(), NoMemory>
    ensures { OnOk result (string_bytes line.new ≡ string_bytes line.old ++ lines.target_text target.now) }
{
    if let Some(id) = target {
        line.push_str(" ")?;
        line.push_str(id.as_str())?;
    }
    Ok(())
}

#[tactic(auto, unfolding(crate::specs::Lines::reference_text))]
fn reference_line(alloc: Global, broken: &RefFault) -> Result<String, NoMemory>
    ensures { IfOk result (λ s. string_bytes s ≡ lines.reference_text broken.now) }
{
    let mut line = id_line(alloc, broken.kind, &broken.id)?;
    line.push_str(" ")?;
    line.push_str(broken.field.as_str())?;
    push_target(&mut line, &broken.target)?;
    line.push_str(": ")?;
    line.push_str(reference_word(broken.fault))?;
    line.push_str("\n")?;
    Ok(line)
}

fn reference_lines(alloc: Global, faults: &[RefFault]) -> Result<String, NoMemory>
    ensures { IfOk result (λ s. string_bytes s ≡ flat_map lines.reference_text faults.now) }
{
    let mut all = String::new(alloc);
    for broken in faults {
        all.push_str(reference_line(alloc, broken)?.as_str())?;
    }
    Ok(all)
}

/// The lines of why a set isn't published: one for each broken reference. Status 4.
#[tactic(auto, unfolding(crate::specs::Lines::publish_fault_text))]
pub fn publish_fault_lines(alloc: Global, fault: &PublishFault) -> Result<String, NoMemory>
    ensures { IfOk result (λ s. string_bytes s ≡ lines.publish_fault_text fault.now) }
{
    match fault {
        PublishFault::OwnedByOther { kind, id, owner } => owner_line(alloc, *kind, id, owner),
        PublishFault::TooManyRows { kind, count: _ } => {
            kind_line(alloc, *kind, ": too many rows\n")
        }
        PublishFault::Unsound(faults) => reference_lines(alloc, faults.as_slice()),
        PublishFault::LastVersion => Ok(String::from_str(alloc, "refused: last version\n")?),
    }
}

// `refused: `, a record of a file of grants, and what is wrong with it.
fn grants_record_line(alloc: Global, number: u64, why: &str) -> Result<String, NoMemory>
    ensures { IfOk result (λ s. string_bytes s ≡ lines.grants_record_text number why.now) }
{
    let mut line = format!(in alloc; "refused: grants record {number}: ")?;
    line.push_str(why)?;
    line.push_str("\n")?;
    Ok(line)
}

/// The line of the first fault of a file of grants. Status 4.
#[tactic(auto, unfolding(crate::specs::Lines::grants_fault_text))]
pub fn grants_fault_line(alloc: Global, fault: GrantFault) -> Result<String, NoMemory>
    ensures { IfOk result (λ s. string_bytes s ≡ lines.grants_fault_text fault) }
{
    match fault {
        GrantFault::NotUtf8 => Ok(String::from_str(alloc, "refused: grants: not UTF-8\n")?),
        GrantFault::Header => Ok(String::from_str(alloc, "refused: grants: header\n")?),
        GrantFault::TooMany => Ok(String::from_str(alloc, "refused: grants: too many\n")?),
        GrantFault::Width { record_no } => grants_record_line(alloc, record_no, "width"),
        GrantFault::BadName { record_no } => grants_record_line(alloc, record_no, "bad name"),
        GrantFault::BadToken { record_no } => grants_record_line(alloc, record_no, "bad token"),
        GrantFault::BadScope { record_no } => grants_record_line(alloc, record_no, "bad scope"),
        GrantFault::BadSchools { record_no } => {
            grants_record_line(alloc, record_no, "bad schools")
        }
        GrantFault::RepeatedCaller { record_no } => {
            grants_record_line(alloc, record_no, "repeated caller")
        }
        GrantFault::RepeatedToken { record_no } => {
            grants_record_line(alloc, record_no, "repeated token")
        }
    }
}

// What is said of a fault of the wire. Of the end of a stream, of a source that failed and of want of memory nothing
// is.
fn unreadable_word(fault: WireFault) -> &'static str
    ensures { result.now ≡ lines.unreadable_word fault }
{
    match fault {
        WireFault::Cut => "cut",
        WireFault::Head => "head",
        WireFault::HeadTooLong => "head too long",
        WireFault::Length => "length",
        WireFault::BodyTooLong => "body too long",
        WireFault::Chunked => "chunked",
        _ => "",
    }
}

fn request_word(fault: RequestFault) -> &'static str
    ensures { result.now ≡ lines.request_word fault }
{
    match fault {
        RequestFault::Unreadable(fault) => unreadable_word(fault),
        RequestFault::AfterClose => "after close",
    }
}

/// The line of why the rest of a stream is refused, under the number of the next request. Status 4.
#[tactic(auto, unfolding(crate::specs::Lines::request_text))]
pub fn request_line(alloc: Global, number: u64, fault: RequestFault) -> Result<String, NoMemory>
    ensures { IfOk result (λ s. string_bytes s ≡ lines.request_text number fault) }
{
    let mut line = format!(in alloc; "refused: request {number}: ")?;
    line.push_str(request_word(fault))?;
    line.push_str("\n")?;
    Ok(line)
}

/// The line of a script that is refused for its line of this number, from 1. Status 4.
#[tactic(auto, unfolding(crate::specs::Lines::script_text))]
pub fn script_line(alloc: Global, line: u64) -> Result<String, NoMemory>
    ensures { IfOk result (λ s. string_bytes s ≡ lines.script_text line) }
{
    Ok(format!(in alloc; "refused: script line {line}\n")?)
}

/// The line of a file that the words name, and what is wrong with it as a whole. Status 4.
pub fn named_file_line(alloc: Global, name: &str, why: &str) -> Result<String, NoMemory>
    ensures { IfOk result (λ s. string_bytes s ≡ lines.named_file_text name.now why.now) }
{
    let mut line = String::from_str(alloc, "refused: ")?;
    line.push_str(name)?;
    line.push_str(why)?;
    Ok(line)
}

/// The line of words that are no command. Status 2.
#[tactic(auto, unfolding(crate::specs::Lines::bad_word_text))]
pub fn bad_word_line(alloc: Global, place: usize) -> Result<String, NoMemory>
    ensures { IfOk result (λ s. string_bytes s ≡ lines.bad_word_text place) }
{
    Ok(format!(in alloc; "bad word {place}\n")?)
}
