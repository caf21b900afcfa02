//! The grants of a file.

ghost use Rattle.std.specs.Prelude.{◌≡◌, ◌≤◌, ◌<◌, ◌^◌, ◌++◌, ◌∷◌, [], List, length, take, IfOk, OnOk};
ghost use Rattle.csv.specs.Reading.{default_config, records, strip_bom};
ghost use Rattle.csv.specs.Records.{AllText, fields_of};
ghost use Rattle.csv_sets.specs.Left.{AllRowsText};
ghost use Rattle.roster_base.specs.Reading.{Gives};
ghost use Rattle.grant_files.specs.Grants.{entries_below, entries_of, entries_with, grants_of, is_header};
ghost use Rattle.grant_files.specs.Known.{Adds, Stands};
ghost use Rattle.grant_scopes.specs.declared.entry.GrantEntry.{GrantEntry as Entry};
ghost use Rattle.grant_scopes.specs.Entries.{AreEntries, grant_limit};

use crate::entry::read_entry;
use crate::fault::{GrantError, GrantFault};
use crate::known::Known;
use csv::ByteRecord;
use csv_sets::cells::text_at;
use csv_sets::records::RecordReader;
use grant_scopes::{GrantEntry, GrantList};
use roster_base::{Items, NoMemory, Refusal};
use std::alloc::Global;

/// How many grants a file may ask for.
pub const GRANT_LIMIT: usize = 10_000;

// The number of the record behind the header and as many grants as a file may ask for: the header is record 1.
const END_NUMBER: u64 = 10_002;

// Whether a record is the header of a file of grants.
fn is_header(cells: &ByteRecord) -> bool
    requires { AllText (fields_of cells.now) }
    ensures { result ≡ is_header (fields_of cells.now) }
{
    cells.len() == 4
        && text_at(cells, 0) == "caller"
        && text_at(cells, 1) == "token"
        && text_at(cells, 2) == "scopes"
        && text_at(cells, 3) == "schools"
}

// Keeps a grant behind the others, unless as many are kept as may be asked for: the file is refused then.
fn keep(entries: &mut Vec<GrantEntry>, entry: GrantEntry) -> Result<(), NoMemory>
    requires { length entries.old.items ≤ grant_limit }
    ensures { OnOk result (entries.new.items ≡ take grant_limit (entries.old.items ++ entry ∷ [])) }
{
    if entries.len() >= GRANT_LIMIT {
        drop(entry);
        return Ok(());
    }
    entries.push(entry)?;
    Ok(())
}

// Adds the grant of a record, whose caller and token must be new among all, whether they are kept or not.
fn add_record(
    alloc: Global,
    entries: &mut Vec<GrantEntry>,
    known: &mut Known,
    number: u64,
    cells: &ByteRecord,
) -> Result<(), GrantError>
    requires text { AllText (fields_of cells.now) }
    requires few { length entries.old.items ≤ grant_limit }
    ensures { (front : List Entry) → Stands known.old entries.old.items front
        → Adds result (entries_with front number (fields_of cells.now)) known.new entries.new.items }
{
    let entry = read_entry(alloc, number, cells)?;
    known.add(alloc, number, &entry)?;
    keep(entries, entry)?;
    Ok(())
}

// The grants of the records below the header, if they aren't too many.
fn entries_below(
    alloc: Global,
    reader: &mut RecordReader<'_>,
) -> Result<Vec<GrantEntry>, GrantError>
    requires text { AllRowsText reader.old }
    requires few { length reader.old < 2 ^ 63 }
    ensures entries { Gives (λ v. v.items) result (entries_below reader.old) }
    ensures apart { IfOk result (λ v. AreEntries v.items) }
{
    let mut entries = Vec::new(alloc);
    let mut known = Known::new(alloc);
    let mut cells = ByteRecord::new(alloc);
    let mut number = 2;
    while reader.read(&mut cells)? {
        add_record(alloc, &mut entries, &mut known, number, &cells)?;
        number += 1;
    }
    if number > END_NUMBER {
        return Err(Refusal::Fault(GrantFault::TooMany));
    }
    Ok(entries)
}

// The grants of all records, of which the first is the header.
#[tactic(auto, unfolding(crate::specs::Grants::entries_of))]
fn grants_in(alloc: Global, text: &str) -> Result<GrantList, GrantError>
    ensures { Gives (λ list. list) result (entries_of (records default_config (strip_bom text.now))) }
{
    let mut reader = RecordReader::new(alloc, text);
    let mut cells = ByteRecord::new(alloc);
    if !reader.read(&mut cells)? {
        return Err(Refusal::Fault(GrantFault::Header));
    }
    if !is_header(&cells) {
        return Err(Refusal::Fault(GrantFault::Header));
    }
    let entries = entries_below(alloc, &mut reader)?;
    Ok(GrantList::new(Items::from_vec(entries)))
}

/// The grants that a file asks for, in the order of its records, or its first fault: that it is no UTF-8; its header;
/// then record by record the number of its cells, the caller, the token, the scopes, the schools, a caller and a token
/// that stood before; and behind the last record that they are over 10,000. Scopes stand between spaces, each as its
/// last word or its whole URI; schools are `*` or ids between commas. Spaces at the ends of a cell, blank lines and a
/// byte order mark at the start are passed over.
#[tactic(auto, unfolding(crate::specs::Grants::grants_of))]
pub fn read_grants(alloc: Global, bytes: &[u8]) -> Result<GrantList, GrantError>
    ensures { Gives (λ list. list) result (grants_of bytes.now) }
{
    match str::from_utf8(bytes) {
        Ok(text) => grants_in(alloc, text),
        Err(_) => Err(Refusal::Fault(GrantFault::NotUtf8)),
    }
}
