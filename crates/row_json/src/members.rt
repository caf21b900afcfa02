//! The members of a row's object, written as tokens in the order of their names.

ghost use Rattle.std.specs.Prelude.{◌≡◌, ◌++◌, Some, None, OnOk, flat_map, option_map, slice_get, slice_index_or};
ghost use Rattle.roster_types.specs.Records.{all_values};
ghost use Rattle.roster_values.specs.Table.{info_of, table};
ghost use Rattle.row_json.specs.Json.{is_named, row_data};
ghost use Rattle.row_json.specs.Tokens.{data_tokens, entry_tokens, is_chosen, order_of, slot_at, slot_of, slot_tokens};

use crate::order::name_order;
use crate::values::{write_member, write_value};
use json::Writer;
use roster_base::{NoMemory, Text};
use roster_types::metadata::{Entry, Metadata};
use roster_types::row::Row;
use roster_values::FieldInfo;
use roster_values::fields::fields;

// Whether a name is one of these.
fn is_named(names: &[Text], name: &str) -> bool
    ensures { result ≡ is_named names.now name.now }
{
    names.iter().any(|other| other.as_str() == name)
}

// Whether a choice of names leaves a name.
fn is_chosen(only: Option<&[Text]>, name: &str) -> bool
    ensures { result ≡ is_chosen (option_map (λ s. s.now) only.entry) name.now }
{
    match only {
        Some(names) => is_named(names, name),
        None => true,
    }
}

// The member of a field, where the row has a value there.
#[tactic(auto, unfolding(crate::specs::Tokens::slot_tokens))]
fn write_field(
    out: &mut Writer,
    buffer: &mut String,
    row: &Row,
    place: usize,
    info: &FieldInfo,
    only: Option<&[Text]>,
) -> Result<(), NoMemory>
    requires { slice_get (table row.now.kind) place ≡ Some (info_of info.now) }
    ensures before { OnOk result (out.new.before ≡ out.old.before) }
    ensures tokens { OnOk result (out.new.tokens ≡ out.old.tokens ++ slot_tokens (option_map (λ s. s.now) only.entry) (slot_of row.now.metadata (slice_index_or (all_values row.now) place None) (Some (info_of info.now)))) }
{
    if !is_chosen(only, info.name) {
        return Ok(());
    }
    // Read for its clause `row`, by which the row has as many values as its kind has fields.
    let _ = row.kind();
    match row.value(place) {
        Some(value) => {
            out.key(info.name)?;
            write_value(out, buffer, info.form, value)
        }
        None => Ok(()),
    }
}

// The members of entries.
fn push_entries(out: &mut Writer, entries: &[Entry]) -> Result<(), NoMemory>
    ensures before { OnOk result (out.new.before ≡ out.old.before) }
    ensures tokens { OnOk result (out.new.tokens ≡ out.old.tokens ++ flat_map entry_tokens entries.now) }
{
    for entry in entries {
        write_member(out, entry.key.as_str(), entry.text.as_str())?;
    }
    Ok(())
}

// The member of the metadata, where there is any.
fn write_metadata(
    out: &mut Writer,
    metadata: &Metadata,
    only: Option<&[Text]>,
) -> Result<(), NoMemory>
    ensures before { OnOk result (out.new.before ≡ out.old.before) }
    ensures tokens { OnOk result (out.new.tokens ≡ out.old.tokens ++ slot_tokens (option_map (λ s. s.now) only.entry) (slot_of metadata.now None None)) }
{
    let entries = metadata.entries();
    if entries.is_empty() {
        return Ok(());
    }
    if !is_chosen(only, "metadata") {
        return Ok(());
    }
    out.key("metadata")?;
    out.begin_object()?;
    push_entries(out, entries)?;
    out.end_object()?;
    Ok(())
}

// The member at a place of the row's fields, or past them that of the metadata.
fn write_slot(
    out: &mut Writer,
    buffer: &mut String,
    row: &Row,
    place: usize,
    only: Option<&[Text]>,
) -> Result<(), NoMemory>
    ensures before { OnOk result (out.new.before ≡ out.old.before) }
    ensures tokens { OnOk result (out.new.tokens ≡ out.old.tokens ++ slot_tokens (option_map (λ s. s.now) only.entry) (slot_at row.now place)) }
{
    match fields(row.kind()).get(place) {
        Some(info) => write_field(out, buffer, row, place, info, only),
        None => write_metadata(out, row.metadata(), only),
    }
}

// The members in the order of their names.
fn write_slots(
    out: &mut Writer,
    buffer: &mut String,
    row: &Row,
    only: Option<&[Text]>,
) -> Result<(), NoMemory>
    ensures before { OnOk result (out.new.before ≡ out.old.before) }
    ensures tokens { OnOk result (out.new.tokens ≡ out.old.tokens ++ flat_map (λ place. slot_tokens (option_map (λ s. s.now) only.entry) (slot_at row.now place)) (order_of row.now.kind)) }
{
    for place in name_order(row.kind()) {
        write_slot(out, buffer, row, *place, only)?;
    }
    Ok(())
}

/// Writes the object of a row: of the members that it has those that the choice leaves. The buffer is for parts of
/// values.
#[tactic(auto, using(crate::proofs::Slots::row_tokens))]
pub fn write_row(
    out: &mut Writer,
    buffer: &mut String,
    row: &Row,
    only: Option<&[Text]>,
) -> Result<(), NoMemory>
    ensures before { OnOk result (out.new.before ≡ out.old.before) }
    ensures tokens { OnOk result (out.new.tokens ≡ out.old.tokens ++ data_tokens (row_data (option_map (λ s. s.now) only.entry) row.now)) }
{
    out.begin_object()?;
    write_slots(out, buffer, row, only)?;
    out.end_object()?;
    Ok(())
}
