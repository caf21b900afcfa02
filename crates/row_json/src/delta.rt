//! What differs of the rows of a kind, as texts.

ghost use Rattle.std.specs.Prelude.{◌≡◌, ◌++◌, None, IfOk, OnOk, flat_map, string_bytes};
ghost use Rattle.serde_json.specs.Data.{string};
ghost use Rattle.serde_json.specs.View.{items_view, view};
ghost use Rattle.roster_base.specs.Reading.{Gives};
ghost use Rattle.row_json.specs.CellTexts.{each};
ghost use Rattle.row_json.specs.Deltas as spec;
ghost use Rattle.row_json.specs.Json.{row_data};
ghost use Rattle.row_json.specs.Tokens.{data_tokens};

use crate::fault::{JsonError, JsonFault};
use crate::members::write_row;
use crate::read::read_data;
use crate::text::written;
use json::Writer;
use roster_base::{NoMemory, Refusal};
use roster_texts::Id;
use roster_texts::trim::trim_spaces;
use roster_types::row::Row;
use roster_values::Kind;
use serde_json::Value;
use std::alloc::Global;

// The name of the member with the ids that are gone.
const GONE: &str = "hubGone";

// The items of an array of rows.
fn push_rows(out: &mut Writer, buffer: &mut String, rows: &[Row]) -> Result<(), NoMemory>
    ensures before { OnOk result (out.new.before ≡ out.old.before) }
    ensures tokens { OnOk result (out.new.tokens ≡ out.old.tokens ++ flat_map (λ row. data_tokens (row_data None row)) rows.now) }
{
    for row in rows {
        write_row(out, buffer, row, None)?;
    }
    Ok(())
}

// The items of an array of ids.
fn push_ids(out: &mut Writer, ids: &[Id]) -> Result<(), NoMemory>
    ensures before { OnOk result (out.new.before ≡ out.old.before) }
    ensures tokens { OnOk result (out.new.tokens ≡ out.old.tokens ++ flat_map (λ id. data_tokens (string id)) ids.now) }
{
    for id in ids {
        out.string(id.as_str())?;
    }
    Ok(())
}

// The member of the rows.
fn write_rows(
    out: &mut Writer,
    buffer: &mut String,
    kind: Kind,
    rows: &[Row],
) -> Result<(), NoMemory>
    ensures before { OnOk result (out.new.before ≡ out.old.before) }
    ensures tokens { OnOk result (out.new.tokens ≡ out.old.tokens ++ spec.rows_tokens kind rows.now) }
{
    out.key(kind.plural())?;
    out.begin_array()?;
    push_rows(out, buffer, rows)?;
    out.end_array()?;
    Ok(())
}

// The member of the ids that are gone.
fn write_gone(out: &mut Writer, gone: &[Id]) -> Result<(), NoMemory>
    ensures before { OnOk result (out.new.before ≡ out.old.before) }
    ensures tokens { OnOk result (out.new.tokens ≡ out.old.tokens ++ spec.gone_tokens gone.now) }
{
    out.key(GONE)?;
    out.begin_array()?;
    push_ids(out, gone)?;
    out.end_array()?;
    Ok(())
}

// Whether the member of the ids stands before that of the rows.
fn are_gone_first(kind: Kind) -> bool
    ensures { result ≡ spec.are_gone_first kind }
{
    GONE.cmp(kind.plural()).is_lt()
}

// Both members in the order of their names.
fn write_members(
    out: &mut Writer,
    buffer: &mut String,
    kind: Kind,
    rows: &[Row],
    gone: &[Id],
) -> Result<(), NoMemory>
    ensures before { OnOk result (out.new.before ≡ out.old.before) }
    ensures tokens { OnOk result (out.new.tokens ≡ out.old.tokens ++ spec.member_tokens kind rows.now gone.now) }
{
    if are_gone_first(kind) {
        write_gone(out, gone)?;
        write_rows(out, buffer, kind, rows)
    } else {
        write_rows(out, buffer, kind, rows)?;
        write_gone(out, gone)
    }
}

// The object with both members.
fn write_delta(
    out: &mut Writer,
    buffer: &mut String,
    kind: Kind,
    rows: &[Row],
    gone: &[Id],
) -> Result<(), NoMemory>
    ensures before { OnOk result (out.new.before ≡ out.old.before) }
    ensures tokens { OnOk result (out.new.tokens ≡ out.old.tokens ++ data_tokens (spec.delta_data kind rows.now gone.now)) }
{
    out.begin_object()?;
    write_members(out, buffer, kind, rows, gone)?;
    out.end_object()?;
    Ok(())
}

/// The object with the rows of a kind that are put under the kind's plural key, and the ids that are gone under
/// `hubGone`.
pub fn delta_text(alloc: Global, kind: Kind, rows: &[Row], gone: &[Id]) -> Result<String, NoMemory>
    ensures { IfOk result (λ t. string_bytes t ≡ spec.delta_text kind rows.now gone.now) }
{
    let mut out = Writer::new(Vec::new(alloc));
    let mut buffer = String::new(alloc);
    write_delta(&mut out, &mut buffer, kind, rows, gone)?;
    Ok(written(out))
}

// The id that an item says.
#[tactic(auto, unfolding(crate::specs::Deltas::gone_item))]
fn read_item(alloc: Global, item: &Value) -> Result<Id, JsonError>
    ensures { Gives (λ id. id) result (spec.gone_item (view item.now)) }
{
    let Some(text) = item.as_str() else {
        return Err(Refusal::Fault(JsonFault::Shape));
    };
    match Id::read(alloc, trim_spaces(text))? {
        Some(id) => Ok(id),
        None => Err(Refusal::Fault(JsonFault::Shape)),
    }
}

// The ids that items say, in their order.
fn read_items(alloc: Global, items: &[Value]) -> Result<Vec<Id>, JsonError>
    ensures { Gives (λ v. v.items) result (each spec.gone_item (items_view items.now)) }
{
    let mut ids = Vec::new(alloc);
    for item in items {
        let id = read_item(alloc, item)?;
        ids.push(id)?;
    }
    Ok(ids)
}

// The ids that an object says are gone.
#[tactic(auto, unfolding(crate::specs::Deltas::gone_in))]
fn read_ids(alloc: Global, value: &Value) -> Result<Vec<Id>, JsonError>
    ensures { Gives (λ v. v.items) result (spec.gone_in (view value.now)) }
{
    match value.get(GONE).and_then(Value::as_array) {
        Some(items) => read_items(alloc, items.as_slice()),
        None => Err(Refusal::Fault(JsonFault::Shape)),
    }
}

/// Reads the ids that are gone from a text. Their array holds strings, which are good ids but for spaces at their ends.
///
/// # Errors
///
/// `NotJson`, then `Shape`.
#[tactic(auto, unfolding(crate::specs::Deltas::gone_of))]
pub fn read_gone(alloc: Global, bytes: &[u8]) -> Result<Vec<Id>, JsonError>
    ensures { Gives (λ v. v.items) result (spec.gone_of bytes.now) }
{
    let value = read_data(alloc, bytes)?;
    let ids = read_ids(alloc, &value);
    drop(value);
    ids
}
