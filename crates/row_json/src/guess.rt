//! Guesses of rows from the tokens of a text, without a tree of it.
//!
//! A guess follows the order in which `members.rt` writes a row, and gives up at anything else. No clause says that it
//! is right: `written.rt` takes a row only where its own text is the one that was read.

ghost use Rattle.std.specs.Prelude.{◌≡◌, ◌<◌, ◌∷◌, ◌++◌, [], true, IfOk, IfSome, length, map};
ghost use Rattle.std.specs.List.{All};
ghost use Rattle.roster_base.specs.Order.{RiseBy};
ghost use Rattle.roster_types.specs.declared.metadata.Entry.{Entry as MetadataEntry};
ghost use Rattle.roster_types.specs.Records.{key_of};
ghost use Rattle.roster_types.specs.Shapes.{fits_all};
ghost use Rattle.roster_values.specs.Fit.{is_plain_text};
ghost use Rattle.roster_values.specs.Table.{info_of};

use crate::order::name_order;
use json::{Reader, Scratch, Token};
use roster_base::{NoMemory, Refusal, Text};
use roster_texts::Id;
use roster_texts::trim::has_plain_ends;
use roster_types::metadata::{Entry, Metadata};
use roster_types::row::Row;
use roster_values::fields::fields;
use roster_values::{FieldForm, FieldInfo, Kind, Value, read_value};
use std::alloc::Global;

// The text that a field's cell would have.
#[derive(Drop)]
enum Cell<'a> {
    Lent(&'a str),
    Joined(String),
}

// The text of the next value, if it is a string or a number.
fn next_text<'a>(reader: &mut Reader<'a>) -> Option<&'a str>
    ensures { IfSome result (λ _. length reader.new < length reader.old) }
{
    match reader.next()? {
        Token::String(text) | Token::Number(text) => Some(text),
        _ => None,
    }
}

// The text of the next member, if it has the name.
fn next_member<'a>(reader: &mut Reader<'a>, name: &str) -> Option<&'a str>
    ensures { IfSome result (λ _. length reader.new < length reader.old) }
{
    match reader.next()? {
        Token::Key(key) if key == name => next_text(reader),
        _ => None,
    }
}

// Takes the beginning of an object, if it comes next.
fn begin_object(reader: &mut Reader<'_>) -> Option<()>
    ensures { IfSome result (λ _. length reader.new < length reader.old) }
{
    match reader.next()? {
        Token::BeginObject => Some(()),
        _ => None,
    }
}

// Takes the end of an object, if it comes next.
fn end_object(reader: &mut Reader<'_>) -> Option<()>
    ensures { IfSome result (λ _. length reader.new < length reader.old) }
{
    match reader.next()? {
        Token::EndObject => Some(()),
        _ => None,
    }
}

// Takes the beginning of an array, if it comes next.
fn begin_array(reader: &mut Reader<'_>) -> Option<()>
    ensures { IfSome result (λ _. length reader.new < length reader.old) }
{
    match reader.next()? {
        Token::BeginArray => Some(()),
        _ => None,
    }
}

// The next key, or none at the end of an object.
fn next_key<'a>(reader: &mut Reader<'a>) -> Option<Option<&'a str>>
    ensures { IfSome result (λ _. length reader.new < length reader.old) }
{
    match reader.next()? {
        Token::Key(key) => Some(Some(key)),
        Token::EndObject => Some(None),
        _ => None,
    }
}

// The id of a reference.
fn next_reference<'a>(reader: &mut Reader<'a>) -> Option<&'a str>
    ensures { IfSome result (λ _. length reader.new < length reader.old) }
{
    begin_object(reader)?;
    next_member(reader, "href")?;
    let id = next_member(reader, "sourcedId")?;
    next_member(reader, "type")?;
    end_object(reader)?;
    Some(id)
}

// The texts of a user id's members.
#[derive(Clone, Copy)]
struct UserIdTexts<'a> {
    identifier: &'a str,
    form: &'a str,
}

// The next value's texts, if it is a user id.
fn next_user_id<'a>(reader: &mut Reader<'a>) -> Option<UserIdTexts<'a>>
    ensures { IfSome result (λ _. length reader.new < length reader.old) }
{
    begin_object(reader)?;
    let identifier = next_member(reader, "identifier")?;
    let form = next_member(reader, "type")?;
    end_object(reader)?;
    Some(UserIdTexts { identifier, form })
}

// Adds a user id as `{type:identifier}`.
fn push_user_id(cell: &mut String, identifier: &str, form: &str) -> Result<(), NoMemory> {
    cell.push('{')?;
    cell.push_str(form)?;
    cell.push(':')?;
    cell.push_str(identifier)?;
    cell.push('}')?;
    Ok(())
}

// Adds the text of a list's next item.
fn push_item(
    reader: &mut Reader<'_>,
    form: FieldForm,
    cell: &mut String,
) -> Result<Option<()>, NoMemory>
    ensures { IfOk result (λ o. IfSome o (λ _. length reader.new < length reader.old)) }
{
    if let FieldForm::UserIds = form {
        let Some(user_id) = next_user_id(reader) else {
            return Ok(None);
        };
        push_user_id(cell, user_id.identifier, user_id.form)?;
        return Ok(Some(()));
    }
    let item = match form {
        FieldForm::Refs(_) => next_reference(reader),
        _ => next_text(reader),
    };
    let Some(item) = item else {
        return Ok(None);
    };
    cell.push_str(item)?;
    Ok(Some(()))
}

// A list's items between commas.
fn next_list(
    alloc: Global,
    reader: &mut Reader<'_>,
    form: FieldForm,
) -> Result<Option<String>, NoMemory>
    ensures { IfOk result (λ o. IfSome o (λ _. length reader.new < length reader.old)) }
{
    if begin_array(reader).is_none() {
        return Ok(None);
    }
    let mut cell = String::new(alloc);
    'items: while !reader.take_end_array() {
        if !cell.is_empty() {
            cell.push(',')?;
        }
        if push_item(reader, form, &mut cell)?.is_none() {
            return Ok(None);
        }
    }
    Ok(Some(cell))
}

// The cell of the next value.
fn next_cell<'a>(
    alloc: Global,
    reader: &mut Reader<'a>,
    form: FieldForm,
) -> Result<Option<Cell<'a>>, NoMemory>
    ensures { IfOk result (λ o. IfSome o (λ _. length reader.new < length reader.old)) }
{
    match form {
        FieldForm::Texts | FieldForm::UserIds | FieldForm::Refs(_) => {
            match next_list(alloc, reader, form)? {
                Some(cell) => Ok(Some(Cell::Joined(cell))),
                None => Ok(None),
            }
        }
        FieldForm::Ref(_) => Ok(next_reference(reader).map(Cell::Lent)),
        _ => Ok(next_text(reader).map(Cell::Lent)),
    }
}

// Adds an entry, if its key is above the last and its text is as metadata holds it.
fn push_entry(
    alloc: Global,
    metadata: &mut Metadata,
    key: &str,
    text: &str,
) -> Result<Option<()>, NoMemory> {
    if !is_plain(text) || !is_above_last(metadata, key) {
        return Ok(None);
    }
    let Some(key) = Id::read(alloc, key)? else {
        return Ok(None);
    };
    metadata.push(Entry {
        key,
        text: Text::new(alloc, text)?,
    })?;
    Ok(Some(()))
}

// Whether a text isn't blank and has no space at its ends.
fn is_plain(text: &str) -> bool
    ensures { result ≡ is_plain_text text.now }
{
    !text.is_empty() && has_plain_ends(text.as_bytes())
}

// Whether a key is above that of the last entry.
fn is_above_last(metadata: &Metadata, key: &str) -> bool
    ensures { result ≡ true → (entry : MetadataEntry) → entry.key ≡ key.now → RiseBy key_of (metadata.now ++ entry ∷ []) }
{
    match metadata.entries().last() {
        Some(last) => last.key.as_str().cmp(key).is_lt(),
        None => true,
    }
}

// The entries of metadata.
fn next_metadata(alloc: Global, reader: &mut Reader<'_>) -> Result<Option<Metadata>, NoMemory>
    ensures { IfOk result (λ o. IfSome o (λ _. length reader.new < length reader.old)) }
{
    if begin_object(reader).is_none() {
        return Ok(None);
    }
    let mut metadata = Metadata::new(alloc);
    'entries: loop {
        let key = match reader.next() {
            Some(Token::Key(key)) => key,
            Some(Token::EndObject) => return Ok(Some(metadata)),
            _ => return Ok(None),
        };
        let Some(text) = next_text(reader) else {
            return Ok(None);
        };
        if push_entry(alloc, &mut metadata, key, text)?.is_none() {
            return Ok(None);
        }
    }
}

// A blank cell for each field.
fn blank_cells<'a>(alloc: Global, count: usize) -> Result<Vec<Cell<'a>>, NoMemory> {
    let mut cells = Vec::with_capacity(alloc, count)?;
    for _ in 0..count {
        cells.push(Cell::Lent(""))?;
    }
    Ok(cells)
}

// Puts a cell in its place, if there is such a place.
fn put_cell<'a>(cells: &mut Vec<Cell<'a>>, place: usize, cell: Cell<'a>) {
    if place < cells.len() {
        cells[place] = cell;
    }
}

// The name of a field's member, or past the fields that of the metadata's.
fn slot_name(info: Option<&FieldInfo>) -> &'static str {
    match info {
        Some(info) => info.name,
        None => "metadata",
    }
}

// Fills the cells of the fields that an object says, and gives its metadata.
fn fill_cells<'a>(
    alloc: Global,
    reader: &mut Reader<'a>,
    kind: Kind,
    cells: &mut Vec<Cell<'a>>,
) -> Result<Option<Metadata>, NoMemory>
    ensures { IfOk result (λ o. IfSome o (λ _. length reader.new < length reader.old)) }
{
    let infos = fields(kind);
    let mut metadata = Metadata::new(alloc);
    let Some(mut key) = next_key(reader) else {
        return Ok(None);
    };
    for place in name_order(kind) {
        let Some(name) = key else {
            return Ok(Some(metadata));
        };
        let info = infos.get(*place);
        if name != slot_name(info) {
            continue;
        }
        match info {
            Some(info) => {
                let Some(cell) = next_cell(alloc, reader, info.form)? else {
                    return Ok(None);
                };
                put_cell(cells, *place, cell);
            }
            None => {
                let Some(entries) = next_metadata(alloc, reader)? else {
                    return Ok(None);
                };
                metadata = entries;
            }
        }
        let Some(next) = next_key(reader) else {
            return Ok(None);
        };
        key = next;
    }
    match key {
        Some(_) => Ok(None),
        None => Ok(Some(metadata)),
    }
}

// The text of a cell.
fn cell_text<'a>(cell: &'a Cell<'_>) -> &'a str {
    match cell {
        Cell::Lent(text) => text,
        Cell::Joined(text) => text.as_str(),
    }
}

// The values of the cells, if each may stand in its field.
fn values_of(
    alloc: Global,
    infos: &[FieldInfo],
    cells: &[Cell<'_>],
) -> Result<Option<Vec<Option<Value>>>, NoMemory>
    ensures { IfOk result (λ o. IfSome o (λ v. fits_all (map info_of infos.now) v.items ≡ true)) }
{
    let mut values = Vec::with_capacity(alloc, infos.len())?;
    for place in 0..infos.len() {
        let Some(cell) = cells.get(place) else {
            return Ok(None);
        };
        match read_value(alloc, &infos[place], cell_text(cell)) {
            Ok(value) => values.push(value)?,
            Err(Refusal::Fault(_)) => return Ok(None),
            Err(Refusal::NoMemory) => return Err(NoMemory),
        }
    }
    Ok(Some(values))
}

// The row that an object says.
fn next_row(alloc: Global, reader: &mut Reader<'_>, kind: Kind) -> Result<Option<Row>, NoMemory>
    ensures kind { IfOk result (λ o. IfSome o (λ r. r.kind ≡ kind)) }
    ensures shorter { IfOk result (λ o. IfSome o (λ _. length reader.new < length reader.old)) }
{
    if begin_object(reader).is_none() {
        return Ok(None);
    }
    let infos = fields(kind);
    let mut cells = blank_cells(alloc, infos.len())?;
    let Some(metadata) = fill_cells(alloc, reader, kind, &mut cells)? else {
        return Ok(None);
    };
    match values_of(alloc, infos, cells.as_slice())? {
        Some(values) => Row::from_values(alloc, kind, values, metadata),
        None => Ok(None),
    }
}

// Takes the beginning of an object and its first key, if this is the name.
fn begin_under(reader: &mut Reader<'_>, name: &str) -> Option<()> {
    begin_object(reader)?;
    match reader.next()? {
        Token::Key(key) if key == name => Some(()),
        _ => None,
    }
}

/// A guess of the row of a single text.
pub fn guess_row(alloc: Global, kind: Kind, text: &str) -> Result<Option<Row>, NoMemory>
    ensures { IfOk result (λ o. IfSome o (λ r. r.kind ≡ kind)) }
{
    let mut scratch = Scratch::new(alloc);
    let mut reader = Reader::new(text, &mut scratch)?;
    if begin_under(&mut reader, kind.single()).is_none() {
        return Ok(None);
    }
    next_row(alloc, &mut reader, kind)
}

// The rows of an array.
fn next_rows(
    alloc: Global,
    reader: &mut Reader<'_>,
    kind: Kind,
) -> Result<Option<Vec<Row>>, NoMemory>
    ensures { IfOk result (λ o. IfSome o (λ v. All (λ r. r.kind ≡ kind) v.items)) }
{
    if begin_array(reader).is_none() {
        return Ok(None);
    }
    let mut rows = Vec::new(alloc);
    'rows: while !reader.take_end_array() {
        let Some(row) = next_row(alloc, reader, kind)? else {
            return Ok(None);
        };
        rows.push(row)?;
    }
    Ok(Some(rows))
}

/// A guess of the rows of a collection's text.
pub fn guess_rows(alloc: Global, kind: Kind, text: &str) -> Result<Option<Vec<Row>>, NoMemory>
    ensures { IfOk result (λ o. IfSome o (λ v. All (λ r. r.kind ≡ kind) v.items)) }
{
    let mut scratch = Scratch::new(alloc);
    let mut reader = Reader::new(text, &mut scratch)?;
    if begin_under(&mut reader, kind.plural()).is_none() {
        return Ok(None);
    }
    next_rows(alloc, &mut reader, kind)
}
