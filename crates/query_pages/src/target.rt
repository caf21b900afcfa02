//! Where a link leads: path and query of a page.

ghost use Rattle.std.specs.Prelude.{◌≡◌, ◌++◌, IfOk, OnOk, codes, decimal, option_map, string_bytes};
ghost use Rattle.std.specs.List.{flat_map};
ghost use Rattle.form_urlencoded.specs.Form as form;
ghost use Rattle.hub_spec.specs.views.Links as spec;
ghost use Rattle.rest_paths.specs.Routes.{word_of};
ghost use Rattle.query_pages.specs.Targets.{base_text, given_text, manner_text, objects_text, listed_text, paging_text};
ghost use Rattle.roster_types.specs.Hrefs.{encoded_byte};

use filter_grammar::{Order, Query};
use form_urlencoded::byte_serialize;
use percent_encoding::utf8_percent_encode;
use rest_paths::{Collection, Path, Route};
use roster_base::{NoMemory, Text};
use roster_texts::Id;
use roster_types::cells::ESCAPED_IN_HREF;
use std::alloc::Global;

// Adds an id with the escapes of a path.
fn push_id(text: &mut String, id: &Id) -> Result<(), NoMemory>
    ensures { OnOk result (string_bytes text.new ≡ string_bytes text.old ++ flat_map encoded_byte id.now) }
{
    Ok(utf8_percent_encode(id.as_str(), ESCAPED_IN_HREF).append_to(text)?)
}

// Adds a segment that is a word.
fn push_word(text: &mut String, collection: Collection) -> Result<(), NoMemory>
    ensures { OnOk result (string_bytes text.new ≡ string_bytes text.old ++ (codes "/" ++ word_of collection)) }
{
    text.push('/')?;
    Ok(text.push_str(collection.word())?)
}

// Adds the segments of an object.
fn push_object(text: &mut String, collection: Collection, id: &Id) -> Result<(), NoMemory>
    ensures { OnOk result (string_bytes text.new ≡ string_bytes text.old ++ (codes "/" ++ word_of collection ++ codes "/" ++ flat_map encoded_byte id.now)) }
{
    push_word(text, collection)?;
    text.push('/')?;
    push_id(text, id)
}

// Adds the segments of objects, each with its id.
fn push_objects(text: &mut String, objects: &[Collection], ids: &[Id]) -> Result<(), NoMemory>
    ensures { OnOk result (string_bytes text.new ≡ string_bytes text.old ++ objects_text objects.now ids.now) }
{
    let Some((object, objects)) = objects.split_first() else {
        return Ok(());
    };
    let Some((id, ids)) = ids.split_first() else {
        return Ok(());
    };
    push_object(text, *object, id)?;
    push_objects(text, objects, ids)
}

// Adds the word of what the path lists. A path to one object ends with that object instead.
fn push_listed(text: &mut String, route: Route) -> Result<(), NoMemory>
    ensures { OnOk result (string_bytes text.new ≡ string_bytes text.old ++ listed_text route) }
{
    match route {
        Route::One(_) => Ok(()),
        _ => push_word(text, route.lists()),
    }
}

// Adds the path from the root on.
fn push_path(text: &mut String, path: &Path) -> Result<(), NoMemory>
    ensures { OnOk result (string_bytes text.new ≡ string_bytes text.old ++ spec.path_text path.now) }
{
    let route = path.route();
    text.push_str("/ims/oneroster/v1p1")?;
    push_objects(text, route.objects(), path.ids())?;
    push_listed(text, route)
}

// Adds a parameter whose value is a number: first its name with the signs around it.
fn push_number(alloc: Global, text: &mut String, name: &str, number: u64) -> Result<(), NoMemory>
    ensures { OnOk result (string_bytes text.new ≡ string_bytes text.old ++ (name.now ++ decimal number)) }
{
    let digits = format!(in alloc; "{number}")?;
    text.push_str(name)?;
    Ok(text.push_str(digits.as_str())?)
}

// Adds a value with the escapes of a form.
fn push_value(text: &mut String, value: &str) -> Result<(), NoMemory>
    ensures { OnOk result (string_bytes text.new ≡ string_bytes text.old ++ form.byte_serialize value.now) }
{
    for piece in byte_serialize(value.as_bytes()) {
        text.push_str(piece)?;
    }
    Ok(())
}

// Adds a parameter where it is given: first its name with the signs around it, then its value.
fn push_given(text: &mut String, name: &str, value: &Option<Text>) -> Result<(), NoMemory>
    ensures { OnOk result (string_bytes text.new ≡ string_bytes text.old ++ given_text name.now value.now) }
{
    match value {
        Some(value) => {
            text.push_str(name)?;
            push_value(text, value.as_str())
        }
        None => Ok(()),
    }
}

// The word for a direction.
fn order_word(order: Order) -> &'static str
    ensures { result.now ≡ spec.order_word order }
{
    match order {
        Order::Asc => "asc",
        Order::Desc => "desc",
    }
}

// Adds the direction of the list where it is given.
fn push_order(text: &mut String, order: Option<Order>) -> Result<(), NoMemory>
    ensures { OnOk result (string_bytes text.new ≡ string_bytes text.old ++ given_text (codes "&orderBy=") (option_map spec.order_word order)) }
{
    match order {
        Some(order) => {
            text.push_str("&orderBy=")?;
            push_value(text, order_word(order))
        }
        None => Ok(()),
    }
}

// Adds what the query says of the list: its order, its filter and the members that it shows.
fn push_manner(text: &mut String, query: &Query) -> Result<(), NoMemory>
    ensures { OnOk result (string_bytes text.new ≡ string_bytes text.old ++ manner_text query.now) }
{
    push_given(text, "&sort=", &query.sort)?;
    push_order(text, query.order_by)?;
    push_given(text, "&filter=", &query.filter)?;
    push_given(text, "&fields=", &query.fields)
}

// Adds which page is asked for.
fn push_paging(alloc: Global, text: &mut String, limit: u64, offset: u64) -> Result<(), NoMemory>
    ensures { OnOk result (string_bytes text.new ≡ string_bytes text.old ++ paging_text limit offset) }
{
    push_number(alloc, text, "?limit=", limit)?;
    push_number(alloc, text, "&offset=", offset)
}

/// The version from which on a read is told what differs: a kind's collection takes one, and any other path passes it
/// over.
pub fn base_of(path: &Path, query: &Query) -> Option<u64>
    ensures { result ≡ spec.base_for path.now.route query.now.since }
{
    match path.route() {
        Route::All(Collection::Of(_)) => query.since,
        _ => None,
    }
}

// Adds the base, where there is one.
fn push_base(alloc: Global, text: &mut String, base: Option<u64>) -> Result<(), NoMemory>
    ensures { OnOk result (string_bytes text.new ≡ string_bytes text.old ++ base_text base) }
{
    match base {
        Some(base) => push_number(alloc, text, "&hubSince=", base),
        None => Ok(()),
    }
}

/// The path and the query of the page at an offset of the same list, in one version.
pub fn target(
    alloc: Global,
    path: &Path,
    query: &Query,
    version: u64,
    offset: u64,
) -> Result<Text, NoMemory>
    ensures { IfOk result (λ t. t ≡ spec.target path.now query.now version offset) }
{
    let mut text = String::new(alloc);
    push_path(&mut text, path)?;
    push_paging(alloc, &mut text, query.limit, offset)?;
    push_manner(&mut text, query)?;
    push_base(alloc, &mut text, base_of(path, query))?;
    push_number(alloc, &mut text, "&hubVersion=", version)?;
    Ok(Text::from_string(text))
}
