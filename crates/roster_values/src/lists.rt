//! Lists of texts and of ids.

ghost use Rattle.std.specs.Prelude.{◌≡◌, ◌++◌, IfOk, OnOk};
ghost use Rattle.roster_base.specs.Reading.{Gives};
ghost use Rattle.roster_values.specs.Lists.{id_of, ids_of, item_of, items_of, read_all};

use crate::fault::ValueError;
use roster_base::{Items, NoMemory, Refusal, Text};
use roster_texts::trim::trim_spaces;
use roster_texts::{Id, ValueFault};
use std::alloc::Global;

/// A list of texts. A clause sees the list of their bytes.
pub type Texts = Items<Text>;

/// A list of ids. A clause sees the list of their bytes.
pub type Ids = Items<Id>;

/// The items of a list: what stands between commas, without the spaces at the ends. Items of which nothing is left are
/// dropped.
pub fn read_items(alloc: Global, text: &str) -> Result<Texts, NoMemory>
    ensures { IfOk result (λ ts. ts ≡ items_of text.now) }
{
    let mut items = Items::new(alloc);
    let mut rest = text;
    while let Some((item, later)) = rest.split_once(',') {
        push_item(&mut items, alloc, item)?;
        rest = later;
    }
    push_item(&mut items, alloc, rest)?;
    Ok(items)
}

// Adds what is left of an item without the spaces at its ends, if anything is.
fn push_item(items: &mut Texts, alloc: Global, item: &str) -> Result<(), NoMemory>
    ensures { OnOk result (items.new ≡ items.old ++ item_of item.now) }
{
    let item = trim_spaces(item);
    if item.is_empty() {
        return Ok(());
    }
    items.push(Text::new(alloc, item)?)
}

/// The id that a text is. A text of more than 255 bytes is `TooLong`, and any other text that is no id `BadId`.
#[tactic(auto, unfolding(crate::specs::Lists::id_of))]
pub fn read_id(alloc: Global, text: &str) -> Result<Id, ValueError>
    ensures { Gives (λ id. id) result (id_of text.now) }
{
    if text.len() > 255 {
        return Err(Refusal::Fault(ValueFault::TooLong));
    }
    Id::read(alloc, text)?.ok_or(Refusal::Fault(ValueFault::BadId))
}

/// The ids of a list, between commas: the fault is the first item's that is no id.
#[tactic(auto, unfolding(crate::specs::Lists::ids_of))]
pub fn read_ids(alloc: Global, text: &str) -> Result<Ids, ValueError>
    ensures { Gives (λ ids. ids) result (ids_of text.now) }
{
    let items = read_items(alloc, text)?;
    ids_of_items(alloc, items.as_slice())
}

fn ids_of_items(alloc: Global, items: &[Text]) -> Result<Ids, ValueError>
    ensures { Gives (λ ids. ids) result (read_all id_of items.now) }
{
    let mut ids = Items::new(alloc);
    for item in items {
        let id = read_id(alloc, item.as_str())?;
        ids.push(id)?;
    }
    Ok(ids)
}
