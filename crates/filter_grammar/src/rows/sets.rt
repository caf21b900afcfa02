//! Lists compared as sets of texts.

ghost use Rattle.std.specs.Prelude.{◌≡◌, ◌++◌, ◌∷◌, [], IfOk, OnOk, map, option_map};
ghost use Rattle.std.specs.List.{list_any};
ghost use Rattle.roster_values.specs.CellText.{user_id_text};
ghost use Rattle.roster_values.specs.Lists.{items_of};
ghost use Rattle.roster_values.specs.Value.{shown};
ghost use Rattle.filter_grammar.specs.rows.Filters as spec;

use crate::filter::Predicate;
use crate::rows::texts::folded;
use roster_base::{Items, NoMemory, Text};
use roster_texts::Id;
use roster_types::cell_text::user_id_text;
use roster_values::lists::read_items;
use roster_values::{UserId, ValueRef};
use std::alloc::Global;

/// Whether a list, as a set of texts in lower case, is the given set (`=`), isn't (`!=`), or has a member in common
/// with it (`~`). No list passes another predicate.
pub(crate) fn set_passes(
    alloc: Global,
    predicate: Predicate,
    value: Option<ValueRef<'_>>,
    given: &str,
) -> Result<bool, NoMemory>
    ensures { IfOk result (λ b. b ≡ spec.set_passes predicate
        (map spec.folded (spec.members_in (option_map shown value.entry))) (map spec.folded (items_of given.now))) }
{
    let items = folded_members(alloc, value)?;
    let wanted = read_items(alloc, given)?;
    let folded = folded_texts(alloc, wanted.as_slice())?;
    Ok(are_related(predicate, items.as_slice(), folded.as_slice()))
}

// Whether two sets of texts stand to each other as the predicate says.
fn are_related(predicate: Predicate, items: &[Text], given: &[Text]) -> bool
    ensures { result ≡ spec.set_passes predicate items.now given.now }
{
    match predicate {
        Predicate::Equal => are_among(items, given) && are_among(given, items),
        Predicate::NotEqual => !(are_among(items, given) && are_among(given, items)),
        Predicate::Contains => have_common(items, given),
        // Sets have no order: such a comparison passes no row.
        _ => false,
    }
}

// Whether two lists have a member in common.
fn have_common(items: &[Text], given: &[Text]) -> bool
    ensures { result ≡ list_any (spec.is_one_of given.now) items.now }
{
    items.iter().any(|item| is_one_of(given, item.as_str()))
}

// Whether a text is one of these.
fn is_one_of(items: &[Text], item: &str) -> bool
    ensures { result ≡ spec.is_one_of items.now item.now }
{
    items.iter().any(|other| other.as_str() == item)
}

// Whether all texts of a list are in another.
fn are_among(some: &[Text], all: &[Text]) -> bool
    ensures { result ≡ spec.are_among some.now all.now }
{
    some.iter().all(|item| is_one_of(all, item.as_str()))
}

// The members of a list, in lower case. A value that is missing has none.
fn folded_members(alloc: Global, value: Option<ValueRef<'_>>) -> Result<Items<Text>, NoMemory>
    ensures { IfOk result (λ ts. ts ≡ map spec.folded (spec.members_in (option_map shown value.entry))) }
{
    match value {
        Some(ValueRef::Texts(texts)) => folded_texts(alloc, texts.as_slice()),
        Some(ValueRef::UserIds(ids)) => folded_user_ids(alloc, ids.as_slice()),
        Some(ValueRef::Refs(ids)) => folded_ids(alloc, ids.as_slice()),
        _ => Ok(Items::new(alloc)),
    }
}

// Adds a text in lower case.
fn push_folded(items: &mut Items<Text>, alloc: Global, text: &str) -> Result<(), NoMemory>
    ensures { OnOk result (items.new ≡ items.old ++ spec.folded text.now ∷ []) }
{
    items.push(Text::from_string(folded(alloc, text)?))
}

// The texts in lower case.
fn folded_texts(alloc: Global, texts: &[Text]) -> Result<Items<Text>, NoMemory>
    ensures { IfOk result (λ ts. ts ≡ map spec.folded texts.now) }
{
    let mut items = Items::new(alloc);
    for text in texts {
        push_folded(&mut items, alloc, text.as_str())?;
    }
    Ok(items)
}

// The ids as texts in lower case.
fn folded_ids(alloc: Global, ids: &[Id]) -> Result<Items<Text>, NoMemory>
    ensures { IfOk result (λ ts. ts ≡ map spec.folded ids.now) }
{
    let mut items = Items::new(alloc);
    for id in ids {
        push_folded(&mut items, alloc, id.as_str())?;
    }
    Ok(items)
}

// The user ids as texts in lower case.
fn folded_user_ids(alloc: Global, ids: &[UserId]) -> Result<Items<Text>, NoMemory>
    ensures { IfOk result (λ ts. ts ≡ map spec.folded (map user_id_text ids.now)) }
{
    let mut items = Items::new(alloc);
    for id in ids {
        push_folded(&mut items, alloc, user_id_text(alloc, id)?.as_str())?;
    }
    Ok(items)
}
