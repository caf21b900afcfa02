//! The text of a value, as a cell has it.

ghost use Rattle.std.specs.Prelude.{◌≡◌, IfOk, map, string_bytes, true};
ghost use Rattle.std.specs.List.{join_with_byte};
ghost use Rattle.roster_texts.specs.Signs.{comma};
ghost use Rattle.roster_values.specs.CellText.{cell_text, has_short_year, user_id_text};
ghost use Rattle.roster_values.specs.Value.{shown};

use crate::cells::{flag_text, number_text, year_text};
use roster_base::{NoMemory, Text};
use roster_texts::Id;
use roster_values::ValueRef;
use roster_values::user_id::UserId;
use std::alloc::Global;

/// A user id as `{type:identifier}`.
pub fn user_id_text(alloc: Global, id: &UserId) -> Result<String, NoMemory>
    ensures { IfOk result (λ s. string_bytes s ≡ user_id_text id.now) }
{
    let mut text = String::from_str(alloc, "{")?;
    text.push_str(id.form())?;
    text.push(':')?;
    text.push_str(id.identifier())?;
    text.push('}')?;
    Ok(text)
}

fn user_id_texts(alloc: Global, ids: &[UserId]) -> Result<Vec<String>, NoMemory>
    ensures { IfOk result (λ v. map string_bytes v.items ≡ map user_id_text ids.now) }
{
    let mut texts = Vec::new(alloc);
    for id in ids {
        texts.push(user_id_text(alloc, id)?)?;
    }
    Ok(texts)
}

fn lent_texts<'a>(alloc: Global, texts: &'a [Text]) -> Result<Vec<&'a str>, NoMemory>
    ensures { IfOk result (λ v. map (λ s. s.now) v.items ≡ texts.now) }
{
    let mut lent = Vec::new(alloc);
    for text in texts {
        lent.push(text.as_str())?;
    }
    Ok(lent)
}

fn lent_ids<'a>(alloc: Global, ids: &'a [Id]) -> Result<Vec<&'a str>, NoMemory>
    ensures { IfOk result (λ v. map (λ s. s.now) v.items ≡ ids.now) }
{
    let mut lent = Vec::new(alloc);
    for id in ids {
        lent.push(id.as_str())?;
    }
    Ok(lent)
}

fn joined(alloc: Global, items: &[&str]) -> Result<String, NoMemory>
    ensures { IfOk result (λ s. string_bytes s ≡ join_with_byte comma (map (λ i. i.now) items.now)) }
{
    Ok(items.join(alloc, ",")?)
}

fn joined_user_ids(alloc: Global, ids: &[UserId]) -> Result<String, NoMemory>
    ensures { IfOk result (λ s. string_bytes s ≡ join_with_byte comma (map user_id_text ids.now)) }
{
    let texts = user_id_texts(alloc, ids)?;
    Ok(texts.as_slice().join(alloc, ",")?)
}

/// The text of a cell that holds a value: lists with commas between their items.
#[tactic(auto, unfolding(roster_values::specs::CellText::cell_text))]
pub fn cell_text(alloc: Global, value: ValueRef<'_>) -> Result<String, NoMemory>
    requires { has_short_year (shown value) ≡ true }
    ensures { IfOk result (λ s. string_bytes s ≡ cell_text (shown value.entry)) }
{
    match value {
        ValueRef::Text(text) => Ok(String::from_str(alloc, text.as_str())?),
        ValueRef::Id(id) => Ok(String::from_str(alloc, id.as_str())?),
        ValueRef::Day(day) => Ok(day.text(alloc)?.into_string()),
        ValueRef::Moment(moment) => Ok(moment.text(alloc)?.into_string()),
        ValueRef::Number(number) => number_text(alloc, *number),
        ValueRef::Year(year) => year_text(alloc, *year),
        ValueRef::Flag(flag) => Ok(String::from_str(alloc, flag_text(*flag))?),
        ValueRef::Word(word) => Ok(String::from_str(alloc, word)?),
        ValueRef::Texts(texts) => joined(alloc, lent_texts(alloc, texts.as_slice())?.as_slice()),
        ValueRef::UserIds(ids) => joined_user_ids(alloc, ids.as_slice()),
        ValueRef::Ref(id) => Ok(String::from_str(alloc, id.as_str())?),
        ValueRef::Refs(ids) => joined(alloc, lent_ids(alloc, ids.as_slice())?.as_slice()),
    }
}
