//! Grants, read back from their items.

ghost use Rattle.std.specs.Prelude.{◌≡◌, ◌∷◌, ◌++◌, ◌<◌, ◌^◌, ℕ, List, IfOk, IfSome, length, map};
ghost use Rattle.std.specs.List.{AllByRecursion};
ghost use Rattle.item_maps.specs.Edits.{entry_of};
ghost use Rattle.version_core.specs.declared.grant_row.GrantRow.{GrantRow as GrantValue};
ghost use Rattle.hub_format.specs.Format.{FitsGrant, grant_entry, grants_under};
ghost use Rattle.hub_format.specs.Pieces.{AreSized, IsSized, all_sized, caller_label, grant_body, schools_bytes, sized};
ghost use Rattle.hub_format.specs.Behind.{entry_behind, own_entry};

use crate::reading::{NUMBER_SIZE, behind, id_of, name_of, number_at, only_number, sized_at};
use grant_scopes::{Grant, SchoolList, Schools, Scopes};
use item_maps::Item;
use roster_base::{Items, NoMemory};
use roster_texts::{Id, Token};
use std::alloc::Global;
use version_core::grant_row::GrantRow;

// The caller of a label that has no number in front.
fn caller_in(label: &[u8]) -> Option<&[u8]>
    ensures { IfSome result (λ caller. label.now ≡ caller_label caller.now) }
{
    let (zero, caller) = label.split_last()?;
    if *zero == 0 { Some(caller) } else { None }
}

/// The id in front, without its length, and what stands behind it. None where no id stands there.
pub fn id_at(alloc: Global, bytes: &[u8]) -> Result<Option<(Id, &[u8])>, NoMemory>
    ensures id { IfOk result (λ o. IfSome o (λ p. bytes.now ≡ sized p.0 ++ p.1.now)) }
    ensures small { IfOk result (λ o. IfSome o (λ p. IsSized p.0)) }
{
    let Some((text, rest)) = sized_at(bytes) else {
        return Ok(None);
    };
    match id_of(alloc, text)? {
        Some(id) => Ok(Some((id, rest))),
        None => Ok(None),
    }
}

// The `count` ids in front, each behind its length, and what stands behind them.
fn ids_at(alloc: Global, count: u64, bytes: &[u8]) -> Result<Option<(Vec<Id>, &[u8])>, NoMemory>
    ensures ids { IfOk result (λ o. IfSome o (λ p. bytes.now ≡ all_sized p.0.items ++ p.1.now)) }
    ensures count { IfOk result (λ o. IfSome o (λ p. length p.0.items ≡ count)) }
    ensures small { IfOk result (λ o. IfSome o (λ p. AllByRecursion IsSized p.0.items)) }
{
    let mut ids = Vec::new(alloc);
    let mut rest = bytes;
    let mut left = count;
    while left > 0 {
        left -= 1;
        let Some((id, later)) = id_at(alloc, rest)? else {
            return Ok(None);
        };
        ids.push(id)?;
        rest = later;
    }
    Ok(Some((ids, rest)))
}

// Schools that are listed, behind the byte that says so, and what stands behind them.
fn listed_at(alloc: Global, bytes: &[u8]) -> Result<Option<(Schools, &[u8])>, NoMemory>
    ensures schools { IfOk result (λ o. IfSome o (λ p. 1 ∷ bytes.now ≡ schools_bytes p.0 ++ p.1.now)) }
    ensures small { IfOk result (λ o. IfSome o (λ p. AreSized p.0)) }
{
    let Some((count, rest)) = number_at(bytes) else {
        return Ok(None);
    };
    let Some((ids, rest)) = ids_at(alloc, count, rest)? else {
        return Ok(None);
    };
    match SchoolList::of_rising(Items::from_vec(ids)) {
        Some(list) => Ok(Some((Schools::Listed(list), rest))),
        None => Ok(None),
    }
}

// The schools in front, and what stands behind them.
fn schools_at(alloc: Global, bytes: &[u8]) -> Result<Option<(Schools, &[u8])>, NoMemory>
    ensures schools { IfOk result (λ o. IfSome o (λ p. bytes.now ≡ schools_bytes p.0 ++ p.1.now)) }
    ensures small { IfOk result (λ o. IfSome o (λ p. AreSized p.0)) }
{
    let Some((byte, rest)) = bytes.split_first() else {
        return Ok(None);
    };
    match *byte {
        0 => Ok(Some((Schools::All, rest))),
        1 => listed_at(alloc, rest),
        _ => Ok(None),
    }
}

// The token and the scopes in front of a grant's body, and what stands behind them.
fn token_at(alloc: Global, body: &[u8]) -> Result<Option<(Token, Scopes, &[u8])>, NoMemory>
    ensures parts { IfOk result (λ o. IfSome o (λ p. body.now ≡ sized p.0 ++ (p.1 ∷ p.2.now))) }
    ensures small { IfOk result (λ o. IfSome o (λ p. IsSized p.0)) }
{
    let Some((text, rest)) = sized_at(body) else {
        return Ok(None);
    };
    let Some((bits, rest)) = rest.split_first() else {
        return Ok(None);
    };
    let Some(scopes) = Scopes::from_bits(*bits) else {
        return Ok(None);
    };
    match Token::from_bytes(alloc, text)? {
        Some(token) => Ok(Some((token, scopes, rest))),
        None => Ok(None),
    }
}

// What a body grants.
fn grant_of_body(alloc: Global, body: &[u8]) -> Result<Option<Grant>, NoMemory>
    ensures grant { IfOk result (λ o. IfSome o (λ grant. body.now ≡ grant_body grant)) }
    ensures token { IfOk result (λ o. IfSome o (λ grant. IsSized grant.token)) }
    ensures schools { IfOk result (λ o. IfSome o (λ grant. AreSized grant.schools)) }
    ensures since { IfOk result (λ o. IfSome o (λ grant. grant.since < 2 ^ 64)) }
{
    let Some((token, scopes, rest)) = token_at(alloc, body)? else {
        return Ok(None);
    };
    let Some((schools, rest)) = schools_at(alloc, rest)? else {
        return Ok(None);
    };
    match only_number(rest) {
        Some(since) => Ok(Some(Grant {
            token,
            scopes,
            schools,
            since,
        })),
        None => Ok(None),
    }
}

// The grant of an item, whose label has a version's number in front. None where it is no grant's item.
fn grant_of(alloc: Global, item: &Item) -> Result<Option<GrantRow>, NoMemory>
    ensures found { (version : ℕ) (row : GrantValue) → FitsGrant row → entry_of item.now ≡ grant_entry version row
        → IfOk result (λ o. IfSome o (λ found. found ≡ row)) }
    ensures whole { IfOk result (λ o. IfSome o (λ found. entry_behind item.now ≡ own_entry found)) }
{
    let Some(caller) = caller_in(behind(item.label.as_slice(), NUMBER_SIZE)) else {
        return Ok(None);
    };
    let Some(caller) = name_of(alloc, caller)? else {
        return Ok(None);
    };
    match grant_of_body(alloc, item.body.as_slice())? {
        Some(grant) => Ok(Some(GrantRow { caller, grant })),
        None => Ok(None),
    }
}

/// The grants of items behind a version's number. None where one is no grant's item.
pub fn grants_of(alloc: Global, items: &[Item]) -> Result<Option<Vec<GrantRow>>, NoMemory>
    ensures found { (version : ℕ) (grants : List GrantValue) → AllByRecursion FitsGrant grants
        → map entry_of items.now ≡ grants_under version grants
        → IfOk result (λ o. IfSome o (λ found. found.items ≡ grants)) }
    ensures whole { IfOk result (λ o. IfSome o (λ found. map entry_behind items.now ≡ map own_entry found.items)) }
{
    let mut found = Vec::new(alloc);
    for item in items {
        let Some(grant) = grant_of(alloc, item)? else {
            return Ok(None);
        };
        found.push(grant)?;
    }
    Ok(Some(found))
}
