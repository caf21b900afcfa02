//! User ids: what other systems call a user.

ghost use Rattle.std.specs.Prelude.{◌≡◌, true, IfOk};
ghost use Rattle.std.specs.List.{list_all};
ghost use Rattle.roster_base.specs.Reading.{Gives};
ghost use Rattle.roster_values.specs.Lists.{read_all, user_id_in, user_id_of, user_ids_of};
ghost use Rattle.roster_values.specs.UserIds.{inner, is_braced, is_identifier, is_identifier_byte, is_type};
ghost use Rattle.roster_values.specs.UserIds.{is_type_byte, user_id_from};

use crate::fault::ValueError;
use crate::lists::read_items;
use roster_base::{Items, NoMemory, Refusal, Text, TryCopy};
use roster_texts::ValueFault;
use roster_texts::trim::{has_plain_ends, trim_spaces};
use std::alloc::Global;
use std::marker::Model;

/// A user id, as OneRoster writes it in a cell: `{type:identifier}`, where the type says whose id it is.
///
/// Neither part is empty, has a space at an end, or has a comma or a brace. The type has no colon.
/// A clause sees the bytes of the two parts.
#[derive(Drop)]
pub struct UserId {
    form: String,
    identifier: String,
}

impl Model for UserId {
    ghost use Rattle.std.specs.Prelude.{◌≡◌, true, string_bytes};
    ghost use Rattle.roster_values.specs.UserIds.{is_user_id, UserIdParts};

    ghost Value = { UserIdParts };

    ghost view = { λ u. record { form = string_bytes u.form; identifier = string_bytes u.identifier } };

    ghost invariant = { λ u. is_user_id (string_bytes u.form) (string_bytes u.identifier) ≡ true };
}

/// A list of user ids. A clause sees the list of their parts.
pub type UserIds = Items<UserId>;

impl UserId {
    /// The user id of a type and an identifier, if they may be one.
    #[tactic(auto, unfolding(crate::specs::UserIds::user_id_from))]
    pub fn read(alloc: Global, form: &str, identifier: &str) -> Result<Option<UserId>, NoMemory>
        ensures { IfOk result (λ o. o ≡ user_id_from form.now identifier.now) }
    {
        if !is_type(form.as_bytes()) || !is_identifier(identifier.as_bytes()) {
            return Ok(None);
        }
        Ok(Some(UserId {
            form: String::from_str(alloc, form)?,
            identifier: String::from_str(alloc, identifier)?,
        }))
    }

    /// The type: whose id it is.
    pub fn form(&self) -> &str
        ensures text { result.now ≡ self.now.form }
        ensures good { is_type result.now ≡ true }
    {
        self.form.as_str()
    }

    /// What that system calls the user.
    pub fn identifier(&self) -> &str
        ensures text { result.now ≡ self.now.identifier }
        ensures good { is_identifier result.now ≡ true }
    {
        self.identifier.as_str()
    }
}

impl TryCopy for UserId {
    fn copy(&self, alloc: Global) -> Result<UserId, NoMemory> {
        Ok(UserId {
            form: String::from_str(alloc, self.form.as_str())?,
            identifier: String::from_str(alloc, self.identifier.as_str())?,
        })
    }
}

fn is_type(bytes: &[u8]) -> bool
    ensures { result ≡ is_type bytes.now }
{
    if bytes.is_empty() {
        return false;
    }
    has_type_bytes(bytes) && has_plain_ends(bytes)
}

fn is_identifier(bytes: &[u8]) -> bool
    ensures { result ≡ is_identifier bytes.now }
{
    if bytes.is_empty() {
        return false;
    }
    has_identifier_bytes(bytes) && has_plain_ends(bytes)
}

fn has_type_bytes(bytes: &[u8]) -> bool
    ensures { result ≡ list_all is_type_byte bytes.now }
{
    bytes
        .iter()
        .all(|&b| b != b':' && b != b',' && b != b'{' && b != b'}')
}

fn has_identifier_bytes(bytes: &[u8]) -> bool
    ensures { result ≡ list_all is_identifier_byte bytes.now }
{
    bytes.iter().all(|&b| b != b',' && b != b'{' && b != b'}')
}

/// The user id that a text writes as `{type:identifier}`, cut at the first colon, without the spaces at the ends of
/// either part. Any other text is `BadList`.
#[tactic(auto, unfolding(crate::specs::Lists::user_id_of))]
pub fn read_user_id(alloc: Global, text: &str) -> Result<UserId, ValueError>
    ensures { Gives (λ u. u) result (user_id_of text.now) }
{
    if !is_in_braces(text.as_bytes()) {
        return Err(Refusal::Fault(ValueFault::BadList));
    }
    read_pair(alloc, between_braces(text))
}

fn is_in_braces(text: &[u8]) -> bool
    ensures { result ≡ is_braced text.now }
{
    if text.len() < 2 {
        return false;
    }
    text[0] == b'{' && text[text.len() - 1] == b'}'
}

fn between_braces(text: &str) -> &str
    requires { is_braced text.now ≡ true }
    ensures { result.now ≡ inner text.now }
{
    &text[1..text.len() - 1]
}

#[tactic(auto, unfolding(crate::specs::Lists::user_id_in))]
fn read_pair(alloc: Global, text: &str) -> Result<UserId, ValueError>
    ensures { Gives (λ u. u) result (user_id_in text.now) }
{
    let Some((form, identifier)) = text.split_once(':') else {
        return Err(Refusal::Fault(ValueFault::BadList));
    };
    let user_id = UserId::read(alloc, trim_spaces(form), trim_spaces(identifier))?;
    user_id.ok_or(Refusal::Fault(ValueFault::BadList))
}

/// The user ids of a list, between commas: the fault is the first item's that is no user id.
#[tactic(auto, unfolding(crate::specs::Lists::user_ids_of))]
pub fn read_user_ids(alloc: Global, text: &str) -> Result<UserIds, ValueError>
    ensures { Gives (λ us. us) result (user_ids_of text.now) }
{
    let items = read_items(alloc, text)?;
    user_ids_of_items(alloc, items.as_slice())
}

fn user_ids_of_items(alloc: Global, items: &[Text]) -> Result<UserIds, ValueError>
    ensures { Gives (λ us. us) result (read_all user_id_of items.now) }
{
    let mut user_ids = Items::new(alloc);
    for item in items {
        let user_id = read_user_id(alloc, item.as_str())?;
        user_ids.push(user_id)?;
    }
    Ok(user_ids)
}
