//! The token under which what is held was copied, read back from its item.

ghost use Rattle.std.specs.Prelude.{◌≡◌, [], List, ℕ, IfOk, IfSome, Option, map};
ghost use Rattle.item_maps.specs.Edits.{entry_of};
ghost use Rattle.copy_format.specs.Format.{token_entries};

use crate::reading::bare_body;
use item_maps::Item;
use roster_base::NoMemory;
use roster_texts::Token;
use std::alloc::Global;

// The token of an item, if it has one.
fn token_of_item(alloc: Global, item: &Item) -> Result<Option<Token>, NoMemory>
    ensures { IfOk result (λ o. IfSome o (λ token. entry_of item.now ≡ ([], token))) }
{
    match bare_body(item) {
        Some(body) => Token::from_bytes(alloc, body),
        None => Ok(None),
    }
}

/// The token, where there is one, from its items. None where they are no token's.
pub fn token_of(alloc: Global, items: &[Item]) -> Result<Option<Option<Token>>, NoMemory>
    ensures { (o : Option (List ℕ)) → map entry_of items.now ≡ token_entries o
        → IfOk result (λ r. IfSome r (λ found. found ≡ o)) }
{
    match items {
        [] => Ok(Some(None)),
        [item] => match token_of_item(alloc, item)? {
            Some(token) => Ok(Some(Some(token))),
            None => Ok(None),
        },
        _ => Ok(None),
    }
}
