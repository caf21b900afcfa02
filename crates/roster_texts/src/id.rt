//! The ids of records.

ghost use Rattle.std.specs.Prelude.{◌≡◌, true, false, ℕ, IfOk, MatchOption, List};
ghost use Rattle.std.specs.List.{list_all};
ghost use Rattle.std.specs.Arc.{arc_str_bytes};
ghost use Rattle.roster_texts.specs.Texts.{is_id, is_id_byte};

use roster_base::{NoMemory, Same, TryCopy};
use std::alloc::Global;
use std::marker::Model;
use std::sync::ArcStr;

/// A sourcedId: 1 to 255 bytes, no control character, no comma, and no space at either end.
/// A clause sees its bytes. Copies share one text: those of a metadata column's key in each row, and of a row in each
/// index.
#[derive(Drop)]
pub struct Id {
    text: ArcStr<Global>,
}

impl Model for Id {
    ghost Value = { List ℕ };

    ghost view = { λ i. arc_str_bytes i.text };

    ghost invariant = { λ i. is_id (arc_str_bytes i.text) ≡ true };
}

impl Id {
    /// The text as an id, if it is one.
    pub fn read(alloc: Global, text: &str) -> Result<Option<Id>, NoMemory>
        ensures { IfOk result (λ o. MatchOption o (is_id text.now ≡ false)
            (λ i. (is_id text.now ≡ true) × (i ≡ text.now))) }
    {
        if !Id::is_good(text) {
            return Ok(None);
        }
        Ok(Some(Id {
            text: ArcStr::from_str(alloc, text)?,
        }))
    }

    /// Whether the text is an id.
    pub fn is_good(text: &str) -> bool
        ensures { result ≡ is_id text.now }
    {
        let bytes = text.as_bytes();
        if bytes.is_empty() || bytes.len() > 255 {
            return false;
        }
        let last = bytes[bytes.len() - 1];
        Id::has_plain_bytes(bytes) && bytes[0] != b' ' && last != b' '
    }

    fn has_plain_bytes(bytes: &[u8]) -> bool
        ensures { result ≡ list_all is_id_byte bytes.now }
    {
        bytes.iter().all(|&b| b >= b' ' && b != 127 && b != b',')
    }

    /// The id as a text.
    pub fn as_str(&self) -> &str
        ensures text { result.now ≡ self.now }
        ensures good { is_id self.now ≡ true }
    {
        self.text.as_str()
    }
}

impl TryCopy for Id {
    fn copy(&self, _alloc: Global) -> Result<Id, NoMemory> {
        Ok(Id {
            text: self.text.clone()?,
        })
    }
}

impl Same for Id {
    fn is_same(&self, other: &Id) -> bool {
        self.as_str() == other.as_str()
    }
}
