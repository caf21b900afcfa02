//! The names of feeds and callers.

ghost use Rattle.std.specs.Prelude.{◌≡◌, true, false, ℕ, IfOk, MatchOption, List};
ghost use Rattle.std.specs.List.{list_all};
ghost use Rattle.std.specs.Arc.{arc_str_bytes};
ghost use Rattle.roster_texts.specs.Texts.{is_name, is_name_byte};

use roster_base::{NoMemory, Same, TryCopy};
use std::alloc::Global;
use std::marker::Model;
use std::sync::ArcStr;

/// The most bytes of a name.
const LONGEST: usize = 64;

/// The name of a feed or a caller: 1 to 64 letters and digits of ASCII, dots, underscores and dashes.
/// A clause sees its bytes. Copies share one text, since every stored row keeps its owner's name.
#[derive(Drop)]
pub struct Name {
    text: ArcStr<Global>,
}

impl Model for Name {
    ghost Value = { List ℕ };

    ghost view = { λ n. arc_str_bytes n.text };

    ghost invariant = { λ n. is_name (arc_str_bytes n.text) ≡ true };
}

impl Name {
    /// The text as a name, if it is one.
    pub fn read(alloc: Global, text: &str) -> Result<Option<Name>, NoMemory>
        ensures { IfOk result (λ o. MatchOption o (is_name text.now ≡ false)
            (λ n. (is_name text.now ≡ true) × (n ≡ text.now))) }
    {
        if !Name::is_good(text) {
            return Ok(None);
        }
        Ok(Some(Name {
            text: ArcStr::from_str(alloc, text)?,
        }))
    }

    /// Whether the text is a name.
    pub fn is_good(text: &str) -> bool
        ensures { result ≡ is_name text.now }
    {
        let bytes = text.as_bytes();
        if bytes.is_empty() || bytes.len() > LONGEST {
            return false;
        }
        Name::has_name_bytes(bytes)
    }

    fn has_name_bytes(bytes: &[u8]) -> bool
        ensures { result ≡ list_all is_name_byte bytes.now }
    {
        bytes.iter().all(|&b| b.is_ascii_alphanumeric() || b == b'.' || b == b'_' || b == b'-')
    }

    /// The name as a text.
    pub fn as_str(&self) -> &str
        ensures text { result.now ≡ self.now }
        ensures good { is_name self.now ≡ true }
    {
        self.text.as_str()
    }
}

impl TryCopy for Name {
    fn copy(&self, _alloc: Global) -> Result<Name, NoMemory> {
        Ok(Name {
            text: self.text.clone()?,
        })
    }
}

impl Same for Name {
    fn is_same(&self, other: &Name) -> bool {
        self.as_str() == other.as_str()
    }
}
