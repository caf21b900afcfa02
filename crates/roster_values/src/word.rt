//! Listed words.

ghost use Rattle.std.specs.Prelude.{◌≡◌};

use std::marker::Model;

/// One of the words that a field lists, as it stands in the program; no memory is taken. A clause sees its bytes.
#[derive(Drop)]
pub struct Word {
    text: &'static str,
}

impl Model for Word {
    ghost use Rattle.std.specs.Prelude.{ℕ, List};

    ghost Value = { List ℕ };

    ghost view = { λ w. w.text.now };
}

impl Word {
    /// The word with this text.
    pub fn new(text: &'static str) -> Word
        ensures { result ≡ text.now }
    {
        Word { text }
    }

    /// Its text.
    pub fn as_str(&self) -> &'static str
        ensures { result.now ≡ self.now }
    {
        self.text
    }
}
