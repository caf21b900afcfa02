//! The tokens that callers present.

ghost use Rattle.std.specs.Prelude.{◌≡◌, true, false, ℕ, IfOk, IfSome, MatchOption, List, None, Some, if◌then◌else◌};
ghost use Rattle.std.specs.Prelude.{length};
ghost use Rattle.std.specs.String.{string_bytes};
ghost use Rattle.roster_texts.specs.Texts.{is_padding, is_token, is_token_byte, token_body};

use roster_base::{NoMemory, TryCopy};
use std::alloc::Global;
use std::marker::Model;
use std::str;

/// A bearer token as RFC 6750 writes one: letters and digits of ASCII and `-._~+/`, at least one, and then any number
/// of `=`, at most 256 in all. A clause sees its bytes.
#[derive(Drop)]
pub struct Token {
    text: String,
}

impl Model for Token {
    ghost Value = { List ℕ };

    ghost view = { λ t. string_bytes t.text };

    ghost invariant = { λ t. is_token (string_bytes t.text) ≡ true };
}

impl Token {
    /// The text as a token, if it is one.
    pub fn read(alloc: Global, text: &str) -> Result<Option<Token>, NoMemory>
        ensures { IfOk result (λ o. MatchOption o (is_token text.now ≡ false)
            (λ t. (is_token text.now ≡ true) × (t ≡ text.now))) }
    {
        if !Token::is_good(text) {
            return Ok(None);
        }
        Ok(Some(Token {
            text: String::from_str(alloc, text)?,
        }))
    }

    /// The bytes as a token, if they are one.
    #[tactic(auto, using(crate::proofs::TokenLemmas::token_is_text))]
    pub fn from_bytes(alloc: Global, bytes: &[u8]) -> Result<Option<Token>, NoMemory>
        ensures value { IfOk result (λ o. o ≡ (if is_token bytes.now then Some bytes.now else None)) }
        ensures same { IfOk result (λ o. IfSome o (λ token. token ≡ bytes.now)) }
    {
        match str::from_utf8(bytes) {
            Ok(text) => Token::read(alloc, text),
            Err(_) => Ok(None),
        }
    }

    /// Whether the text is a token.
    pub fn is_good(text: &str) -> bool
        ensures { result ≡ is_token text.now }
    {
        let bytes = text.as_bytes();
        let body = Token::body_length(bytes);
        if body == 0 || bytes.len() > 256 {
            return false;
        }
        Token::is_all_padding(&bytes[body..])
    }

    fn body_length(bytes: &[u8]) -> usize
        ensures { result ≡ length (token_body bytes.now) }
    {
        bytes
            .iter()
            .take_while(|&&b| Token::is_body_byte(b))
            .count()
    }

    fn is_body_byte(b: u8) -> bool
        ensures { result ≡ is_token_byte b }
    {
        b.is_ascii_alphanumeric()
            || b == b'-'
            || b == b'.'
            || b == b'_'
            || b == b'~'
            || b == b'+'
            || b == b'/'
    }

    fn is_all_padding(bytes: &[u8]) -> bool
        ensures { result ≡ is_padding bytes.now }
    {
        bytes.iter().all(|&b| b == b'=')
    }

    /// The token as a text.
    pub fn as_str(&self) -> &str
        ensures text { result.now ≡ self.now }
        ensures good { is_token self.now ≡ true }
    {
        self.text.as_str()
    }
}

impl TryCopy for Token {
    fn copy(&self, alloc: Global) -> Result<Token, NoMemory> {
        Ok(Token {
            text: String::from_str(alloc, self.text.as_str())?,
        })
    }
}
