//! The words of a text that names scopes.

ghost use Rattle.std.specs.Prelude.{◌≡◌, ◌<◌, ◌^◌, ◌&&◌, ◌||◌, bytes_eq, length, map, not, option_copied};
ghost use Rattle.std.specs.List.{list_all, list_any};
ghost use Rattle.roster_values.specs.Lists.{is_filled};
ghost use Rattle.grant_scopes.specs.Infos.{scope_of};
ghost use Rattle.grant_scopes.specs.Words.{behind, bits_among, is_named, is_scope, last_word, words_of};

use crate::scope_info::ScopeInfo;

// What stands in front of the last word in the URI of a scope.
const SCOPE_BASE: &str = "https://purl.imsglobal.org/spec/or/v1p1/scope/";

// What stands behind a text at the front of another.
fn behind<'t>(front: &str, text: &'t str) -> Option<&'t str>
    ensures { option_copied result ≡ behind front.now text.now }
{
    text.strip_prefix(front)
}

// The last word of a scope, where the whole URI stands or that word alone.
fn last_word(text: &str) -> &str
    ensures { result.now ≡ last_word text.now }
{
    behind(SCOPE_BASE, text).unwrap_or(text)
}

fn has_word(scopes: &[ScopeInfo], word: &str) -> bool
    ensures { result ≡ list_any (λ s. bytes_eq s.word.now word.now) scopes.now }
{
    scopes.iter().any(|scope| scope.word == word)
}

fn is_scope(word: &str) -> bool
    ensures { result ≡ is_scope word.now }
{
    has_word(ScopeInfo::all(), word)
}

// Whether what stands between two spaces is this word.
fn is_word(piece: &str, word: &str) -> bool
    ensures { result ≡ (is_filled piece.now && bytes_eq word.now (last_word piece.now)) }
{
    !piece.is_empty() && word == last_word(piece)
}

// Whether what stands between two spaces is a scope, or nothing.
fn is_scope_or_empty(piece: &str) -> bool
    ensures { result ≡ (not (is_filled piece.now) || is_scope (last_word piece.now)) }
{
    piece.is_empty() || is_scope(last_word(piece))
}

// Whether the scope stands among the words of a text.
fn is_named(text: &str, scope: &ScopeInfo) -> bool
    ensures { result ≡ is_named (words_of text.now) (scope_of scope.now) }
{
    text.split(' ').any(|piece| is_word(piece, scope.word))
}

/// Whether each word of a text is a scope.
pub(crate) fn are_scopes(text: &str) -> bool
    ensures { result ≡ list_all is_scope (words_of text.now) }
{
    text.split(' ').all(|piece| is_scope_or_empty(piece))
}

/// The bits of the scopes that stand among the words of a text, from bit 0 on.
pub(crate) fn bits_among(scopes: &[ScopeInfo], text: &str) -> u8
    requires { length scopes.now < 8 }
    ensures value { result ≡ bits_among (map scope_of scopes.now) (words_of text.now) }
    ensures small { result < 2 ^ length scopes.now }
{
    let Some((first, rest)) = scopes.split_first() else {
        return 0;
    };
    u8::from(is_named(text, first)) + 2 * bits_among(rest, text)
}
