//! The options, which stand before a command.

ghost use Rattle.std.specs.Prelude.{◌≡◌, ◌+◌, ◌<◌, ◌≤◌, ◌^◌, IfOk, length, map, string_bytes};
ghost use Rattle.roster_base.specs.Reading.{Gives};
ghost use Rattle.hub_words.specs.Words as spec;

use crate::commands::number_to;
use crate::words::{LARGEST_KEEP, OptionWord, Options, WordError};
use roster_base::{Refusal, Text};
use std::alloc::Global;

// The option that a word names, if it isn't given yet.
#[tactic(auto, unfolding(crate::specs::Words::option_of))]
fn option_of(options: &Options, word: &str) -> Option<OptionWord>
    ensures { result ≡ spec.option_of options.now word.now }
{
    if word == "--folder" && options.folder.is_none() {
        return Some(OptionWord::Folder);
    }
    if word == "--store" && options.store.is_none() {
        return Some(OptionWord::Store);
    }
    if word == "--peer" && options.peer.is_none() {
        return Some(OptionWord::Peer);
    }
    if word == "--keep" && options.keep.is_none() {
        return Some(OptionWord::Keep);
    }
    None
}

// The text of an option's value, if the word for it isn't empty.
fn filled(alloc: Global, place: usize, value: &str) -> Result<Text, WordError>
    ensures { Gives (λ t. t) result (spec.filled place value.now) }
{
    if value.is_empty() {
        return Err(Refusal::Fault(place));
    }
    Ok(Text::new(alloc, value)?)
}

// The options with the folder that a word names.
fn with_folder(
    alloc: Global,
    place: usize,
    options: Options,
    value: &str,
) -> Result<Options, WordError>
    ensures { Gives (λ o. o) result (spec.with_folder place options value.now) }
{
    let folder = Some(filled(alloc, place, value)?);
    Ok(Options { folder, ..options })
}

// The options with the folder of a store that a word names.
fn with_store(
    alloc: Global,
    place: usize,
    options: Options,
    value: &str,
) -> Result<Options, WordError>
    ensures { Gives (λ o. o) result (spec.with_store place options value.now) }
{
    let store = Some(filled(alloc, place, value)?);
    Ok(Options { store, ..options })
}

// The options with the address that a word names.
fn with_peer(
    alloc: Global,
    place: usize,
    options: Options,
    value: &str,
) -> Result<Options, WordError>
    ensures { Gives (λ o. o) result (spec.with_peer place options value.now) }
{
    let peer = Some(filled(alloc, place, value)?);
    Ok(Options { peer, ..options })
}

// The options with as many versions to keep as a word says.
fn with_keep(place: usize, options: Options, value: &str) -> Result<Options, WordError>
    ensures { Gives (λ o. o) result (spec.with_keep place options (spec.number_to spec.largest_keep value.now)) }
{
    match number_to(LARGEST_KEEP, value) {
        Some(keep) => Ok(Options {
            keep: Some(keep),
            ..options
        }),
        None => Err(Refusal::Fault(place)),
    }
}

// The options with one more, whose value stands at a place.
fn set_option(
    alloc: Global,
    place: usize,
    options: Options,
    option: OptionWord,
    value: &str,
) -> Result<Options, WordError>
    ensures { Gives (λ o. o) result (spec.set_option place options option value.now) }
{
    match option {
        OptionWord::Folder => with_folder(alloc, place, options, value),
        OptionWord::Store => with_store(alloc, place, options, value),
        OptionWord::Peer => with_peer(alloc, place, options, value),
        OptionWord::Keep => with_keep(place, options, value),
    }
}

// The options from a place on, each at most once, and the place of the command behind them.
fn options_at(
    alloc: Global,
    place: usize,
    options: Options,
    words: &[String],
) -> Result<(Options, usize), WordError>
    requires { place + length words.now < 2 ^ 63 }
    ensures given { Gives (λ o. o) result (spec.option_words place options (map string_bytes words.now)) }
    ensures within { IfOk result (λ o. o.1 ≤ place + length words.now) }
{
    let Some((word, behind)) = words.split_first() else {
        return Ok((options, place));
    };
    let Some(option) = option_of(&options, word.as_str()) else {
        return Ok((options, place));
    };
    let Some((value, behind)) = behind.split_first() else {
        return Err(Refusal::Fault(place + 1));
    };
    let options = set_option(alloc, place + 1, options, option, value.as_str())?;
    options_at(alloc, place + 2, options, behind)
}

/// The options that stand first, and the place of the command behind them.
pub(crate) fn first_options(alloc: Global, words: &[String]) -> Result<(Options, usize), WordError>
    ensures given { Gives (λ o. o) result (spec.option_words 0 spec.no_options (map string_bytes words.now)) }
    ensures within { IfOk result (λ o. o.1 ≤ length words.now) }
{
    let none = Options {
        folder: None,
        store: None,
        peer: None,
        keep: None,
    };
    options_at(alloc, 0, none, words)
}
