//! The words of a server.

ghost use Rattle.std.specs.Prelude.{◌≡◌, ◌+◌, ◌<◌, ◌≤◌, ◌^◌, IfOk, length, map, string_bytes};
ghost use Rattle.roster_base.specs.Reading.{Gives};
ghost use Rattle.hub_words.specs.Words as spec;

use crate::commands::{feeds_at, number_to};
use crate::options::first_options;
use crate::task::ServeTask;
use crate::words::{ServeWords, WordError};
use roster_base::{Items, NoMemory, Refusal, Text};
use std::alloc::Global;

/// How many connections are served at an address at most.
const LARGEST_CONNECTIONS: u32 = 1_000_000;

// Whether a word may be an address.
#[tactic(auto, unfolding(crate::specs::Words::is_address))]
fn is_address(word: &str) -> bool
    ensures { result ≡ spec.is_address word.now }
{
    !word.is_empty() && !word.as_bytes().contains(&b'=')
}

// How many words in front are addresses.
fn address_count(words: &[String]) -> usize
    ensures count { result ≡ spec.address_count (map string_bytes words.now) }
    ensures within { result ≤ length words.now }
{
    match words.split_first() {
        Some((word, words)) if is_address(word.as_str()) => 1 + address_count(words),
        _ => 0,
    }
}

// The texts of words.
fn texts_of(alloc: Global, words: &[String]) -> Result<Items<Text>, NoMemory>
    ensures { IfOk result (λ texts. texts ≡ map string_bytes words.now) }
{
    let mut texts = Vec::with_capacity(alloc, words.len())?;
    for word in words {
        texts.push(Text::new(alloc, word.as_str())?)?;
    }
    Ok(Items::from_vec(texts))
}

// The addresses and the feeds from a place on.
fn listen(
    alloc: Global,
    place: usize,
    connections: u32,
    words: &[String],
) -> Result<ServeTask, WordError>
    requires { place + length words.now < 2 ^ 63 }
    ensures { Gives (λ t. t) result (spec.listen_words place connections (spec.address_count (map string_bytes words.now)) (map string_bytes words.now)) }
{
    let count = address_count(words);
    if count == 0 {
        return Err(Refusal::Fault(place));
    }
    let (addresses, feeds) = words.split_at(count);
    let feeds = Items::from_vec(feeds_at(alloc, place + count, feeds)?);
    let addresses = texts_of(alloc, addresses)?;
    Ok(ServeTask {
        connections,
        addresses,
        feeds,
    })
}

// The task of a server from a place on.
fn serve_at(alloc: Global, place: usize, words: &[String]) -> Result<ServeTask, WordError>
    requires { place + length words.now < 2 ^ 63 }
    ensures { Gives (λ t. t) result (spec.serve_words place (map string_bytes words.now)) }
{
    let Some((word, words)) = words.split_first() else {
        return Err(Refusal::Fault(place));
    };
    match number_to(LARGEST_CONNECTIONS, word.as_str()) {
        Some(connections) => listen(alloc, place + 1, connections, words),
        None => Err(Refusal::Fault(place)),
    }
}

// The task of the words from a place on, if they begin with `serve`.
fn serve_command(alloc: Global, place: usize, words: &[String]) -> Result<ServeTask, WordError>
    requires { place + length words.now < 2 ^ 63 }
    ensures { Gives (λ t. t) result (spec.serve_command place (map string_bytes words.now)) }
{
    match words.split_first() {
        Some((word, words)) if word.as_str() == "serve" => serve_at(alloc, place + 1, words),
        _ => Err(Refusal::Fault(place)),
    }
}

/// The options and the task of a server that words spell.
pub fn split_serve(alloc: Global, words: &[String]) -> Result<ServeWords, WordError>
    ensures { Gives (λ s. s) result (spec.split_serve (map string_bytes words.now)) }
{
    let (options, place) = first_options(alloc, words)?;
    let (_, behind) = words.split_at(place);
    let task = serve_command(alloc, place, behind)?;
    Ok(ServeWords { options, task })
}

/// Whether the command of words is `serve`, whatever follows it.
pub fn names_serve(alloc: Global, words: &[String]) -> bool {
    match first_options(alloc, words) {
        Ok((_, place)) => matches!(words.get(place), Some(word) if word.as_str() == "serve"),
        Err(_) => false,
    }
}
