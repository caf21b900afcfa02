//! The words of the commands.

ghost use Rattle.std.specs.Prelude.{◌≡◌, ◌+◌, ◌<◌, ◌≤◌, ◌^◌, ℕ, IfOk, IfSome, List, length, map, string_bytes};
ghost use Rattle.keeper_memory.specs.copy.Copies.{IsGradebook};
ghost use Rattle.roster_base.specs.Reading.{Gives};
ghost use Rattle.hub_words.specs.Words as spec;
ghost use Rattle.hub_words.specs.declared.words.Command.{Command as CommandValue};
ghost use Rattle.hub_words.specs.declared.words.Command.TheVariants.{Ask, Cascade, Grant, ListHeld, Rehearse, Show};
ghost use Rattle.hub_words.specs.declared.words.Command.TheVariants.{Sync, SyncDelta};

use crate::task::{Feed, GradebookObject, MakeTask, SendTask, SyncTask, is_gradebook};
use crate::words::{Command, EnterTask, WordError};
use roster_base::{Items, NoMemory, Refusal, Text};
use roster_texts::digits::number;
use roster_texts::{Id, Name, Token};
use roster_values::{Kind, Mode};
use std::alloc::Global;

/// How many rows a page has at most.
const LARGEST_LIMIT: u32 = 1_000;

/// How often a request is tried at most.
const LARGEST_TRIES: u32 = 100;

/// How many schools are made at most.
const LARGEST_COUNT: u32 = 200;

// A command whose words end here.
fn end(place: usize, command: Command, words: &[String]) -> Result<Command, WordError>
    ensures { Gives (λ c. c) result (spec.ended place command (map string_bytes words.now)) }
{
    if words.is_empty() {
        Ok(command)
    } else {
        Err(Refusal::Fault(place))
    }
}

fn show(place: usize, words: &[String]) -> Result<Command, WordError>
    requires { place + length words.now < 2 ^ 63 }
    ensures { Gives (λ c. c) result (spec.kind_words place Show (map string_bytes words.now)) }
{
    let Some((word, words)) = words.split_first() else {
        return Err(Refusal::Fault(place));
    };
    match Kind::read(word.as_str()) {
        Some(kind) => end(place + 1, Command::Show { kind }, words),
        None => Err(Refusal::Fault(place)),
    }
}

fn list(place: usize, words: &[String]) -> Result<Command, WordError>
    requires { place + length words.now < 2 ^ 63 }
    ensures { Gives (λ c. c) result (spec.kind_words place ListHeld (map string_bytes words.now)) }
{
    let Some((word, words)) = words.split_first() else {
        return Err(Refusal::Fault(place));
    };
    match Kind::read(word.as_str()) {
        Some(kind) => end(place + 1, Command::ListHeld { kind }, words),
        None => Err(Refusal::Fault(place)),
    }
}

/// Whether a word may name a file or a folder.
pub fn is_file_word(word: &str) -> bool
    ensures { result ≡ spec.is_file_word word.now }
{
    Name::is_good(word) && !word.starts_with('.')
}

/// A feed with this name and folder, if they are words for them.
pub fn feed_in(alloc: Global, name: &str, dir: &str) -> Result<Option<Feed>, NoMemory>
    ensures { IfOk result (λ o. o ≡ spec.feed_in name.now dir.now) }
{
    if !is_file_word(dir) {
        return Ok(None);
    }
    match Name::read(alloc, name)? {
        Some(name) => {
            let dir = Text::new(alloc, dir)?;
            Ok(Some(Feed { name, dir }))
        }
        None => Ok(None),
    }
}

// The feed that a word names with its folder.
#[tactic(auto, unfolding(crate::specs::Words::feed_of))]
fn feed_of(alloc: Global, word: &str) -> Result<Option<Feed>, NoMemory>
    ensures { IfOk result (λ o. o ≡ spec.feed_of word.now) }
{
    match word.split_once('=') {
        Some((name, dir)) => feed_in(alloc, name, dir),
        None => Ok(None),
    }
}

/// The feed that each word names.
pub(crate) fn feeds_at(
    alloc: Global,
    place: usize,
    words: &[String],
) -> Result<Vec<Feed>, WordError>
    requires { place + length words.now < 2 ^ 63 }
    ensures { Gives (λ v. v.items) result (spec.feed_words place (map string_bytes words.now)) }
{
    let mut feeds = Vec::new(alloc);
    for i in 0..words.len() {
        match feed_of(alloc, words[i].as_str())? {
            Some(feed) => feeds.push(feed)?,
            None => return Err(Refusal::Fault(place + i)),
        }
    }
    Ok(feeds)
}

fn publish(alloc: Global, place: usize, words: &[String]) -> Result<Command, WordError>
    requires { place + length words.now < 2 ^ 63 }
    ensures { Gives (λ c. c) result (spec.publish_words place (map string_bytes words.now)) }
{
    if words.is_empty() {
        return Err(Refusal::Fault(place));
    }
    let feeds = Items::from_vec(feeds_at(alloc, place, words)?);
    Ok(Command::Publish { feeds })
}

// The file that the last word names.
fn file_at(alloc: Global, place: usize, words: &[String]) -> Result<Text, WordError>
    requires { place + length words.now < 2 ^ 63 }
    ensures { (command : List ℕ → CommandValue) → Gives command result (spec.file_words place command (map string_bytes words.now)) }
{
    let Some((word, words)) = words.split_first() else {
        return Err(Refusal::Fault(place));
    };
    if !is_file_word(word.as_str()) {
        return Err(Refusal::Fault(place));
    }
    if !words.is_empty() {
        return Err(Refusal::Fault(place + 1));
    }
    Ok(Text::new(alloc, word.as_str())?)
}

fn grant(alloc: Global, place: usize, words: &[String]) -> Result<Command, WordError>
    requires { place + length words.now < 2 ^ 63 }
    ensures { Gives (λ c. c) result (spec.file_words place Grant (map string_bytes words.now)) }
{
    let file = file_at(alloc, place, words)?;
    Ok(Command::Grant { file })
}

fn ask(alloc: Global, place: usize, words: &[String]) -> Result<Command, WordError>
    requires { place + length words.now < 2 ^ 63 }
    ensures { Gives (λ c. c) result (spec.file_words place Ask (map string_bytes words.now)) }
{
    let file = file_at(alloc, place, words)?;
    Ok(Command::Ask { file })
}

// The number that a word writes, without a zero in front.
#[tactic(auto, unfolding(crate::specs::Words::number_in))]
fn number_in(word: &str) -> Option<u64>
    ensures { result ≡ spec.number_in word.now }
{
    let digits = word.as_bytes();
    match digits.first() {
        None | Some(b'0') => None,
        Some(_) if digits.len() > 12 => None,
        Some(_) => number(digits),
    }
}

/// The number from 1 to the most that a word writes.
pub fn number_to(most: u32, word: &str) -> Option<u32>
    ensures value { result ≡ spec.number_to most word.now }
    ensures some { IfSome result (λ n. 0 < n) }
    ensures few { IfSome result (λ n. n ≤ most) }
{
    match number_in(word) {
        Some(n) if 1 <= n && n <= most as u64 => Some(n as u32),
        _ => None,
    }
}

// How often a request is tried, which ends what is asked of a synchronisation, and the words behind it.
fn tries_at(
    place: usize,
    token: Token,
    limit: u32,
    words: &[String],
) -> Result<(SyncTask, &[String]), WordError>
    requires some { 0 < limit }
    requires few { limit ≤ LARGEST_LIMIT }
    ensures gives { Gives (λ r. (r.0, map string_bytes r.1.now)) result (spec.tries_words place token limit (map string_bytes words.now)) }
    ensures shorter { IfOk result (λ r. 1 + length r.1.now ≡ length words.now) }
{
    let Some((word, words)) = words.split_first() else {
        return Err(Refusal::Fault(place));
    };
    match number_to(LARGEST_TRIES, word.as_str()) {
        Some(tries) => Ok((SyncTask::new(token, limit, tries), words)),
        None => Err(Refusal::Fault(place)),
    }
}

// How many rows a page has and how often a request is tried, and the words behind them.
fn limit_at(
    place: usize,
    token: Token,
    words: &[String],
) -> Result<(SyncTask, &[String]), WordError>
    requires { place + length words.now < 2 ^ 63 }
    ensures gives { Gives (λ r. (r.0, map string_bytes r.1.now)) result (spec.limit_words place token (map string_bytes words.now)) }
    ensures shorter { IfOk result (λ r. 2 + length r.1.now ≡ length words.now) }
{
    let Some((word, words)) = words.split_first() else {
        return Err(Refusal::Fault(place));
    };
    match number_to(LARGEST_LIMIT, word.as_str()) {
        Some(limit) => tries_at(place + 1, token, limit, words),
        None => Err(Refusal::Fault(place)),
    }
}

// What three words ask of a synchronisation, and the words behind them.
fn task_at(
    alloc: Global,
    place: usize,
    words: &[String],
) -> Result<(SyncTask, &[String]), WordError>
    requires { place + length words.now < 2 ^ 63 }
    ensures gives { Gives (λ r. (r.0, map string_bytes r.1.now)) result (spec.task_words place (map string_bytes words.now)) }
    ensures shorter { IfOk result (λ r. 3 + length r.1.now ≡ length words.now) }
{
    let Some((word, words)) = words.split_first() else {
        return Err(Refusal::Fault(place));
    };
    match Token::read(alloc, word.as_str())? {
        Some(token) => limit_at(place + 1, token, words),
        None => Err(Refusal::Fault(place)),
    }
}

fn sync(alloc: Global, place: usize, words: &[String]) -> Result<Command, WordError>
    requires { place + length words.now < 2 ^ 63 }
    ensures { Gives (λ c. c) result (spec.sync_words place Sync (map string_bytes words.now)) }
{
    let (task, words) = task_at(alloc, place, words)?;
    end(place + 3, Command::Sync { task }, words)
}

fn delta(alloc: Global, place: usize, words: &[String]) -> Result<Command, WordError>
    requires { place + length words.now < 2 ^ 63 }
    ensures { Gives (λ c. c) result (spec.sync_words place SyncDelta (map string_bytes words.now)) }
{
    let (task, words) = task_at(alloc, place, words)?;
    end(place + 3, Command::SyncDelta { task }, words)
}

// The feed that the last word names.
fn feed_at(alloc: Global, place: usize, words: &[String]) -> Result<Name, WordError>
    requires { place + length words.now < 2 ^ 63 }
    ensures { (command : List ℕ → CommandValue) → Gives command result (spec.name_words place command (map string_bytes words.now)) }
{
    let Some((word, words)) = words.split_first() else {
        return Err(Refusal::Fault(place));
    };
    match Name::read(alloc, word.as_str())? {
        Some(_) if !words.is_empty() => Err(Refusal::Fault(place + 1)),
        Some(feed) => Ok(feed),
        None => Err(Refusal::Fault(place)),
    }
}

fn cascade(alloc: Global, place: usize, words: &[String]) -> Result<Command, WordError>
    requires { place + length words.now < 2 ^ 63 }
    ensures { Gives (λ c. c) result (spec.name_words place Cascade (map string_bytes words.now)) }
{
    let feed = feed_at(alloc, place, words)?;
    Ok(Command::Cascade { feed })
}

fn follow(alloc: Global, place: usize, words: &[String]) -> Result<Command, WordError>
    requires { place + length words.now < 2 ^ 63 }
    ensures { Gives (λ c. c) result (spec.follow_words place (map string_bytes words.now)) }
{
    let (task, words) = task_at(alloc, place, words)?;
    let feed = feed_at(alloc, place + 3, words)?;
    Ok(Command::Follow { task, feed })
}

// The kind of the gradebook that a word names.
fn gradebook_kind(word: &str) -> Option<Kind>
    ensures value { result ≡ spec.gradebook_kind word.now }
    ensures writes { IfSome result IsGradebook }
{
    match Kind::read(word) {
        Some(kind) if is_gradebook(kind) => Some(kind),
        _ => None,
    }
}

// The id and the file of a write that puts a row of a kind.
fn put_id(alloc: Global, place: usize, kind: Kind, words: &[String]) -> Result<Command, WordError>
    requires place { place + length words.now < 2 ^ 63 }
    requires writes { IsGradebook kind }
    ensures { Gives (λ c. c) result (spec.put_id_words place kind (map string_bytes words.now)) }
{
    let Some((word, words)) = words.split_first() else {
        return Err(Refusal::Fault(place));
    };
    let Some(id) = Id::read(alloc, word.as_str())? else {
        return Err(Refusal::Fault(place));
    };
    let file = file_at(alloc, place + 1, words)?;
    let object = GradebookObject::new(kind, id);
    Ok(Command::Enter {
        task: EnterTask::Put { object, file },
    })
}

fn put(alloc: Global, place: usize, words: &[String]) -> Result<Command, WordError>
    requires { place + length words.now < 2 ^ 63 }
    ensures { Gives (λ c. c) result (spec.put_words place (map string_bytes words.now)) }
{
    let Some((word, words)) = words.split_first() else {
        return Err(Refusal::Fault(place));
    };
    match gradebook_kind(word.as_str()) {
        Some(kind) => put_id(alloc, place + 1, kind, words),
        None => Err(Refusal::Fault(place)),
    }
}

// The id of a row of a kind that is deleted.
fn delete_id(
    alloc: Global,
    place: usize,
    kind: Kind,
    words: &[String],
) -> Result<Command, WordError>
    requires place { place + length words.now < 2 ^ 63 }
    requires writes { IsGradebook kind }
    ensures { Gives (λ c. c) result (spec.delete_id_words place kind (map string_bytes words.now)) }
{
    let Some((word, words)) = words.split_first() else {
        return Err(Refusal::Fault(place));
    };
    let Some(id) = Id::read(alloc, word.as_str())? else {
        return Err(Refusal::Fault(place));
    };
    let object = GradebookObject::new(kind, id);
    let task = EnterTask::Delete { object };
    end(place + 1, Command::Enter { task }, words)
}

fn delete(alloc: Global, place: usize, words: &[String]) -> Result<Command, WordError>
    requires { place + length words.now < 2 ^ 63 }
    ensures { Gives (λ c. c) result (spec.delete_words place (map string_bytes words.now)) }
{
    let Some((word, words)) = words.split_first() else {
        return Err(Refusal::Fault(place));
    };
    match gradebook_kind(word.as_str()) {
        Some(kind) => delete_id(alloc, place + 1, kind, words),
        None => Err(Refusal::Fault(place)),
    }
}

fn enter(alloc: Global, place: usize, words: &[String]) -> Result<Command, WordError>
    requires { place + length words.now < 2 ^ 63 }
    ensures { Gives (λ c. c) result (spec.enter_words place (map string_bytes words.now)) }
{
    match words.split_first() {
        Some((word, words)) if word.as_str() == "put" => put(alloc, place + 1, words),
        Some((word, words)) if word.as_str() == "delete" => delete(alloc, place + 1, words),
        _ => Err(Refusal::Fault(place)),
    }
}

// How often a request is tried, behind the token of `send`.
fn send_tries(place: usize, token: Token, words: &[String]) -> Result<Command, WordError>
    requires { place + length words.now < 2 ^ 63 }
    ensures { Gives (λ c. c) result (spec.send_tries_words place token (map string_bytes words.now)) }
{
    let Some((word, words)) = words.split_first() else {
        return Err(Refusal::Fault(place));
    };
    let Some(tries) = number_to(LARGEST_TRIES, word.as_str()) else {
        return Err(Refusal::Fault(place));
    };
    let task = SendTask::new(token, tries);
    end(place + 1, Command::Send { task }, words)
}

fn send(alloc: Global, place: usize, words: &[String]) -> Result<Command, WordError>
    requires { place + length words.now < 2 ^ 63 }
    ensures { Gives (λ c. c) result (spec.send_words place (map string_bytes words.now)) }
{
    let Some((word, words)) = words.split_first() else {
        return Err(Refusal::Fault(place));
    };
    match Token::read(alloc, word.as_str())? {
        Some(token) => send_tries(place + 1, token, words),
        None => Err(Refusal::Fault(place)),
    }
}

// The mode of a manifest.
fn manifest(place: usize, words: &[String]) -> Result<Command, WordError>
    requires { place + length words.now < 2 ^ 63 }
    ensures { Gives (λ c. c) result (spec.mode_words place (map string_bytes words.now)) }
{
    let (mode, words) = match words.split_first() {
        Some((word, words)) if word.as_str() == "bulk" => (Mode::Bulk, words),
        Some((word, words)) if word.as_str() == "delta" => (Mode::Delta, words),
        _ => return Err(Refusal::Fault(place)),
    };
    end(place + 1, Command::ExportManifest { mode }, words)
}

// What is exported of a kind: all of it, or what changed since a set.
fn export_kind(
    alloc: Global,
    place: usize,
    kind: Kind,
    words: &[String],
) -> Result<Command, WordError>
    requires { place + length words.now < 2 ^ 63 }
    ensures { Gives (λ c. c) result (spec.since_words place kind (map string_bytes words.now)) }
{
    let Some((word, words)) = words.split_first() else {
        return Ok(Command::Export { kind });
    };
    if word.as_str() != "since" {
        return Err(Refusal::Fault(place));
    }
    let dir = file_at(alloc, place + 1, words)?;
    Ok(Command::ExportSince { kind, dir })
}

fn export(alloc: Global, place: usize, words: &[String]) -> Result<Command, WordError>
    requires { place + length words.now < 2 ^ 63 }
    ensures { Gives (λ c. c) result (spec.export_words place (map string_bytes words.now)) }
{
    let Some((word, words)) = words.split_first() else {
        return Err(Refusal::Fault(place));
    };
    if word.as_str() == "manifest" {
        return manifest(place + 1, words);
    }
    match Kind::read(word.as_str()) {
        Some(kind) => export_kind(alloc, place + 1, kind, words),
        None => Err(Refusal::Fault(place)),
    }
}

fn rehearse(alloc: Global, place: usize, words: &[String]) -> Result<Command, WordError>
    requires { place + length words.now < 2 ^ 63 }
    ensures { Gives (λ c. c) result (spec.file_words place Rehearse (map string_bytes words.now)) }
{
    let file = file_at(alloc, place, words)?;
    Ok(Command::Rehearse { file })
}

fn make(place: usize, words: &[String]) -> Result<Command, WordError>
    requires { place + length words.now < 2 ^ 63 }
    ensures { Gives (λ c. c) result (spec.make_words place (map string_bytes words.now)) }
{
    let Some((word, words)) = words.split_first() else {
        return Err(Refusal::Fault(place));
    };
    match number_to(LARGEST_COUNT, word.as_str()) {
        Some(count) => {
            let task = MakeTask::new(count);
            end(place + 1, Command::Make { task }, words)
        }
        None => Err(Refusal::Fault(place)),
    }
}

/// The command of the words from a place on, or the place of the first word that no command continues.
pub fn command_at(alloc: Global, place: usize, words: &[String]) -> Result<Command, WordError>
    requires { place + length words.now < 2 ^ 63 }
    ensures { Gives (λ c. c) result (spec.command_words place (map string_bytes words.now)) }
{
    let Some((word, words)) = words.split_first() else {
        return Err(Refusal::Fault(place));
    };
    match word.as_str() {
        "show" => show(place + 1, words),
        "publish" => publish(alloc, place + 1, words),
        "grant" => grant(alloc, place + 1, words),
        "ask" => ask(alloc, place + 1, words),
        "sync" => sync(alloc, place + 1, words),
        "delta" => delta(alloc, place + 1, words),
        "cascade" => cascade(alloc, place + 1, words),
        "follow" => follow(alloc, place + 1, words),
        "enter" => enter(alloc, place + 1, words),
        "send" => send(alloc, place + 1, words),
        "outbox" => end(place + 1, Command::Outbox, words),
        "list" => list(place + 1, words),
        "export" => export(alloc, place + 1, words),
        "rehearse" => rehearse(alloc, place + 1, words),
        "make" => make(place + 1, words),
        _ => Err(Refusal::Fault(place)),
    }
}
