//! The words of the command line, and what they say.

ghost use Rattle.std.specs.Prelude.{◌≡◌, IfOk, map, string_bytes};
ghost use Rattle.std.specs.Option.{option_copied};
ghost use Rattle.roster_base.specs.Reading.{Gives};
ghost use Rattle.hub_words.specs.Words as spec;

use crate::commands::command_at;
use crate::options::first_options;
use crate::task::{Feed, GradebookObject, MakeTask, SendTask, ServeTask, SyncTask};
use roster_base::{Items, NoMemory, Refusal, Text};
use roster_texts::Name;
use roster_values::{Kind, Mode};
use std::alloc::Global;

/// What is put into the outbox.
#[derive(Drop)]
pub enum EnterTask {
    /// That the row be put which the body in this file says.
    Put { object: GradebookObject, file: Text },
    /// That the row be deleted.
    Delete { object: GradebookObject },
}

/// What the program is asked to do.
#[derive(Drop)]
pub enum Command {
    /// Prints the rows of a kind's file in order of id.
    Show { kind: Kind },
    /// Publishes the sets of these feeds, one after another.
    Publish { feeds: Items<Feed> },
    /// Gives each caller what a file asks for, and takes all other grants away.
    Grant { file: Text },
    /// Answers the requests of a file's bytes.
    Ask { file: Text },
    /// Copies what a token sees of the hub at the address of the words.
    Sync { task: SyncTask },
    /// Brings that copy to the hub's newest version, by what differs from the held one on.
    SyncDelta { task: SyncTask },
    /// Makes the rows of the copy those of a feed of the hub.
    Cascade { feed: Name },
    /// Brings the copy to the newest version of the hub at the address of the words, and makes its rows those of a feed
    /// of this hub.
    Follow { task: SyncTask, feed: Name },
    /// Puts a write into the outbox of the copy.
    Enter { task: EnterTask },
    /// Sends the writes of the outbox to the hub at the address of the words.
    Send { task: SendTask },
    /// Prints the entries of the outbox.
    Outbox,
    /// Prints the rows of a kind that the copy holds.
    ListHeld { kind: Kind },
    /// Prints the manifest of a set with a file of each kind, all in one mode.
    ExportManifest { mode: Mode },
    /// Prints the file of the rows of a kind that the copy holds.
    Export { kind: Kind },
    /// Prints the file of what changed of a kind since the set in a folder.
    ExportSince { kind: Kind, dir: Text },
    /// Runs the script of a file, in a world of its own.
    Rehearse { file: Text },
    /// Makes a district, and copies it, in a world of its own.
    Make { task: MakeTask },
}

/// An option, whose value is the word behind it.
#[derive(Clone, Copy)]
pub enum OptionWord {
    Folder,
    Store,
    Peer,
    Keep,
}

/// The options that are given.
#[derive(Drop)]
pub struct Options {
    /// The folder of the files, where another than the working folder is named.
    pub folder: Option<Text>,
    /// The folder of the hub's store, where one is named.
    pub store: Option<Text>,
    /// The address of the hub that is copied, where one is named.
    pub peer: Option<Text>,
    /// How many versions a new keeper keeps beside the newest, where the words say so: 1 to 100,000.
    pub keep: Option<u32>,
}

/// What the words say: the options, which stand first, and the command.
#[derive(Drop)]
pub struct Parsed {
    pub options: Options,
    pub command: Command,
}

/// What the words of a server say: the options, which stand first, and its task.
#[derive(Drop)]
pub struct ServeWords {
    pub options: Options,
    pub task: ServeTask,
}

/// How many versions a new keeper keeps beside the newest at most.
pub const LARGEST_KEEP: u32 = 100_000;

/// How many versions a new keeper keeps beside the newest where the words don't say.
pub const USUAL_KEEP: u32 = 10_000;

/// Why words are no command: the place, from 0, of the first word that no command continues, or the number of words
/// where one is missing.
pub type WordError = Refusal<usize>;

/// The options and the command that words spell.
pub fn split_words(alloc: Global, words: &[String]) -> Result<Parsed, WordError>
    ensures { Gives (λ p. p) result (spec.split (map string_bytes words.now)) }
{
    let (options, place) = first_options(alloc, words)?;
    let (_, behind) = words.split_at(place);
    let command = command_at(alloc, place, behind)?;
    Ok(Parsed { options, command })
}

/// What words spell: the options and the command, or the place, from 0, of the first word that no command continues.
pub type Spelled = Result<Parsed, usize>;

/// Reads what words spell.
pub fn read_words(alloc: Global, words: &[String]) -> Result<Spelled, NoMemory>
    ensures { IfOk result (λ s. s ≡ spec.split (map string_bytes words.now)) }
{
    match split_words(alloc, words) {
        Ok(parsed) => Ok(Ok(parsed)),
        Err(Refusal::Fault(place)) => Ok(Err(place)),
        Err(Refusal::NoMemory) => Err(NoMemory),
    }
}

/// The root folder, in which a command finds its files: the one that the words name, and else the working folder, whose
/// name is empty.
pub fn root_of(spelled: &Spelled) -> &str
    ensures { result.now ≡ spec.root_in spelled.now }
{
    match spelled {
        Ok(parsed) => match &parsed.options.folder {
            Some(folder) => folder.as_str(),
            None => "",
        },
        Err(_) => "",
    }
}

/// How many versions a new keeper keeps beside the newest: as many as the words say, and else 10,000.
pub fn keep_of(spelled: &Spelled) -> u32
    ensures { result ≡ spec.keep_in spelled.now }
{
    match spelled {
        Ok(parsed) => parsed.options.keep.unwrap_or(USUAL_KEEP),
        Err(_) => USUAL_KEEP,
    }
}

/// The folder of the store, where the words name one.
pub fn store_of(spelled: &Spelled) -> Option<&Text>
    ensures { option_copied result ≡ spec.store_in spelled.now }
{
    match spelled {
        Ok(parsed) => parsed.options.store.as_ref(),
        Err(_) => None,
    }
}

/// The address of the hub that is copied, where the words name one.
pub fn peer_of(spelled: &Spelled) -> Option<&Text>
    ensures { option_copied result ≡ spec.peer_in spelled.now }
{
    match spelled {
        Ok(parsed) => parsed.options.peer.as_ref(),
        Err(_) => None,
    }
}
