//! Runs of the program over keepers in memory: what a run of a test is given, and what it leaves.

use exchange_link::PeerLink;
use hub_cli::run_hub;
use keeper_memory::{MemCopy, MemHub};
use outside_ports::{FixedClock, Folder, MemFolder, MemSink};
use std::alloc::Global;
use std::process::Abort;
use std::test::Fail;
use test_lake::{File, NOON, file, files, words_of};

/// The bytes that a sink has room for: more than a run writes.
pub const ROOM: u64 = 8_192;

/// How many versions beside the newest a hub keeps.
pub const KEPT: u32 = 9;

/// A file: its folder, its name and its text.
pub type Named = (&'static str, &'static str, &'static str);

/// What a run is given: files in front of those of every run, or replies to its exchanges.
#[derive(Clone, Copy)]
pub enum Given {
    Nothing,
    File(&'static str, &'static str),
    Files(&'static [Named]),
    Replies(&'static [&'static str]),
}

/// The words of a run, what it is given, its status, and what it writes.
pub type Turn = (&'static str, Given, u8, &'static str);

/// The keeper of a hub and that of a copy.
#[derive(Drop)]
pub struct Keepers {
    pub hub: MemHub,
    pub copy: MemCopy,
}

/// A hub and a copy that hold nothing.
pub fn new_keepers(alloc: Global) -> Keepers {
    Keepers {
        hub: MemHub::new(alloc, KEPT),
        copy: MemCopy::new(alloc),
    }
}

/// Runs words at noon, and gives the status.
pub fn run_words<F: Folder>(
    alloc: Global,
    words: &[String],
    folder: &mut F,
    keepers: &mut Keepers,
    link: &mut PeerLink,
    sink: &mut MemSink,
) -> u8 {
    let clock = FixedClock::at(NOON);
    let Keepers { hub, copy } = keepers;
    run_hub(alloc, words, folder, hub, copy, link, &clock, sink)
}

const GRANTS: &str = "caller,token,scopes,schools\n\
east,tok-e,roster.readonly gradebook.readonly gradebook.createput gradebook.delete,s1\n\
all,tok-a,roster.readonly gradebook.readonly,*\n";

/// A manifest of changed orgs.
pub const SOME_ORGS: &str =
    "propertyName,value\nmanifest.version,1.0\noneroster.version,1.1\nfile.orgs,delta\n";

// The grants of every run, and a set that renames a school of the example district.
static FILES: [Named; 3] = [
    ("", "g.csv", GRANTS),
    ("new", "manifest.csv", SOME_ORGS),
    (
        "new",
        "orgs.csv",
        "sourcedId,status,dateLastModified,name,type\ns2,active,2024-09-01T00:00:00.000Z,West High School,school\n",
    ),
];

/// Publishes the example district as version 1, and its grants as version 2.
pub static LAKE: [Turn; 2] = [
    ("publish sis=lake", Given::Nothing, 0, "sis version 1\n"),
    ("grant g.csv", Given::Nothing, 0, "grants version 2\n"),
];

fn push_files(alloc: Global, all: &mut Vec<File>, named: &[Named]) -> Result<(), Fail> {
    for (dir, name, text) in named {
        all.push(file(alloc, dir, name, text)?)?;
    }
    Ok(())
}

fn push_given(alloc: Global, all: &mut Vec<File>, given: Given) -> Result<(), Fail> {
    match given {
        Given::File(name, text) => Ok(all.push(file(alloc, "", name, text)?)?),
        Given::Files(named) => push_files(alloc, all, named),
        Given::Nothing | Given::Replies(_) => Ok(()),
    }
}

/// The files that are given, and behind them those of every run and of the example district in `lake`. Of two with one
/// name the first counts.
pub fn files_of(alloc: Global, given: Given) -> Result<Vec<File>, Fail> {
    let mut all = Vec::new(alloc);
    push_given(alloc, &mut all, given)?;
    push_files(alloc, &mut all, &FILES)?;
    for (name, text) in files() {
        all.push(file(alloc, "lake", name, text)?)?;
    }
    Ok(all)
}

/// Folder, link and sink of a run.
#[derive(Drop)]
pub struct Ports {
    pub folder: MemFolder,
    pub link: PeerLink,
    pub sink: MemSink,
}

fn replies_of(alloc: Global, given: Given) -> Result<Vec<Option<Vec<u8>>>, Fail> {
    let mut replies = Vec::new(alloc);
    if let Given::Replies(texts) = given {
        for text in texts {
            replies.push(Some(text.as_bytes().to_vec(alloc)?))?;
        }
    }
    Ok(replies)
}

fn ports_of(alloc: Global, given: Given) -> Result<Ports, Fail> {
    let replies = replies_of(alloc, given)?;
    let files = files_of(alloc, given)?;
    let sink = MemSink::new(alloc, ROOM, Vec::new(alloc))?;
    Ok(Ports {
        folder: MemFolder::new(files, Vec::new(alloc)),
        link: PeerLink::new(alloc, replies),
        sink,
    })
}

/// Runs the words between spaces, and gives the status.
pub fn run_line(
    alloc: Global,
    line: &str,
    ports: &mut Ports,
    keepers: &mut Keepers,
) -> Result<u8, Fail> {
    let words = words_of(alloc, line)?;
    let Ports { folder, link, sink } = ports;
    Ok(run_words(alloc, words.as_slice(), folder, keepers, link, sink))
}

/// A run of the words ends with the status and writes the text.
pub fn assert_turn(
    rt: &impl Abort,
    alloc: Global,
    keepers: &mut Keepers,
    turn: &Turn,
) -> Result<(), Fail> {
    let (line, given, status, want) = turn;
    let mut ports = ports_of(alloc, *given)?;
    let told = run_line(alloc, line, &mut ports, keepers)?;
    assert_eq!(rt;
        (told, str::from_utf8(ports.sink.written())),
        (*status, Ok(*want)),
        "{line}"
    );
    drop(ports);
    Ok(())
}

/// Runs one behind another.
pub fn assert_turns(
    rt: &impl Abort,
    alloc: Global,
    keepers: &mut Keepers,
    turns: &[Turn],
) -> Result<(), Fail> {
    for turn in turns {
        assert_turn(rt, alloc, keepers, turn)?;
    }
    Ok(())
}

/// Runs one behind another, over a hub and a copy that hold nothing at first.
pub fn assert_scene(rt: &impl Abort, alloc: Global, turns: &[Turn]) -> Result<(), Fail> {
    let mut keepers = new_keepers(alloc);
    let asserted = assert_turns(rt, alloc, &mut keepers, turns);
    drop(keepers);
    asserted
}

/// Runs, each over a hub and a copy that hold nothing.
pub fn assert_each(rt: &impl Abort, alloc: Global, turns: &[Turn]) -> Result<(), Fail> {
    for turn in turns {
        let mut keepers = new_keepers(alloc);
        let asserted = assert_turn(rt, alloc, &mut keepers, turn);
        drop(keepers);
        asserted?;
    }
    Ok(())
}
