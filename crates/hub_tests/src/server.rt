//! A server of a test: what it is given, and what it leaves.

ghost use Rattle.std.specs.Prelude.{◌≡◌, Ok, length, map, string_bytes};
ghost use Rattle.hub_words.specs.Words.{split_serve};
ghost use Rattle.hub_words.specs.declared.words.ServeWords.{ServeWords as ServeWordsValue};

use crate::runs::ROOM;
use hub_cli::{ServeEnd, serve_hub};
use hub_server::{Doors, NoNotices, Ports};
use keeper_memory::HubKeeper;
use outside_ports::{FixedClock, Gate, MemAcceptor, MemFolder, MemSink, MemSource};
use roster_base::Refusal;
use std::alloc::Global;
use std::process::Abort;
use std::sync::Wait;
use std::test::Fail;
use std::thread::Threads;
use test_lake::{NOON, words_of};

// A connection that sends these bytes so many times.
fn connection(alloc: Global, sent: &str, times: usize) -> Result<(MemSource, MemSink), Fail> {
    let mut bytes = Vec::new(alloc);
    for _ in 0..times {
        bytes.extend_from_slice(sent.as_bytes())?;
    }
    let source = MemSource::new(bytes, Vec::new(alloc), Vec::new(alloc));
    Ok((source, MemSink::new(alloc, ROOM, Vec::new(alloc))?))
}

/// An acceptor of one connection, which sends these bytes so many times, and the calls that fail.
pub fn acceptor(
    alloc: Global,
    sent: &str,
    times: usize,
    failing: &[u64],
) -> Result<MemAcceptor, Fail> {
    let mut streams = Vec::new(alloc);
    streams.push(connection(alloc, sent, times)?)?;
    Ok(MemAcceptor::new(streams, failing.to_vec(alloc)?))
}

// There are as many acceptors and folders as the words name.
fn assert_enough(
    rt: &impl Abort,
    alloc: Global,
    words: &[String],
    doors: &Doors<MemAcceptor, MemFolder>,
)
    ensures { (w : ServeWordsValue) → split_serve (map string_bytes words.now) ≡ Ok w → (length doors.now.acceptors.items ≡ length w.task.addresses) × (length doors.now.folders.items ≡ length w.task.feeds) }
{
    match hub_cli::split_serve(alloc, words) {
        Ok(spelled) => {
            assert!(rt; doors.acceptors.len() == spelled.task.addresses.as_slice().len());
            assert!(rt; doors.folders.len() == spelled.task.feeds.as_slice().len());
        }
        Err(Refusal::Fault(_)) => (),
        Err(Refusal::NoMemory) => panic!(rt; "no memory"),
    }
}

/// Runs the words between spaces at noon, and gives the status and the keeper.
pub fn serve<R: Threads + Wait + Abort + Sync, H: HubKeeper + Send, G: Gate + Sync>(
    rt: &R,
    alloc: Global,
    line: &str,
    doors: Doors<MemAcceptor, MemFolder>,
    keeper: H,
    gate: &G,
) -> (u8, H) {
    let Ok(words) = words_of(alloc, line) else {
        panic!(rt; "no words");
    };
    assert_enough(rt, alloc, words.as_slice(), &doors);
    let clock = FixedClock::at(NOON);
    let ports = Ports {
        rt,
        alloc,
        clock: &clock,
        gate,
        notices: &NoNotices,
    };
    let ServeEnd { status, hub, doors } = serve_hub(&ports, words.as_slice(), doors, keeper);
    drop(doors);
    (status, hub)
}
