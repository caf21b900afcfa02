//! Runs one behind another of which one call to the outside fails, each in its turn: the run in which it fails ends
//! with the status of its port, and once the same words are run again all stands as if nothing had failed.

use crate::consuming::{HELD, PAGES};
use crate::runs::{
    Given, KEPT, Keepers, Ports, Turn, assert_turns, files_of, new_keepers, run_line,
};
use exchange_link::PeerLink;
use hub_words::statuses::{COPY_FAILED, DONE, FOLDER_FAILED, HUB_FAILED, OUTPUT_FAILED};
use keeper_memory::{CopyKeeper, HubKeeper, MemCopy, MemHub};
use outside_ports::{Folder, MemFolder, MemSink, Sink};
use std::alloc::Global;
use std::process::Abort;
use std::test::Fail;

// Whose calls are counted. A commit fails before it acts, or once it has.
#[derive(Clone, Copy, PartialEq, Eq)]
enum Port {
    Folder,
    Sink,
    Hub { acted: bool },
    Copy { acted: bool },
}

// How a run ends in which a call of a port fails: by a status and a line.
struct PortEnd {
    port: Port,
    status: u8,
    line: &'static str,
}

static PORTS: [PortEnd; 6] = [
    PortEnd {
        port: Port::Folder,
        status: FOLDER_FAILED,
        line: "folder failed\n",
    },
    PortEnd {
        port: Port::Sink,
        status: OUTPUT_FAILED,
        line: "",
    },
    PortEnd {
        port: Port::Hub { acted: false },
        status: HUB_FAILED,
        line: "hub store failed\n",
    },
    PortEnd {
        port: Port::Hub { acted: true },
        status: HUB_FAILED,
        line: "hub store failed\n",
    },
    PortEnd {
        port: Port::Copy { acted: false },
        status: COPY_FAILED,
        line: "copy store failed\n",
    },
    PortEnd {
        port: Port::Copy { acted: true },
        status: COPY_FAILED,
        line: "copy store failed\n",
    },
];

// A request that puts a category.
const STREAM: &str =
    "PUT /ims/oneroster/v1p1/categories/c2 HTTP/1.1\r\nHost: hub\r\nAuthorization: Bearer tok-e\r\nContent-Length: 29\r\n\r\n{\"category\":{\"title\":\"Quiz\"}}";

const FILES: Given = Given::Files(&[
    ("", "c2.json", "{\"category\":{\"title\":\"Quiz\"}}"),
    ("", "r.http", STREAM),
]);

// What is run before any call fails.
static BEGUN: [Turn; 1] = [("sync tok-e 100 1", PAGES, 0, "complete 2\n")];

// How many commits of the copy's keeper `BEGUN` makes: of its run, of the stage, of a page of each kind, and of the
// swap.
const BEGUN_COMMITS: u64 = 16;

// What is run then. Where a commit fails at a request, its reply says so, and the request behind it makes up for that.
static LINES: [&str; 9] = [
    "cascade up",
    "publish sis=new",
    "grant g.csv",
    "ask r.http",
    "ask r.http",
    "enter put categories c2 c2.json",
    "outbox",
    "list orgs",
    "export orgs since new",
];

// The bytes that a sink has room for: more than all these lines write.
const ROOM_FOR_ALL: u64 = 65_536;

// The newest version of the hub, and what the copy holds.
static STANDS: [Turn; 3] = [
    ("grant g.csv", Given::Nothing, 0, "grants unchanged 4\n"),
    ("cascade up", Given::Nothing, 0, "up unchanged 4\n"),
    ("list orgs", Given::Nothing, 0, HELD),
];

// The number, where it counts calls of this port.
fn listed(alloc: Global, number: u64, is_one: bool) -> Result<Vec<u64>, Fail> {
    let mut numbers = Vec::new(alloc);
    if is_one {
        numbers.push(number)?;
    }
    Ok(numbers)
}

// The ports of a run. Where the port is the folder or the sink, its call of this number fails.
fn ports_with(alloc: Global, port: Port, number: u64) -> Result<Ports, Fail> {
    let of_folder = listed(alloc, number, port == Port::Folder)?;
    let of_sink = listed(alloc, number, port == Port::Sink)?;
    let sink = MemSink::new(alloc, ROOM_FOR_ALL, of_sink)?;
    Ok(Ports {
        folder: MemFolder::new(files_of(alloc, FILES)?, of_folder),
        link: PeerLink::new(alloc, Vec::new(alloc)),
        sink,
    })
}

// Lets the commit of this number fail, where the port is a keeper; the copy's are counted behind those of `BEGUN`.
fn plan(keepers: &mut Keepers, port: Port, number: u64) -> Result<(), Fail> {
    match port {
        Port::Hub { acted } => Ok(keepers.hub.list_commit(acted, number)?),
        Port::Copy { acted } => {
            let number = number.saturating_add(BEGUN_COMMITS);
            Ok(keepers.copy.list_commit(acted, number)?)
        }
        Port::Folder | Port::Sink => Ok(()),
    }
}

// How many calls have failed.
fn faults(ports: &Ports, keepers: &Keepers) -> u64 {
    let outside = ports
        .folder
        .faults()
        .saturating_add(ports.sink.write_faults());
    let kept = keepers.hub.faults().saturating_add(keepers.copy.faults());
    outside.saturating_add(kept)
}

// Runs the words, and runs them again where a call failed: then nothing fails.
fn assert_line(
    rt: &impl Abort,
    alloc: Global,
    line: &str,
    ports: &mut Ports,
    keepers: &mut Keepers,
    end: &PortEnd,
) -> Result<(), Fail> {
    let before = faults(ports, keepers);
    let told = run_line(alloc, line, ports, keepers)?;
    if faults(ports, keepers) == before {
        assert_eq!(rt; told, DONE, "{line}");
        return Ok(());
    }
    let ends = told == end.status && ports.sink.written().ends_with(end.line.as_bytes());
    let is_told = ends || line == "ask r.http";
    let again = run_line(alloc, line, ports, keepers)?;
    assert_eq!(rt; (is_told, again), (true, 0), "{line}, once more: {told}");
    Ok(())
}

// Runs all `LINES`, and tells whether a call failed.
fn assert_lines(
    rt: &impl Abort,
    alloc: Global,
    ports: &mut Ports,
    keepers: &mut Keepers,
    end: &PortEnd,
) -> Result<bool, Fail> {
    for line in &LINES {
        assert_line(rt, alloc, line, ports, keepers, end)?;
    }
    Ok(faults(ports, keepers) != 0)
}

// Runs all `LINES` with a call that is to fail, and tells whether that call was made.
fn assert_planned(
    rt: &impl Abort,
    alloc: Global,
    keepers: &mut Keepers,
    end: &PortEnd,
    number: u64,
) -> Result<bool, Fail> {
    plan(keepers, end.port, number)?;
    let mut ports = ports_with(alloc, end.port, number)?;
    let made = assert_lines(rt, alloc, &mut ports, keepers, end);
    drop(ports);
    made
}

// Does so behind `BEGUN`, and then asserts `STANDS`.
fn assert_over(
    rt: &impl Abort,
    alloc: Global,
    keepers: &mut Keepers,
    end: &PortEnd,
    number: u64,
) -> Result<bool, Fail> {
    assert_turns(rt, alloc, keepers, &BEGUN)?;
    let made = assert_planned(rt, alloc, keepers, end, number)?;
    assert_turns(rt, alloc, keepers, &STANDS)?;
    Ok(made)
}

// Does so with keepers that hold nothing yet.
fn assert_failing(
    rt: &impl Abort,
    alloc: Global,
    end: &PortEnd,
    number: u64,
) -> Result<bool, Fail> {
    let mut keepers = new_keepers(alloc);
    let made = assert_over(rt, alloc, &mut keepers, end, number);
    drop(keepers);
    made
}

// More than the calls of a port.
const MOST_CALLS: u64 = 1_000;

// Lets the first call of a port fail, then the second one, and so on until there is none of that number.
fn assert_port(rt: &impl Abort, alloc: Global, end: &PortEnd) -> Result<(), Fail> {
    for number in 1..MOST_CALLS {
        if !assert_failing(rt, alloc, end, number)? {
            assert!(rt; number > 1, "no call");
            return Ok(());
        }
    }
    Err(Fail::new("no end"))
}

#[test]
fn each_call_to_the_outside_may_fail(rt: HostRuntime) -> Result<(), Fail> {
    for end in &PORTS {
        assert_port(&rt, rt.alloc(), end)?;
    }
    Ok(())
}

// Stores that can't be read at first. The hub of the program isn't opened where words ask for the copy alone.
static UNREAD: [Turn; 4] = [
    ("list orgs", Given::Nothing, 6, "copy store failed\n"),
    ("list orgs", Given::Nothing, 0, "{\"orgs\":[]}\n"),
    ("publish sis=lake", Given::Nothing, 5, "hub store failed\n"),
    ("publish sis=lake", Given::Nothing, 0, "sis version 1\n"),
];

// Keepers whose first read fails.
fn unread_keepers(alloc: Global) -> Result<Keepers, Fail> {
    let of_hub = vec![in alloc; 1]?;
    let of_copy = vec![in alloc; 1]?;
    Ok(Keepers {
        hub: MemHub::new(alloc, KEPT).with_failures(Vec::new(alloc), Vec::new(alloc), of_hub),
        copy: MemCopy::new(alloc).with_failures(Vec::new(alloc), Vec::new(alloc), of_copy),
    })
}

#[test]
fn a_store_may_be_unread(rt: HostRuntime) -> Result<(), Fail> {
    let mut keepers = unread_keepers(rt.alloc())?;
    let asserted = assert_turns(&rt, rt.alloc(), &mut keepers, &UNREAD);
    drop(keepers);
    asserted
}
