//! Servers over a keeper in memory, and two threads that write at once: what they end by, and the newest version that
//! the keeper then holds.

use crate::runs::{Given, Keepers, LAKE, assert_turn, assert_turns, files_of, new_keepers};
use crate::server::{acceptor, serve};
use hub_server::Doors;
use keeper_memory::{MemCopy, MemHub};
use outside_ports::{MemAcceptor, MemFolder, OpenGate};
use std::alloc::Global;
use std::process::Abort;
use std::sync::Wait;
use std::test::Fail;
use std::thread::Threads;

/// A request that reads one org.
pub const GET_ORGS: &str =
    "GET /ims/oneroster/v1p1/orgs?limit=1 HTTP/1.1\r\nHost: hub\r\nAuthorization: Bearer tok-e\r\n\r\n";

// Requests that put a category and delete it.
macro_rules! put_and_delete {
    ($id:literal) => {
        concat!(
            "PUT /ims/oneroster/v1p1/categories/", $id,
            " HTTP/1.1\r\nHost: hub\r\nAuthorization: Bearer tok-e\r\nContent-Length: 29\r\n\r\n{\"category\":{\"title\":\"Quiz\"}}",
            "DELETE /ims/oneroster/v1p1/categories/", $id,
            " HTTP/1.1\r\nHost: hub\r\nAuthorization: Bearer tok-e\r\n\r\n"
        )
    };
}

const C2: &str = put_and_delete!("c2");

const C3: &str = put_and_delete!("c3");

// An acceptor's one connection: the bytes that it sends, how many times, and the calls of the acceptor that fail.
type Connection = (&'static str, usize, &'static [u64]);

// What a server is given, what it ends by, and what tells of the newest version then.
struct Case {
    line: &'static str,
    // Whether the keeper holds the district and its grants at first.
    filled: bool,
    connections: &'static [Connection],
    // For each feed the calls of its folder that fail.
    folders: &'static [&'static [u64]],
    status: u8,
    newest: &'static str,
}

static CASES: [Case; 10] = [
    Case {
        line: "serve 1 hub:1 sis=lake",
        filled: true,
        connections: &[(C2, 1, &[])],
        folders: &[&[]],
        status: 0,
        newest: "grants unchanged 4\n",
    },
    Case {
        line: "serve 1 hub:1 hub:2 sis=lake",
        filled: false,
        connections: &[("", 1, &[]), ("GET", 1, &[])],
        folders: &[&[]],
        status: 0,
        newest: "grants version 2\n",
    },
    // Each of eighty writes of two threads stands once.
    Case {
        line: "serve 1 hub:1 hub:2",
        filled: true,
        connections: &[(C2, 20, &[]), (C3, 20, &[])],
        folders: &[],
        status: 0,
        newest: "grants unchanged 82\n",
    },
    Case {
        line: "serve 1 hub:1",
        filled: true,
        connections: &[(C2, 1, &[1])],
        folders: &[],
        status: 18,
        newest: "grants unchanged 2\n",
    },
    // No second connection is left.
    Case {
        line: "serve 2 hub:1 sis=lake",
        filled: false,
        connections: &[("", 1, &[])],
        folders: &[&[]],
        status: 18,
        newest: "grants version 2\n",
    },
    Case {
        line: "serve 0 hub:1",
        filled: true,
        connections: &[],
        folders: &[],
        status: 2,
        newest: "grants unchanged 2\n",
    },
    Case {
        line: "show orgs",
        filled: true,
        connections: &[],
        folders: &[],
        status: 2,
        newest: "grants unchanged 2\n",
    },
    // The folder fails, and then the acceptor too: feeds go before acceptors.
    Case {
        line: "serve 1 hub:1 sis=lake",
        filled: false,
        connections: &[("", 1, &[1])],
        folders: &[&[1]],
        status: 3,
        newest: "grants version 1\n",
    },
    // A set that isn't there, and one whose rows are owned by another feed.
    Case {
        line: "serve 1 hub:1 sis=none",
        filled: false,
        connections: &[("", 1, &[])],
        folders: &[&[]],
        status: 4,
        newest: "grants version 1\n",
    },
    Case {
        line: "serve 1 hub:1 other=lake",
        filled: true,
        connections: &[("", 1, &[])],
        folders: &[&[]],
        status: 4,
        newest: "grants unchanged 2\n",
    },
];

fn doors_of(alloc: Global, case: &Case) -> Result<Doors<MemAcceptor, MemFolder>, Fail> {
    let mut acceptors = Vec::new(alloc);
    for (sent, times, failing) in case.connections {
        acceptors.push(acceptor(alloc, sent, *times, failing)?)?;
    }
    let mut folders = Vec::new(alloc);
    for failing in case.folders {
        let files = files_of(alloc, Given::Nothing)?;
        folders.push(MemFolder::new(files, failing.to_vec(alloc)?))?;
    }
    Ok(Doors { acceptors, folders })
}

/// A keeper of the example district and its grants, at version 2.
pub fn lake_keeper(rt: &impl Abort, alloc: Global) -> Result<MemHub, Fail> {
    let mut keepers = new_keepers(alloc);
    let asserted = assert_turns(rt, alloc, &mut keepers, &LAKE);
    let Keepers { hub, copy } = keepers;
    drop(copy);
    match asserted {
        Ok(()) => Ok(hub),
        Err(fail) => {
            drop(hub);
            Err(fail)
        }
    }
}

// The keeper before a case: of the district, or one that holds nothing.
fn keeper_before(rt: &impl Abort, alloc: Global, filled: bool) -> Result<MemHub, Fail> {
    if filled {
        return lake_keeper(rt, alloc);
    }
    let Keepers { hub, copy } = new_keepers(alloc);
    drop(copy);
    Ok(hub)
}

/// The grants of every run tell of the newest version by this line.
pub fn assert_newest(
    rt: &impl Abort,
    alloc: Global,
    hub: MemHub,
    line: &'static str,
) -> Result<(), Fail> {
    let mut keepers = Keepers {
        hub,
        copy: MemCopy::new(alloc),
    };
    let turn = ("grant g.csv", Given::Nothing, 0, line);
    let asserted = assert_turn(rt, alloc, &mut keepers, &turn);
    drop(keepers);
    asserted
}

fn assert_case<R: Threads + Wait + Abort + Sync>(
    rt: &R,
    alloc: Global,
    case: &Case,
) -> Result<(), Fail> {
    let doors = doors_of(alloc, case)?;
    let hub = keeper_before(rt, alloc, case.filled)?;
    let (status, hub) = serve(rt, alloc, case.line, doors, hub, &OpenGate);
    assert_newest(rt, alloc, hub, case.newest)?;
    assert_eq!(rt; status, case.status, "{}", case.line);
    Ok(())
}

#[test]
fn servers_end_by_their_status(rt: HostRuntime) -> Result<(), Fail> {
    for case in &CASES {
        assert_case(&rt, rt.alloc(), case)?;
    }
    Ok(())
}
