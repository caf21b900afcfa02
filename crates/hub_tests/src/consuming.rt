//! Synchronisations over replies that are given beforehand, and what the copy holds then.

use crate::runs::{Given, KEPT, Keepers, Turn, assert_each, assert_scene, assert_turns};
use keeper_memory::{CopyTables, LAST, MemCopy, MemHub};
use std::alloc::Global;
use std::test::Fail;

const NO_ORGS: &str =
    "HTTP/1.1 200 OK\r\nX-Total-Count: 0\r\nX-Hub-Version: 2\r\nX-Hub-Exchange: 1.1\r\nContent-Length: 11\r\n\r\n{\"orgs\":[]}";

// Replies that end it.
static ENDS: [Turn; 14] = [
    // without a version
    (
        "sync tok-e 100 1",
        Given::Replies(&[
            "HTTP/1.1 200 OK\r\nX-Total-Count: 0\r\nX-Hub-Exchange: 1.1\r\nContent-Length: 11\r\n\r\n{\"orgs\":[]}",
        ]),
        12,
        "bad reply orgs 0\n",
    ),
    // without a row that is due
    (
        "sync tok-e 100 1",
        Given::Replies(&[
            "HTTP/1.1 200 OK\r\nX-Total-Count: 1\r\nX-Hub-Version: 2\r\nX-Hub-Exchange: 1.1\r\nContent-Length: 11\r\n\r\n{\"orgs\":[]}",
        ]),
        12,
        "bad reply orgs 0\n",
    ),
    // with one row of two
    (
        "sync tok-e 100 1",
        Given::Replies(&[
            "HTTP/1.1 200 OK\r\nX-Total-Count: 2\r\nX-Hub-Version: 2\r\nX-Hub-Exchange: 1.1\r\nContent-Length: 125\r\n\r\n{\"orgs\":[{\"dateLastModified\":\"2024-08-01T12:00:00.000Z\",\"name\":\"Lake\",\"sourcedId\":\"d1\",\"status\":\"active\",\"type\":\"district\"}]}",
        ]),
        12,
        "bad reply orgs 0\n",
    ),
    // with a status that says nothing
    (
        "sync tok-e 100 1",
        Given::Replies(&["HTTP/1.1 302 Found\r\nX-Hub-Exchange: 1.1\r\nContent-Length: 0\r\n\r\n"]),
        12,
        "bad reply orgs 0\n",
    ),
    // that the pin is gone, where none was asked for
    (
        "sync tok-e 100 1",
        Given::Replies(&[
            "HTTP/1.1 404 Not Found\r\nX-Hub-Oldest: 3\r\nX-Hub-Exchange: 1.1\r\nContent-Length: 0\r\n\r\n",
        ]),
        12,
        "bad reply orgs 0\n",
    ),
    // no bytes at all
    (
        "sync tok-e 100 1",
        Given::Replies(&[]),
        7,
        "interrupted orgs 0\n",
    ),
    // to another request
    (
        "sync tok-e 100 1",
        Given::Replies(&[
            "HTTP/1.1 200 OK\r\nX-Total-Count: 0\r\nX-Hub-Version: 2\r\nX-Hub-Exchange: 1.7\r\nContent-Length: 11\r\n\r\n{\"orgs\":[]}",
        ]),
        7,
        "interrupted orgs 0\n",
    ),
    (
        "sync tok-e 100 1",
        Given::Replies(&[NO_ORGS, NO_ORGS]),
        7,
        "interrupted academicSessions 0\n",
    ),
    (
        "sync tok-e 100 1",
        Given::Replies(&[
            NO_ORGS,
            "HTTP/1.1 404 Not Found\r\nX-Hub-Oldest: 3\r\nX-Hub-Exchange: 1.2\r\nContent-Length: 0\r\n\r\n",
        ]),
        8,
        "pin gone 2 3\n",
    ),
    (
        "sync tok-e 100 1",
        Given::Replies(&[
            "HTTP/1.1 401 Unauthorized\r\nX-Hub-Exchange: 1.1\r\nContent-Length: 0\r\n\r\n",
        ]),
        9,
        "unknown token\n",
    ),
    // of another version than the first
    (
        "sync tok-e 100 1",
        Given::Replies(&[
            NO_ORGS,
            "HTTP/1.1 200 OK\r\nX-Total-Count: 0\r\nX-Hub-Version: 3\r\nX-Hub-Exchange: 1.2\r\nContent-Length: 23\r\n\r\n{\"academicSessions\":[]}",
        ]),
        12,
        "bad reply academicSessions 0\n",
    ),
    (
        "sync tok-e 100 1",
        Given::Replies(&[
            "HTTP/1.1 200 OK\r\nX-Total-Count: 1000001\r\nX-Hub-Version: 2\r\nX-Hub-Exchange: 1.1\r\nContent-Length: 11\r\n\r\n{\"orgs\":[]}",
        ]),
        13,
        "too large orgs 1000001\n",
    ),
    (
        "sync tok-e 100 1",
        Given::Replies(&[
            "HTTP/1.1 500 Internal Server Error\r\nX-Hub-Exchange: 1.1\r\nContent-Length: 0\r\n\r\n",
        ]),
        14,
        "hub failed\n",
    ),
    (
        "sync tok-e 100 1",
        Given::Replies(&[
            "HTTP/1.1 503 Service Unavailable\r\nX-Hub-Exchange: 1.1\r\nContent-Length: 0\r\n\r\n",
        ]),
        15,
        "hub without memory\n",
    ),
];

#[test]
fn replies_that_end_it(rt: HostRuntime) -> Result<(), Fail> {
    assert_each(&rt, rt.alloc(), &ENDS)
}

// The page of version 2 without rows of a kind, for the exchange with this number of the first run.
macro_rules! no_rows {
    ($kind:literal, $number:literal, $length:literal) => {
        concat!(
            "HTTP/1.1 200 OK\r\nX-Total-Count: 0\r\nX-Hub-Version: 2\r\nX-Hub-Exchange: 1.", $number,
            "\r\nContent-Length: ", $length, "\r\n\r\n{\"", $kind, "\":[]}"
        )
    };
}

/// The pages of version 2 for the first run: of one org, and of no rows of another kind.
pub const PAGES: Given = Given::Replies(&[
    "HTTP/1.1 200 OK\r\nX-Total-Count: 1\r\nX-Hub-Version: 2\r\nX-Hub-Exchange: 1.1\r\nContent-Length: 125\r\n\r\n{\"orgs\":[{\"dateLastModified\":\"2024-08-01T12:00:00.000Z\",\"name\":\"Lake\",\"sourcedId\":\"o1\",\"status\":\"active\",\"type\":\"district\"}]}",
    no_rows!("academicSessions", "2", "23"),
    no_rows!("courses", "3", "14"),
    no_rows!("classes", "4", "14"),
    no_rows!("users", "5", "12"),
    no_rows!("enrollments", "6", "18"),
    no_rows!("demographics", "7", "19"),
    no_rows!("categories", "8", "17"),
    no_rows!("lineItems", "9", "16"),
    no_rows!("results", "10", "14"),
    no_rows!("resources", "11", "16"),
    no_rows!("classResources", "12", "21"),
    no_rows!("courseResources", "13", "22"),
]);

/// The org that is held then.
pub const HELD: &str =
    "{\"orgs\":[{\"dateLastModified\":\"2024-08-01T12:00:00.000Z\",\"name\":\"Lake\",\"sourcedId\":\"o1\",\"status\":\"active\",\"type\":\"district\"}]}\n";

// Words in turn over one copy.
static TURNS: [Turn; 8] = [
    ("list orgs", Given::Nothing, 0, "{\"orgs\":[]}\n"),
    ("--peer hub:80 sync tok-e 100 1", PAGES, 0, "complete 2\n"),
    ("list orgs", Given::Nothing, 0, HELD),
    ("list users", Given::Nothing, 0, "{\"users\":[]}\n"),
    (
        "sync tok-e 100 1",
        Given::Nothing,
        7,
        "interrupted orgs 0\n",
    ),
    (
        "delta tok-e 100 1",
        Given::Replies(&[
            "HTTP/1.1 404 Not Found\r\nX-Hub-Oldest: 3\r\nX-Hub-Exchange: 3.1\r\nContent-Length: 0\r\n\r\n",
        ]),
        20,
        "base gone 2 3\n",
    ),
    ("delta tok-a 100 1", Given::Nothing, 19, "no base\n"),
    ("list orgs", Given::Nothing, 0, HELD),
];

#[test]
fn what_is_copied_is_listed(rt: HostRuntime) -> Result<(), Fail> {
    assert_scene(&rt, rt.alloc(), &TURNS)
}

// A copy that has had its last run and its last entry.
fn last_copy(alloc: Global) -> MemCopy {
    MemCopy::holding(
        alloc,
        CopyTables {
            run: LAST,
            held: None,
            held_token: None,
            stage: None,
            entries: Vec::new(alloc),
            last_number: LAST,
        },
    )
}

static LAST_TURNS: [Turn; 2] = [
    ("sync tok-e 100 1", PAGES, 16, "last number\n"),
    (
        "enter delete categories c9",
        Given::Nothing,
        16,
        "last number\n",
    ),
];

#[test]
fn no_number_follows_the_last(rt: HostRuntime) -> Result<(), Fail> {
    let mut keepers = Keepers {
        hub: MemHub::new(rt.alloc(), KEPT),
        copy: last_copy(rt.alloc()),
    };
    let asserted = assert_turns(&rt, rt.alloc(), &mut keepers, &LAST_TURNS);
    drop(keepers);
    asserted
}
