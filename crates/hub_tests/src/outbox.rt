//! Writes that are entered, listed and sent, over replies that are given beforehand.

use crate::runs::{Given, Turn, assert_scene};
use std::test::Fail;

// Replies that leave a write waiting, each to the next run, and one that settles it.
static SENT: [Turn; 11] = [
    (
        "enter delete categories c9",
        Given::Nothing,
        0,
        "entered 1\n",
    ),
    (
        "send tok-e 1",
        Given::Replies(&[
            "HTTP/1.1 204 No Content\r\nX-Hub-Version: 3\r\nX-Hub-Exchange: 1.1\r\nX-Hub-Mark: 2\r\n\r\n",
        ]),
        12,
        "bad reply 1\n",
    ),
    (
        "send tok-e 1",
        Given::Replies(&[
            "HTTP/1.1 204 No Content\r\nX-Hub-Exchange: 2.1\r\nX-Hub-Mark: 1\r\n\r\n",
        ]),
        12,
        "bad reply 1\n",
    ),
    (
        "send tok-e 1",
        Given::Replies(&[
            "HTTP/1.1 401 Unauthorized\r\nX-Hub-Exchange: 3.1\r\nContent-Length: 0\r\n\r\n",
        ]),
        9,
        "unknown token\n",
    ),
    (
        "send tok-e 1",
        Given::Replies(&[
            "HTTP/1.1 500 Internal Server Error\r\nX-Hub-Exchange: 4.1\r\nContent-Length: 0\r\n\r\n",
        ]),
        14,
        "hub failed\n",
    ),
    (
        "send tok-e 1",
        Given::Replies(&[
            "HTTP/1.1 503 Service Unavailable\r\nX-Hub-Exchange: 5.1\r\nContent-Length: 0\r\n\r\n",
        ]),
        15,
        "hub without memory\n",
    ),
    ("send tok-e 2", Given::Nothing, 7, "interrupted 1\n"),
    ("outbox", Given::Nothing, 0, "1 waiting\n"),
    (
        "list categories",
        Given::Nothing,
        0,
        "{\"categories\":[]}\n",
    ),
    (
        "send tok-e 1",
        Given::Replies(&[
            "HTTP/1.1 204 No Content\r\nX-Hub-Version: 3\r\nX-Hub-Exchange: 7.1\r\nX-Hub-Mark: 1\r\n\r\n",
        ]),
        0,
        "settled 1\n",
    ),
    ("outbox", Given::Nothing, 0, "1 204 3\n"),
];

const QUIZ: Given = Given::File("c2.json", "{\"category\":{\"title\":\"Quiz\"}}");

// Files of which no write is entered.
static ENTERED: [Turn; 4] = [
    (
        "enter put categories c2 absent.json",
        Given::Nothing,
        4,
        "refused: absent.json: missing file\n",
    ),
    (
        "enter put lineItems c2 c2.json",
        QUIZ,
        4,
        "refused: c2.json: bad row\n",
    ),
    ("enter put categories c2 c2.json", QUIZ, 0, "entered 1\n"),
    ("outbox", Given::Nothing, 0, "1 waiting\n"),
];

#[test]
fn writes_wait_until_they_are_settled(rt: HostRuntime) -> Result<(), Fail> {
    assert_scene(&rt, rt.alloc(), &SENT)?;
    assert_scene(&rt, rt.alloc(), &ENTERED)
}
