//! A copy cascaded into a hub of its own, and a hub that follows another one, by what the program prints.

use crate::hubs::Fault::Nothing;
use crate::hubs::Place::{District, Region};
use crate::hubs::{Step, assert_scene};
use hub_words::statuses::{DONE, NOTHING_HELD, REFUSED, UNKNOWN_TOKEN};
use std::test::Fail;

const SEEN: &str =
    "HTTP/1.1 200 OK\r\nContent-Type: application/json\r\nX-Total-Count: 3\r\nLink: </ims/oneroster/v1p1/users?limit=100&offset=0&fields=sourcedId&hubVersion=2>; rel=\"first\", </ims/oneroster/v1p1/users?limit=100&offset=0&fields=sourcedId&hubVersion=2>; rel=\"last\"\r\nX-Hub-Version: 2\r\nContent-Length: 68\r\n\r\n{\"users\":[{\"sourcedId\":\"u1\"},{\"sourcedId\":\"u2\"},{\"sourcedId\":\"u4\"}]}";

#[rattlefmt::skip]
static CASCADED: [Step; 10] = [
    (District, Nothing, "publish sis=lake", DONE, "sis version 1\n"),
    (District, Nothing, "grant g.csv", DONE, "grants version 2\n"),
    (Region, Nothing, "cascade up", NOTHING_HELD, "nothing held\n"),
    (Region, Nothing, "sync tok-e 100 1", DONE, "complete 2\n"),
    (Region, Nothing, "cascade up", DONE, "up version 1\n"),
    (Region, Nothing, "grant gd.csv", DONE, "grants version 2\n"),
    (Region, Nothing, "cascade up", DONE, "up unchanged 2\n"),
    (Region, Nothing, "publish other=dup", REFUSED, "refused: orgs s1 is owned by feed up\n"),
    (Region, Nothing, "publish other=extra", REFUSED, "refused: users u2 orgs s2: missing\n"),
    (Region, Nothing, "ask users.http", DONE, SEEN),
];

#[rattlefmt::skip]
static FOLLOWED: [Step; 9] = [
    (District, Nothing, "publish sis=lake", DONE, "sis version 1\n"),
    (District, Nothing, "grant g.csv", DONE, "grants version 2\n"),
    (Region, Nothing, "follow tok-x 100 1 up", UNKNOWN_TOKEN, "unknown token\n"),
    (Region, Nothing, "follow tok-e 100 1 up", DONE, "complete 2\nup version 1\n"),
    (Region, Nothing, "grant gd.csv", DONE, "grants version 2\n"),
    (Region, Nothing, "ask users.http", DONE, SEEN),
    (Region, Nothing, "follow tok-e 100 1 up", DONE, "complete 2\nup unchanged 2\n"),
    (Region, Nothing, "publish other=extra", REFUSED, "refused: users u2 orgs s2: missing\n"),
    (Region, Nothing, "follow tok-e 100 1 other", REFUSED, "complete 2\nrefused: orgs d1 is owned by feed up\n"),
];

#[test]
fn a_copy_is_served_onward(rt: HostRuntime) -> Result<(), Fail> {
    assert_scene(&rt, rt.alloc(), &CASCADED)
}

#[test]
fn another_hub_is_followed(rt: HostRuntime) -> Result<(), Fail> {
    assert_scene(&rt, rt.alloc(), &FOLLOWED)
}
