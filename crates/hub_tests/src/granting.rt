//! Grants that are given, and files of them that are refused.

use crate::runs::{Given, Turn, assert_scene};
use std::test::Fail;

const MORE: &str = "caller,token,scopes,schools\n\
all,tok-a,roster.readonly gradebook.readonly,*\n\
east,tok-e,roster.readonly gradebook.readonly gradebook.createput gradebook.delete,\"s1,s2\"\n";

const NONE: Given = Given::File("none.csv", "caller,token,scopes,schools\n");

static GIVEN: [Turn; 7] = [
    ("grant none.csv", NONE, 0, "grants unchanged 0\n"),
    ("publish sis=lake", Given::Nothing, 0, "sis version 1\n"),
    ("grant g.csv", Given::Nothing, 0, "grants version 2\n"),
    ("grant g.csv", Given::Nothing, 0, "grants unchanged 2\n"),
    (
        "grant g2.csv",
        Given::File("g2.csv", MORE),
        0,
        "grants version 3\n",
    ),
    ("publish sis=lake", Given::Nothing, 0, "sis unchanged 3\n"),
    ("grant none.csv", NONE, 0, "grants version 4\n"),
];

static REFUSED: [Turn; 10] = [
    (
        "grant absent.csv",
        Given::Nothing,
        4,
        "refused: absent.csv: missing file\n",
    ),
    (
        "grant header.csv",
        Given::File("header.csv", "caller,scopes,token,schools\n"),
        4,
        "refused: grants: header\n",
    ),
    (
        "grant short.csv",
        Given::File("short.csv", "caller\n"),
        4,
        "refused: grants: header\n",
    ),
    (
        "grant width.csv",
        Given::File("width.csv", "caller,token,scopes,schools\na,t,\n"),
        4,
        "refused: grants record 2: width\n",
    ),
    (
        "grant name.csv",
        Given::File("name.csv", "caller,token,scopes,schools\na b,t,,*\n"),
        4,
        "refused: grants record 2: bad name\n",
    ),
    (
        "grant token.csv",
        Given::File("token.csv", "caller,token,scopes,schools\na,t t,,*\n"),
        4,
        "refused: grants record 2: bad token\n",
    ),
    (
        "grant scope.csv",
        Given::File(
            "scope.csv",
            "caller,token,scopes,schools\na,t,roster.write,*\n",
        ),
        4,
        "refused: grants record 2: bad scope\n",
    ),
    (
        "grant schools.csv",
        Given::File("schools.csv", "caller,token,scopes,schools\na,t,,\n"),
        4,
        "refused: grants record 2: bad schools\n",
    ),
    (
        "grant caller.csv",
        Given::File(
            "caller.csv",
            "caller,token,scopes,schools\na,t,,*\na,t,,*\n",
        ),
        4,
        "refused: grants record 3: repeated caller\n",
    ),
    (
        "grant twice.csv",
        Given::File(
            "twice.csv",
            "caller,token,scopes,schools\na,tok-e,,*\nb,tok-e,,*\n",
        ),
        4,
        "refused: grants record 3: repeated token\n",
    ),
];

#[test]
fn grants_are_given_or_refused(rt: HostRuntime) -> Result<(), Fail> {
    assert_scene(&rt, rt.alloc(), &GIVEN)?;
    assert_scene(&rt, rt.alloc(), &REFUSED)
}
