//! Sets and grants that are published one after another, over a keeper of which calls fail.

use crate::runs::{Failing, Turn, told_over};
use std::test::Fail;

// Rows without dates get that of the call, where they differ from those that stand.
const SETS: &[Turn] = &[
    Turn::Set("sis", "bulk", ""),
    Turn::Set("sis", "bulk", "a,,,Quiz\n"),
    Turn::Set("sis", "bulk", "a,,,Quiz\n"),
    Turn::Set("sis", "bulk", "a,,1970-01-01T00:00:03Z,Quiz\n"),
    Turn::Set("sis", "bulk", "a,,,Test\n"),
    // Another feed's row, and one that it may not take.
    Turn::Set("lms", "bulk", "b,,1970-01-01T00:00:02Z,Quiz\n"),
    Turn::Set("lms", "bulk", "a,,,Test\n"),
    // A delta part leaves nothing out; a whole one what is the feed's, once.
    Turn::Set("sis", "delta", "c,tobedeleted,1970-01-01T00:00:05Z,Test\n"),
    Turn::Set("sis", "bulk", "d,,,Test\n"),
    Turn::Set("sis", "bulk", "d,,,Test\n"),
    // A marked row comes back.
    Turn::Set("sis", "bulk", "a,,,Test\nd,,,Test\n"),
];

const SETS_TOLD: &str =
    "same 0, new 1, same 1, new 2, new 3, new 4, refused 0, new 5, new 6, same 6, new 7, \
from 6: a tobedeleted 1000 Test sis, b active 2000 Quiz lms, c tobedeleted 5000 Test sis, d active 1000 Test sis, ; \
a active 1000 Test sis, b active 2000 Quiz lms, c tobedeleted 5000 Test sis, d active 1000 Test sis, ; faults 0";

// What is changed is granted anew, and so is what was removed and is back.
const GRANTS: &[Turn] = &[
    Turn::Grants(""),
    Turn::Grants("west,west-1,roster.readonly,s1\neast,east-1,roster.readonly,s1\n"),
    Turn::Grants("east,east-1,roster.readonly,s1\nwest,west-1,roster.readonly,s1\n"),
    Turn::Grants("east,east-2,roster.readonly,s1\nwest,west-1,roster.readonly,s1\n"),
    Turn::Grants(
        "east,east-2,roster.readonly gradebook.readonly,s1\nwest,west-1,roster.readonly,s1\n",
    ),
    Turn::Grants(
        "east,east-2,roster.readonly gradebook.readonly,*\nwest,west-1,roster.readonly,s1\n",
    ),
    Turn::Grants("west,west-1,roster.readonly,s1\n"),
    Turn::Grants(
        "east,east-2,roster.readonly gradebook.readonly,*\nwest,west-1,roster.readonly,s1\n",
    ),
    Turn::Set("sis", "delta", "a,active,1970-01-01T00:00:01Z,Quiz\n"),
    Turn::Grants(""),
];

const GRANTS_TOLD: &str =
    "same 0, new 1, same 1, new 2, new 3, new 4, new 5, new 6, new 7, new 8, from 0: ; \
east east-1 1 s1 since 1, west west-1 1 s1 since 1, ; \
east east-2 1 s1 since 2, west west-1 1 s1 since 1, ; \
east east-2 9 s1 since 3, west west-1 1 s1 since 1, ; \
east east-2 9 * since 4, west west-1 1 s1 since 1, ; \
west west-1 1 s1 since 1, ; \
east east-2 9 * since 6, west west-1 1 s1 since 1, ; \
a active 1000 Quiz sis, east east-2 9 * since 6, west west-1 1 s1 since 1, ; \
a active 1000 Quiz sis, ; faults 0";

const BOTH: &[Turn] = &[
    Turn::Set("sis", "delta", "a,active,1970-01-01T00:00:01Z,Quiz\n"),
    Turn::Set("sis", "delta", "a,active,1970-01-01T00:00:01Z,Quiz\n"),
    Turn::Set("sis", "delta", "b,active,1970-01-01T00:00:02Z,Test\n"),
    Turn::Grants("east,east-1,roster.readonly,s1\n"),
    Turn::Set("sis", "delta", "c,active,1970-01-01T00:00:03Z,Exam\n"),
    Turn::Set("sis", "delta", "a,active,1970-01-01T00:00:01Z,Quiz\n"),
];

const NOTHING_FAILS: Failing = Failing {
    before: 0,
    after: 0,
    load: 0,
};

// How many versions are kept, the calls that fail, the turns, and what is told.
static RUNS: [(u32, Failing, &[Turn], &str); 7] = [
    (1, NOTHING_FAILS, SETS, SETS_TOLD),
    (9, NOTHING_FAILS, GRANTS, GRANTS_TOLD),
    (
        1,
        Failing {
            before: 1,
            ..NOTHING_FAILS
        },
        BOTH,
        "failed 0, new 1, new 2, new 3, new 4, same 4, \
from 3: a active 1000 Quiz sis, b active 2000 Test sis, east east-1 1 s1 since 3, ; \
a active 1000 Quiz sis, b active 2000 Test sis, c active 3000 Exam sis, east east-1 1 s1 since 3, ; faults 1",
    ),
    // The load behind the failed commit fails too.
    (
        0,
        Failing {
            after: 1,
            load: 2,
            ..NOTHING_FAILS
        },
        BOTH,
        "failed 0, failed 0, new 2, new 3, new 4, same 4, \
from 4: a active 1000 Quiz sis, b active 2000 Test sis, c active 3000 Exam sis, east east-1 1 s1 since 3, ; faults 2",
    ),
    // The grants fail, before and after they are kept.
    (
        0,
        Failing {
            before: 3,
            ..NOTHING_FAILS
        },
        BOTH,
        "new 1, same 1, new 2, failed 0, new 3, same 3, \
from 3: a active 1000 Quiz sis, b active 2000 Test sis, c active 3000 Exam sis, ; faults 1",
    ),
    (
        0,
        Failing {
            after: 3,
            ..NOTHING_FAILS
        },
        BOTH,
        "new 1, same 1, new 2, failed 0, new 4, same 4, \
from 4: a active 1000 Quiz sis, b active 2000 Test sis, c active 3000 Exam sis, east east-1 1 s1 since 3, ; faults 1",
    ),
    (
        0,
        Failing {
            load: 1,
            ..NOTHING_FAILS
        },
        BOTH,
        "not opened, from 0: ; faults 1",
    ),
];

#[test]
fn sets_and_grants_are_told(rt: HostRuntime) -> Result<(), Fail> {
    for (keep, failing, turns, want) in &RUNS {
        let told = told_over(&rt, rt.alloc(), *keep, *failing, turns)?;
        assert_eq!(rt; told.as_str(), *want);
    }
    Ok(())
}
