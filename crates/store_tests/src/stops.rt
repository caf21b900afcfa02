//! Commits over disks that stop.

use crate::replies::{CHANGES, LATER_ROWS};
use crate::steps::{Step, Turn, files_after, step_in};
use crate::ten_kinds_items::Kept;
use roster_base::NoMemory;
use sqlite::Files;
use sqlite_disk::{Crash, Fuse, Memory};
use std::alloc::Global;
use std::process::Abort;
use std::test::Fail;

const ITEMS: &[Kept] = &[
    Kept {
        area: 1,
        label: b"a",
        body: b"one",
    },
    Kept {
        area: 2,
        label: b"a",
        body: b"other",
    },
];

const MORE_ITEMS: &[Kept] = &[
    Kept {
        area: 1,
        label: b"b",
        body: b"two",
    },
    Kept {
        area: 3,
        label: b"",
        body: b"",
    },
];

// Steps that are taken before, the step that is cut off and what it tells, and the steps that show what a store holds,
// with what they tell before and then.
struct Case {
    before: &'static [Step],
    step: Step,
    told: &'static str,
    shown: &'static [Step],
    was: &'static str,
    then: &'static str,
}

// Items, a change that lets a hub's version go, and what differs of the next version of a copy: each is one change of
// what is shown.
static CASES: [Case; 3] = [
    Case {
        before: &[Step::Put(ITEMS)],
        step: Step::Put(MORE_ITEMS),
        told: "put",
        shown: &[Step::Areas],
        was: "1:1 2:1 ",
        then: "1:2 2:1 3:1 ",
    },
    Case {
        before: &[Step::Hub("publish sis=lake"), Step::Hub("grant g.csv")],
        step: Step::Hub("publish sis=new"),
        told: "0 sis version 3\n",
        shown: &[Step::Areas, Step::Hub("ask s2.http")],
        was: "0:1 1:1 5:2 7:3 0 HTTP/1.1 200 OK\r\nContent-Type: application/json\r\nX-Hub-Version: 2\r\nContent-Length: 41\r\n\r\n{\"org\":{\"name\":\"Wést\",\"sourcedId\":\"s2\"}}",
        then: "0:1 1:1 5:2 7:4 0 HTTP/1.1 200 OK\r\nContent-Type: application/json\r\nX-Hub-Version: 3\r\nContent-Length: 45\r\n\r\n{\"org\":{\"name\":\"West High\",\"sourcedId\":\"s2\"}}",
    },
    Case {
        before: &[Step::Copy(Turn("sync tok-a 100 1", 1, LATER_ROWS))],
        step: Step::Copy(Turn("delta tok-a 100 1", 2, CHANGES)),
        told: "0 complete 6\n",
        shown: &[Step::Copy(Turn("list orgs", 0, &[]))],
        was: "0 {\"orgs\":[{\"dateLastModified\":\"2024-09-01T00:00:00.000Z\",\"name\":\"West\",\"sourcedId\":\"s2\",\"status\":\"active\",\"type\":\"school\"}]}\n",
        then: "0 {\"orgs\":[{\"dateLastModified\":\"2024-09-02T00:00:00.000Z\",\"name\":\"North\",\"sourcedId\":\"s3\",\"status\":\"active\",\"type\":\"school\"}]}\n",
    },
];

// What steps tell, one behind another.
fn told_in(
    alloc: Global,
    mut files: Files<Fuse<Memory>>,
    steps: &[Step],
) -> Result<String, NoMemory> {
    let mut text = String::new(alloc);
    for step in steps {
        let (told, left) = step_in(alloc, files, 0, step);
        files = left;
        text.push_str(told?.as_str())?;
    }
    drop(files);
    Ok(text)
}

// The calls of the log and of the database file at which they stop.
#[derive(Clone, Copy)]
struct Stop {
    log: u64,
    db: u64,
}

// What the step tells over files that stop so, and what the files show once they are back.
fn cut_off(alloc: Global, case: &Case, stop: Stop) -> Result<(String, String), NoMemory> {
    let files = files_after(alloc, 0, case.before);
    let fused = Files {
        log: Fuse::new(files.log, stop.log),
        db: Fuse::new(files.db, stop.db),
    };
    let (told, mut left) = step_in(alloc, fused, 0, &case.step);
    left.log.crash();
    left.db.crash();
    let held = told_in(alloc, left, case.shown);
    Ok((told?, held?))
}

// The stop at a call of the log, or of the database file.
fn stop_at(call: u64, in_log: bool) -> Stop {
    if in_log {
        Stop {
            log: call,
            db: u64::MAX,
        }
    } else {
        Stop {
            log: u64::MAX,
            db: call,
        }
    }
}

// More than the calls of a step.
const CALLS: u64 = 1_000;

// How many calls of the log, or of the database file, the step makes: each stops it in turn. The files show what they
// showed before, or what they are to show then, and the latter where the answer was that it was done.
fn calls_of(rt: &impl Abort, alloc: Global, case: &Case, in_log: bool) -> Result<u64, Fail> {
    for at in 0..CALLS {
        let (told, held) = cut_off(alloc, case, stop_at(at, in_log))?;
        let is_told = told.as_str() == case.told;
        assert!(rt;
            held.as_str() == case.then || (held.as_str() == case.was && !is_told),
            "{} stopped at {at}: {told}, {held}",
            case.told
        );
        if is_told {
            return Ok(at);
        }
    }
    Ok(CALLS)
}

static IN_LOG: [bool; 2] = [true, false];

#[test]
fn stops_leave_a_store_before_or_after(rt: HostRuntime) -> Result<(), Fail> {
    for case in &CASES {
        for in_log in &IN_LOG {
            let calls = calls_of(&rt, rt.alloc(), case, *in_log)?;
            assert!(rt; 0 < calls && calls < CALLS, "{calls}");
        }
    }
    Ok(())
}
