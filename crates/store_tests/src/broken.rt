//! Stores that are broken, or of another format: each call fails.

use crate::replies::{LATER_ORG, LATER_ROWS};
use crate::steps::{Step, Turn, files_after, step_in};
use roster_base::NoMemory;
use std::alloc::Global;
use std::test::Fail;

const OTHER_FORMAT: &str = "UPDATE item SET body = x'0000000000000003' WHERE area = 0";

// Statements that break a store of a base and two changes.
static BREAKING: [&str; 17] = [
    // Another format.
    OTHER_FORMAT,
    "UPDATE item SET body = x'01' WHERE area = 0",
    // What is cut, or overwritten.
    "DELETE FROM item WHERE area = 1",
    "UPDATE item SET body = x'00' WHERE area = 1",
    "UPDATE item SET body = x'00' WHERE area = 3",
    "UPDATE item SET body = x'00' WHERE area = 5",
    "UPDATE item SET body = x'00' WHERE area = 7",
    "UPDATE item SET body = x'00' WHERE area = 7 AND label = x'007333000000000000000003'",
    // More than is read: behind the state, behind a version's number, and a flag that is none.
    "UPDATE item SET body = x'00000000000000020000000000000001000001910dcfae0000' WHERE area = 1",
    "UPDATE item SET label = x'000000000000000300' WHERE area = 3 AND label = x'0000000000000003'",
    "UPDATE item SET body = x'000001910dcfae0002' WHERE area = 3 AND label = x'0000000000000002'",
    // A row with another id than its label says, in the base and in a change.
    "UPDATE item SET label = x'007334000000000000000001' WHERE area = 7 AND label = x'007332000000000000000001'",
    "UPDATE item SET label = x'007334000000000000000003' WHERE area = 7 AND label = x'007333000000000000000003'",
    // A row of another kind than its label says, one whose label names no version, and a mark without a number.
    "UPDATE item SET label = x'017333000000000000000003' WHERE area = 7 AND label = x'007333000000000000000003'",
    "UPDATE item SET label = x'007333' WHERE area = 7 AND label = x'007333000000000000000003'",
    "INSERT INTO item (area, label, body) VALUES (6, x'65', x'00')",
    // Another shape.
    "DROP TABLE item; CREATE TABLE item (area INTEGER) STRICT; INSERT INTO item VALUES (0)",
];

// The base is version 1.
static HUB: [Step; 3] = [
    Step::Hub("publish sis=lake"),
    Step::Hub("grant g.csv"),
    Step::Hub("publish sis=new"),
];

// The last number becomes 0, where entry 1 stands.
const BEYOND: &str =
    "UPDATE item SET body = x'0000000000000002010000000000000005010000000000000000' WHERE area = 1";

// Statements that break a copy's store, and words that read what they broke.
static BREAKING_COPIES: [(&str, &str); 17] = [
    (OTHER_FORMAT, "outbox"),
    (OTHER_FORMAT, "sync tok-a 100 1"),
    ("UPDATE item SET body = x'01' WHERE area = 0", "outbox"),
    // What is cut, or overwritten.
    ("DELETE FROM item WHERE area = 1", "list orgs"),
    (
        "UPDATE item SET body = x'00' WHERE area = 1",
        "enter delete categories c9",
    ),
    (
        "UPDATE item SET body = x'00' WHERE area = 2",
        "sync tok-a 100 1",
    ),
    ("UPDATE item SET body = x'00' WHERE area = 3", "outbox"),
    ("UPDATE item SET body = x'00' WHERE area = 64", "list orgs"),
    // A side that is none.
    (
        "UPDATE item SET body = x'0000000000000002010000000000000005020000000000000001' WHERE area = 1",
        "send tok-e 1",
    ),
    // A row with another id than its label says, and one of another kind than its area says.
    (
        "UPDATE item SET label = x'7333' WHERE area = 64",
        "list orgs",
    ),
    (
        "UPDATE item SET area = 65 WHERE area = 64",
        "list academicSessions",
    ),
    // A stage that has a row, and no last id.
    (
        "UPDATE item SET body = x'00000000000000050000000000000005746f6b2d6100000000000000000101000000000000000200' WHERE area = 2",
        "sync tok-a 100 1",
    ),
    // Rows, and a state that holds no version.
    (
        "UPDATE item SET body = x'000000000000000200010000000000000001' WHERE area = 1",
        "list orgs",
    ),
    // A token that is no text, and one where no version is held.
    (
        "UPDATE item SET body = x'ff' WHERE area = 4",
        "sync tok-a 100 1",
    ),
    (
        "UPDATE item SET body = x'000000000000000200010000000000000001' WHERE area = 1",
        "sync tok-a 100 1",
    ),
    // An entry that is numbered above the last number: it is neither listed nor written over.
    (BEYOND, "outbox"),
    (BEYOND, "enter delete categories c9"),
];

// An entry, a version that is held, on side 1, and a stage.
static COPY: [Step; 3] = [
    Step::Copy(Turn("enter put categories c2 c2.json", 0, &[])),
    Step::Copy(Turn("sync tok-a 100 1", 1, LATER_ROWS)),
    Step::Copy(Turn("sync tok-a 100 1", 2, &[LATER_ORG])),
];

// What a step tells over a store that steps fill and that a statement breaks.
fn broken(
    alloc: Global,
    steps: &[Step],
    sql: &'static str,
    step: &Step,
) -> Result<String, NoMemory> {
    let files = files_after(alloc, 2, steps);
    let (ran, files) = step_in(alloc, files, 2, &Step::Sql(sql));
    let (told, files) = step_in(alloc, files, 2, step);
    drop(files);
    let mut text = ran?;
    text.push_str(told?.as_str())?;
    Ok(text)
}

#[test]
fn broken_hubs_fail(rt: HostRuntime) -> Result<(), Fail> {
    for sql in &BREAKING {
        let told = broken(rt.alloc(), &HUB, *sql, &Step::Hub("publish sis=gone"))?;
        assert_eq!(rt; told.as_str(), "5 hub store failed\n", "{sql}");
    }
    Ok(())
}

#[test]
fn broken_copies_fail(rt: HostRuntime) -> Result<(), Fail> {
    for (sql, line) in &BREAKING_COPIES {
        let told = broken(rt.alloc(), &COPY, *sql, &Step::Copy(Turn(*line, 3, &[])))?;
        assert_eq!(rt; told.as_str(), "6 copy store failed\n", "{sql} {line}");
    }
    Ok(())
}
