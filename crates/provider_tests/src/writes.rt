//! Verdicts on gradebook writes, by the first check that one fails, under marks, repeated, and over a keeper of which a
//! commit fails.

ghost use Rattle.hub_core.specs.Standing.{KeeperFits};

use crate::district::opened;
use crate::replies::reply_to;
use hub_core::Hub;
use keeper_memory::{HubKeeper, MemHub};
use rest_paths::PathRouter;
use status_info::Cause;
use std::alloc::Global;
use std::process::Abort;
use std::test::Fail;

// A write: the token of who asks, its mark or 0, the row's path, and the body that puts it; a row with no body is
// deleted. Then the cause of the reply, and the version that it tells.
type Asked = (
    &'static str,
    u64,
    &'static str,
    &'static str,
    Cause,
    Option<u64>,
);

const QUIZ: &str = r#"{"category":{"title":"Quiz"}}"#;

const DATED: &str = r#"{"category":{"title":"Quiz","dateLastModified":"2030-01-01"}}"#;

const SET: &str =
    r#"{"lineItem":{"title":"Set","assignDate":"2024-09-01","dueDate":"2024-09-08","class":{"sourcedId":"k1"},"category":{"sourcedId":"hw"}}}"#;

const OTHER: &str =
    r#"{"lineItem":{"title":"Set 3","assignDate":"2024-09-01","dueDate":"2024-09-08","class":{"sourcedId":"k1"},"category":{"sourcedId":"hw"}}}"#;

const OUTSIDE: &str =
    r#"{"lineItem":{"title":"Set","assignDate":"2024-09-01","dueDate":"2024-09-08","class":{"sourcedId":"k2"},"category":{"sourcedId":"hw"}}}"#;

const NOWHERE: &str =
    r#"{"lineItem":{"title":"Set","assignDate":"2024-09-01","dueDate":"2024-09-08","class":{"sourcedId":"k1"},"category":{"sourcedId":"no"}}}"#;

const IN_TERM: &str =
    r#"{"lineItem":{"title":"Set","assignDate":"2024-09-01","dueDate":"2024-09-08","class":{"sourcedId":"k1"},"category":{"sourcedId":"hw"},"gradingPeriod":{"sourcedId":"t1"}}}"#;

const IN_PERIOD: &str =
    r#"{"lineItem":{"title":"Set","assignDate":"2024-09-01","dueDate":"2024-09-08","class":{"sourcedId":"k1"},"category":{"sourcedId":"hw"},"gradingPeriod":{"sourcedId":"g1"}}}"#;

const JUDGED: &[Asked] = &[
    // Put, put again, and put with another date than that of the write.
    ("tok-e", 0, "categories/c2", QUIZ, Cause::Stored, Some(3)),
    ("tok-e", 0, "categories/c2", QUIZ, Cause::Stored, Some(3)),
    ("tok-e", 0, "categories/c2", DATED, Cause::Stored, Some(3)),
    // Rows of the feed and of another caller, also one that isn't seen.
    (
        "tok-e",
        0,
        "categories/hw",
        QUIZ,
        Cause::OwnedByAnother,
        Some(3),
    ),
    (
        "tok-w",
        0,
        "categories/c2",
        QUIZ,
        Cause::OwnedByAnother,
        Some(3),
    ),
    (
        "tok-e",
        0,
        "lineItems/li2",
        SET,
        Cause::OwnedByAnother,
        Some(3),
    ),
    // The body goes before the owner.
    ("tok-e", 0, "categories/hw", "{", Cause::BadBody, Some(3)),
    // A class of the other school, a category that stands nowhere, a grading period of another type, and one of the
    // type.
    (
        "tok-e",
        0,
        "lineItems/li9",
        OUTSIDE,
        Cause::ReferenceOutsideGrant,
        Some(3),
    ),
    (
        "tok-e",
        0,
        "lineItems/li9",
        NOWHERE,
        Cause::ReferenceOutsideGrant,
        Some(3),
    ),
    (
        "tok-e",
        0,
        "lineItems/li9",
        IN_TERM,
        Cause::ReferenceOfWrongType,
        Some(3),
    ),
    (
        "tok-e",
        0,
        "lineItems/li9",
        IN_PERIOD,
        Cause::Stored,
        Some(4),
    ),
    // Rows that stand nowhere, aren't seen, and are the feed's.
    ("tok-e", 0, "results/r9", "", Cause::NoSuchObject, Some(4)),
    (
        "tok-e",
        0,
        "lineItems/li2",
        "",
        Cause::NoSuchObject,
        Some(4),
    ),
    (
        "tok-e",
        0,
        "lineItems/li1",
        "",
        Cause::OwnedByAnother,
        Some(4),
    ),
    // Deleted, deleted again, and put anew.
    ("tok-e", 0, "categories/c2", "", Cause::Deleted, Some(5)),
    ("tok-e", 0, "categories/c2", "", Cause::Deleted, Some(5)),
    ("tok-e", 0, "categories/c2", QUIZ, Cause::Stored, Some(6)),
    (
        "tok-w",
        0,
        "categories/c2",
        "",
        Cause::OwnedByAnother,
        Some(6),
    ),
];

const MARKED: &[Asked] = &[
    ("tok-e", 7, "lineItems/li9", SET, Cause::Stored, Some(3)),
    ("tok-e", 0, "categories/c2", QUIZ, Cause::Stored, Some(4)),
    // The same write is told what was kept; another is refused, whichever part of it differs.
    ("tok-e", 7, "lineItems/li9", SET, Cause::Stored, Some(3)),
    (
        "tok-e",
        7,
        "lineItems/li9",
        OTHER,
        Cause::MarkOfAnotherWrite,
        Some(4),
    ),
    (
        "tok-e",
        7,
        "lineItems/li8",
        SET,
        Cause::MarkOfAnotherWrite,
        Some(4),
    ),
    (
        "tok-e",
        7,
        "lineItems/li9",
        "",
        Cause::MarkOfAnotherWrite,
        Some(4),
    ),
    // A number is each caller's own.
    ("tok-w", 7, "categories/c5", QUIZ, Cause::Stored, Some(5)),
    // A refusal is kept as well, and so is that nothing changed.
    (
        "tok-e",
        8,
        "lineItems/li8",
        OUTSIDE,
        Cause::ReferenceOutsideGrant,
        Some(5),
    ),
    ("tok-e", 9, "categories/c2", QUIZ, Cause::Stored, Some(5)),
    ("tok-e", 10, "categories/c2", "", Cause::Deleted, Some(6)),
    (
        "tok-e",
        8,
        "lineItems/li8",
        OUTSIDE,
        Cause::ReferenceOutsideGrant,
        Some(5),
    ),
    ("tok-e", 9, "categories/c2", QUIZ, Cause::Stored, Some(5)),
    ("tok-e", 10, "categories/c2", "", Cause::Deleted, Some(6)),
    ("tok-e", 7, "lineItems/li9", SET, Cause::Stored, Some(3)),
];

// A change that fails, and a refusal under a mark that does.
const REPEATED: &[Asked] = &[
    ("tok-e", 7, "lineItems/li9", SET, Cause::StoreFailed, None),
    ("tok-e", 7, "lineItems/li9", SET, Cause::Stored, Some(3)),
];

const REFUSED: &[Asked] = &[
    (
        "tok-e",
        8,
        "lineItems/li8",
        OUTSIDE,
        Cause::StoreFailed,
        None,
    ),
    (
        "tok-e",
        8,
        "lineItems/li8",
        OUTSIDE,
        Cause::ReferenceOutsideGrant,
        Some(2),
    ),
];

// A change and its mark are one commit, and a repeat is none.
const NEXT: &[Asked] = &[
    ("tok-e", 7, "lineItems/li9", SET, Cause::Stored, Some(3)),
    ("tok-e", 7, "lineItems/li9", SET, Cause::Stored, Some(3)),
    ("tok-e", 0, "categories/c2", QUIZ, Cause::StoreFailed, None),
    ("tok-e", 0, "categories/c2", QUIZ, Cause::Stored, Some(4)),
];

// The commits that fail before and after they act, 0 being none, and the writes. The first two commits are those of the
// rows and the grants.
static RUNS: [(u64, u64, &[Asked]); 7] = [
    (0, 0, JUDGED),
    (0, 0, MARKED),
    (3, 0, REPEATED),
    (0, 3, REPEATED),
    (3, 0, REFUSED),
    (0, 3, REFUSED),
    (4, 0, NEXT),
];

fn mark_line(alloc: Global, mark: u64) -> Result<String, Fail> {
    if mark == 0 {
        return Ok(String::new(alloc));
    }
    Ok(format!(in alloc; "X-Hub-Mark: {mark}\r\n")?)
}

// The text of the request.
fn text_of(alloc: Global, asked: &Asked) -> Result<String, Fail> {
    let (token, mark, path, body, _, _) = *asked;
    let (verb, length) = (if body.is_empty() { "DELETE" } else { "PUT" }, body.len());
    let mark = mark_line(alloc, mark)?;
    Ok(format!(in alloc;
        "{verb} /ims/oneroster/v1p1/{path} HTTP/1.1\r\nAuthorization: Bearer {token}\r\n{mark}Content-Length: {length}\r\n\r\n{body}"
    )?)
}

fn judge<H: HubKeeper>(
    rt: &impl Abort,
    alloc: Global,
    router: &PathRouter,
    hub: &mut Hub,
    keeper: &mut H,
    asked: &Asked,
) -> Result<(), Fail>
    requires { KeeperFits (H.stands_for keeper.old) hub.old }
    ensures { KeeperFits (H.stands_for keeper.new) hub.new }
{
    let text = text_of(alloc, asked)?;
    let reply = reply_to(rt, alloc, router, hub, keeper, text.as_str())?;
    let told = (reply.cause, reply.version);
    drop(reply);
    let (_, _, _, _, cause, version) = *asked;
    assert_eq!(rt; told, (cause, version), "{text}");
    Ok(())
}

fn judge_all<H: HubKeeper>(
    rt: &impl Abort,
    alloc: Global,
    hub: &mut Hub,
    keeper: &mut H,
    asks: &[Asked],
) -> Result<(), Fail>
    requires { KeeperFits (H.stands_for keeper.old) hub.old }
{
    let router = PathRouter::new(alloc)?;
    for asked in asks {
        judge(rt, alloc, &router, hub, keeper, asked)?;
    }
    Ok(())
}

fn judge_over<H: HubKeeper>(
    rt: &impl Abort,
    alloc: Global,
    keeper: &mut H,
    asks: &[Asked],
) -> Result<(), Fail> {
    let mut hub = opened(rt, alloc, keeper)?;
    let judged = judge_all(rt, alloc, &mut hub, keeper, asks);
    drop(hub);
    judged
}

fn judge_in_memory(
    rt: &impl Abort,
    alloc: Global,
    before: u64,
    after: u64,
    asks: &[Asked],
) -> Result<(), Fail> {
    let before = vec![in alloc; before]?;
    let after = vec![in alloc; after]?;
    let mut keeper = MemHub::new(alloc, 9).with_failures(before, after, Vec::new(alloc));
    let judged = judge_over(rt, alloc, &mut keeper, asks);
    drop(keeper);
    judged
}

#[test]
fn writes_are_judged(rt: HostRuntime) -> Result<(), Fail> {
    for (before, after, asks) in &RUNS {
        judge_in_memory(&rt, rt.alloc(), *before, *after, asks)?;
    }
    Ok(())
}
