//! What is kept in files that are closed and opened again behind each step: by hubs and copies, in the items of the
//! formats, and by a program with ten kinds.

use crate::replies::{
    CHANGED_ORG, CHANGES_LEFT, CREATED, DELETED, FIRST_ORG, LATER_ROWS, OTHER_ROWS, SHUT,
};
use crate::steps::{Reply, Step, Turn, empty, step_in};
use crate::ten_kinds_items::{COPY, HUB, WHOLE_STAGE};
use std::alloc::Global;
use std::process::Abort;
use std::test::Fail;

// Steps one behind another, and what each tells.
type Steps = &'static [(Step, &'static str)];

// A row stands once, until the last version that shows it goes.
static VERSIONS: [(Step, &str); 14] = [
    (Step::Areas, ""),
    (Step::Hub("publish sis=lake"), "0 sis version 1\n"),
    (Step::Areas, "0:1 1:1 3:1 7:3 8:3 "),
    (Step::Hub("publish sis=lake"), "0 sis unchanged 1\n"),
    // The base is version 1.
    (Step::Hub("grant g.csv"), "0 grants version 2\n"),
    (Step::Areas, "0:1 1:1 3:1 5:2 7:3 "),
    // A row is changed and one is new.
    (Step::Hub("publish sis=new"), "0 sis version 3\n"),
    (Step::Areas, "0:1 1:1 3:1 5:2 7:5 8:2 "),
    // The new one is gone; what the changed one was no version shows.
    (Step::Hub("publish sis=gone"), "0 sis version 4\n"),
    (Step::Areas, "0:1 1:1 3:1 5:2 7:5 8:1 "),
    (Step::Sql(MARK), ""),
    (
        Step::Hub("ask marked.http"),
        "0 HTTP/1.1 204 No Content\r\nX-Hub-Version: 3\r\nX-Hub-Mark: 7\r\n\r\n",
    ),
    (Step::Hub("grant g2.csv"), "0 grants version 5\n"),
    (Step::Areas, "0:1 1:1 3:1 5:3 6:1 7:4 "),
];

// A mark that a caller made, by the bytes of the format: a row that it deleted in version 3.
const MARK: &str =
    "INSERT INTO item (area, label, body) VALUES (6, x'65617374000000000000000007', x'0107000000000000000263310000000000000000090000000000000003')";

// Each item of a first version, by its bytes: no other is left.
const HUB_ITEMS: &str =
    "DELETE FROM item WHERE area = 0 AND label = x'' AND body = x'0000000000000002'; \
DELETE FROM item WHERE area = 1 AND label = x'' AND body = x'000000000000000100000000000000000000000000000000'; \
DELETE FROM item WHERE area = 3 AND label = x'0000000000000001' AND body = x'000001910dcfae0000'; \
DELETE FROM item WHERE area = 7 AND label = x'007332000000000000000001' AND body = x'010000000000000003736973000000000000007d7b226f7267223a7b22646174654c6173744d6f646966696564223a22323032342d30392d30315430303a30303a30302e3030305a222c226e616d65223a22576573742048696768222c22736f75726365644964223a227332222c22737461747573223a22616374697665222c2274797065223a227363686f6f6c227d7d'; \
DELETE FROM item WHERE area = 7 AND label = x'007333000000000000000001' AND body = x'01000000000000000373697300000000000000797b226f7267223a7b22646174654c6173744d6f646966696564223a22323032342d30392d30315430303a30303a30302e3030315a222c226e616d65223a224e6f727468222c22736f75726365644964223a227333222c22737461747573223a22616374697665222c2274797065223a227363686f6f6c227d7d'; \
DELETE FROM item WHERE area = 8 AND label = x'0000000000000001007332' AND body = x''; \
DELETE FROM item WHERE area = 8 AND label = x'0000000000000001007333' AND body = x''";

static FIRST_VERSION: [(Step, &str); 3] = [
    (Step::Hub("publish sis=new"), "0 sis version 1\n"),
    (Step::Sql(HUB_ITEMS), ""),
    (Step::Areas, ""),
];

// A stage outlasts its run; one under another token is let go. Each whole copy stands on the other side, which has no
// rows of before.
static TURNS: [(Step, &str); 19] = [
    (
        Step::Copy(Turn("enter put categories c2 c2.json", 0, &[])),
        "0 entered 1\n",
    ),
    (
        Step::Copy(Turn("enter delete categories c9", 0, &[])),
        "0 entered 2\n",
    ),
    (
        Step::Copy(Turn("send tok-e 1", 1, &[CREATED])),
        "7 interrupted 2\n",
    ),
    (Step::Copy(Turn("outbox", 0, &[])), "0 1 201 3\n2 waiting\n"),
    (
        Step::Copy(Turn("send tok-e 1", 2, &[DELETED])),
        "0 settled 1\n",
    ),
    (Step::Copy(Turn("outbox", 0, &[])), "0 1 201 3\n2 204 4\n"),
    (
        Step::Copy(Turn("sync tok-e 1 1", 3, &[FIRST_ORG])),
        "7 interrupted orgs 1\n",
    ),
    (Step::Copy(Turn("list orgs", 0, &[])), "0 {\"orgs\":[]}\n"),
    (
        Step::Copy(Turn("sync tok-e 1 1", 4, OTHER_ROWS)),
        "0 complete 2\n",
    ),
    (
        Step::Copy(Turn("list orgs", 0, &[])),
        "0 {\"orgs\":[{\"dateLastModified\":\"2024-08-01T12:00:00.000Z\",\"name\":\"Lake\",\"sourcedId\":\"d1\",\"status\":\"active\",\"type\":\"district\"},{\"dateLastModified\":\"2024-08-01T12:00:00.000Z\",\"name\":\"East\",\"sourcedId\":\"s1\",\"status\":\"active\",\"type\":\"school\"}]}\n",
    ),
    (
        Step::Copy(Turn("list categories", 0, &[])),
        "0 {\"categories\":[{\"dateLastModified\":\"2024-08-01T12:00:00.000Z\",\"sourcedId\":\"c2\",\"status\":\"active\",\"title\":\"Quiz\"}]}\n",
    ),
    (
        Step::Copy(Turn("sync tok-e 1 1", 5, &[FIRST_ORG])),
        "7 interrupted orgs 1\n",
    ),
    (
        Step::Copy(Turn("sync tok-a 100 1", 6, LATER_ROWS)),
        "0 complete 5\n",
    ),
    (
        Step::Copy(Turn("list categories", 0, &[])),
        "0 {\"categories\":[]}\n",
    ),
    (
        Step::Copy(Turn("delta tok-a 100 1", 7, &[CHANGED_ORG])),
        "7 interrupted academicSessions 0\n",
    ),
    (
        Step::Copy(Turn("delta tok-a 100 1", 8, CHANGES_LEFT)),
        "0 complete 6\n",
    ),
    (
        Step::Copy(Turn("list orgs", 0, &[])),
        "0 {\"orgs\":[{\"dateLastModified\":\"2024-09-02T00:00:00.000Z\",\"name\":\"North\",\"sourcedId\":\"s3\",\"status\":\"active\",\"type\":\"school\"}]}\n",
    ),
    (Step::Copy(Turn("outbox", 0, &[])), "0 1 201 3\n2 204 4\n"),
    (Step::Areas, "0:1 1:1 3:2 4:1 64:1 "),
];

// Each item of a copy with an entry and an org, by its bytes.
const COPY_ITEMS: &str =
    "DELETE FROM item WHERE area = 0 AND label = x'' AND body = x'0000000000000002'; \
DELETE FROM item WHERE area = 1 AND label = x'' AND body = x'0000000000000001010000000000000005010000000000000001'; \
DELETE FROM item WHERE area = 3 AND label = x'0000000000000001' AND body = x'000700000000000000026332000000000000001d7b2263617465676f7279223a7b227469746c65223a225175697a227d7d00'; \
DELETE FROM item WHERE area = 4 AND label = x'' AND body = x'746f6b2d61'; \
DELETE FROM item WHERE area = 64 AND label = x'7332' AND body = x'00000000000000787b226f7267223a7b22646174654c6173744d6f646966696564223a22323032342d30392d30315430303a30303a30302e3030305a222c226e616d65223a2257657374222c22736f75726365644964223a227332222c22737461747573223a22616374697665222c2274797065223a227363686f6f6c227d7d'";

static FIRST_COPY: [(Step, &str); 4] = [
    (
        Step::Copy(Turn("enter put categories c2 c2.json", 0, &[])),
        "0 entered 1\n",
    ),
    (
        Step::Copy(Turn("sync tok-a 100 1", 1, LATER_ROWS)),
        "0 complete 5\n",
    ),
    (Step::Sql(COPY_ITEMS), ""),
    (Step::Areas, ""),
];

// A hub of ten kinds holds what it held, and none of the new kinds until a set brings some.
static OLD_HUB: [(Step, &str); 10] = [
    (Step::Put(HUB), "put"),
    (Step::Areas, "0:1 1:1 3:2 4:20 5:2 "),
    (
        Step::Hub("ask result.http"),
        "0 HTTP/1.1 200 OK\r\nContent-Type: application/json\r\nX-Hub-Version: 2\r\nContent-Length: 29\r\n\r\n{\"result\":{\"sourcedId\":\"r1\"}}",
    ),
    // The first call took it over.
    (Step::Areas, "0:1 1:1 3:2 5:2 7:20 8:20 "),
    (
        Step::Hub("ask resource.http"),
        "0 HTTP/1.1 403 Forbidden\r\nContent-Type: application/json\r\nX-Hub-Version: 2\r\nContent-Length: 116\r\n\r\n{\"imsx_codeMajor\":\"failure\",\"imsx_codeMinor\":\"forbidden\",\"imsx_description\":\"scope missing\",\"imsx_severity\":\"error\"}",
    ),
    (Step::Hub("grant g3.csv"), "0 grants version 3\n"),
    (Step::Hub("publish sis=lake3"), "0 sis version 4\n"),
    (Step::Areas, "0:1 1:1 3:4 5:3 7:22 8:22 "),
    (
        Step::Hub("ask before.http"),
        "0 HTTP/1.1 404 Not Found\r\nContent-Type: application/json\r\nX-Hub-Version: 3\r\nContent-Length: 122\r\n\r\n{\"imsx_codeMajor\":\"failure\",\"imsx_codeMinor\":\"unknown_object\",\"imsx_description\":\"no such object\",\"imsx_severity\":\"error\"}",
    ),
    (
        Step::Hub("ask resource.http"),
        "0 HTTP/1.1 200 OK\r\nContent-Type: application/json\r\nX-Hub-Version: 4\r\nContent-Length: 32\r\n\r\n{\"resource\":{\"sourcedId\":\"rs1\"}}",
    ),
];

// What comes behind three kinds, and behind ten.
const BEHIND_THREE: &[Reply] = &[SHUT, SHUT, SHUT, SHUT, SHUT, SHUT, SHUT, SHUT, SHUT, SHUT];

const BEHIND_TEN: &[Reply] = &[SHUT, SHUT, SHUT];

// A stage of ten kinds goes on behind its kinds.
const OLD_COPY: Steps = &[
    (Step::Put(COPY), "put"),
    (Step::Areas, "0:1 1:1 2:1 64:2 "),
    (
        Step::Copy(Turn("sync tok-e 100 1", 2, BEHIND_THREE)),
        "0 complete 2\n",
    ),
    (Step::Areas, "0:1 1:1 4:1 64:2 "),
    (
        Step::Copy(Turn("list courses", 0, &[])),
        "0 {\"courses\":[{\"courseCode\":\"ALG1\",\"dateLastModified\":\"2026-11-30T05:39:28.502Z\",\"grades\":[\"09\",\"10\"],\"org\":{\"href\":\"/ims/oneroster/v1p1/orgs/d1\",\"sourcedId\":\"d1\",\"type\":\"org\"},\"schoolYear\":{\"href\":\"/ims/oneroster/v1p1/academicSessions/y25\",\"sourcedId\":\"y25\",\"type\":\"academicSession\"},\"sourcedId\":\"alg\",\"status\":\"active\",\"subjects\":[\"Mathematics\"],\"title\":\"Algebra I\"}]}\n",
    ),
    (
        Step::Copy(Turn("list resources", 0, &[])),
        "0 {\"resources\":[]}\n",
    ),
    (
        Step::Copy(Turn("list courseResources", 0, &[])),
        "0 {\"courseResources\":[]}\n",
    ),
];

// Where all ten were there it isn't whole, and the new ones are asked for.
const OLD_STAGE: Steps = &[
    (Step::Put(COPY), "put"),
    (Step::Put(WHOLE_STAGE), "put"),
    (
        Step::Copy(Turn("sync tok-e 100 1", 2, BEHIND_TEN)),
        "0 complete 2\n",
    ),
];

fn assert_steps(rt: &impl Abort, alloc: Global, keep: u32, steps: Steps) -> Result<(), Fail> {
    let mut files = empty(alloc);
    for (step, want) in steps {
        let (told, left) = step_in(alloc, files, keep, step);
        files = left;
        assert_eq!(rt; told?.as_str(), *want);
    }
    drop(files);
    Ok(())
}

#[test]
fn versions_are_found_again(rt: HostRuntime) -> Result<(), Fail> {
    assert_steps(&rt, rt.alloc(), 1, &VERSIONS)
}

#[test]
fn a_first_version_has_these_items(rt: HostRuntime) -> Result<(), Fail> {
    assert_steps(&rt, rt.alloc(), 1, &FIRST_VERSION)
}

#[test]
fn stages_and_copies_are_found_again(rt: HostRuntime) -> Result<(), Fail> {
    assert_steps(&rt, rt.alloc(), 0, &TURNS)
}

#[test]
fn a_first_copy_has_these_items(rt: HostRuntime) -> Result<(), Fail> {
    assert_steps(&rt, rt.alloc(), 0, &FIRST_COPY)
}

#[test]
fn a_hub_of_ten_kinds_goes_on(rt: HostRuntime) -> Result<(), Fail> {
    assert_steps(&rt, rt.alloc(), 0, &OLD_HUB)
}

static OLD_STORES: [Steps; 2] = [OLD_COPY, OLD_STAGE];

#[test]
fn stages_of_ten_kinds_go_on(rt: HostRuntime) -> Result<(), Fail> {
    for steps in &OLD_STORES {
        assert_steps(&rt, rt.alloc(), 0, steps)?;
    }
    Ok(())
}
