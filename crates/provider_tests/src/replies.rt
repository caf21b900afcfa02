//! Replies to reads and writes, from the wire to the wire, over a hub and a keeper of which a commit fails.

ghost use Rattle.hub_core.specs.Standing.{KeeperFits};

use crate::district::{moment, opened};
use http_wire::{WireReader, write_reply};
use hub_core::Hub;
use keeper_memory::{HubKeeper, MemHub};
use outside_ports::{MemSink, MemSource};
use rest_paths::PathRouter;
use rest_provider::answer;
use status_info::{Reply, Request};
use std::alloc::Global;
use std::process::Abort;
use std::test::Fail;

// The request that a text is.
fn request(rt: &impl Abort, alloc: Global, text: &str) -> Result<Request, Fail> {
    let bytes = text.as_bytes().to_vec(alloc)?;
    let mut source = MemSource::new(bytes, Vec::new(alloc), Vec::new(alloc));
    match WireReader::new(alloc)?.next(alloc, &mut source) {
        Ok(request) => Ok(request),
        Err(_) => panic!(rt; "no request"),
    }
}

/// The reply to a request.
pub fn reply_to<H: HubKeeper>(
    rt: &impl Abort,
    alloc: Global,
    router: &PathRouter,
    hub: &mut Hub,
    keeper: &mut H,
    text: &str,
) -> Result<Reply, Fail>
    requires { KeeperFits (H.stands_for keeper.old) hub.old }
    ensures { KeeperFits (H.stands_for keeper.new) hub.new }
{
    let request = request(rt, alloc, text)?;
    let reply = answer(alloc, router, hub, keeper, &request, moment(rt));
    drop(request);
    Ok(reply)
}

// What is written for a reply.
fn written(alloc: Global, reply: &Reply) -> Result<MemSink, Fail> {
    let mut sink = MemSink::new(alloc, 4096, Vec::new(alloc))?;
    write_reply(&mut sink, reply)?;
    Ok(sink)
}

// What is written for a request is this.
fn compare<H: HubKeeper>(
    rt: &impl Abort,
    alloc: Global,
    router: &PathRouter,
    hub: &mut Hub,
    keeper: &mut H,
    case: &Case,
) -> Result<(), Fail>
    requires { KeeperFits (H.stands_for keeper.old) hub.old }
    ensures { KeeperFits (H.stands_for keeper.new) hub.new }
{
    let (text, want) = *case;
    let reply = reply_to(rt, alloc, router, hub, keeper, text)?;
    let sink = written(alloc, &reply);
    drop(reply);
    let sink = sink?;
    assert_eq!(rt; sink.written(), want.as_bytes(), "{text}");
    Ok(())
}

// A request, and what is written for it.
type Case = (&'static str, &'static str);

// Reads, and what is written for them.
const READS: &[Case] = &[
    (
        "GET /ims/oneroster/v1p1/orgs?limit=1 HTTP/1.1\r\nAuthorization: Bearer tok-r\r\nHost: hub\r\n\r\n",
        "HTTP/1.1 200 OK\r\nContent-Type: application/json\r\nX-Total-Count: 2\r\nLink: </ims/oneroster/v1p1/orgs?limit=1&offset=1&hubVersion=2>; rel=\"next\", </ims/oneroster/v1p1/orgs?limit=1&offset=0&hubVersion=2>; rel=\"first\", </ims/oneroster/v1p1/orgs?limit=1&offset=1&hubVersion=2>; rel=\"last\"\r\nX-Hub-Version: 2\r\nContent-Length: 125\r\n\r\n\
{\"orgs\":[{\"dateLastModified\":\"1970-01-01T00:00:01.000Z\",\"name\":\"Lake\",\"sourcedId\":\"d1\",\"status\":\"active\",\"type\":\"district\"}]}",
    ),
    (
        "GET /ims/oneroster/v1p1/schools/s1 HTTP/1.1\r\nAuthorization: Bearer tok-r\r\nHost: hub\r\n\r\n",
        "HTTP/1.1 200 OK\r\nContent-Type: application/json\r\nX-Hub-Version: 2\r\nContent-Length: 198\r\n\r\n\
{\"org\":{\"dateLastModified\":\"1970-01-01T00:00:01.000Z\",\"name\":\"East\",\"parent\":{\"href\":\"/ims/oneroster/v1p1/orgs/d1\",\"sourcedId\":\"d1\",\"type\":\"org\"},\"sourcedId\":\"s1\",\"status\":\"active\",\"type\":\"school\"}}",
    ),
    (
        "GET /ims/oneroster/v1p1/schools/s2 HTTP/1.1\r\nAuthorization: Bearer tok-r\r\nHost: hub\r\n\r\n",
        "HTTP/1.1 404 Not Found\r\nContent-Type: application/json\r\nX-Hub-Version: 2\r\nContent-Length: 122\r\n\r\n\
{\"imsx_codeMajor\":\"failure\",\"imsx_codeMinor\":\"unknown_object\",\"imsx_description\":\"no such object\",\"imsx_severity\":\"error\"}",
    ),
    (
        "GET /ims/oneroster/v1p1/demographics HTTP/1.1\r\nAuthorization: Bearer tok-r\r\nHost: hub\r\n\r\n",
        "HTTP/1.1 403 Forbidden\r\nContent-Type: application/json\r\nX-Hub-Version: 2\r\nContent-Length: 116\r\n\r\n\
{\"imsx_codeMajor\":\"failure\",\"imsx_codeMinor\":\"forbidden\",\"imsx_description\":\"scope missing\",\"imsx_severity\":\"error\"}",
    ),
    (
        "GET /ims/oneroster/v1p1/orgs?limit=0 HTTP/1.1\r\nAuthorization: Bearer tok-r\r\nHost: hub\r\n\r\n",
        "HTTP/1.1 400 Bad Request\r\nContent-Type: application/json\r\nX-Hub-Version: 2\r\nContent-Length: 115\r\n\r\n\
{\"imsx_codeMajor\":\"failure\",\"imsx_codeMinor\":\"invalid_data\",\"imsx_description\":\"bad limit\",\"imsx_severity\":\"error\"}",
    ),
    (
        "GET /ims/oneroster/v1p1/orgs?hubVersion=1 HTTP/1.1\r\nAuthorization: Bearer tok-r\r\nHost: hub\r\n\r\n",
        "HTTP/1.1 404 Not Found\r\nContent-Type: application/json\r\nX-Hub-Version: 2\r\nX-Hub-Oldest: 2\r\nContent-Length: 126\r\n\r\n\
{\"imsx_codeMajor\":\"failure\",\"imsx_codeMinor\":\"version_not_kept\",\"imsx_description\":\"version not kept\",\"imsx_severity\":\"error\"}",
    ),
    (
        "GET /ims/oneroster/v1p1/orgs?hubSince=2 HTTP/1.1\r\nAuthorization: Bearer tok-r\r\nHost: hub\r\n\r\n",
        "HTTP/1.1 200 OK\r\nContent-Type: application/json\r\nX-Total-Count: 0\r\nLink: </ims/oneroster/v1p1/orgs?limit=100&offset=0&hubSince=2&hubVersion=2>; rel=\"first\", </ims/oneroster/v1p1/orgs?limit=100&offset=0&hubSince=2&hubVersion=2>; rel=\"last\"\r\nX-Hub-Version: 2\r\nContent-Length: 24\r\n\r\n\
{\"hubGone\":[],\"orgs\":[]}",
    ),
    (
        "GET /ims/oneroster/v1p1/orgs?hubSince=1 HTTP/1.1\r\nAuthorization: Bearer tok-r\r\nHost: hub\r\n\r\n",
        "HTTP/1.1 404 Not Found\r\nContent-Type: application/json\r\nX-Hub-Version: 2\r\nX-Hub-Oldest: 2\r\nContent-Length: 126\r\n\r\n\
{\"imsx_codeMajor\":\"failure\",\"imsx_codeMinor\":\"version_not_kept\",\"imsx_description\":\"version not kept\",\"imsx_severity\":\"error\"}",
    ),
    (
        "GET /ims/oneroster/v1p1/orgs?hubSince=2&sort=name HTTP/1.1\r\nAuthorization: Bearer tok-r\r\nHost: hub\r\n\r\n",
        "HTTP/1.1 400 Bad Request\r\nContent-Type: application/json\r\nX-Hub-Version: 2\r\nContent-Length: 118\r\n\r\n\
{\"imsx_codeMajor\":\"failure\",\"imsx_codeMinor\":\"invalid_data\",\"imsx_description\":\"bad hubSince\",\"imsx_severity\":\"error\"}",
    ),
    (
        "GET /ims/oneroster/v1p1/orgs HTTP/1.1\r\nAuthorization: Bearer tok-r\r\nX-Hub-Mark: x\r\nHost: hub\r\n\r\n",
        "HTTP/1.1 400 Bad Request\r\nContent-Type: application/json\r\nX-Hub-Version: 2\r\nContent-Length: 114\r\n\r\n\
{\"imsx_codeMajor\":\"failure\",\"imsx_codeMinor\":\"invalid_data\",\"imsx_description\":\"bad mark\",\"imsx_severity\":\"error\"}",
    ),
    (
        "GET /ims/oneroster/v1p1/pupils HTTP/1.1\r\nAuthorization: Bearer tok-r\r\nHost: hub\r\n\r\n",
        "HTTP/1.1 404 Not Found\r\nContent-Type: application/json\r\nContent-Length: 120\r\n\r\n\
{\"imsx_codeMajor\":\"failure\",\"imsx_codeMinor\":\"unknown_object\",\"imsx_description\":\"no such path\",\"imsx_severity\":\"error\"}",
    ),
    (
        "GET /ims/oneroster/v1p1/orgs HTTP/1.1\r\nHost: hub\r\n\r\n",
        "HTTP/1.1 401 Unauthorized\r\nContent-Type: application/json\r\nWWW-Authenticate: Bearer\r\nContent-Length: 120\r\n\r\n\
{\"imsx_codeMajor\":\"failure\",\"imsx_codeMinor\":\"unauthorized\",\"imsx_description\":\"no known token\",\"imsx_severity\":\"error\"}",
    ),
    (
        "HEAD /ims/oneroster/v1p1/orgs HTTP/1.1\r\nAuthorization: Bearer tok-r\r\nHost: hub\r\n\r\n",
        "HTTP/1.1 405 Method Not Allowed\r\nContent-Type: application/json\r\nAllow: GET\r\nContent-Length: 0\r\n\r\n",
    ),
];

// Writes, and what is written for them.
const WRITES: &[Case] = &[
    (
        "PUT /ims/oneroster/v1p1/categories/c2 HTTP/1.1\r\nHost: hub\r\nAuthorization: Bearer tok-g\r\nX-Hub-Mark: 7\r\nContent-Length: 29\r\n\r\n{\"category\":{\"title\":\"Quiz\"}}",
        "HTTP/1.1 201 Created\r\nContent-Type: application/json\r\nX-Hub-Version: 3\r\nX-Hub-Mark: 7\r\nContent-Length: 107\r\n\r\n{\"imsx_codeMajor\":\"success\",\"imsx_codeMinor\":\"full_success\",\"imsx_description\":\"\",\"imsx_severity\":\"status\"}",
    ),
    (
        "PUT /ims/oneroster/v1p1/categories/c3 HTTP/1.1\r\nHost: hub\r\nAuthorization: Bearer tok-g\r\nContent-Length: 29\r\n\r\n{\"category\":{\"title\":\"Quiz\"}}",
        "HTTP/1.1 201 Created\r\nContent-Type: application/json\r\nX-Hub-Version: 4\r\nContent-Length: 107\r\n\r\n{\"imsx_codeMajor\":\"success\",\"imsx_codeMinor\":\"full_success\",\"imsx_description\":\"\",\"imsx_severity\":\"status\"}",
    ),
    // What the mark tells of, and another write under it.
    (
        "PUT /ims/oneroster/v1p1/categories/c2 HTTP/1.1\r\nHost: hub\r\nAuthorization: Bearer tok-g\r\nX-Hub-Mark: 7\r\nContent-Length: 29\r\n\r\n{\"category\":{\"title\":\"Quiz\"}}",
        "HTTP/1.1 201 Created\r\nContent-Type: application/json\r\nX-Hub-Version: 3\r\nX-Hub-Mark: 7\r\nContent-Length: 107\r\n\r\n{\"imsx_codeMajor\":\"success\",\"imsx_codeMinor\":\"full_success\",\"imsx_description\":\"\",\"imsx_severity\":\"status\"}",
    ),
    (
        "PUT /ims/oneroster/v1p1/categories/c2 HTTP/1.1\r\nHost: hub\r\nAuthorization: Bearer tok-g\r\nX-Hub-Mark: 7\r\nContent-Length: 29\r\n\r\n{\"category\":{\"title\":\"Exam\"}}",
        "HTTP/1.1 422 Unprocessable Entity\r\nContent-Type: application/json\r\nX-Hub-Version: 4\r\nContent-Length: 125\r\n\r\n{\"imsx_codeMajor\":\"failure\",\"imsx_codeMinor\":\"mark_taken\",\"imsx_description\":\"mark of another write\",\"imsx_severity\":\"error\"}",
    ),
    // The mark goes before the body, and the scope before the mark.
    (
        "PUT /ims/oneroster/v1p1/categories/c2 HTTP/1.1\r\nHost: hub\r\nAuthorization: Bearer tok-g\r\nX-Hub-Mark: x\r\nContent-Length: 1\r\n\r\n{",
        "HTTP/1.1 400 Bad Request\r\nContent-Type: application/json\r\nX-Hub-Version: 4\r\nContent-Length: 114\r\n\r\n{\"imsx_codeMajor\":\"failure\",\"imsx_codeMinor\":\"invalid_data\",\"imsx_description\":\"bad mark\",\"imsx_severity\":\"error\"}",
    ),
    (
        "PUT /ims/oneroster/v1p1/categories/c2 HTTP/1.1\r\nHost: hub\r\nAuthorization: Bearer tok-g\r\nX-Hub-Mark: 8\r\nContent-Length: 1\r\n\r\n{",
        "HTTP/1.1 400 Bad Request\r\nContent-Type: application/json\r\nX-Hub-Version: 4\r\nX-Hub-Mark: 8\r\nContent-Length: 114\r\n\r\n{\"imsx_codeMajor\":\"failure\",\"imsx_codeMinor\":\"invalid_data\",\"imsx_description\":\"bad body\",\"imsx_severity\":\"error\"}",
    ),
    (
        "PUT /ims/oneroster/v1p1/categories/c2 HTTP/1.1\r\nHost: hub\r\nAuthorization: Bearer tok-a\r\nX-Hub-Mark: x\r\nContent-Length: 1\r\n\r\n{",
        "HTTP/1.1 403 Forbidden\r\nContent-Type: application/json\r\nX-Hub-Version: 4\r\nContent-Length: 116\r\n\r\n{\"imsx_codeMajor\":\"failure\",\"imsx_codeMinor\":\"forbidden\",\"imsx_description\":\"scope missing\",\"imsx_severity\":\"error\"}",
    ),
    (
        "DELETE /ims/oneroster/v1p1/categories/c2 HTTP/1.1\r\nHost: hub\r\nAuthorization: Bearer tok-g\r\nX-Hub-Mark: 9\r\n\r\n",
        "HTTP/1.1 204 No Content\r\nX-Hub-Version: 5\r\nX-Hub-Mark: 9\r\n\r\n",
    ),
    (
        "DELETE /ims/oneroster/v1p1/categories/c9 HTTP/1.1\r\nHost: hub\r\nAuthorization: Bearer tok-g\r\n\r\n",
        "HTTP/1.1 404 Not Found\r\nContent-Type: application/json\r\nX-Hub-Version: 5\r\nContent-Length: 122\r\n\r\n{\"imsx_codeMajor\":\"failure\",\"imsx_codeMinor\":\"unknown_object\",\"imsx_description\":\"no such object\",\"imsx_severity\":\"error\"}",
    ),
    // The keeper's commit fails once after it has acted.
    (
        "DELETE /ims/oneroster/v1p1/categories/c3 HTTP/1.1\r\nHost: hub\r\nAuthorization: Bearer tok-g\r\n\r\n",
        "HTTP/1.1 500 Internal Server Error\r\nContent-Type: application/json\r\nContent-Length: 118\r\n\r\n{\"imsx_codeMajor\":\"failure\",\"imsx_codeMinor\":\"server_error\",\"imsx_description\":\"store failed\",\"imsx_severity\":\"error\"}",
    ),
    (
        "DELETE /ims/oneroster/v1p1/categories/c3 HTTP/1.1\r\nHost: hub\r\nAuthorization: Bearer tok-g\r\n\r\n",
        "HTTP/1.1 204 No Content\r\nX-Hub-Version: 6\r\n\r\n",
    ),
    (
        "PUT /ims/oneroster/v1p1/orgs/d1 HTTP/1.1\r\nHost: hub\r\nAuthorization: Bearer tok-g\r\nContent-Length: 29\r\n\r\n{\"category\":{\"title\":\"Quiz\"}}",
        "HTTP/1.1 405 Method Not Allowed\r\nContent-Type: application/json\r\nAllow: GET\r\nContent-Length: 125\r\n\r\n{\"imsx_codeMajor\":\"failure\",\"imsx_codeMinor\":\"not_supported\",\"imsx_description\":\"method not allowed\",\"imsx_severity\":\"error\"}",
    ),
    (
        "HEAD /ims/oneroster/v1p1/categories/c2 HTTP/1.1\r\nHost: hub\r\nAuthorization: Bearer tok-g\r\n\r\n",
        "HTTP/1.1 405 Method Not Allowed\r\nContent-Type: application/json\r\nAllow: GET, PUT, DELETE\r\nContent-Length: 0\r\n\r\n",
    ),
];

fn compare_all<H: HubKeeper>(
    rt: &impl Abort,
    alloc: Global,
    hub: &mut Hub,
    keeper: &mut H,
    cases: &[Case],
) -> Result<(), Fail>
    requires { KeeperFits (H.stands_for keeper.old) hub.old }
{
    let router = PathRouter::new(alloc)?;
    for case in cases {
        compare(rt, alloc, &router, hub, keeper, case)?;
    }
    Ok(())
}

fn compare_over<H: HubKeeper>(
    rt: &impl Abort,
    alloc: Global,
    keeper: &mut H,
    cases: &[Case],
) -> Result<(), Fail> {
    let mut hub = opened(rt, alloc, keeper)?;
    let compared = compare_all(rt, alloc, &mut hub, keeper, cases);
    drop(hub);
    compared
}

// Over a keeper in memory, of which the seventh commit fails after it has acted.
fn compare_in_memory(rt: &impl Abort, alloc: Global, cases: &[Case]) -> Result<(), Fail> {
    let failing = vec![in alloc; 7]?;
    let mut keeper = MemHub::new(alloc, 1).with_failures(Vec::new(alloc), failing, Vec::new(alloc));
    let compared = compare_over(rt, alloc, &mut keeper, cases);
    drop(keeper);
    compared
}

#[test]
fn reads_are_answered(rt: HostRuntime) -> Result<(), Fail> {
    compare_in_memory(&rt, rt.alloc(), READS)
}

#[test]
fn writes_are_answered(rt: HostRuntime) -> Result<(), Fail> {
    compare_in_memory(&rt, rt.alloc(), WRITES)
}
