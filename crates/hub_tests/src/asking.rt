//! Streams of requests in a file: the bytes that each gets, and how it ends.

use crate::runs::{Given, Keepers, LAKE, assert_turn, assert_turns, new_keepers};
use hub_words::statuses::{DONE, REFUSED};
use std::alloc::Global;
use std::process::Abort;
use std::test::Fail;

/// The bytes of a file, the status with which `ask` ends, and what it writes.
pub struct Stream {
    pub bytes: &'static str,
    pub status: u8,
    pub written: &'static str,
}

static STREAMS: [Stream; 23] = [
    Stream {
        bytes: "",
        status: DONE,
        written: "",
    },
    Stream {
        bytes: "GET /ims/oneroster/v1p1/orgs?limit=1 HTTP/1.1\r\nHost: hub\r\nAuthorization: Bearer tok-e\r\n\r\n",
        status: DONE,
        written: "HTTP/1.1 200 OK\r\nContent-Type: application/json\r\nX-Total-Count: 2\r\nLink: </ims/oneroster/v1p1/orgs?limit=1&offset=1&hubVersion=2>; rel=\"next\", </ims/oneroster/v1p1/orgs?limit=1&offset=0&hubVersion=2>; rel=\"first\", </ims/oneroster/v1p1/orgs?limit=1&offset=1&hubVersion=2>; rel=\"last\"\r\nX-Hub-Version: 2\r\nContent-Length: 162\r\n\r\n{\"orgs\":[{\"dateLastModified\":\"2024-08-01T12:00:00.000Z\",\"identifier\":\"LDU\",\"name\":\"Lake District, Unified\",\"sourcedId\":\"d1\",\"status\":\"active\",\"type\":\"district\"}]}",
    },
    Stream {
        bytes: "GET /ims/oneroster/v1p1/orgs?limit=1 HTTP/1.1\r\nHost: hub\r\n\r\n",
        status: DONE,
        written: "HTTP/1.1 401 Unauthorized\r\nContent-Type: application/json\r\nWWW-Authenticate: Bearer\r\nContent-Length: 120\r\n\r\n{\"imsx_codeMajor\":\"failure\",\"imsx_codeMinor\":\"unauthorized\",\"imsx_description\":\"no known token\",\"imsx_severity\":\"error\"}",
    },
    Stream {
        bytes: "GET /ims",
        status: REFUSED,
        written: "refused: request 1: cut\n",
    },
    Stream {
        bytes: "HEAD /ims/oneroster/v1p1/orgs HTTP/1.1\r\nAuthorization: Bearer tok-e\r\n\r\n",
        status: DONE,
        written: "HTTP/1.1 405 Method Not Allowed\r\nContent-Type: application/json\r\nAllow: GET\r\nContent-Length: 0\r\n\r\n",
    },
    Stream {
        bytes: "GET /ims/oneroster/v1p1/orgs?hubVersion=9 HTTP/1.1\r\nHost: hub\r\nAuthorization: Bearer tok-e\r\n\r\n",
        status: DONE,
        written: "HTTP/1.1 404 Not Found\r\nContent-Type: application/json\r\nX-Hub-Version: 2\r\nX-Hub-Oldest: 2\r\nContent-Length: 126\r\n\r\n{\"imsx_codeMajor\":\"failure\",\"imsx_codeMinor\":\"version_not_kept\",\"imsx_description\":\"version not kept\",\"imsx_severity\":\"error\"}",
    },
    Stream {
        bytes: "GET /ims/oneroster/v1p1/demographics/u1 HTTP/1.1\r\nHost: hub\r\nAuthorization: Bearer tok-e\r\n\r\n",
        status: DONE,
        written: "HTTP/1.1 200 OK\r\nContent-Type: application/json\r\nX-Hub-Version: 2\r\nContent-Length: 139\r\n\r\n{\"demographics\":{\"birthDate\":\"2009-03-04\",\"dateLastModified\":\"2024-08-01T12:00:00.000Z\",\"sex\":\"female\",\"sourcedId\":\"u1\",\"status\":\"active\"}}",
    },
    Stream {
        bytes: "GET /ims/oneroster/v1p1/schools/s2/classes HTTP/1.1\r\nHost: hub\r\nAuthorization: Bearer tok-e\r\n\r\n",
        status: DONE,
        written: "HTTP/1.1 404 Not Found\r\nContent-Type: application/json\r\nX-Hub-Version: 2\r\nContent-Length: 122\r\n\r\n{\"imsx_codeMajor\":\"failure\",\"imsx_codeMinor\":\"unknown_object\",\"imsx_description\":\"no such object\",\"imsx_severity\":\"error\"}",
    },
    Stream {
        bytes: "GET /ims/oneroster/v1p1/users/u3 HTTP/1.1\r\nHost: hub\r\nAuthorization: Bearer tok-e\r\n\r\nGET /ims/oneroster/v1p1/users/zzz HTTP/1.1\r\nHost: hub\r\nAuthorization: Bearer tok-e\r\n\r\n",
        status: DONE,
        written: "HTTP/1.1 404 Not Found\r\nContent-Type: application/json\r\nX-Hub-Version: 2\r\nContent-Length: 122\r\n\r\n{\"imsx_codeMajor\":\"failure\",\"imsx_codeMinor\":\"unknown_object\",\"imsx_description\":\"no such object\",\"imsx_severity\":\"error\"}HTTP/1.1 404 Not Found\r\nContent-Type: application/json\r\nX-Hub-Version: 2\r\nContent-Length: 122\r\n\r\n{\"imsx_codeMajor\":\"failure\",\"imsx_codeMinor\":\"unknown_object\",\"imsx_description\":\"no such object\",\"imsx_severity\":\"error\"}",
    },
    Stream {
        bytes: "GET /ims/oneroster/v1p1/orgs?limit=0 HTTP/1.1\r\nHost: hub\r\nAuthorization: Bearer tok-e\r\n\r\n",
        status: DONE,
        written: "HTTP/1.1 400 Bad Request\r\nContent-Type: application/json\r\nX-Hub-Version: 2\r\nContent-Length: 115\r\n\r\n{\"imsx_codeMajor\":\"failure\",\"imsx_codeMinor\":\"invalid_data\",\"imsx_description\":\"bad limit\",\"imsx_severity\":\"error\"}",
    },
    Stream {
        bytes: "GET /ims/oneroster/v1p1/users/u3 HTTP/1.1\r\nHost: hub\r\nAuthorization: Bearer tok-e\r\nX-Hub-Exchange: 7.3\r\n\r\n",
        status: DONE,
        written: "HTTP/1.1 404 Not Found\r\nContent-Type: application/json\r\nX-Hub-Version: 2\r\nX-Hub-Exchange: 7.3\r\nContent-Length: 122\r\n\r\n{\"imsx_codeMajor\":\"failure\",\"imsx_codeMinor\":\"unknown_object\",\"imsx_description\":\"no such object\",\"imsx_severity\":\"error\"}",
    },
    Stream {
        bytes: "GET /ims/oneroster/v1p1/users?filter=shoe='9' HTTP/1.1\r\nHost: hub\r\nAuthorization: Bearer tok-a\r\n\r\n",
        status: DONE,
        written: "HTTP/1.1 400 Bad Request\r\nContent-Type: application/json\r\nX-Hub-Version: 2\r\nContent-Length: 134\r\n\r\n{\"imsx_codeMajor\":\"failure\",\"imsx_codeMinor\":\"invalid_filter_field\",\"imsx_description\":\"unknown filter field\",\"imsx_severity\":\"error\"}",
    },
    Stream {
        bytes: "GET /ims/oneroster/v1p1/users/u3?fields=username HTTP/1.1\r\nHost: hub\r\nAuthorization: Bearer tok-a\r\n\r\n",
        status: DONE,
        written: "HTTP/1.1 200 OK\r\nContent-Type: application/json\r\nX-Hub-Version: 2\r\nContent-Length: 28\r\n\r\n{\"user\":{\"username\":\"cdow\"}}",
    },
    Stream {
        bytes: "GET /ims/oneroster/v1p1/orgs HTTP/1.1\r\nHost: hub\r\nConnection: close\r\n\r\n",
        status: DONE,
        written: "HTTP/1.1 401 Unauthorized\r\nContent-Type: application/json\r\nWWW-Authenticate: Bearer\r\nConnection: close\r\nContent-Length: 120\r\n\r\n{\"imsx_codeMajor\":\"failure\",\"imsx_codeMinor\":\"unauthorized\",\"imsx_description\":\"no known token\",\"imsx_severity\":\"error\"}",
    },
    Stream {
        bytes: "GET /ims/oneroster/v1p1/orgs HTTP/1.1\r\nHost: hub\r\n\r\nGET /ims/oneroster/v1p1/orgs HTTP/1.1\r\nHost: hub\r\nConnection: close\r\n\r\nGET",
        status: REFUSED,
        written: "HTTP/1.1 401 Unauthorized\r\nContent-Type: application/json\r\nWWW-Authenticate: Bearer\r\nContent-Length: 120\r\n\r\n{\"imsx_codeMajor\":\"failure\",\"imsx_codeMinor\":\"unauthorized\",\"imsx_description\":\"no known token\",\"imsx_severity\":\"error\"}HTTP/1.1 401 Unauthorized\r\nContent-Type: application/json\r\nWWW-Authenticate: Bearer\r\nConnection: close\r\nContent-Length: 120\r\n\r\n{\"imsx_codeMajor\":\"failure\",\"imsx_codeMinor\":\"unauthorized\",\"imsx_description\":\"no known token\",\"imsx_severity\":\"error\"}refused: request 3: after close\n",
    },
    Stream {
        bytes: "GET /ims/oneroster/v1p1/orgs HTTP/1.1\r\nHost: hub\r\n\r\nGET /\0 HTTP/1.1\r\n\r\n",
        status: REFUSED,
        written: "HTTP/1.1 401 Unauthorized\r\nContent-Type: application/json\r\nWWW-Authenticate: Bearer\r\nContent-Length: 120\r\n\r\n{\"imsx_codeMajor\":\"failure\",\"imsx_codeMinor\":\"unauthorized\",\"imsx_description\":\"no known token\",\"imsx_severity\":\"error\"}HTTP/1.1 400 Bad Request\r\nContent-Type: application/json\r\nConnection: close\r\nContent-Length: 124\r\n\r\n{\"imsx_codeMajor\":\"failure\",\"imsx_codeMinor\":\"invalid_data\",\"imsx_description\":\"request unreadable\",\"imsx_severity\":\"error\"}refused: request 2: head\n",
    },
    Stream {
        bytes: "PUT /ims/oneroster/v1p1/results/r1 HTTP/1.1\r\nHost: hub\r\nContent-Length: 1\r\nContent-Length: 2\r\n\r\nab",
        status: REFUSED,
        written: "HTTP/1.1 400 Bad Request\r\nContent-Type: application/json\r\nConnection: close\r\nContent-Length: 124\r\n\r\n{\"imsx_codeMajor\":\"failure\",\"imsx_codeMinor\":\"invalid_data\",\"imsx_description\":\"request unreadable\",\"imsx_severity\":\"error\"}refused: request 1: length\n",
    },
    Stream {
        bytes: "PUT /ims/oneroster/v1p1/results/r1 HTTP/1.1\r\nHost: hub\r\nTransfer-Encoding: chunked\r\n\r\n",
        status: REFUSED,
        written: "HTTP/1.1 400 Bad Request\r\nContent-Type: application/json\r\nConnection: close\r\nContent-Length: 124\r\n\r\n{\"imsx_codeMajor\":\"failure\",\"imsx_codeMinor\":\"invalid_data\",\"imsx_description\":\"request unreadable\",\"imsx_severity\":\"error\"}refused: request 1: chunked\n",
    },
    Stream {
        bytes: "PUT /ims/oneroster/v1p1/results/r1 HTTP/1.1\r\nHost: hub\r\nContent-Length: 131073\r\n\r\n",
        status: REFUSED,
        written: "HTTP/1.1 400 Bad Request\r\nContent-Type: application/json\r\nConnection: close\r\nContent-Length: 124\r\n\r\n{\"imsx_codeMajor\":\"failure\",\"imsx_codeMinor\":\"invalid_data\",\"imsx_description\":\"request unreadable\",\"imsx_severity\":\"error\"}refused: request 1: body too long\n",
    },
    Stream {
        bytes: "PUT /ims/oneroster/v1p1/results/r1 HTTP/1.1\r\nHost: hub\r\nContent-Length: 9\r\n\r\n12345678",
        status: REFUSED,
        written: "refused: request 1: cut\n",
    },
    Stream {
        bytes: "GET /ims\0 HTTP/1.1\r\nHost: hub\r\n\r\n",
        status: REFUSED,
        written: "HTTP/1.1 400 Bad Request\r\nContent-Type: application/json\r\nConnection: close\r\nContent-Length: 124\r\n\r\n{\"imsx_codeMajor\":\"failure\",\"imsx_codeMinor\":\"invalid_data\",\"imsx_description\":\"request unreadable\",\"imsx_severity\":\"error\"}refused: request 1: head\n",
    },
    Stream {
        bytes: "GET / HTTP/1.1\r\na: b\r\na: b\r\na: b\r\na: b\r\na: b\r\na: b\r\na: b\r\na: b\r\na: b\r\na: b\r\na: b\r\na: b\r\na: b\r\na: b\r\na: b\r\na: b\r\na: b\r\na: b\r\na: b\r\na: b\r\na: b\r\na: b\r\na: b\r\na: b\r\na: b\r\na: b\r\na: b\r\na: b\r\na: b\r\na: b\r\na: b\r\na: b\r\na: b\r\na: b\r\na: b\r\na: b\r\na: b\r\na: b\r\na: b\r\na: b\r\na: b\r\na: b\r\na: b\r\na: b\r\na: b\r\na: b\r\na: b\r\na: b\r\na: b\r\na: b\r\na: b\r\na: b\r\na: b\r\na: b\r\na: b\r\na: b\r\na: b\r\na: b\r\na: b\r\na: b\r\na: b\r\na: b\r\na: b\r\na: b\r\na: b\r\n\r\n",
        status: REFUSED,
        written: "HTTP/1.1 400 Bad Request\r\nContent-Type: application/json\r\nConnection: close\r\nContent-Length: 124\r\n\r\n{\"imsx_codeMajor\":\"failure\",\"imsx_codeMinor\":\"invalid_data\",\"imsx_description\":\"request unreadable\",\"imsx_severity\":\"error\"}refused: request 1: head too long\n",
    },
    // with 200 arrays, one within another
    Stream {
        bytes: "PUT /ims/oneroster/v1p1/categories/c2 HTTP/1.1\r\nHost: hub\r\nAuthorization: Bearer tok-e\r\nContent-Length: 413\r\n\r\n{\"category\":[[[[[[[[[[[[[[[[[[[[[[[[[[[[[[[[[[[[[[[[[[[[[[[[[[[[[[[[[[[[[[[[[[[[[[[[[[[[[[[[[[[[[[[[[[[[[[[[[[[[[[[[[[[[[[[[[[[[[[[[[[[[[[[[[[[[[[[[[[[[[[[[[[[[[[[[[[[[[[[[[[[[[[[[[[[[[[[[[[[[[[[[[[[[[[[[[[[[[[[[]]]]]]]]]]]]]]]]]]]]]]]]]]]]]]]]]]]]]]]]]]]]]]]]]]]]]]]]]]]]]]]]]]]]]]]]]]]]]]]]]]]]]]]]]]]]]]]]]]]]]]]]]]]]]]]]]]]]]]]]]]]]]]]]]]]]]]]]]]]]]]]]]]]]]]]]]]]]]]]]]]]]]]]]]]]]]]]]]]]]]]]]]]]]]]]]]]]]]]]]}",
        status: DONE,
        written: "HTTP/1.1 400 Bad Request\r\nContent-Type: application/json\r\nX-Hub-Version: 2\r\nContent-Length: 114\r\n\r\n{\"imsx_codeMajor\":\"failure\",\"imsx_codeMinor\":\"invalid_data\",\"imsx_description\":\"bad body\",\"imsx_severity\":\"error\"}",
    },
];

fn assert_over(
    rt: &impl Abort,
    alloc: Global,
    keepers: &mut Keepers,
    streams: &[Stream],
) -> Result<(), Fail> {
    assert_turns(rt, alloc, keepers, &LAKE)?;
    for stream in streams {
        let turn = (
            "ask r.http",
            Given::File("r.http", stream.bytes),
            stream.status,
            stream.written,
        );
        assert_turn(rt, alloc, keepers, &turn)?;
    }
    Ok(())
}

/// Runs `ask` for each of these, one behind another, over the example district.
pub fn assert_streams(rt: &impl Abort, alloc: Global, streams: &[Stream]) -> Result<(), Fail> {
    let mut keepers = new_keepers(alloc);
    let asserted = assert_over(rt, alloc, &mut keepers, streams);
    drop(keepers);
    asserted
}

#[test]
fn streams_are_answered(rt: HostRuntime) -> Result<(), Fail> {
    assert_streams(&rt, rt.alloc(), &STREAMS)
}
