//! What differs from a version on, asked for by a caller of the example district.

use crate::asking::{Stream, assert_streams};
use hub_words::statuses::DONE;
use std::test::Fail;

// The first makes version 3.
static DIFFERENCES: [Stream; 9] = [
    Stream {
        bytes: "PUT /ims/oneroster/v1p1/categories/c2 HTTP/1.1\r\nHost: hub\r\nAuthorization: Bearer tok-e\r\nContent-Length: 29\r\n\r\n{\"category\":{\"title\":\"Quiz\"}}",
        status: DONE,
        written: "HTTP/1.1 201 Created\r\nContent-Type: application/json\r\nX-Hub-Version: 3\r\nContent-Length: 107\r\n\r\n{\"imsx_codeMajor\":\"success\",\"imsx_codeMinor\":\"full_success\",\"imsx_description\":\"\",\"imsx_severity\":\"status\"}",
    },
    Stream {
        bytes: "GET /ims/oneroster/v1p1/categories?hubSince=2&hubVersion=3 HTTP/1.1\r\nHost: hub\r\nAuthorization: Bearer tok-e\r\n\r\n",
        status: DONE,
        written: "HTTP/1.1 200 OK\r\nContent-Type: application/json\r\nX-Total-Count: 1\r\nLink: </ims/oneroster/v1p1/categories?limit=100&offset=0&hubSince=2&hubVersion=3>; rel=\"first\", </ims/oneroster/v1p1/categories?limit=100&offset=0&hubSince=2&hubVersion=3>; rel=\"last\"\r\nX-Hub-Version: 3\r\nContent-Length: 127\r\n\r\n{\"categories\":[{\"dateLastModified\":\"2024-08-01T12:00:00.000Z\",\"sourcedId\":\"c2\",\"status\":\"active\",\"title\":\"Quiz\"}],\"hubGone\":[]}",
    },
    Stream {
        bytes: "GET /ims/oneroster/v1p1/enrollments?hubSince=2 HTTP/1.1\r\nHost: hub\r\nAuthorization: Bearer tok-e\r\n\r\n",
        status: DONE,
        written: "HTTP/1.1 200 OK\r\nContent-Type: application/json\r\nX-Total-Count: 0\r\nLink: </ims/oneroster/v1p1/enrollments?limit=100&offset=0&hubSince=2&hubVersion=3>; rel=\"first\", </ims/oneroster/v1p1/enrollments?limit=100&offset=0&hubSince=2&hubVersion=3>; rel=\"last\"\r\nX-Hub-Version: 3\r\nContent-Length: 31\r\n\r\n{\"enrollments\":[],\"hubGone\":[]}",
    },
    Stream {
        bytes: "GET /ims/oneroster/v1p1/orgs?hubSince=3 HTTP/1.1\r\nHost: hub\r\nAuthorization: Bearer tok-e\r\n\r\n",
        status: DONE,
        written: "HTTP/1.1 200 OK\r\nContent-Type: application/json\r\nX-Total-Count: 0\r\nLink: </ims/oneroster/v1p1/orgs?limit=100&offset=0&hubSince=3&hubVersion=3>; rel=\"first\", </ims/oneroster/v1p1/orgs?limit=100&offset=0&hubSince=3&hubVersion=3>; rel=\"last\"\r\nX-Hub-Version: 3\r\nContent-Length: 24\r\n\r\n{\"hubGone\":[],\"orgs\":[]}",
    },
    Stream {
        bytes: "GET /ims/oneroster/v1p1/orgs?hubSince=1 HTTP/1.1\r\nHost: hub\r\nAuthorization: Bearer tok-e\r\n\r\n",
        status: DONE,
        written: "HTTP/1.1 404 Not Found\r\nContent-Type: application/json\r\nX-Hub-Version: 3\r\nX-Hub-Oldest: 2\r\nContent-Length: 126\r\n\r\n{\"imsx_codeMajor\":\"failure\",\"imsx_codeMinor\":\"version_not_kept\",\"imsx_description\":\"version not kept\",\"imsx_severity\":\"error\"}",
    },
    Stream {
        bytes: "GET /ims/oneroster/v1p1/orgs?hubSince=3&hubVersion=2 HTTP/1.1\r\nHost: hub\r\nAuthorization: Bearer tok-e\r\n\r\n",
        status: DONE,
        written: "HTTP/1.1 404 Not Found\r\nContent-Type: application/json\r\nX-Hub-Version: 2\r\nX-Hub-Oldest: 2\r\nContent-Length: 126\r\n\r\n{\"imsx_codeMajor\":\"failure\",\"imsx_codeMinor\":\"version_not_kept\",\"imsx_description\":\"version not kept\",\"imsx_severity\":\"error\"}",
    },
    Stream {
        bytes: "GET /ims/oneroster/v1p1/orgs?hubSince=2&sort=name HTTP/1.1\r\nHost: hub\r\nAuthorization: Bearer tok-e\r\n\r\n",
        status: DONE,
        written: "HTTP/1.1 400 Bad Request\r\nContent-Type: application/json\r\nX-Hub-Version: 3\r\nContent-Length: 118\r\n\r\n{\"imsx_codeMajor\":\"failure\",\"imsx_codeMinor\":\"invalid_data\",\"imsx_description\":\"bad hubSince\",\"imsx_severity\":\"error\"}",
    },
    Stream {
        bytes: "GET /ims/oneroster/v1p1/schools?hubSince=x HTTP/1.1\r\nHost: hub\r\nAuthorization: Bearer tok-e\r\n\r\n",
        status: DONE,
        written: "HTTP/1.1 400 Bad Request\r\nContent-Type: application/json\r\nX-Hub-Version: 3\r\nContent-Length: 118\r\n\r\n{\"imsx_codeMajor\":\"failure\",\"imsx_codeMinor\":\"invalid_data\",\"imsx_description\":\"bad hubSince\",\"imsx_severity\":\"error\"}",
    },
    Stream {
        bytes: "GET /ims/oneroster/v1p1/categories/c2?hubSince=9 HTTP/1.1\r\nHost: hub\r\nAuthorization: Bearer tok-e\r\n\r\n",
        status: DONE,
        written: "HTTP/1.1 200 OK\r\nContent-Type: application/json\r\nX-Hub-Version: 3\r\nContent-Length: 110\r\n\r\n{\"category\":{\"dateLastModified\":\"2024-08-01T12:00:00.000Z\",\"sourcedId\":\"c2\",\"status\":\"active\",\"title\":\"Quiz\"}}",
    },
];

#[test]
fn differences_are_told(rt: HostRuntime) -> Result<(), Fail> {
    assert_streams(&rt, rt.alloc(), &DIFFERENCES)
}
