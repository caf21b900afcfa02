//! Writes of one caller, one behind another: the whole reply to each.

use crate::asking::{Stream, assert_streams};
use hub_words::statuses::DONE;
use std::test::Fail;

static WRITES: [Stream; 11] = [
    Stream {
        bytes: "PUT /ims/oneroster/v1p1/categories/c2 HTTP/1.1\r\nHost: hub\r\nAuthorization: Bearer tok-e\r\nContent-Length: 29\r\n\r\n{\"category\":{\"title\":\"Quiz\"}}",
        status: DONE,
        written: "HTTP/1.1 201 Created\r\nContent-Type: application/json\r\nX-Hub-Version: 3\r\nContent-Length: 107\r\n\r\n{\"imsx_codeMajor\":\"success\",\"imsx_codeMinor\":\"full_success\",\"imsx_description\":\"\",\"imsx_severity\":\"status\"}",
    },
    Stream {
        bytes: "PUT /ims/oneroster/v1p1/categories/c2 HTTP/1.1\r\nHost: hub\r\nAuthorization: Bearer tok-e\r\nContent-Length: 29\r\n\r\n{\"category\":{\"title\":\"Quiz\"}}",
        status: DONE,
        written: "HTTP/1.1 201 Created\r\nContent-Type: application/json\r\nX-Hub-Version: 3\r\nContent-Length: 107\r\n\r\n{\"imsx_codeMajor\":\"success\",\"imsx_codeMinor\":\"full_success\",\"imsx_description\":\"\",\"imsx_severity\":\"status\"}",
    },
    Stream {
        bytes: "DELETE /ims/oneroster/v1p1/categories/c2 HTTP/1.1\r\nHost: hub\r\nAuthorization: Bearer tok-e\r\n\r\n",
        status: DONE,
        written: "HTTP/1.1 204 No Content\r\nX-Hub-Version: 4\r\n\r\n",
    },
    Stream {
        bytes: "DELETE /ims/oneroster/v1p1/categories/c2 HTTP/1.1\r\nHost: hub\r\nAuthorization: Bearer tok-e\r\n\r\n",
        status: DONE,
        written: "HTTP/1.1 204 No Content\r\nX-Hub-Version: 4\r\n\r\n",
    },
    Stream {
        bytes: "GET /ims/oneroster/v1p1/categories/c2 HTTP/1.1\r\nHost: hub\r\nAuthorization: Bearer tok-e\r\n\r\n",
        status: DONE,
        written: "HTTP/1.1 200 OK\r\nContent-Type: application/json\r\nX-Hub-Version: 4\r\nContent-Length: 115\r\n\r\n{\"category\":{\"dateLastModified\":\"2024-08-01T12:00:00.000Z\",\"sourcedId\":\"c2\",\"status\":\"tobedeleted\",\"title\":\"Quiz\"}}",
    },
    Stream {
        bytes: "DELETE /ims/oneroster/v1p1/categories/hw HTTP/1.1\r\nHost: hub\r\nAuthorization: Bearer tok-e\r\n\r\n",
        status: DONE,
        written: "HTTP/1.1 422 Unprocessable Entity\r\nContent-Type: application/json\r\nX-Hub-Version: 4\r\nContent-Length: 119\r\n\r\n{\"imsx_codeMajor\":\"failure\",\"imsx_codeMinor\":\"not_owner\",\"imsx_description\":\"owned by another\",\"imsx_severity\":\"error\"}",
    },
    Stream {
        bytes: "DELETE /ims/oneroster/v1p1/categories/zzz HTTP/1.1\r\nHost: hub\r\nAuthorization: Bearer tok-e\r\n\r\n",
        status: DONE,
        written: "HTTP/1.1 404 Not Found\r\nContent-Type: application/json\r\nX-Hub-Version: 4\r\nContent-Length: 122\r\n\r\n{\"imsx_codeMajor\":\"failure\",\"imsx_codeMinor\":\"unknown_object\",\"imsx_description\":\"no such object\",\"imsx_severity\":\"error\"}",
    },
    Stream {
        bytes: "PUT /ims/oneroster/v1p1/lineItems/li3 HTTP/1.1\r\nHost: hub\r\nAuthorization: Bearer tok-e\r\nContent-Length: 171\r\n\r\n{\"lineItem\":{\"title\":\"Set 2\",\"assignDate\":\"2024-09-01\",\"dueDate\":\"2024-09-08\",\"class\":{\"sourcedId\":\"k1\"},\"category\":{\"sourcedId\":\"hw\"},\"gradingPeriod\":{\"sourcedId\":\"t1\"}}}",
        status: DONE,
        written: "HTTP/1.1 422 Unprocessable Entity\r\nContent-Type: application/json\r\nX-Hub-Version: 4\r\nContent-Length: 138\r\n\r\n{\"imsx_codeMajor\":\"failure\",\"imsx_codeMinor\":\"invalid_reference\",\"imsx_description\":\"reference of the wrong type\",\"imsx_severity\":\"error\"}",
    },
    Stream {
        bytes: "PUT /ims/oneroster/v1p1/results/r2 HTTP/1.1\r\nHost: hub\r\nAuthorization: Bearer tok-e\r\nContent-Length: 123\r\n\r\n{\"result\":{\"lineItem\":{\"sourcedId\":\"li1\"},\"student\":{\"sourcedId\":\"u3\"},\"scoreStatus\":\"submitted\",\"scoreDate\":\"2024-09-02\"}}",
        status: DONE,
        written: "HTTP/1.1 422 Unprocessable Entity\r\nContent-Type: application/json\r\nX-Hub-Version: 4\r\nContent-Length: 138\r\n\r\n{\"imsx_codeMajor\":\"failure\",\"imsx_codeMinor\":\"invalid_reference\",\"imsx_description\":\"reference outside the grant\",\"imsx_severity\":\"error\"}",
    },
    Stream {
        bytes: "PUT /ims/oneroster/v1p1/results/r2 HTTP/1.1\r\nHost: hub\r\nAuthorization: Bearer tok-e\r\nX-Hub-Mark: 0\r\nContent-Length: 123\r\n\r\n{\"result\":{\"lineItem\":{\"sourcedId\":\"li1\"},\"student\":{\"sourcedId\":\"u3\"},\"scoreStatus\":\"submitted\",\"scoreDate\":\"2024-09-02\"}}",
        status: DONE,
        written: "HTTP/1.1 400 Bad Request\r\nContent-Type: application/json\r\nX-Hub-Version: 4\r\nContent-Length: 114\r\n\r\n{\"imsx_codeMajor\":\"failure\",\"imsx_codeMinor\":\"invalid_data\",\"imsx_description\":\"bad mark\",\"imsx_severity\":\"error\"}",
    },
    Stream {
        bytes: "PUT /ims/oneroster/v1p1/categories/%20x HTTP/1.1\r\nHost: hub\r\nAuthorization: Bearer tok-e\r\nContent-Length: 29\r\n\r\n{\"category\":{\"title\":\"Quiz\"}}",
        status: DONE,
        written: "HTTP/1.1 404 Not Found\r\nContent-Type: application/json\r\nContent-Length: 120\r\n\r\n{\"imsx_codeMajor\":\"failure\",\"imsx_codeMinor\":\"unknown_object\",\"imsx_description\":\"no such path\",\"imsx_severity\":\"error\"}",
    },
];

#[test]
fn writes_are_answered_in_order(rt: HostRuntime) -> Result<(), Fail> {
    assert_streams(&rt, rt.alloc(), &WRITES)
}
