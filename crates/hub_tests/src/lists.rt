//! The worked reads of lists: their requests, and the bytes of their replies, which were made outside the program.

use crate::asking::{Stream, assert_streams};
use hub_words::statuses::DONE;
use std::test::Fail;

// A limit above the greatest, an offset at the end, a page between two others, two pages of a filtered and sorted list,
// a field that isn't sorted by, and no fields.
static PAGES: [Stream; 7] = [
    Stream {
        bytes: "GET /ims/oneroster/v1p1/orgs?limit=5000 HTTP/1.1\r\nHost: hub\r\nAuthorization: Bearer tok-e\r\n\r\n",
        status: DONE,
        written: "HTTP/1.1 200 OK\r\nContent-Type: application/json\r\nX-Total-Count: 2\r\nLink: </ims/oneroster/v1p1/orgs?limit=1000&offset=0&hubVersion=2>; rel=\"first\", </ims/oneroster/v1p1/orgs?limit=1000&offset=0&hubVersion=2>; rel=\"last\"\r\nX-Hub-Version: 2\r\nContent-Length: 377\r\n\r\n{\"orgs\":[{\"dateLastModified\":\"2024-08-01T12:00:00.000Z\",\"identifier\":\"LDU\",\"name\":\"Lake District, Unified\",\"sourcedId\":\"d1\",\"status\":\"active\",\"type\":\"district\"},{\"dateLastModified\":\"2024-08-01T12:00:00.000Z\",\"identifier\":\"E-1\",\"name\":\"East High\",\"parent\":{\"href\":\"/ims/oneroster/v1p1/orgs/d1\",\"sourcedId\":\"d1\",\"type\":\"org\"},\"sourcedId\":\"s1\",\"status\":\"active\",\"type\":\"school\"}]}",
    },
    Stream {
        bytes: "GET /ims/oneroster/v1p1/orgs?offset=2 HTTP/1.1\r\nHost: hub\r\nAuthorization: Bearer tok-e\r\n\r\n",
        status: DONE,
        written: "HTTP/1.1 200 OK\r\nContent-Type: application/json\r\nX-Total-Count: 2\r\nLink: </ims/oneroster/v1p1/orgs?limit=100&offset=0&hubVersion=2>; rel=\"prev\", </ims/oneroster/v1p1/orgs?limit=100&offset=0&hubVersion=2>; rel=\"first\", </ims/oneroster/v1p1/orgs?limit=100&offset=0&hubVersion=2>; rel=\"last\"\r\nX-Hub-Version: 2\r\nContent-Length: 11\r\n\r\n{\"orgs\":[]}",
    },
    Stream {
        bytes: "GET /ims/oneroster/v1p1/orgs?limit=1&offset=1 HTTP/1.1\r\nHost: hub\r\nAuthorization: Bearer tok-a\r\n\r\n",
        status: DONE,
        written: "HTTP/1.1 200 OK\r\nContent-Type: application/json\r\nX-Total-Count: 3\r\nLink: </ims/oneroster/v1p1/orgs?limit=1&offset=2&hubVersion=2>; rel=\"next\", </ims/oneroster/v1p1/orgs?limit=1&offset=0&hubVersion=2>; rel=\"prev\", </ims/oneroster/v1p1/orgs?limit=1&offset=0&hubVersion=2>; rel=\"first\", </ims/oneroster/v1p1/orgs?limit=1&offset=2&hubVersion=2>; rel=\"last\"\r\nX-Hub-Version: 2\r\nContent-Length: 225\r\n\r\n{\"orgs\":[{\"dateLastModified\":\"2024-08-01T12:00:00.000Z\",\"identifier\":\"E-1\",\"name\":\"East High\",\"parent\":{\"href\":\"/ims/oneroster/v1p1/orgs/d1\",\"sourcedId\":\"d1\",\"type\":\"org\"},\"sourcedId\":\"s1\",\"status\":\"active\",\"type\":\"school\"}]}",
    },
    Stream {
        bytes: "GET /ims/oneroster/v1p1/users?filter=familyName~'o'%20AND%20status='active'&sort=familyName&orderBy=desc&limit=2 HTTP/1.1\r\nHost: hub\r\nAuthorization: Bearer tok-a\r\n\r\n",
        status: DONE,
        written: "HTTP/1.1 200 OK\r\nContent-Type: application/json\r\nX-Total-Count: 4\r\nLink: </ims/oneroster/v1p1/users?limit=2&offset=2&sort=familyName&orderBy=desc&filter=familyName%7E%27o%27+AND+status%3D%27active%27&hubVersion=2>; rel=\"next\", </ims/oneroster/v1p1/users?limit=2&offset=0&sort=familyName&orderBy=desc&filter=familyName%7E%27o%27+AND+status%3D%27active%27&hubVersion=2>; rel=\"first\", </ims/oneroster/v1p1/users?limit=2&offset=2&sort=familyName&orderBy=desc&filter=familyName%7E%27o%27+AND+status%3D%27active%27&hubVersion=2>; rel=\"last\"\r\nX-Hub-Version: 2\r\nContent-Length: 810\r\n\r\n{\"users\":[{\"agents\":[{\"href\":\"/ims/oneroster/v1p1/users/u4\",\"sourcedId\":\"u4\",\"type\":\"user\"}],\"dateLastModified\":\"2024-08-01T12:00:00.000Z\",\"enabledUser\":\"true\",\"familyName\":\"Oak\",\"givenName\":\"Ann\",\"grades\":[\"09\"],\"metadata\":{\"locker\":\"12\"},\"orgs\":[{\"href\":\"/ims/oneroster/v1p1/orgs/s1\",\"sourcedId\":\"s1\",\"type\":\"org\"}],\"role\":\"student\",\"sourcedId\":\"u1\",\"status\":\"active\",\"userIds\":[{\"identifier\":\"aoak\",\"type\":\"LDAP\"},{\"identifier\":\"77\",\"type\":\"SIS\"}],\"username\":\"aoak\"},{\"dateLastModified\":\"2024-08-01T12:00:00.000Z\",\"enabledUser\":\"true\",\"familyName\":\"Oak\",\"givenName\":\"Ben\",\"grades\":[\"10\"],\"orgs\":[{\"href\":\"/ims/oneroster/v1p1/orgs/s1\",\"sourcedId\":\"s1\",\"type\":\"org\"},{\"href\":\"/ims/oneroster/v1p1/orgs/s2\",\"sourcedId\":\"s2\",\"type\":\"org\"}],\"role\":\"student\",\"sourcedId\":\"u2\",\"status\":\"active\",\"username\":\"boak\"}]}",
    },
    Stream {
        bytes: "GET /ims/oneroster/v1p1/users?limit=2&offset=2&sort=familyName&orderBy=desc&filter=familyName%7E%27o%27+AND+status%3D%27active%27&hubVersion=2 HTTP/1.1\r\nHost: hub\r\nAuthorization: Bearer tok-a\r\n\r\n",
        status: DONE,
        written: "HTTP/1.1 200 OK\r\nContent-Type: application/json\r\nX-Total-Count: 4\r\nLink: </ims/oneroster/v1p1/users?limit=2&offset=0&sort=familyName&orderBy=desc&filter=familyName%7E%27o%27+AND+status%3D%27active%27&hubVersion=2>; rel=\"prev\", </ims/oneroster/v1p1/users?limit=2&offset=0&sort=familyName&orderBy=desc&filter=familyName%7E%27o%27+AND+status%3D%27active%27&hubVersion=2>; rel=\"first\", </ims/oneroster/v1p1/users?limit=2&offset=2&sort=familyName&orderBy=desc&filter=familyName%7E%27o%27+AND+status%3D%27active%27&hubVersion=2>; rel=\"last\"\r\nX-Hub-Version: 2\r\nContent-Length: 601\r\n\r\n{\"users\":[{\"agents\":[{\"href\":\"/ims/oneroster/v1p1/users/u1\",\"sourcedId\":\"u1\",\"type\":\"user\"}],\"dateLastModified\":\"2024-08-01T12:00:00.000Z\",\"enabledUser\":\"true\",\"familyName\":\"Oak\",\"givenName\":\"Dee\",\"orgs\":[{\"href\":\"/ims/oneroster/v1p1/orgs/s1\",\"sourcedId\":\"s1\",\"type\":\"org\"}],\"role\":\"guardian\",\"sourcedId\":\"u4\",\"status\":\"active\",\"username\":\"doak\"},{\"dateLastModified\":\"2024-08-01T12:00:00.000Z\",\"enabledUser\":\"true\",\"familyName\":\"Dow\",\"givenName\":\"Cy\",\"orgs\":[{\"href\":\"/ims/oneroster/v1p1/orgs/s2\",\"sourcedId\":\"s2\",\"type\":\"org\"}],\"role\":\"teacher\",\"sourcedId\":\"u3\",\"status\":\"active\",\"username\":\"cdow\"}]}",
    },
    Stream {
        bytes: "GET /ims/oneroster/v1p1/users?sort=shoe HTTP/1.1\r\nHost: hub\r\nAuthorization: Bearer tok-a\r\n\r\n",
        status: DONE,
        written: "HTTP/1.1 200 OK\r\nContent-Type: application/json\r\nX-Total-Count: 4\r\nLink: </ims/oneroster/v1p1/users?limit=100&offset=0&sort=shoe&hubVersion=2>; rel=\"first\", </ims/oneroster/v1p1/users?limit=100&offset=0&sort=shoe&hubVersion=2>; rel=\"last\"\r\nX-Hub-Warning: invalid_sort_field\r\nX-Hub-Version: 2\r\nContent-Length: 1400\r\n\r\n{\"users\":[{\"agents\":[{\"href\":\"/ims/oneroster/v1p1/users/u4\",\"sourcedId\":\"u4\",\"type\":\"user\"}],\"dateLastModified\":\"2024-08-01T12:00:00.000Z\",\"enabledUser\":\"true\",\"familyName\":\"Oak\",\"givenName\":\"Ann\",\"grades\":[\"09\"],\"metadata\":{\"locker\":\"12\"},\"orgs\":[{\"href\":\"/ims/oneroster/v1p1/orgs/s1\",\"sourcedId\":\"s1\",\"type\":\"org\"}],\"role\":\"student\",\"sourcedId\":\"u1\",\"status\":\"active\",\"userIds\":[{\"identifier\":\"aoak\",\"type\":\"LDAP\"},{\"identifier\":\"77\",\"type\":\"SIS\"}],\"username\":\"aoak\"},{\"dateLastModified\":\"2024-08-01T12:00:00.000Z\",\"enabledUser\":\"true\",\"familyName\":\"Oak\",\"givenName\":\"Ben\",\"grades\":[\"10\"],\"orgs\":[{\"href\":\"/ims/oneroster/v1p1/orgs/s1\",\"sourcedId\":\"s1\",\"type\":\"org\"},{\"href\":\"/ims/oneroster/v1p1/orgs/s2\",\"sourcedId\":\"s2\",\"type\":\"org\"}],\"role\":\"student\",\"sourcedId\":\"u2\",\"status\":\"active\",\"username\":\"boak\"},{\"dateLastModified\":\"2024-08-01T12:00:00.000Z\",\"enabledUser\":\"true\",\"familyName\":\"Dow\",\"givenName\":\"Cy\",\"orgs\":[{\"href\":\"/ims/oneroster/v1p1/orgs/s2\",\"sourcedId\":\"s2\",\"type\":\"org\"}],\"role\":\"teacher\",\"sourcedId\":\"u3\",\"status\":\"active\",\"username\":\"cdow\"},{\"agents\":[{\"href\":\"/ims/oneroster/v1p1/users/u1\",\"sourcedId\":\"u1\",\"type\":\"user\"}],\"dateLastModified\":\"2024-08-01T12:00:00.000Z\",\"enabledUser\":\"true\",\"familyName\":\"Oak\",\"givenName\":\"Dee\",\"orgs\":[{\"href\":\"/ims/oneroster/v1p1/orgs/s1\",\"sourcedId\":\"s1\",\"type\":\"org\"}],\"role\":\"guardian\",\"sourcedId\":\"u4\",\"status\":\"active\",\"username\":\"doak\"}]}",
    },
    Stream {
        bytes: "GET /ims/oneroster/v1p1/users?fields= HTTP/1.1\r\nHost: hub\r\nAuthorization: Bearer tok-a\r\n\r\n",
        status: DONE,
        written: "HTTP/1.1 400 Bad Request\r\nContent-Type: application/json\r\nX-Hub-Version: 2\r\nContent-Length: 129\r\n\r\n{\"imsx_codeMajor\":\"failure\",\"imsx_codeMinor\":\"invalid_selection_field\",\"imsx_description\":\"empty fields\",\"imsx_severity\":\"error\"}",
    },
];

#[test]
fn lists_are_answered(rt: HostRuntime) -> Result<(), Fail> {
    assert_streams(&rt, rt.alloc(), &PAGES)
}
