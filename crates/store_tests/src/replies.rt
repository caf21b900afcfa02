//! Replies that a hub gives to a copy: to its writes, to a synchronisation of version 2, and to one of version 5 and
//! its changes in version 6.

use crate::steps::Reply;

/// The first entry, a PUT, is settled.
pub const CREATED: Reply = (
    "HTTP/1.1 201 Created\r\nX-Hub-Version: 3\r\nX-Hub-Mark: 1",
    "",
);

/// The second entry, a DELETE, is settled.
pub const DELETED: Reply = (
    "HTTP/1.1 204 No Content\r\nX-Hub-Version: 4\r\nX-Hub-Mark: 2",
    "",
);

/// The first page of version 2: one of its two orgs.
pub const FIRST_ORG: Reply = (
    "HTTP/1.1 200 OK\r\nX-Total-Count: 2\r\nX-Hub-Version: 2",
    "{\"orgs\":[{\"dateLastModified\":\"2024-08-01T12:00:00.000Z\",\"name\":\"Lake\",\"sourcedId\":\"d1\",\"status\":\"active\",\"type\":\"district\"}]}",
);

// The second page of version 2: its other org.
const SECOND_ORG: Reply = (
    "HTTP/1.1 200 OK\r\nX-Total-Count: 2\r\nX-Hub-Version: 2",
    "{\"orgs\":[{\"dateLastModified\":\"2024-08-01T12:00:00.000Z\",\"name\":\"East\",\"sourcedId\":\"s1\",\"status\":\"active\",\"type\":\"school\"}]}",
);

// The only category of version 2.
const CATEGORY: Reply = (
    "HTTP/1.1 200 OK\r\nX-Total-Count: 1\r\nX-Hub-Version: 2",
    "{\"categories\":[{\"dateLastModified\":\"2024-08-01T12:00:00.000Z\",\"sourcedId\":\"c2\",\"status\":\"active\",\"title\":\"Quiz\"}]}",
);

/// A kind that the token doesn't open in version 2.
pub const SHUT: Reply = ("HTTP/1.1 403 Forbidden\r\nX-Hub-Version: 2", "");

/// The replies to the requests behind the first page of version 2.
pub const OTHER_ROWS: &[Reply] = &[
    SECOND_ORG, SHUT, SHUT, SHUT, SHUT, SHUT, SHUT, CATEGORY, SHUT, SHUT, SHUT, SHUT, SHUT,
];

/// The only org of version 5. The token opens no other kind there.
pub const LATER_ORG: Reply = (
    "HTTP/1.1 200 OK\r\nX-Total-Count: 1\r\nX-Hub-Version: 5",
    "{\"orgs\":[{\"dateLastModified\":\"2024-09-01T00:00:00.000Z\",\"name\":\"West\",\"sourcedId\":\"s2\",\"status\":\"active\",\"type\":\"school\"}]}",
);

/// A kind that the token doesn't open in version 5.
pub const LATER_SHUT: Reply = ("HTTP/1.1 403 Forbidden\r\nX-Hub-Version: 5", "");

/// The replies to a whole copy of version 5.
pub const LATER_ROWS: &[Reply] = &[
    LATER_ORG, LATER_SHUT, LATER_SHUT, LATER_SHUT, LATER_SHUT, LATER_SHUT, LATER_SHUT, LATER_SHUT,
    LATER_SHUT, LATER_SHUT, LATER_SHUT, LATER_SHUT, LATER_SHUT,
];

/// What differs in version 6 from version 5: one org is gone, and another one has come.
pub const CHANGED_ORG: Reply = (
    "HTTP/1.1 200 OK\r\nX-Total-Count: 2\r\nX-Hub-Version: 6",
    "{\"hubGone\":[\"s2\"],\"orgs\":[{\"dateLastModified\":\"2024-09-02T00:00:00.000Z\",\"name\":\"North\",\"sourcedId\":\"s3\",\"status\":\"active\",\"type\":\"school\"}]}",
);

// A kind that the token doesn't open in version 6 either.
const CHANGED_SHUT: Reply = ("HTTP/1.1 403 Forbidden\r\nX-Hub-Version: 6", "");

/// The replies to the other requests for what differs, where the first was answered in a call before.
pub const CHANGES_LEFT: &[Reply] = &[
    CHANGED_SHUT,
    CHANGED_SHUT,
    CHANGED_SHUT,
    CHANGED_SHUT,
    CHANGED_SHUT,
    CHANGED_SHUT,
    CHANGED_SHUT,
    CHANGED_SHUT,
    CHANGED_SHUT,
    CHANGED_SHUT,
    CHANGED_SHUT,
    CHANGED_SHUT,
];

/// The replies to the requests for what differs between versions 5 and 6.
pub const CHANGES: &[Reply] = &[
    CHANGED_ORG,
    CHANGED_SHUT,
    CHANGED_SHUT,
    CHANGED_SHUT,
    CHANGED_SHUT,
    CHANGED_SHUT,
    CHANGED_SHUT,
    CHANGED_SHUT,
    CHANGED_SHUT,
    CHANGED_SHUT,
    CHANGED_SHUT,
    CHANGED_SHUT,
    CHANGED_SHUT,
];
