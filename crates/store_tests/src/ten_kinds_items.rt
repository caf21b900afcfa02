//! The items of stores that a program with ten kinds kept, before resources were kinds.

/// An item of a store.
pub struct Kept {
    pub area: u32,
    pub label: &'static [u8],
    pub body: &'static [u8],
}

// The areas of both stores.
const FORMAT: u32 = 0;

const STATE: u32 = 1;

// The other areas of a hub's store.
const VERSIONS: u32 = 3;

const CHANGE_ROWS: u32 = 4;

const GRANTS: u32 = 5;

// The other areas of a copy's store: of the stage, and of the rows of a kind on the side that is staged.
const STAGE: u32 = 2;

const ORGS_ROWS: u32 = 64;

const SESSIONS_ROWS: u32 = 65;

const COURSES_ROWS: u32 = 66;

/// A hub of the whole example district and two grants, in versions 1 and 2.
pub const HUB: &[Kept] = &[
    Kept {
        area: FORMAT,
        label: b"",
        body: b"\x00\x00\x00\x00\x00\x00\x00\x01",
    },
    Kept {
        area: STATE,
        label: b"",
        body: b"\x00\x00\x00\x00\x00\x00'\x10\x00\x00\x00\x00\x00\x00\x00\x00\x00\x00\x00\x00\x00\x00\x00\x00",
    },
    Kept {
        area: VERSIONS,
        label: b"\x00\x00\x00\x00\x00\x00\x00\x01",
        body: b"\x00\x00\x01\xa2*\xf7 v\x00",
    },
    Kept {
        area: VERSIONS,
        label: b"\x00\x00\x00\x00\x00\x00\x00\x02",
        body: b"\x00\x00\x01\xa2*\xf7\"\xbf\x01",
    },
    Kept {
        area: CHANGE_ROWS,
        label: b"\x00\x00\x00\x00\x00\x00\x00\x01\x00d1",
        body: b"\x01\x00\x00\x00\x00\x00\x00\x00\x03sis\x00\x00\x00\x00\x00\x00\x00\x9f{\"org\":{\"dateLastModified\":\"2026-11-30T05:39:28.502Z\",\"identifier\":\"LDU\",\"name\":\"Lake District, Unified\",\"sourcedId\":\"d1\",\"status\":\"active\",\"type\":\"district\"}}",
    },
    Kept {
        area: CHANGE_ROWS,
        label: b"\x00\x00\x00\x00\x00\x00\x00\x01\x00s1",
        body: b"\x01\x00\x00\x00\x00\x00\x00\x00\x03sis\x00\x00\x00\x00\x00\x00\x00\xde{\"org\":{\"dateLastModified\":\"2026-11-30T05:39:28.502Z\",\"identifier\":\"E-1\",\"name\":\"East High\",\"parent\":{\"href\":\"/ims/oneroster/v1p1/orgs/d1\",\"sourcedId\":\"d1\",\"type\":\"org\"},\"sourcedId\":\"s1\",\"status\":\"active\",\"type\":\"school\"}}",
    },
    Kept {
        area: CHANGE_ROWS,
        label: b"\x00\x00\x00\x00\x00\x00\x00\x01\x00s2",
        body: b"\x01\x00\x00\x00\x00\x00\x00\x00\x03sis\x00\x00\x00\x00\x00\x00\x00\xcb{\"org\":{\"dateLastModified\":\"2026-11-30T05:39:28.502Z\",\"name\":\"West High\",\"parent\":{\"href\":\"/ims/oneroster/v1p1/orgs/d1\",\"sourcedId\":\"d1\",\"type\":\"org\"},\"sourcedId\":\"s2\",\"status\":\"active\",\"type\":\"school\"}}",
    },
    Kept {
        area: CHANGE_ROWS,
        label: b"\x00\x00\x00\x00\x00\x00\x00\x01\x01g1",
        body: b"\x01\x00\x00\x00\x00\x00\x00\x00\x03sis\x00\x00\x00\x00\x00\x00\x01;{\"academicSession\":{\"dateLastModified\":\"2026-11-30T05:39:28.502Z\",\"endDate\":\"2024-10-11\",\"parent\":{\"href\":\"/ims/oneroster/v1p1/academicSessions/t1\",\"sourcedId\":\"t1\",\"type\":\"academicSession\"},\"schoolYear\":\"2025\",\"sourcedId\":\"g1\",\"startDate\":\"2024-08-01\",\"status\":\"active\",\"title\":\"Quarter 1\",\"type\":\"gradingPeriod\"}}",
    },
    Kept {
        area: CHANGE_ROWS,
        label: b"\x00\x00\x00\x00\x00\x00\x00\x01\x01t1",
        body: b"\x01\x00\x00\x00\x00\x00\x00\x00\x03sis\x00\x00\x00\x00\x00\x00\x01/{\"academicSession\":{\"dateLastModified\":\"2026-11-30T05:39:28.502Z\",\"endDate\":\"2024-12-20\",\"parent\":{\"href\":\"/ims/oneroster/v1p1/academicSessions/y25\",\"sourcedId\":\"y25\",\"type\":\"academicSession\"},\"schoolYear\":\"2025\",\"sourcedId\":\"t1\",\"startDate\":\"2024-08-01\",\"status\":\"active\",\"title\":\"Fall\",\"type\":\"term\"}}",
    },
    Kept {
        area: CHANGE_ROWS,
        label: b"\x00\x00\x00\x00\x00\x00\x00\x01\x01y25",
        body: b"\x01\x00\x00\x00\x00\x00\x00\x00\x03sis\x00\x00\x00\x00\x00\x00\x00\xd1{\"academicSession\":{\"dateLastModified\":\"2026-11-30T05:39:28.502Z\",\"endDate\":\"2025-06-30\",\"schoolYear\":\"2025\",\"sourcedId\":\"y25\",\"startDate\":\"2024-08-01\",\"status\":\"active\",\"title\":\"2024-25\",\"type\":\"schoolYear\"}}",
    },
    Kept {
        area: CHANGE_ROWS,
        label: b"\x00\x00\x00\x00\x00\x00\x00\x01\x02alg",
        body: b"\x01\x00\x00\x00\x00\x00\x00\x00\x03sis\x00\x00\x00\x00\x00\x00\x01m{\"course\":{\"courseCode\":\"ALG1\",\"dateLastModified\":\"2026-11-30T05:39:28.502Z\",\"grades\":[\"09\",\"10\"],\"org\":{\"href\":\"/ims/oneroster/v1p1/orgs/d1\",\"sourcedId\":\"d1\",\"type\":\"org\"},\"schoolYear\":{\"href\":\"/ims/oneroster/v1p1/academicSessions/y25\",\"sourcedId\":\"y25\",\"type\":\"academicSession\"},\"sourcedId\":\"alg\",\"status\":\"active\",\"subjects\":[\"Mathematics\"],\"title\":\"Algebra I\"}}",
    },
    Kept {
        area: CHANGE_ROWS,
        label: b"\x00\x00\x00\x00\x00\x00\x00\x01\x03k1",
        body: b"\x01\x00\x00\x00\x00\x00\x00\x00\x03sis\x00\x00\x00\x00\x00\x00\x01\xe2{\"class\":{\"classCode\":\"A\",\"classType\":\"scheduled\",\"course\":{\"href\":\"/ims/oneroster/v1p1/courses/alg\",\"sourcedId\":\"alg\",\"type\":\"course\"},\"dateLastModified\":\"2026-11-30T05:39:28.502Z\",\"grades\":[\"09\",\"10\"],\"location\":\"Room 4\",\"periods\":[\"1\",\"3\"],\"school\":{\"href\":\"/ims/oneroster/v1p1/orgs/s1\",\"sourcedId\":\"s1\",\"type\":\"org\"},\"sourcedId\":\"k1\",\"status\":\"active\",\"terms\":[{\"href\":\"/ims/oneroster/v1p1/academicSessions/t1\",\"sourcedId\":\"t1\",\"type\":\"academicSession\"}],\"title\":\"Algebra I A\"}}",
    },
    Kept {
        area: CHANGE_ROWS,
        label: b"\x00\x00\x00\x00\x00\x00\x00\x01\x03k2",
        body: b"\x01\x00\x00\x00\x00\x00\x00\x00\x03sis\x00\x00\x00\x00\x00\x00\x01\xc5{\"class\":{\"classCode\":\"B\",\"classType\":\"scheduled\",\"course\":{\"href\":\"/ims/oneroster/v1p1/courses/alg\",\"sourcedId\":\"alg\",\"type\":\"course\"},\"dateLastModified\":\"2026-11-30T05:39:28.502Z\",\"grades\":[\"09\"],\"periods\":[\"2\"],\"school\":{\"href\":\"/ims/oneroster/v1p1/orgs/s2\",\"sourcedId\":\"s2\",\"type\":\"org\"},\"sourcedId\":\"k2\",\"status\":\"active\",\"terms\":[{\"href\":\"/ims/oneroster/v1p1/academicSessions/t1\",\"sourcedId\":\"t1\",\"type\":\"academicSession\"}],\"title\":\"Algebra I B\"}}",
    },
    Kept {
        area: CHANGE_ROWS,
        label: b"\x00\x00\x00\x00\x00\x00\x00\x01\x04u1",
        body: b"\x01\x00\x00\x00\x00\x00\x00\x00\x03sis\x00\x00\x00\x00\x00\x00\x01\xd4{\"user\":{\"agents\":[{\"href\":\"/ims/oneroster/v1p1/users/u4\",\"sourcedId\":\"u4\",\"type\":\"user\"}],\"dateLastModified\":\"2026-11-30T05:39:28.502Z\",\"enabledUser\":\"true\",\"familyName\":\"Oak\",\"givenName\":\"Ann\",\"grades\":[\"09\"],\"metadata\":{\"locker\":\"12\"},\"orgs\":[{\"href\":\"/ims/oneroster/v1p1/orgs/s1\",\"sourcedId\":\"s1\",\"type\":\"org\"}],\"role\":\"student\",\"sourcedId\":\"u1\",\"status\":\"active\",\"userIds\":[{\"identifier\":\"aoak\",\"type\":\"LDAP\"},{\"identifier\":\"77\",\"type\":\"SIS\"}],\"username\":\"aoak\"}}",
    },
    Kept {
        area: CHANGE_ROWS,
        label: b"\x00\x00\x00\x00\x00\x00\x00\x01\x04u2",
        body: b"\x01\x00\x00\x00\x00\x00\x00\x00\x03sis\x00\x00\x00\x00\x00\x00\x01[{\"user\":{\"dateLastModified\":\"2026-11-30T05:39:28.502Z\",\"enabledUser\":\"true\",\"familyName\":\"Oak\",\"givenName\":\"Ben\",\"grades\":[\"10\"],\"orgs\":[{\"href\":\"/ims/oneroster/v1p1/orgs/s1\",\"sourcedId\":\"s1\",\"type\":\"org\"},{\"href\":\"/ims/oneroster/v1p1/orgs/s2\",\"sourcedId\":\"s2\",\"type\":\"org\"}],\"role\":\"student\",\"sourcedId\":\"u2\",\"status\":\"active\",\"username\":\"boak\"}}",
    },
    Kept {
        area: CHANGE_ROWS,
        label: b"\x00\x00\x00\x00\x00\x00\x00\x01\x04u3",
        body: b"\x01\x00\x00\x00\x00\x00\x00\x00\x03sis\x00\x00\x00\x00\x00\x00\x01\x05{\"user\":{\"dateLastModified\":\"2026-11-30T05:39:28.502Z\",\"enabledUser\":\"true\",\"familyName\":\"Dow\",\"givenName\":\"Cy\",\"orgs\":[{\"href\":\"/ims/oneroster/v1p1/orgs/s2\",\"sourcedId\":\"s2\",\"type\":\"org\"}],\"role\":\"teacher\",\"sourcedId\":\"u3\",\"status\":\"active\",\"username\":\"cdow\"}}",
    },
    Kept {
        area: CHANGE_ROWS,
        label: b"\x00\x00\x00\x00\x00\x00\x00\x01\x04u4",
        body: b"\x01\x00\x00\x00\x00\x00\x00\x00\x03sis\x00\x00\x00\x00\x00\x00\x01Y{\"user\":{\"agents\":[{\"href\":\"/ims/oneroster/v1p1/users/u1\",\"sourcedId\":\"u1\",\"type\":\"user\"}],\"dateLastModified\":\"2026-11-30T05:39:28.502Z\",\"enabledUser\":\"true\",\"familyName\":\"Oak\",\"givenName\":\"Dee\",\"orgs\":[{\"href\":\"/ims/oneroster/v1p1/orgs/s1\",\"sourcedId\":\"s1\",\"type\":\"org\"}],\"role\":\"guardian\",\"sourcedId\":\"u4\",\"status\":\"active\",\"username\":\"doak\"}}",
    },
    Kept {
        area: CHANGE_ROWS,
        label: b"\x00\x00\x00\x00\x00\x00\x00\x01\x05e1",
        body: b"\x01\x00\x00\x00\x00\x00\x00\x00\x03sis\x00\x00\x00\x00\x00\x00\x01y{\"enrollment\":{\"beginDate\":\"2024-08-12\",\"class\":{\"href\":\"/ims/oneroster/v1p1/classes/k1\",\"sourcedId\":\"k1\",\"type\":\"class\"},\"dateLastModified\":\"2024-07-20T08:00:00.000Z\",\"role\":\"student\",\"school\":{\"href\":\"/ims/oneroster/v1p1/orgs/s1\",\"sourcedId\":\"s1\",\"type\":\"org\"},\"sourcedId\":\"e1\",\"status\":\"active\",\"user\":{\"href\":\"/ims/oneroster/v1p1/users/u1\",\"sourcedId\":\"u1\",\"type\":\"user\"}}}",
    },
    Kept {
        area: CHANGE_ROWS,
        label: b"\x00\x00\x00\x00\x00\x00\x00\x01\x05e2",
        body: b"\x01\x00\x00\x00\x00\x00\x00\x00\x03sis\x00\x00\x00\x00\x00\x00\x01`{\"enrollment\":{\"class\":{\"href\":\"/ims/oneroster/v1p1/classes/k2\",\"sourcedId\":\"k2\",\"type\":\"class\"},\"dateLastModified\":\"2024-07-20T08:00:00.000Z\",\"role\":\"student\",\"school\":{\"href\":\"/ims/oneroster/v1p1/orgs/s2\",\"sourcedId\":\"s2\",\"type\":\"org\"},\"sourcedId\":\"e2\",\"status\":\"active\",\"user\":{\"href\":\"/ims/oneroster/v1p1/users/u2\",\"sourcedId\":\"u2\",\"type\":\"user\"}}}",
    },
    Kept {
        area: CHANGE_ROWS,
        label: b"\x00\x00\x00\x00\x00\x00\x00\x01\x05e3",
        body: b"\x01\x00\x00\x00\x00\x00\x00\x00\x03sis\x00\x00\x00\x00\x00\x00\x01q{\"enrollment\":{\"class\":{\"href\":\"/ims/oneroster/v1p1/classes/k2\",\"sourcedId\":\"k2\",\"type\":\"class\"},\"dateLastModified\":\"2024-07-20T08:00:00.000Z\",\"primary\":\"true\",\"role\":\"teacher\",\"school\":{\"href\":\"/ims/oneroster/v1p1/orgs/s2\",\"sourcedId\":\"s2\",\"type\":\"org\"},\"sourcedId\":\"e3\",\"status\":\"active\",\"user\":{\"href\":\"/ims/oneroster/v1p1/users/u3\",\"sourcedId\":\"u3\",\"type\":\"user\"}}}",
    },
    Kept {
        area: CHANGE_ROWS,
        label: b"\x00\x00\x00\x00\x00\x00\x00\x01\x06u1",
        body: b"\x01\x00\x00\x00\x00\x00\x00\x00\x03sis\x00\x00\x00\x00\x00\x00\x00\x8b{\"demographics\":{\"birthDate\":\"2009-03-04\",\"dateLastModified\":\"2026-11-30T05:39:28.502Z\",\"sex\":\"female\",\"sourcedId\":\"u1\",\"status\":\"active\"}}",
    },
    Kept {
        area: CHANGE_ROWS,
        label: b"\x00\x00\x00\x00\x00\x00\x00\x01\x07hw",
        body: b"\x01\x00\x00\x00\x00\x00\x00\x00\x03sis\x00\x00\x00\x00\x00\x00\x00r{\"category\":{\"dateLastModified\":\"2026-11-30T05:39:28.502Z\",\"sourcedId\":\"hw\",\"status\":\"active\",\"title\":\"Homework\"}}",
    },
    Kept {
        area: CHANGE_ROWS,
        label: b"\x00\x00\x00\x00\x00\x00\x00\x01\x08li1",
        body: b"\x01\x00\x00\x00\x00\x00\x00\x00\x03sis\x00\x00\x00\x00\x00\x00\x01\xe3{\"lineItem\":{\"assignDate\":\"2024-08-15\",\"category\":{\"href\":\"/ims/oneroster/v1p1/categories/hw\",\"sourcedId\":\"hw\",\"type\":\"category\"},\"class\":{\"href\":\"/ims/oneroster/v1p1/classes/k1\",\"sourcedId\":\"k1\",\"type\":\"class\"},\"dateLastModified\":\"2026-11-30T05:39:28.502Z\",\"dueDate\":\"2024-08-22\",\"gradingPeriod\":{\"href\":\"/ims/oneroster/v1p1/academicSessions/g1\",\"sourcedId\":\"g1\",\"type\":\"academicSession\"},\"resultValueMax\":100,\"resultValueMin\":0,\"sourcedId\":\"li1\",\"status\":\"active\",\"title\":\"Set 1\"}}",
    },
    Kept {
        area: CHANGE_ROWS,
        label: b"\x00\x00\x00\x00\x00\x00\x00\x01\x09r1",
        body: b"\x01\x00\x00\x00\x00\x00\x00\x00\x03sis\x00\x00\x00\x00\x00\x00\x01K{\"result\":{\"dateLastModified\":\"2026-11-30T05:39:28.502Z\",\"lineItem\":{\"href\":\"/ims/oneroster/v1p1/lineItems/li1\",\"sourcedId\":\"li1\",\"type\":\"lineItem\"},\"score\":78,\"scoreDate\":\"2024-08-23\",\"scoreStatus\":\"fully graded\",\"sourcedId\":\"r1\",\"status\":\"active\",\"student\":{\"href\":\"/ims/oneroster/v1p1/users/u1\",\"sourcedId\":\"u1\",\"type\":\"user\"}}}",
    },
    Kept {
        area: GRANTS,
        label: b"\x00\x00\x00\x00\x00\x00\x00\x02all\x00",
        body: b"\x00\x00\x00\x00\x00\x00\x00\x05tok-a\x09\x00\x00\x00\x00\x00\x00\x00\x00\x02",
    },
    Kept {
        area: GRANTS,
        label: b"\x00\x00\x00\x00\x00\x00\x00\x02east\x00",
        body: b"\x00\x00\x00\x00\x00\x00\x00\x05tok-e9\x01\x00\x00\x00\x00\x00\x00\x00\x01\x00\x00\x00\x00\x00\x00\x00\x02s1\x00\x00\x00\x00\x00\x00\x00\x02",
    },
];

/// A copy of format 1 of that hub, of which the first three kinds are staged and nothing is held.
pub const COPY: &[Kept] = &[
    Kept {
        area: FORMAT,
        label: b"",
        body: b"\x00\x00\x00\x00\x00\x00\x00\x01",
    },
    Kept {
        area: STATE,
        label: b"",
        body: b"\x00\x00\x00\x00\x00\x00\x00\x01\x00\x00\x00\x00\x00\x00\x00\x00\x00\x00",
    },
    Kept {
        area: STAGE,
        label: b"",
        body: b"\x00\x00\x00\x00\x00\x00\x00\x02\x00\x00\x00\x00\x00\x00\x00\x05tok-e\x03\x00\x00\x00\x00\x00\x00\x00\x00\x00\x00",
    },
    Kept {
        area: ORGS_ROWS,
        label: b"d1",
        body: b"\x00\x00\x00\x00\x00\x00\x00\x9f{\"org\":{\"dateLastModified\":\"2026-11-30T05:39:28.502Z\",\"identifier\":\"LDU\",\"name\":\"Lake District, Unified\",\"sourcedId\":\"d1\",\"status\":\"active\",\"type\":\"district\"}}",
    },
    Kept {
        area: ORGS_ROWS,
        label: b"s1",
        body: b"\x00\x00\x00\x00\x00\x00\x00\xde{\"org\":{\"dateLastModified\":\"2026-11-30T05:39:28.502Z\",\"identifier\":\"E-1\",\"name\":\"East High\",\"parent\":{\"href\":\"/ims/oneroster/v1p1/orgs/d1\",\"sourcedId\":\"d1\",\"type\":\"org\"},\"sourcedId\":\"s1\",\"status\":\"active\",\"type\":\"school\"}}",
    },
    Kept {
        area: SESSIONS_ROWS,
        label: b"g1",
        body: b"\x00\x00\x00\x00\x00\x00\x01;{\"academicSession\":{\"dateLastModified\":\"2026-11-30T05:39:28.502Z\",\"endDate\":\"2024-10-11\",\"parent\":{\"href\":\"/ims/oneroster/v1p1/academicSessions/t1\",\"sourcedId\":\"t1\",\"type\":\"academicSession\"},\"schoolYear\":\"2025\",\"sourcedId\":\"g1\",\"startDate\":\"2024-08-01\",\"status\":\"active\",\"title\":\"Quarter 1\",\"type\":\"gradingPeriod\"}}",
    },
    Kept {
        area: SESSIONS_ROWS,
        label: b"t1",
        body: b"\x00\x00\x00\x00\x00\x00\x01/{\"academicSession\":{\"dateLastModified\":\"2026-11-30T05:39:28.502Z\",\"endDate\":\"2024-12-20\",\"parent\":{\"href\":\"/ims/oneroster/v1p1/academicSessions/y25\",\"sourcedId\":\"y25\",\"type\":\"academicSession\"},\"schoolYear\":\"2025\",\"sourcedId\":\"t1\",\"startDate\":\"2024-08-01\",\"status\":\"active\",\"title\":\"Fall\",\"type\":\"term\"}}",
    },
    Kept {
        area: SESSIONS_ROWS,
        label: b"y25",
        body: b"\x00\x00\x00\x00\x00\x00\x00\xd1{\"academicSession\":{\"dateLastModified\":\"2026-11-30T05:39:28.502Z\",\"endDate\":\"2025-06-30\",\"schoolYear\":\"2025\",\"sourcedId\":\"y25\",\"startDate\":\"2024-08-01\",\"status\":\"active\",\"title\":\"2024-25\",\"type\":\"schoolYear\"}}",
    },
    Kept {
        area: COURSES_ROWS,
        label: b"alg",
        body: b"\x00\x00\x00\x00\x00\x00\x01m{\"course\":{\"courseCode\":\"ALG1\",\"dateLastModified\":\"2026-11-30T05:39:28.502Z\",\"grades\":[\"09\",\"10\"],\"org\":{\"href\":\"/ims/oneroster/v1p1/orgs/d1\",\"sourcedId\":\"d1\",\"type\":\"org\"},\"schoolYear\":{\"href\":\"/ims/oneroster/v1p1/academicSessions/y25\",\"sourcedId\":\"y25\",\"type\":\"academicSession\"},\"sourcedId\":\"alg\",\"status\":\"active\",\"subjects\":[\"Mathematics\"],\"title\":\"Algebra I\"}}",
    },
];

/// The stage of that copy as it stood once all ten kinds were there, of which the last seven had no rows.
pub const WHOLE_STAGE: &[Kept] = &[Kept {
    area: STAGE,
    label: b"",
    body: b"\x00\x00\x00\x00\x00\x00\x00\x02\x00\x00\x00\x00\x00\x00\x00\x05tok-e\x0a\x00\x00\x00\x00\x00\x00\x00\x00\x00\x00",
}];
