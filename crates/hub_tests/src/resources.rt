//! Resources over the example district: their rows, who sees them, and a reference that is missing.

use crate::runs::{Given, Turn, assert_scene};
use std::test::Fail;

const MANIFEST: &str =
    "propertyName,value\nmanifest.version,1.0\noneroster.version,1.1\nfile.resources,bulk\nfile.classResources,bulk\n";

const RESOURCES: &str =
    "sourcedId,status,dateLastModified,vendorResourceId,title,roles,importance,vendorId,applicationId\n\
rs1,,,VR-1,Workbook,\"student,teacher\",primary,acme,\n";

const CLASS_RESOURCES: &str =
    "sourcedId,status,dateLastModified,title,classSourcedId,resourceSourcedId\ncr1,,,Book of A,k1,rs1\n";

const OTHER_RESOURCE: &str =
    "sourcedId,status,dateLastModified,title,classSourcedId,resourceSourcedId\ncr1,,,Book of A,k1,rs2\n";

const GRANTS: &str = "caller,token,scopes,schools\n\
east,tok-e,roster.readonly gradebook.readonly gradebook.createput gradebook.delete resource.readonly,s1\n\
west,tok-w,resource.readonly,s2\n\
all,tok-a,roster.readonly gradebook.readonly,*\n";

const SET: Given = Given::Files(&[
    ("lake3", "manifest.csv", MANIFEST),
    ("lake3", "resources.csv", RESOURCES),
    ("lake3", "classResources.csv", CLASS_RESOURCES),
]);

const BAD_SET: Given = Given::Files(&[
    ("bad3", "manifest.csv", MANIFEST),
    ("bad3", "resources.csv", RESOURCES),
    ("bad3", "classResources.csv", OTHER_RESOURCE),
]);

static TURNS: [Turn; 8] = [
    ("publish sis=lake", Given::Nothing, 0, "sis version 1\n"),
    ("grant g.csv", Given::Nothing, 0, "grants version 2\n"),
    (
        "publish sis=bad3",
        BAD_SET,
        4,
        "refused: classResources cr1 resource rs2: missing\n",
    ),
    ("publish sis=lake3", SET, 0, "sis version 3\n"),
    (
        "grant g3.csv",
        Given::File("g3.csv", GRANTS),
        0,
        "grants version 4\n",
    ),
    (
        "ask r.http",
        Given::File(
            "r.http",
            "GET /ims/oneroster/v1p1/classes/k1/resources HTTP/1.1\r\nHost: hub\r\nAuthorization: Bearer tok-e\r\n\r\n",
        ),
        0,
        "HTTP/1.1 200 OK\r\nContent-Type: application/json\r\nX-Total-Count: 1\r\nLink: </ims/oneroster/v1p1/classes/k1/resources?limit=100&offset=0&hubVersion=4>; rel=\"first\", </ims/oneroster/v1p1/classes/k1/resources?limit=100&offset=0&hubVersion=4>; rel=\"last\"\r\nX-Hub-Version: 4\r\nContent-Length: 215\r\n\r\n{\"resources\":[{\"dateLastModified\":\"2024-08-01T12:00:00.000Z\",\"importance\":\"primary\",\"roles\":[\"student\",\"teacher\"],\"sourcedId\":\"rs1\",\"status\":\"active\",\"title\":\"Workbook\",\"vendorId\":\"acme\",\"vendorResourceId\":\"VR-1\"}]}",
    ),
    // No class of the other school has it.
    (
        "ask r.http",
        Given::File(
            "r.http",
            "GET /ims/oneroster/v1p1/resources/rs1 HTTP/1.1\r\nHost: hub\r\nAuthorization: Bearer tok-w\r\n\r\n",
        ),
        0,
        "HTTP/1.1 404 Not Found\r\nContent-Type: application/json\r\nX-Hub-Version: 4\r\nContent-Length: 122\r\n\r\n{\"imsx_codeMajor\":\"failure\",\"imsx_codeMinor\":\"unknown_object\",\"imsx_description\":\"no such object\",\"imsx_severity\":\"error\"}",
    ),
    (
        "ask r.http",
        Given::File(
            "r.http",
            "GET /ims/oneroster/v1p1/resources HTTP/1.1\r\nHost: hub\r\nAuthorization: Bearer tok-a\r\n\r\n",
        ),
        0,
        "HTTP/1.1 403 Forbidden\r\nContent-Type: application/json\r\nX-Hub-Version: 4\r\nContent-Length: 116\r\n\r\n{\"imsx_codeMajor\":\"failure\",\"imsx_codeMinor\":\"forbidden\",\"imsx_description\":\"scope missing\",\"imsx_severity\":\"error\"}",
    ),
];

#[test]
fn resources_are_published_and_read(rt: HostRuntime) -> Result<(), Fail> {
    assert_scene(&rt, rt.alloc(), &TURNS)
}
