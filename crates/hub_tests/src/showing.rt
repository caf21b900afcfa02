//! The command `show`: the rows of a file in order, or its first fault.

use crate::runs::{Given, Turn, assert_each};
use std::test::Fail;

const DISTRICT: &str =
    "\u{feff}name,sourcedId,type,parentSourcedId,status,dateLastModified,identifier\n\
West High,s2,school,d1,,2024-07-02T10:15:30.5Z,\n\
\"Lake District, Unified\",d1,district,,active,2024-07-01T09:00:00+02:00,LDU\n\
East High,s1,school,d1,,2024-07-02,E-1\n";

const COLLECTION: &str =
    "{\"orgs\":[{\"dateLastModified\":\"2024-07-01T07:00:00.000Z\",\"identifier\":\"LDU\",\"name\":\"Lake District, Unified\",\"sourcedId\":\"d1\",\"status\":\"active\",\"type\":\"district\"},\
{\"dateLastModified\":\"2024-07-02T00:00:00.000Z\",\"identifier\":\"E-1\",\"name\":\"East High\",\"parent\":{\"href\":\"/ims/oneroster/v1p1/orgs/d1\",\"sourcedId\":\"d1\",\"type\":\"org\"},\"sourcedId\":\"s1\",\"status\":\"active\",\"type\":\"school\"},\
{\"dateLastModified\":\"2024-07-02T10:15:30.500Z\",\"name\":\"West High\",\"parent\":{\"href\":\"/ims/oneroster/v1p1/orgs/d1\",\"sourcedId\":\"d1\",\"type\":\"org\"},\"sourcedId\":\"s2\",\"status\":\"active\",\"type\":\"school\"}]}\n";

const UNDATED: &str =
    "{\"orgs\":[{\"dateLastModified\":\"2024-08-01T12:00:00.000Z\",\"name\":\"A\",\"sourcedId\":\"a\",\"status\":\"tobedeleted\",\"type\":\"state\"}]}\n";

static ORGS: [Turn; 12] = [
    (
        "show orgs",
        Given::File("orgs.csv", DISTRICT),
        0,
        COLLECTION,
    ),
    (
        "show orgs",
        Given::File("orgs.csv", "sourcedId,name,type\n"),
        0,
        "{\"orgs\":[]}\n",
    ),
    (
        "show orgs",
        Given::File(
            "orgs.csv",
            "type,status,name,sourcedId\nstate,tobedeleted, A ,a\n",
        ),
        0,
        UNDATED,
    ),
    (
        "show orgs",
        Given::File("orgs.csv", ""),
        4,
        "refused: orgs.csv: column sourcedId missing\n",
    ),
    (
        "show orgs",
        Given::File("orgs.csv", "\u{feff}\u{feff}sourcedId,name,type\n"),
        4,
        "refused: orgs.csv: column sourcedId missing\n",
    ),
    (
        "show orgs",
        Given::File("orgs.csv", "sourcedId,type,type,name\n"),
        4,
        "refused: orgs.csv: column type repeated\n",
    ),
    (
        "show orgs",
        Given::File("orgs.csv", "sourcedId,metadata.a\u{7f},name\n"),
        4,
        "refused: orgs.csv: column metadata.a\u{7f} bad key\n",
    ),
    (
        "show orgs",
        Given::File(
            "orgs.csv",
            "sourcedId,name,type\ns2,a,school\ns2,b,school\n",
        ),
        4,
        "refused: orgs.csv record 3: repeated id\n",
    ),
    (
        "show orgs",
        Given::File("orgs.csv", "sourcedId,name,type\ns2,a,academy\n"),
        4,
        "refused: orgs.csv record 2 field type: not in list\n",
    ),
    (
        "show orgs",
        Given::File("orgs.csv", "sourcedId,name,type\n\ns2,,school\n"),
        4,
        "refused: orgs.csv record 2 field name: empty\n",
    ),
    (
        "show orgs",
        Given::File("orgs.csv", "sourcedId,name,type\ns2,a\n"),
        4,
        "refused: orgs.csv record 2: width\n",
    ),
    (
        "show orgs",
        Given::File("org.csv", DISTRICT),
        4,
        "refused: orgs.csv: missing file\n",
    ),
];

#[test]
fn orgs_are_shown_in_order_or_refused(rt: HostRuntime) -> Result<(), Fail> {
    assert_each(&rt, rt.alloc(), &ORGS)
}
