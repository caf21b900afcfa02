//! Sets that are published, and sets that are refused: whole folders in, statuses and exact lines out.

use crate::runs::{Given, SOME_ORGS, Turn, assert_each, assert_scene};
use std::test::Fail;

/// A manifest of a bulk file of orgs.
pub const ORGS: &str =
    "propertyName,value\nmanifest.version,1.0\noneroster.version,1.1\nfile.orgs,bulk\n";

// Sets in front of those of every run.
static SETS: [Turn; 18] = [
    ("publish sis=lake", Given::Nothing, 0, "sis version 1\n"),
    (
        "publish sis=lake sis=lake",
        Given::Nothing,
        0,
        "sis version 1\nsis unchanged 1\n",
    ),
    (
        "publish sis=lake",
        Given::Files(&[("lake", "resources.csv", "no,rows\n")]),
        4,
        "refused: resources.csv: unexpected file\n",
    ),
    (
        "publish sis=lake",
        Given::Files(&[(
            "lake",
            "enrollments.csv",
            "sourcedId,status,dateLastModified,classSourcedId,schoolSourcedId,userSourcedId,role\ne1,,2024-07-20T08:00:00.000Z,k1,s1,u1,student\n",
        )]),
        4,
        "refused: enrollments.csv record 2 field status: empty\n",
    ),
    (
        "publish sis=lake",
        Given::Files(&[(
            "lake",
            "manifest.csv",
            "propertyName,value\noneroster.version,1.1\n",
        )]),
        4,
        "refused: manifest.csv: missing manifest.version\n",
    ),
    (
        "publish sis=lake",
        Given::Files(&[(
            "lake",
            "results.csv",
            "sourcedId,lineItemSourcedId,studentSourcedId,scoreStatus,score,scoreDate\nr1,li1,u1,fully graded,78.5,2024-08-23\n",
        )]),
        4,
        "refused: results.csv record 2 field score: fractional\n",
    ),
    (
        "publish sis=lake",
        Given::Files(&[(
            "lake",
            "results.csv",
            "sourcedId,lineItemSourcedId,studentSourcedId,scoreStatus,score,scoreDate\nr1,li1,u1,fully graded,seven,2024-08-23\n",
        )]),
        4,
        "refused: results.csv record 2 field score: bad number\n",
    ),
    (
        "publish sis=lake other=dup",
        Given::Files(&[
            ("dup", "manifest.csv", ORGS),
            ("dup", "orgs.csv", "sourcedId,name,type\ns1,East,school\n"),
        ]),
        4,
        "sis version 1\nrefused: orgs s1 is owned by feed sis\n",
    ),
    (
        "publish a=ring",
        Given::Files(&[
            ("ring", "manifest.csv", ORGS),
            (
                "ring",
                "orgs.csv",
                "sourcedId,name,type,parentSourcedId\nb,B,district,a\na,A,district,b\n",
            ),
        ]),
        4,
        "refused: orgs a parent b: cycle\nrefused: orgs b parent a: cycle\n",
    ),
    // A class that is to be deleted is still there for its enrollments.
    (
        "publish sis=lake",
        Given::Files(&[(
            "lake",
            "classes.csv",
            "sourcedId,status,title,courseSourcedId,classType,schoolSourcedId,termSourcedIds\nk1,tobedeleted,A,alg,scheduled,s1,t1\nk2,,B,alg,scheduled,s2,t1\n",
        )]),
        0,
        "sis version 1\n",
    ),
    (
        "publish sis=lake sis=lake2 sis=lake2 sis=lake",
        Given::Files(&[
            ("lake2", "manifest.csv", SOME_ORGS),
            (
                "lake2",
                "orgs.csv",
                "sourcedId,status,dateLastModified,name,type,identifier,parentSourcedId\ns2,active,2024-09-01T00:00:00.000Z,West High School,school,,d1\n",
            ),
        ]),
        0,
        "sis version 1\nsis version 2\nsis unchanged 2\nsis version 3\n",
    ),
    // What a bulk file leaves out is marked once.
    (
        "publish a=two a=one a=one",
        Given::Files(&[
            ("two", "manifest.csv", ORGS),
            (
                "two",
                "orgs.csv",
                "sourcedId,name,type\nx,X,state\ny,Y,state\n",
            ),
            ("one", "manifest.csv", ORGS),
            ("one", "orgs.csv", "sourcedId,name,type\nx,X,state\n"),
        ]),
        0,
        "a version 1\na version 2\na unchanged 2\n",
    ),
    // A bulk file says nothing of another feed's rows.
    (
        "publish a=one b=two",
        Given::Files(&[
            ("one", "manifest.csv", ORGS),
            ("one", "orgs.csv", "sourcedId,name,type\nx,X,state\n"),
            ("two", "manifest.csv", ORGS),
            ("two", "orgs.csv", "sourcedId,name,type\n"),
        ]),
        0,
        "a version 1\nb unchanged 1\n",
    ),
    (
        "publish a=lost a=lake",
        Given::Files(&[
            ("lost", "manifest.csv", ORGS),
            (
                "lost",
                "orgs.csv",
                "sourcedId,name,type,parentSourcedId\nx,X,state,y\n",
            ),
        ]),
        4,
        "refused: orgs x parent y: missing\n",
    ),
    // Over rows that stand a changed row is told of alone, unless it closes a ring of them.
    (
        "publish sis=lake sis=lost",
        Given::Files(&[
            ("lost", "manifest.csv", SOME_ORGS),
            (
                "lost",
                "orgs.csv",
                "sourcedId,status,dateLastModified,name,type,parentSourcedId\nx,active,2024-09-01T00:00:00.000Z,X,state,y\n",
            ),
        ]),
        4,
        "sis version 1\nrefused: orgs x parent y: missing\n",
    ),
    (
        "publish a=line a=ring",
        Given::Files(&[
            ("line", "manifest.csv", ORGS),
            (
                "line",
                "orgs.csv",
                "sourcedId,name,type,parentSourcedId\na,A,district,b\nb,B,district,\nc,C,district,a\nd,D,district,c\n",
            ),
            ("ring", "manifest.csv", SOME_ORGS),
            (
                "ring",
                "orgs.csv",
                "sourcedId,status,dateLastModified,name,type,parentSourcedId\nb,active,2024-09-01T00:00:00.000Z,B,district,c\n",
            ),
        ]),
        4,
        "a version 1\nrefused: orgs a parent b: cycle\nrefused: orgs b parent c: cycle\nrefused: orgs c parent a: cycle\n",
    ),
    (
        "publish sis=lake",
        Given::Files(&[(
            "lake",
            "academicSessions.csv",
            "sourcedId,title,type,startDate,endDate,schoolYear\ny25,Y,schoolYear,2024-08-01,2025-06-30,2025\nt1,Fall,term,2024-08-01,2024-07-31,2025\ng1,Q,term,2024-08-01,2024-10-11,2025\n",
        )]),
        4,
        "refused: academicSessions t1 endDate: day order\nrefused: lineItems li1 gradingPeriod g1: wrong type\n",
    ),
    (
        "publish a=one",
        Given::Files(&[("one", "manifest.csv", ORGS)]),
        4,
        "refused: orgs.csv: missing file\n",
    ),
];

#[test]
fn sets_are_published_or_refused(rt: HostRuntime) -> Result<(), Fail> {
    assert_each(&rt, rt.alloc(), &SETS)
}

const COPIED: Given = Given::Files(&[
    ("dup", "manifest.csv", SOME_ORGS),
    (
        "dup",
        "orgs.csv",
        "sourcedId,status,dateLastModified,name,type\ns2,active,2024-09-01T00:00:00.000Z,Copied,school\n",
    ),
]);

// What one run publishes stands in the next.
static RUNS: [Turn; 7] = [
    ("publish sis=lake", Given::Nothing, 0, "sis version 1\n"),
    ("publish sis=lake", Given::Nothing, 0, "sis unchanged 1\n"),
    (
        "publish other=dup",
        COPIED,
        4,
        "refused: orgs s2 is owned by feed sis\n",
    ),
    ("publish sis=new", Given::Nothing, 0, "sis version 2\n"),
    ("publish sis=new", Given::Nothing, 0, "sis unchanged 2\n"),
    (
        "publish sis=none",
        Given::Nothing,
        4,
        "refused: manifest.csv: missing file\n",
    ),
    ("publish sis=lake", Given::Nothing, 0, "sis version 3\n"),
];

#[test]
fn sets_are_published_one_after_another(rt: HostRuntime) -> Result<(), Fail> {
    assert_scene(&rt, rt.alloc(), &RUNS)
}
