//! A folder with the example district, other sets, the grants of its callers, the bodies of writes, and a request.

use outside_ports::MemFolder;
use std::alloc::Global;
use std::test::Fail;
use test_lake::{File, file, files};

const GRANTS: &str = r#"caller,token,scopes,schools
east,tok-e,roster.readonly gradebook.readonly gradebook.createput gradebook.delete,s1
all,tok-a,roster.readonly gradebook.readonly,*
"#;

// The bodies of a category and of a line item.
const QUIZ: &str = "{\"category\":{\"title\":\"Quiz\"}}";

const SET: &str =
    "{\"lineItem\":{\"title\":\"Set 3\",\"assignDate\":\"2024-09-01\",\"dueDate\":\"2024-09-08\",\"class\":{\"sourcedId\":\"k1\"},\"category\":{\"sourcedId\":\"hw\"}}}";

// The manifest of a whole set of orgs.
const ORGS: &str =
    "propertyName,value\nmanifest.version,1.0\noneroster.version,1.1\nfile.orgs,bulk\n";

// A request for the ids of users.
const USERS: &str =
    "GET /ims/oneroster/v1p1/users?fields=sourcedId HTTP/1.1\r\nHost: hub\r\nAuthorization: Bearer tok-l\r\n\r\n";

// A set that renames a school, and moves an enrollment to the other one.
const CHANGES: &str =
    "propertyName,value\nmanifest.version,1.0\noneroster.version,1.1\nfile.orgs,delta\nfile.enrollments,delta\n";

const RENAMED: &str =
    "sourcedId,status,dateLastModified,name,type,identifier,parentSourcedId\ns1,active,2024-08-01T08:00:00.000Z,East,school,E-1,d1\n";

const MOVED: &str =
    "sourcedId,status,dateLastModified,classSourcedId,schoolSourcedId,userSourcedId,role,primary,beginDate,endDate\ne1,active,2024-08-01T08:00:00.000Z,k1,s2,u1,student,,2024-08-12,\n";

// The manifest of a set of changed users.
const SOME_USERS: &str =
    "propertyName,value\nmanifest.version,1.0\noneroster.version,1.1\nfile.users,delta\n";

// A user whose cells hold all that a file has to put into quotes, and the first day that a row may be of.
const ODD_USERS: &str =
    "sourcedId,status,dateLastModified,enabledUser,orgSourcedIds,role,username,userIds,givenName,familyName,grades,\"metadata.a \"\"b\"\"\"\n\"0 \"\"a\"\"\",active,0001-01-01T00:00:00.000Z,false,\"s1, s2\",student,=1,\"{a \"\"b\"\":c:d},{SIS:77}\",\"Ann, \"\"A\"\"\",\"Oak\nTree; \u{e9}\u{6f22}\",\"09,\"\"K\"\"\",x\\y'\n";

// The folder, the name and the text of each file.
static FILES: [(&str, &str, &str); 14] = [
    ("", "g.csv", GRANTS),
    ("", "c2.json", QUIZ),
    ("", "set.json", SET),
    (
        "",
        "gd.csv",
        "caller,token,scopes,schools\nlib,tok-l,roster.readonly,*\n",
    ),
    ("", "users.http", USERS),
    ("dup", "manifest.csv", ORGS),
    ("dup", "orgs.csv", "sourcedId,name,type\ns1,East,school\n"),
    ("extra", "manifest.csv", ORGS),
    ("extra", "orgs.csv", "sourcedId,name,type\nx1,Extra,state\n"),
    ("moved", "manifest.csv", CHANGES),
    ("moved", "orgs.csv", RENAMED),
    ("moved", "enrollments.csv", MOVED),
    ("odd", "manifest.csv", SOME_USERS),
    ("odd", "users.csv", ODD_USERS),
];

/// The files of the folder: these, and those of the example district in `lake`.
pub fn made(alloc: Global) -> Result<Vec<File>, Fail> {
    let mut made = Vec::new(alloc);
    for (dir, name, text) in &FILES {
        made.push(file(alloc, dir, name, text)?)?;
    }
    for (name, text) in files() {
        made.push(file(alloc, "lake", name, text)?)?;
    }
    Ok(made)
}

/// A folder with these files.
pub fn folder(alloc: Global) -> Result<MemFolder, Fail> {
    Ok(MemFolder::new(made(alloc)?, Vec::new(alloc)))
}
