//! A row of each kind in a file and as JSON, rows that a file has with more, and chosen members.

ghost use Rattle.std.specs.Prelude.{◌≡◌, map, IfOk};

use crate::json_texts::row_answer;
use csv_sets::{SetError, read_file, write_file};
use roster_base::{NoMemory, Text};
use roster_types::row::Row;
use roster_types::set_row::SetRow;
use roster_values::{Kind, Mode};
use row_json::{collection_text, read_collection, single_text};
use std::alloc::Global;
use std::test::Fail;

// A file with one row of each kind, and the row as it is written, which is read as that row again.
static ROWS: [(Kind, &str, &str); 13] = [
    (
        Kind::Orgs,
        "sourcedId,dateLastModified,name,type,identifier,parentSourcedId\ns1,2024-07-02,East High,school,E-1,d/1\n",
        r#"{"org":{"dateLastModified":"2024-07-02T00:00:00.000Z","identifier":"E-1","name":"East High","parent":{"href":"/ims/oneroster/v1p1/orgs/d%2F1","sourcedId":"d/1","type":"org"},"sourcedId":"s1","status":"active","type":"school"}}"#,
    ),
    (
        Kind::AcademicSessions,
        "sourcedId,dateLastModified,title,type,startDate,endDate,parentSourcedId,schoolYear\nt1,2024-07-02T12:15:30.5+02:00,Fall,term,2024-08-01,2025-06-30,y,0025\n",
        r#"{"academicSession":{"dateLastModified":"2024-07-02T10:15:30.500Z","endDate":"2025-06-30","parent":{"href":"/ims/oneroster/v1p1/academicSessions/y","sourcedId":"y","type":"academicSession"},"schoolYear":"0025","sourcedId":"t1","startDate":"2024-08-01","status":"active","title":"Fall","type":"term"}}"#,
    ),
    (
        Kind::Courses,
        "sourcedId,status,dateLastModified,title,grades,orgSourcedId\nc1,tobedeleted,2024-07-01T09:00:00+02:00,Algebra,\" 09 ,,10,\",d1\n",
        r#"{"course":{"dateLastModified":"2024-07-01T07:00:00.000Z","grades":["09","10"],"org":{"href":"/ims/oneroster/v1p1/orgs/d1","sourcedId":"d1","type":"org"},"sourcedId":"c1","status":"tobedeleted","title":"Algebra"}}"#,
    ),
    (
        Kind::Classes,
        "sourcedId,dateLastModified,title,courseSourcedId,classType,schoolSourcedId,termSourcedIds,periods\nk1,2024-07-01T07:00:00Z,Algebra 1,c1,scheduled,s1,t1,1\n",
        r#"{"class":{"classType":"scheduled","course":{"href":"/ims/oneroster/v1p1/courses/c1","sourcedId":"c1","type":"course"},"dateLastModified":"2024-07-01T07:00:00.000Z","periods":["1"],"school":{"href":"/ims/oneroster/v1p1/orgs/s1","sourcedId":"s1","type":"org"},"sourcedId":"k1","status":"active","terms":[{"href":"/ims/oneroster/v1p1/academicSessions/t1","sourcedId":"t1","type":"academicSession"}],"title":"Algebra 1"}}"#,
    ),
    (
        Kind::Users,
        "sourcedId,status,dateLastModified,enabledUser,orgSourcedIds,role,username,userIds,givenName,familyName,agentSourcedIds,grades,password\nu1,tobedeleted,2024-07-01T07:00:00Z,TRUE,\"s1, \u{e4} b\",teacher,ada,\"{LDAP:17} , { SIS : x:9 }\",  Ada  ,Ng,u/2,\"09,10\",secret\n",
        r#"{"user":{"agents":[{"href":"/ims/oneroster/v1p1/users/u%2F2","sourcedId":"u/2","type":"user"}],"dateLastModified":"2024-07-01T07:00:00.000Z","enabledUser":"true","familyName":"Ng","givenName":"Ada","grades":["09","10"],"orgs":[{"href":"/ims/oneroster/v1p1/orgs/s1","sourcedId":"s1","type":"org"},{"href":"/ims/oneroster/v1p1/orgs/%C3%A4%20b","sourcedId":"ä b","type":"org"}],"role":"teacher","sourcedId":"u1","status":"tobedeleted","userIds":[{"identifier":"17","type":"LDAP"},{"identifier":"x:9","type":"SIS"}],"username":"ada"}}"#,
    ),
    (
        Kind::Enrollments,
        "sourcedId,dateLastModified,classSourcedId,schoolSourcedId,userSourcedId,role,primary,beginDate\ne1,2024-07-01T07:00:00Z,k1,s1,u1,student,fAlse,2024-08-01T23:30:00-05:00\n",
        r#"{"enrollment":{"beginDate":"2024-08-01","class":{"href":"/ims/oneroster/v1p1/classes/k1","sourcedId":"k1","type":"class"},"dateLastModified":"2024-07-01T07:00:00.000Z","primary":"false","role":"student","school":{"href":"/ims/oneroster/v1p1/orgs/s1","sourcedId":"s1","type":"org"},"sourcedId":"e1","status":"active","user":{"href":"/ims/oneroster/v1p1/users/u1","sourcedId":"u1","type":"user"}}}"#,
    ),
    (
        Kind::Demographics,
        "sourcedId,dateLastModified,birthDate,sex,asian\nu1,2024-07-01T07:00:00Z,2010-02-28,female,true\n",
        r#"{"demographics":{"asian":"true","birthDate":"2010-02-28","dateLastModified":"2024-07-01T07:00:00.000Z","sex":"female","sourcedId":"u1","status":"active"}}"#,
    ),
    (
        Kind::Categories,
        "sourcedId,dateLastModified,title,metadata.lunch,metadata.bus\nk1,2024-07-01,\"a\"\"b\\c\u{8}d\te\nf\u{c}g\rh\u{1}i\u{1f}j/\u{7f}\u{e9}\",early,\"12 \"\"B\"\"\"\n",
        "{\"category\":{\"dateLastModified\":\"2024-07-01T00:00:00.000Z\",\"metadata\":{\"bus\":\"12 \\\"B\\\"\",\"lunch\":\"early\"},\"sourcedId\":\"k1\",\"status\":\"active\",\"title\":\"a\\\"b\\\\c\\bd\\te\\nf\\fg\\rh\\u0001i\\u001fj/\u{7f}é\"}}",
    ),
    (
        Kind::LineItems,
        "sourcedId,dateLastModified,title,assignDate,dueDate,classSourcedId,categorySourcedId,gradingPeriodSourcedId,resultValueMin,resultValueMax\nl1,2024-09-01,Quiz 1,2024-09-02,2024-09-09,c1,k1,g1,-5,100.0\n",
        r#"{"lineItem":{"assignDate":"2024-09-02","category":{"href":"/ims/oneroster/v1p1/categories/k1","sourcedId":"k1","type":"category"},"class":{"href":"/ims/oneroster/v1p1/classes/c1","sourcedId":"c1","type":"class"},"dateLastModified":"2024-09-01T00:00:00.000Z","dueDate":"2024-09-09","gradingPeriod":{"href":"/ims/oneroster/v1p1/academicSessions/g1","sourcedId":"g1","type":"academicSession"},"resultValueMax":100,"resultValueMin":-5,"sourcedId":"l1","status":"active","title":"Quiz 1"}}"#,
    ),
    (
        Kind::Results,
        "sourcedId,dateLastModified,lineItemSourcedId,studentSourcedId,scoreStatus,score,scoreDate,comment\nr1,2024-09-01,l1,u1,fully graded,999999999999,2024-09-09,late\n",
        r#"{"result":{"comment":"late","dateLastModified":"2024-09-01T00:00:00.000Z","lineItem":{"href":"/ims/oneroster/v1p1/lineItems/l1","sourcedId":"l1","type":"lineItem"},"score":999999999999,"scoreDate":"2024-09-09","scoreStatus":"fully graded","sourcedId":"r1","status":"active","student":{"href":"/ims/oneroster/v1p1/users/u1","sourcedId":"u1","type":"user"}}}"#,
    ),
    (
        Kind::Resources,
        "sourcedId,dateLastModified,vendorResourceId,title,roles,importance\nx1,2024-09-01,V-1,Atlas,\"student,teacher\",primary\n",
        r#"{"resource":{"dateLastModified":"2024-09-01T00:00:00.000Z","importance":"primary","roles":["student","teacher"],"sourcedId":"x1","status":"active","title":"Atlas","vendorResourceId":"V-1"}}"#,
    ),
    (
        Kind::ClassResources,
        "sourcedId,dateLastModified,classSourcedId,resourceSourcedId\na1,2024-09-01,k1,x1\n",
        r#"{"classResource":{"class":{"href":"/ims/oneroster/v1p1/classes/k1","sourcedId":"k1","type":"class"},"dateLastModified":"2024-09-01T00:00:00.000Z","resource":{"href":"/ims/oneroster/v1p1/resources/x1","sourcedId":"x1","type":"resource"},"sourcedId":"a1","status":"active"}}"#,
    ),
    (
        Kind::CourseResources,
        "sourcedId,dateLastModified,courseSourcedId,resourceSourcedId\nb1,2024-09-01,c1,x1\n",
        r#"{"courseResource":{"course":{"href":"/ims/oneroster/v1p1/courses/c1","sourcedId":"c1","type":"course"},"dateLastModified":"2024-09-01T00:00:00.000Z","resource":{"href":"/ims/oneroster/v1p1/resources/x1","sourcedId":"x1","type":"resource"},"sourcedId":"b1","status":"active"}}"#,
    ),
];

// The first row as it is written.
fn first_text(alloc: Global, rows: &[SetRow]) -> Result<String, NoMemory> {
    match rows.first() {
        Some(row) => single_text(alloc, &row.row, None),
        None => Ok(String::new(alloc)),
    }
}

// The first row of a file as it is written.
fn file_answer(alloc: Global, kind: Kind, file: &str) -> Result<String, NoMemory> {
    match read_file(alloc, kind, Mode::Bulk, file.as_bytes()) {
        Ok(rows) => {
            let text = first_text(alloc, rows.as_slice());
            drop(rows);
            text
        }
        Err(_) => Ok(String::new(alloc)),
    }
}

#[test]
fn a_row_of_each_kind(rt: HostRuntime) -> Result<(), Fail> {
    for (kind, file, text) in &ROWS {
        let of_file = file_answer(rt.alloc(), *kind, file)?;
        let again = row_answer(rt.alloc(), *kind, text)?;
        assert_eq!(rt; (of_file.as_str(), again.as_str()), (*text, *text));
    }
    Ok(())
}

fn rows_in(alloc: Global, rows: Vec<SetRow>) -> Result<Vec<Row>, NoMemory>
    ensures { IfOk result (λ v. v.items ≡ map (λ r. r.row) rows.items) }
{
    Ok(rows.into_iter().map(|row| row.row).collect(alloc)?)
}

// What a file of changes is, written again.
fn written(alloc: Global, kind: Kind, text: &str) -> Result<Vec<u8>, SetError> {
    let read = read_file(alloc, kind, Mode::Delta, text.as_bytes())?;
    let rows = rows_in(alloc, read)?;
    let bytes = write_file(alloc, kind, rows.as_slice());
    drop(rows);
    Ok(bytes?)
}

const READ: &str = "metadata.m,type,sourcedId,status,dateLastModified,name,metadata.k\n\
    ,school,a,active,2024-08-01,\" A \"\"B\"\", C\",2\n\
    3,state,b,tobedeleted,2024-08-01T09:00:00+02:00,D,\n";

const WRITTEN: &str =
    "sourcedId,status,dateLastModified,name,type,identifier,parentSourcedId,metadata.k,metadata.m\n\
    a,active,2024-08-01T00:00:00.000Z,\"A \"\"B\"\", C\",school,,,2,\n\
    b,tobedeleted,2024-08-01T07:00:00.000Z,D,state,,,,3\n";

#[test]
fn writes_what_it_read(rt: HostRuntime) -> Result<(), Fail> {
    match written(rt.alloc(), Kind::Orgs, READ) {
        Ok(bytes) => assert_eq!(rt; bytes.as_slice(), WRITTEN.as_bytes()),
        Err(_) => assert!(rt; false),
    }
    Ok(())
}

// A collection of one category.
const CATEGORY: &str =
    r#"{"categories":[{"sourcedId":"k1","title":"a","dateLastModified":"2024-07-01","status":"active","metadata":{"x":"y"}}]}"#;

// The text of the chosen members of the category.
fn chosen(alloc: Global, names: &[Text]) -> Result<String, NoMemory> {
    match read_collection(alloc, Kind::Categories, CATEGORY.as_bytes()) {
        Ok(rows) => {
            let text = collection_text(alloc, Kind::Categories, rows.as_slice(), Some(names));
            drop(rows);
            text
        }
        Err(_) => Ok(String::new(alloc)),
    }
}

#[test]
fn chosen_members_of_a_category(rt: HostRuntime) -> Result<(), Fail> {
    let alloc = rt.alloc();
    let mut names = Vec::new(alloc);
    for name in ["title", "metadata", "color"] {
        names.push(Text::new(alloc, name)?)?;
    }
    let given = chosen(alloc, names.as_slice())?;
    let want = r#"{"categories":[{"metadata":{"x":"y"},"title":"a"}]}"#;
    assert_eq!(rt; given.as_str(), want);
    Ok(())
}
