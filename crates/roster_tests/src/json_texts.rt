//! Texts of rows and bodies of writes, hostile ones too, against what they are to give.

use roster_base::{NoMemory, Refusal};
use roster_texts::{Id, Moment};
use roster_types::row::Row;
use roster_values::Kind;
use row_json::{JsonError, JsonFault, read_collection, read_put, read_row, single_text};
use std::alloc::Global;
use std::test::Fail;

// A fault in words.
fn told(alloc: Global, fault: &JsonFault) -> Result<String, NoMemory> {
    match fault {
        JsonFault::NotJson => Ok(String::from_str(alloc, "not JSON")?),
        JsonFault::Shape => Ok(String::from_str(alloc, "shape")?),
        JsonFault::Field { name, fault } => Ok(format!(in alloc; "{} {fault:?}", name.as_str())?),
        JsonFault::OtherId => Ok(String::from_str(alloc, "other id")?),
    }
}

// A row as it is written, or the fault.
fn answer(alloc: Global, read: Result<Row, JsonError>) -> Result<String, NoMemory> {
    match read {
        Ok(row) => {
            let text = single_text(alloc, &row, None);
            drop(row);
            text
        }
        Err(Refusal::Fault(fault)) => told(alloc, &fault),
        Err(Refusal::NoMemory) => Err(NoMemory),
    }
}

/// The row of a single text as it is written, or the fault.
pub fn row_answer(alloc: Global, kind: Kind, text: &str) -> Result<String, NoMemory> {
    answer(alloc, read_row(alloc, kind, text.as_bytes()))
}

// Texts and their rows as they are written, or the first fault.
static ORGS: [(&str, &str); 19] = [
    // Whole texts.
    ("", "not JSON"),
    (r#"{"org":{}} {}"#, "not JSON"),
    (r#"{"org":1e999}"#, "not JSON"),
    (r#"{"org":{"name":"\ud800"}}"#, "not JSON"),
    (r#"{"org":{"name":"\udc00\ud800"}}"#, "not JSON"),
    ("null", "shape"),
    (r#"{"orgs":{}}"#, "shape"),
    (r#"{"org":null}"#, "shape"),
    (r#"{"org":[]}"#, "shape"),
    (r#"{"org":{},"org":1}"#, "shape"),
    // Fields in their order, the metadata behind them.
    (r#"{"org":{"metadata":null}}"#, "sourcedId Empty"),
    (r#"{"org":{"sourcedId":"a"}}"#, "status Empty"),
    (r#"{"org":{"sourcedId":"a","status":null}}"#, "status Empty"),
    (
        r#"{"org":{"sourcedId":"a","status":"active"}}"#,
        "dateLastModified Empty",
    ),
    (
        r#"{"org":{"sourcedId":"a","status":"active","dateLastModified":"2024-07-01","type":1,"name":{}}}"#,
        "name BadList",
    ),
    (
        r#"{"org":{"sourcedId":"a","status":"active","dateLastModified":"2024-07-01","name":"b","type":"state","parent":null}}"#,
        "parent BadId",
    ),
    (
        r#"{"org":{"sourcedId":"a","status":"active","dateLastModified":"2024-07-01","name":"b","type":"state","metadata":{"x":null}}}"#,
        "metadata BadList",
    ),
    (
        r#"{"org":{"sourcedId":"a","status":"active","dateLastModified":"2024-07-01","name":"b","type":"state","metadata":{" x":"y"}}}"#,
        "metadata BadList",
    ),
    // Of two members the last counts, others are passed over, and blank ones are absent.
    (
        r#"{"x":0,"org":{"color":[{}],"sourcedId":{},"sourcedId":" a ","status":"active","dateLastModified":"2024-07-01","name":"\ud83d\ude00","type":"state","identifier":null,"parent":{"sourcedId":null},"metadata":{"x":" ","y":" z"}}}"#,
        "{\"org\":{\"dateLastModified\":\"2024-07-01T00:00:00.000Z\",\"metadata\":{\"y\":\"z\"},\"name\":\"\u{1f600}\",\"sourcedId\":\"a\",\"status\":\"active\",\"type\":\"state\"}}",
    ),
];

#[test]
fn texts_of_orgs(rt: HostRuntime) -> Result<(), Fail> {
    for (text, want) in &ORGS {
        let given = row_answer(rt.alloc(), Kind::Orgs, text)?;
        assert_eq!(rt; given.as_str(), *want);
    }
    Ok(())
}

// Members of a user behind those that it needs, and what is written of them, or the fault.
static MEMBERS: [(&str, &str); 24] = [
    (
        r#""sms":18446744073709551615"#,
        r#""sms":"18446744073709551615","#,
    ),
    (
        r#""sms":-9223372036854775808"#,
        r#""sms":"-9223372036854775808","#,
    ),
    (
        r#""sms":true,"phone":false"#,
        r#""phone":"false","role":"aide","sms":"true","#,
    ),
    (r#""sms":18446744073709551616"#, "sms Fractional"),
    (r#""sms":-0"#, "sms Fractional"),
    (r#""sms":null,"phone":" ""#, r#""role":"aide","sourcedId":"#),
    (r#""enabledUser":null"#, "enabledUser Empty"),
    (
        r#""grades":[9,null," ","10 ",false]"#,
        r#","grades":["9","10","false"],"orgs""#,
    ),
    (r#""grades":[]"#, r#""givenName":"a","orgs""#),
    (r#""grades":"9""#, "grades BadList"),
    (r#""grades":["9,10"]"#, "grades BadList"),
    (r#""grades":[0.5]"#, "grades Fractional"),
    (r#""orgs":[]"#, "orgs Empty"),
    (r#""orgs":{"sourcedId":"o"}"#, "orgs BadList"),
    (r#""orgs":["o"]"#, "orgs BadList"),
    (r#""orgs":[{"sourcedId":"\u0001"},5]"#, "orgs BadId"),
    (r#""orgs":[5,{"sourcedId":"\u0001"}]"#, "orgs BadList"),
    (r#""orgs":[{"sourcedId":1.5}]"#, "orgs Fractional"),
    (
        r#""orgs":[{"sourcedId":7,"type":0}]"#,
        r#""orgs":[{"href":"/ims/oneroster/v1p1/orgs/7","sourcedId":"7","type":"org"}]"#,
    ),
    (
        r#""userIds":[{"type":" a ","identifier":7}]"#,
        r#""userIds":[{"identifier":"7","type":"a"}]"#,
    ),
    (r#""userIds":[]"#, r#""status":"active","username""#),
    (r#""userIds":[{"type":"a"}]"#, "userIds BadList"),
    (
        r#""userIds":[{"type":"a:b","identifier":"c"}]"#,
        "userIds BadList",
    ),
    (
        r#""userIds":[{"type":"a","identifier":"b,c"}]"#,
        "userIds BadList",
    ),
];

// A user's members in front of others.
const USER: &str =
    r#"{"user":{"sourcedId":"u","status":"active","dateLastModified":"2024-07-01","enabledUser":"TRUE","orgs":[{"sourcedId":"o"}],"role":"aide","username":"n","givenName":"a","familyName":"b","#;

// What is read of a user with these members behind those that it needs.
fn user_answer(alloc: Global, members: &str) -> Result<String, NoMemory> {
    let text = format!(in alloc; "{}{members}}}}}", USER)?;
    row_answer(alloc, Kind::Users, text.as_str())
}

#[test]
fn members_of_users(rt: HostRuntime) -> Result<(), Fail> {
    for (members, want) in &MEMBERS {
        let given = user_answer(rt.alloc(), members)?;
        assert!(rt; given.as_str().contains(*want), "{members}");
    }
    Ok(())
}

// Texts of collections, and how many rows are read.
static COLLECTIONS: [(&str, Option<usize>); 5] = [
    (r#"{"categories":[]}"#, Some(0)),
    (
        r#"{"categories":[{"title":"b","dateLastModified":"2024-07-01","status":"active","sourcedId":"k2"},{"title":"a","dateLastModified":"2024-07-02","status":"tobedeleted","sourcedId":"k1"}]}"#,
        Some(2),
    ),
    (r#"{"categories":{}}"#, None),
    (r#"{"category":[]}"#, None),
    (r#"{"categories":[{},1]}"#, None),
];

fn count_read(alloc: Global, text: &str) -> Option<usize> {
    match read_collection(alloc, Kind::Categories, text.as_bytes()) {
        Ok(rows) => {
            let count = rows.len();
            drop(rows);
            Some(count)
        }
        Err(_) => None,
    }
}

#[test]
fn collections_of_categories(rt: HostRuntime) {
    for (text, want) in &COLLECTIONS {
        assert_eq!(rt; count_read(rt.alloc(), text), *want, "{text}");
    }
}

// Bodies of writes, and what is put under the id `c2` at the first second.
static PUTS: [(Kind, &str, &str); 12] = [
    // The id is that of the path, the status active, the date that of the write.
    (
        Kind::Categories,
        r#"{"category":{"title":"Quiz"}}"#,
        r#"{"category":{"dateLastModified":"1970-01-01T00:00:01.000Z","sourcedId":"c2","status":"active","title":"Quiz"}}"#,
    ),
    // The text may name the id, and its date counts for nothing.
    (
        Kind::Categories,
        r#"{"category":{"sourcedId":" c2 ","status":"tobedeleted","dateLastModified":5,"title":"Quiz","metadata":{"x":"y"}}}"#,
        r#"{"category":{"dateLastModified":"1970-01-01T00:00:01.000Z","metadata":{"x":"y"},"sourcedId":"c2","status":"tobedeleted","title":"Quiz"}}"#,
    ),
    (
        Kind::LineItems,
        r#"{"lineItem":{"title":"Set 2","assignDate":"2024-09-01","dueDate":"2024-09-08","class":{"sourcedId":"k1"},"category":{"sourcedId":"hw"}}}"#,
        r#"{"lineItem":{"assignDate":"2024-09-01","category":{"href":"/ims/oneroster/v1p1/categories/hw","sourcedId":"hw","type":"category"},"class":{"href":"/ims/oneroster/v1p1/classes/k1","sourcedId":"k1","type":"class"},"dateLastModified":"1970-01-01T00:00:01.000Z","dueDate":"2024-09-08","sourcedId":"c2","status":"active","title":"Set 2"}}"#,
    ),
    // Whole texts.
    (Kind::Categories, "", "not JSON"),
    (Kind::Categories, r#"{"categories":{}}"#, "shape"),
    (Kind::Categories, r#"{"category":[]}"#, "shape"),
    // The id and the status go before the kind's own fields, these before the metadata, and another id last.
    (
        Kind::Categories,
        r#"{"category":{"sourcedId":5.5,"status":"new"}}"#,
        "sourcedId Fractional",
    ),
    (
        Kind::Categories,
        r#"{"category":{"sourcedId":"c3","status":"new"}}"#,
        "status NotInList",
    ),
    (
        Kind::Categories,
        r#"{"category":{"sourcedId":"c3","metadata":null}}"#,
        "title Empty",
    ),
    (
        Kind::Categories,
        r#"{"category":{"sourcedId":"c3","title":"Quiz","metadata":null}}"#,
        "metadata BadList",
    ),
    (
        Kind::Categories,
        r#"{"category":{"sourcedId":"c3","title":"Quiz"}}"#,
        "other id",
    ),
    (
        Kind::LineItems,
        r#"{"lineItem":{"title":"Set 2"}}"#,
        "assignDate Empty",
    ),
];

#[test]
fn bodies_are_read(rt: HostRuntime) -> Result<(), Fail> {
    let alloc = rt.alloc();
    let (Some(id), Some(at)) = (Id::read(alloc, "c2")?, Moment::at(1_000)) else {
        panic!(rt; "no id");
    };
    for (kind, body, want) in &PUTS {
        let given = answer(alloc, read_put(alloc, *kind, &id, at, body.as_bytes()))?;
        assert_eq!(rt; given.as_str(), *want);
    }
    Ok(())
}
