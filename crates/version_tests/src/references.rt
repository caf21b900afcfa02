//! The example district with a text changed, and the broken references that are found in it.

use reference_rules::RefFault;
use roster_base::Refusal;
use roster_texts::Moment;
use roster_types::set::RosterSet;
use std::alloc::Global;
use std::test::Fail;
use test_lake::{files, set_of, text_of};
use version_changes::{PublishFault, set_change};
use version_core::change::Change;
use version_core::table::Table;

// The set of `lake` with another text in place of one of a file.
fn changed(alloc: Global, file: &str, old: &str, new: &str) -> Result<RosterSet, Fail> {
    let text = text_of(file).unwrap_or("").replace(alloc, old, new)?;
    let mut changed = Vec::new(alloc);
    for (name, whole) in files() {
        let text = if *name == file { text.as_str() } else { *whole };
        changed.push((*name, text))?;
    }
    set_of(alloc, changed.as_slice())
}

// A row's kind and id, its field, the id that stands there, and what is wrong.
fn push_fault(told: &mut String, broken: &RefFault) -> Result<(), Fail> {
    let (kind, id, field) = (
        broken.kind.plural(),
        broken.id.as_str(),
        broken.field.as_str(),
    );
    let target = match &broken.target {
        Some(id) => id.as_str(),
        None => "-",
    };
    let fault = broken.fault;
    Ok(write!(told, "{kind} {id} {field} {target} {fault:?}; ")?)
}

fn faults_told(alloc: Global, broken: &[RefFault]) -> Result<String, Fail> {
    let mut told = String::new(alloc);
    for reference in broken {
        push_fault(&mut told, reference)?;
    }
    Ok(told)
}

// What is made of a set: the change to the next version, or why there is none.
type Made = Result<Option<Change>, Refusal<PublishFault>>;

fn made_line(alloc: Global, made: &Made) -> Result<String, Fail> {
    match made {
        Ok(Some(_)) => Ok(String::from_str(alloc, "sound")?),
        Err(Refusal::Fault(PublishFault::Unsound(broken))) => faults_told(alloc, broken.as_slice()),
        _ => Ok(String::from_str(alloc, "no answer")?),
    }
}

// What is told of a set that is published first.
fn first_line(alloc: Global, set: RosterSet) -> Result<String, Fail> {
    let at = Moment::at(1_000).ok_or("a moment")?;
    let table = Table::new(alloc, 1);
    let made = set_change(alloc, &table, set, at);
    drop(table);
    let line = made_line(alloc, &made);
    drop(made);
    line
}

// A file, the text that is changed, what stands in its place, and what is told.
static CHANGES: [(&str, &str, &str, &str); 9] = [
    // Days may be equal.
    ("academicSessions.csv", "2024-12-20", "2024-08-01", "sound"),
    (
        "orgs.csv",
        "E-1,d1",
        "E-1,d2",
        "orgs s1 parent d2 Missing; ",
    ),
    // A list of ids, in its order.
    (
        "users.csv",
        "u1,,,true,s1,",
        "u1,,,true,\"x,s1,x\",",
        "users u1 orgs x Missing; users u1 orgs x Missing; ",
    ),
    // The id of a row of demographics is that of a user.
    (
        "demographics.csv",
        "u1",
        "s1",
        "demographics s1 sourcedId s1 Missing; ",
    ),
    // A class is in a school, and a line item's grading period is one.
    (
        "classes.csv",
        "Room 4,s1",
        "Room 4,d1",
        "classes k1 school d1 WrongType; ",
    ),
    (
        "lineItems.csv",
        "hw,g1",
        "hw,t1",
        "lineItems li1 gradingPeriod t1 WrongType; ",
    ),
    // Two in a cycle, and one that only leads to it.
    (
        "orgs.csv",
        "LDU,",
        "LDU,s1",
        "orgs d1 parent s1 Cycle; orgs s1 parent d1 Cycle; ",
    ),
    // A session above itself, whose days are in the wrong order too.
    (
        "academicSessions.csv",
        "2024-12-20,y25",
        "2024-07-31,t1",
        "academicSessions t1 endDate - DayOrder; academicSessions t1 parent t1 Cycle; ",
    ),
    (
        "enrollments.csv",
        "2024-08-12,",
        "2024-08-12,2024-08-11",
        "enrollments e1 endDate - DayOrder; ",
    ),
];

#[test]
fn broken_references(rt: HostRuntime) -> Result<(), Fail> {
    for (file, old, new, want) in &CHANGES {
        let line = first_line(rt.alloc(), changed(rt.alloc(), file, old, new)?)?;
        assert_eq!(rt; line.as_str(), *want);
    }
    Ok(())
}
