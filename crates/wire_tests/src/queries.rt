//! Queries that are read, and the first fault of some that are none.

use filter_grammar::{
    Comparison, Filter, Joint, Order, Predicate, Query, QueryFault, pin_of, read_query,
};
use roster_base::Refusal;
use roster_values::Kind;
use std::alloc::Global;

// Queries on users, and their first fault.
static FAULTS: [(&str, Option<QueryFault>); 20] = [
    ("", None),
    ("limit=5000&other=1&other=2", None),
    ("x=%&limit=0&limit=0", Some(QueryFault::Escape)),
    ("x=%C3&limit=0", Some(QueryFault::Escape)),
    ("limit=0&limi%74=0", Some(QueryFault::Repeated)),
    ("limit=0&offset=x", Some(QueryFault::Limit)),
    ("limit=1000000000000000000", Some(QueryFault::Limit)),
    ("offset=-1&orderBy=up", Some(QueryFault::Offset)),
    ("orderBy=ASC&filter=", Some(QueryFault::OrderBy)),
    ("filter=role%3D%27x%27+AND", Some(QueryFault::FilterForm)),
    ("filter=shoe='9'&fields=", Some(QueryFault::FilterField)),
    (
        "filter=dateLastModified%3E'x'+OR+shoe='9'",
        Some(QueryFault::FilterField),
    ),
    (
        "filter=dateLastModified%3E'x'&fields=",
        Some(QueryFault::FilterValue),
    ),
    ("filter=grades%3E'9'", Some(QueryFault::FilterValue)),
    ("fields=&hubVersion=x", Some(QueryFault::EmptyFields)),
    ("hubVersion=", Some(QueryFault::Version)),
    ("hubVersion=x&hubSince=x", Some(QueryFault::Version)),
    ("hubSince=-1", Some(QueryFault::Since)),
    ("hubSince=2&sort=name", Some(QueryFault::Since)),
    ("hubSince=2&hubSince=2", Some(QueryFault::Repeated)),
];

// The fault of a query. Where memory runs out it is none.
fn fault_of(alloc: Global, text: &str) -> Option<QueryFault> {
    match read_query(alloc, Kind::Users, text) {
        Err(Refusal::Fault(fault)) => Some(fault),
        _ => None,
    }
}

#[test]
fn faults_come_in_their_order(rt: HostRuntime) {
    for (text, want) in &FAULTS {
        assert_eq!(rt; fault_of(rt.alloc(), text), *want, "{text}");
    }
}

fn is_comparison(comparison: &Comparison, field: &str, predicate: Predicate, value: &str) -> bool {
    comparison.field.as_str() == field
        && comparison.predicate == predicate
        && comparison.value.as_str() == value
}

fn is_filter(filter: &Filter) -> bool {
    let Some((Joint::And, second)) = &filter.second else {
        return false;
    };
    is_comparison(&filter.first, "familyName", Predicate::Contains, "o")
        && is_comparison(second, "metadata.locker", Predicate::NotEqual, "a'b")
}

fn is_query(query: &Query) -> bool {
    query.limit == 2
        && query.offset == 0
        && query.order_by == Some(Order::Desc)
        && query.version == Some(7)
        && query.warnings.sort
        && !query.warnings.selection
        && query
            .only
            .as_ref()
            .is_some_and(|names| names.as_slice().len() == 2)
        && query.test.as_ref().is_some_and(is_filter)
}

#[test]
fn a_query_is_read_whole(rt: HostRuntime) {
    let text =
        "filter=familyName~'o'%20AND%20metadata.locker!='a''b'&sort=shoe&orderBy=desc&limit=2&fields=username,role&hubVersion=007";
    let is_read = match read_query(rt.alloc(), Kind::Users, text) {
        Ok(query) => is_query(&query),
        Err(_) => false,
    };
    assert!(rt; is_read);
}

static PINS: [(&str, Option<u64>); 5] = [
    ("limit=x&hub%56ersion=%33", Some(3)),
    ("hubVersion=3&hubVersion=3", None),
    ("hubVersion=3&x=%", None),
    ("hubVersion=x", None),
    ("", None),
];

#[test]
fn pins_are_found(rt: HostRuntime) {
    for (text, want) in &PINS {
        assert_eq!(rt; pin_of(text), *want, "{text}");
    }
}
