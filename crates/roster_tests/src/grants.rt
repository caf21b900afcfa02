//! Files of grants, and what is read of them.

use grant_files::{GrantFault, read_grants};
use grant_scopes::{GrantEntry, Schools};
use roster_base::{NoMemory, Refusal};
use std::alloc::Global;
use std::test::Fail;

// How many grants are read of a file, or what is wrong with it.
fn count_read(alloc: Global, bytes: &[u8]) -> Result<Result<usize, GrantFault>, NoMemory> {
    match read_grants(alloc, bytes) {
        Ok(list) => Ok(Ok(list.entries().len())),
        Err(Refusal::Fault(fault)) => Ok(Err(fault)),
        Err(Refusal::NoMemory) => Err(NoMemory),
    }
}

const HEADER: Result<usize, GrantFault> = Err(GrantFault::Header);

const SCOPE: Result<usize, GrantFault> = Err(GrantFault::BadScope { record_no: 2 });

const SCHOOLS: Result<usize, GrantFault> = Err(GrantFault::BadSchools { record_no: 2 });

// Files, and how many grants are read of each, or what is wrong with it.
static FILES: [(&[u8], Result<usize, GrantFault>); 36] = [
    (b"caller,token,scopes,schools", Ok(0)),
    (b"\xef\xbb\xbfcaller,token,scopes,schools\n", Ok(0)),
    (
        b"\xef\xbb\xbf\xef\xbb\xbfcaller,token,scopes,schools\n",
        HEADER,
    ),
    (
        b" caller ,token  ,\" scopes\",schools\n a , t ,  , * \n",
        Ok(1),
    ),
    (
        b"caller,token,scopes,schools\r\na,t,,*\r\n\r\nb,u,,*\r\n",
        Ok(2),
    ),
    (
        b"\n\ncaller,token,scopes,schools\n\n\na,t,,*\n\nb,t,,*\n",
        Err(GrantFault::RepeatedToken { record_no: 3 }),
    ),
    (b"", HEADER),
    (b"caller,token,scopes\n", HEADER),
    (b"caller,token,scopes,schools,note\n", HEADER),
    (b"token,caller,scopes,schools\n", HEADER),
    (b"caller,token,Scopes,schools\n", HEADER),
    // What is no text, whatever else is wrong.
    (b"x\na,t\xe9,,*\n", Err(GrantFault::NotUtf8)),
    (
        b"caller,token,scopes,schools\na,t,\n",
        Err(GrantFault::Width { record_no: 2 }),
    ),
    (
        b"caller,token,scopes,schools\na,t,,*\nb,u,,*,\n",
        Err(GrantFault::Width { record_no: 3 }),
    ),
    // Of several faults the first from left to right.
    (
        b"caller,token,scopes,schools\na a,?,?,\n",
        Err(GrantFault::BadName { record_no: 2 }),
    ),
    (
        b"caller,token,scopes,schools\na,?,?,\n",
        Err(GrantFault::BadToken { record_no: 2 }),
    ),
    (b"caller,token,scopes,schools\na,t,?,\n", SCOPE),
    (b"caller,token,scopes,schools\na,t,,\n", SCHOOLS),
    (
        b"caller,token,scopes,schools\na,t,,*\na,t,,\n",
        Err(GrantFault::BadSchools { record_no: 3 }),
    ),
    (
        b"caller,token,scopes,schools\na,t,,*\na,t,,*\n",
        Err(GrantFault::RepeatedCaller { record_no: 3 }),
    ),
    (
        b"caller,token,scopes,schools\na,t,,*\nb,t,,*\n,,,\n",
        Err(GrantFault::RepeatedToken { record_no: 3 }),
    ),
    (
        b"caller,token,scopes,schools\na,t,,*\nb,u,,*\nc,v,,*\n a ,w,,*\n",
        Err(GrantFault::RepeatedCaller { record_no: 5 }),
    ),
    (b"caller,token,scopes,schools\na,t,,*\nA,T,,*\n", Ok(2)),
    (
        b"caller,token,scopes,schools\n,t,,*\n",
        Err(GrantFault::BadName { record_no: 2 }),
    ),
    (
        b"caller,token,scopes,schools\na,t=u,,*\n",
        Err(GrantFault::BadToken { record_no: 2 }),
    ),
    (b"caller,token,scopes,schools\na,t==,,*\n", Ok(1)),
    (
        b"caller,token,scopes,schools\na,t,  roster-demographics.readonly   roster-demographics.readonly ,*\n",
        Ok(1),
    ),
    (
        b"caller,token,scopes,schools\na,t,https://purl.imsglobal.org/spec/or/v1p1/scope/gradebook.delete roster.readonly,*\n",
        Ok(1),
    ),
    (
        b"caller,token,scopes,schools\na,t,https://purl.imsglobal.org/spec/or/v1p1/scope/,*\n",
        SCOPE,
    ),
    (
        b"caller,token,scopes,schools\na,t,http://purl.imsglobal.org/spec/or/v1p1/scope/gradebook.delete,*\n",
        SCOPE,
    ),
    (
        b"caller,token,scopes,schools\na,t,roster.readonly\tgradebook.readonly,*\n",
        SCOPE,
    ),
    (
        b"caller,token,scopes,schools\na,t,Roster.readonly,*\n",
        SCOPE,
    ),
    (b"caller,token,scopes,schools\na,t,,\" , ,\"\n", SCHOOLS),
    (b"caller,token,scopes,schools\na,t,,\"s1\n\"\n", SCHOOLS),
    // A star among others is an id as any other.
    (b"caller,token,scopes,schools\na,t,,\"s1,*\"\n", Ok(1)),
    (b"caller,token,scopes,schools\nb,u,,s1\na,t,,s1\n", Ok(2)),
];

#[test]
fn files_of_grants(rt: HostRuntime) -> Result<(), Fail> {
    for (bytes, want) in &FILES {
        assert_eq!(rt; count_read(rt.alloc(), bytes)?, *want);
    }
    Ok(())
}

// A caller, its token, the bits of its scopes, and how many schools it is granted; nothing means all schools.
fn told(entry: &GrantEntry) -> (&str, &str, u8, Option<usize>) {
    let schools = match &entry.schools {
        Schools::All => None,
        Schools::Listed(list) => Some(list.ids().len()),
    };
    (
        entry.caller.as_str(),
        entry.token.as_str(),
        entry.scopes.bits(),
        schools,
    )
}

// The bits 0, 3, 4 and 5: `roster.readonly`, `gradebook.readonly`, `gradebook.createput` and `gradebook.delete`.
const EAST_SCOPES: u8 = 57;

// The bits 0 and 6: `roster.readonly` and `resource.readonly`.
const ALL_SCOPES: u8 = 65;

// A file with two grants.
const TWO: &str =
    "caller,token,scopes,schools\neast,tok-e,roster.readonly gradebook.readonly gradebook.createput gradebook.delete,\" s2 , s1,,s2\"\nall,tok-a,roster.readonly resource.readonly,*\n";

#[test]
fn grants_are_read(rt: HostRuntime) {
    let are_read = match read_grants(rt.alloc(), TWO.as_bytes()) {
        Ok(list) => match list.entries() {
            [east, all] => told(east) == ("east", "tok-e", EAST_SCOPES, Some(2))
                && told(all) == ("all", "tok-a", ALL_SCOPES, None),
            _ => false,
        },
        Err(_) => false,
    };
    assert!(rt; are_read);
}

// A file of `count` grants.
fn file_of(alloc: Global, count: u32) -> Result<String, NoMemory> {
    let mut text = String::from_str(alloc, "caller,token,scopes,schools\n")?;
    for number in 0..count {
        text.push_str(format!(in alloc; "c{number},t{number},,*\n")?.as_str())?;
    }
    Ok(text)
}

// How many grants a file asks for, and what is read of it: 10,000 is the most.
static COUNTS: [(u32, Result<usize, GrantFault>); 2] = [
    (10_000, Ok(10_000)),
    (10_001, Err(GrantFault::TooMany)),
];

#[test]
fn ten_thousand_are_read(rt: HostRuntime) -> Result<(), Fail> {
    for (count, want) in &COUNTS {
        let text = file_of(rt.alloc(), *count)?;
        assert_eq!(rt; count_read(rt.alloc(), text.as_bytes())?, *want);
    }
    Ok(())
}
