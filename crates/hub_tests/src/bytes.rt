//! Files of the system that are no text, or have more bytes than are read.

use crate::publishing::ORGS;
use crate::runs::{ROOM, new_keepers, run_words};
use exchange_link::PeerLink;
use outside_ports::{DirFolder, MemSink};
use std::io::Write;
use std::path::PathBuf;
use std::process::Abort;
use std::test::Fail;
use std::{env, fs, process};
use test_lake::words_of;

// One byte more than a file of a set may have.
const OVERLONG_FILE: u64 = 67_108_865;

// One byte more than the body of a write may have.
const OVERLONG_BODY: u64 = 131_073;

// Words, their file, its first bytes, its length, and what is printed.
struct Case {
    line: &'static str,
    file: &'static str,
    bytes: &'static [u8],
    length: u64,
    want: &'static str,
}

static CASES: [Case; 5] = [
    Case {
        line: "show orgs",
        file: "orgs.csv",
        bytes: b"\xff",
        length: 1,
        want: "refused: orgs.csv: not UTF-8\n",
    },
    Case {
        line: "show orgs",
        file: "orgs.csv",
        bytes: b"sourcedId",
        length: OVERLONG_FILE,
        want: "refused: orgs.csv: too large\n",
    },
    Case {
        line: "publish a=one",
        file: "one/orgs.csv",
        bytes: b"sourcedId",
        length: OVERLONG_FILE,
        want: "refused: orgs.csv: too large\n",
    },
    Case {
        line: "enter put categories c2 c2.json",
        file: "c2.json",
        bytes: b"{\xff}",
        length: 3,
        want: "refused: c2.json: not UTF-8\n",
    },
    Case {
        line: "enter put categories c2 c2.json",
        file: "c2.json",
        bytes: b"{",
        length: OVERLONG_BODY,
        want: "refused: c2.json: too large\n",
    },
];

// A new folder of the system's for temporary files, with a manifest of orgs in `one`.
fn new_folder(rt: HostRuntime) -> Result<PathBuf, Fail> {
    let alloc = rt.alloc();
    let id = process::id(rt.process());
    let folder = env::temp_dir(&rt)?.join(alloc, format!(in alloc; "hub_tests_{id}")?)?;
    let one = folder.join(alloc, "one")?;
    fs::create_dir_all(&rt, &one)?;
    fs::write(&rt, one.join(alloc, "manifest.csv")?, ORGS.as_bytes())?;
    Ok(folder)
}

// Makes the file of a case. Zeros that fill it up take no room.
fn make_file(rt: HostRuntime, folder: &PathBuf, case: &Case) -> Result<(), Fail> {
    let mut file = fs::create(&rt, folder.join(rt.alloc(), case.file)?)?;
    file.write_all(case.bytes)?;
    file.set_len(case.length)?;
    Ok(())
}

// The status of words that are run over the files of a folder, and what they write.
fn run_over(rt: HostRuntime, folder: &PathBuf, line: &str) -> Result<(u8, MemSink), Fail> {
    let alloc = rt.alloc();
    let words = words_of(alloc, line)?;
    let mut files = DirFolder::new(rt, String::from_str(alloc, folder.as_str())?);
    let mut link = PeerLink::new(alloc, Vec::new(alloc));
    let mut sink = MemSink::new(alloc, ROOM, Vec::new(alloc))?;
    let mut keepers = new_keepers(alloc);
    let told = run_words(
        alloc,
        words.as_slice(),
        &mut files,
        &mut keepers,
        &mut link,
        &mut sink,
    );
    drop(keepers);
    Ok((told, sink))
}

fn assert_refused(
    abort: &impl Abort,
    rt: HostRuntime,
    folder: &PathBuf,
    case: &Case,
) -> Result<(), Fail> {
    make_file(rt, folder, case)?;
    let (told, sink) = run_over(rt, folder, case.line)?;
    assert_eq!(abort;
        (told, str::from_utf8(sink.written())),
        (4, Ok(case.want)),
        "{}",
        case.line
    );
    Ok(())
}

#[test]
fn a_file_may_be_no_text_or_too_large(rt: HostRuntime) -> Result<(), Fail> {
    let folder = new_folder(rt)?;
    for case in &CASES {
        assert_refused(&rt, rt, &folder, case)?;
    }
    fs::remove_dir_all(&rt, &folder)?;
    Ok(())
}
