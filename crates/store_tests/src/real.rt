//! Runs over the real folder, clock and store.

use crate::words::FILES;
use outside_ports::MemSink;
use real_run::run_real;
use std::path::PathBuf;
use std::process::Abort;
use std::test::Fail;
use std::{env, fs, process};
use test_lake::words_of;

// A new folder of the system's for temporary files.
fn new_folder(rt: HostRuntime) -> Result<PathBuf, Fail> {
    let alloc = rt.alloc();
    let id = process::id(rt.process());
    Ok(env::temp_dir(&rt)?.join(alloc, format!(in alloc; "real_run_{id}")?)?)
}

// Writes the set of all orgs.
fn write_lake(rt: HostRuntime, folder: &PathBuf) -> Result<(), Fail> {
    let lake = folder.join(rt.alloc(), "lake")?;
    fs::create_dir_all(&rt, &lake)?;
    for (set, name, text) in &FILES {
        if *set == "lake" {
            fs::write(&rt, lake.join(rt.alloc(), *name)?, text.as_bytes())?;
        }
    }
    Ok(())
}

// Runs words over a store, with the folder as that of the files.
fn run_line(rt: HostRuntime, folder: &str, store: &str, words: &str) -> Result<String, Fail> {
    let alloc = rt.alloc();
    let line = format!(in alloc; "--store {folder}/{store} --folder {folder} {words}")?;
    let words = words_of(alloc, line.as_str())?;
    let mut sink = MemSink::new(alloc, 1024, Vec::new(alloc))?;
    let status = run_real(rt, alloc, words.as_slice(), &mut sink);
    let text = str::from_utf8(sink.written()).unwrap_or("no text");
    Ok(format!(in alloc; "{status} {text}")?)
}

// A folder of stores, words, and what they tell.
type Line = (&'static str, &'static str, &'static str);

// A hub and a copy in one folder, one within it, and a file in a folder's place. No peer is named, so no entry is sent.
static LINES: [Line; 10] = [
    ("st", "publish sis=lake", "0 sis version 1\n"),
    ("st", "publish sis=lake", "0 sis unchanged 1\n"),
    ("st", "enter delete categories c9", "0 entered 1\n"),
    ("st", "enter delete results r1", "0 entered 2\n"),
    ("st", "send tok-e 1", "7 interrupted 1\n"),
    ("st", "outbox", "0 1 waiting\n2 waiting\n"),
    ("st/within/it", "publish sis=lake", "0 sis version 1\n"),
    ("st/within/it", "outbox", "0 "),
    ("lake/orgs.csv", "publish sis=lake", "5 hub store failed\n"),
    ("lake/orgs.csv", "outbox", "6 copy store failed\n"),
];

fn assert_lines(abort: &impl Abort, rt: HostRuntime, folder: &PathBuf) -> Result<(), Fail> {
    for (store, words, want) in &LINES {
        let told = run_line(rt, folder.as_str(), store, words)?;
        assert_eq!(abort; told.as_str(), *want, "{store} {words}");
    }
    Ok(())
}

static STORES: [&str; 2] = ["hub.db", "copy.db"];

// Makes the stores of a folder of these bytes.
fn write_stores(rt: HostRuntime, folder: &PathBuf, bytes: &[u8]) -> Result<(), Fail> {
    fs::create_dir_all(&rt, folder)?;
    for name in &STORES {
        fs::write(&rt, folder.join(rt.alloc(), *name)?, bytes)?;
    }
    Ok(())
}

// Whether the stores of a folder have these bytes.
fn have_bytes(rt: HostRuntime, folder: &PathBuf, bytes: &[u8]) -> Result<bool, Fail> {
    for name in &STORES {
        let found = fs::read(&rt, folder.join(rt.alloc(), *name)?)?;
        if found.as_slice() != bytes {
            return Ok(false);
        }
    }
    Ok(true)
}

// Half of a hub's file, which is cut behind its head.
fn cut_bytes(rt: HostRuntime, folder: &PathBuf) -> Result<Vec<u8>, Fail> {
    let mut bytes = fs::read(&rt, folder.join(rt.alloc(), "st/hub.db")?)?;
    let half = bytes.len() / 2;
    bytes.truncate(half);
    Ok(bytes)
}

// Words over a hub and a copy whose files are broken, and what they tell.
static BROKEN: [(&str, &str); 2] = [
    ("publish sis=lake", "5 hub store failed\n"),
    ("enter delete categories c9", "6 copy store failed\n"),
];

// Stores of these bytes fail, and stay as they are.
fn assert_broken(
    abort: &impl Abort,
    rt: HostRuntime,
    folder: &PathBuf,
    store: &str,
    bytes: &[u8],
) -> Result<(), Fail> {
    let stores = folder.join(rt.alloc(), store)?;
    write_stores(rt, &stores, bytes)?;
    for (words, want) in &BROKEN {
        let told = run_line(rt, folder.as_str(), store, words)?;
        assert_eq!(abort; told.as_str(), *want, "{store} {words}");
    }
    let stay = have_bytes(rt, &stores, bytes)?;
    assert!(abort; stay, "{store}");
    Ok(())
}

#[test]
fn stores_last(rt: HostRuntime) -> Result<(), Fail> {
    let folder = new_folder(rt)?;
    write_lake(rt, &folder)?;
    assert_lines(&rt, rt, &folder)?;
    assert_broken(&rt, rt, &folder, "text", b"sourcedId,status\n")?;
    let cut = cut_bytes(rt, &folder)?;
    assert_broken(&rt, rt, &folder, "cut", cut.as_slice())?;
    fs::remove_dir_all(&rt, &folder)?;
    Ok(())
}
