//! Steps over a store: words over a hub, words over a consumer's copy with the replies to their exchanges, which are
//! given beforehand, and what is done to its items.

use crate::stored::{areas_told, put_told};
use crate::ten_kinds_items::Kept;
use crate::words::run_line;
use exchange_link::PeerLink;
use keeper_memory::{MemCopy, MemHub};
use keeper_sqlite::{ItemCopy, ItemHub, SqlItems, StoredItems};
use roster_base::NoMemory;
use sqlite::{Alter, Connection, FileStore, Files, Options};
use sqlite_disk::{Disk, Memory};
use std::alloc::Global;
use store_laws::items::opened;

/// A reply: its head but for the number of its exchange and the length of its body, and its body.
pub type Reply = (&'static str, &'static str);

/// Words over a copy, the number of the run that they are where they make exchanges, and the replies to these.
#[derive(Clone, Copy)]
pub struct Turn(pub &'static str, pub u64, pub &'static [Reply]);

/// Words over a hub, a turn of a copy, a look at how many items each area has, items that are put, or statements.
#[derive(Clone, Copy)]
pub enum Step {
    Hub(&'static str),
    Copy(Turn),
    Areas,
    Put(&'static [Kept]),
    Sql(&'static str),
}

/// Files that hold nothing.
pub fn empty(alloc: Global) -> Files<Memory> {
    Files {
        log: Memory::new(alloc),
        db: Memory::new(alloc),
    }
}

fn reply_to(alloc: Global, run: u64, count: usize, reply: &Reply) -> Result<Vec<u8>, NoMemory> {
    let (head, body) = reply;
    let length = body.len();
    let text = format!(in alloc;
        "{head}\r\nX-Hub-Exchange: {run}.{count}\r\nContent-Length: {length}\r\n\r\n{body}"
    )?;
    Ok(text.into_bytes())
}

fn replies_to(
    alloc: Global,
    run: u64,
    replies: &[Reply],
) -> Result<Vec<Option<Vec<u8>>>, NoMemory> {
    let mut texts = Vec::new(alloc);
    for (place, reply) in replies.iter().enumerate() {
        let count = place.saturating_add(1);
        texts.push(Some(reply_to(alloc, run, count, reply)?))?;
    }
    Ok(texts)
}

// Runs the words over a hub that these items keep, with a new copy, and gives the items back.
fn hub_over<I: StoredItems>(
    alloc: Global,
    items: I,
    keep: u32,
    line: &str,
) -> (Result<String, NoMemory>, I) {
    let mut keeper = ItemHub::adopt(items, keep);
    let mut copy = MemCopy::new(alloc);
    let mut link = PeerLink::new(alloc, Vec::new(alloc));
    let told = run_line(alloc, line, &mut keeper, &mut copy, &mut link);
    drop(copy);
    drop(link);
    (told, keeper.release())
}

// Runs a turn over a copy that these items keep, with a new hub, and gives the items back.
fn copy_over<I: StoredItems>(
    alloc: Global,
    items: I,
    line: &str,
    replies: Vec<Option<Vec<u8>>>,
) -> (Result<String, NoMemory>, I) {
    let mut keeper = MemHub::new(alloc, 0);
    let mut copy = ItemCopy::adopt(items);
    let mut link = PeerLink::new(alloc, replies);
    let told = run_line(alloc, line, &mut keeper, &mut copy, &mut link);
    drop(keeper);
    drop(link);
    (told, copy.release())
}

fn turn_over<I: StoredItems>(
    alloc: Global,
    items: I,
    turn: &Turn,
) -> (Result<String, NoMemory>, I) {
    let Turn(line, run, replies) = turn;
    match replies_to(alloc, *run, replies) {
        Ok(replies) => copy_over(alloc, items, line, replies),
        Err(error) => (Err(error), items),
    }
}

// Takes a step over these items, and gives them back. A new hub keeps so many versions.
fn step_over<I: StoredItems>(
    alloc: Global,
    mut items: I,
    keep: u32,
    step: &Step,
) -> (Result<String, NoMemory>, I) {
    match step {
        Step::Hub(line) => hub_over(alloc, items, keep, line),
        Step::Copy(turn) => turn_over(alloc, items, turn),
        Step::Areas => (areas_told(alloc, &mut items), items),
        Step::Put(kept) => (put_told(alloc, &mut items, kept), items),
        Step::Sql(_) => (Ok(String::new(alloc)), items),
    }
}

// Runs statements over a connection, and tells where that fails.
fn sql_told<S: Alter + Drop>(
    alloc: Global,
    connection: &mut Connection<S>,
    sql: &str,
) -> Result<String, NoMemory> {
    let done = connection.execute_batch(sql).is_ok();
    Ok(String::from_str(alloc, if done { "" } else { "failed" })?)
}

// Takes a step over the store in a connection, and gives its database back.
fn step_on<S: Alter + Drop>(
    alloc: Global,
    mut connection: Connection<S>,
    keep: u32,
    step: &Step,
) -> (Result<String, NoMemory>, S) {
    if let Step::Sql(sql) = step {
        let told = sql_told(alloc, &mut connection, sql);
        return (told, connection.into_store());
    }
    let (told, items) = step_over(alloc, SqlItems::adopt(connection), keep, step);
    (told, items.release().into_store())
}

// Takes a step over the store in a connection to files, and gives these back.
fn step_open<D: Disk + Drop>(
    alloc: Global,
    connection: Connection<FileStore<D>>,
    keep: u32,
    step: &Step,
) -> (Result<String, NoMemory>, Files<D>) {
    let (told, store) = step_on(alloc, connection, keep, step);
    (told, store.close())
}

// Each step opens the files anew, so that few pages are made ready for what is read.
fn options() -> Options {
    Options {
        cache_pages: 16,
        ..Options::new(7)
    }
}

/// Takes a step over the store in these files, and gives them back.
pub fn step_in<D: Disk + Drop>(
    alloc: Global,
    files: Files<D>,
    keep: u32,
    step: &Step,
) -> (Result<String, NoMemory>, Files<D>) {
    match opened(alloc, files, options()) {
        Ok(connection) => step_open(alloc, connection, keep, step),
        Err(files) => (Ok(String::new(alloc)), files),
    }
}

/// The files that steps leave.
pub fn files_after(alloc: Global, keep: u32, steps: &[Step]) -> Files<Memory> {
    let mut files = empty(alloc);
    for step in steps {
        files = step_in(alloc, files, keep, step).1;
    }
    files
}
