//! A district's hub and those that copy and follow it, and runs of the program over them.

use crate::files::folder;
use hub_cli::run_hub;
use keeper_memory::{MemCopy, MemHub};
use outside_ports::{FixedClock, MemFolder, MemSink};
use roster_texts::Moment;
use roster_values::Kind;
use std::alloc::Global;
use std::mem::replace;
use std::process::Abort;
use std::test::Fail;
use sync_world::world::keeps_all;
use sync_world::{Fate, WorldLink};
use test_lake::{NOON, words_of};

// A hub's keeper, and a copy of the hub above it.
#[derive(Drop)]
struct Kept {
    hub: MemHub,
    copy: MemCopy,
}

/// The files of all; a district, a region that copies it, a library that copies the region, a reader who copies the
/// library, and another consumer of the district.
#[derive(Drop)]
pub struct Hubs {
    pub folder: MemFolder,
    district: Kept,
    region: Kept,
    library: Kept,
    reader: Kept,
    other: Kept,
}

/// Where words are run.
#[derive(Clone, Copy)]
pub enum Place {
    District,
    Region,
    Library,
    Reader,
    Other,
}

/// What fails in a run: an exchange, by its number in the run, or a commit of the copy or of the hub, by its number
/// among all of them, before it acts or once it has acted.
#[derive(Clone, Copy)]
pub enum Fault {
    Nothing,
    Exchange(Fate, u64),
    CopyBefore(u64),
    CopyBehind(u64),
    HubBefore(u64),
    HubBehind(u64),
}

/// A place, what fails in a run there, its words, its status, and what it writes.
pub type Step = (Place, Fault, &'static str, u8, &'static str);

// How many versions beside the newest a hub keeps.
const KEPT: u32 = 100;

fn nothing_kept(alloc: Global) -> Kept {
    Kept {
        hub: MemHub::new(alloc, KEPT),
        copy: MemCopy::new(alloc),
    }
}

/// Hubs and copies that hold nothing.
pub fn new_hubs(alloc: Global) -> Result<Hubs, Fail> {
    let folder = folder(alloc)?;
    Ok(Hubs {
        folder,
        district: nothing_kept(alloc),
        region: nothing_kept(alloc),
        library: nothing_kept(alloc),
        reader: nothing_kept(alloc),
        other: nothing_kept(alloc),
    })
}

// A link to a hub, whose keeper keeps all from version 0 on.
fn opened(rt: &impl Abort, alloc: Global, mut hub: MemHub) -> WorldLink {
    let Some(noon) = Moment::at(NOON) else {
        panic!(rt; "no moment");
    };
    match keeps_all(alloc, &mut hub) {
        Ok(true) => {
            match WorldLink::over(alloc, hub, noon) {
                Ok(link) => link,
                Err(_) => panic!(rt; "no world"),
            }
        }
        _ => panic!(rt; "not from version 0 on"),
    }
}

fn plan(lower: &mut Kept, link: &mut WorldLink, fault: Fault) -> Result<(), Fail> {
    match fault {
        Fault::Nothing => Ok(()),
        Fault::Exchange(fate, number) => Ok(link.meet(number, fate)?),
        Fault::CopyBefore(number) => Ok(lower.copy.list_commit(false, number)?),
        Fault::CopyBehind(number) => Ok(lower.copy.list_commit(true, number)?),
        Fault::HubBefore(number) => Ok(lower.hub.list_commit(false, number)?),
        Fault::HubBehind(number) => Ok(lower.hub.list_commit(true, number)?),
    }
}

// The status of words, with a link to the hub above.
fn run_words(
    alloc: Global,
    words: &[String],
    folder: &mut MemFolder,
    lower: &mut Kept,
    link: &mut WorldLink,
    sink: &mut MemSink,
) -> u8 {
    let clock = FixedClock::at(NOON);
    let Kept { hub, copy } = lower;
    run_hub(alloc, words, folder, hub, copy, link, &clock, sink)
}

// The status of the words between spaces and what they write, with a link to the hub above, in which this fails.
fn run_linked(
    alloc: Global,
    folder: &mut MemFolder,
    lower: &mut Kept,
    link: &mut WorldLink,
    fault: Fault,
    line: &str,
) -> Result<(u8, MemSink), Fail> {
    plan(lower, link, fault)?;
    let words = words_of(alloc, line)?;
    let mut sink = MemSink::new(alloc, 8192, Vec::new(alloc))?;
    let status = run_words(alloc, words.as_slice(), folder, lower, link, &mut sink);
    Ok((status, sink))
}

// The status of words at a hub or a copy below another hub, and what they write.
fn run_below(
    rt: &impl Abort,
    alloc: Global,
    folder: &mut MemFolder,
    lower: &mut Kept,
    upper: &mut MemHub,
    (fault, line): (Fault, &str),
) -> Result<(u8, MemSink), Fail> {
    let mut link = opened(rt, alloc, replace(upper, MemHub::new(alloc, 1)));
    let told = run_linked(alloc, folder, lower, &mut link, fault, line);
    drop(replace(upper, link.into_keeper()));
    told
}

/// The status of the words between spaces at a place, in which this fails, and what they write. Those of the district
/// ask no other hub.
pub fn run(
    rt: &impl Abort,
    alloc: Global,
    hubs: &mut Hubs,
    place: Place,
    fault: Fault,
    line: &str,
) -> Result<(u8, MemSink), Fail> {
    let Hubs {
        folder,
        district,
        region,
        library,
        reader,
        other,
    } = hubs;
    let turn = (fault, line);
    match place {
        Place::District => run_below(rt, alloc, folder, district, &mut other.hub, turn),
        Place::Region => run_below(rt, alloc, folder, region, &mut district.hub, turn),
        Place::Library => run_below(rt, alloc, folder, library, &mut region.hub, turn),
        Place::Reader => run_below(rt, alloc, folder, reader, &mut library.hub, turn),
        Place::Other => run_below(rt, alloc, folder, other, &mut district.hub, turn),
    }
}

/// Runs one behind another.
pub fn assert_steps(
    rt: &impl Abort,
    alloc: Global,
    hubs: &mut Hubs,
    steps: &[Step],
) -> Result<(), Fail> {
    for (place, fault, line, status, want) in steps {
        let (told, sink) = run(rt, alloc, hubs, *place, *fault, line)?;
        assert_eq!(rt;
            (told, str::from_utf8(sink.written())),
            (*status, Ok(*want)),
            "{line}"
        );
    }
    Ok(())
}

/// Copies at two places hold the same rows of each kind.
pub fn assert_alike(
    rt: &impl Abort,
    alloc: Global,
    hubs: &mut Hubs,
    one: Place,
    other: Place,
) -> Result<(), Fail> {
    for kind in &Kind::ALL {
        let line = format!(in alloc; "list {}", kind.plural())?;
        let listed = run(rt, alloc, hubs, one, Fault::Nothing, line.as_str())?;
        let again = run(rt, alloc, hubs, other, Fault::Nothing, line.as_str())?;
        assert_eq!(rt; again.1.written(), listed.1.written(), "{line}");
    }
    Ok(())
}

/// Runs one behind another, with hubs and copies that hold nothing at first.
pub fn assert_scene(rt: &impl Abort, alloc: Global, steps: &[Step]) -> Result<(), Fail> {
    let mut hubs = new_hubs(alloc)?;
    let asserted = assert_steps(rt, alloc, &mut hubs, steps);
    drop(hubs);
    asserted
}
