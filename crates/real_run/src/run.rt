//! Runs over the real folder, clock and store.

ghost use Rattle.std.specs.Prelude.{◌≡◌, ◌≢◌, IsErr, IsSome, None, map, string_bytes};
ghost use Rattle.hub_cli.specs.Below.ConsumerAnswers.{copy_between, link_between};
ghost use Rattle.hub_words.specs.Statuses.{bad_words_status, no_memory_status, output_failed_status};
ghost use Rattle.hub_words.specs.Words.{split, store_in};
ghost use Rattle.real_run.specs.RealRuns.{AnswersFrom, AnswersOver, IsRealAnswer, RunsBetween, Tells, TellsPart};
ghost use Rattle.roster_base.specs.Faults.{Rose};

use crate::progress::{Progress, ShownFolder, ShownLink};
use crate::telling::{tell_before, tell_unreached};
use exchange_link::{Link, NoLink, SocketLink};
use hub_cli::{
    Command, Spelled, keep_of, lines, peer_of, print, read_words, root_of, run_spelled, store_of,
};
use hub_words::statuses::NO_MEMORY;
use keeper_memory::{CopyKeeper, HubKeeper, MemCopy, MemHub};
use keeper_sqlite::{ClosedStore, ItemCopy, ItemHub};
use outside_ports::{DirFolder, Sink, SystemClock};
use roster_base::NoMemory;
use std::alloc::Global;
use std::mem::forget;
use store_files::{COPY_FILE, FileItems, HUB_FILE, OpenStore, open_store};

// The system that a run works with, the folder of its files, and the address of the hub that it copies.
#[derive(Drop)]
struct System {
    rt: HostRuntime,
    alloc: Global,
    root: String,
    peer: Option<String>,
}

// The system as words say it.
fn system_of(rt: HostRuntime, alloc: Global, spelled: &Spelled) -> Result<System, NoMemory> {
    let root = String::from_str(alloc, root_of(spelled))?;
    let peer = match peer_of(spelled) {
        Some(address) => Some(String::from_str(alloc, address.as_str())?),
        None => None,
    };
    Ok(System {
        rt,
        alloc,
        root,
        peer,
    })
}

// Runs words over keepers and a link, over the real folder and clock.
fn run_over_link<H: HubKeeper, C: CopyKeeper, L: Link, O: Sink>(
    system: System,
    spelled: &Spelled,
    keeper: &mut H,
    copy: &mut C,
    link: &mut L,
    out: &mut O,
) -> u8
    ensures { RunsBetween O.written O.faults out.old out.new result spelled.now (AnswersOver (H.stands_for keeper.old) (H.stands_for keeper.new)
        (copy_between C.stands_for C.fault_count copy.old copy.new)
        (link_between L.tells L.asked L.missed L.kept L.fault_count link.old link.new)
        spelled.now) }
{
    let System {
        rt,
        alloc,
        root,
        peer,
    } = system;
    drop(peer);
    let mut folder = ShownFolder::new(DirFolder::new(rt, root), Progress::new(rt));
    let clock = SystemClock::new(rt);
    run_spelled(alloc, spelled, &mut folder, keeper, copy, link, &clock, out)
}

// Runs words over keepers, and over a link to no hub where the words name none.
fn run_over_keepers<H: HubKeeper, C: CopyKeeper, O: Sink>(
    mut system: System,
    spelled: &Spelled,
    keeper: &mut H,
    copy: &mut C,
    out: &mut O,
) -> u8
    ensures { RunsBetween O.written O.faults out.old out.new result spelled.now (AnswersFrom (H.stands_for keeper.old) (H.stands_for keeper.new)
        (copy_between C.stands_for C.fault_count copy.old copy.new) spelled.now) }
{
    match system.peer.take() {
        None => {
            let mut link = NoLink::new();
            run_over_link(system, spelled, keeper, copy, &mut link, out)
        }
        Some(address) => {
            let rt = system.rt;
            let socket = SocketLink::to(system.alloc, rt, address);
            let mut link = ShownLink::new(socket, Progress::new(rt));
            let status = run_over_link(system, spelled, keeper, copy, &mut link, out);
            tell_unreached(rt, status, &link);
            drop(link);
            status
        }
    }
}

// Runs words that name no store over a hub and a copy in memory.
fn run_in_memory<O: Sink>(system: System, spelled: &Spelled, out: &mut O) -> u8
    requires { store_in spelled.now ≡ None }
    ensures { RunsBetween O.written O.faults out.old out.new result spelled.now (IsRealAnswer spelled.now) }
{
    let mut keeper = MemHub::new(system.alloc, keep_of(spelled));
    let mut copy = MemCopy::new(system.alloc);
    let status = run_over_keepers(system, spelled, &mut keeper, &mut copy, out);
    // The process ends with its run, and its memory with it: a roster isn't gone through once more to be let go row by
    // row.
    forget(keeper);
    forget(copy);
    status
}

// Runs words that name a store over keepers of its files, or over one such and one in memory that the command doesn't
// use.
fn run_with_store<H: HubKeeper, C: CopyKeeper, O: Sink>(
    system: System,
    spelled: &Spelled,
    keeper: &mut H,
    copy: &mut C,
    out: &mut O,
) -> u8
    requires { IsSome (store_in spelled.now) }
    ensures { RunsBetween O.written O.faults out.old out.new result spelled.now (IsRealAnswer spelled.now) }
{
    // The clause of a run over a store tells nothing of its keepers.
    run_over_keepers(system, spelled, keeper, copy, out)
}

// Runs a command of the hub over its keeper. It needs no copy.
fn run_with_hub<H: HubKeeper, O: Sink>(
    system: System,
    spelled: &Spelled,
    keeper: &mut H,
    out: &mut O,
) -> u8
    requires { IsSome (store_in spelled.now) }
    ensures { RunsBetween O.written O.faults out.old out.new result spelled.now (IsRealAnswer spelled.now) }
{
    let mut copy = MemCopy::new(system.alloc);
    let status = run_with_store(system, spelled, keeper, &mut copy, out);
    drop(copy);
    status
}

// Runs words over a hub's keeper and the store of a copy, which is closed then; each call of one that couldn't be
// opened fails.
fn run_with_copy<H: HubKeeper, S: OpenStore, O: Sink>(
    system: System,
    spelled: &Spelled,
    keeper: &mut H,
    copy: Option<S>,
    out: &mut O,
) -> u8
    requires { IsSome (store_in spelled.now) }
    ensures { RunsBetween O.written O.faults out.old out.new result spelled.now (IsRealAnswer spelled.now) }
{
    match copy {
        Some(items) => {
            let mut copy = ItemCopy::adopt(items);
            let status = run_with_store(system, spelled, keeper, &mut copy, out);
            copy.release().close();
            status
        }
        None => {
            let mut closed = ClosedStore::new();
            run_with_store(system, spelled, keeper, &mut closed, out)
        }
    }
}

// Runs a command of the hub over its store.
fn run_of_hub<S: OpenStore, O: Sink>(
    system: System,
    spelled: &Spelled,
    hub: Option<S>,
    out: &mut O,
) -> u8
    requires { IsSome (store_in spelled.now) }
    ensures { RunsBetween O.written O.faults out.old out.new result spelled.now (IsRealAnswer spelled.now) }
{
    match hub {
        Some(items) => {
            let mut keeper = ItemHub::adopt(items, keep_of(spelled));
            let status = run_with_hub(system, spelled, &mut keeper, out);
            keeper.release().close();
            status
        }
        None => {
            let mut closed = ClosedStore::new();
            run_with_hub(system, spelled, &mut closed, out)
        }
    }
}

// Runs a command of the consumer over the store of its copy. It needs no hub of its own.
fn run_of_copy<S: OpenStore, O: Sink>(
    system: System,
    spelled: &Spelled,
    copy: Option<S>,
    out: &mut O,
) -> u8
    requires { IsSome (store_in spelled.now) }
    ensures { RunsBetween O.written O.faults out.old out.new result spelled.now (IsRealAnswer spelled.now) }
{
    let mut keeper = MemHub::new(system.alloc, 0);
    let status = run_with_copy(system, spelled, &mut keeper, copy, out);
    drop(keeper);
    status
}

// Runs a command that looks at both over their stores.
fn run_of_both<S: OpenStore, O: Sink>(
    system: System,
    spelled: &Spelled,
    hub: Option<S>,
    copy: Option<S>,
    out: &mut O,
) -> u8
    requires { IsSome (store_in spelled.now) }
    ensures { RunsBetween O.written O.faults out.old out.new result spelled.now (IsRealAnswer spelled.now) }
{
    match hub {
        Some(items) => {
            let mut keeper = ItemHub::adopt(items, keep_of(spelled));
            let status = run_with_copy(system, spelled, &mut keeper, copy, out);
            keeper.release().close();
            status
        }
        None => {
            let mut closed = ClosedStore::new();
            run_with_copy(system, spelled, &mut closed, copy, out)
        }
    }
}

// The stores that a command works with.
#[derive(Clone, Copy)]
enum Stores {
    Hub,
    Copy,
    Both,
}

// Those of the command that words spell. Bad words name no folder, so none is opened for them.
fn stores_of(spelled: &Spelled) -> Stores {
    let Ok(parsed) = spelled else {
        return Stores::Hub;
    };
    match &parsed.command {
        Command::Sync { .. }
        | Command::SyncDelta { .. }
        | Command::Enter { .. }
        | Command::Send { .. }
        | Command::Outbox
        | Command::ListHeld { .. }
        | Command::ExportManifest { .. }
        | Command::Export { .. }
        | Command::ExportSince { .. } => Stores::Copy,
        Command::Cascade { .. } | Command::Follow { .. } => Stores::Both,
        Command::Show { .. }
        | Command::Publish { .. }
        | Command::Grant { .. }
        | Command::Ask { .. }
        | Command::Rehearse { .. }
        | Command::Make { .. } => Stores::Hub,
    }
}

// The stores that a command works with, each as it was opened: `None` is one that couldn't be.
enum Opened {
    Hub(Option<FileItems>),
    Copy(Option<FileItems>),
    Both {
        hub: Option<FileItems>,
        copy: Option<FileItems>,
    },
}

// Opens the stores of a command in a folder.
fn open_stores(system: &System, folder: &str, stores: Stores) -> Result<Opened, NoMemory> {
    let (rt, alloc) = (system.rt, system.alloc);
    match stores {
        Stores::Hub => Ok(Opened::Hub(open_store(rt, alloc, folder, HUB_FILE)?)),
        Stores::Copy => Ok(Opened::Copy(open_store(rt, alloc, folder, COPY_FILE)?)),
        Stores::Both => {
            let hub = open_store(rt, alloc, folder, HUB_FILE)?;
            let copy = open_store(rt, alloc, folder, COPY_FILE)?;
            Ok(Opened::Both { hub, copy })
        }
    }
}

// Runs words over what the stores in a folder keep.
fn run_stored<O: Sink>(system: System, spelled: &Spelled, folder: &str, out: &mut O) -> u8
    requires { IsSome (store_in spelled.now) }
    ensures { RunsBetween O.written O.faults out.old out.new result spelled.now (IsRealAnswer spelled.now) }
{
    match open_stores(&system, folder, stores_of(spelled)) {
        Ok(Opened::Hub(hub)) => run_of_hub(system, spelled, hub, out),
        Ok(Opened::Copy(copy)) => run_of_copy(system, spelled, copy, out),
        Ok(Opened::Both { hub, copy }) => run_of_both(system, spelled, hub, copy, out),
        Err(NoMemory) => {
            drop(system);
            print(out, NO_MEMORY, lines::NO_MEMORY)
        }
    }
}

// Runs what words spell, unless memory runs out before a keeper is there.
fn run_parsed<O: Sink>(rt: HostRuntime, alloc: Global, spelled: &Spelled, out: &mut O) -> u8
    ensures { RunsBetween O.written O.faults out.old out.new result spelled.now (IsRealAnswer spelled.now) }
{
    match system_of(rt, alloc, spelled) {
        Ok(system) => match store_of(spelled) {
            None => run_in_memory(system, spelled, out),
            Some(folder) => run_stored(system, spelled, folder.as_str(), out),
        },
        Err(NoMemory) => print(out, NO_MEMORY, lines::NO_MEMORY),
    }
}

// Runs any words.
fn run_words<O: Sink>(rt: HostRuntime, alloc: Global, words: &[String], out: &mut O) -> u8
    ensures { RunsBetween O.written O.faults out.old out.new result (split (map string_bytes words.now)) (IsRealAnswer (split (map string_bytes words.now))) }
{
    match read_words(alloc, words) {
        Ok(spelled) => {
            tell_before(rt, alloc, &spelled);
            let status = run_parsed(rt, alloc, &spelled, out);
            drop(spelled);
            status
        }
        Err(NoMemory) => print(out, NO_MEMORY, lines::NO_MEMORY),
    }
}

/// Runs the words over the folder, the clock, the store and the sockets of the system, as `run_hub` does, and gives the
/// status of the process.
///
/// Where the words name a store's folder, a command of the hub finds it in the file `hub.db` there, one of the consumer
/// its copy in `copy.db`, and `cascade` and `follow` both. Folder and files are made where they aren't there, and one
/// that can't be opened fails. Else hub and copy are new ones in memory, and nothing of them outlasts the run.
///
/// The consumer's hub is the one at the address that the words name; where they name none, each exchange fails.
pub fn run_real<O: Sink>(rt: HostRuntime, alloc: Global, words: &[String], out: &mut O) -> u8
    // What is written is the text of an answer to the words, and nothing else, and the status is that of the answer.
    ensures done { result ≢ output_failed_status → Tells (IsRealAnswer (split (map string_bytes words.now))) result (O.written out.old) (O.written out.new) }
    // Where the sink failed, a front of such a text is written.
    ensures part { result ≡ output_failed_status → TellsPart (IsRealAnswer (split (map string_bytes words.now))) (O.written out.old) (O.written out.new) }
    ensures words_are_bad { result ≡ bad_words_status → IsErr (split (map string_bytes words.now)) }
    ensures bad_words { IsErr (split (map string_bytes words.now)) → result ≢ output_failed_status → result ≢ no_memory_status → result ≡ bad_words_status }
    ensures sink_failed { result ≡ output_failed_status → Rose (O.faults out.old) (O.faults out.new) }
    ensures sink_stood { result ≢ output_failed_status → O.faults out.new ≡ O.faults out.old }
{
    // What is said here follows from the one clause of `run_words`.
    run_words(rt, alloc, words, out)
}
