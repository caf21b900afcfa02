//! A server over the real sockets, folders, clock and store.

ghost use Rattle.std.specs.Prelude.{◌≡◌, ◌≢◌, ℕ, Err, IfOk, IsErr, List, Ok, length, map, string_bytes};
ghost use Rattle.std.specs.Io.KnownBytes.{Appends};
ghost use Rattle.hub_words.specs.Statuses.{bad_words_status, no_memory_status, output_failed_status};
ghost use Rattle.hub_words.specs.Words.{split_serve};
ghost use Rattle.hub_words.specs.declared.words.ServeWords.{ServeWords as ServeWordsValue};
ghost use Rattle.outside_ports.specs.Written.{AppendsPart};
ghost use Rattle.real_run.specs.RealServes.{FitWords, ServesBetween, serve_text};
ghost use Rattle.roster_base.specs.Faults.{Rose};

use hub_cli::server::shared::FeedEnd;
use hub_cli::server::{Doors, Notices, Ports};
use hub_cli::{Options, ServeEnd, ServeWords, feed_lines, lines, print, serve_hub, split_serve};
use hub_words::Feed;
use hub_words::statuses::{BAD_WORDS, NO_MEMORY};
use hub_words::words::USUAL_KEEP;
use keeper_memory::{HubKeeper, MemHub};
use keeper_sqlite::{ClosedStore, ItemHub};
use outside_ports::{DirFolder, OpenGate, Sink, SystemClock, TcpAcceptor};
use roster_base::{NoMemory, Refusal, Text};
use roster_texts::Name;
use std::alloc::Global;
use std::sync::Wait;
use std::thread::Threads;
use store_files::{HUB_FILE, OpenStore, open_store};

// Tells on standard error what came of each feed.
#[derive(Drop)]
struct ErrorLines {
    rt: HostRuntime,
    alloc: Global,
}

impl Notices for ErrorLines {
    // A line that can't be written changes nothing.
    fn fed(&self, feed: &Name, end: FeedEnd) {
        let _ = match feed_lines(self.alloc, feed, end) {
            Ok(lines) => eprint!(self.rt; "{lines}"),
            Err(NoMemory) => eprint!(self.rt; "{}", lines::NO_MEMORY),
        };
    }
}

// The doors of a server over the system's sockets and folders.
type RealDoors = Doors<TcpAcceptor<HostRuntime>, DirFolder<HostRuntime>>;

// Listens at an address, and tells so, or why it can't be.
fn listen(rt: HostRuntime, address: &str) -> TcpAcceptor<HostRuntime> {
    let acceptor = TcpAcceptor::at(rt, address);
    let _ = match acceptor.bind_error() {
        None => eprintln!(rt; "listening on {address}"),
        Some(error) => eprintln!(rt; "can't listen on {address}: {error}"),
    };
    acceptor
}

// An acceptor at an address, beside the one that is there for the same address. The acceptors are those of the first
// addresses.
fn acceptor_at(
    rt: HostRuntime,
    address: &str,
    addresses: &[Text],
    acceptors: &[TcpAcceptor<HostRuntime>],
) -> TcpAcceptor<HostRuntime> {
    for (other, acceptor) in addresses.iter().zip(acceptors) {
        if other.as_str() == address {
            return acceptor.beside();
        }
    }
    listen(rt, address)
}

// An acceptor for each address.
fn acceptors_of(
    rt: HostRuntime,
    alloc: Global,
    addresses: &[Text],
) -> Result<Vec<TcpAcceptor<HostRuntime>>, NoMemory>
    ensures { IfOk result (λ acceptors. length acceptors.items ≡ length addresses.now) }
{
    let mut acceptors = Vec::new(alloc);
    for address in addresses {
        let acceptor = acceptor_at(rt, address.as_str(), addresses, acceptors.as_slice());
        acceptors.push(acceptor)?;
    }
    Ok(acceptors)
}

// The root folder for each feed.
fn folders_of(
    rt: HostRuntime,
    alloc: Global,
    root: &str,
    feeds: &[Feed],
) -> Result<Vec<DirFolder<HostRuntime>>, NoMemory>
    ensures { IfOk result (λ folders. length folders.items ≡ length feeds.now) }
{
    let mut folders = Vec::new(alloc);
    for _ in feeds {
        folders.push(DirFolder::new(rt, String::from_str(alloc, root)?))?;
    }
    Ok(folders)
}

// The root folder: the one that the options name, and else the working folder, whose name is empty.
fn root_in(options: &Options) -> &str {
    match &options.folder {
        Some(folder) => folder.as_str(),
        None => "",
    }
}

// The doors of a server with these words.
fn doors_of(rt: HostRuntime, alloc: Global, serve: &ServeWords) -> Result<RealDoors, NoMemory>
    ensures acceptors { IfOk result (λ doors. length doors.acceptors.items ≡ length serve.now.task.addresses) }
    ensures folders { IfOk result (λ doors. length doors.folders.items ≡ length serve.now.task.feeds) }
{
    let folders = folders_of(
        rt,
        alloc,
        root_in(&serve.options),
        serve.task.feeds.as_slice(),
    )?;
    let acceptors = acceptors_of(rt, alloc, serve.task.addresses.as_slice())?;
    Ok(Doors { acceptors, folders })
}

// Serves what words say over a keeper, and gives the status and the keeper.
fn serve_over<R: Threads + Wait + Sync, H: HubKeeper + Send>(
    threads: &R,
    rt: HostRuntime,
    alloc: Global,
    words: &[String],
    doors: RealDoors,
    keeper: H,
) -> (u8, H)
    requires { FitWords doors.acceptors.items doors.folders.items (map string_bytes words.now) }
    ensures words_are_bad { result.0 ≡ bad_words_status → IsErr (split_serve (map string_bytes words.now)) }
    ensures other { result.0 ≢ output_failed_status }
{
    let clock = SystemClock::new(rt);
    let notices = ErrorLines { rt, alloc };
    let ports = Ports {
        rt: threads,
        alloc,
        clock: &clock,
        gate: &OpenGate,
        notices: &notices,
    };
    let ServeEnd { status, hub, doors } = serve_hub(&ports, words, doors, keeper);
    drop(doors);
    (status, hub)
}

// Serves what words say over the hub in an open store, and closes the store.
fn serve_items<R: Threads + Wait + Sync, S: OpenStore + Send>(
    threads: &R,
    rt: HostRuntime,
    alloc: Global,
    words: &[String],
    doors: RealDoors,
    keeper: ItemHub<S>,
) -> u8
    requires { FitWords doors.acceptors.items doors.folders.items (map string_bytes words.now) }
    ensures words_are_bad { result ≡ bad_words_status → IsErr (split_serve (map string_bytes words.now)) }
    ensures other { result ≢ output_failed_status }
{
    let (status, keeper) = serve_over(threads, rt, alloc, words, doors, keeper);
    keeper.release().close();
    status
}

// Serves what words say over a hub in memory, which ends with the run.
fn serve_in_memory<R: Threads + Wait + Sync>(
    threads: &R,
    rt: HostRuntime,
    alloc: Global,
    words: &[String],
    doors: RealDoors,
    keep: u32,
) -> u8
    requires { FitWords doors.acceptors.items doors.folders.items (map string_bytes words.now) }
    ensures words_are_bad { result ≡ bad_words_status → IsErr (split_serve (map string_bytes words.now)) }
    ensures other { result ≢ output_failed_status }
{
    let (status, keeper) = serve_over(threads, rt, alloc, words, doors, MemHub::new(alloc, keep));
    drop(keeper);
    status
}

// Serves what words say over a store that couldn't be opened.
fn serve_closed<R: Threads + Wait + Sync>(
    threads: &R,
    rt: HostRuntime,
    alloc: Global,
    words: &[String],
    doors: RealDoors,
) -> u8
    requires { FitWords doors.acceptors.items doors.folders.items (map string_bytes words.now) }
    ensures words_are_bad { result ≡ bad_words_status → IsErr (split_serve (map string_bytes words.now)) }
    ensures other { result ≢ output_failed_status }
{
    let (status, keeper) = serve_over(threads, rt, alloc, words, doors, ClosedStore::new());
    drop(keeper);
    status
}

// Serves what words say over the store that the options name, or over a hub in memory where they name none.
fn serve_doors<R: Threads + Wait + Sync>(
    threads: &R,
    rt: HostRuntime,
    alloc: Global,
    words: &[String],
    doors: RealDoors,
    options: &Options,
) -> u8
    requires { FitWords doors.acceptors.items doors.folders.items (map string_bytes words.now) }
    ensures words_are_bad { result ≡ bad_words_status → IsErr (split_serve (map string_bytes words.now)) }
    ensures other { result ≢ output_failed_status }
{
    let keep = options.keep.unwrap_or(USUAL_KEEP);
    let Some(folder) = &options.store else {
        return serve_in_memory(threads, rt, alloc, words, doors, keep);
    };
    match open_store(rt, alloc, folder.as_str(), HUB_FILE) {
        Ok(Some(items)) => {
            let keeper = ItemHub::adopt(items, keep);
            serve_items(threads, rt, alloc, words, doors, keeper)
        }
        Ok(None) => serve_closed(threads, rt, alloc, words, doors),
        Err(NoMemory) => {
            drop(doors);
            NO_MEMORY
        }
    }
}

// Serves what words say, which are these.
fn serve_words<R: Threads + Wait + Sync>(
    threads: &R,
    rt: HostRuntime,
    alloc: Global,
    words: &[String],
    serve: &ServeWords,
) -> u8
    requires { split_serve (map string_bytes words.now) ≡ Ok serve.now }
    ensures good { result ≢ bad_words_status }
    ensures other { result ≢ output_failed_status }
{
    match doors_of(rt, alloc, serve) {
        Ok(doors) => serve_doors(threads, rt, alloc, words, doors, &serve.options),
        Err(NoMemory) => NO_MEMORY,
    }
}

// Writes the place of words that are bad.
fn print_bad_word<O: Sink>(alloc: Global, place: usize, out: &mut O) -> u8
    ensures { (w : List (List ℕ)) → split_serve w ≡ Err place → ServesBetween O.written O.faults out.old out.new result (split_serve w) }
{
    match lines::bad_word_line(alloc, place) {
        Ok(line) => print(out, BAD_WORDS, line.as_str()),
        Err(NoMemory) => print(out, NO_MEMORY, lines::NO_MEMORY),
    }
}

// Writes that memory ran out, where that is the status.
fn print_status<O: Sink>(status: u8, out: &mut O) -> u8
    requires good { status ≢ bad_words_status }
    requires other { status ≢ output_failed_status }
    ensures { (w : ServeWordsValue) → ServesBetween O.written O.faults out.old out.new result (Ok w) }
{
    if status == NO_MEMORY {
        print(out, NO_MEMORY, lines::NO_MEMORY)
    } else {
        status
    }
}

// Serves what any words say.
fn serve_any<R: Threads + Wait + Sync, O: Sink>(
    threads: &R,
    rt: HostRuntime,
    alloc: Global,
    words: &[String],
    out: &mut O,
) -> u8
    ensures { ServesBetween O.written O.faults out.old out.new result (split_serve (map string_bytes words.now)) }
{
    match split_serve(alloc, words) {
        Ok(serve) => {
            let status = serve_words(threads, rt, alloc, words, &serve);
            drop(serve);
            print_status(status, out)
        }
        Err(Refusal::Fault(place)) => print_bad_word(alloc, place, out),
        Err(Refusal::NoMemory) => print(out, NO_MEMORY, lines::NO_MEMORY),
    }
}

/// Serves what the words say over the sockets, folders, clock and store of the system, as `serve_hub` does, and gives
/// the status of the process.
///
/// An address that the words name several times has one listener, and as many connections to it are served at once.
/// Where the words name a store's folder, the hub is the one in the file `hub.db` there, as for `run_real`; else it is
/// a new one in memory.
///
/// Standard error is told of each listener, or why there is none, and of each feed.
pub fn serve_real<R: Threads + Wait + Sync, O: Sink>(
    threads: &R,
    rt: HostRuntime,
    alloc: Global,
    words: &[String],
    out: &mut O,
) -> u8
    // What is written is the place of bad words, or that memory ran out, and nothing else.
    ensures done { result ≢ output_failed_status → Appends (O.written out.old) (O.written out.new) (serve_text (split_serve (map string_bytes words.now)) result) }
    // Where the sink failed, a front of such a text is written.
    ensures part { result ≡ output_failed_status → (status : ℕ) × AppendsPart (O.written out.old) (O.written out.new) (serve_text (split_serve (map string_bytes words.now)) status) }
    ensures words_are_bad { result ≡ bad_words_status → IsErr (split_serve (map string_bytes words.now)) }
    ensures bad_words { IsErr (split_serve (map string_bytes words.now)) → result ≢ output_failed_status → result ≢ no_memory_status → result ≡ bad_words_status }
    ensures sink_failed { result ≡ output_failed_status → Rose (O.faults out.old) (O.faults out.new) }
    ensures sink_stood { result ≢ output_failed_status → O.faults out.new ≡ O.faults out.old }
{
    // What is said here follows from the one clause of `serve_any`.
    serve_any(threads, rt, alloc, words, out)
}
