//! The top call of a server.

ghost use Rattle.std.specs.Prelude.{◌≡◌, ◌≢◌, IsErr, Ok, length, map, string_bytes};
ghost use Rattle.hub_server.specs.Serving.{AllMean, AllServed, ComesBy, SomeRefused, SomeRose};
ghost use Rattle.keeper_memory.specs.Kept.{IsKept, KeptState};
ghost use Rattle.roster_base.specs.Faults.{Rose};
ghost use Rattle.hub_cli.specs.Serves as serves;
ghost use Rattle.hub_words.specs.Statuses.{acceptor_failed_status, bad_words_status, done_status, folder_failed_status, hub_failed_status, no_memory_status, output_failed_status, refused_status};
ghost use Rattle.hub_words.specs.Words.{split_serve};
ghost use Rattle.hub_words.specs.declared.words.ServeWords.{ServeWords as ServeWordsValue};

use hub_server::shared::FeedEnd;
use hub_server::{Doors, Ending, Notices, Ports, Served, serve_task};
use hub_words::{ServeWords, split_serve, statuses};
use keeper_memory::HubKeeper;
use outside_ports::{Acceptor, Clock, Folder, Gate};
use roster_base::{NoMemory, Refusal};
use roster_texts::Name;
use script_runs::commands::lines::NO_MEMORY;
use script_runs::commands::publish::{end_of, end_of_error, told_line};
use std::alloc::Global;
use std::sync::Wait;
use std::thread::Threads;

/// The status, and what was handed in, in its order. Where memory ran out both lists may be empty.
pub struct ServeEnd<H, A: Drop, F: Drop> {
    pub status: u8,
    pub hub: H,
    pub doors: Doors<A, F>,
}

// The status that an ending brings.
fn status_of(ending: Ending) -> u8
    ensures value { result ≡ serves.status_of ending }
    ensures other { result ≢ output_failed_status }
{
    match ending {
        Ending::Done => statuses::DONE,
        Ending::FolderFailed => statuses::FOLDER_FAILED,
        Ending::Refused => statuses::REFUSED,
        Ending::KeeperFailed => statuses::HUB_FAILED,
        Ending::NoMemory => statuses::NO_MEMORY,
        Ending::AcceptorFailed => statuses::ACCEPTOR_FAILED,
    }
}

/// The lines that tell what came of a feed: its version, or behind its name on each line why it was refused.
pub fn feed_lines(alloc: Global, feed: &Name, end: FeedEnd) -> Result<String, NoMemory> {
    let feed = feed.as_str();
    let end = match end {
        FeedEnd::Published(published) => return told_line(alloc, feed, published),
        FeedEnd::Set(Refusal::Fault(fault)) => end_of(fault),
        FeedEnd::Hub(error) => end_of_error(error),
        FeedEnd::Set(Refusal::NoMemory) => return Ok(String::from_str(alloc, NO_MEMORY)?),
    };
    let lines = end.lines(alloc)?;
    let mut told = String::new(alloc);
    for line in lines.as_str().lines() {
        told.push_str(format!(in alloc; "{feed}: {line}\n")?.as_str())?;
    }
    Ok(told)
}

/// Serves the hub that a keeper keeps, as the words of `serve` say: for each acceptor the stated number of connections,
/// one after another, and beside them the set of each feed, published once. The status is the first of a job that isn't
/// 0, feeds before acceptors:
///
/// - 0: each connection was served, and each set was published;
/// - 2: the words are no `serve` command;
/// - 3: the folder of a feed failed;
/// - 4: the set of a feed was refused;
/// - 5: the hub's keeper failed;
/// - 17: memory ran out, which says nothing of the input;
/// - 18: an acceptor failed.
pub fn serve_hub<
    R: Threads + Wait + Sync,
    A: Acceptor + Drop + Send,
    F: Folder + Drop + Send,
    H: HubKeeper + Send,
    K: Clock + Sync,
    G: Gate + Sync,
    T: Notices + Sync,
>(ports: &Ports<'_, R, K, G, T>, words: &[String], doors: Doors<A, F>, hub: H) -> ServeEnd<H, A, F>
where
    A::Input: Send,
    A::Output: Send,
    // There are as many acceptors and folders as the words name.
    requires { (w : ServeWordsValue) → split_serve (map string_bytes words.now) ≡ Ok w → (length doors.acceptors.items ≡ length w.task.addresses) × (length doors.folders.items ≡ length w.task.feeds) }
    ensures words_are_bad { result.status ≡ bad_words_status → IsErr (split_serve (map string_bytes words.now)) }
    ensures bad_words { IsErr (split_serve (map string_bytes words.now)) → result.status ≢ no_memory_status → result.status ≡ bad_words_status }
    ensures done { result.status ≡ done_status → (w : ServeWordsValue) × (split_serve (map string_bytes words.now) ≡ Ok w)
        × AllServed A.given_count w.task.connections doors.acceptors.items result.doors.acceptors.items × AllMean F.files w.task.feeds doors.folders.items }
    ensures folder_failed { result.status ≡ folder_failed_status → SomeRose F.faults doors.folders.items result.doors.folders.items }
    ensures refused { result.status ≡ refused_status → (w : ServeWordsValue) × (split_serve (map string_bytes words.now) ≡ Ok w)
        × (opening : KeptState) × IsKept opening × SomeRefused F.files opening w.task.feeds doors.folders.items }
    ensures keeper_failed { result.status ≡ hub_failed_status → Rose (H.fault_count hub) (H.fault_count result.hub) }
    ensures acceptor_failed { result.status ≡ acceptor_failed_status → SomeRose A.fault_count doors.acceptors.items result.doors.acceptors.items }
    // 1 is the status of an output that couldn't be written, and there is none.
    ensures other { result.status ≢ output_failed_status }
    // Whatever the status is, the keeper stands for a state at entry with a history applied.
    ensures kept { (now : KeptState) → H.stands_for result.hub now → (stood : KeptState) × H.stands_for hub stood × ComesBy stood now }
{
    let task = match split_serve(ports.alloc, words) {
        Ok(ServeWords { options, task }) => {
            drop(options);
            task
        }
        Err(error) => {
            return ServeEnd {
                status: match error {
                    Refusal::Fault(_) => statuses::BAD_WORDS,
                    Refusal::NoMemory => statuses::NO_MEMORY,
                },
                hub,
                doors,
            };
        }
    };
    let Served {
        ending,
        keeper,
        doors,
    } = serve_task(ports, task, doors, hub);
    ServeEnd {
        status: status_of(ending),
        hub: keeper,
        doors,
    }
}
