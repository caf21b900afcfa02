//! What standard error is told of a run, for people: that a folder or an address isn't there. It decides nothing, and a
//! line that can't be written changes nothing.

use crate::progress::ShownLink;
use exchange_link::{Link, SocketLink};
use hub_cli::{Command, Spelled, names_serve, peer_of, read_words, root_of, split_serve};
use hub_words::{Feed, statuses};
use roster_base::{NoMemory, Refusal};
use std::alloc::Global;
use std::path::Path;

// Says that the folder of a set isn't there, behind what it is for.
fn tell_folder(
    rt: HostRuntime,
    alloc: Global,
    root: &str,
    purpose: &str,
    folder: &str,
) -> Result<(), NoMemory> {
    let path = Path::new(root).join(alloc, folder)?.into_string();
    if !Path::new(path.as_str()).exists(&rt) {
        let _ = eprintln!(rt; "{purpose}: no folder {path}");
    }
    Ok(())
}

fn tell_folder_of(rt: HostRuntime, alloc: Global, root: &str, feed: &Feed) -> Result<(), NoMemory> {
    let name = feed.name.as_str();
    let purpose = format!(in alloc; "feed {name}")?;
    tell_folder(rt, alloc, root, purpose.as_str(), feed.dir.as_str())
}

// Says which feeds have no folder. Where memory runs out, the run will say so.
fn tell_folders(rt: HostRuntime, alloc: Global, root: &str, feeds: &[Feed]) {
    for feed in feeds {
        let _ = tell_folder_of(rt, alloc, root, feed);
    }
}

/// Says before a run what it will miss: the folder of a feed, or the address of the peer.
pub(crate) fn tell_before(rt: HostRuntime, alloc: Global, spelled: &Spelled) {
    let Ok(parsed) = spelled else {
        return;
    };
    match &parsed.command {
        Command::Publish { feeds } => {
            tell_folders(rt, alloc, root_of(spelled), feeds.as_slice());
        }
        Command::ExportSince { dir, .. } => {
            let _ = tell_folder(rt, alloc, root_of(spelled), "since", dir.as_str());
        }
        Command::Sync { .. }
        | Command::SyncDelta { .. }
        | Command::Follow { .. }
        | Command::Send { .. }
            if peer_of(spelled).is_none() => {
            let _ = eprintln!(rt; "no --peer HOST:PORT is named, so each try fails");
        }
        _ => {}
    }
}

/// The place of the first word that no command continues, where the words are none.
pub fn bad_place(alloc: Global, words: &[String]) -> Option<usize> {
    if names_serve(alloc, words) {
        return match split_serve(alloc, words) {
            Err(Refusal::Fault(place)) => Some(place),
            _ => None,
        };
    }
    match read_words(alloc, words) {
        Ok(Err(place)) => Some(place),
        _ => None,
    }
}

/// Says behind a run why its peer wasn't reached.
pub(crate) fn tell_unreached(
    rt: HostRuntime,
    status: u8,
    link: &ShownLink<SocketLink<HostRuntime>>,
) {
    if status != statuses::INTERRUPTED {
        return;
    }
    let why = match link.link().unreached() {
        Some(why) => why.text(),
        None => "the replies are to other requests",
    };
    let address = link.link().address();
    let missed = link.missed();
    let _ = eprintln!(rt; "{address}: {why}, {missed} tries one after another");
}
