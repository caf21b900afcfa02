//! The command `ask`.

ghost use Rattle.std.specs.Prelude.{◌≡◌, [], None, Some, false};
ghost use Rattle.hub_core.specs.Standing.{KeeperFits};
ghost use Rattle.keeper_memory.specs.Kept.{IsKept};
ghost use Rattle.hub_commands.specs.AskAnswers.{AsksBytes, IsAskAnswer, IsRefusedFile, ReadsBytes, ask_end, closed_end};
ghost use Rattle.hub_commands.specs.Answers.{IsPrinted};
ghost use Rattle.hub_commands.specs.Outside.{faults_between, outside_between};
ghost use Rattle.hub_commands.specs.Runs.{LeadsBetween, WritesBetween};
ghost use Rattle.hub_commands.specs.declared.answer.End.{End as EndValue};
ghost use Rattle.hub_words.specs.Statuses.{output_failed_status};

use crate::answer::{Answer, End};
use crate::printing::tell;
use crate::publish::end_of_error;
use csv_sets::file::LARGEST;
use hub_core::Hub;
use hub_words::statuses;
use keeper_memory::HubKeeper;
use outside_ports::{Clock, FileRead, Folder, HeldSource, IoError, Sink};
use rest_paths::PathRouter;
use rest_provider::{Desk, RequestFault, StreamEnd, serve_stream};
use roster_base::{Bytes, NoMemory, Text, TryCopy};
use std::alloc::Global;

// The end that a file brings which isn't there, or has too many bytes.
fn refused_file(alloc: Global, file: &Text, is_there: bool) -> End
    ensures { IsRefusedFile is_there file.now result }
{
    match file.copy(alloc) {
        Ok(name) if is_there => End::FileTooLarge(name),
        Ok(name) => End::MissingFile(name),
        Err(NoMemory) => End::NoMemory,
    }
}

/// The bytes of a file in the root folder, or the end that it brings.
pub fn bytes_of<F: Folder>(alloc: Global, file: &Text, folder: &mut F) -> Result<Bytes, End>
    ensures bytes { ReadsBytes (F.files folder.old) (faults_between F.faults folder.old folder.new) file.now result }
    ensures files { F.files folder.new ≡ F.files folder.old }
{
    match folder.read(alloc, "", file.as_str(), LARGEST as u64) {
        Ok(FileRead::Bytes(bytes)) => Ok(bytes),
        Ok(FileRead::Absent) => Err(refused_file(alloc, file, false)),
        Ok(FileRead::TooLong) => Err(refused_file(alloc, file, true)),
        Err(IoError::Failed) => Err(End::FolderFailed),
        Err(IoError::NoMemory) => Err(End::NoMemory),
    }
}

/// The end of `ask` by how the stream of all its bytes ended, and how many of them weren't taken; none where the sink
/// failed.
pub fn ask_end(end: StreamEnd, left: u64) -> Option<End>
    ensures { result ≡ ask_end end left }
{
    match end {
        StreamEnd::Closed { requests, kept } => Some(closed_end(requests, kept == 0 && left == 0)),
        StreamEnd::Wire { request, fault } => Some(End::RequestRefused {
            number: request,
            fault: RequestFault::Unreadable(fault),
        }),
        StreamEnd::NoMemory => Some(End::NoMemory),
        StreamEnd::Sink => None,
    }
}

// The end once so many requests are answered; `is_whole`: no bytes are left behind them.
fn closed_end(requests: u64, is_whole: bool) -> End
    ensures { result ≡ closed_end requests is_whole }
{
    if is_whole {
        End::Done
    } else {
        End::RequestRefused {
            number: requests.saturating_add(1),
            fault: RequestFault::AfterClose,
        }
    }
}

/// Writes the end of a stream, where the sink didn't fail.
pub fn print_end<O: Sink>(alloc: Global, end: Option<End>, out: &mut O) -> u8
    ensures done { (ended : EndValue) → end ≡ Some ended → WritesBetween O.written O.faults out.old out.new result (IsPrinted (record { done = []; end = ended })) }
    ensures none { end ≡ None → (result ≡ output_failed_status) × (out.new ≡ out.old) }
{
    match end {
        Some(end) => tell(alloc, Answer::nothing_done(alloc, end), out),
        None => statuses::OUTPUT_FAILED,
    }
}

// Answers the requests of some bytes, in a hub that was opened.
fn ask_bytes<H: HubKeeper, K: Clock, O: Sink>(
    desk: &Desk<'_, K>,
    mut hub: Hub,
    bytes: Bytes,
    keeper: &mut H,
    out: &mut O,
) -> u8
    requires fits { KeeperFits (H.stands_for keeper.old) hub }
    requires settled { hub.commit_open ≡ false }
    requires kept { IsKept hub.kept }
    ensures { WritesBetween O.written O.faults out.old out.new result
        (λ a. LeadsBetween H.stands_for keeper.old keeper.new (AsksBytes (K.moment desk.now.clock.now) (faults_between H.fault_count keeper.old keeper.new) bytes a.done a.end)) }
{
    let mut source = HeldSource::new(desk.alloc, bytes.into_vec());
    let end = serve_stream(desk, &mut hub, keeper, &mut source, out);
    let left = source.left();
    drop(source);
    drop(hub);
    print_end(desk.alloc, ask_end(end, left), out)
}

// Answers the requests of a file's bytes, in a hub that was opened.
fn ask_opened<H: HubKeeper, K: Clock, O: Sink>(
    alloc: Global,
    hub: Hub,
    bytes: Bytes,
    keeper: &mut H,
    clock: &K,
    out: &mut O,
) -> u8
    requires fits { KeeperFits (H.stands_for keeper.old) hub }
    requires settled { hub.commit_open ≡ false }
    requires kept { IsKept hub.kept }
    ensures { WritesBetween O.written O.faults out.old out.new result
        (λ a. LeadsBetween H.stands_for keeper.old keeper.new (AsksBytes (K.moment clock.now) (faults_between H.fault_count keeper.old keeper.new) bytes a.done a.end)) }
{
    match PathRouter::new(alloc) {
        Ok(router) => {
            let desk = Desk {
                alloc,
                router: &router,
                clock,
            };
            ask_bytes(&desk, hub, bytes, keeper, out)
        }
        Err(NoMemory) => {
            drop(bytes);
            drop(hub);
            tell(alloc, Answer::nothing_done(alloc, End::NoMemory), out)
        }
    }
}

/// Answers the requests of a file in the root folder by the hub that a keeper keeps, and writes each reply as it is
/// made.
pub fn ask<F: Folder, H: HubKeeper, K: Clock, O: Sink>(
    alloc: Global,
    file: &Text,
    folder: &mut F,
    keeper: &mut H,
    clock: &K,
    out: &mut O,
) -> u8
    ensures { WritesBetween O.written O.faults out.old out.new result
        (λ a. LeadsBetween H.stands_for keeper.old keeper.new (IsAskAnswer
        (outside_between F.files F.faults folder.old folder.new (K.moment clock.now) (faults_between H.fault_count keeper.old keeper.new)) file.now a.done a.end)) }
{
    let hub = match Hub::open(alloc, keeper) {
        Ok(hub) => hub,
        Err(error) => return tell(alloc, Answer::nothing_done(alloc, end_of_error(error)), out),
    };
    match bytes_of(alloc, file, folder) {
        Ok(bytes) => ask_opened(alloc, hub, bytes, keeper, clock, out),
        Err(end) => {
            drop(hub);
            tell(alloc, Answer::nothing_done(alloc, end), out)
        }
    }
}
