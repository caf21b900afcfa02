//! The command `grant`.

ghost use Rattle.std.specs.Prelude.{◌≡◌, ℕ, List, false};
ghost use Rattle.hub_core.specs.Standing.{KeeperFits, StandsFrom};
ghost use Rattle.keeper_memory.specs.Kept.{IsKept};
ghost use Rattle.hub_commands.specs.GrantAnswers.{GivesGrants, GrantsFile, IsGrantAnswer, ReadsGrants};
ghost use Rattle.hub_commands.specs.Outside.{faults_between, outside_between};
ghost use Rattle.hub_commands.specs.Runs.{LeadsBetween};

use crate::answer::{Answer, End};
use crate::publish::{end_of_error, told};
use csv_sets::file::LARGEST;
use grant_files::read_grants;
use grant_scopes::GrantList;
use hub_core::{Hub, Published};
use keeper_memory::HubKeeper;
use outside_ports::{Clock, FileRead, Folder, IoError};
use rest_provider::moment_of;
use roster_base::{NoMemory, Refusal, Text, TryCopy};
use std::alloc::Global;

// The grants that a file's bytes ask for, or the end that they bring.
fn grants_over(alloc: Global, bytes: &[u8]) -> Result<GrantList, End>
    ensures { (name : List ℕ) → GivesGrants name (FileRead.Bytes bytes.now) result }
{
    match read_grants(alloc, bytes) {
        Ok(list) => Ok(list),
        Err(Refusal::Fault(fault)) => Err(End::GrantsRefused(fault)),
        Err(Refusal::NoMemory) => Err(End::NoMemory),
    }
}

// A file that isn't there.
fn missing(alloc: Global, file: &Text) -> Result<GrantList, End>
    ensures { GivesGrants file.now FileRead.Absent result }
{
    match file.copy(alloc) {
        Ok(name) => Err(End::MissingFile(name)),
        Err(NoMemory) => Err(End::NoMemory),
    }
}

// A file that has too many bytes.
fn too_large(alloc: Global, file: &Text) -> Result<GrantList, End>
    ensures { GivesGrants file.now FileRead.TooLong result }
{
    match file.copy(alloc) {
        Ok(name) => Err(End::FileTooLarge(name)),
        Err(NoMemory) => Err(End::NoMemory),
    }
}

// The grants that a file asks for by what was read of it, or the end that it brings.
fn grants_in(alloc: Global, file: &Text, read: FileRead) -> Result<GrantList, End>
    ensures { GivesGrants file.now read result }
{
    match read {
        FileRead::Absent => missing(alloc, file),
        FileRead::TooLong => too_large(alloc, file),
        FileRead::Bytes(bytes) => grants_over(alloc, bytes.as_slice()),
    }
}

/// The grants of a file in the root folder, or the end that it brings.
pub fn grants_of<F: Folder>(alloc: Global, file: &Text, folder: &mut F) -> Result<GrantList, End>
    ensures grants { ReadsGrants (F.files folder.old) (faults_between F.faults folder.old folder.new) file.now result }
    ensures files { F.files folder.new ≡ F.files folder.old }
{
    match folder.read(alloc, "", file.as_str(), LARGEST as u64) {
        Ok(read) => grants_in(alloc, file, read),
        Err(IoError::Failed) => Err(End::FolderFailed),
        Err(IoError::NoMemory) => Err(End::NoMemory),
    }
}

// Sets the grants of a file.
fn set_grants<F: Folder, H: HubKeeper, K: Clock>(
    alloc: Global,
    hub: &mut Hub,
    keeper: &mut H,
    file: &Text,
    folder: &mut F,
    clock: &K,
) -> Result<Published, End>
    requires { KeeperFits (H.stands_for keeper.old) hub.old }
    ensures fits { KeeperFits (H.stands_for keeper.new) hub.new }
    ensures told { StandsFrom (H.stands_for keeper.old) (H.stands_for keeper.new) hub.old hub.new
        (GrantsFile
        (outside_between F.files F.faults folder.old folder.new (K.moment clock.now) (faults_between H.fault_count keeper.old keeper.new)) file.now result) }
{
    let list = grants_of(alloc, file, folder)?;
    let answer = hub.set_grants(alloc, keeper, &list, moment_of(clock));
    drop(list);
    match answer {
        Ok(published) => Ok(published),
        Err(error) => Err(end_of_error(error)),
    }
}

// Sets the grants of a file in a hub that was opened.
fn grant_into<F: Folder, H: HubKeeper, K: Clock>(
    alloc: Global,
    mut hub: Hub,
    file: &Text,
    folder: &mut F,
    keeper: &mut H,
    clock: &K,
) -> Answer
    requires fits { KeeperFits (H.stands_for keeper.old) hub }
    requires settled { hub.commit_open ≡ false }
    requires kept { IsKept hub.kept }
    ensures { LeadsBetween H.stands_for keeper.old keeper.new (IsGrantAnswer
        (outside_between F.files F.faults folder.old folder.new (K.moment clock.now) (faults_between H.fault_count keeper.old keeper.new)) file.now result.done result.end) }
{
    let answer = set_grants(alloc, &mut hub, keeper, file, folder, clock);
    drop(hub);
    told(alloc, "grants", answer)
}

/// Gives each caller what a file in the root folder asks for, in the hub that a keeper keeps, and takes all other
/// grants away.
pub fn grant<F: Folder, H: HubKeeper, K: Clock>(
    alloc: Global,
    file: &Text,
    folder: &mut F,
    keeper: &mut H,
    clock: &K,
) -> Answer
    ensures { LeadsBetween H.stands_for keeper.old keeper.new (IsGrantAnswer
        (outside_between F.files F.faults folder.old folder.new (K.moment clock.now) (faults_between H.fault_count keeper.old keeper.new)) file.now result.done result.end) }
{
    match Hub::open(alloc, keeper) {
        Ok(hub) => grant_into(alloc, hub, file, folder, keeper, clock),
        Err(error) => Answer::nothing_done(alloc, end_of_error(error)),
    }
}
