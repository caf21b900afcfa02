//! What others are to do to the hub, by the files that a line names.

ghost use Rattle.std.specs.Prelude.{◌≡◌, IfOk, string_bytes};
ghost use Rattle.hub_commands.specs.Answers.{end_text};
ghost use Rattle.hub_commands.specs.Outside.{faults_between};
ghost use Rattle.script_runs.specs.Acting.{ReadsAct, Tells};
ghost use Rattle.sync_world.specs.declared.acts.HubAct.TheVariants.{Tell};
ghost use Rattle.world_scripts.specs.declared.script.HubLine.TheVariants as line;

use hub_commands::End;
use hub_commands::ask::bytes_of;
use hub_commands::grant::grants_of;
use hub_commands::publish::set_of;
use hub_words::Feed;
use outside_ports::Folder;
use roster_base::{NoMemory, Text, TryCopy};
use std::alloc::Global;
use sync_world::HubAct;
use world_scripts::HubLine;

/// Why a line ends its script.
#[derive(Clone, Copy, Debug, PartialEq, Eq)]
pub enum Stop {
    /// The folder failed, and its count of faults rose.
    Folder,
    /// Memory ran out.
    NoMemory,
}

impl From<NoMemory> for Stop {
    ghost use Rattle.std.specs.Prelude.{◌≡◌};
    ghost use Rattle.script_runs.specs.declared.sources.Stop.TheVariants.{NoMemory};

    ghost from_gives = { λ _ e. e ≡ NoMemory };

    fn from(_error: NoMemory) -> Stop {
        Stop::NoMemory
    }
}

/// The lines of an end.
pub fn told_lines(alloc: Global, end: End) -> Result<String, NoMemory>
    ensures { IfOk result (λ s. string_bytes s ≡ end_text end) }
{
    let lines = end.lines(alloc);
    drop(end);
    lines
}

/// The lines of an end, unless it ends the script.
pub fn end_lines(alloc: Global, end: End) -> Result<String, Stop>
    ensures { Tells (λ text s. string_bytes s ≡ text) end result }
{
    match end {
        End::FolderFailed => Err(Stop::Folder),
        End::NoMemory => Err(Stop::NoMemory),
        end => Ok(told_lines(alloc, end)?),
    }
}

// What is told of a file that is refused, or how it ends the script.
fn refused(alloc: Global, end: End) -> Result<HubAct, Stop>
    ensures { Tells (λ text a. a ≡ Tell text) end result }
{
    let lines = Text::from_string(end_lines(alloc, end)?);
    Ok(HubAct::Tell { lines })
}

// Reads the set of a feed.
fn set<F: Folder>(alloc: Global, feed: &Feed, folder: &mut F) -> Result<HubAct, Stop>
    ensures reads { ReadsAct (F.files folder.old) (faults_between F.faults folder.old folder.new) (line.Set feed.now) result }
    ensures files { F.files folder.new ≡ F.files folder.old }
{
    let name = feed.name.copy(alloc)?;
    match set_of(alloc, feed, folder) {
        Ok(set) => Ok(HubAct::Set { name, set }),
        Err(end) => refused(alloc, end),
    }
}

// Reads a file of grants.
fn grant<F: Folder>(alloc: Global, file: &Text, folder: &mut F) -> Result<HubAct, Stop>
    ensures reads { ReadsAct (F.files folder.old) (faults_between F.faults folder.old folder.new) (line.Grant file.now) result }
    ensures files { F.files folder.new ≡ F.files folder.old }
{
    match grants_of(alloc, file, folder) {
        Ok(list) => Ok(HubAct::Grant { list }),
        Err(end) => refused(alloc, end),
    }
}

// Reads a file of requests.
fn ask<F: Folder>(alloc: Global, file: &Text, folder: &mut F) -> Result<HubAct, Stop>
    ensures reads { ReadsAct (F.files folder.old) (faults_between F.faults folder.old folder.new) (line.Ask file.now) result }
    ensures files { F.files folder.new ≡ F.files folder.old }
{
    match bytes_of(alloc, file, folder) {
        Ok(bytes) => Ok(HubAct::Ask { bytes }),
        Err(end) => refused(alloc, end),
    }
}

/// Reads the files that a line names.
pub fn act_of<F: Folder>(alloc: Global, line: &HubLine, folder: &mut F) -> Result<HubAct, Stop>
    ensures reads { ReadsAct (F.files folder.old) (faults_between F.faults folder.old folder.new) line.now result }
    ensures files { F.files folder.new ≡ F.files folder.old }
{
    match line {
        HubLine::Set { feed } => set(alloc, feed, folder),
        HubLine::Grant { file } => grant(alloc, file, folder),
        HubLine::Ask { file } => ask(alloc, file, folder),
        HubLine::Restart => Ok(HubAct::Restart),
    }
}
