//! The command `export`.

ghost use Rattle.std.specs.Prelude.{◌≡◌, IfOk};
ghost use Rattle.exchange_link.specs.Between.{copy_between};
ghost use Rattle.hub_commands.specs.ExportAnswers.{ExportEnds, HasTooMany, IsChangesExport, IsExportAnswer};
ghost use Rattle.hub_commands.specs.ExportAnswers.{IsManifestAnswer, IsSinceAnswer, earlier_feed, end_of_export};
ghost use Rattle.hub_commands.specs.ExportAnswers.{file_answer, rows_in};
ghost use Rattle.hub_commands.specs.Outside.{Faults, faults_between, outside_between};
ghost use Rattle.hub_commands.specs.Steps.{ReadsSet};

use crate::answer::End;
use crate::publish::set_of;
use bulk_export::{ExportError, export_changes, export_file, export_manifest};
use hub_words::Feed;
use keeper_memory::CopyKeeper;
use outside_ports::{Clock, Folder};
use rest_provider::moment_of;
use roster_base::{Bytes, NoMemory, Text, TryCopy};
use roster_texts::{Moment, Name};
use roster_types::set::RosterSet;
use roster_values::{Kind, Mode};
use std::alloc::Global;

// The end that an error brings.
fn end_of_export(kind: Kind, error: ExportError) -> End
    ensures { result ≡ end_of_export kind error }
{
    match error {
        ExportError::NothingHeld => End::NothingHeld,
        ExportError::KeeperFault => End::CopyFailed,
        ExportError::TooLarge { bytes } => End::ExportTooLarge { kind, bytes },
        ExportError::NoMemory => End::NoMemory,
    }
}

/// The manifest of a set with a file of each kind, all in one mode.
pub fn manifest(alloc: Global, mode: Mode) -> Result<Bytes, End>
    ensures { IsManifestAnswer mode (file_answer result) }
{
    match export_manifest(alloc, mode) {
        Ok(text) => Ok(Bytes::from_vec(text)),
        Err(NoMemory) => Err(End::NoMemory),
    }
}

/// The file of the rows of a kind that a copy holds.
pub fn export<C: CopyKeeper>(alloc: Global, kind: Kind, copy: &mut C) -> Result<Bytes, End>
    ensures { IsExportAnswer kind (copy_between C.stands_for C.fault_count copy.old copy.new) (file_answer result) }
{
    match export_file(alloc, copy, kind) {
        Ok(text) => Ok(Bytes::from_vec(text)),
        Err(error) => Err(end_of_export(kind, error)),
    }
}

// The feed as which an earlier set is read.
fn earlier_feed(alloc: Global, dir: &Text) -> Result<Feed, NoMemory>
    ensures { IfOk result (λ feed. feed ≡ earlier_feed dir.now) }
{
    let name = Name::read(alloc, "export")?.unwrap();
    let dir = dir.copy(alloc)?;
    Ok(Feed { name, dir })
}

// The set in a folder, or the end that it brings.
fn earlier_set<F: Folder>(alloc: Global, dir: &Text, folder: &mut F) -> Result<RosterSet, End>
    ensures { ReadsSet (F.files folder.old) (faults_between F.faults folder.old folder.new) (earlier_feed dir.now) result }
{
    let feed = earlier_feed(alloc, dir)?;
    set_of(alloc, &feed, folder)
}

// The file of what changed of a kind since a set.
fn changes_file<C: CopyKeeper>(
    alloc: Global,
    kind: Kind,
    earlier: &RosterSet,
    at: Moment,
    copy: &mut C,
) -> Result<Bytes, End>
    ensures { ExportEnds (IsChangesExport at (rows_in kind earlier.now.parts) kind) (HasTooMany at (rows_in kind earlier.now.parts) kind) kind (copy_between C.stands_for C.fault_count copy.old copy.new) (file_answer result) }
{
    match export_changes(alloc, copy, earlier, kind, at) {
        Ok(text) => Ok(Bytes::from_vec(text)),
        Err(error) => Err(end_of_export(kind, error)),
    }
}

/// The file of what changed of a kind since the set in a folder, which is read before the copy's keeper is called.
pub fn export_since<F: Folder, C: CopyKeeper, K: Clock>(
    alloc: Global,
    kind: Kind,
    dir: &Text,
    folder: &mut F,
    copy: &mut C,
    clock: &K,
) -> Result<Bytes, End>
    ensures { (keeper : Faults) → IsSinceAnswer kind dir.now (outside_between F.files F.faults folder.old folder.new (K.moment clock.now) keeper)
        (copy_between C.stands_for C.fault_count copy.old copy.new) (file_answer result) }
{
    match earlier_set(alloc, dir, folder) {
        Ok(earlier) => {
            let file = changes_file(alloc, kind, &earlier, moment_of(clock), copy);
            drop(earlier);
            file
        }
        Err(end) => Err(end),
    }
}
