//! The command `enter`.

ghost use Rattle.std.specs.Prelude.{◌≡◌, ◌≤◌, IfOk, length};
ghost use Rattle.exchange_link.specs.Between.{copy_between};
ghost use Rattle.keeper_memory.specs.copy.Copies.{IsOutWrite, max_body};
ghost use Rattle.outside_ports.specs.Files.{IsWithin};
ghost use Rattle.row_json.specs.Puts.{put_of};
ghost use Rattle.hub_commands.specs.Outside.{Faults, outside_between};
ghost use Rattle.hub_commands.specs.OutboxAnswers.{GivesWrite, IsEnterAnswer, IsEntered, ReadsWrite, delete_write};
ghost use Rattle.hub_commands.specs.OutboxAnswers.{or_bad_row, put_in, put_write};
ghost use Rattle.hub_words.specs.declared.words.EnterTask.TheVariants.{Put};

use crate::answer::{Answer, End};
use consumer_commands::{enter_write, entered_line};
use exchange_link::EnterError;
use hub_words::{EnterTask, GradebookObject};
use keeper_memory::CopyKeeper;
use outside_ports::{Clock, FileRead, Folder, IoError};
use rest_provider::moment_of;
use roster_base::{Bytes, NoMemory, Refusal, Text, TryCopy};
use roster_texts::Moment;
use row_json::read_put;
use std::alloc::Global;
use version_core::mark::Write;

// The most bytes of a body.
const LARGEST_BODY: u64 = 131_072;

fn put_write(alloc: Global, object: &GradebookObject, body: Bytes) -> Result<Write, NoMemory>
    requires { length body ≤ max_body }
    ensures value { IfOk result (λ w. w ≡ put_write object.now body) }
    ensures can { IfOk result IsOutWrite }
{
    let kind = object.kind();
    let id = object.id().copy(alloc)?;
    Ok(Write {
        delete: false,
        kind,
        id,
        body,
    })
}

fn delete_write(alloc: Global, object: &GradebookObject) -> Result<Write, NoMemory>
    ensures value { IfOk result (λ w. w ≡ delete_write object.now) }
    ensures can { IfOk result IsOutWrite }
{
    let kind = object.kind();
    let id = object.id().copy(alloc)?;
    Ok(Write {
        delete: true,
        kind,
        id,
        body: Bytes::from_vec(Vec::new(alloc)),
    })
}

// The write of a text, or the end that its file brings.
fn put_of_text(
    alloc: Global,
    object: &GradebookObject,
    at: Moment,
    file: &Text,
    body: Bytes,
) -> Result<Write, End>
    requires { length body ≤ max_body }
    ensures gives { GivesWrite (or_bad_row file.now object.now body (put_of object.now.kind object.now.id at body)) result }
    ensures can { IfOk result IsOutWrite }
{
    match read_put(alloc, object.kind(), object.id(), at, body.as_slice()) {
        Ok(row) => {
            drop(row);
            Ok(put_write(alloc, object, body)?)
        }
        Err(Refusal::Fault(_)) => Err(End::BadRow(file.copy(alloc)?)),
        Err(Refusal::NoMemory) => Err(End::NoMemory),
    }
}

// The write of a body, or the end that its file brings.
fn put_of_body(
    alloc: Global,
    object: &GradebookObject,
    at: Moment,
    file: &Text,
    body: Bytes,
) -> Result<Write, End>
    requires { length body ≤ max_body }
    ensures gives { GivesWrite (put_in object.now at file.now (FileRead.Bytes body)) result }
    ensures can { IfOk result IsOutWrite }
{
    match str::from_utf8(body.as_slice()) {
        Ok(_) => put_of_text(alloc, object, at, file, body),
        Err(_) => Err(End::FileNotUtf8(file.copy(alloc)?)),
    }
}

// The write by what was read of the file of its body, or the end that the file brings.
fn put_in(
    alloc: Global,
    object: &GradebookObject,
    at: Moment,
    file: &Text,
    read: FileRead,
) -> Result<Write, End>
    requires { IsWithin max_body read }
    ensures gives { GivesWrite (put_in object.now at file.now read) result }
    ensures can { IfOk result IsOutWrite }
{
    match read {
        FileRead::Absent => Err(End::MissingFile(file.copy(alloc)?)),
        FileRead::TooLong => Err(End::FileTooLarge(file.copy(alloc)?)),
        FileRead::Bytes(body) => put_of_body(alloc, object, at, file, body),
    }
}

// The write of the body that a file in the root folder has.
fn put_of_file<F: Folder, K: Clock>(
    alloc: Global,
    object: &GradebookObject,
    file: &Text,
    folder: &mut F,
    clock: &K,
) -> Result<Write, End>
    ensures reads { (keeper : Faults) → ReadsWrite
        (outside_between F.files F.faults folder.old folder.new (K.moment clock.now) keeper) (Put object.now file.now) result }
    ensures can { IfOk result IsOutWrite }
    ensures files { F.files folder.new ≡ F.files folder.old }
{
    match folder.read(alloc, "", file.as_str(), LARGEST_BODY) {
        Ok(read) => put_in(alloc, object, moment_of(clock), file, read),
        Err(IoError::Failed) => Err(End::FolderFailed),
        Err(IoError::NoMemory) => Err(End::NoMemory),
    }
}

/// The write of a task, or the end that comes before it.
pub fn write_of<F: Folder, K: Clock>(
    alloc: Global,
    task: &EnterTask,
    folder: &mut F,
    clock: &K,
) -> Result<Write, End>
    ensures reads { (keeper : Faults) → ReadsWrite (outside_between F.files F.faults folder.old folder.new (K.moment clock.now) keeper) task.now result }
    ensures can { IfOk result IsOutWrite }
    ensures files { F.files folder.new ≡ F.files folder.old }
{
    match task {
        EnterTask::Put { object, file } => put_of_file(alloc, object, file, folder, clock),
        EnterTask::Delete { object } => Ok(delete_write(alloc, object)?),
    }
}

// The answer that tells the number of a write that was entered, or why it wasn't.
fn entered_answer(alloc: Global, entered: Result<u64, EnterError>) -> Answer
    ensures { IsEntered entered result }
{
    match entered {
        Ok(number) => match entered_line(alloc, number) {
            Ok(line) => Answer {
                done: Text::from_string(line),
                end: End::Done,
            },
            Err(NoMemory) => Answer::nothing_done(alloc, End::NoMemory),
        },
        Err(error) => Answer::nothing_done(alloc, End::NotEntered(error)),
    }
}

/// Puts a write into the outbox: a deletion, or what a file in the root folder says of a row. The file is read before
/// the copy's keeper is called.
pub fn enter<F: Folder, C: CopyKeeper, K: Clock>(
    alloc: Global,
    task: &EnterTask,
    folder: &mut F,
    copy: &mut C,
    clock: &K,
) -> Answer
    ensures { (keeper : Faults) → IsEnterAnswer task.now (outside_between F.files F.faults folder.old folder.new (K.moment clock.now) keeper)
        (copy_between C.stands_for C.fault_count copy.old copy.new) result }
{
    match write_of(alloc, task, folder, clock) {
        Ok(write) => entered_answer(alloc, enter_write(alloc, write, copy)),
        Err(end) => Answer::nothing_done(alloc, end),
    }
}
