//! The command `show`.

ghost use Rattle.std.specs.Prelude.{◌≡◌, [], IfOk, map, string_bytes};
ghost use Rattle.csv_sets.specs.Files as files;
ghost use Rattle.hub_commands.specs.Outside.{Faults, outside_between};
ghost use Rattle.hub_commands.specs.Reads.{IsAnswerTo};
ghost use Rattle.hub_commands.specs.Runs.{IsShowAnswer};
ghost use Rattle.hub_commands.specs.ShowAnswers.{answer_of_rows, dated_row, shown_text};
ghost use Rattle.hub_commands.specs.declared.answer.End.TheVariants.{Done, Refused};

use crate::answer::{Answer, End};
use csv_sets::file::LARGEST;
use csv_sets::{SetFault, SetFile, read_file};
use outside_ports::{Clock, FileRead, Folder, IoError};
use rest_provider::moment_of;
use roster_base::{Bytes, NoMemory, Refusal, Text, sorted};
use roster_texts::Moment;
use roster_types::row::Row;
use roster_types::set_row::SetRow;
use roster_values::{Kind, Mode};
use row_json::collection_text;
use std::alloc::Global;

// The row, dated by the clock where it brings no date.
fn dated(row: SetRow, at: Moment) -> Row
    ensures { result ≡ dated_row at row }
{
    if row.dated {
        row.row
    } else {
        row.row.dated(at)
    }
}

// The rows, each dated by the clock where it brings no date.
fn dated_rows(alloc: Global, at: Moment, rows: Vec<SetRow>) -> Result<Vec<Row>, NoMemory>
    ensures { IfOk result (λ v. v.items ≡ map (dated_row at) rows.items) }
{
    Ok(rows.into_iter().map(|row| dated(row, at)).collect(alloc)?)
}

// The output over the rows of a file.
#[tactic(auto, unfolding(crate::specs::ShowAnswers::shown_text))]
fn output(alloc: Global, kind: Kind, at: Moment, rows: Vec<SetRow>) -> Result<String, NoMemory>
    ensures { IfOk result (λ t. string_bytes t ≡ shown_text kind at rows.items) }
{
    let rows = sorted(alloc, dated_rows(alloc, at, rows)?)?;
    let mut text = collection_text(alloc, kind, rows.as_slice(), None)?;
    text.push_str("\n")?;
    Ok(text)
}

// The answer that prints a text.
fn done(text: String) -> Answer
    ensures { result ≡ record { done = string_bytes text; end = Done } }
{
    Answer {
        done: Text::from_string(text),
        end: End::Done,
    }
}

// The answer that prints nothing, since the file has a fault.
fn refused(alloc: Global, fault: SetFault) -> Answer
    ensures { result ≡ record { done = []; end = Refused fault } }
{
    Answer::nothing_done(alloc, End::Refused(fault))
}

// The answer over a file's bytes. They are let go before the output is made.
fn answer_over(alloc: Global, kind: Kind, at: Moment, bytes: Bytes) -> Result<Answer, NoMemory>
    ensures { IfOk result (λ a. a ≡ answer_of_rows kind at (files.file_of kind Mode.Bulk bytes)) }
{
    let read = read_file(alloc, kind, Mode::Bulk, bytes.as_slice());
    drop(bytes);
    match read {
        Ok(rows) => Ok(done(output(alloc, kind, at, rows)?)),
        Err(Refusal::Fault(fault)) => Ok(refused(alloc, fault)),
        Err(Refusal::NoMemory) => Err(NoMemory),
    }
}

// The answer over what a read of the file gave.
fn answer_to(alloc: Global, kind: Kind, at: Moment, read: FileRead) -> Result<Answer, NoMemory>
    ensures { IfOk result (λ a. IsAnswerTo kind at read a) }
{
    let file = SetFile::RowsOf(kind);
    match read {
        FileRead::Absent => Ok(refused(alloc, SetFault::MissingFile { file })),
        FileRead::TooLong => Ok(refused(alloc, SetFault::TooLarge { file })),
        FileRead::Bytes(bytes) => answer_over(alloc, kind, at, bytes),
    }
}

/// Prints the rows of a kind's file in the root folder, read in Bulk mode, in order of id.
pub fn show<F: Folder, K: Clock>(
    alloc: Global,
    kind: Kind,
    folder: &mut F,
    clock: &K,
) -> Result<Answer, NoMemory>
    ensures { IfOk result (λ a. (keeper : Faults) → IsShowAnswer kind (outside_between F.files F.faults folder.old folder.new (K.moment clock.now) keeper) a) }
{
    let at = moment_of(clock);
    match folder.read(alloc, "", kind.file_name(), LARGEST as u64) {
        Ok(read) => answer_to(alloc, kind, at, read),
        Err(IoError::Failed) => Ok(Answer::nothing_done(alloc, End::FolderFailed)),
        Err(IoError::NoMemory) => Err(NoMemory),
    }
}
