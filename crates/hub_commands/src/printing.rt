//! What is written of an answer.

ghost use Rattle.std.specs.Prelude.{◌≡◌, ◌≢◌, ◌++◌};
ghost use Rattle.std.specs.Io.KnownBytes.{Appends};
ghost use Rattle.outside_ports.specs.Written.{AppendsPart};
ghost use Rattle.roster_base.specs.Faults.{Rose};
ghost use Rattle.hub_commands.specs.Answers.{IsPrinted};
ghost use Rattle.hub_commands.specs.ExportAnswers.{file_answer};
ghost use Rattle.hub_commands.specs.Runs.{WritesBetween};
ghost use Rattle.hub_words.specs.Statuses.{output_failed_status};

use crate::answer::{Answer, End};
use crate::lines::NO_MEMORY;
use hub_words::statuses::{self, OUTPUT_FAILED};
use outside_ports::Sink;
use roster_base::{Bytes, NoMemory};
use std::alloc::Global;

/// Writes bytes, and gives their status, or 1 where the sink failed and a prefix of the bytes was written.
pub fn print_bytes<O: Sink>(out: &mut O, status: u8, bytes: &[u8]) -> u8
    requires { status ≢ output_failed_status }
    ensures done { result ≢ output_failed_status → (result ≡ status) × Appends (O.written out.old) (O.written out.new) bytes.now × (O.faults out.new ≡ O.faults out.old) }
    ensures fault { result ≡ output_failed_status → Rose (O.faults out.old) (O.faults out.new) × AppendsPart (O.written out.old) (O.written out.new) bytes.now }
{
    match out.write_all(bytes) {
        Ok(()) => status,
        Err(_) => OUTPUT_FAILED,
    }
}

/// Writes a text as `print_bytes` writes bytes.
pub fn print<O: Sink>(out: &mut O, status: u8, text: &str) -> u8
    requires { status ≢ output_failed_status }
    ensures done { result ≢ output_failed_status → (result ≡ status) × Appends (O.written out.old) (O.written out.new) text.now × (O.faults out.new ≡ O.faults out.old) }
    ensures fault { result ≡ output_failed_status → Rose (O.faults out.old) (O.faults out.new) × AppendsPart (O.written out.old) (O.written out.new) text.now }
{
    print_bytes(out, status, text.as_bytes())
}

// Writes two texts, one behind the other, and gives the status likewise.
fn print_both<O: Sink>(out: &mut O, status: u8, first: &str, second: &str) -> u8
    requires { status ≢ output_failed_status }
    ensures done { result ≢ output_failed_status → (result ≡ status) × Appends (O.written out.old) (O.written out.new) (first.now ++ second.now) × (O.faults out.new ≡ O.faults out.old) }
    ensures fault { result ≡ output_failed_status → Rose (O.faults out.old) (O.faults out.new) × AppendsPart (O.written out.old) (O.written out.new) (first.now ++ second.now) }
{
    if first.is_empty() {
        return print(out, status, second);
    }
    if second.is_empty() {
        return print(out, status, first);
    }
    if print(out, statuses::DONE, first) == OUTPUT_FAILED {
        return OUTPUT_FAILED;
    }
    print(out, status, second)
}

// Writes what a command answers, or what it did and the line for want of memory.
fn print_answer<O: Sink>(alloc: Global, answer: &Answer, out: &mut O) -> u8
    ensures { WritesBetween O.written O.faults out.old out.new result (IsPrinted answer.now) }
{
    let done = answer.done.as_str();
    match answer.end.lines(alloc) {
        Ok(lines) => print_both(out, answer.end.status(), done, lines.as_str()),
        Err(NoMemory) => print_both(out, statuses::NO_MEMORY, done, NO_MEMORY),
    }
}

/// Writes what a command answers, or what it did and the line for want of memory, and gives the status.
pub fn tell<O: Sink>(alloc: Global, answer: Answer, out: &mut O) -> u8
    ensures { WritesBetween O.written O.faults out.old out.new result (IsPrinted answer) }
{
    let status = print_answer(alloc, &answer, out);
    drop(answer);
    status
}

/// Writes the bytes of a file, or what a command answers that has none, and gives the status.
pub fn tell_file<O: Sink>(alloc: Global, file: Result<Bytes, End>, out: &mut O) -> u8
    ensures { WritesBetween O.written O.faults out.old out.new result (IsPrinted (file_answer file)) }
{
    match file {
        Ok(bytes) => {
            let status = print_bytes(out, statuses::DONE, bytes.as_slice());
            drop(bytes);
            status
        }
        Err(end) => tell(alloc, Answer::nothing_done(alloc, end), out),
    }
}
