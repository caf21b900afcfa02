//! The command `rehearse`.

ghost use Rattle.std.specs.Prelude.{◌≡◌};
ghost use Rattle.hub_commands.specs.Outside.{faults_between};
ghost use Rattle.hub_commands.specs.Runs.{WritesBetween};
ghost use Rattle.script_runs.specs.Rehearsals as rehearsals;

use crate::run::{ScriptEnd, run_script};
use hub_commands::ask::{bytes_of, print_end};
use hub_commands::printing::tell;
use hub_commands::{Answer, End};
use outside_ports::{Folder, Sink};
use roster_base::{Bytes, Refusal, Text};
use std::alloc::Global;
use world_scripts::{Script, read_script};

// The end of the command by how its script ended; none where the sink failed, since then nothing can be told.
fn end_in(end: ScriptEnd) -> Option<End>
    ensures { result ≡ rehearsals.end_in end }
{
    match end {
        ScriptEnd::Done => Some(End::Done),
        ScriptEnd::Folder => Some(End::FolderFailed),
        ScriptEnd::NoMemory => Some(End::NoMemory),
        ScriptEnd::Sink => None,
    }
}

// Runs a script, and tells how it ended.
fn rehearse_script<F: Folder, O: Sink>(
    alloc: Global,
    script: Script,
    folder: &mut F,
    out: &mut O,
) -> u8
    ensures { WritesBetween O.written O.faults out.old out.new result
        (λ a. rehearsals.RunEnds (F.files folder.old) (faults_between F.faults folder.old folder.new) script.lines a.done a.end) }
{
    let end = run_script(alloc, folder, &script, out);
    drop(script);
    print_end(alloc, end_in(end), out)
}

// Runs the script that some bytes spell, where they spell one.
fn rehearse_bytes<F: Folder, O: Sink>(
    alloc: Global,
    bytes: Bytes,
    folder: &mut F,
    out: &mut O,
) -> u8
    ensures { WritesBetween O.written O.faults out.old out.new result
        (λ a. rehearsals.RehearsesBytes (F.files folder.old) (faults_between F.faults folder.old folder.new) bytes a.done a.end) }
{
    let script = read_script(alloc, bytes.as_slice());
    drop(bytes);
    match script {
        Ok(script) => rehearse_script(alloc, script, folder, out),
        Err(Refusal::Fault(line)) => {
            tell(
                alloc,
                Answer::nothing_done(alloc, End::ScriptRefused { line }),
                out,
            )
        }
        Err(Refusal::NoMemory) => tell(alloc, Answer::nothing_done(alloc, End::NoMemory), out),
    }
}

/// Runs the script of a file in the root folder, in a world of its own, and writes what its lines print as they are
/// run. Gives the status of the process, one of `hub_words::statuses`: `DONE` where all lines were run, `OUTPUT_FAILED`
/// where the sink failed, `FOLDER_FAILED` where the folder failed, `REFUSED` where the file is refused, and `NO_MEMORY`
/// where memory ran out.
pub fn rehearse<F: Folder, O: Sink>(alloc: Global, file: &Text, folder: &mut F, out: &mut O) -> u8
    ensures { WritesBetween O.written O.faults out.old out.new result
        (λ a. rehearsals.IsRehearseAnswer (F.files folder.old) (faults_between F.faults folder.old folder.new) file.now a.done a.end) }
{
    match bytes_of(alloc, file, folder) {
        Ok(bytes) => rehearse_bytes(alloc, bytes, folder, out),
        Err(end) => tell(alloc, Answer::nothing_done(alloc, end), out),
    }
}
