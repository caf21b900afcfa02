//! Runs of whole scripts.

ghost use Rattle.std.specs.Prelude.{◌≡◌, ◌≢◌};
ghost use Rattle.outside_ports.specs.Written.{Writes};
ghost use Rattle.roster_base.specs.Faults.{HasCause, Rose};
ghost use Rattle.script_runs.specs.Plays.{Sound};
ghost use Rattle.script_runs.specs.Runs as runs;
ghost use Rattle.script_runs.specs.declared.run.ScriptEnd.TheVariants as end;

use crate::play::Play;
use crate::sources::Stop;
use hub_words::words::USUAL_KEEP;
use outside_ports::{Failed, Folder, Sink};
use std::alloc::Global;
use world_scripts::{Line, Script};

/// How the run of a script ended.
#[derive(Clone, Copy, Debug, PartialEq, Eq)]
pub enum ScriptEnd {
    /// The last line was run.
    Done,
    /// The sink failed, and its count of faults rose.
    Sink,
    /// The folder failed, and its count of faults rose.
    Folder,
    /// Memory ran out, which says nothing of the script.
    NoMemory,
}

// How many versions the hub keeps beside the newest: as many as the first line says, or else the usual number.
fn keep_in(lines: &[Line]) -> u32
    ensures { result ≡ runs.keep_in lines.now }
{
    match lines.first() {
        Some(Line::Keep { keep }) => *keep,
        _ => USUAL_KEEP,
    }
}

// How the run of a script ends where a line ends it.
fn end_of(stop: Stop) -> ScriptEnd
    ensures { result ≡ runs.end_of stop }
{
    match stop {
        Stop::Folder => ScriptEnd::Folder,
        Stop::NoMemory => ScriptEnd::NoMemory,
    }
}

// Writes what a line prints.
fn print<O: Sink>(out: &mut O, text: &str) -> Result<(), Failed>
    ensures bytes { Writes (O.written out.old) (O.written out.new) text.now result }
    ensures cause { HasCause (O.faults out.old) (O.faults out.new) result }
{
    if text.is_empty() {
        return Ok(());
    }
    out.write_all(text.as_bytes())
}

// Goes through the lines of a script, and writes what each of them prints.
fn run_lines<F: Folder, O: Sink>(
    alloc: Global,
    play: &mut Play,
    folder: &mut F,
    lines: &[Line],
    out: &mut O,
) -> ScriptEnd
    requires opens { runs.Opens (runs.keep_in lines.now) play.old }
    requires sound { Sound play.old }
    ensures written { runs.Writes (F.files folder.old) lines.now (O.written out.old) (O.written out.new) result }
    ensures folder_failed { result ≡ end.Folder → Rose (F.faults folder.old) (F.faults folder.new) }
    ensures folder_stood { result ≡ end.Done → F.faults folder.new ≡ F.faults folder.old }
    ensures sink_failed { result ≡ end.Sink → Rose (O.faults out.old) (O.faults out.new) }
    ensures sink_stood { result ≢ end.Sink → O.faults out.new ≡ O.faults out.old }
    ensures files { F.files folder.new ≡ F.files folder.old }
{
    for line in lines {
        let text = match play.run_line(alloc, line, folder) {
            Ok(text) => text,
            Err(stop) => return end_of(stop),
        };
        if print(out, text.as_str()).is_err() {
            return ScriptEnd::Sink;
        }
    }
    ScriptEnd::Done
}

/// Runs a script in a world of its own, which begins with an empty hub and an empty copy, and writes what its lines
/// print.
pub fn run_script<F: Folder, O: Sink>(
    alloc: Global,
    folder: &mut F,
    script: &Script,
    out: &mut O,
) -> ScriptEnd
    ensures written { runs.Writes (F.files folder.old) script.now.lines (O.written out.old) (O.written out.new) result }
    ensures folder_failed { result ≡ end.Folder → Rose (F.faults folder.old) (F.faults folder.new) }
    ensures folder_stood { result ≡ end.Done → F.faults folder.new ≡ F.faults folder.old }
    ensures sink_failed { result ≡ end.Sink → Rose (O.faults out.old) (O.faults out.new) }
    ensures sink_stood { result ≢ end.Sink → O.faults out.new ≡ O.faults out.old }
    ensures files { F.files folder.new ≡ F.files folder.old }
{
    let lines = script.lines.as_slice();
    match Play::open(alloc, keep_in(lines)) {
        Ok(mut play) => {
            let end = run_lines(alloc, &mut play, folder, lines, out);
            drop(play);
            end
        }
        Err(error) => {
            drop(error);
            ScriptEnd::NoMemory
        }
    }
}
