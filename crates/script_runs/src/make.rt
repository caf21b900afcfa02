//! The command `make`.

ghost use Rattle.std.specs.Prelude.{◌≡◌, ◌++◌, ◌≤◌, ℕ, IfOk, List, OnOk, Some, string_bytes};
ghost use Rattle.hub_words.specs.Tasks.{largest_count};
ghost use Rattle.script_runs.specs.Makings as makings;
ghost use Rattle.script_runs.specs.Plays.{HubStep, Sound};

use crate::play::{Play, Synced, exchanges_line, with_line};
use exchange_link::SyncAnswer;
use hub_commands::{Answer, End};
use hub_words::words::USUAL_KEEP;
use hub_words::{Feed, MakeTask, SyncTask};
use made_districts::files::{DIR, GRANTS_FILE, made_folder};
use outside_ports::MemFolder;
use roster_base::{NoMemory, Text};
use roster_texts::{Name, Token};
use roster_values::Kind;
use std::alloc::Global;
use world_scripts::HubLine;

// The token of the caller that copies the district.
const TOKEN: &str = "make";

// How many rows a page of the copy has.
const PAGE_ROWS: u32 = 1_000;

// How often each page is asked for: no exchange of a fresh link is lost.
const TRIES: u32 = 1;

// The line that publishes the district's set.
fn set_line(alloc: Global) -> Result<HubLine, NoMemory>
    ensures { IfOk result (λ l. l ≡ makings.set_line) }
{
    let Some(name) = Name::read(alloc, DIR)? else {
        return Err(NoMemory);
    };
    let dir = Text::new(alloc, DIR)?;
    Ok(HubLine::Set {
        feed: Feed { name, dir },
    })
}

// The line that grants what the district's file of grants asks for.
fn grant_line(alloc: Global) -> Result<HubLine, NoMemory>
    ensures { IfOk result (λ l. l ≡ makings.grant_line) }
{
    let file = Text::new(alloc, GRANTS_FILE)?;
    Ok(HubLine::Grant { file })
}

// The synchronisation that copies the district.
fn task(alloc: Global) -> Result<SyncTask, NoMemory>
    ensures { IfOk result (λ t. t ≡ makings.made_task) }
{
    match Token::read(alloc, TOKEN)? {
        Some(token) => Ok(SyncTask::new(token, PAGE_ROWS, TRIES)),
        None => Err(NoMemory),
    }
}

// Does what a line says to the hub, and lets go of what is printed of it.
fn carry_out(
    alloc: Global,
    play: &mut Play,
    line: HubLine,
    folder: &mut MemFolder,
) -> Result<(), NoMemory>
    requires { Sound play.old }
    ensures sound { OnOk result (Sound play.new) }
    ensures step { OnOk result ((text : List ℕ) × HubStep (Some folder.old.files) line play.old play.new text) }
    ensures files { folder.new.files ≡ folder.old.files }
{
    let done = play.hub(alloc, &line, folder);
    drop(line);
    play.look();
    match done {
        Ok(text) => {
            drop(text);
            Ok(())
        }
        Err(_) => Err(NoMemory),
    }
}

// The line of a kind and how many rows of it are held.
fn count_line(alloc: Global, kind: Kind, count: usize) -> Result<String, NoMemory>
    ensures { IfOk result (λ t. string_bytes t ≡ makings.counted_line kind count) }
{
    let mut line = String::from_str(alloc, kind.plural())?;
    line.push_str(format!(in alloc; " {count}\n")?.as_str())?;
    Ok(line)
}

// A text, and then how many rows of a kind are held.
fn with_count(alloc: Global, text: String, play: &mut Play, kind: Kind) -> Result<String, NoMemory>
    ensures text { IfOk result (λ t. string_bytes t ≡ string_bytes text ++ makings.count_line play.old.copy.copy kind) }
    ensures link { play.new.link ≡ play.old.link }
    ensures copy { play.new.copy.copy ≡ play.old.copy.copy }
{
    let held = play.count(alloc, kind)?;
    let line = count_line(alloc, kind, held)?;
    with_line(text, line)
}

// The line that tells how many schools were made.
fn schools_line(alloc: Global, count: u16) -> Result<String, NoMemory>
    ensures { IfOk result (λ t. string_bytes t ≡ makings.schools_line count) }
{
    Ok(format!(in alloc; "schools {count}\n")?)
}

// How many schools were made, how many rows of each kind are held, and how many exchanges were made.
fn summary(alloc: Global, count: u16, play: &mut Play) -> Result<String, NoMemory>
    ensures { IfOk result (λ t. string_bytes t ≡ makings.summary_text count play.old) }
{
    let mut text = schools_line(alloc, count)?;
    for kind in &Kind::ALL {
        text = with_count(alloc, text, play, *kind)?;
    }
    with_line(text, exchanges_line(alloc, play.link.asked())?)
}

// Publishes the district, and grants what its file of grants asks for.
fn publish(alloc: Global, count: u16, play: &mut Play) -> Result<(), NoMemory>
    requires count { count ≤ largest_count }
    requires sound { Sound play.old }
    ensures publishes { OnOk result (makings.Publishes count play.old play.new) }
    ensures sound { OnOk result (Sound play.new) }
{
    let mut folder = made_folder(alloc, count)?;
    carry_out(alloc, play, set_line(alloc)?, &mut folder)?;
    carry_out(alloc, play, grant_line(alloc)?, &mut folder)
}

// Copies the district, and sums up what came of it.
fn copy(alloc: Global, count: u16, play: &mut Play) -> Result<Answer, NoMemory>
    requires { Sound play.old }
    ensures { IfOk result (makings.Copies count play.old) }
{
    let Synced { answer, text } = play.synchronise(alloc, &task(alloc)?)?;
    drop(text);
    let done = Text::from_string(summary(alloc, count, play)?);
    match answer {
        // No commit is listed to fail.
        SyncAnswer::KeeperFault => Err(NoMemory),
        answer => Ok(Answer {
            done,
            end: End::Synced(answer),
        }),
    }
}

// Makes a district in a world that holds nothing.
fn make_in(alloc: Global, count: u16, play: &mut Play) -> Result<Answer, NoMemory>
    requires count { count ≤ largest_count }
    requires sound { Sound play.old }
    ensures { IfOk result (makings.MakesIn count play.old) }
{
    publish(alloc, count, play)?;
    copy(alloc, count, play)
}

// Makes a district in a world of its own, or finds no memory for it.
fn made(alloc: Global, count: u16) -> Result<Answer, NoMemory>
    requires { count ≤ largest_count }
    ensures { IfOk result (λ a. makings.IsMakeAnswer count a.done a.end) }
{
    match Play::open(alloc, USUAL_KEEP) {
        Ok(mut play) => {
            let made = make_in(alloc, count, &mut play);
            drop(play);
            made
        }
        Err(error) => {
            drop(error);
            Err(NoMemory)
        }
    }
}

/// Makes a district of so many schools, publishes it, grants it to one caller and copies it, in a world of its own.
pub fn make(alloc: Global, task: &MakeTask) -> Answer
    ensures { makings.IsMakeAnswer task.now result.done result.end }
{
    match made(alloc, task.schools() as u16) {
        Ok(answer) => answer,
        Err(NoMemory) => Answer::nothing_done(alloc, End::NoMemory),
    }
}
