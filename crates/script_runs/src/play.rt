//! A world on its way through a script.

ghost use Rattle.std.specs.Prelude.{◌≡◌, ◌≢◌, ◌++◌, [], Err, IfOk, Ok, length, not, string_bytes};
ghost use Rattle.std.specs.List.{flat_map};
ghost use Rattle.hub_commands.specs.Below.Held.{listed_text};
ghost use Rattle.hub_commands.specs.Below.SendLines.{entry_text};
ghost use Rattle.hub_commands.specs.Below.SyncLines.{sync_text};
ghost use Rattle.exchange_link.specs.declared.send_answer.EnterError.TheVariants as enter_error;
ghost use Rattle.hub_commands.specs.Lines.{copy_failed};
ghost use Rattle.keeper_memory.specs.Failures.{with_listed};
ghost use Rattle.hub_spec.specs.rules.States.{IsHub};
ghost use Rattle.keeper_memory.specs.copy.Copies.{IsCopy, IsOutWrite, held_list};
ghost use Rattle.roster_base.specs.Faults.{Rose};
ghost use Rattle.script_runs.specs.Plays as plays;
ghost use Rattle.script_runs.specs.Runs.{Opens, first_moment};
ghost use Rattle.script_runs.specs.Sayings.{said_text};
ghost use Rattle.script_runs.specs.declared.sources.Stop.TheVariants as stop;
ghost use Rattle.sync_world.specs.Links.{with_event, with_failure, with_fate};

use crate::sayings::said_lines;
use crate::sources::{Stop, act_of, end_lines};
use exchange_link::{EnterError, Link, SendAnswer, SyncAnswer};
use hub_commands::consumer::{
    COPY_FAILED, enter_line, enter_write, entered_line, held_text, outbox_text, send_line,
    send_writes, sync_line, synchronise,
};
use hub_commands::enter::write_of;
use hub_core::HubError;
use hub_words::{EnterTask, SendTask, SyncTask};
use keeper_memory::{CopyKeeper, MemCopy, MemHub};
use outside_ports::{FixedClock, Folder};
use roster_base::{Items, KeeperError, NoMemory};
use roster_texts::Moment;
use roster_types::row::Row;
use roster_values::Kind;
use std::alloc::Global;
use sync_world::{Fate, Happening, HubAct, WorldLink, nothing_sent_agrees};
use version_core::mark::Write;
use world_scripts::{HubLine, Line};

/// The hub behind its link, and the consumer's copy.
#[derive(Drop)]
pub struct Play {
    pub link: WorldLink,
    pub copy: MemCopy,
}

/// The answer of a synchronisation, and what is printed of it.
#[derive(Drop)]
pub struct Synced {
    pub answer: SyncAnswer,
    pub text: String,
}

// The moment at which a world begins: 2024-08-01T12:00:00.000Z.
fn first_moment() -> Moment
    ensures { result ≡ first_moment }
{
    match Moment::at(1_722_513_600_000) {
        Some(at) => at,
        None => unreachable!(),
    }
}

// A clock that stands at this moment.
fn clock_at(moment: Moment) -> FixedClock
    ensures { result ≡ moment }
{
    FixedClock::at(moment.milliseconds())
}

// What is read of the copy, or the line that tells that its keeper failed.
fn read_text(alloc: Global, read: Result<String, KeeperError>) -> Result<String, NoMemory>
    ensures { IfOk result (λ t. plays.TellsRead read (string_bytes t)) }
{
    match read {
        Ok(text) => Ok(text),
        Err(KeeperError::Failed) => copy_failed(alloc),
        Err(KeeperError::NoMemory) => Err(NoMemory),
    }
}

// The line that tells that the copy's keeper failed.
fn copy_failed(alloc: Global) -> Result<String, NoMemory>
    ensures { IfOk result (λ t. string_bytes t ≡ copy_failed) }
{
    Ok(String::from_str(alloc, COPY_FAILED)?)
}

/// A text, and then a line.
pub(crate) fn with_line(text: String, line: String) -> Result<String, NoMemory>
    ensures { IfOk result (λ t. string_bytes t ≡ string_bytes text ++ string_bytes line) }
{
    let mut text = text;
    text.push_str(line.as_str())?;
    drop(line);
    Ok(text)
}

/// The line that tells how many exchanges were made.
pub(crate) fn exchanges_line(alloc: Global, asked: u64) -> Result<String, NoMemory>
    ensures { IfOk result (λ t. string_bytes t ≡ plays.exchanges_text asked) }
{
    Ok(format!(in alloc; "exchanges {asked}\n")?)
}

// The line of a write that was entered, or why it wasn't.
fn entered_text(alloc: Global, entered: Result<u64, EnterError>) -> Result<String, NoMemory>
    ensures { IfOk result (λ t. (entered ≢ Err enter_error.NoMemory) × (string_bytes t ≡ plays.told_entered entered)) }
{
    match entered {
        Ok(number) => entered_line(alloc, number),
        Err(EnterError::NoMemory) => Err(NoMemory),
        Err(error) => enter_line(alloc, error),
    }
}

// How many rows there are, which are let go.
fn len_of(rows: Items<Row>) -> usize
    ensures { result ≡ length rows }
{
    let len = rows.as_slice().len();
    drop(rows);
    len
}

// Nothing is printed, unless memory ran out.
fn silent(alloc: Global, planned: Result<(), NoMemory>) -> Result<String, NoMemory>
    ensures { IfOk result (λ t. (planned ≡ Ok tt) × (string_bytes t ≡ [])) }
{
    planned?;
    Ok(String::new(alloc))
}

// What is printed, unless memory ran out.
fn or_stop(printed: Result<String, NoMemory>) -> Result<String, Stop>
    ensures text { IfOk result (λ t. printed ≡ Ok t) }
    ensures memory { result ≢ Err stop.Folder }
{
    Ok(printed?)
}

impl Play {
    /// A hub and a copy that hold nothing, at the first moment.
    pub fn open(alloc: Global, keep: u32) -> Result<Play, HubError>
        ensures opens { IfOk result (λ play. Opens keep play) }
        ensures sound { IfOk result (λ play. plays.Sound play) }
    {
        let link = WorldLink::over(alloc, MemHub::new(alloc, keep), first_moment())?;
        let play = Play {
            link,
            copy: MemCopy::new(alloc),
        };
        play.look();
        nothing_sent_agrees();
        Ok(play)
    }

    // The lines that tell what others did, which isn't told again.
    fn take_said(&mut self, alloc: Global) -> Result<String, NoMemory>
        ensures text { IfOk result (λ t. string_bytes t ≡ said_text self.old.link.said) }
        ensures taken { self.new ≡ record self.old { link = plays.said_taken self.old.link } }
    {
        said_lines(alloc, self.link.take_said(alloc))
    }

    // What others did, and then the line of an answer.
    fn said_with(&mut self, alloc: Global, line: String) -> Result<String, NoMemory>
        ensures text { IfOk result (λ t. string_bytes t ≡ said_text self.old.link.said ++ string_bytes line) }
        ensures taken { IfOk result (λ _. self.new ≡ record self.old { link = plays.said_taken self.old.link }) }
    {
        let said = self.take_said(alloc)?;
        with_line(said, line)
    }

    // Whether no exchange wanted memory so far.
    fn is_whole(&self) -> bool
        ensures { result ≡ not self.now.link.wanted }
    {
        !self.link.wanted_memory()
    }

    /// Reads hub and copy for what they keep.
    pub fn look(&self)
        ensures hub { IsHub self.now.link.hub }
        ensures copy { IsCopy self.now.copy.copy }
    {
        let _ = self.link.faults();
        let _ = self.copy.faults();
    }

    // What is printed of a synchronisation with this answer.
    fn told_sync(&mut self, alloc: Global, answer: SyncAnswer) -> Result<Synced, NoMemory>
        ensures answer { IfOk result (λ t. t.answer ≡ answer) }
        ensures text { IfOk result (λ t. string_bytes t.text ≡ said_text self.old.link.said ++ sync_text answer) }
        ensures taken { IfOk result (λ _. self.new ≡ record self.old { link = plays.said_taken self.old.link }) }
    {
        let line = sync_line(alloc, answer)?;
        let text = self.said_with(alloc, line)?;
        Ok(Synced { answer, text })
    }

    /// Synchronises the copy with the hub, and gives the answer and what is printed of it.
    pub fn synchronise(&mut self, alloc: Global, task: &SyncTask) -> Result<Synced, NoMemory>
        requires { plays.Sound self.old }
        ensures { IfOk result (λ t. plays.Synchronises task.now t.answer self.old self.new (string_bytes t.text)) }
    {
        let answer = synchronise(alloc, task, &mut self.copy, &mut self.link);
        self.look();
        match answer {
            SyncAnswer::NoMemory => Err(NoMemory),
            answer if self.is_whole() => self.told_sync(alloc, answer),
            _ => Err(NoMemory),
        }
    }

    // Synchronises the copy with the hub, and gives what is printed of it.
    fn sync(&mut self, alloc: Global, task: &SyncTask) -> Result<String, NoMemory>
        requires { plays.Sound self.old }
        ensures { IfOk result (λ t. plays.SyncStep task.now self.old self.new (string_bytes t)) }
    {
        let Synced { answer: _, text } = self.synchronise(alloc, task)?;
        Ok(text)
    }

    // Sends the entries that wait, and gives what is printed of it.
    fn send(&mut self, alloc: Global, task: &SendTask) -> Result<String, NoMemory>
        requires { plays.Sound self.old }
        ensures { IfOk result (λ t. plays.SendStep task.now self.old self.new (string_bytes t)) }
    {
        match send_writes(alloc, task, &mut self.copy, &mut self.link) {
            SendAnswer::NoMemory => Err(NoMemory),
            answer if self.is_whole() => self.said_with(alloc, send_line(alloc, answer)?),
            _ => Err(NoMemory),
        }
    }

    // Enters a write, and gives the line that tells of it.
    fn enter_write(&mut self, alloc: Global, write: Write) -> Result<String, NoMemory>
        requires { IsOutWrite write }
        ensures { IfOk result (λ t. plays.EntersWrite write self.old self.new (string_bytes t)) }
    {
        entered_text(alloc, enter_write(alloc, write, &mut self.copy))
    }

    // Enters the write of a task, by the file of its body, and gives what is printed of it.
    fn enter<F: Folder>(
        &mut self,
        alloc: Global,
        task: &EnterTask,
        folder: &mut F,
    ) -> Result<String, Stop>
        ensures step { IfOk result (λ t. plays.EnterStep (F.files folder.old) task.now self.old self.new (string_bytes t)) }
        ensures stood { IfOk result (λ _. F.faults folder.new ≡ F.faults folder.old) }
        ensures failed { result ≡ Err stop.Folder → Rose (F.faults folder.old) (F.faults folder.new) }
        ensures files { F.files folder.new ≡ F.files folder.old }
    {
        let clock = clock_at(self.link.clock());
        match write_of(alloc, task, folder, &clock) {
            Ok(write) => or_stop(self.enter_write(alloc, write)),
            Err(end) => end_lines(alloc, end),
        }
    }

    /// Has others do something to the hub now, by the files of the folder, and gives what is printed of it.
    pub fn hub<F: Folder>(
        &mut self,
        alloc: Global,
        line: &HubLine,
        folder: &mut F,
    ) -> Result<String, Stop>
        ensures step { IfOk result (λ t. plays.HubStep (F.files folder.old) line.now self.old self.new (string_bytes t)) }
        ensures stood { IfOk result (λ _. F.faults folder.new ≡ F.faults folder.old) }
        ensures failed { result ≡ Err stop.Folder → Rose (F.faults folder.old) (F.faults folder.new) }
        ensures files { F.files folder.new ≡ F.files folder.old }
    {
        let act = act_of(alloc, line, folder)?;
        or_stop(self.act(alloc, act))
    }

    // Has others do something to the hub now, and gives what is printed of it.
    fn act(&mut self, alloc: Global, act: HubAct) -> Result<String, NoMemory>
        ensures { IfOk result (λ t. plays.ActStep act self.old self.new (string_bytes t)) }
    {
        self.link.act(alloc, act)?;
        self.take_said(alloc)
    }

    // Has others do something to the hub just before an exchange, by the files as they are now.
    fn at<F: Folder>(
        &mut self,
        alloc: Global,
        exchange: u64,
        line: &HubLine,
        folder: &mut F,
    ) -> Result<String, Stop>
        ensures step { IfOk result (λ t. plays.AtStep (F.files folder.old) exchange line.now self.old self.new (string_bytes t)) }
        ensures stood { IfOk result (λ _. F.faults folder.new ≡ F.faults folder.old) }
        ensures failed { result ≡ Err stop.Folder → Rose (F.faults folder.old) (F.faults folder.new) }
        ensures files { F.files folder.new ≡ F.files folder.old }
    {
        let act = act_of(alloc, line, folder)?;
        or_stop(self.plan(alloc, exchange, Happening::Act { act }))
    }

    // Sets the clock of the link.
    fn clock(&mut self, alloc: Global, at: Moment) -> Result<String, NoMemory>
        ensures { IfOk result (λ t. plays.BecomesLink (record self.old.link { clock = at }) self.old self.new (string_bytes t)) }
    {
        self.link.set_clock(at);
        Ok(String::new(alloc))
    }

    // Has something happen just before an exchange.
    fn plan(
        &mut self,
        alloc: Global,
        exchange: u64,
        happening: Happening,
    ) -> Result<String, NoMemory>
        ensures { IfOk result (λ t. plays.BecomesLink (with_event exchange happening self.old.link) self.old self.new (string_bytes t)) }
    {
        silent(alloc, self.link.plan(exchange, happening))
    }

    // Has this become of an exchange.
    fn meet(&mut self, alloc: Global, exchange: u64, fate: Fate) -> Result<String, NoMemory>
        ensures { IfOk result (λ t. plays.BecomesLink (with_fate exchange fate self.old.link) self.old self.new (string_bytes t)) }
    {
        silent(alloc, self.link.meet(exchange, fate))
    }

    // Lists one commit more of the hub's keeper that fails.
    fn fail_hub(&mut self, alloc: Global, acted: bool, commit: u64) -> Result<String, NoMemory>
        ensures { IfOk result (λ t. plays.BecomesLink (with_failure acted commit self.old.link) self.old self.new (string_bytes t)) }
    {
        silent(alloc, self.link.list_commit(acted, commit))
    }

    // Lists one commit more of the copy's keeper that fails.
    fn fail_copy(&mut self, alloc: Global, acted: bool, commit: u64) -> Result<String, NoMemory>
        ensures { IfOk result (λ t. plays.BecomesCopy (record self.old.copy { plan = with_listed acted commit self.old.copy.plan }) self.old self.new (string_bytes t)) }
    {
        silent(alloc, self.copy.list_commit(acted, commit))
    }

    // The rows of a kind that the copy holds.
    fn list(&mut self, alloc: Global, kind: Kind) -> Result<String, NoMemory>
        ensures { IfOk result (λ t. plays.ReadStep (listed_text kind (held_list self.old.copy.copy kind)) self.old self.new (string_bytes t)) }
    {
        // Read for what it keeps.
        let _ = self.copy.faults();
        let read = held_text(alloc, &mut self.copy, kind);
        let _ = self.copy.faults();
        read_text(alloc, read)
    }

    // The entries of the copy's outbox.
    fn outbox(&mut self, alloc: Global) -> Result<String, NoMemory>
        ensures { IfOk result (λ t. plays.ReadStep (flat_map entry_text self.old.copy.copy.entries) self.old self.new (string_bytes t)) }
    {
        // Read for what it keeps.
        let _ = self.copy.faults();
        let read = outbox_text(alloc, &mut self.copy);
        let _ = self.copy.faults();
        read_text(alloc, read)
    }

    /// How many rows of a kind are held.
    pub fn count(&mut self, alloc: Global, kind: Kind) -> Result<usize, NoMemory>
        ensures count { IfOk result (λ n. n ≡ length (held_list self.old.copy.copy kind)) }
        ensures link { self.new.link ≡ self.old.link }
        ensures copy { self.new.copy.copy ≡ self.old.copy.copy }
    {
        // Read for what it keeps.
        let _ = self.copy.faults();
        let held = self.copy.held(alloc, kind);
        let _ = self.copy.faults();
        match held {
            Ok(rows) => Ok(len_of(rows)),
            // No read is listed to fail.
            Err(KeeperError::Failed) => Err(NoMemory),
            Err(KeeperError::NoMemory) => Err(NoMemory),
        }
    }

    /// Does what a line says, by the files of the root folder, and gives what it prints. Hub and copy agree again.
    pub fn run_line<F: Folder>(
        &mut self,
        alloc: Global,
        line: &Line,
        folder: &mut F,
    ) -> Result<String, Stop>
        requires { plays.Sound self.old }
        ensures step { IfOk result (λ t. plays.LineStep (F.files folder.old) line.now self.old self.new (string_bytes t)) }
        ensures sound { IfOk result (λ _. plays.Sound self.new) }
        ensures stood { IfOk result (λ _. F.faults folder.new ≡ F.faults folder.old) }
        ensures failed { result ≡ Err stop.Folder → Rose (F.faults folder.old) (F.faults folder.new) }
        ensures files { F.files folder.new ≡ F.files folder.old }
    {
        let text = self.step(alloc, line, folder);
        self.look();
        text
    }

    // What a line makes of hub, link and copy, and what it prints.
    fn step<F: Folder>(
        &mut self,
        alloc: Global,
        line: &Line,
        folder: &mut F,
    ) -> Result<String, Stop>
        requires { plays.Sound self.old }
        ensures step { IfOk result (λ t. plays.LineStep (F.files folder.old) line.now self.old self.new (string_bytes t)) }
        ensures stood { IfOk result (λ _. F.faults folder.new ≡ F.faults folder.old) }
        ensures failed { result ≡ Err stop.Folder → Rose (F.faults folder.old) (F.faults folder.new) }
        ensures files { F.files folder.new ≡ F.files folder.old }
    {
        match line {
            Line::Keep { .. } => Ok(String::new(alloc)),
            Line::Clock { at } => or_stop(self.clock(alloc, *at)),
            Line::Hub { line } => self.hub(alloc, line, folder),
            Line::At { exchange, line } => self.at(alloc, *exchange, line, folder),
            Line::Sync { task } => or_stop(self.sync(alloc, task)),
            Line::Enter { task } => self.enter(alloc, task, folder),
            Line::Send { task } => or_stop(self.send(alloc, task)),
            Line::Outbox => or_stop(self.outbox(alloc)),
            Line::ListHeld { kind } => or_stop(self.list(alloc, *kind)),
            Line::LoseRequest { exchange } => {
                or_stop(self.meet(alloc, *exchange, Fate::RequestLost))
            }
            Line::LoseReply { exchange } => or_stop(self.meet(alloc, *exchange, Fate::ReplyLost)),
            Line::Late { request, exchange } => {
                or_stop(self.plan(alloc, *exchange, Happening::Late { request: *request }))
            }
            Line::Stale { reply, exchange } => {
                or_stop(self.meet(alloc, *exchange, Fate::Stale { reply: *reply }))
            }
            Line::HubFails { acted, commit } => or_stop(self.fail_hub(alloc, *acted, *commit)),
            Line::CopyFails { acted, commit } => or_stop(self.fail_copy(alloc, *acted, *commit)),
            Line::Exchanges => or_stop(exchanges_line(alloc, self.link.asked())),
        }
    }
}
