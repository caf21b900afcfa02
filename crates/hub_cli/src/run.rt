//! The program's top call.

ghost use Rattle.std.specs.Prelude.{◌≡◌, ◌≢◌, ◌++◌, ℕ, IsErr, List, Ok, Some, length, map, string_bytes};
ghost use Rattle.std.specs.Io.KnownBytes.{Appends};
ghost use Rattle.exchange_link.specs.Between.{copy_between, link_between};
ghost use Rattle.script_runs.specs.Below.SyncLines.{sync_status, sync_text};
ghost use Rattle.script_runs.specs.Below.Syncs.{IsSyncOf};
ghost use Rattle.hub_words.specs.Statuses.{bad_words_status, copy_failed_status, done_status, folder_failed_status, hub_failed_status, no_memory_status, output_failed_status};
ghost use Rattle.hub_words.specs.Tasks.{Task};
ghost use Rattle.exchange_link.specs.declared.answer.SyncAnswer.{SyncAnswer as SyncAnswerValue};
ghost use Rattle.exchange_link.specs.declared.answer.SyncAnswer.TheVariants.{Complete};
ghost use Rattle.outside_ports.specs.Written.{AppendsPart};
ghost use Rattle.roster_base.specs.Faults.{Rose};
ghost use Rattle.script_runs.specs.Below.Answers.{status_of, text_of};
ghost use Rattle.script_runs.specs.Below.Outside.{Faults, faults_between, outside_between};
ghost use Rattle.script_runs.specs.Below.Runs.{IsShowAnswer, LeadsBetween, WritesBetween};
ghost use Rattle.hub_cli.specs.Runs.{IsAnswer};
ghost use Rattle.hub_words.specs.Words.{command_in, split};
ghost use Rattle.script_runs.specs.Below.Answer.{Answer as AnswerValue};
ghost use Rattle.hub_words.specs.declared.words.Command.TheVariants.{Make, Rehearse, Sync};
ghost use Rattle.script_runs.specs.Makings.{MakesDistrict};
ghost use Rattle.script_runs.specs.Rehearsals.{IsScriptOf};
ghost use Rattle.script_runs.specs.Runs.{RunsFirst, printed};
ghost use Rattle.world_scripts.specs.declared.script.Line.{Line};

use exchange_link::Link;
use hub_words::{Command, Parsed, Spelled, read_words};
use keeper_memory::{CopyKeeper, HubKeeper};
use outside_ports::{Clock, Folder, Sink};
use roster_base::NoMemory;
use roster_values::Kind;
use script_runs::commands::ask::ask;
use script_runs::commands::cascade::cascade;
use script_runs::commands::delta::delta;
use script_runs::commands::enter::enter;
use script_runs::commands::export::{export, export_since, manifest};
use script_runs::commands::follow::{FollowWords, follow};
use script_runs::commands::grant::grant;
use script_runs::commands::list::list;
use script_runs::commands::outbox::outbox;
use script_runs::commands::printing::{tell, tell_file};
use script_runs::commands::publish::publish;
use script_runs::commands::send::send;
use script_runs::commands::show::show;
use script_runs::commands::sync::sync;
use script_runs::commands::{Answer, End};
use script_runs::make::make;
use script_runs::rehearse::rehearse;
use std::alloc::Global;

// The answer of `show`.
fn shown<F: Folder, K: Clock>(alloc: Global, kind: Kind, folder: &mut F, clock: &K) -> Answer
    ensures { (keeper : Faults) → IsShowAnswer kind (outside_between F.files F.faults folder.old folder.new (K.moment clock.now) keeper) result }
{
    match show(alloc, kind, folder, clock) {
        Ok(answer) => answer,
        Err(NoMemory) => Answer::nothing_done(alloc, End::NoMemory),
    }
}

// Runs a command. What `ask` answers is written as it goes, and what another answers at its end.
fn run_command<F: Folder, H: HubKeeper, C: CopyKeeper, L: Link, K: Clock, O: Sink>(
    alloc: Global,
    parsed: &Parsed,
    folder: &mut F,
    keeper: &mut H,
    copy: &mut C,
    link: &mut L,
    clock: &K,
    out: &mut O,
) -> u8
    ensures { WritesBetween O.written O.faults out.old out.new result (λ a. LeadsBetween H.stands_for keeper.old keeper.new (IsAnswer (Ok parsed.now)
        (outside_between F.files F.faults folder.old folder.new (K.moment clock.now) (faults_between H.fault_count keeper.old keeper.new))
        (copy_between C.stands_for C.fault_count copy.old copy.new)
        (link_between L.tells L.asked L.missed L.kept L.fault_count link.old link.new)
        a)) }
{
    match &parsed.command {
        Command::Show { kind } => tell(alloc, shown(alloc, *kind, folder, clock), out),
        Command::Publish { feeds } => {
            tell(alloc, publish(alloc, feeds, folder, keeper, clock), out)
        }
        Command::Grant { file } => tell(alloc, grant(alloc, file, folder, keeper, clock), out),
        Command::Ask { file } => ask(alloc, file, folder, keeper, clock, out),
        Command::Sync { task } => tell(alloc, sync(alloc, task, copy, link), out),
        Command::SyncDelta { task } => tell(alloc, delta(alloc, task, copy, link), out),
        Command::Cascade { feed } => tell(alloc, cascade(alloc, feed, keeper, copy, clock), out),
        Command::Follow { task, feed } => {
            let words = FollowWords { sync: task, feed };
            tell(alloc, follow(alloc, &words, keeper, copy, link, clock), out)
        }
        Command::Enter { task } => tell(alloc, enter(alloc, task, folder, copy, clock), out),
        Command::Send { task } => tell(alloc, send(alloc, task, copy, link), out),
        Command::Outbox => tell(alloc, outbox(alloc, copy), out),
        Command::ListHeld { kind } => tell(alloc, list(alloc, *kind, copy), out),
        Command::ExportManifest { mode } => tell_file(alloc, manifest(alloc, *mode), out),
        Command::Export { kind } => tell_file(alloc, export(alloc, *kind, copy), out),
        Command::ExportSince { kind, dir } => {
            tell_file(
                alloc,
                export_since(alloc, *kind, dir, folder, copy, clock),
                out,
            )
        }
        Command::Rehearse { file } => rehearse(alloc, file, folder, out),
        Command::Make { task } => tell(alloc, make(alloc, task), out),
    }
}

/// Runs what words spell, as `run_hub` does.
pub fn run_spelled<F: Folder, H: HubKeeper, C: CopyKeeper, L: Link, K: Clock, O: Sink>(
    alloc: Global,
    spelled: &Spelled,
    folder: &mut F,
    keeper: &mut H,
    copy: &mut C,
    link: &mut L,
    clock: &K,
    out: &mut O,
) -> u8
    ensures { WritesBetween O.written O.faults out.old out.new result (λ a. LeadsBetween H.stands_for keeper.old keeper.new (IsAnswer spelled.now
        (outside_between F.files F.faults folder.old folder.new (K.moment clock.now) (faults_between H.fault_count keeper.old keeper.new))
        (copy_between C.stands_for C.fault_count copy.old copy.new)
        (link_between L.tells L.asked L.missed L.kept L.fault_count link.old link.new)
        a)) }
{
    match spelled {
        Ok(parsed) => run_command(alloc, parsed, folder, keeper, copy, link, clock, out),
        Err(place) => tell(
            alloc,
            Answer::nothing_done(alloc, End::BadWord(*place)),
            out,
        ),
    }
}

// Runs what any words spell.
fn run_words<F: Folder, H: HubKeeper, C: CopyKeeper, L: Link, K: Clock, O: Sink>(
    alloc: Global,
    words: &[String],
    folder: &mut F,
    keeper: &mut H,
    copy: &mut C,
    link: &mut L,
    clock: &K,
    out: &mut O,
) -> u8
    ensures { WritesBetween O.written O.faults out.old out.new result
        (λ a. LeadsBetween H.stands_for keeper.old keeper.new (IsAnswer (split (map string_bytes words.now))
        (outside_between F.files F.faults folder.old folder.new (K.moment clock.now) (faults_between H.fault_count keeper.old keeper.new))
        (copy_between C.stands_for C.fault_count copy.old copy.new)
        (link_between L.tells L.asked L.missed L.kept L.fault_count link.old link.new)
        a)) }
{
    match read_words(alloc, words) {
        Ok(spelled) => {
            let status = run_spelled(alloc, &spelled, folder, keeper, copy, link, clock, out);
            drop(spelled);
            status
        }
        Err(NoMemory) => tell(alloc, Answer::nothing_done(alloc, End::NoMemory), out),
    }
}

/// Runs the command that the words spell, over the hub that a keeper keeps or over a consumer's copy and the link to
/// its hub, and gives the status of the process:
///
/// - 0: done; the command's output is written;
/// - 1: the sink failed, which goes before every other status;
/// - 2: the words are no command; the line names the place of the first bad word;
/// - 3: the folder failed;
/// - 4: the input is refused; the line names its first fault;
/// - 5: the hub's keeper failed;
/// - 6: the copy's keeper failed;
/// - 7 to 16: the synchronisation ended before the copy was whole, or the outbox before its writes were settled, or no
///   write was entered; the line tells the answer;
/// - 13: the file of an export would be too large, too; the line tells its kind and size;
/// - 17: memory ran out, which says nothing of the input;
/// - 19: nothing is held under the token, so nothing can differ from it;
/// - 20: the hub keeps the held version no longer, or has changed the token's grant since;
/// - 21: the copy that was to be exported or cascaded holds nothing.
pub fn run_hub<F: Folder, H: HubKeeper, C: CopyKeeper, L: Link, K: Clock, O: Sink>(
    alloc: Global,
    words: &[String],
    folder: &mut F,
    keeper: &mut H,
    copy: &mut C,
    link: &mut L,
    clock: &K,
    out: &mut O,
) -> u8
    // What is written is the text of an answer to the words, and nothing else. The answer leads from a state of the hub
    // to another; where the keeper tells, from one for which it stood to the one for which it stands.
    ensures done { result ≢ output_failed_status → (a : AnswerValue) × LeadsBetween H.stands_for keeper.old keeper.new (IsAnswer (split (map string_bytes words.now))
        (outside_between F.files F.faults folder.old folder.new (K.moment clock.now) (faults_between H.fault_count keeper.old keeper.new))
        (copy_between C.stands_for C.fault_count copy.old copy.new)
        (link_between L.tells L.asked L.missed L.kept L.fault_count link.old link.new)
        a) × (result ≡ status_of a.end) × Appends (O.written out.old) (O.written out.new) (text_of a) }
    // Where the sink failed, a front of such a text is written.
    ensures part { result ≡ output_failed_status → (a : AnswerValue) × LeadsBetween H.stands_for keeper.old keeper.new (IsAnswer (split (map string_bytes words.now))
        (outside_between F.files F.faults folder.old folder.new (K.moment clock.now) (faults_between H.fault_count keeper.old keeper.new))
        (copy_between C.stands_for C.fault_count copy.old copy.new)
        (link_between L.tells L.asked L.missed L.kept L.fault_count link.old link.new)
        a) × AppendsPart (O.written out.old) (O.written out.new) (text_of a) }
    // Where the words spell `sync`, and neither the sink failed nor memory ran out, line and status are those of a
    // synchronisation, of which all holds that is promised of one.
    ensures synchronised { (task : Task) → command_in (split (map string_bytes words.now)) ≡ Some (Sync task) → result ≢ output_failed_status → result ≢ no_memory_status → (a : SyncAnswerValue) × IsSyncOf task a
        (copy_between C.stands_for C.fault_count copy.old copy.new)
        (link_between L.tells L.asked L.missed L.kept L.fault_count link.old link.new)
        × (result ≡ sync_status a) × Appends (O.written out.old) (O.written out.new) (sync_text a) }
    // Where the words spell `rehearse` and the status is 0, the file is a script, and what is written is what a run of
    // a world over all its lines prints, which begins with an empty hub and an empty copy.
    ensures rehearsed { (file : List ℕ) → command_in (split (map string_bytes words.now)) ≡ Some (Rehearse file) → result ≡ done_status
        → (lines : List Line) × IsScriptOf (F.files folder.old) file lines × (run : RunsFirst (F.files folder.old) lines (length lines))
        × Appends (O.written out.old) (O.written out.new) (printed run.stages) }
    // Where they spell `make` and the status is 0, what is written sums up a district that was made, published, granted
    // and copied whole.
    ensures made { (count : ℕ) → command_in (split (map string_bytes words.now)) ≡ Some (Make count) → result ≡ done_status
        → (version : ℕ) × (done : List ℕ) × MakesDistrict count (Complete version) done
        × Appends (O.written out.old) (O.written out.new) (done ++ sync_text (Complete version)) }
    ensures words_are_bad { result ≡ bad_words_status → IsErr (split (map string_bytes words.now)) }
    ensures bad_words { IsErr (split (map string_bytes words.now)) → result ≢ output_failed_status → result ≢ no_memory_status → result ≡ bad_words_status }
    ensures folder_failed { result ≡ folder_failed_status → Rose (F.faults folder.old) (F.faults folder.new) }
    ensures keeper_failed { result ≡ hub_failed_status → Rose (H.fault_count keeper.old) (H.fault_count keeper.new) }
    ensures copy_failed { result ≡ copy_failed_status → Rose (C.fault_count copy.old) (C.fault_count copy.new) }
    ensures sink_failed { result ≡ output_failed_status → Rose (O.faults out.old) (O.faults out.new) }
    ensures sink_stood { result ≢ output_failed_status → O.faults out.new ≡ O.faults out.old }
{
    // What is said here follows from the one clause of `run_words`.
    run_words(alloc, words, folder, keeper, copy, link, clock, out)
}
