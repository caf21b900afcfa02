//! The command `follow`.

ghost use Rattle.std.specs.Prelude.{◌≡◌, ◌++◌, IfOk};
ghost use Rattle.exchange_link.specs.Between.{copy_between, link_between};
ghost use Rattle.hub_commands.specs.CascadeAnswers.{cascade_run};
ghost use Rattle.hub_commands.specs.FollowAnswers.{IsFollowAnswer, TellsEnd, TellsVersion, completed};
ghost use Rattle.hub_commands.specs.Outside.{faults_between};
ghost use Rattle.hub_commands.specs.Runs.{LeadsBetween};

use crate::answer::{Answer, End};
use crate::cascade::or_ended;
use crate::publish::{end_of_error, told};
use consumer_commands::sync_line;
use exchange_link::{Link, SyncAnswer};
use hub_cascade::CascadeError;
use hub_core::{Hub, Published};
use hub_follow::{FollowAnswer, FollowTask, follow as follow_hub};
use hub_words::SyncTask;
use keeper_memory::{CopyKeeper, HubKeeper};
use outside_ports::Clock;
use rest_provider::moment_of;
use roster_base::{NoMemory, Text};
use roster_texts::Name;
use std::alloc::Global;

// The line of a complete synchronisation, and behind it what its cascade tells.
fn completed(alloc: Global, version: u64, cascaded: &Text) -> Result<Text, NoMemory>
    ensures { IfOk result (λ t. t ≡ completed version ++ cascaded.now) }
{
    let mut line = sync_line(alloc, SyncAnswer::Complete { version })?;
    line.push_str(cascaded.as_str())?;
    Ok(Text::from_string(line))
}

// What is told of a version that the copy holds, and of what was made of it.
fn told_version(
    alloc: Global,
    version: u64,
    feed: &Name,
    made: Result<Published, CascadeError>,
) -> Answer
    ensures { TellsVersion feed.now version made result }
{
    let Answer {
        done: cascaded,
        end,
    } = told(alloc, feed.as_str(), or_ended(made));
    match completed(alloc, version, &cascaded) {
        Ok(done) => Answer { done, end },
        Err(NoMemory) => Answer::nothing_done(alloc, End::NoMemory),
    }
}

// What is told of how following ended.
fn told_end(alloc: Global, feed: &Name, end: FollowAnswer) -> Answer
    ensures { TellsEnd feed.now end result }
{
    match end {
        FollowAnswer::Done { version, published } => {
            told_version(alloc, version, feed, Ok(published))
        }
        FollowAnswer::Sync(answer) => Answer::nothing_done(alloc, End::Synced(answer)),
        FollowAnswer::Delta(answer) => Answer::nothing_done(alloc, End::DeltaSynced(answer)),
        FollowAnswer::Cascade { version, error } => told_version(alloc, version, feed, Err(error)),
    }
}

/// What the words of `follow` say: the synchronisation, and the feed whose rows the copy's become.
#[derive(Clone, Copy)]
pub struct FollowWords<'a> {
    pub sync: &'a SyncTask,
    pub feed: &'a Name,
}

/// Brings a copy up to date with the hub behind a link, and makes its rows those of a feed, in the hub that a keeper
/// keeps.
pub fn follow<H: HubKeeper, C: CopyKeeper, L: Link, K: Clock>(
    alloc: Global,
    words: &FollowWords<'_>,
    keeper: &mut H,
    copy: &mut C,
    link: &mut L,
    clock: &K,
) -> Answer
    ensures { LeadsBetween H.stands_for keeper.old keeper.new (IsFollowAnswer words.now.sync.now
        (cascade_run words.now.feed.now (K.moment clock.now)
        (faults_between H.fault_count keeper.old keeper.new) (copy_between C.stands_for C.fault_count copy.old copy.new))
        (link_between L.tells L.asked L.missed L.kept L.fault_count link.old link.new) result) }
{
    match Hub::open(alloc, keeper) {
        Ok(mut hub) => {
            let task = FollowTask {
                token: words.sync.token(),
                limit: words.sync.limit(),
                tries: words.sync.tries(),
                feed: words.feed,
                at: moment_of(clock),
            };
            let followed = follow_hub(alloc, &mut hub, keeper, copy, link, task);
            drop(hub);
            told_end(alloc, words.feed, followed)
        }
        Err(error) => Answer::nothing_done(alloc, end_of_error(error)),
    }
}
