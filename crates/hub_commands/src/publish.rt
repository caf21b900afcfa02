//! The command `publish`.

ghost use Rattle.std.specs.Prelude.{◌≡◌, ◌++◌, ℕ, List, IfOk, Ok, OnErr, OnOk, false, string_bytes};
ghost use Rattle.hub_core.specs.Standing.{KeeperFits, StandsFrom};
ghost use Rattle.keeper_memory.specs.Kept.{IsKept};
ghost use Rattle.hub_commands.specs.Outside.{faults_between, outside_between};
ghost use Rattle.hub_commands.specs.PublishAnswers.{IsRunOf, IsTold, told_text};
ghost use Rattle.hub_commands.specs.Runs.{IsPublishAnswer, LeadsBetween};
ghost use Rattle.hub_commands.specs.Steps.{PublishesFeed, ReadsSet, end_of, end_of_error};

use crate::answer::{Answer, End};
use crate::lines::{published_line, unchanged_line};
use csv_sets::{SetFault, read_set};
use hub_core::{Hub, HubError, Published};
use hub_words::Feed;
use keeper_memory::HubKeeper;
use outside_ports::{Clock, Folder};
use rest_provider::moment_of;
use roster_base::{Items, NoMemory, Refusal, Text};
use roster_texts::Name;
use roster_types::set::RosterSet;
use std::alloc::Global;

/// The end that a set's fault brings.
pub fn end_of(fault: SetFault) -> End
    ensures { result ≡ end_of fault }
{
    match fault {
        SetFault::Folder => End::FolderFailed,
        fault => End::Refused(fault),
    }
}

/// The end that a hub's error brings.
pub fn end_of_error(error: HubError) -> End
    ensures { result ≡ end_of_error error }
{
    match error {
        HubError::Keeper => End::HubFailed,
        HubError::NoMemory => End::NoMemory,
        HubError::Refused(fault) => End::NotPublished(fault),
    }
}

/// The set of a feed, or the end that it brings.
pub fn set_of<F: Folder>(alloc: Global, feed: &Feed, folder: &mut F) -> Result<RosterSet, End>
    ensures set { ReadsSet (F.files folder.old) (faults_between F.faults folder.old folder.new) feed.now result }
    ensures files { F.files folder.new ≡ F.files folder.old }
{
    match read_set(alloc, folder, feed.dir.as_str(), &feed.name) {
        Ok(set) => Ok(set),
        Err(Refusal::Fault(fault)) => Err(end_of(fault)),
        Err(Refusal::NoMemory) => Err(End::NoMemory),
    }
}

/// The line of what was published under a name.
pub fn told_line(alloc: Global, name: &str, answer: Published) -> Result<String, NoMemory>
    ensures { IfOk result (λ line. string_bytes line ≡ told_text name.now answer) }
{
    match answer {
        Published::New { version } => published_line(alloc, name, version),
        Published::Same { version } => unchanged_line(alloc, name, version),
    }
}

// What is told of a version that was made under a name.
fn told_published(alloc: Global, name: &str, published: Published) -> Answer
    ensures { IsTold name.now (Ok published) result }
{
    match told_line(alloc, name, published) {
        Ok(line) => Answer {
            done: Text::from_string(line),
            end: End::Done,
        },
        Err(NoMemory) => Answer::nothing_done(alloc, End::NoMemory),
    }
}

/// What is told of what was made under a name: the line of the version, or how it ended.
pub fn told(alloc: Global, name: &str, answer: Result<Published, End>) -> Answer
    ensures { IsTold name.now answer result }
{
    match answer {
        Ok(published) => told_published(alloc, name, published),
        Err(end) => Answer::nothing_done(alloc, end),
    }
}

// Adds the line of what was made of a set of this name. Where memory runs out, nothing is added.
fn push_line(
    alloc: Global,
    done: &mut String,
    name: &Name,
    answer: Published,
) -> Result<(), NoMemory>
    ensures ok { OnOk result (string_bytes done.new ≡ string_bytes done.old ++ told_text name.now answer) }
    ensures err { OnErr result (string_bytes done.new ≡ string_bytes done.old) }
{
    let line = told_line(alloc, name.as_str(), answer)?;
    done.push_str(line.as_str())?;
    Ok(())
}

// Publishes the set of a feed.
fn publish_feed<F: Folder, H: HubKeeper, K: Clock>(
    alloc: Global,
    hub: &mut Hub,
    keeper: &mut H,
    feed: &Feed,
    folder: &mut F,
    clock: &K,
) -> Result<Published, End>
    requires { KeeperFits (H.stands_for keeper.old) hub.old }
    ensures fits { KeeperFits (H.stands_for keeper.new) hub.new }
    ensures told { StandsFrom (H.stands_for keeper.old) (H.stands_for keeper.new) hub.old hub.new
        (PublishesFeed
        (outside_between F.files F.faults folder.old folder.new (K.moment clock.now) (faults_between H.fault_count keeper.old keeper.new)) feed.now result) }
    ensures files { F.files folder.new ≡ F.files folder.old }
{
    let set = set_of(alloc, feed, folder)?;
    let answer = hub.publish(alloc, keeper, set, moment_of(clock));
    match answer {
        Ok(published) => Ok(published),
        Err(error) => Err(end_of_error(error)),
    }
}

// Publishes the sets of feeds up to the first that isn't, and adds the lines that tell them.
fn publish_feeds<F: Folder, H: HubKeeper, K: Clock>(
    hub: &mut Hub,
    keeper: &mut H,
    feeds: &[Feed],
    folder: &mut F,
    clock: &K,
    done: &mut String,
) -> End
    requires { KeeperFits (H.stands_for keeper.old) hub.old }
    ensures fits { KeeperFits (H.stands_for keeper.new) hub.new }
    ensures run { (more : List ℕ) × (string_bytes done.new ≡ string_bytes done.old ++ more)
        × StandsFrom (H.stands_for keeper.old) (H.stands_for keeper.new) hub.old hub.new
        (IsRunOf
        (outside_between F.files F.faults folder.old folder.new (K.moment clock.now) (faults_between H.fault_count keeper.old keeper.new)) feeds.now more result) }
{
    let alloc = *done.allocator();
    for feed in feeds {
        let answer = match publish_feed(alloc, hub, keeper, feed, folder, clock) {
            Ok(answer) => answer,
            Err(end) => return end,
        };
        if let Err(NoMemory) = push_line(alloc, done, &feed.name, answer) {
            return End::NoMemory;
        }
    }
    End::Done
}

// Publishes the sets of feeds into a hub that was opened.
fn publish_into<F: Folder, H: HubKeeper, K: Clock>(
    alloc: Global,
    mut hub: Hub,
    feeds: &[Feed],
    folder: &mut F,
    keeper: &mut H,
    clock: &K,
) -> Answer
    requires fits { KeeperFits (H.stands_for keeper.old) hub }
    requires settled { hub.commit_open ≡ false }
    requires kept { IsKept hub.kept }
    ensures { LeadsBetween H.stands_for keeper.old keeper.new (IsRunOf
        (outside_between F.files F.faults folder.old folder.new (K.moment clock.now) (faults_between H.fault_count keeper.old keeper.new)) feeds.now result.done result.end) }
{
    let mut done = String::new(alloc);
    let end = publish_feeds(&mut hub, keeper, feeds, folder, clock, &mut done);
    drop(hub);
    Answer {
        done: Text::from_string(done),
        end,
    }
}

/// Publishes the sets of feeds one after another into the hub that a keeper keeps, up to the first that is refused.
pub fn publish<F: Folder, H: HubKeeper, K: Clock>(
    alloc: Global,
    feeds: &Items<Feed>,
    folder: &mut F,
    keeper: &mut H,
    clock: &K,
) -> Answer
    ensures { LeadsBetween H.stands_for keeper.old keeper.new (IsPublishAnswer
        (outside_between F.files F.faults folder.old folder.new (K.moment clock.now) (faults_between H.fault_count keeper.old keeper.new)) feeds.now result) }
{
    match Hub::open(alloc, keeper) {
        Ok(hub) => publish_into(alloc, hub, feeds.as_slice(), folder, keeper, clock),
        Err(error) => Answer::nothing_done(alloc, end_of_error(error)),
    }
}
