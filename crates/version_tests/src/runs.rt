//! Runs of a hub over a keeper of which calls fail.

ghost use Rattle.hub_core.specs.Standing.{KeeperFits};

use crate::told::{push_answer, push_table};
use csv_sets::read_set;
use grant_files::read_grants;
use grant_scopes::GrantList;
use hub_core::Hub;
use keeper_memory::{HubKeeper, MemHub};
use roster_texts::{Moment, Name};
use roster_types::set::RosterSet;
use std::alloc::Global;
use std::process::Abort;
use std::test::Fail;
use test_lake::folder;

/// A call, at the first second.
#[derive(Clone, Copy)]
pub enum Turn {
    /// A feed publishes categories: its name, the mode of their file, and the lines below its header.
    Set(&'static str, &'static str, &'static str),
    /// The lines of a file of grants, below its header.
    Grants(&'static str),
}

fn moment(rt: &impl Abort) -> Moment {
    match Moment::at(1_000) {
        Some(moment) => moment,
        None => panic!(rt; "no moment"),
    }
}

fn set_of(alloc: Global, feed: &str, mode: &str, lines: &str) -> Result<RosterSet, Fail> {
    let manifest = format!(in alloc;
        "propertyName,value\nmanifest.version,1.0\noneroster.version,1.1\nfile.categories,{mode}\n"
    )?;
    let categories = format!(in alloc; "sourcedId,status,dateLastModified,title\n{lines}")?;
    let files = [
        ("manifest.csv", manifest.as_str()),
        ("categories.csv", categories.as_str()),
    ];
    let feed = Name::read(alloc, feed)?.ok_or("a name")?;
    let mut folder = folder(alloc, &files)?;
    match read_set(alloc, &mut folder, "lake", &feed) {
        Ok(set) => Ok(set),
        Err(_) => Err(Fail::new("no set")),
    }
}

fn grants_of(alloc: Global, lines: &str) -> Result<GrantList, Fail> {
    let text = format!(in alloc; "caller,token,scopes,schools\n{lines}")?;
    match read_grants(alloc, text.as_bytes()) {
        Ok(list) => Ok(list),
        Err(_) => Err(Fail::new("no grants")),
    }
}

fn publish<H: HubKeeper>(
    rt: &impl Abort,
    alloc: Global,
    hub: &mut Hub,
    keeper: &mut H,
    set: RosterSet,
    told: &mut String,
) -> Result<(), Fail>
    requires { KeeperFits (H.stands_for keeper.old) hub.old }
    ensures { KeeperFits (H.stands_for keeper.new) hub.new }
{
    let answer = hub.publish(alloc, keeper, set, moment(rt));
    let pushed = push_answer(told, &answer);
    drop(answer);
    pushed
}

fn set_grants<H: HubKeeper>(
    rt: &impl Abort,
    alloc: Global,
    hub: &mut Hub,
    keeper: &mut H,
    list: &GrantList,
    told: &mut String,
) -> Result<(), Fail>
    requires { KeeperFits (H.stands_for keeper.old) hub.old }
    ensures { KeeperFits (H.stands_for keeper.new) hub.new }
{
    let answer = hub.set_grants(alloc, keeper, list, moment(rt));
    let pushed = push_answer(told, &answer);
    drop(answer);
    pushed
}

fn take<H: HubKeeper>(
    rt: &impl Abort,
    alloc: Global,
    hub: &mut Hub,
    keeper: &mut H,
    turn: Turn,
    told: &mut String,
) -> Result<(), Fail>
    requires { KeeperFits (H.stands_for keeper.old) hub.old }
    ensures { KeeperFits (H.stands_for keeper.new) hub.new }
{
    match turn {
        Turn::Set(feed, mode, lines) => {
            let set = set_of(alloc, feed, mode, lines)?;
            publish(rt, alloc, hub, keeper, set, told)
        }
        Turn::Grants(lines) => {
            let list = grants_of(alloc, lines)?;
            set_grants(rt, alloc, hub, keeper, &list, told)
        }
    }
}

// Takes all turns, and tells all answers.
fn take_all<H: HubKeeper>(
    rt: &impl Abort,
    alloc: Global,
    hub: &mut Hub,
    keeper: &mut H,
    turns: &[Turn],
) -> Result<String, Fail>
    requires { KeeperFits (H.stands_for keeper.old) hub.old }
{
    let mut told = String::new(alloc);
    for turn in turns {
        take(rt, alloc, hub, keeper, *turn, &mut told)?;
    }
    Ok(told)
}

// Takes all turns in a hub, and tells their answers, or that the keeper gives nothing.
fn run<H: HubKeeper>(
    rt: &impl Abort,
    alloc: Global,
    keeper: &mut H,
    turns: &[Turn],
) -> Result<String, Fail> {
    let Ok(mut hub) = Hub::open(alloc, keeper) else {
        return Ok(String::from_str(alloc, "not opened, ")?);
    };
    let told = take_all(rt, alloc, &mut hub, keeper, turns);
    drop(hub);
    told
}

// Tells what a hub has that is opened anew.
fn push_kept<H: HubKeeper>(
    rt: &impl Abort,
    alloc: Global,
    keeper: &mut H,
    told: &mut String,
) -> Result<(), Fail> {
    let Ok(hub) = Hub::open(alloc, keeper) else {
        panic!(rt; "no hub");
    };
    let pushed = push_table(told, hub.table());
    drop(hub);
    pushed
}

fn told<H: HubKeeper>(
    rt: &impl Abort,
    alloc: Global,
    keeper: &mut H,
    turns: &[Turn],
) -> Result<String, Fail> {
    let mut told = run(rt, alloc, keeper, turns)?;
    push_kept(rt, alloc, keeper, &mut told)?;
    let faults = keeper.faults();
    write!(told, "faults {faults}")?;
    Ok(told)
}

/// The calls of a keeper that fail, by their numbers from 1: a commit before it acts, one after it has acted, and a
/// load; 0 is none.
#[derive(Clone, Copy)]
pub struct Failing {
    pub before: u64,
    pub after: u64,
    pub load: u64,
}

/// What is told over a keeper in memory that keeps so many versions beside the newest, of which these calls fail: the
/// answers to all turns, what is kept then, and how many of its calls failed.
pub fn told_over(
    rt: &impl Abort,
    alloc: Global,
    keep: u32,
    failing: Failing,
    turns: &[Turn],
) -> Result<String, Fail> {
    let before = vec![in alloc; failing.before]?;
    let after = vec![in alloc; failing.after]?;
    let loads = vec![in alloc; failing.load]?;
    let mut keeper = MemHub::new(alloc, keep).with_failures(before, after, loads);
    let told = told(rt, alloc, &mut keeper, turns);
    drop(keeper);
    told
}
