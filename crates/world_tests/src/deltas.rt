//! Incremental synchronisations behind a whole one and the writes of another consumer: each of their exchanges is lost,
//! and each of their commits fails, and what they leave in the end is what a whole synchronisation leaves.

use crate::hubs::Fault::{CopyBefore, CopyBehind, Exchange, Nothing};
use crate::hubs::Place::{District, Other, Region};
use crate::hubs::{Hubs, Step, assert_alike, assert_steps, new_hubs};
use hub_words::statuses::{COPY_FAILED, DONE, INTERRUPTED, NO_BASE};
use std::alloc::Global;
use std::process::Abort;
use std::test::Fail;
use sync_world::Fate::{ReplyLost, RequestLost};

// The copy of the region is at version 2, and the other consumer makes version 4. The whole copy takes sixteen commits:
// of a run, a stage, a page of each kind and the swap.
#[rattlefmt::skip]
static BEGUN: [Step; 8] = [
    (District, Nothing, "publish sis=lake", DONE, "sis version 1\n"),
    (District, Nothing, "grant g.csv", DONE, "grants version 2\n"),
    (Region, Nothing, "sync tok-e 100 1", DONE, "complete 2\n"),
    (Region, Nothing, "delta tok-a 100 1", NO_BASE, "no base\n"),
    (Other, Nothing, "enter put categories c2 c2.json", DONE, "entered 1\n"),
    (Other, Nothing, "enter put lineItems li2 set.json", DONE, "entered 2\n"),
    (Other, Nothing, "send tok-e 1", DONE, "settled 2\n"),
    (Other, Nothing, "outbox", DONE, "1 201 3\n2 201 4\n"),
];

// What was gathered isn't asked for again.
#[rattlefmt::skip]
static LOST: [Step; 19] = [
    (Region, Exchange(RequestLost, 1), "delta tok-e 1 1", INTERRUPTED, "interrupted orgs 0\n"),
    (Region, Exchange(ReplyLost, 2), "delta tok-e 1 1", INTERRUPTED, "interrupted academicSessions 0\n"),
    (Region, Exchange(RequestLost, 2), "delta tok-e 1 1", INTERRUPTED, "interrupted courses 0\n"),
    (Region, Exchange(ReplyLost, 2), "delta tok-e 1 1", INTERRUPTED, "interrupted classes 0\n"),
    (Region, Exchange(RequestLost, 2), "delta tok-e 1 1", INTERRUPTED, "interrupted users 0\n"),
    (Region, Exchange(ReplyLost, 2), "delta tok-e 1 1", INTERRUPTED, "interrupted enrollments 0\n"),
    (Region, Exchange(RequestLost, 2), "delta tok-e 1 1", INTERRUPTED, "interrupted demographics 0\n"),
    (Region, Exchange(ReplyLost, 2), "delta tok-e 1 1", INTERRUPTED, "interrupted categories 0\n"),
    (Region, Exchange(RequestLost, 2), "delta tok-e 1 1", INTERRUPTED, "interrupted lineItems 0\n"),
    (Region, Exchange(ReplyLost, 2), "delta tok-e 1 1", INTERRUPTED, "interrupted results 0\n"),
    (Region, Exchange(RequestLost, 2), "delta tok-e 1 1", INTERRUPTED, "interrupted resources 0\n"),
    (Region, Exchange(ReplyLost, 2), "delta tok-e 1 1", INTERRUPTED, "interrupted classResources 0\n"),
    (Region, Exchange(RequestLost, 2), "delta tok-e 1 1", INTERRUPTED, "interrupted courseResources 0\n"),
    (Region, Nothing, "delta tok-e 1 1", DONE, "complete 4\n"),
    (Region, Nothing, "delta tok-e 1 1", DONE, "complete 4\n"),
    (District, Nothing, "publish sis=moved", DONE, "sis version 5\n"),
    (Region, Exchange(ReplyLost, 7), "delta tok-e 100 1", INTERRUPTED, "interrupted demographics 0\n"),
    (Region, Nothing, "sync tok-e 100 1", DONE, "complete 5\n"),
    (Other, Nothing, "sync tok-e 2 1", DONE, "complete 5\n"),
];

// Behind these steps the copies of the region and of the other consumer are alike.
fn assert_whole(
    rt: &impl Abort,
    alloc: Global,
    hubs: &mut Hubs,
    steps: &[Step],
) -> Result<(), Fail> {
    assert_steps(rt, alloc, hubs, &BEGUN)?;
    assert_steps(rt, alloc, hubs, steps)?;
    assert_alike(rt, alloc, hubs, Region, Other)
}

fn assert_worn(rt: &impl Abort, alloc: Global, steps: &[Step]) -> Result<(), Fail> {
    let mut hubs = new_hubs(alloc)?;
    let asserted = assert_whole(rt, alloc, &mut hubs, steps);
    drop(hubs);
    asserted
}

#[test]
fn each_exchange_is_lost(rt: HostRuntime) -> Result<(), Fail> {
    assert_worn(&rt, rt.alloc(), &LOST)
}

// A page that isn't kept is asked for again.
#[rattlefmt::skip]
static BEFORE: [Step; 18] = [
    (Region, CopyBefore(17), "delta tok-e 100 1", COPY_FAILED, "copy store failed\n"),
    (Region, CopyBefore(19), "delta tok-e 100 1", COPY_FAILED, "copy store failed\n"),
    (Region, CopyBefore(22), "delta tok-e 100 1", COPY_FAILED, "copy store failed\n"),
    (Region, CopyBefore(25), "delta tok-e 100 1", COPY_FAILED, "copy store failed\n"),
    (Region, CopyBefore(28), "delta tok-e 100 1", COPY_FAILED, "copy store failed\n"),
    (Region, CopyBefore(31), "delta tok-e 100 1", COPY_FAILED, "copy store failed\n"),
    (Region, CopyBefore(34), "delta tok-e 100 1", COPY_FAILED, "copy store failed\n"),
    (Region, CopyBefore(37), "delta tok-e 100 1", COPY_FAILED, "copy store failed\n"),
    (Region, CopyBefore(40), "delta tok-e 100 1", COPY_FAILED, "copy store failed\n"),
    (Region, CopyBefore(43), "delta tok-e 100 1", COPY_FAILED, "copy store failed\n"),
    (Region, CopyBefore(46), "delta tok-e 100 1", COPY_FAILED, "copy store failed\n"),
    (Region, CopyBefore(49), "delta tok-e 100 1", COPY_FAILED, "copy store failed\n"),
    (Region, CopyBefore(52), "delta tok-e 100 1", COPY_FAILED, "copy store failed\n"),
    (Region, CopyBefore(55), "delta tok-e 100 1", COPY_FAILED, "copy store failed\n"),
    (Region, CopyBefore(58), "delta tok-e 100 1", COPY_FAILED, "copy store failed\n"),
    (Region, CopyBefore(61), "delta tok-e 100 1", COPY_FAILED, "copy store failed\n"),
    (Region, Nothing, "delta tok-e 100 1", DONE, "complete 4\n"),
    (Other, Nothing, "sync tok-e 100 1", DONE, "complete 4\n"),
];

#[test]
fn each_commit_fails_before_it_acts(rt: HostRuntime) -> Result<(), Fail> {
    assert_worn(&rt, rt.alloc(), &BEFORE)
}

// Behind the swap the copy is whole.
#[rattlefmt::skip]
static BEHIND: [Step; 17] = [
    (Region, CopyBehind(17), "delta tok-e 100 1", COPY_FAILED, "copy store failed\n"),
    (Region, CopyBehind(19), "delta tok-e 100 1", COPY_FAILED, "copy store failed\n"),
    (Region, CopyBehind(21), "delta tok-e 100 1", COPY_FAILED, "copy store failed\n"),
    (Region, CopyBehind(23), "delta tok-e 100 1", COPY_FAILED, "copy store failed\n"),
    (Region, CopyBehind(25), "delta tok-e 100 1", COPY_FAILED, "copy store failed\n"),
    (Region, CopyBehind(27), "delta tok-e 100 1", COPY_FAILED, "copy store failed\n"),
    (Region, CopyBehind(29), "delta tok-e 100 1", COPY_FAILED, "copy store failed\n"),
    (Region, CopyBehind(31), "delta tok-e 100 1", COPY_FAILED, "copy store failed\n"),
    (Region, CopyBehind(33), "delta tok-e 100 1", COPY_FAILED, "copy store failed\n"),
    (Region, CopyBehind(35), "delta tok-e 100 1", COPY_FAILED, "copy store failed\n"),
    (Region, CopyBehind(37), "delta tok-e 100 1", COPY_FAILED, "copy store failed\n"),
    (Region, CopyBehind(39), "delta tok-e 100 1", COPY_FAILED, "copy store failed\n"),
    (Region, CopyBehind(41), "delta tok-e 100 1", COPY_FAILED, "copy store failed\n"),
    (Region, CopyBehind(43), "delta tok-e 100 1", COPY_FAILED, "copy store failed\n"),
    (Region, CopyBehind(45), "delta tok-e 100 1", COPY_FAILED, "copy store failed\n"),
    (Region, CopyBehind(47), "delta tok-e 100 1", COPY_FAILED, "copy store failed\n"),
    (Other, Nothing, "sync tok-e 100 1", DONE, "complete 4\n"),
];

#[test]
fn each_commit_fails_once_it_has_acted(rt: HostRuntime) -> Result<(), Fail> {
    assert_worn(&rt, rt.alloc(), &BEHIND)
}
