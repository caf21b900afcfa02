//! The jobs of a server: each feeds a set, or serves the connections of an acceptor.

ghost use Rattle.std.specs.Prelude.{◌≡◌};
ghost use Rattle.hub_server.specs.Jobs.{Does, Feeds, IsUndone, ServesAll, counts, service};
ghost use Rattle.hub_server.specs.Jobs as jobs;

use crate::ending::Ending;
use crate::notices::Notices;
use crate::ports::Ports;
use csv_sets::SetFault;
use hub_core::HubError;
use hub_history::Naming;
use hub_shared::{Desk, FeedEnd, ReadSeat, SharedHub, feed_shared, serve_shared};
use hub_words::Feed;
use keeper_memory::HubKeeper;
use outside_ports::{Acceptor, Clock, Folder, Gate, IoError};
use rest_paths::PathRouter;
use roster_base::Refusal;
use std::sync::{Mutex, Wait};

/// A feed, whose set is published once.
#[derive(Drop)]
pub struct FeedJob<F: Drop> {
    pub number: u32,
    pub feed: Feed,
    pub folder: F,
}

/// An acceptor, whose connections are served one after another.
#[derive(Drop)]
pub struct AcceptorJob<A: Drop> {
    pub number: u32,
    pub acceptor: A,
}

/// A job of a server.
#[derive(Drop)]
pub enum Job<A: Drop, F: Drop> {
    Feed(FeedJob<F>),
    Acceptor(AcceptorJob<A>),
}

impl<A: Drop, F: Drop> Job<A, F> {
    // Its number.
    fn number(&self) -> u32 {
        match self {
            Job::Feed(job) => job.number,
            Job::Acceptor(job) => job.number,
        }
    }
}

/// What a job gives back, and how it ended.
#[derive(Drop)]
pub enum JobEnd<A: Drop, F: Drop> {
    Feed(F, Ending),
    Acceptor(A, Ending),
}

/// The seats that are free. An acceptor's job takes one, if one is left.
pub type Seats<N> = Mutex<Vec<ReadSeat<N>>>;

/// What the jobs of a server work with, beside the hub and the seats that are free.
#[derive(Drop)]
pub struct Outside<'a, R: Wait, K: Clock, G: Gate, T: Notices> {
    pub ports: &'a Ports<'a, R, K, G, T>,
    /// How many connections each acceptor serves.
    pub connections: u32,
}

// The ending that the end of a feed brings.
fn ending_of(end: &FeedEnd) -> Ending
    ensures { result ≡ jobs.ending_of end.now }
{
    match end {
        FeedEnd::Published(_) => Ending::Done,
        FeedEnd::Set(Refusal::Fault(SetFault::Folder)) => Ending::FolderFailed,
        FeedEnd::Set(Refusal::Fault(_)) | FeedEnd::Hub(HubError::Refused(_)) => Ending::Refused,
        FeedEnd::Hub(HubError::Keeper) => Ending::KeeperFailed,
        FeedEnd::Set(Refusal::NoMemory) | FeedEnd::Hub(HubError::NoMemory) => Ending::NoMemory,
    }
}

// Publishes the set of a feed, and gives its folder back.
fn feed<H: HubKeeper, N: Naming, R: Wait, K: Clock, G: Gate, F: Folder + Drop, T: Notices>(
    desk: &Desk<'_, H, N, R, K, G>,
    feed: &Feed,
    folder: F,
    notices: &T,
) -> (F, Ending)
    ensures { Feeds N.opening (F.files folder) (F.faults folder) (F.faults result.0) feed.now result.1 }
{
    let mut folder = folder;
    let mut turn: u64 = 0;
    let (end, receipt) = feed_shared(desk, &mut turn, &mut folder, feed.dir.as_str(), &feed.name);
    drop(receipt);
    let ending = ending_of(&end);
    notices.fed(&feed.name, end);
    (folder, ending)
}

// Serves so many connections of an acceptor, one after another. However one ends, it ends itself alone.
fn serve_connections<H: HubKeeper, N: Naming, R: Wait, K: Clock, G: Gate, A: Acceptor>(
    desk: &Desk<'_, H, N, R, K, G>,
    seat: &mut Option<ReadSeat<N>>,
    acceptor: &mut A,
    connections: u32,
) -> Ending
    ensures { ServesAll connections (counts (A.given_count acceptor.old) (A.fault_count acceptor.old))
        (counts (A.given_count acceptor.new) (A.fault_count acceptor.new)) result }
{
    let mut turn: u64 = 0;
    for _ in 0..connections {
        let (mut source, mut sink) = match acceptor.next(desk.alloc) {
            Ok(ends) => ends,
            Err(IoError::Failed) => return Ending::AcceptorFailed,
            Err(IoError::NoMemory) => return Ending::NoMemory,
        };
        let _ = serve_shared(desk, seat, &mut turn, &mut source, &mut sink);
        drop(source);
        drop(sink);
    }
    Ending::Done
}

// Serves the connections of an acceptor, by a seat if one is left, and gives it back.
fn serve<H: HubKeeper, N: Naming, R: Wait, K: Clock, G: Gate, A: Acceptor + Drop>(
    desk: &Desk<'_, H, N, R, K, G>,
    seats: &Seats<N>,
    acceptor: A,
    connections: u32,
) -> (A, Ending)
    ensures { ServesAll connections (counts (A.given_count acceptor) (A.fault_count acceptor))
        (counts (A.given_count result.0) (A.fault_count result.0)) result.1 }
{
    let mut acceptor = acceptor;
    let mut seat = seats.lock(desk.rt).pop();
    let ending = serve_connections(desk, &mut seat, &mut acceptor, connections);
    drop(seat);
    (acceptor, ending)
}

/// Does jobs, in any thread. What it works with goes in with each, since a type that holds all of it is too large for
/// the proof that threads may share it.
pub trait Worker<S, Q, C, A: Drop, F: Drop> {
    ghost use Rattle.hub_server.specs.declared.jobs.Job.{Job};
    ghost use Rattle.hub_server.specs.declared.jobs.JobEnd.{JobEnd};

    /// What it does of a job, and gives back.
    ghost does: { C → Job A F → JobEnd A F → Type 0 };

    fn run(&self, shared: &S, seats: &Q, outside: &C, job: Job<A, F>) -> JobEnd<A, F>
        ensures { does outside.now job result };
}

/// The worker of a server.
pub struct Clerk;

impl<
    'a,
    H: HubKeeper,
    N: Naming,
    R: Wait,
    A: Acceptor + Drop,
    F: Folder + Drop,
    K: Clock,
    G: Gate,
    T: Notices,
> Worker<SharedHub<H, N>, Seats<N>, Outside<'a, R, K, G, T>, A, F> for Clerk {
    ghost use Rattle.hub_server.specs.Jobs.{Does, service};

    ghost does = { λ outside. Does
        (service A.given_count A.fault_count F.files F.faults N.opening outside.connections) };

    fn run(
        &self,
        shared: &SharedHub<H, N>,
        seats: &Seats<N>,
        outside: &Outside<'a, R, K, G, T>,
        job: Job<A, F>,
    ) -> JobEnd<A, F>
        ensures { Does (service A.given_count A.fault_count F.files F.faults N.opening outside.now.connections)
            job result }
    {
        let Ok(router) = PathRouter::new(outside.ports.alloc) else {
            return undone(job);
        };
        let end = do_job(shared, seats, outside, &router, job);
        drop(router);
        end
    }
}

// What a job gives back for which memory ran out at once.
fn undone<A: Drop, F: Drop>(job: Job<A, F>) -> JobEnd<A, F>
    ensures { IsUndone job result }
{
    match job {
        Job::Feed(
            FeedJob {
                number: _,
                feed,
                folder,
            },
        ) => {
            drop(feed);
            JobEnd::Feed(folder, Ending::NoMemory)
        }
        Job::Acceptor(
            AcceptorJob {
                number: _,
                acceptor,
            },
        ) => JobEnd::Acceptor(acceptor, Ending::NoMemory),
    }
}

// Does a job with a router.
fn do_job<
    'x,
    H: HubKeeper,
    N: Naming,
    R: Wait,
    A: Acceptor + Drop,
    F: Folder + Drop,
    K: Clock,
    G: Gate,
    T: Notices,
>(
    shared: &'x SharedHub<H, N>,
    seats: &Seats<N>,
    outside: &'x Outside<'x, R, K, G, T>,
    router: &'x PathRouter,
    job: Job<A, F>,
) -> JobEnd<A, F>
    ensures { Does (service A.given_count A.fault_count F.files F.faults N.opening outside.now.connections)
        job result }
{
    let ports = outside.ports;
    let desk = Desk {
        rt: ports.rt,
        alloc: ports.alloc,
        router,
        shared,
        clock: ports.clock,
        gate: ports.gate,
        job: job.number(),
    };
    match job {
        Job::Feed(
            FeedJob {
                number: _,
                feed: job_feed,
                folder,
            },
        ) => {
            let (folder, ending) = feed(&desk, &job_feed, folder, ports.notices);
            JobEnd::Feed(folder, ending)
        }
        Job::Acceptor(
            AcceptorJob {
                number: _,
                acceptor,
            },
        ) => {
            let (acceptor, ending) = serve(&desk, seats, acceptor, outside.connections);
            JobEnd::Acceptor(acceptor, ending)
        }
    }
}
