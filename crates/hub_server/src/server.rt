//! A server: its jobs run at once, each in a thread of its own where one can be made.

ghost use Rattle.std.specs.Prelude.{◌≡◌, ◌⊎◌, ◌<◌, ◌++◌, ◌∷◌, ℕ, IfOk, OnOk, [], false, length, slice_index_or};
ghost use Rattle.hub_core.specs.Standing.{KeeperFits};
ghost use Rattle.hub_server.specs.Endings.{or_else};
ghost use Rattle.hub_server.specs.Jobs.{service};
ghost use Rattle.hub_server.specs.Serving.{ComesBy, Ended, acceptors_in, acceptors_of, ending_in, ending_of_all};
ghost use Rattle.hub_server.specs.Serving.{feeds_in, folders_in, folders_of};
ghost use Rattle.hub_server.specs.declared.jobs.Job.{Job};
ghost use Rattle.hub_server.specs.declared.jobs.JobEnd.{JobEnd};
ghost use Rattle.hub_core.specs.declared.hub_error.HubError.TheVariants as errors;
ghost use Rattle.hub_server.specs.declared.ending.Ending.TheVariants as endings;
ghost use Rattle.keeper_memory.specs.Kept.{IsKept, KeptState};
ghost use Rattle.roster_base.specs.Faults.{Rose};

use crate::ending::Ending;
use crate::jobs::{AcceptorJob, Clerk, FeedJob, Job, JobEnd, Outside, Seats, Worker};
use crate::notices::Notices;
use crate::ports::{Doors, Ports};
use hub_core::{Hub, HubError};
use hub_history::{Naming, Opened};
use hub_shared::{ReadSeat, SharedHub};
use hub_words::{Feed, ServeTask};
use keeper_memory::HubKeeper;
use outside_ports::{Acceptor, Clock, Folder, Gate};
use roster_base::NoMemory;
use std::alloc::{AllocError, Global};
use std::marker::Brand;
use std::sync::{Mutex, Wait};
use std::thread::{Threads, map_vec};

/// How a server ended, and what was handed in, in its order. Where memory ran out both lists may be empty.
pub struct Served<H, A: Drop, F: Drop> {
    pub ending: Ending,
    pub keeper: H,
    pub doors: Doors<A, F>,
}

// The jobs of the feeds, each with its folder, numbered from 0.
fn feed_jobs<A: Drop, F: Drop>(
    alloc: Global,
    feeds: Vec<Feed>,
    folders: Vec<F>,
) -> Result<Vec<Job<A, F>>, NoMemory>
    requires { length feeds.items ≡ length folders.items }
    ensures feeds { IfOk result (λ jobs. feeds_in jobs.items ≡ feeds.items) }
    ensures folders { IfOk result (λ jobs. folders_in jobs.items ≡ folders.items) }
    ensures acceptors { IfOk result (λ jobs. acceptors_in jobs.items ≡ []) }
{
    let mut jobs = Vec::new(alloc);
    let mut number: u32 = 0;
    let mut folders = folders.into_iter();
    for feed in feeds {
        // Each feed has its folder.
        let Some(folder) = folders.next() else {
            return Err(NoMemory);
        };
        jobs.push(Job::Feed(FeedJob {
            number,
            feed,
            folder,
        }))?;
        number = number.saturating_add(1);
    }
    Ok(jobs)
}

// Adds the jobs of the acceptors, numbered behind the feeds.
fn add_acceptors<A: Drop, F: Drop>(
    jobs: &mut Vec<Job<A, F>>,
    acceptors: Vec<A>,
) -> Result<(), NoMemory>
    requires { acceptors_in jobs.old.items ≡ [] }
    ensures feeds { OnOk result (feeds_in jobs.new.items ≡ feeds_in jobs.old.items) }
    ensures folders { OnOk result (folders_in jobs.new.items ≡ folders_in jobs.old.items) }
    ensures acceptors { OnOk result (acceptors_in jobs.new.items ≡ acceptors.items) }
{
    let mut number = u32::try_from(jobs.len()).unwrap_or(u32::MAX);
    for acceptor in acceptors {
        jobs.push(Job::Acceptor(AcceptorJob { number, acceptor }))?;
        number = number.saturating_add(1);
    }
    Ok(())
}

// All jobs, the feeds first.
fn jobs_of<A: Drop, F: Drop>(
    alloc: Global,
    feeds: Vec<Feed>,
    doors: Doors<A, F>,
) -> Result<Vec<Job<A, F>>, NoMemory>
    requires { length feeds.items ≡ length doors.folders.items }
    ensures feeds { IfOk result (λ jobs. feeds_in jobs.items ≡ feeds.items) }
    ensures folders { IfOk result (λ jobs. folders_in jobs.items ≡ doors.folders.items) }
    ensures acceptors { IfOk result (λ jobs. acceptors_in jobs.items ≡ doors.acceptors.items) }
{
    let Doors { acceptors, folders } = doors;
    let mut jobs = feed_jobs(alloc, feeds, folders)?;
    add_acceptors(&mut jobs, acceptors)?;
    Ok(jobs)
}

// `count` seats, or as many as there are places.
fn seats_of<H: HubKeeper, N: Naming>(
    alloc: Global,
    shared: &mut SharedHub<H, N>,
    count: usize,
) -> Result<Vec<ReadSeat<N>>, NoMemory> {
    let mut seats = Vec::new(alloc);
    for _ in 0..count {
        if let Ok(seat) = shared.place() {
            seats.push(seat)?;
        }
    }
    Ok(seats)
}

// Runs jobs at once, each in a thread of its own where one can be made.
fn run_all<
    R: Threads + Sync,
    S: Sync,
    Q: Sync,
    C: Sync,
    A: Drop + Send,
    F: Drop + Send,
    W: Worker<S, Q, C, A, F> + Sync,
>(
    rt: &R,
    worker: &W,
    shared: &S,
    seats: &Q,
    outside: &C,
    jobs: Vec<Job<A, F>>,
) -> Result<Vec<JobEnd<A, F>>, AllocError>
    ensures len { IfOk result (λ ends. length ends.items ≡ length jobs.items) }
    ensures each { IfOk result (λ ends. (i : ℕ) (d : Job A F) (e : JobEnd A F) → i < length jobs.items → W.does outside.now (slice_index_or jobs.items i d) (slice_index_or ends.items i e)) }
{
    map_vec(rt, jobs, &|job| worker.run(shared, seats, outside, job))
}

// What the jobs gave back.
#[derive(Drop)]
struct Results<A: Drop, F: Drop> {
    ending: Ending,
    doors: Doors<A, F>,
}

// Puts what a job gave back behind what others gave.
fn put_back<A: Drop, F: Drop>(
    results: &mut Results<A, F>,
    end: JobEnd<A, F>,
) -> Result<(), NoMemory>
    ensures ending { OnOk result (results.new.ending ≡ or_else results.old.ending (ending_in end)) }
    ensures acceptors { OnOk result (results.new.doors.acceptors.items ≡ results.old.doors.acceptors.items ++ acceptors_of (end ∷ [])) }
    ensures folders { OnOk result (results.new.doors.folders.items ≡ results.old.doors.folders.items ++ folders_of (end ∷ [])) }
{
    let ending = match end {
        JobEnd::Feed(folder, ending) => {
            results.doors.folders.push(folder)?;
            ending
        }
        JobEnd::Acceptor(acceptor, ending) => {
            results.doors.acceptors.push(acceptor)?;
            ending
        }
    };
    results.ending = results.ending.or(ending);
    Ok(())
}

// What jobs gave back, in order, and the first of their endings that isn't Done.
fn results_of<A: Drop, F: Drop>(
    alloc: Global,
    ends: Vec<JobEnd<A, F>>,
) -> Result<Results<A, F>, NoMemory>
    ensures ending { IfOk result (λ r. r.ending ≡ ending_of_all ends.items) }
    ensures acceptors { IfOk result (λ r. r.doors.acceptors.items ≡ acceptors_of ends.items) }
    ensures folders { IfOk result (λ r. r.doors.folders.items ≡ folders_of ends.items) }
{
    let mut results = Results {
        ending: Ending::Done,
        doors: Doors::none(alloc),
    };
    for end in ends {
        put_back(&mut results, end)?;
    }
    Ok(results)
}

// Runs jobs at once, and gathers what they give back.
fn do_all<
    N: Naming + Send + Sync,
    R: Threads + Wait + Sync,
    A: Acceptor + Drop + Send,
    F: Folder + Drop + Send,
    H: HubKeeper + Send,
    K: Clock + Sync,
    G: Gate + Sync,
    T: Notices + Sync,
>(
    shared: &SharedHub<H, N>,
    seats: &Seats<N>,
    outside: &Outside<'_, R, K, G, T>,
    jobs: Vec<Job<A, F>>,
) -> Result<Results<A, F>, NoMemory>
where
    A::Input: Send,
    A::Output: Send,
    ensures { IfOk result (λ r. Ended
        (service A.given_count A.fault_count F.files F.faults N.opening outside.now.connections) (feeds_in jobs.items)
        (folders_in jobs.items) r.doors.folders.items (acceptors_in jobs.items) r.doors.acceptors.items r.ending) }
{
    let ends = run_all(outside.ports.rt, &Clerk, shared, seats, outside, jobs)?;
    results_of(outside.ports.alloc, ends)
}

// Feeds and serves over a hub that threads share.
fn serve_shared_hub<
    'x,
    N: Naming + Send + Sync,
    R: Threads + Wait + Sync,
    A: Acceptor + Drop + Send,
    F: Folder + Drop + Send,
    H: HubKeeper + Send,
    K: Clock + Sync,
    G: Gate + Sync,
    T: Notices + Sync,
>(
    ports: &'x Ports<'x, R, K, G, T>,
    shared: &mut SharedHub<H, N>,
    task: ServeTask,
    doors: Doors<A, F>,
) -> Result<Results<A, F>, NoMemory>
where
    A::Input: Send,
    A::Output: Send,
    requires { length task.feeds ≡ length doors.folders.items }
    ensures { IfOk result (λ r. Ended
        (service A.given_count A.fault_count F.files F.faults N.opening task.connections) task.feeds doors.folders.items
        r.doors.folders.items doors.acceptors.items r.doors.acceptors.items r.ending) }
{
    let ServeTask {
        connections,
        addresses,
        feeds,
    } = task;
    drop(addresses);
    let seats = Mutex::new(seats_of(ports.alloc, shared, doors.acceptors.len())?);
    let jobs = jobs_of(ports.alloc, feeds.into_vec(), doors)?;
    let outside = Outside { ports, connections };
    do_all(shared, &seats, &outside, jobs)
}

// The ending, but want of memory in place of a failure of the keeper that its count doesn't tell. There is no such
// failure, since the keeper counts each.
fn ending_by_count(ending: Ending, before: u64, now: u64) -> Ending
    ensures told { result ≡ endings.KeeperFailed → Rose before now }
    ensures same { (result ≡ ending) ⊎ (result ≡ endings.NoMemory) }
{
    if ending == Ending::KeeperFailed && now <= before && now < u64::MAX {
        return Ending::NoMemory;
    }
    ending
}

// Serves a hub that was opened, under a name.
fn serve_opened<
    N: Naming + Send + Sync,
    R: Threads + Wait + Sync,
    A: Acceptor + Drop + Send,
    F: Folder + Drop + Send,
    H: HubKeeper + Send,
    K: Clock + Sync,
    G: Gate + Sync,
    T: Notices + Sync,
>(
    ports: &Ports<'_, R, K, G, T>,
    opened: Opened,
    hub: Hub,
    keeper: H,
    task: ServeTask,
    doors: Doors<A, F>,
) -> Served<H, A, F>
where
    A::Input: Send,
    A::Output: Send,
    requires fits { KeeperFits (H.stands_for keeper) hub }
    requires settled { hub.commit_open ≡ false }
    requires named { (opened.seen.book ≡ N.book) × (hub.kept ≡ N.opening) × (H.fault_count keeper ≡ N.count) }
    requires stood { (kept : KeptState) → H.stands_for keeper kept → N.stood kept }
    requires feeds { length task.feeds ≡ length doors.folders.items }
    ensures ended { Ended (service A.given_count A.fault_count F.files F.faults N.opening task.connections)
        task.feeds doors.folders.items result.doors.folders.items doors.acceptors.items result.doors.acceptors.items
        result.ending }
    ensures keeper_failed { result.ending ≡ endings.KeeperFailed → Rose N.count (H.fault_count result.keeper) }
    ensures kept { (now : KeptState) → H.stands_for result.keeper now → N.stood N.opening × ComesBy N.opening now }
{
    let before = keeper.faults();
    let alloc = ports.alloc;
    let places = u32::try_from(doors.acceptors.len())
        .unwrap_or(u32::MAX)
        .max(1);
    let mut shared: SharedHub<H, N> = match SharedHub::open(alloc, opened, hub, keeper, places) {
        Ok(shared) => shared,
        Err((NoMemory, keeper)) => {
            return Served {
                ending: Ending::NoMemory,
                keeper,
                doors,
            };
        }
    };
    let results = serve_shared_hub(ports, &mut shared, task, doors);
    let keeper = shared.close(ports.rt);
    match results {
        Ok(Results { ending, doors }) => Served {
            ending: ending_by_count(ending, before, keeper.faults()),
            keeper,
            doors,
        },
        Err(NoMemory) => Served {
            ending: Ending::NoMemory,
            keeper,
            doors: Doors::none(alloc),
        },
    }
}

// The ending where the hub couldn't be opened.
fn ending_unopened(error: HubError) -> Ending
    ensures one { (result ≡ endings.KeeperFailed) ⊎ (result ≡ endings.NoMemory) }
    ensures keeper { result ≡ endings.KeeperFailed → error ≡ errors.Keeper }
{
    match error {
        HubError::Keeper => Ending::KeeperFailed,
        HubError::NoMemory | HubError::Refused(_) => Ending::NoMemory,
    }
}

/// Serves the hub that a keeper keeps: for each acceptor the stated number of connections, one after another, and
/// beside them the set of each feed, published once. The ending is the first of the jobs' that isn't Done, feeds before
/// acceptors.
pub fn serve_task<
    R: Threads + Wait + Sync,
    A: Acceptor + Drop + Send,
    F: Folder + Drop + Send,
    H: HubKeeper + Send,
    K: Clock + Sync,
    G: Gate + Sync,
    T: Notices + Sync,
>(ports: &Ports<'_, R, K, G, T>, task: ServeTask, doors: Doors<A, F>, keeper: H) -> Served<H, A, F>
where
    A::Input: Send,
    A::Output: Send,
    requires { length task.feeds ≡ length doors.folders.items }
    // What the ending says, of a hub that was opened at some state.
    ensures ended { (opening : KeptState) × IsKept opening × Ended
        (service A.given_count A.fault_count F.files F.faults opening task.connections) task.feeds doors.folders.items
        result.doors.folders.items doors.acceptors.items result.doors.acceptors.items result.ending }
    ensures keeper_failed { result.ending ≡ endings.KeeperFailed → Rose (H.fault_count keeper) (H.fault_count result.keeper) }
    // Whatever the ending is, the keeper stands for a state at entry with a history applied.
    ensures kept { (now : KeptState) → H.stands_for result.keeper now → (stood : KeptState) × H.stands_for keeper stood × ComesBy stood now }
{
    let mut keeper = keeper;
    match Hub::open(ports.alloc, &mut keeper) {
        Ok(hub) => serve_opened::<Brand, R, A, F, H, K, G, T>(
            ports,
            Opened::new(),
            hub,
            keeper,
            task,
            doors,
        ),
        Err(error) => {
            drop(task);
            Served {
                ending: ending_unopened(error),
                keeper,
                doors,
            }
        }
    }
}
