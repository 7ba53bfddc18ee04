//! Backends and workers side by side, in threads of their own: a run, or one round.
ghost use Rattle.std.specs.Prelude.{◌<◌, vec_capacity};
ghost use Rattle.std.specs.List.{All};
ghost use Rattle.std.specs.Thread.{IsSync};
ghost use Rattle.scan_rounds.specs.DiskActors.{WorkerMayServe, WorkerServed};
ghost use Rattle.scan_rounds.specs.Progress.{BackendsMadeRound, BackendsMayMakeRound};
ghost use Rattle.scan_rounds.specs.Progress.{IsClosedByFirst};
ghost use Rattle.scan_rounds.specs.Rounds.{AllWorkersServed};
ghost use Rattle.scan_jobs.specs.BlockFilter.{filter_of_skipping};
ghost use Rattle.scan_rounds.specs.RunLeads.{MayLeadRun, RunLed};
ghost use Rattle.scan_rounds.specs.Shares.{AreTermsOf};

use crate::backend::Backend;
use crate::counts::Counts;
use crate::exchange::RunProgress;
use crate::lead::lead_run;
use crate::rounds::make_round;
use crate::servers::serve_all;
use crate::share::{ShareClient, ShareHandoff};
use crate::shared::SharedState;
use crate::worker::Worker;
use aio_disk::Disk;
use page_check::World;
use scan_jobs::{Job, JobSource, MapFilter};
use std::sync::Wait;
use std::thread;
use std::thread::Threads;

/// As many threads as a scan has workers at most: each worker has one of its own.
const WORKER_THREADS: usize = 32;

/// No thread but the caller's, where the queue is closed already: the workers execute what is left.
pub(crate) const CALLER_THREAD: usize = 1;

fn serve_one<W: World, D: Disk, R: Wait>(rt: &R, shared: &SharedState<W>, worker: &mut Worker<W, D>)
    requires may { WorkerMayServe D.Disk W.World shared.now.table shared.now.queue worker.old }
    ensures workers_served { WorkerServed D.Disk W.World shared.now.table
        shared.now.queue worker.old worker.new }
{
    worker.run(rt, shared);
}

/// Each worker serves the queue until it is closed and empty, in at most so many threads.
pub(crate) fn run_workers<W: World + Send + Sync, D: Disk, R: Threads + Wait + Sync>(
    rt: &R,
    shared: &SharedState<W>,
    workers: &mut [Worker<W, D>],
    threads: usize,
)
    requires threads { 0 < threads }
    requires may { All (WorkerMayServe D.Disk W.World shared.now.table shared.now.queue)
        workers.old }
    ensures workers_served { AllWorkersServed D.Disk W.World shared.now.table
        shared.now.queue workers.old workers.new }
{
    thread::for_each_mut(
        rt,
        workers,
        threads,
        &|_, worker: &mut Worker<W, D>|
            requires { WorkerMayServe D.Disk W.World shared.now.table shared.now.queue worker.old }
            ensures { WorkerServed D.Disk W.World shared.entry.now.table
                shared.entry.now.queue worker.old worker.new }
        { serve_one(rt, shared, worker) },
    );
}

// Serves a run: the workers serve the queue, and each backend has a server for its shares. A
// backend alone has none: the caller's thread lists its shares, since nobody else takes them. The
// workers have a lifetime of their own, since the borrow checker takes no mutable borrow at that of
// the filter.
fn serve_run<'a, 'b, W: World + Send + Sync, D: Disk, R: Threads + Wait + Sync>(
    rt: &'a R,
    shared: &'a SharedState<W>,
    by_map: &'a Option<MapFilter<'a>>,
    workers: &'b mut [Worker<W, D>],
    handoffs: &'a [ShareHandoff<W, D>],
)
    requires serve { All (WorkerMayServe D.Disk W.World shared.now.table
        shared.now.queue) workers.old }
    requires terms { All (λ h. AreTermsOf h.key shared.now (filter_of_skipping by_map.now))
        handoffs.now }
    ensures workers_served { AllWorkersServed D.Disk W.World shared.now.table
        shared.now.queue workers.old workers.new }
{
    if handoffs.len() == 1 {
        run_workers(rt, shared, workers, WORKER_THREADS);
        return;
    }
    if workers.is_empty() {
        serve_all(rt, shared, by_map, handoffs);
        return;
    }
    let mut work = ||
        requires { IsSync R.row × All (WorkerMayServe D.Disk W.World shared.now.table
            shared.now.queue) workers.now }
        ensures { AllWorkersServed D.Disk W.World shared.entry.now.table
            shared.entry.now.queue workers.entry.now workers.exit.now }
    { run_workers(rt, shared, workers, WORKER_THREADS) };
    let mut serve = ||
        requires { IsSync R.row × All (λ h. AreTermsOf h.key shared.now
            (filter_of_skipping by_map.now)) handoffs.now }
    { serve_all(rt, shared, by_map, handoffs) };
    thread::join_mut(rt, &mut work, &mut serve);
}

// The run beside its servers and workers. Where no thread can be made, `join_mut` calls its first
// closure last: so these stand first, and then find the queue and the handoffs closed. What the
// closures hold has one lifetime, but for the workers, since the borrow checker takes no two in
// closures that name the same `W`.
fn lead_beside<'a, 'b, W: World + Send + Sync, D: Disk, R: Threads + Wait + Sync, A: JobSource<W>>(
    rt: &'a R,
    shared: &'a SharedState<W>,
    by_map: &'a Option<MapFilter<'a>>,
    workers: &'b mut [Worker<W, D>],
    handoffs: &'a [ShareHandoff<W, D>],
    clients: &'a mut [ShareClient<W, D>],
    backends: &'a mut Vec<Backend<W, D>>,
    progress: &'a mut RunProgress<A>,
)
    requires serve { All (WorkerMayServe D.Disk W.World shared.now.table
        shared.now.queue) workers.old }
    requires may { MayLeadRun D.Disk W.World A.JobSource shared.now (filter_of_skipping by_map.now)
        handoffs.now clients.old backends.old.items (vec_capacity backends.old) progress.old }
    ensures workers_served { AllWorkersServed D.Disk W.World shared.now.table
        shared.now.queue workers.old workers.new }
    ensures led { RunLed D.Disk W.World A.JobSource shared.now.table shared.now.queue clients.old
        backends.new.items progress.old progress.new }
{
    let mut serve = ||
        requires { IsSync R.row × All (WorkerMayServe D.Disk W.World shared.now.table
            shared.now.queue) workers.now × All (λ h. AreTermsOf h.key shared.now
            (filter_of_skipping by_map.now)) handoffs.now }
        ensures { AllWorkersServed D.Disk W.World shared.entry.now.table
            shared.entry.now.queue workers.entry.now workers.exit.now }
    { serve_run(rt, shared, by_map, workers, handoffs) };
    let mut lead = ||
        requires { IsSync R.row × MayLeadRun D.Disk W.World A.JobSource shared.now
            (filter_of_skipping by_map.now) handoffs.now clients.now backends.now.items
            (vec_capacity backends.now) progress.now }
        ensures { RunLed D.Disk W.World A.JobSource shared.entry.now.table
            shared.entry.now.queue clients.entry.now backends.exit.now.items progress.entry.now
            progress.exit.now }
    { lead_run(rt, shared, *by_map, handoffs, clients, backends, progress) };
    thread::join_mut(rt, &mut serve, &mut lead);
}

/// The run beside its servers and workers, where it has some.
pub(crate) fn run_beside<
    W: World + Send + Sync,
    D: Disk,
    R: Threads + Wait + Sync,
    A: JobSource<W>,
>(
    rt: &R,
    shared: &SharedState<W>,
    by_map: Option<MapFilter<'_>>,
    workers: &mut [Worker<W, D>],
    handoffs: &[ShareHandoff<W, D>],
    clients: &mut [ShareClient<W, D>],
    backends: &mut Vec<Backend<W, D>>,
    progress: &mut RunProgress<A>,
)
    requires serve { All (WorkerMayServe D.Disk W.World shared.now.table
        shared.now.queue) workers.old }
    requires may { MayLeadRun D.Disk W.World A.JobSource shared.now (filter_of_skipping by_map)
        handoffs.now clients.old backends.old.items (vec_capacity backends.old) progress.old }
    ensures workers_served { AllWorkersServed D.Disk W.World shared.now.table
        shared.now.queue workers.old workers.new }
    ensures led { RunLed D.Disk W.World A.JobSource shared.now.table shared.now.queue clients.old
        backends.new.items progress.old progress.new }
{
    if workers.is_empty() && handoffs.len() == 1 {
        lead_run(rt, shared, by_map, handoffs, clients, backends, progress);
        return;
    }
    // The filter is lent again, for as long as the closures are.
    lead_beside(
        rt, shared, &by_map, workers, handoffs, clients, backends, progress,
    );
}

/// One round beside the workers, which stand first as in `run_beside`.
pub(crate) fn round_beside<'a, W: World + Send + Sync, D: Disk, R: Threads + Wait + Sync>(
    rt: &'a R,
    shared: &'a SharedState<W>,
    by_map: Option<MapFilter<'a>>,
    workers: &'a mut [Worker<W, D>],
    backends: &'a mut [Backend<W, D>],
    jobs: &'a mut [Job],
    counts: &'a mut Counts,
)
    requires serve { All (WorkerMayServe D.Disk W.World shared.now.table
        shared.now.queue) workers.old }
    requires may { BackendsMayMakeRound D.Disk W.World shared.now.table shared.now.queue
        backends.old jobs.old counts.old }
    ensures workers_served { AllWorkersServed D.Disk W.World shared.now.table
        shared.now.queue workers.old workers.new }
    ensures made { BackendsMadeRound D.Disk W.World shared.now.table shared.now.queue
        (filter_of_skipping by_map.entry) backends.old backends.new jobs.old jobs.new counts.old
        counts.new }
    ensures closed { IsClosedByFirst shared.now.queue backends.new }
{
    let mut serve = ||
        requires { IsSync R.row × All (WorkerMayServe D.Disk W.World shared.now.table
            shared.now.queue) workers.now }
        ensures { AllWorkersServed D.Disk W.World shared.entry.now.table
            shared.entry.now.queue workers.entry.now workers.exit.now }
    { run_workers(rt, shared, workers, WORKER_THREADS) };
    let mut round = ||
        requires { IsSync R.row × BackendsMayMakeRound D.Disk W.World shared.now.table
            shared.now.queue backends.now jobs.now counts.now }
        ensures { BackendsMadeRound D.Disk W.World shared.entry.now.table
            shared.entry.now.queue (filter_of_skipping by_map.entry) backends.entry.now
            backends.exit.now jobs.entry.now jobs.exit.now counts.entry.now counts.exit.now
            × IsClosedByFirst shared.entry.now.queue backends.exit.now }
    { make_round(rt, shared, by_map, backends, jobs, counts) };
    thread::join_mut(rt, &mut serve, &mut round);
}
