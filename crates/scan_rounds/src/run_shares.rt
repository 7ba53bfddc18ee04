//! A whole run: by shares in threads, or without memory for them.
ghost use Rattle.std.specs.Prelude.{◌≤◌, ◌<◌, ℕ, length, List, Option};
ghost use Rattle.std.specs.List.{All};
ghost use Rattle.scan_jobs.specs.BlockFilter.{BlockFilter, filter_of_skipping};
ghost use Rattle.scan_rounds.specs.DiskActors.{WorkerMayServe};
ghost use Rattle.scan_rounds.specs.Exchanges.{ClientsHold, MayExchange, SharesAdvanced};
ghost use Rattle.scan_rounds.specs.RunLeads.{BackendsMayRun, BackendsRan, IsRunMemory};
ghost use Rattle.scan_rounds.specs.RunLeads.{JobsRefused};
ghost use Rattle.scan_rounds.specs.Rounds.{AllWorkersServed};
ghost use Rattle.scan_rounds.specs.Shares.{AreTermsOf};
ghost use Rattle.scan_rounds.specs.declared.share.RunTerms.{RunTerms};
ghost use Rattle.scan_rounds.specs.declared.share.Share.{Share};

use crate::backend::Backend;
use crate::beside::{CALLER_THREAD, run_beside, run_workers};
use crate::exchange::{Phase, RunProgress, exchange_all};
use crate::lead::{give_out_backends, lead_run};
use crate::rounds::close_queue;
use crate::run_memory::{RunMemory, share_places};
use crate::share::{RunTerms, ShareClient, ShareHandoff};
use crate::shared::SharedState;
use crate::worker::Worker;
use aio_disk::Disk;
use page_check::World;
use scan_jobs::{Ending, Job, JobSource, MapFilter};
use std::alloc::Global;
use std::sync::Wait;
use std::thread::Threads;

// The first job of each backend. Where they ask for one block in all, it is listed here, and the
// next jobs are asked for. Whether some are out then.
fn begin_shares<W: World, D: Disk, R: Wait, A: JobSource<W>>(
    rt: &R,
    shared: &SharedState<W>,
    by_map: Option<MapFilter<'_>>,
    handoffs: &[ShareHandoff<W, D>],
    clients: &mut [ShareClient<W, D>],
    progress: &mut RunProgress<A>,
) -> bool
    requires may { MayExchange D.Disk W.World A.JobSource shared.now (filter_of_skipping by_map)
        handoffs.now clients.old progress.old }
    ensures may { MayExchange D.Disk W.World A.JobSource shared.now
        (filter_of_skipping by_map.entry) handoffs.now clients.new progress.new }
    ensures begun { (ss : List (Share W D)) → ClientsHold clients.old ss
        → (rs : List (Share W D)) × ClientsHold clients.new rs
        × SharesAdvanced D.Disk W.World shared.now.table shared.now.queue A.JobSource ss rs
        progress.old progress.new }
{
    let given = exchange_all(rt, shared, by_map, handoffs, clients, 1, progress);
    if given != 1 {
        return given > 0;
    }
    exchange_all(rt, shared, by_map, handoffs, clients, 1, progress) > 0
}

// All jobs of a job source, by shares. The answer is the job source, and how many jobs have ended
// in Unread then.
fn run_shares<W: World + Send + Sync, D: Disk, R: Threads + Wait + Sync, A: JobSource<W>>(
    rt: &R,
    shared: &SharedState<W>,
    by_map: Option<MapFilter<'_>>,
    workers: &mut [Worker<W, D>],
    backends: &mut Vec<Backend<W, D>>,
    memory: RunMemory<W, D>,
    job_source: A,
    unread: u64,
) -> (A, u64)
    requires serve { All (WorkerMayServe D.Disk W.World shared.now.table
        shared.now.queue) workers.old }
    requires may { BackendsMayRun D.Disk W.World A.JobSource shared.now.table shared.now.queue
        (filter_of_skipping by_map) backends.old.items job_source }
    requires memory { (k : RunTerms W) × IsRunMemory k (length backends.old.items) memory
        × AreTermsOf k shared.now (filter_of_skipping by_map) }
    ensures workers_served { AllWorkersServed D.Disk W.World shared.now.table
        shared.now.queue workers.old workers.new }
    ensures ran { BackendsRan D.Disk W.World A.JobSource shared.now.table shared.now.queue
        backends.old.items backends.new.items job_source result.0 unread result.1 }
{
    let RunMemory {
        handoffs,
        mut clients,
        mut lists,
        spare,
        places,
    } = memory;
    let handoffs = handoffs.as_slice();
    let clients = clients.as_mut_slice();
    give_out_backends(shared, handoffs, clients, backends, &mut lists, places);
    let mut progress = RunProgress {
        job_source,
        phase: Phase::Asking,
        spare,
        unread,
    };
    if begin_shares(rt, shared, by_map, handoffs, clients, &mut progress) {
        run_beside(
            rt,
            shared,
            by_map,
            workers,
            handoffs,
            clients,
            backends,
            &mut progress,
        );
    } else {
        lead_run(
            rt,
            shared,
            by_map,
            handoffs,
            clients,
            backends,
            &mut progress,
        );
        run_workers(rt, shared, workers, CALLER_THREAD);
    }
    (progress.job_source, progress.unread)
}

// Ends each job for want of memory, until the job source is over.
fn refuse_jobs<W: World, A: JobSource<W>>(alloc: Global, job_source: &mut A)
    ensures refused { JobsRefused A.JobSource job_source.old job_source.new }
{
    let mut jobs = [Job::new(alloc)];
    let jobs = jobs.as_mut_slice();
    loop {
        if job_source.next_jobs(jobs) == 0 {
            return;
        }
        jobs[0].ending = Ending::NoMemory;
        if !job_source.finish_jobs(jobs) {
            return;
        }
    }
}

// A run without memory for its shares: each job ends in `NoMemory`.
fn refuse_run<W: World + Send + Sync, D: Disk, R: Threads + Wait + Sync, A: JobSource<W>>(
    rt: &R,
    alloc: Global,
    shared: &SharedState<W>,
    workers: &mut [Worker<W, D>],
    backends: &mut [Backend<W, D>],
    job_source: &mut A,
)
    requires serve { All (WorkerMayServe D.Disk W.World shared.now.table
        shared.now.queue) workers.old }
    requires may { (f : Option BlockFilter) × BackendsMayRun D.Disk W.World A.JobSource
        shared.now.table shared.now.queue f backends.old job_source.old }
    ensures workers_served { AllWorkersServed D.Disk W.World shared.now.table
        shared.now.queue workers.old workers.new }
    ensures ran { (unread : ℕ) → BackendsRan D.Disk W.World A.JobSource shared.now.table
        shared.now.queue backends.old backends.new job_source.old job_source.new unread unread }
{
    refuse_jobs(alloc, job_source);
    close_queue(rt, shared, backends);
    run_workers(rt, shared, workers, CALLER_THREAD);
}

/// All jobs of a job source: by shares, or without memory for them. The answer is the job source,
/// and how many jobs have ended in Unread then.
pub(crate) fn run_backends<
    W: World + Send + Sync,
    D: Disk,
    R: Threads + Wait + Sync,
    A: JobSource<W>,
>(
    rt: &R,
    alloc: Global,
    shared: &SharedState<W>,
    by_map: Option<MapFilter<'_>>,
    workers: &mut [Worker<W, D>],
    backends: &mut Vec<Backend<W, D>>,
    mut job_source: A,
    unread: u64,
) -> (A, u64)
    requires serve { All (WorkerMayServe D.Disk W.World shared.now.table
        shared.now.queue) workers.old }
    requires may { BackendsMayRun D.Disk W.World A.JobSource shared.now.table shared.now.queue
        (filter_of_skipping by_map) backends.old.items job_source }
    ensures workers_served { AllWorkersServed D.Disk W.World shared.now.table
        shared.now.queue workers.old workers.new }
    ensures ran { BackendsRan D.Disk W.World A.JobSource shared.now.table shared.now.queue
        backends.old.items backends.new.items job_source result.0 unread result.1 }
{
    let terms = RunTerms::of(shared, by_map);
    let places = share_places(backends.len(), workers.len());
    match RunMemory::open(alloc, &terms, backends.len(), places) {
        Ok(memory) => run_shares(
            rt, shared, by_map, workers, backends, memory, job_source, unread,
        ),
        Err(_) => {
            let backends = backends.as_mut_slice();
            refuse_run(rt, alloc, shared, workers, backends, &mut job_source);
            (job_source, unread)
        }
    }
}
