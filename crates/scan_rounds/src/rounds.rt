//! One round, and the close of the queue behind rounds and runs.
ghost use Rattle.std.specs.Prelude.{◌≡◌, ◌≤◌, ◌∷◌, [], length, map};
ghost use Rattle.std.specs.List.{All};
ghost use Rattle.std.specs.Thread.{IsSync};
ghost use Rattle.read_stream.specs.FailedReads.{MayBeUnread};
ghost use Rattle.scan_settings.specs.ListOptions.{ListOptions};
ghost use Rattle.scan_rounds.specs.DiskActors.{BackendListed, BackendMayList, IsBackend};
ghost use Rattle.scan_rounds.specs.Progress.{BackendsMadeRound, BackendsMayMakeRound};
ghost use Rattle.scan_rounds.specs.Progress.{IsClosedByFirst};
ghost use Rattle.scan_rounds.specs.Rounds.{AllHaveOptions, RoundListed, RoundMayBeListed};
ghost use Rattle.scan_rounds.specs.Rounds.{backend_disk_actor};
ghost use Rattle.scan_jobs.specs.BlockFilter.{filter_of_skipping};

use crate::backend::Backend;
use crate::counts::{Counts, count_unread, least_room};
use crate::shared::SharedState;
use aio_disk::Disk;
use page_check::World;
use scan_jobs::{Job, MapFilter, neighbouring_jobs};
use std::sync::Wait;
use std::thread::Threads;
use std::{slice, thread};

/// The first backend closes the queue, where it has a seat.
pub(crate) fn close_queue<W: World, D: Disk, R: Wait>(
    rt: &R,
    shared: &SharedState<W>,
    backends: &mut [Backend<W, D>],
)
    requires some { 1 ≤ length backends.old }
    requires backends { All (IsBackend D.Disk W.World shared.now.table shared.now.queue)
        backends.old }
    ensures backends { All (IsBackend D.Disk W.World shared.now.table shared.now.queue)
        backends.new }
    ensures disk_actors { map backend_disk_actor backends.new
        ≡ map backend_disk_actor backends.old }
    ensures options { (m : ListOptions) → AllHaveOptions m backends.old
        → AllHaveOptions m backends.new }
    ensures closed { IsClosedByFirst shared.now.queue backends.new }
{
    backends[0].close(rt, shared);
}

// A backend lists one job.
fn list_job<W: World, D: Disk, R: Wait>(
    rt: &R,
    shared: &SharedState<W>,
    by_map: Option<MapFilter<'_>>,
    backend: &mut Backend<W, D>,
    job: &mut Job,
)
    requires may { BackendMayList D.Disk W.World shared.now.table shared.now.queue backend.old
        (job.old ∷ []) }
    ensures listed { BackendListed D.Disk W.World shared.now.table shared.now.queue
        (MayBeUnread backend.old.disk_actor.actor backend.new.disk_actor.actor.known)
        (filter_of_skipping by_map.entry) backend.old backend.new (job.old ∷ []) (job.new ∷ []) }
{
    let jobs = slice::from_mut(job);
    let (_, blocks) = neighbouring_jobs(jobs, by_map);
    backend.list(rt, shared, blocks, jobs);
}

// Each job is listed by the backend at its place, in a thread of its own; one of them in the
// caller's.
#[cycle(round)]
fn list_round<W: World + Send + Sync, D: Disk, R: Threads + Wait + Sync>(
    rt: &R,
    shared: &SharedState<W>,
    by_map: &Option<MapFilter<'_>>,
    backends: &mut [Backend<W, D>],
    jobs: &mut [Job],
)
    requires may { RoundMayBeListed D.Disk W.World shared.now.table shared.now.queue backends.old
        jobs.old }
    ensures listed { RoundListed D.Disk W.World shared.now.table shared.now.queue
        (filter_of_skipping by_map.entry.now) backends.old backends.new jobs.old jobs.new }
{
    let Some((job, later)) = jobs.split_first_mut() else {
        return;
    };
    let Some((backend, others)) = backends.split_first_mut() else {
        unreachable!()
    };
    if later.is_empty() {
        list_job(rt, shared, *by_map, backend, job);
        return;
    }
    // The filter is lent again, for as long as backends and jobs are.
    list_beside(rt, shared, &*by_map, backend, job, others, later);
}

// One job beside the others. What the closures hold has one lifetime, since the borrow checker
// takes no two in closures that name the same `W`.
#[cycle(round)]
fn list_beside<'a, W: World + Send + Sync, D: Disk, R: Threads + Wait + Sync>(
    rt: &'a R,
    shared: &'a SharedState<W>,
    by_map: &'a Option<MapFilter<'a>>,
    backend: &'a mut Backend<W, D>,
    job: &'a mut Job,
    others: &'a mut [Backend<W, D>],
    later: &'a mut [Job],
)
    requires first { BackendMayList D.Disk W.World shared.now.table shared.now.queue backend.old
        (job.old ∷ []) }
    requires others { RoundMayBeListed D.Disk W.World shared.now.table shared.now.queue others.old
        later.old }
    ensures first { BackendListed D.Disk W.World shared.now.table shared.now.queue
        (MayBeUnread backend.old.disk_actor.actor backend.new.disk_actor.actor.known)
        (filter_of_skipping by_map.entry.now) backend.old backend.new (job.old ∷ [])
        (job.new ∷ []) }
    ensures others { RoundListed D.Disk W.World shared.now.table shared.now.queue
        (filter_of_skipping by_map.entry.now) others.old others.new later.old later.new }
{
    let mut own = ||
        requires { IsSync R.row × BackendMayList D.Disk W.World shared.now.table shared.now.queue
            backend.now (job.now ∷ []) }
        ensures { BackendListed D.Disk W.World shared.entry.now.table shared.entry.now.queue
            (MayBeUnread backend.entry.now.disk_actor.actor
            backend.exit.now.disk_actor.actor.known) (filter_of_skipping by_map.entry.now)
            backend.entry.now backend.exit.now (job.entry.now ∷ []) (job.exit.now ∷ []) }
    { list_job(rt, shared, *by_map, backend, job) };
    let mut beside = ||
        requires { IsSync R.row × RoundMayBeListed D.Disk W.World shared.now.table
            shared.now.queue others.now later.now }
        ensures { RoundListed D.Disk W.World shared.entry.now.table shared.entry.now.queue
            (filter_of_skipping by_map.entry.now) others.entry.now others.exit.now
            later.entry.now later.exit.now }
    { list_round(rt, shared, by_map, others, later) };
    thread::join_mut(rt, &mut own, &mut beside);
}

/// One round, in which each backend does one job at most; then the queue is closed.
pub(crate) fn make_round<W: World + Send + Sync, D: Disk, R: Threads + Wait + Sync>(
    rt: &R,
    shared: &SharedState<W>,
    by_map: Option<MapFilter<'_>>,
    backends: &mut [Backend<W, D>],
    jobs: &mut [Job],
    counts: &mut Counts,
)
    requires may { BackendsMayMakeRound D.Disk W.World shared.now.table shared.now.queue
        backends.old jobs.old counts.old }
    ensures made { BackendsMadeRound D.Disk W.World shared.now.table shared.now.queue
        (filter_of_skipping by_map.entry) backends.old backends.new jobs.old jobs.new counts.old
        counts.new }
    ensures closed { IsClosedByFirst shared.now.queue backends.new }
{
    list_round(rt, shared, &by_map, backends, jobs);
    close_queue(rt, shared, backends);
    counts.room = least_room(backends);
    counts.unread = count_unread(counts.unread, jobs);
}
