//! One round of a scan, and a whole run, in their parts.
ghost use Rattle.std.specs.Prelude.{◌≡◌, ◌≤◌, length, IfSome};
ghost use Rattle.std.specs.List.{All};
ghost use Rattle.method_worker.specs.QueueViews.{IsSeatOf};
ghost use Rattle.scan_rounds.specs.Calls.{ScanRanSource, ScanMadeRound, ScanMayRunSource};
ghost use Rattle.scan_rounds.specs.Calls.{ScanMayMakeRound};
ghost use Rattle.scan_rounds.specs.Scans.{IsOpenedAgain};
ghost use Rattle.scan_jobs.specs.BlockFilter.{filter_of_skipping};

use crate::backend::Backend;
use crate::beside::round_beside;
use crate::counts::{Counts, least_room};
use crate::run_shares::run_backends;
use crate::scan::Scan;
use crate::shared::SharedState;
use aio_disk::Disk;
use page_check::World;
use scan_jobs::{Job, JobSource, MapFilter};
use std::sync::Wait;
use std::thread::Threads;

// The first backend opens the queue again, where it has a seat.
fn reopen_queue<W: World, D: Disk>(shared: &mut SharedState<W>, backends: &mut [Backend<W, D>])
    requires some { 1 ≤ length backends.old }
    requires seats { All (λ b. IfSome b.seat (IsSeatOf shared.old.queue)) backends.old }
    ensures table { shared.new.table ≡ shared.old.table }
    ensures queue { (shared.new.queue.entries ≡ shared.old.queue.entries)
        × (shared.new.queue.words ≡ shared.old.queue.words) }
    ensures reopened { IsOpenedAgain backends.old shared.old.queue shared.new.queue }
    ensures backends { backends.new ≡ backends.old }
{
    if let Some(seat) = &mut backends[0].seat {
        shared.queue.reopen(seat);
    }
}

impl<W: World + Send + Sync, D: Disk> Scan<W, D> {
    /// One round, without the blocks that are left out.
    pub(crate) fn round_by<R: Threads + Wait + Sync>(
        &mut self,
        rt: &R,
        by_map: Option<MapFilter<'_>>,
        jobs: &mut [Job],
    )
        requires may { ScanMayMakeRound D.Disk W.World self.old jobs.old }
        ensures made_round { ScanMadeRound D.Disk W.World
            (filter_of_skipping by_map.entry) self.old self.new jobs.old jobs.new }
    {
        let Scan {
            shared,
            backends,
            workers,
            room,
            unread,
            ..
        } = self;
        let backends = backends.as_mut_slice();
        let workers = workers.as_mut_slice();
        let mut counts = Counts {
            room: *room,
            unread: *unread,
        };
        reopen_queue(shared, backends);
        round_beside(rt, shared, by_map, workers, backends, jobs, &mut counts);
        *room = counts.room;
        *unread = counts.unread;
    }

    /// All jobs of a job source, until it is over, without the blocks that the map marks, where
    /// there is one. Each backend lists its share of them, in the thread of a server where there
    /// are several. The caller's thread goes from one share to the next: it gives the backend
    /// further jobs, and then has the job source take back those that came back. What no server has
    /// taken it lists itself. Servers and workers live through the run; no thread is made for a
    /// single block. Where there is no memory for the shares each job ends in `NoMemory`. It may
    /// wait.
    pub fn run<R: Threads + Wait + Sync, A: JobSource<W>>(
        &mut self,
        rt: &R,
        by_map: Option<MapFilter<'_>>,
        job_source: A,
    ) -> A
        requires may { ScanMayRunSource D.Disk W.World A.JobSource
            (filter_of_skipping by_map) self.old job_source }
        ensures ran_source { ScanRanSource D.Disk W.World A.JobSource self.old self.new
            job_source result }
    {
        let Scan {
            shared,
            backends,
            workers,
            alloc,
            room,
            unread,
            ..
        } = self;
        reopen_queue(shared, backends.as_mut_slice());
        let workers = workers.as_mut_slice();
        let (job_source, unread_jobs) = run_backends(
            rt, *alloc, shared, by_map, workers, backends, job_source, *unread,
        );
        *unread = unread_jobs;
        let backends = backends.as_mut_slice();
        *room = least_room(backends);
        job_source
    }
}
