//! A backend: an actor with its disk and its desk.
ghost use Rattle.std.specs.Prelude.{◌≡◌, ◌<◌, ◌*◌, [], IfSome, is_some};
ghost use Rattle.method_worker.specs.QueueViews.{IsSeatOf};
ghost use Rattle.read_stream.specs.FailedReads.{MayBeUnread};
ghost use Rattle.scan_rounds.specs.DiskActors.{BackendListed, BackendMayList, BackendReadMap};
ghost use Rattle.scan_rounds.specs.DiskActors.{ActorHasRoom, IsBackend};
ghost use Rattle.scan_jobs.specs.StreamBlocks.{IsStreamOfJobs};
ghost use Rattle.scan_jobs.specs.BlockFilter.{filter_of_skipping};
ghost use Rattle.scan_rounds.specs.Progress.{HasClosed};

use crate::disk_actor::{DiskActor, HasDiskActor};
use crate::ring::IdleRingState;
use crate::shared::SharedState;
use aio_disk::Disk;
use method_sync::SyncMethod;
use method_worker::{QueueSeat, WorkerMethod};
use page_check::World;
use read_stream::Desk;
use scan_jobs::{Blocks, Ending, Job};
use scan_settings::PageText;
use std::sync::Wait;
use vis_map::VisMap;

/// A backend. One that has no seat of the queue executes its I/Os at once.
#[derive(Drop)]
pub(crate) struct Backend<W: World, D: Disk> {
    pub(crate) disk_actor: DiskActor<W, D>,
    pub(crate) desk: Desk<W, ()>,
    pub(crate) seat: Option<QueueSeat>,
    /// None where it executes I/Os one by one, and while a runner has it.
    pub(crate) ring: Option<IdleRingState<W>>,
    /// What is written of a page.
    pub(crate) page_text: PageText,
}

impl<W: World, D: Disk> HasDiskActor<W, D> for Backend<W, D> {
    ghost use Rattle.scan_rounds.specs.Rounds.{backend_disk_actor};

    ghost disk_actor = { backend_disk_actor };

    fn into_disk_actor(self) -> DiskActor<W, D> {
        self.disk_actor
    }
}

impl<W: World, D: Disk> Backend<W, D> {
    /// Lists jobs by one stream, which gives the blocks of all.
    pub(crate) fn list<T: Wait>(
        &mut self,
        rt: &T,
        shared: &SharedState<W>,
        blocks: Blocks<'_>,
        jobs: &mut [Job],
    )
        requires may { BackendMayList D.Disk W.World shared.now.table shared.now.queue self.old
            jobs.old }
        requires stream { IsStreamOfJobs blocks jobs.old }
        ensures listed { BackendListed D.Disk W.World shared.now.table shared.now.queue
            (MayBeUnread self.old.disk_actor.actor self.new.disk_actor.actor.known)
            (filter_of_skipping blocks.entry.by_map) self.old self.new jobs.old jobs.new }
    {
        let Backend {
            disk_actor,
            desk,
            seat,
            ring,
            page_text,
        } = self;
        match seat.take() {
            Some(own) => {
                let mut method = WorkerMethod {
                    queue: &shared.queue,
                    seat: own,
                };
                disk_actor.list(
                    rt,
                    shared,
                    desk,
                    ring,
                    &mut method,
                    blocks,
                    jobs,
                    *page_text,
                );
                *seat = Some(method.seat);
            }
            None => disk_actor.list(
                rt,
                shared,
                desk,
                ring,
                &mut SyncMethod,
                blocks,
                jobs,
                *page_text,
            ),
        }
    }

    /// Reads the pages of a map.
    pub(crate) fn read_map<T: Wait>(
        &mut self,
        rt: &T,
        shared: &SharedState<W>,
        relation: u32,
        map: &mut VisMap,
        warnings: &mut Vec<u8>,
    ) -> Ending
        requires is { IsBackend D.Disk W.World shared.now.table shared.now.queue self.old }
        requires room { ActorHasRoom 65 self.old.disk_actor.actor }
        requires relation { relation < W.relations }
        requires none { (map.old.added ≡ []) × (warnings.old.items ≡ []) }
        ensures read { BackendReadMap D.Disk W.World shared.now.table shared.now.queue
            self.old self.new relation map.old.pages map.new warnings.new.items result }
        ensures pages { map.new.pages ≡ map.old.pages }
    {
        let Backend {
            disk_actor,
            desk,
            ..
        } = self;
        let pages = map.pages();
        disk_actor.read_map(rt, shared, desk, relation, pages, map, warnings)
    }

    /// Closes the queue, where it has a seat.
    pub(crate) fn close<T: Wait>(&mut self, rt: &T, shared: &SharedState<W>)
        requires seat { IfSome self.old.seat (IsSeatOf shared.now.queue) }
        ensures seat { IfSome self.new.seat (IsSeatOf shared.now.queue) }
        ensures closed { IfSome self.new.seat (HasClosed shared.now.queue) }
        ensures rest { (self.new.disk_actor ≡ self.old.disk_actor) × (self.new.desk ≡ self.old.desk)
            × (self.new.page_text ≡ self.old.page_text) × (self.new.ring ≡ self.old.ring) }
        ensures seat_kept { is_some self.new.seat ≡ is_some self.old.seat }
    {
        if let Some(seat) = &mut self.seat {
            shared.queue.close(rt, seat);
        }
    }
}
