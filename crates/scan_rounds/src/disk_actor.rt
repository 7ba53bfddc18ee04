//! An actor with its disk.
ghost use Rattle.std.specs.Prelude.{◌≡◌, ◌≤◌, IfSome, Some, []};
ghost use Rattle.method_worker.specs.QueueViews.{IsSeatOf};
ghost use Rattle.scan_rounds.specs.DiskActors.{DiskActorAdvanced, ActorListedJobs, ActorReadBlocks};
ghost use Rattle.scan_rounds.specs.DiskActors.{IsDiskActor, ActorMayList, ActorMayRead};
ghost use Rattle.scan_jobs.specs.StreamBlocks.{map_blocks};
ghost use Rattle.scan_rounds.specs.Rings.{IsRingOf};
ghost use Rattle.scan_jobs.specs.BlockFilter.{filter_of_skipping};
ghost use Rattle.scan_jobs.specs.ConsumedPages.{MapHasPages};
ghost use Rattle.scan_rounds.specs.declared.disk_actor.DiskActor.{DiskActor};

use crate::lent::{LentRunner, QueueBrand};
use crate::reading::read;
use crate::ring::IdleRingState;
use crate::shared::SharedState;
use aio_batch::Method;
use aio_callback::ReadIo;
use aio_disk::Disk;
use aio_handle::{Actor, Table};
use buf_pool::Pool;
use method_ring::RingRunner;
use method_sync::{Runner, SyncMethod};
use method_worker::{QueueSeat, SubmitQueue, work};
use page_check::World;
use read_stream::{Desk, end_borrow};
use scan_jobs::{Blocks, Consumer, Ending, Job, Listing, MapFilter, MapPages, end_jobs};
use scan_settings::PageText;
use std::marker::{Brand, PhantomData};
use std::sync::Wait;
use vis_map::VisMap;

#[derive(Drop)]
pub(crate) struct DiskActor<W: World, D: Disk> {
    /// None only while a runner has it.
    pub(crate) disk: Option<D>,
    pub(crate) actor: Actor<ReadIo, W>,
}

/// What has an actor with its disk.
pub(crate) trait HasDiskActor<W: World, D: Disk>: Drop {
    ghost disk_actor: { Self → DiskActor W D };

    /// The actor with its disk, without the rest.
    fn into_disk_actor(self) -> DiskActor<W, D>
        ensures { result ≡ disk_actor self };
}

impl<W: World, D: Disk> DiskActor<W, D> {
    // Reads blocks, and executes each I/O by itself.
    fn read_one_by_one<M: Method<ReadIo, W>, T: Wait, C: Consumer>(
        &mut self,
        rt: &T,
        shared: &SharedState<W>,
        desk: &mut Desk<W, ()>,
        method: &mut M,
        blocks: Blocks<'_>,
        consumer: &mut C,
    ) -> Ending
        requires may { ActorMayRead D.Disk W.World shared.now.table self.old desk.old blocks }
        requires few { blocks.count ≤ C.most consumer.old }
        requires held { C.holds consumer.old [] }
        ensures read { ActorReadBlocks D.Disk W.World shared.now.table
            (C.holds consumer.new) self.old self.new desk.old desk.new blocks.entry result }
        ensures stands_on { M.stands_on method.new ≡ M.stands_on method.old }
        ensures kept { C.kept consumer.new ≡ C.kept consumer.old }
    {
        let Some(disk) = self.disk.take() else {
            unreachable!()
        };
        let mut runner = Runner {
            disk,
            places: &shared.pool,
        };
        let ending = read(
            rt,
            &shared.table,
            &shared.pool,
            &mut self.actor,
            desk,
            method,
            &mut runner,
            blocks,
            consumer,
        );
        self.disk = Some(runner.disk);
        ending
    }

    // Reads blocks, and executes I/Os by a ring over the disk.
    fn read_by_ring<L: QueueBrand, M: Method<ReadIo, W>, T: Wait, C: Consumer>(
        &mut self,
        rt: &T,
        shared: &SharedState<W>,
        desk: &mut Desk<W, ()>,
        ring: IdleRingState<W>,
        method: &mut M,
        blocks: Blocks<'_>,
        consumer: &mut C,
    ) -> (IdleRingState<W>, Ending)
        requires may { ActorMayRead D.Disk W.World shared.now.table self.old desk.old blocks }
        requires few { blocks.count ≤ C.most consumer.old }
        requires held { C.holds consumer.old [] }
        requires ring { IsRingOf shared.now.queue ring }
        requires brand { L.queue ≡ Some shared.now.queue }
        ensures read { ActorReadBlocks D.Disk W.World shared.now.table
            (C.holds consumer.new) self.old self.new desk.old desk.new blocks.entry result.1 }
        ensures ring { IsRingOf shared.now.queue result.0 }
        ensures stands_on { M.stands_on method.new ≡ M.stands_on method.old }
        ensures kept { C.kept consumer.new ≡ C.kept consumer.old }
    {
        let Some(disk) = self.disk.take() else {
            unreachable!()
        };
        let IdleRingState { idle, room, seat } = ring;
        let ring = idle.over(disk);
        let mut lent: LentRunner<'_, L, W, D> = LentRunner {
            runner: RingRunner::new(ring, &shared.pool, &shared.queue, seat, room),
            brand: PhantomData,
        };
        let ending = read(
            rt,
            &shared.table,
            &shared.pool,
            &mut self.actor,
            desk,
            method,
            &mut lent,
            blocks,
            consumer,
        );
        let (ring, seat, room) = lent.runner.into_parts();
        let (disk, idle) = ring.into_parts();
        self.disk = Some(disk);
        (IdleRingState { idle, room, seat }, ending)
    }

    // Reads blocks, by the ring where there is one.
    fn read<M: Method<ReadIo, W>, T: Wait, C: Consumer>(
        &mut self,
        rt: &T,
        shared: &SharedState<W>,
        desk: &mut Desk<W, ()>,
        ring: &mut Option<IdleRingState<W>>,
        method: &mut M,
        blocks: Blocks<'_>,
        consumer: &mut C,
    ) -> Ending
        requires may { ActorMayRead D.Disk W.World shared.now.table self.old desk.old blocks }
        requires few { blocks.count ≤ C.most consumer.old }
        requires held { C.holds consumer.old [] }
        requires ring { IfSome ring.old (IsRingOf shared.now.queue) }
        ensures read { ActorReadBlocks D.Disk W.World shared.now.table
            (C.holds consumer.new) self.old self.new desk.old desk.new blocks.entry result }
        ensures ring { IfSome ring.new (IsRingOf shared.now.queue) }
        ensures stands_on { M.stands_on method.new ≡ M.stands_on method.old }
        ensures kept { C.kept consumer.new ≡ C.kept consumer.old }
    {
        match ring.take() {
            Some(own) => {
                let (own, ending) = self.read_by_ring::<Brand, M, T, C>(
                    rt, shared, desk, own, method, blocks, consumer,
                );
                *ring = Some(own);
                ending
            }
            None => self.read_one_by_one(rt, shared, desk, method, blocks, consumer),
        }
    }

    /// Lists the blocks of some jobs, by one stream, and by the ring where there is one. The blocks
    /// are those of the jobs, one job after the other, that are not left out.
    pub(crate) fn list<M: Method<ReadIo, W>, T: Wait>(
        &mut self,
        rt: &T,
        shared: &SharedState<W>,
        desk: &mut Desk<W, ()>,
        ring: &mut Option<IdleRingState<W>>,
        method: &mut M,
        blocks: Blocks<'_>,
        jobs: &mut [Job],
        page_text: PageText,
    )
        requires may { ActorMayList D.Disk W.World shared.now.table self.old desk.old blocks
            jobs.old }
        requires ring { IfSome ring.old (IsRingOf shared.now.queue) }
        ensures listed { ActorListedJobs D.Disk W.World shared.now.table (filter_of_skipping
            blocks.entry.by_map) page_text self.old self.new desk.old desk.new jobs.old jobs.new }
        ensures ring { IfSome ring.new (IsRingOf shared.now.queue) }
        ensures stands_on { M.stands_on method.new ≡ M.stands_on method.old }
    {
        let mut listing = Listing {
            jobs,
            taken: 0,
            page_text,
        };
        let ending = self.read(rt, shared, desk, ring, method, blocks, &mut listing);
        let Listing { jobs, taken, .. } = listing;
        end_jobs(jobs, taken, ending);
    }

    /// Reads so many pages of a map, and executes each I/O by itself.
    pub(crate) fn read_map<T: Wait>(
        &mut self,
        rt: &T,
        shared: &SharedState<W>,
        desk: &mut Desk<W, ()>,
        relation: u32,
        pages: u32,
        map: &mut VisMap,
        warnings: &mut Vec<u8>,
    ) -> Ending
        requires may { ActorMayRead D.Disk W.World shared.now.table self.old desk.old
            (map_blocks relation pages) }
        requires pages { pages ≡ map.old.pages }
        requires none { (map.old.added ≡ []) × (warnings.old.items ≡ []) }
        ensures read { ActorReadBlocks D.Disk W.World shared.now.table
            (MapHasPages map.new warnings.new.items) self.old self.new desk.old desk.new
            (map_blocks relation pages) result }
        ensures pages { map.new.pages ≡ map.old.pages }
    {
        let blocks = Blocks {
            relation,
            first: 0,
            count: pages,
            by_map: None,
        };
        let mut taken = MapPages { map, warnings };
        let ending = self.read_one_by_one(rt, shared, desk, &mut SyncMethod, blocks, &mut taken);
        let MapPages { map, warnings } = taken;
        end_borrow(map);
        end_borrow(warnings);
        ending
    }

    /// Executes what the queue hands out, until it is closed and empty.
    pub(crate) fn serve<T: Wait>(
        &mut self,
        rt: &T,
        table: &Table<ReadIo, W>,
        pool: &Pool<W>,
        queue: &SubmitQueue<W>,
        seat: &mut QueueSeat,
    )
        requires disk_actor { IsDiskActor D.Disk W.World table.now self.old }
        requires seat { IsSeatOf queue.now seat.old }
        ensures disk_actor { IsDiskActor D.Disk W.World table.now self.new }
        ensures advanced { DiskActorAdvanced D.Disk W.World table.now self.old self.new }
        ensures seat { IsSeatOf queue.now seat.new }
    {
        let Some(disk) = self.disk.take() else {
            unreachable!()
        };
        let mut runner = Runner { disk, places: pool };
        work(rt, queue, seat, table, &mut self.actor, &mut runner);
        self.disk = Some(runner.disk);
    }
}
