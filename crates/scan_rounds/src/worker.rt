//! A worker: an actor with its disk and its seat of the queue.
ghost use Rattle.scan_rounds.specs.DiskActors.{IsWorker, WorkerServed};

use crate::disk_actor::{DiskActor, HasDiskActor};
use crate::shared::SharedState;
use aio_disk::Disk;
use method_worker::QueueSeat;
use page_check::World;
use std::sync::Wait;

#[derive(Drop)]
pub(crate) struct Worker<W: World, D: Disk> {
    pub(crate) disk_actor: DiskActor<W, D>,
    pub(crate) seat: QueueSeat,
}

impl<W: World, D: Disk> HasDiskActor<W, D> for Worker<W, D> {
    ghost use Rattle.scan_rounds.specs.Rounds.{worker_disk_actor};

    ghost disk_actor = { worker_disk_actor };

    fn into_disk_actor(self) -> DiskActor<W, D> {
        self.disk_actor
    }
}

impl<W: World, D: Disk> Worker<W, D> {
    /// Executes what the queue hands out, until it is closed and empty.
    pub(crate) fn run<T: Wait>(&mut self, rt: &T, shared: &SharedState<W>)
        requires { IsWorker D.Disk W.World shared.now.table shared.now.queue self.old }
        ensures { WorkerServed D.Disk W.World shared.now.table shared.now.queue self.old self.new }
    {
        self.disk_actor.serve(
            rt,
            &shared.table,
            &shared.pool,
            &shared.queue,
            &mut self.seat,
        );
    }
}
