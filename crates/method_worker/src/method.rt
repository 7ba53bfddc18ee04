//! The method that hands I/Os to workers.
ghost use Rattle.std.specs.Prelude.{◌≡◌, ◌<◌, [], ◌∷◌, None};
ghost use Rattle.std.specs.List.{All};
ghost use Rattle.aio_handle.specs.Execution.{ExecutesAll};
ghost use Rattle.aio_handle.specs.ContractViews.{IsActorOf, IsSameActor};
ghost use Rattle.method_worker.specs.Submission.{PushesOrTriesToExecute, PushesThenExecutes};
ghost use Rattle.method_worker.specs.QueueViews.{IsSeatOf, IsSameSeat};

use crate::queue::{QueueFull, QueueSeat, SubmitQueue};
use aio_batch::Method;
use aio_callback::ReadIo;
use aio_handle::{Actor, Execute, Table};
use aio_word::WaitRef;
use page_check::World;
use std::sync::Wait;

/// Pushes I/Os for the workers (`io_method=worker`, `pgaio_worker_submit` of `method_worker.c`).
/// Where the queue is full, it tries to claim the I/O and executes it.
#[derive(Drop)]
pub struct WorkerMethod<'q, W: World> {
    pub queue: &'q SubmitQueue<W>,
    /// A seat of the queue.
    pub seat: QueueSeat,
    pub ghost of: { IsSeatOf queue.now seat },
}

impl<'q, W: World> Method<ReadIo, W> for WorkerMethod<'q, W> {
    ghost heard = { λ _. None };

    ghost stands_on = { λ m. m.queue.now.entries ∷ m.queue.now.words ∷ [] };

    fn begun<E: Execute<ReadIo, W>, T: Wait>(
        &mut self,
        rt: &T,
        table: &Table<ReadIo, W>,
        actor: &mut Actor<ReadIo, W>,
        runner: &mut E,
        reference: WaitRef,
    )
        requires table { IsActorOf table.now actor.old }
        requires told { (E.told runner.old ≡ W.told) × (E.relations runner.old ≡ W.relations) }
        requires range { reference.handle < W.handles }
        ensures same { IsSameActor actor.old actor.new }
        ensures told { (E.told runner.new ≡ E.told runner.old)
            × (E.relations runner.new ≡ E.relations runner.old) }
        ensures marks { ExecutesAll [] actor.old.known actor.new.known (E.reads runner.old)
            (E.reads runner.new) (E.faults runner.old) (E.faults runner.new) }
        ensures queue { self.new.queue.now ≡ self.old.queue.now }
        ensures seat { IsSameSeat self.old.seat self.new.seat }
        ensures begun { PushesOrTriesToExecute W.handles reference self.old.seat self.new.seat
            actor.old.known
            actor.new.known }
    {
        if let Err(QueueFull(reference)) = self.queue.push(rt, &mut self.seat, reference) {
            table.try_execute(rt, actor, reference, runner);
        }
    }

    /// Offers all I/Os to the workers, and wakes idle ones, before it executes what did not fit
    /// (`pgaio_worker_submit_internal`).
    fn batch_submitted<E: Execute<ReadIo, W>, T: Wait>(
        &mut self,
        rt: &T,
        table: &Table<ReadIo, W>,
        actor: &mut Actor<ReadIo, W>,
        runner: &mut E,
        references: &[WaitRef],
    )
        requires table { IsActorOf table.now actor.old }
        requires told { (E.told runner.old ≡ W.told) × (E.relations runner.old ≡ W.relations) }
        requires range { All (λ t. t.handle < W.handles) references.now }
        ensures same { IsSameActor actor.old actor.new }
        ensures told { (E.told runner.new ≡ E.told runner.old)
            × (E.relations runner.new ≡ E.relations runner.old) }
        ensures marks { ExecutesAll [] actor.old.known actor.new.known (E.reads runner.old)
            (E.reads runner.new) (E.faults runner.old) (E.faults runner.new) }
        ensures queue { self.new.queue.now ≡ self.old.queue.now }
        ensures seat { IsSameSeat self.old.seat self.new.seat }
        ensures begun { PushesThenExecutes W.handles references.now self.old.seat self.new.seat
            actor.old.known actor.new.known }
    {
        let pushed = self.queue.push_all(rt, &mut self.seat, references);
        for reference in &references[pushed..] {
            table.try_execute(rt, actor, *reference, runner);
        }
    }
}
