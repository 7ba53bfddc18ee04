//! The worker's loop.
ghost use Rattle.std.specs.Prelude.{◌≡◌, []};
ghost use Rattle.aio_handle.specs.Execution.{ExecutesAll};
ghost use Rattle.aio_handle.specs.ContractViews.{IsActorOf, IsSameActor};
ghost use Rattle.method_worker.specs.QueueViews.{IsSeatOf, IsSameSeat};
ghost use Rattle.method_worker.specs.WorkerSteps.{WorkerStep, WorksUntilClosed, worker_state};

use crate::idle_workers::Slept;
use crate::queue::{Pop, QueueSeat, SubmitQueue};
use aio_callback::ReadIo;
use aio_handle::{Actor, Execute, Table};
use page_check::World;
use std::sync::Wait;

/// What a worker did in one turn.
#[derive(Drop)]
enum Step {
    /// It popped an entry and tried it.
    Tried,
    /// It found the queue empty and open, and slept.
    Rested(Slept),
    /// It found the queue empty and closed.
    Closed,
}

/// One turn of a worker: it pops once, and sees to the entry, or sleeps where the queue is empty
/// and open.
fn turn<W: World, E: Execute<ReadIo, W>, T: Wait>(
    rt: &T,
    queue: &SubmitQueue<W>,
    seat: &mut QueueSeat,
    table: &Table<ReadIo, W>,
    actor: &mut Actor<ReadIo, W>,
    runner: &mut E,
) -> Step
    requires queue { IsSeatOf queue.now seat.old }
    requires table { IsActorOf table.now actor.old }
    requires told { (E.told runner.old ≡ W.told) × (E.relations runner.old ≡ W.relations) }
    ensures seat { IsSameSeat seat.old seat.new }
    ensures same { IsSameActor actor.old actor.new }
    ensures told { (E.told runner.new ≡ E.told runner.old)
        × (E.relations runner.new ≡ E.relations runner.old) }
    ensures marks { ExecutesAll [] actor.old.known actor.new.known (E.reads runner.old)
        (E.reads runner.new) (E.faults runner.old) (E.faults runner.new) }
    ensures worker_step { WorkerStep W.handles queue.now.reopened (worker_state seat.old
        actor.old.known)
        (worker_state seat.new actor.new.known) result }
{
    let bell = queue.bell();
    match queue.pop(rt, seat) {
        Pop::Entry(reference) => {
            table.try_execute(rt, actor, reference, runner);
            Step::Tried
        }
        Pop::Empty => Step::Rested(queue.rest(rt, seat, bell)),
        Pop::Closed => Step::Closed,
    }
}

/// Pops references, claims their I/Os and executes them, until the queue is closed and empty (the
/// loop of `IoWorkerMain` in `method_worker.c`).
///
/// An entry whose I/O cannot be claimed any more is passed over. Where the queue is empty and open
/// it sleeps until a push or a close.
pub fn work<W: World, E: Execute<ReadIo, W>, T: Wait>(
    rt: &T,
    queue: &SubmitQueue<W>,
    seat: &mut QueueSeat,
    table: &Table<ReadIo, W>,
    actor: &mut Actor<ReadIo, W>,
    runner: &mut E,
)
    requires queue { IsSeatOf queue.now seat.old }
    requires table { IsActorOf table.now actor.old }
    requires told { (E.told runner.old ≡ W.told) × (E.relations runner.old ≡ W.relations) }
    ensures seat { IsSameSeat seat.old seat.new }
    ensures same { IsSameActor actor.old actor.new }
    ensures told { (E.told runner.new ≡ E.told runner.old)
        × (E.relations runner.new ≡ E.relations runner.old) }
    ensures marks { ExecutesAll [] actor.old.known actor.new.known (E.reads runner.old)
        (E.reads runner.new) (E.faults runner.old) (E.faults runner.new) }
    ensures works_until_closed { WorksUntilClosed W.handles queue.now.reopened
        (worker_state seat.old actor.old.known)
        (worker_state seat.new actor.new.known) }
{
    for _ in rt.forever() {
        if let Step::Closed = turn(rt, queue, seat, table, actor, runner) {
            return;
        }
    }
    unreachable!()
}
