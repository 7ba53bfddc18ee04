//! A runner that works alone over what was pushed.
ghost use Rattle.std.specs.Prelude.{◌≡◌, ◌<◌, None};
ghost use Rattle.aio_handle.specs.EndStates.{HasNoOwnerTokens};
ghost use Rattle.aio_handle.specs.ContractViews.{IsActorOf, IsSameActor};
ghost use Rattle.method_worker.specs.QueueViews.{IsSeatOf, IsSameSeat};

use aio_callback::ReadIo;
use aio_handle::{Actor, Table};
use aio_word::WaitRef;
use method_worker::{QueueSeat, SubmitQueue, work};
use page_check::World;
use read_fixtures::WholeExecutor;
use std::sync::Wait;

/// Pushes this reference so often, where there is room.
pub(super) fn push_times<W: World, T: Wait>(
    rt: &T,
    queue: &SubmitQueue<W>,
    seat: &mut QueueSeat,
    reference: WaitRef,
    count: u32,
)
    requires queue { IsSeatOf queue.now seat.old }
    requires range { reference.handle < W.handles }
    ensures same { IsSameSeat seat.old seat.new }
{
    for _ in 0..count {
        queue.push(rt, seat, reference).ok();
    }
}

/// A runner works until the queue is closed and empty: the executor's calls.
pub(super) fn work_alone<W: World, T: Wait>(
    rt: &T,
    queue: &SubmitQueue<W>,
    seat: &mut QueueSeat,
    table: &Table<ReadIo, W>,
    runner: &mut Actor<ReadIo, W>,
) -> u64
    requires queue { IsSeatOf queue.now seat.old }
    requires table { IsActorOf table.now runner.old }
    requires untold { W.told ≡ None }
    requires no_owner_tokens { HasNoOwnerTokens runner.old.known }
    ensures same { IsSameActor runner.old runner.new }
    ensures seat { IsSameSeat seat.old seat.new }
    ensures no_owner_tokens { HasNoOwnerTokens runner.new.known }
{
    let mut executor = WholeExecutor { calls: 0 };
    work(rt, queue, seat, table, runner, &mut executor);
    executor.calls
}
