//! Three reads that a backend submits.
ghost use Rattle.std.specs.Prelude.{◌≡◌, ◌<◌, None, IfOk, IfSome};
ghost use Rattle.aio_handle.specs.EndStates.{HasNoOwnerTokens};
ghost use Rattle.aio_handle.specs.ContractViews.{IsActorOf, IsSameActor};
ghost use Rattle.method_worker.specs.QueueViews.{IsSeatOf};

use crate::queue::entries::last_seat;
use crate::worker::alone::{push_times, work_alone};
use crate::worker::reads::submit_by_method;
use aio_callback::ReadIo;
use aio_fixtures::{close_with_two, last_actor};
use aio_handle::{Actor, Table};
use aio_word::WaitRef;
use method_worker::{QueueSeat, SubmitQueue, WorkerMethod};
use page_check::World;
use read_fixtures::{WholeExecutor, take_and_reclaim};
use std::alloc::{AllocError, Global};
use std::marker::Brand;
use std::sync::Wait;
use std::test::Fail;

/// Submits three reads, and begins each by the method; closes the queue, and lets the runner work;
/// then takes the reads in. The answer is how many were ready, and the runner's calls.
fn three_begun<'q, W: World, T: Wait>(
    rt: &T,
    alloc: Global,
    table: &Table<ReadIo, W>,
    owner: &mut Actor<ReadIo, W>,
    runner: &mut Actor<ReadIo, W>,
    method: &mut WorkerMethod<'q, W>,
    seat: &mut QueueSeat,
    mine: &mut WholeExecutor,
) -> Result<Option<u64>, AllocError>
    requires table { IsActorOf table.now owner.old × IsActorOf table.now runner.old }
    requires backend { owner.old.known.number < table.now.config.backends }
    requires queue { IsSeatOf method.old.queue.now seat.old }
    requires untold { W.told ≡ None }
    requires some { 0 < W.relations }
    requires owner_has_no_tokens { HasNoOwnerTokens owner.old.known }
    requires runner_has_no_tokens { HasNoOwnerTokens runner.old.known }
    ensures same { IsSameActor owner.old owner.new × IsSameActor runner.old runner.new }
    ensures no_owner_tokens { IfOk result (λ r. IfSome r
        (λ _. HasNoOwnerTokens owner.new.known × HasNoOwnerTokens runner.new.known)) }
{
    let io = ReadIo::make(alloc, 1)?;
    let Some(a) = submit_by_method(rt, table, owner, method, mine, io) else {
        return Ok(None);
    };
    let io = ReadIo::make(alloc, 1)?;
    let Some(b) = submit_by_method(rt, table, owner, method, mine, io) else {
        return Ok(None);
    };
    let io = ReadIo::make(alloc, 1)?;
    let Some(c) = submit_by_method(rt, table, owner, method, mine, io) else {
        return Ok(None);
    };
    method.queue.close(rt, &mut method.seat);
    let calls = work_alone(rt, method.queue, seat, table, runner);
    if take_and_reclaim(table, owner, c)
        && take_and_reclaim(table, owner, b)
        && take_and_reclaim(table, owner, a)
    {
        Ok(Some(calls))
    } else {
        Ok(None)
    }
}

/// What came of three reads: the executors' calls of the backend and of the runner, and the
/// table's numbers.
#[derive(Clone, Copy, Debug, PartialEq, Eq)]
struct Run {
    mine: u64,
    theirs: u64,
    incarnations: u128,
    by_runners: u128,
}

/// A reference of a generation that never comes.
pub(super) const STALE: WaitRef = WaitRef {
    handle: 3,
    generation: 1 << 60,
};

/// A backend submits three reads and a runner works, over a queue with so many stale entries.
fn three_reads<W: World, T: Wait>(
    rt: &T,
    alloc: Global,
    stale: u32,
) -> Result<Option<Run>, AllocError>
    requires handles { W.handles ≡ 4 }
    requires untold { W.told ≡ None }
    requires some { 0 < W.relations }
{
    let (table, mut actors) = Table::<ReadIo, W>::open(alloc, 1, 4, 1, 0)?;
    let Some(mut runner) = last_actor(&table, &mut actors) else {
        return Ok(None);
    };
    let Some(mut owner) = last_actor(&table, &mut actors) else {
        return Ok(None);
    };
    let (queue, mut seats) = SubmitQueue::<W>::open(alloc, 2)?;
    let Some(mut seat) = last_seat(&queue, &mut seats) else {
        return Ok(None);
    };
    let Some(mut other) = last_seat(&queue, &mut seats) else {
        return Ok(None);
    };
    push_times(rt, &queue, &mut other, STALE, stale);
    let mut method = WorkerMethod {
        queue: &queue,
        seat: other,
    };
    let mut mine = WholeExecutor { calls: 0 };
    let answer = three_begun(
        rt,
        alloc,
        &table,
        &mut owner,
        &mut runner,
        &mut method,
        &mut seat,
        &mut mine,
    )?;
    let Some(theirs) = answer else {
        return Ok(None);
    };
    let totals = close_with_two(alloc, table, owner, runner)?;
    Ok(Some(Run {
        mine: mine.calls,
        theirs,
        incarnations: totals.incarnations(),
        by_runners: totals.by_runners(),
    }))
}

#[test]
fn worker_executes_three_reads(rt: HostRuntime) -> Result<(), Fail> {
    let run = three_reads::<Brand, _>(&rt, rt.alloc(), 0)?;
    let wanted = Run {
        mine: 0,
        theirs: 3,
        incarnations: 3,
        by_runners: 3,
    };
    assert_eq!(&rt; run, Some(wanted));
    Ok(())
}

#[test]
fn backend_executes_where_the_queue_is_full(rt: HostRuntime) -> Result<(), Fail> {
    let run = three_reads::<Brand, _>(&rt, rt.alloc(), 64)?;
    let wanted = Run {
        mine: 3,
        theirs: 0,
        incarnations: 3,
        by_runners: 0,
    };
    assert_eq!(&rt; run, Some(wanted));
    Ok(())
}
