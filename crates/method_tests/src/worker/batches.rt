//! Batches that are begun as one.
ghost use Rattle.std.specs.Prelude.{◌≡◌, ◌<◌, None};
ghost use Rattle.method_worker.specs.QueueViews.{IsSeatOf};

use crate::queue::entries::last_seat;
use crate::worker::alone::{push_times, work_alone};
use crate::worker::sleepers::submit_reads;
use crate::worker::three::STALE;
use aio_batch::Method;
use aio_callback::ReadIo;
use aio_fixtures::last_actor;
use aio_handle::{Actor, Claimed, Execute, Table};
use aio_word::WaitRef;
use method_worker::{QueueSeat, SubmitQueue, WorkerMethod};
use page_check::World;
use read_fixtures::WholeExecutor;
use std::alloc::{AllocError, Global};
use std::marker::Brand;
use std::sync::Wait;
use std::test::Fail;

/// An executor that pops an entry of the queue before it answers a read whole.
#[derive(Drop)]
struct PoppingExecutor<'q, W: World> {
    whole: WholeExecutor,
    queue: &'q SubmitQueue<W>,
    seat: QueueSeat,
    ghost of: { IsSeatOf queue.now seat },
}

impl<'q, W: World> Execute<ReadIo, W> for PoppingExecutor<'q, W> {
    ghost relations = { λ _. W.relations };

    ghost told = { λ _. None };

    ghost faults = { λ _. 0 };

    ghost reads = { λ e. e.whole.calls };

    fn run<T: Wait>(
        &mut self,
        rt: &T,
        table: &Table<ReadIo, W>,
        actor: &mut Actor<ReadIo, W>,
        claimed: &mut Option<Claimed<ReadIo, W>>,
    ) {
        let _ = self.queue.pop(rt, &mut self.seat);
        self.whole.run(rt, table, actor, claimed);
    }
}

/// The first life of this handle.
pub(super) fn first_life(handle: u32) -> WaitRef
    ensures { result.handle ≡ handle }
{
    WaitRef {
        handle,
        generation: 0,
    }
}

/// A backend has three reads begun as one, over a queue with so many stale entries, and then a
/// runner works. The answer is how many reads each has executed.
fn three_as_one<W: World, T: Wait>(
    rt: &T,
    alloc: Global,
    stale: u32,
) -> Result<Option<(u64, u64)>, AllocError>
    requires handles { W.handles ≡ 4 }
    requires untold { W.told ≡ None }
    requires some { 0 < W.relations }
{
    let (table, mut actors) = Table::<ReadIo, W>::open(alloc, 1, 4, 1, 0)?;
    let Some(mut runner) = last_actor(&table, &mut actors) else {
        return Ok(None);
    };
    let Some(mut owner) = last_actor(&table, &mut actors) else {
        return Ok(None);
    };
    let (queue, mut seats) = SubmitQueue::<W>::open(alloc, 3)?;
    let Some(mut seat) = last_seat(&queue, &mut seats) else {
        return Ok(None);
    };
    let Some(popping) = last_seat(&queue, &mut seats) else {
        return Ok(None);
    };
    let Some(mut pushing) = last_seat(&queue, &mut seats) else {
        return Ok(None);
    };
    push_times(rt, &queue, &mut pushing, STALE, stale);
    if !submit_reads(alloc, &table, &mut owner, 3)? {
        return Ok(None);
    }
    let mut method = WorkerMethod {
        queue: &queue,
        seat: pushing,
    };
    let mut mine = PoppingExecutor {
        whole: WholeExecutor { calls: 0 },
        queue: &queue,
        seat: popping,
    };
    let batch = [first_life(0), first_life(1), first_life(2)];
    method.batch_submitted(rt, &table, &mut owner, &mut mine, &batch);
    queue.close(rt, &mut seat);
    let theirs = work_alone(rt, &queue, &mut seat, &table, &mut runner);
    Ok(Some((mine.whole.calls, theirs)))
}

// The queue has room for the first alone. An I/O that is executed makes room for another, but by
// then all were offered.
#[test]
fn what_does_not_fit_is_executed_last(rt: HostRuntime) -> Result<(), Fail> {
    let executed = three_as_one::<Brand, _>(&rt, rt.alloc(), 63)?;
    assert_eq!(&rt; executed, Some((2, 1)));
    Ok(())
}

#[test]
fn a_batch_that_fits_is_left_to_workers(rt: HostRuntime) -> Result<(), Fail> {
    let executed = three_as_one::<Brand, _>(&rt, rt.alloc(), 0)?;
    assert_eq!(&rt; executed, Some((0, 3)));
    Ok(())
}
