//! Two workers that sleep, and are both woken: by one batch, by two pushes, and by the close.
ghost use Rattle.std.specs.Prelude.{◌≡◌, ◌≤◌, ◌<◌, None};
ghost use Rattle.aio_handle.specs.ContractViews.{IsActorOf};
ghost use Rattle.method_worker.specs.QueueViews.{IsSeatOf};

use crate::queue::entries::last_seat;
use crate::worker::batches::first_life;
use crate::worker::sleepers::{give_up_turns, look_until_done, submit_reads};
use aio_callback::ReadIo;
use aio_fixtures::last_actor;
use aio_handle::{Actor, Claimed, Execute, Table};
use method_worker::{QueueSeat, SubmitQueue, work};
use page_check::World;
use read_fixtures::WholeExecutor;
use std::alloc::{AllocError, Global};
use std::marker::Brand;
use std::sync::Wait;
use std::sync::atomic::{AtomicU64, Ordering};
use std::test::Fail;
use std::thread::{Threads, join, yield_now};

/// An executor that waits until two are at work, and then answers a read whole.
#[derive(Drop)]
struct MeetingExecutor<'m> {
    whole: WholeExecutor,
    at_work: &'m AtomicU64,
}

fn meet<T: Wait>(rt: &T, at_work: &AtomicU64) {
    at_work.fetch_add(1, Ordering::SeqCst);
    for _ in rt.forever() {
        if at_work.load(Ordering::SeqCst) >= 2 {
            break;
        }
        yield_now();
    }
}

impl<'m, W: World> Execute<ReadIo, W> for MeetingExecutor<'m> {
    ghost relations = { λ _. W.relations };

    ghost told = { λ _. None };

    ghost faults = { λ _. 0 };

    ghost reads = { λ e. e.whole.calls };

    fn run<T: Wait>(
        &mut self,
        rt: &T,
        table: &Table<ReadIo, W>,
        actor: &mut Actor<ReadIo, W>,
        claimed: &mut Option<Claimed<ReadIo, W>>,
    ) {
        meet(rt, self.at_work);
        self.whole.run(rt, table, actor, claimed);
    }
}

/// Works until the queue is closed and empty: the executor's calls.
fn work_and_meet<W: World, T: Wait>(
    rt: &T,
    queue: &SubmitQueue<W>,
    mut seat: QueueSeat,
    table: &Table<ReadIo, W>,
    mut runner: Actor<ReadIo, W>,
    at_work: &AtomicU64,
) -> u64
    requires queue { IsSeatOf queue.now seat }
    requires table { IsActorOf table.now runner }
    requires untold { W.told ≡ None }
{
    let mut executor = MeetingExecutor {
        whole: WholeExecutor { calls: 0 },
        at_work,
    };
    work(rt, queue, &mut seat, table, &mut runner, &mut executor);
    executor.whole.calls
}

/// How two I/Os are pushed.
#[derive(Clone, Copy)]
enum Pushes {
    /// By one call.
    Together,
    /// The second right after the first.
    OneByOne,
}

fn push_two<W: World, T: Wait>(rt: &T, queue: &SubmitQueue<W>, seat: &mut QueueSeat, pushes: Pushes)
    requires queue { IsSeatOf queue.now seat.old }
    requires range { 2 ≤ W.handles }
    ensures { IsSeatOf queue.now seat.new }
{
    match pushes {
        Pushes::Together => {
            queue.push_all(rt, seat, &[first_life(0), first_life(1)]);
        }
        Pushes::OneByOne => {
            queue.push(rt, seat, first_life(0)).ok();
            queue.push(rt, seat, first_life(1)).ok();
        }
    }
}

/// Pushes two I/Os after so many turns, waits until both have ended, and closes the queue after as
/// many turns again.
fn push_and_close<W: World, T: Wait>(
    rt: &T,
    queue: &SubmitQueue<W>,
    mut seat: QueueSeat,
    table: &Table<ReadIo, W>,
    mut owner: Actor<ReadIo, W>,
    pushes: Pushes,
    turns: u32,
)
    requires queue { IsSeatOf queue.now seat }
    requires table { IsActorOf table.now owner }
    requires range { 2 ≤ W.handles }
{
    give_up_turns(turns);
    push_two(rt, queue, &mut seat, pushes);
    look_until_done(rt, table, &mut owner, first_life(0));
    look_until_done(rt, table, &mut owner, first_life(1));
    give_up_turns(turns);
    queue.close(rt, &mut seat);
}

/// Two workers over two reads, each of which waits for the other: how many each has executed.
fn wake_two<W: World + Send + Sync, T: Threads + Wait + Sync>(
    rt: &T,
    alloc: Global,
    pushes: Pushes,
    turns: u32,
) -> Result<Option<(u64, u64)>, AllocError>
    requires handles { W.handles ≡ 2 }
    requires untold { W.told ≡ None }
    requires some { 0 < W.relations }
{
    let (queue, mut all) = SubmitQueue::<W>::open(alloc, 3)?;
    let Some(one) = last_seat(&queue, &mut all) else {
        return Ok(None);
    };
    let Some(other) = last_seat(&queue, &mut all) else {
        return Ok(None);
    };
    let Some(waker) = last_seat(&queue, &mut all) else {
        return Ok(None);
    };
    let (table, mut actors) = Table::<ReadIo, W>::open(alloc, 1, 2, 2, 0)?;
    let Some(first) = last_actor(&table, &mut actors) else {
        return Ok(None);
    };
    let Some(second) = last_actor(&table, &mut actors) else {
        return Ok(None);
    };
    let Some(mut owner) = last_actor(&table, &mut actors) else {
        return Ok(None);
    };
    if !submit_reads(alloc, &table, &mut owner, 2)? {
        return Ok(None);
    }
    let queue = &queue;
    let table = &table;
    let at_work = AtomicU64::new(0);
    let at_work = &at_work;
    let ((one, other), ()) = join(
        rt,
        || -> (u64, u64)
            requires { IsSeatOf queue.now one × IsActorOf table.now first × IsSeatOf queue.now other
                × IsActorOf table.now second × (W.told ≡ None) }
        {
            join(
                rt,
                || -> u64
                    requires { IsSeatOf queue.now one × IsActorOf table.now first
                        × (W.told ≡ None) }
                { work_and_meet(rt, queue, one, table, first, at_work) },
                || -> u64
                    requires { IsSeatOf queue.now other × IsActorOf table.now second
                        × (W.told ≡ None) }
                { work_and_meet(rt, queue, other, table, second, at_work) },
            )
        },
        ||
            requires { IsSeatOf queue.now waker × IsActorOf table.now owner × (W.handles ≡ 2) }
        { push_and_close(rt, queue, waker, table, owner, pushes, turns) },
    );
    Ok(Some((one, other)))
}

// Two entries of one call wake two workers.
#[test]
fn a_batch_of_two_wakes_two_sleepers(rt: HostRuntime) -> Result<(), Fail> {
    for round in 0..50 {
        let executed = wake_two::<Brand, _>(&rt, rt.alloc(), Pushes::Together, 20 * round)?;
        assert_eq!(&rt; executed, Some((1, 1)), "round {round}");
    }
    Ok(())
}

// The second push mostly comes before the worker runs that the first has woken. It wakes the other.
#[test]
fn two_pushes_wake_two_sleepers(rt: HostRuntime) -> Result<(), Fail> {
    for round in 0..50 {
        let executed = wake_two::<Brand, _>(&rt, rt.alloc(), Pushes::OneByOne, 20 * round)?;
        assert_eq!(&rt; executed, Some((1, 1)), "round {round}");
    }
    Ok(())
}
