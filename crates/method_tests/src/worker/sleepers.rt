//! A worker that sleeps where the queue is empty, and is woken.
ghost use Rattle.std.specs.Prelude.{◌≡◌, ◌≤◌, ◌<◌, None, IfOk, IfSome};
ghost use Rattle.aio_handle.specs.EndStates.{HasNoOwnerTokens};
ghost use Rattle.aio_handle.specs.ContractViews.{IsActorOf};
ghost use Rattle.method_worker.specs.QueueViews.{IsSeatOf};

use crate::queue::entries::last_seat;
use crate::worker::alone::work_alone;
use aio_callback::ReadIo;
use aio_fixtures::last_actor;
use aio_handle::{Actor, Table};
use aio_word::WaitRef;
use method_worker::{QueueSeat, SubmitQueue};
use page_check::World;
use read_fixtures::submit_read;
use std::alloc::{AllocError, Global};
use std::marker::Brand;
use std::sync::Wait;
use std::test::Fail;
use std::thread::{Threads, join, yield_now};

/// Works until the queue is closed and empty: the executor's calls, and the seat.
fn work_until_closed<W: World, T: Wait>(
    rt: &T,
    queue: &SubmitQueue<W>,
    mut seat: QueueSeat,
    table: &Table<ReadIo, W>,
    mut runner: Actor<ReadIo, W>,
) -> (u64, QueueSeat)
    requires queue { IsSeatOf queue.now seat }
    requires table { IsActorOf table.now runner }
    requires untold { W.told ≡ None }
    requires no_owner_tokens { HasNoOwnerTokens runner.known }
    ensures { IsSeatOf queue.now result.1 }
{
    let calls = work_alone(rt, queue, &mut seat, table, &mut runner);
    (calls, seat)
}

pub(super) fn give_up_turns(turns: u32) {
    for _ in 0..turns {
        yield_now();
    }
}

/// Pushes the reference after so many turns, waits until its I/O has ended, and closes the queue
/// after as many turns again.
fn push_and_close<W: World, T: Wait>(
    rt: &T,
    queue: &SubmitQueue<W>,
    mut seat: QueueSeat,
    table: &Table<ReadIo, W>,
    mut owner: Actor<ReadIo, W>,
    reference: WaitRef,
    turns: u32,
) -> QueueSeat
    requires queue { IsSeatOf queue.now seat }
    requires table { IsActorOf table.now owner }
    requires range { reference.handle < W.handles }
    ensures { IsSeatOf queue.now result }
{
    give_up_turns(turns);
    queue.push(rt, &mut seat, reference).ok();
    for _ in rt.forever() {
        if table.check(&mut owner, reference) {
            break;
        }
        yield_now();
    }
    give_up_turns(turns);
    queue.close(rt, &mut seat);
    seat
}

/// One worker over one read that is pushed after so many turns: its executor's calls, and the seats.
/// The queue is then open again.
fn wake_worker<W: World + Send + Sync, T: Threads + Wait + Sync>(
    rt: &T,
    alloc: Global,
    queue: &mut SubmitQueue<W>,
    seats: (QueueSeat, QueueSeat),
    turns: u32,
) -> Result<Option<(u64, QueueSeat, QueueSeat)>, AllocError>
    requires seats { IsSeatOf queue.old seats.0 × IsSeatOf queue.old seats.1 }
    requires handles { W.handles ≡ 1 }
    requires untold { W.told ≡ None }
    requires some { 0 < W.relations }
    ensures { IfOk result (λ r. IfSome r
        (λ s. IsSeatOf queue.new s.1 × IsSeatOf queue.new s.2)) }
{
    let (table, mut actors) = Table::<ReadIo, W>::open(alloc, 1, 1, 1, 0)?;
    let Some(runner) = last_actor(&table, &mut actors) else {
        return Ok(None);
    };
    let Some(mut owner) = last_actor(&table, &mut actors) else {
        return Ok(None);
    };
    let io = ReadIo::make(alloc, 1)?;
    let Some(token) = submit_read(&table, &mut owner, io, 0) else {
        return Ok(None);
    };
    let reference = token.reference();
    let (sleeper, waker) = seats;
    let shared = &*queue;
    let reads = &table;
    let ((calls, sleeper), mut waker) = join(
        rt,
        || -> (u64, QueueSeat)
            requires { IsSeatOf shared.now sleeper × IsActorOf reads.now runner × (W.told ≡ None)
                × HasNoOwnerTokens runner.known }
            ensures { IsSeatOf shared.entry.now result.1 }
        { work_until_closed(rt, shared, sleeper, reads, runner) },
        || -> QueueSeat
            requires { IsSeatOf shared.now waker × IsActorOf reads.now owner
                × (reference.handle < W.handles) }
            ensures { IsSeatOf shared.entry.now result }
        { push_and_close(rt, shared, waker, reads, owner, reference, turns) },
    );
    queue.reopen(&mut waker);
    Ok(Some((calls, sleeper, waker)))
}

/// The read is pushed, and the queue closed, at another moment of the worker's turn each time: before
/// it looks, on its way to sleep, and asleep. The answer is how many reads were executed.
fn wake_again_and_again<W: World + Send + Sync, T: Threads + Wait + Sync>(
    rt: &T,
    alloc: Global,
    rounds: u32,
) -> Result<Option<u64>, AllocError>
    requires handles { W.handles ≡ 1 }
    requires untold { W.told ≡ None }
    requires some { 0 < W.relations }
    requires rounds { rounds < 1000 }
{
    let (mut queue, mut all) = SubmitQueue::<W>::open(alloc, 2)?;
    let Some(mut sleeper) = last_seat(&queue, &mut all) else {
        return Ok(None);
    };
    let Some(mut waker) = last_seat(&queue, &mut all) else {
        return Ok(None);
    };
    let mut executed = 0u64;
    for round in 0..rounds {
        let woken = wake_worker(rt, alloc, &mut queue, (sleeper, waker), 20 * round)?;
        let Some((calls, one, other)) = woken else {
            return Ok(None);
        };
        executed = executed.saturating_add(calls);
        sleeper = one;
        waker = other;
    }
    Ok(Some(executed))
}

#[test]
fn a_sleeping_worker_is_woken(rt: HostRuntime) -> Result<(), Fail> {
    assert_eq!(&rt;
        wake_again_and_again::<Brand, _>(&rt, rt.alloc(), 200)?,
        Some(200)
    );
    Ok(())
}

/// Waits until the I/O has ended, without giving up its turn.
pub(super) fn look_until_done<W: World, T: Wait>(
    rt: &T,
    table: &Table<ReadIo, W>,
    owner: &mut Actor<ReadIo, W>,
    reference: WaitRef,
)
    requires table { IsActorOf table.now owner.old }
    requires range { reference.handle < W.handles }
    ensures { IsActorOf table.now owner.new }
{
    for _ in rt.forever() {
        if table.check(owner, reference) {
            break;
        }
    }
}

/// Pushes the first lives of so many handles, each as soon as the one before it has ended, and closes
/// the queue.
fn push_one_by_one<W: World, T: Wait>(
    rt: &T,
    queue: &SubmitQueue<W>,
    mut seat: QueueSeat,
    table: &Table<ReadIo, W>,
    mut owner: Actor<ReadIo, W>,
    handles: u32,
)
    requires queue { IsSeatOf queue.now seat }
    requires table { IsActorOf table.now owner }
    requires range { handles ≤ W.handles }
{
    for handle in 0..handles {
        let reference = WaitRef {
            handle,
            generation: 0,
        };
        queue.push(rt, &mut seat, reference).ok();
        look_until_done(rt, table, &mut owner, reference);
    }
    queue.close(rt, &mut seat);
}

/// Submits reads of so many blocks; whether each had a handle.
pub(super) fn submit_reads<W: World>(
    alloc: Global,
    table: &Table<ReadIo, W>,
    owner: &mut Actor<ReadIo, W>,
    count: u32,
) -> Result<bool, AllocError>
    requires table { IsActorOf table.now owner.old }
    requires backend { owner.old.known.number < table.now.config.backends }
    requires some { 0 < W.relations }
    ensures { IsActorOf table.now owner.new }
{
    for block in 0..count {
        let io = ReadIo::make(alloc, 1)?;
        if submit_read(table, owner, io, block).is_none() {
            return Ok(false);
        }
    }
    Ok(true)
}

/// One worker over 64 reads, each of which is pushed as soon as the one before it has ended: the
/// worker is then about to sleep. The answer is how many it executed.
fn push_to_one_about_to_sleep<W: World + Send + Sync, T: Threads + Wait + Sync>(
    rt: &T,
    alloc: Global,
) -> Result<Option<u64>, AllocError>
    requires handles { W.handles ≡ 64 }
    requires untold { W.told ≡ None }
    requires some { 0 < W.relations }
{
    let (queue, mut all) = SubmitQueue::<W>::open(alloc, 2)?;
    let Some(sleeper) = last_seat(&queue, &mut all) else {
        return Ok(None);
    };
    let Some(waker) = last_seat(&queue, &mut all) else {
        return Ok(None);
    };
    let (table, mut actors) = Table::<ReadIo, W>::open(alloc, 1, 64, 1, 0)?;
    let Some(runner) = last_actor(&table, &mut actors) else {
        return Ok(None);
    };
    let Some(mut owner) = last_actor(&table, &mut actors) else {
        return Ok(None);
    };
    if !submit_reads(alloc, &table, &mut owner, 64)? {
        return Ok(None);
    }
    let shared = &queue;
    let reads = &table;
    let ((calls, _), ()) = join(
        rt,
        || -> (u64, QueueSeat)
            requires { IsSeatOf shared.now sleeper × IsActorOf reads.now runner × (W.told ≡ None)
                × HasNoOwnerTokens runner.known }
        { work_until_closed(rt, shared, sleeper, reads, runner) },
        ||
            requires { IsSeatOf shared.now waker × IsActorOf reads.now owner × (W.handles ≡ 64) }
        { push_one_by_one(rt, shared, waker, reads, owner, 64) },
    );
    Ok(Some(calls))
}

// A push that comes between the worker's look at the queue and its sleep is not missed.
#[test]
fn a_worker_about_to_sleep_is_woken(rt: HostRuntime) -> Result<(), Fail> {
    for round in 0..400 {
        let executed = push_to_one_about_to_sleep::<Brand, _>(&rt, rt.alloc())?;
        assert_eq!(&rt; executed, Some(64), "round {round}");
    }
    Ok(())
}
