//! Threads that push and pop at once.
ghost use Rattle.std.specs.Prelude.{◌≡◌, ◌≤◌};
ghost use Rattle.method_worker.specs.QueueViews.{IsSeatOf};

use crate::queue::entries::{last_seat, reference};
use aio_word::WaitRef;
use method_worker::{Pop, QueueSeat, SubmitQueue};
use page_check::World;
use std::alloc::{AllocError, Global};
use std::marker::Brand;
use std::sync::Wait;
use std::test::Fail;
use std::thread::{Threads, join, yield_now};

/// Pushes the references of the numbers below 1000, each again where the queue is full.
fn push_all<W: World, T: Wait>(rt: &T, queue: &SubmitQueue<W>, mut seat: QueueSeat)
    requires queue { IsSeatOf queue.now seat }
    requires handles { 7 ≤ W.handles }
{
    for number in 0..1000 {
        for _ in rt.forever() {
            if queue.push(rt, &mut seat, reference(number)).is_ok() {
                break;
            }
            yield_now();
        }
    }
}

/// Pops until the queue is closed and empty.
fn pop_all<W: World, T: Wait>(
    rt: &T,
    alloc: Global,
    queue: &SubmitQueue<W>,
    mut seat: QueueSeat,
) -> Result<Vec<WaitRef>, AllocError>
    requires { IsSeatOf queue.now seat }
{
    let mut all = Vec::new(alloc);
    for _ in rt.forever() {
        match queue.pop(rt, &mut seat) {
            Pop::Entry(reference) => all.push(reference)?,
            Pop::Empty => yield_now(),
            Pop::Closed => break,
        }
    }
    Ok(all)
}

/// Two push at once, and then the queue is closed.
fn two_push<W: World + Send + Sync, T: Threads + Wait + Sync>(
    rt: &T,
    queue: &SubmitQueue<W>,
    one: QueueSeat,
    other: QueueSeat,
    mut closer: QueueSeat,
)
    requires one { IsSeatOf queue.now one }
    requires other { IsSeatOf queue.now other }
    requires closer { IsSeatOf queue.now closer }
    requires handles { 7 ≤ W.handles }
{
    join(
        rt,
        ||
            requires { IsSeatOf queue.now one × (7 ≤ W.handles) }
        { push_all(rt, queue, one) },
        ||
            requires { IsSeatOf queue.now other × (7 ≤ W.handles) }
        { push_all(rt, queue, other) },
    );
    queue.close(rt, &mut closer);
}

/// Two pop at once.
fn two_pop<W: World + Send + Sync, T: Threads + Wait + Sync>(
    rt: &T,
    alloc: Global,
    queue: &SubmitQueue<W>,
    one: QueueSeat,
    other: QueueSeat,
) -> Result<(Vec<WaitRef>, Vec<WaitRef>), AllocError>
    requires one { IsSeatOf queue.now one }
    requires other { IsSeatOf queue.now other }
{
    let (one, other) = join(
        rt,
        || -> Result<Vec<WaitRef>, AllocError>
            requires { IsSeatOf queue.now one }
        { pop_all(rt, alloc, queue, one) },
        || -> Result<Vec<WaitRef>, AllocError>
            requires { IsSeatOf queue.now other }
        { pop_all(rt, alloc, queue, other) },
    );
    Ok((one?, other?))
}

/// What two threads popped that two others had pushed.
fn four_threads<W: World + Send + Sync, T: Threads + Wait + Sync>(
    rt: &T,
    alloc: Global,
) -> Result<Option<(Vec<WaitRef>, Vec<WaitRef>)>, AllocError>
    requires { W.handles ≡ 7 }
{
    let (queue, mut seats) = SubmitQueue::<W>::open(alloc, 5)?;
    let Some(a) = last_seat(&queue, &mut seats) else {
        return Ok(None);
    };
    let Some(b) = last_seat(&queue, &mut seats) else {
        return Ok(None);
    };
    let Some(c) = last_seat(&queue, &mut seats) else {
        return Ok(None);
    };
    let Some(d) = last_seat(&queue, &mut seats) else {
        return Ok(None);
    };
    let Some(e) = last_seat(&queue, &mut seats) else {
        return Ok(None);
    };
    let shared = &queue;
    let ((), popped) = join(
        rt,
        ||
            requires { IsSeatOf shared.now a × IsSeatOf shared.now b × IsSeatOf shared.now c
                × (7 ≤ W.handles) }
        { two_push(rt, shared, a, b, c) },
        || -> Result<(Vec<WaitRef>, Vec<WaitRef>), AllocError>
            requires { IsSeatOf shared.now d × IsSeatOf shared.now e }
        { two_pop(rt, alloc, shared, d, e) },
    );
    Ok(Some(popped?))
}

/// How often each generation stands in the list, of those below 500.
fn count_each(counts: &mut Vec<u32>, all: &[WaitRef]) {
    for reference in all {
        if reference.generation < 500 {
            let place = reference.generation as usize;
            if place < counts.len() {
                counts[place] = counts[place].saturating_add(1);
            }
        }
    }
}

#[test]
fn each_reference_is_popped_as_often_as_pushed(rt: HostRuntime) -> Result<(), Fail> {
    let Some((one, other)) = four_threads::<Brand, _>(&rt, rt.alloc())? else {
        panic!(&rt; "a queue has its seats")
    };
    let mut counts = Vec::from_elem(rt.alloc(), 0u32, 500)?;
    count_each(&mut counts, one.as_slice());
    count_each(&mut counts, other.as_slice());
    let wanted = Vec::from_elem(rt.alloc(), 4u32, 500)?;
    assert_eq!(&rt; counts.as_slice(), wanted.as_slice());
    assert_eq!(&rt; one.len() + other.len(), 2000);
    Ok(())
}
