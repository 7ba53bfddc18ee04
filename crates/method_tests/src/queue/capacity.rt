//! How many entries a queue holds, and what it answers beyond them.
ghost use Rattle.std.specs.Prelude.{◌≡◌, ◌≤◌};
ghost use Rattle.std.specs.List.{All};
ghost use Rattle.method_worker.specs.QueueViews.{IsSeatOf, IsSameSeat};

use crate::queue::entries::{last_seat, push_from, reference};
use method_worker::{Pop, QueueFull, QueueSeat, SubmitQueue};
use page_check::World;
use std::alloc::{AllocError, Global};
use std::marker::Brand;
use std::sync::Wait;
use std::test::Fail;

/// So many pops.
fn pop_times<W: World, T: Wait>(
    rt: &T,
    queue: &SubmitQueue<W>,
    seat: &mut QueueSeat,
    count: u32,
    pops: &mut Vec<Pop>,
) -> Result<(), AllocError>
    requires queue { IsSeatOf queue.now seat.old }
    ensures same { IsSameSeat seat.old seat.new }
{
    for _ in 0..count {
        pops.push(queue.pop(rt, seat))?;
    }
    Ok(())
}

/// What a queue of one seat answered.
#[derive(Drop)]
struct Answers {
    pushed: u32,
    refused: Option<QueueFull>,
    pops: Vec<Pop>,
}

/// 65 pushes and 65 pops, a pop after a close, one after a reopening, two after a push and two
/// closes, and two after a push to the closed queue.
fn one_seat<W: World, T: Wait>(rt: &T, alloc: Global) -> Result<Option<Answers>, AllocError>
    requires { W.handles ≡ 7 }
{
    let (mut queue, mut seats) = SubmitQueue::<W>::open(alloc, 1)?;
    let Some(mut seat) = last_seat(&queue, &mut seats) else {
        return Ok(None);
    };
    let mut pops = Vec::new(alloc);
    let (pushed, refused) = push_from(rt, &queue, &mut seat, 0, 65);
    pop_times(rt, &queue, &mut seat, 65, &mut pops)?;
    queue.close(rt, &mut seat);
    pop_times(rt, &queue, &mut seat, 1, &mut pops)?;
    queue.reopen(&mut seat);
    pop_times(rt, &queue, &mut seat, 1, &mut pops)?;
    push_from(rt, &queue, &mut seat, 65, 1);
    queue.close(rt, &mut seat);
    queue.close(rt, &mut seat);
    pop_times(rt, &queue, &mut seat, 2, &mut pops)?;
    push_from(rt, &queue, &mut seat, 66, 1);
    pop_times(rt, &queue, &mut seat, 2, &mut pops)?;
    Ok(Some(Answers {
        pushed,
        refused,
        pops,
    }))
}

/// 64 pushes, two by each of 32 seats: how many were Ok.
fn push_two_by_each<W: World, T: Wait>(
    rt: &T,
    queue: &SubmitQueue<W>,
    seats: &mut Vec<QueueSeat>,
) -> u32
    requires seats { All (IsSeatOf queue.now) seats.old.items }
    requires handles { 7 ≤ W.handles }
    ensures seats { All (IsSeatOf queue.now) seats.new.items }
{
    let mut pushed = 0u32;
    for pair in 0..32 {
        if let Some(mut seat) = last_seat(queue, seats) {
            let (more, _) = push_from(rt, queue, &mut seat, 2 * pair, 2);
            pushed = pushed.saturating_add(more);
        }
    }
    pushed
}

/// 75 pops, five by each of 15 seats.
fn pop_five_by_each<W: World, T: Wait>(
    rt: &T,
    queue: &SubmitQueue<W>,
    seats: &mut Vec<QueueSeat>,
    pops: &mut Vec<Pop>,
) -> Result<(), AllocError>
    requires { All (IsSeatOf queue.now) seats.old.items }
{
    for _ in 0..15 {
        if let Some(mut seat) = last_seat(queue, seats) {
            pop_times(rt, queue, &mut seat, 5, pops)?;
        }
    }
    Ok(())
}

/// 64 pushes by the first 32 of 48 seats, one more by the next, and 75 pops by the other 15.
fn seat_after_seat<W: World, T: Wait>(rt: &T, alloc: Global) -> Result<Option<Answers>, AllocError>
    requires { W.handles ≡ 7 }
{
    let (queue, mut seats) = SubmitQueue::<W>::open(alloc, 48)?;
    let pushed = push_two_by_each(rt, &queue, &mut seats);
    let Some(mut seat) = last_seat(&queue, &mut seats) else {
        return Ok(None);
    };
    let (_, refused) = push_from(rt, &queue, &mut seat, 64, 1);
    let mut pops = Vec::new(alloc);
    pop_five_by_each(rt, &queue, &mut seats, &mut pops)?;
    Ok(Some(Answers {
        pushed,
        refused,
        pops,
    }))
}

/// The pops of references of the numbers below 64, in their order.
fn entries_in_order(alloc: Global) -> Result<Vec<Pop>, AllocError> {
    let mut pops = Vec::new(alloc);
    for number in 0..64 {
        pops.push(Pop::Entry(reference(number)))?;
    }
    Ok(pops)
}

#[test]
fn queue_of_64_entries(rt: HostRuntime) -> Result<(), Fail> {
    let Some(answers) = one_seat::<Brand, _>(&rt, rt.alloc())? else {
        panic!(&rt; "a queue has a seat")
    };
    assert_eq!(&rt; answers.pushed, 64);
    assert_eq!(&rt; answers.refused, Some(QueueFull(reference(64))));
    let mut wanted = entries_in_order(rt.alloc())?;
    let rest = [
        Pop::Empty,
        Pop::Closed,
        Pop::Empty,
        Pop::Entry(reference(65)),
        Pop::Closed,
        Pop::Entry(reference(66)),
        Pop::Closed,
    ];
    wanted.extend_from_slice(&rest)?;
    assert_eq!(&rt; answers.pops.as_slice(), wanted.as_slice());
    Ok(())
}

#[test]
fn queue_of_64_entries_and_48_seats(rt: HostRuntime) -> Result<(), Fail> {
    let Some(answers) = seat_after_seat::<Brand, _>(&rt, rt.alloc())? else {
        panic!(&rt; "a queue has 48 seats")
    };
    assert_eq!(&rt; answers.pushed, 64);
    assert_eq!(&rt; answers.refused, Some(QueueFull(reference(64))));
    let mut wanted = entries_in_order(rt.alloc())?;
    wanted.extend_from_slice(&[Pop::Empty; 11])?;
    assert_eq!(&rt; answers.pops.as_slice(), wanted.as_slice());
    Ok(())
}
