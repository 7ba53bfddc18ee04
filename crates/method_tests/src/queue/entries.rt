//! The references that the tests push, and the seats that push them.
ghost use Rattle.std.specs.Prelude.{◌≤◌, ◌<◌, ◌+◌, ◌^◌, IfSome};
ghost use Rattle.std.specs.List.{All};
ghost use Rattle.method_worker.specs.QueueViews.{IsSeatOf, IsSameSeat};

use aio_word::WaitRef;
use method_worker::{QueueFull, QueueSeat, SubmitQueue};
use page_check::World;
use std::sync::Wait;

/// The handles of the references that the tests push.
const HANDLES: u32 = 7;

/// The reference of this number: some numbers give equal references.
pub(super) fn reference(number: u32) -> WaitRef
    ensures { result.handle < 7 }
{
    WaitRef {
        handle: number % HANDLES,
        generation: u64::from(number % 500),
    }
}

/// The last of these seats.
pub(crate) fn last_seat<W: World>(
    queue: &SubmitQueue<W>,
    seats: &mut Vec<QueueSeat>,
) -> Option<QueueSeat>
    requires { All (IsSeatOf queue.now) seats.old.items }
    ensures left { All (IsSeatOf queue.now) seats.new.items }
    ensures seat { IfSome result (IsSeatOf queue.now) }
{
    match seats.pop() {
        Some(seat) => Some(seat),
        None => None,
    }
}

/// So many pushes of the references from this number on: how many were Ok, and the last refusal.
pub(super) fn push_from<W: World, T: Wait>(
    rt: &T,
    queue: &SubmitQueue<W>,
    seat: &mut QueueSeat,
    first: u32,
    count: u32,
) -> (u32, Option<QueueFull>)
    requires queue { IsSeatOf queue.now seat.old }
    requires handles { 7 ≤ W.handles }
    requires few { first + count < 2 ^ 32 }
    ensures same { IsSameSeat seat.old seat.new }
{
    let mut pushed = 0;
    let mut refused = None;
    for number in 0..count {
        match queue.push(rt, seat, reference(first + number)) {
            Ok(()) => pushed += 1,
            Err(full) => refused = Some(full),
        }
    }
    (pushed, refused)
}
