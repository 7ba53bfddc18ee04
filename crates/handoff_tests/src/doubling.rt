//! A service: it doubles each number of a list.
ghost use Rattle.std.specs.Prelude.{◌≡◌, ◌≢◌, ◌*◌, ◌<◌, ◌≤◌, ◌^◌, map, None, IfSome};
ghost use Rattle.std.specs.List.{All};
ghost use Rattle.handoff.specs.HandoffViews.{IsClientOf, IsSameClient};

use handoff::{Client, Completion, Handoff, Service};
use std::sync::Wait;
use std::thread::yield_now;

/// The numbers are below a limit, and come back doubled.
pub(crate) struct Doubling;

impl Service<u64, Vec<u64>, Vec<u64>> for Doubling {
    ghost may_request = { λ limit q. (limit ≤ 2 ^ 63) × All (λ x. x < limit) q.items };

    ghost replies = { λ limit q a. a.items ≡ map (λ x. 2 * x) q.items };
}

pub(crate) type DoublingHandoff = Handoff<u64, Vec<u64>, Vec<u64>, Doubling>;

pub(crate) type DoublingClient = Client<u64, Vec<u64>, Vec<u64>>;

fn double(numbers: &mut [u64])
    requires { All (λ x. x < 2 ^ 63) numbers.old }
    ensures { numbers.new ≡ map (λ x. 2 * x) numbers.old }
{
    if let Some((first, others)) = numbers.split_first_mut() {
        *first *= 2;
        double(others);
    }
}

/// Each number doubled.
pub(crate) fn doubled(mut numbers: Vec<u64>) -> Vec<u64>
    requires { All (λ x. x < 2 ^ 63) numbers.items }
    ensures { result.items ≡ map (λ x. 2 * x) numbers.items }
{
    double(numbers.as_mut_slice());
    numbers
}

pub(crate) fn give_up_turns(turns: u32) {
    for _ in 0..turns {
        yield_now();
    }
}

/// Serves until the handoff is closed, and gives up so many turns before each reply. The answer is
/// how many requests it has served.
pub(crate) fn serve<T: Wait>(rt: &T, handoff: &DoublingHandoff, turns: u32) -> u64 {
    let mut served: u64 = 0;
    for _ in rt.forever() {
        match handoff.next(rt) {
            Some((numbers, pending)) => {
                give_up_turns(turns);
                handoff.reply(pending, doubled(numbers));
                served = served.wrapping_add(1);
            }
            None => return served,
        }
    }
    unreachable!()
}

/// Whether a server has replied, and the list doubled, by the server or else here.
pub(crate) fn complete_doubled<T: Wait>(
    rt: &T,
    handoff: &DoublingHandoff,
    client: &mut DoublingClient,
) -> (bool, Vec<u64>)
    requires client { IsClientOf handoff.now client.old }
    requires requested { client.old.requested ≢ None }
    requires small { IfSome client.old.requested (λ q. All (λ x. x < 2 ^ 63) q.items) }
    ensures same { IsSameClient client.old client.new }
    ensures idle { client.new.requested ≡ None }
    ensures doubled { IfSome client.old.requested
        (λ q. result.1.items ≡ map (λ x. 2 * x) q.items) }
{
    match handoff.complete(rt, client) {
        Completion::Reply(numbers) => (true, numbers),
        Completion::Request(numbers) => (false, doubled(numbers)),
    }
}
