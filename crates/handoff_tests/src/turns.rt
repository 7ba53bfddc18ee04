//! Two servers beside the client, through many turns.
ghost use Rattle.std.specs.Prelude.{◌≡◌, ◌<◌, ◌≤◌, None};
ghost use Rattle.handoff.specs.HandoffViews.{IsClientOf, IsSameClient};

use crate::doubling::{DoublingClient, DoublingHandoff, complete_doubled, give_up_turns, serve};
use std::alloc::{AllocError, Global};
use std::sync::Wait;
use std::test::Fail;
use std::thread::{Threads, join};

const TURNS: u64 = 1000;

/// How the turns of a client went.
#[derive(Drop, Clone, Copy, PartialEq, Debug)]
struct Tally {
    /// How often a server replied.
    replies: u64,
    /// How many lists were not the doubled ones.
    wrong: u64,
}

impl Tally {
    fn count(&mut self, by_server: bool, right: bool) {
        if by_server {
            self.replies = self.replies.wrapping_add(1);
        }
        if !right {
            self.wrong = self.wrong.wrapping_add(1);
        }
    }
}

/// In each turn two numbers go out and come back doubled.
fn request_often<T: Wait>(
    rt: &T,
    alloc: Global,
    handoff: &DoublingHandoff,
    client: &mut DoublingClient,
) -> Result<Tally, AllocError>
    requires client { IsClientOf handoff.now client.old × (client.old.requested ≡ None) }
    requires limit { handoff.now.key ≡ 10000 }
    ensures client { IsSameClient client.old client.new × (client.new.requested ≡ None) }
{
    let mut tally = Tally {
        replies: 0,
        wrong: 0,
    };
    for n in 0..TURNS {
        handoff.put(client, Vec::from_array(alloc, [n, n + 1])?);
        give_up_turns((n % 8) as u32);
        let (by_server, numbers) = complete_doubled(rt, handoff, client);
        tally.count(
            by_server,
            numbers.as_slice() == [2 * n, 2 * n + 2].as_slice(),
        );
    }
    Ok(tally)
}

/// The same, and then the handoff is closed, also where memory ran out.
fn request_and_close<T: Wait>(
    rt: &T,
    alloc: Global,
    handoff: &DoublingHandoff,
    mut client: DoublingClient,
) -> Result<Tally, AllocError>
    requires client { IsClientOf handoff.now client × (client.requested ≡ None) }
    requires limit { handoff.now.key ≡ 10000 }
{
    let tally = request_often(rt, alloc, handoff, &mut client);
    handoff.close(&mut client);
    tally
}

/// Two servers at one handoff: how many requests each has served, and how the client's turns went.
fn two_servers<R: Threads + Wait + Sync>(
    rt: &R,
    alloc: Global,
) -> Result<(u64, u64, Tally), AllocError> {
    let (handoff, client) = DoublingHandoff::open(alloc, &10000)?;
    let ((first, second), tally) = join(
        rt,
        || join(rt, || serve(rt, &handoff, 0), || serve(rt, &handoff, 3)),
        || request_and_close(rt, alloc, &handoff, client),
    );
    Ok((first, second, tally?))
}

#[test]
fn two_servers_serve_each_request_at_most_once(rt: HostRuntime) -> Result<(), Fail> {
    let (first, second, tally) = two_servers(&rt, rt.alloc())?;
    assert_eq!(&rt; tally.wrong, 0);
    assert_eq!(&rt; first.wrapping_add(second), tally.replies);
    Ok(())
}

/// The client of two handoffs: in each turn two lists go out at once, and come back doubled.
fn request_both_often<T: Wait>(
    rt: &T,
    alloc: Global,
    left: &DoublingHandoff,
    right: &DoublingHandoff,
    first: &mut DoublingClient,
    second: &mut DoublingClient,
) -> Result<Tally, AllocError>
    requires first { IsClientOf left.now first.old × (first.old.requested ≡ None) }
    requires second { IsClientOf right.now second.old × (second.old.requested ≡ None) }
    requires limit { (left.now.key ≡ 10000) × (right.now.key ≡ 10000) }
    ensures first { IsSameClient first.old first.new × (first.new.requested ≡ None) }
    ensures second { IsSameClient second.old second.new × (second.new.requested ≡ None) }
{
    let mut tally = Tally {
        replies: 0,
        wrong: 0,
    };
    for n in 0..TURNS {
        let a = Vec::from_array(alloc, [n, n + 1])?;
        let b = Vec::from_array(alloc, [n + 2])?;
        left.put(first, a);
        right.put(second, b);
        give_up_turns((n % 8) as u32);
        let (at_left, a) = complete_doubled(rt, left, first);
        let (at_right, b) = complete_doubled(rt, right, second);
        tally.count(at_left, a.as_slice() == [2 * n, 2 * n + 2].as_slice());
        tally.count(at_right, b.as_slice() == [2 * n + 4].as_slice());
    }
    Ok(tally)
}

/// The same, and then both handoffs are closed, also where memory ran out.
fn request_both_and_close<T: Wait>(
    rt: &T,
    alloc: Global,
    left: &DoublingHandoff,
    right: &DoublingHandoff,
    mut first: DoublingClient,
    mut second: DoublingClient,
) -> Result<Tally, AllocError>
    requires first { IsClientOf left.now first × (first.requested ≡ None) }
    requires second { IsClientOf right.now second × (second.requested ≡ None) }
    requires limit { (left.now.key ≡ 10000) × (right.now.key ≡ 10000) }
{
    let tally = request_both_often(rt, alloc, left, right, &mut first, &mut second);
    left.close(&mut first);
    right.close(&mut second);
    tally
}

/// Two handoffs with a server each: how many requests each server has served, and how the client's
/// turns went.
fn two_handoffs<R: Threads + Wait + Sync>(
    rt: &R,
    alloc: Global,
) -> Result<(u64, u64, Tally), AllocError> {
    let (left, first) = DoublingHandoff::open(alloc, &10000)?;
    let (right, second) = DoublingHandoff::open(alloc, &10000)?;
    let ((at_left, at_right), tally) = join(
        rt,
        || join(rt, || serve(rt, &left, 1), || serve(rt, &right, 0)),
        || request_both_and_close(rt, alloc, &left, &right, first, second),
    );
    Ok((at_left, at_right, tally?))
}

#[test]
fn each_reply_is_that_of_its_own_request(rt: HostRuntime) -> Result<(), Fail> {
    let (at_left, at_right, tally) = two_handoffs(&rt, rt.alloc())?;
    assert_eq!(&rt; tally.wrong, 0);
    assert_eq!(&rt; at_left.wrapping_add(at_right), tally.replies);
    Ok(())
}
