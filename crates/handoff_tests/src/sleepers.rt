//! Servers and a client that sleep, and are woken.
ghost use Rattle.std.specs.Prelude.{◌≡◌, None};
ghost use Rattle.handoff.specs.HandoffViews.{IsClientOf, IsSameClient};

use crate::doubling::{
    DoublingClient, DoublingHandoff, complete_doubled, doubled, give_up_turns, serve,
};
use std::alloc::{AllocError, Global};
use std::sync::Wait;
use std::test::Fail;
use std::thread::{Threads, join, sleep};
use std::time::{Clock, Duration};

/// Longer than any thread looks at the word before it sleeps.
const UNTIL_ASLEEP: u64 = 2;

/// Puts a list until a server replies: the reply.
fn request_until_reply<T: Wait + Clock>(
    rt: &T,
    alloc: Global,
    handoff: &DoublingHandoff,
    client: &mut DoublingClient,
) -> Result<Vec<u64>, AllocError>
    requires client { IsClientOf handoff.now client.old × (client.old.requested ≡ None) }
    requires limit { handoff.now.key ≡ 1000 }
    ensures client { IsSameClient client.old client.new × (client.new.requested ≡ None) }
{
    for _ in rt.forever() {
        sleep(rt, Duration::from_millis(UNTIL_ASLEEP));
        handoff.put(client, Vec::from_array(alloc, [7, 9])?);
        sleep(rt, Duration::from_millis(UNTIL_ASLEEP));
        let (by_server, numbers) = complete_doubled(rt, handoff, client);
        if by_server {
            return Ok(numbers);
        }
    }
    unreachable!()
}

/// The same, and then the handoff is closed, also where memory ran out.
fn request_and_close<T: Wait + Clock>(
    rt: &T,
    alloc: Global,
    handoff: &DoublingHandoff,
    mut client: DoublingClient,
) -> Result<Vec<u64>, AllocError>
    requires client { IsClientOf handoff.now client × (client.requested ≡ None) }
    requires limit { handoff.now.key ≡ 1000 }
{
    let numbers = request_until_reply(rt, alloc, handoff, &mut client);
    handoff.close(&mut client);
    numbers
}

/// Serves until the handoff is closed, and lets the client fall asleep before each reply.
fn serve_slowly<T: Wait + Clock>(rt: &T, handoff: &DoublingHandoff) {
    for _ in rt.forever() {
        match handoff.next(rt) {
            Some((numbers, pending)) => {
                sleep(rt, Duration::from_millis(2 * UNTIL_ASLEEP));
                handoff.reply(pending, doubled(numbers));
            }
            None => break,
        }
    }
}

/// A server that sleeps when the request comes: what it has served, and the reply.
fn wake_server<R: Threads + Wait + Clock + Sync>(
    rt: &R,
    alloc: Global,
) -> Result<(u64, Vec<u64>), AllocError> {
    let (handoff, client) = DoublingHandoff::open(alloc, &1000)?;
    let (served, numbers) = join(
        rt,
        || serve(rt, &handoff, 0),
        || request_and_close(rt, alloc, &handoff, client),
    );
    Ok((served, numbers?))
}

#[test]
fn a_sleeping_server_is_woken_by_a_request(rt: HostRuntime) -> Result<(), Fail> {
    for _ in 0..10u32 {
        let (served, numbers) = wake_server(&rt, rt.alloc())?;
        assert_eq!(&rt; served, 1);
        assert!(rt; numbers.as_slice() == [14, 18].as_slice());
    }
    Ok(())
}

/// A client that sleeps when the reply comes: the reply.
fn wake_client<R: Threads + Wait + Clock + Sync>(
    rt: &R,
    alloc: Global,
) -> Result<Vec<u64>, AllocError> {
    let (handoff, client) = DoublingHandoff::open(alloc, &1000)?;
    let (_, numbers) = join(
        rt,
        || serve_slowly(rt, &handoff),
        || request_and_close(rt, alloc, &handoff, client),
    );
    numbers
}

#[test]
fn a_sleeping_client_is_woken_by_the_reply(rt: HostRuntime) -> Result<(), Fail> {
    for _ in 0..10u32 {
        let numbers = wake_client(&rt, rt.alloc())?;
        assert!(rt; numbers.as_slice() == [14, 18].as_slice());
    }
    Ok(())
}

/// Closes the handoff after so many turns.
fn close_after(handoff: &DoublingHandoff, mut client: DoublingClient, turns: u32)
    requires client { IsClientOf handoff.now client × (client.requested ≡ None) }
{
    give_up_turns(turns);
    handoff.close(&mut client);
}

/// Two servers of a handoff that is closed after so many turns: what each has served.
fn close_beside<R: Threads + Wait + Sync>(
    rt: &R,
    alloc: Global,
    turns: u32,
) -> Result<(u64, u64), AllocError> {
    let (handoff, client) = DoublingHandoff::open(alloc, &1000)?;
    let (served, _) = join(
        rt,
        || join(rt, || serve(rt, &handoff, 0), || serve(rt, &handoff, 0)),
        || close_after(&handoff, client, turns),
    );
    Ok(served)
}

// The handoff is closed at another moment of the servers' turns each time: before they look, while
// they look, on their way to sleep, and asleep.
#[test]
fn servers_return_once_the_handoff_is_closed(rt: HostRuntime) -> Result<(), Fail> {
    for turns in [0, 1, 10, 20, 30, 50, 70, 100, 150, 200, 300, 1000, 10000] {
        let served = close_beside(&rt, rt.alloc(), turns)?;
        assert_eq!(&rt; served, (0, 0), "after {turns}");
    }
    Ok(())
}
