//! A sleep on a handle, and the count of sleepers behind it.
ghost use Rattle.std.specs.Prelude.{◌≡◌, ◌<◌};
ghost use Rattle.aio_handle.specs.ContractViews.{IsActorOf};
ghost use Rattle.aio_fixtures.specs.Actors.{HasClaimed};

use crate::second_handle::submit_second;
use aio_fixtures::{EmptyIo, claim_io, complete_as, last_actor};
use aio_handle::{Actor, Claimed, Table};
use aio_word::{Class, WaitRef};
use page_check::World;
use std::marker::Brand;
use std::process::Abort;
use std::sync::Wait;
use std::test::Fail;
use std::thread::{Threads, join, yield_now};

/// Ends the I/O once somebody is counted on its handle.
fn end_beside_a_sleeper<W: World, T: Wait>(
    rt: &T,
    table: &Table<EmptyIo, W>,
    mut runner: Actor<EmptyIo, W>,
    claimed: Claimed<EmptyIo, W>,
    handle: u32,
)
    requires runner { HasClaimed table.now runner claimed.0 claimed.1.label }
    requires range { handle < W.handles }
{
    for _ in rt.forever() {
        if table.is_rested_on(handle) {
            break;
        }
        yield_now();
    }
    complete_as(table, &mut runner, claimed, Class::Whole);
}

/// An owner sleeps on its I/O until a runner ends it. Answers whether the owner then finds it done.
fn sleep_beside_runner<W: World + Send + Sync, T: Threads + Wait + Sync>(
    rt: &T,
    table: &Table<EmptyIo, W>,
    mut owner: Actor<EmptyIo, W>,
    reference: WaitRef,
    runner: Actor<EmptyIo, W>,
    claimed: Claimed<EmptyIo, W>,
) -> bool
    requires owner { IsActorOf table.now owner }
    requires range { reference.handle < W.handles }
    requires runner { HasClaimed table.now runner claimed.0 claimed.1.label }
{
    let (done, ()) = join(
        rt,
        || -> bool
            requires { IsActorOf table.now owner × (reference.handle < W.handles) }
        {
            table.rest(rt, &mut owner, reference);
            table.check(&mut owner, reference)
        },
        ||
            requires { HasClaimed table.now runner claimed.0 claimed.1.label
                × (reference.handle < W.handles) }
        { end_beside_a_sleeper(rt, table, runner, claimed, reference.handle) },
    );
    done
}

/// Behind a sleep its I/O is done, and nobody is counted on one of the two handles any more.
fn sleep_once<W: World + Send + Sync, R: Abort + AllocGlobal + Threads + Wait + Sync>(
    rt: &R,
) -> Result<(), Fail>
    requires { W.handles ≡ 2 }
{
    let (table, mut actors) = Table::<EmptyIo, W>::open(rt.alloc(), 1, 2, 1, 0)?;
    let mut runner = last_actor(&table, &mut actors).ok_or("no actor")?;
    let mut owner = last_actor(&table, &mut actors).ok_or("no actor")?;
    let token = submit_second(&table, &mut owner).ok_or("no free handle")?;
    let reference = token.reference();
    let claimed = claim_io(&table, &mut runner, reference).ok_or("the I/O is not claimed")?;
    assert!(rt; reference.handle == 1);
    assert!(rt; sleep_beside_runner(rt, &table, owner, reference, runner, claimed));
    assert!(rt; !table.is_rested_on(0) && !table.is_rested_on(1));
    Ok(())
}

#[test]
fn an_actor_sleeps_until_its_io_ends(rt: HostRuntime) -> Result<(), Fail> {
    sleep_once::<Brand, _>(&rt)
}
