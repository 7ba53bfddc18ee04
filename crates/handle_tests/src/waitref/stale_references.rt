//! A wait for an I/O that is over.
ghost use Rattle.std.specs.Prelude.{◌≡◌, ◌<◌};
ghost use Rattle.aio_handle.specs.ContractViews.{IsActorOf, IsSameActor};

use aio_fixtures::{EmptyIo, WholeExecutor, last_actor, submit_io};
use aio_handle::{Actor, Table};
use aio_waitref::{wait, wait_own};
use aio_word::WaitRef;
use page_check::World;
use std::marker::Brand;
use std::process::Abort;
use std::sync::Wait;
use std::test::Fail;

/// One whole life of a handle that is free, which the actor executes by waiting.
fn live<W: World, T: Wait>(rt: &T, table: &Table<EmptyIo, W>, actor: &mut Actor<EmptyIo, W>) -> bool
    requires table { IsActorOf table.now actor.old }
    requires backend { actor.old.known.number < table.now.config.backends }
    ensures same { IsSameActor actor.old actor.new }
{
    let Some(token) = submit_io(table, actor, EmptyIo::new()) else {
        return false;
    };
    let mut executor = WholeExecutor::<W>::new();
    let mut local = wait_own(rt, table, actor, token, &mut executor);
    local.record_mut().label.settled = true;
    table.reclaim(actor, local);
    true
}

/// A handle lives three times, and has a fourth I/O in flight. Another actor then waits for the
/// first: its executor is not called, and the fourth can still be claimed.
fn wait_for_the_first<W: World, R: Abort + AllocGlobal + Wait>(rt: &R) -> Result<(), Fail>
    requires { W.handles ≡ 1 }
{
    let (table, mut actors) = Table::<EmptyIo, W>::open(rt.alloc(), 1, 1, 1, 5)?;
    let mut waiter = last_actor(&table, &mut actors).ok_or("no actor")?;
    let mut owner = last_actor(&table, &mut actors).ok_or("no actor")?;
    assert!(rt; live(rt, &table, &mut owner));
    assert!(rt; live(rt, &table, &mut owner));
    assert!(rt; live(rt, &table, &mut owner));
    let token = submit_io(&table, &mut owner, EmptyIo::new()).ok_or("no free handle")?;
    let first = WaitRef {
        handle: 0,
        generation: 5,
    };
    let mut executor = WholeExecutor::<W>::new();
    wait(rt, &table, &mut waiter, first, &mut executor);
    assert!(rt; executor.calls == 0);
    assert!(rt; table.claim(&mut waiter, token.reference()).is_some());
    Ok(())
}

#[test]
fn reference_three_generations_old_returns_at_once(rt: HostRuntime) -> Result<(), Fail> {
    wait_for_the_first::<Brand, _>(&rt)
}
