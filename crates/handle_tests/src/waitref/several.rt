//! Several actors that wait for one I/O.
ghost use Rattle.std.specs.Prelude.{◌≡◌, ◌<◌};
ghost use Rattle.aio_word.specs.Tokens.{IsInFlight};
ghost use Rattle.aio_handle.specs.ContractViews.{IsActorOf};
ghost use Rattle.aio_fixtures.specs.Actors.{HasClaimed};

use crate::second_handle::submit_second;
use crate::waitref::claimed::{SHORT, owner_beside_runner};
use crate::waitref::moment::Moment;
use crate::waitref::own::WaitOutcome;
use aio_fixtures::{EmptyIo, WholeExecutor, claim_io, last_actor};
use aio_handle::{Actor, Table};
use aio_waitref::wait;
use aio_word::WaitRef;
use page_check::World;
use std::alloc::{AllocError, Global};
use std::marker::Brand;
use std::sync::Wait;
use std::thread::{Threads, join};

/// Waits for another's I/O, and answers how often its own executor was called.
fn wait_beside<W: World, T: Wait>(
    rt: &T,
    table: &Table<EmptyIo, W>,
    mut actor: Actor<EmptyIo, W>,
    reference: WaitRef,
    moment: &Moment,
) -> u64
    requires table { IsActorOf table.now actor }
    requires range { reference.handle < W.handles }
{
    let mut executor = WholeExecutor::<W>::new();
    moment.begin();
    wait(rt, table, &mut actor, reference, &mut executor);
    executor.calls
}

/// Two actors wait for the same I/O in threads of their own. Answers how often their executors were
/// called.
fn two_wait<W: World + Send + Sync, T: Threads + Wait + Sync>(
    rt: &T,
    table: &Table<EmptyIo, W>,
    one: Actor<EmptyIo, W>,
    other: Actor<EmptyIo, W>,
    reference: WaitRef,
    moment: &Moment,
) -> (u64, u64)
    requires one { IsActorOf table.now one }
    requires other { IsActorOf table.now other }
    requires range { reference.handle < W.handles }
{
    join(
        rt,
        || -> u64
            requires { IsActorOf table.now one × (reference.handle < W.handles) }
        { wait_beside(rt, table, one, reference, moment) },
        || -> u64
            requires { IsActorOf table.now other × (reference.handle < W.handles) }
        { wait_beside(rt, table, other, reference, moment) },
    )
}

/// The owner and two others wait for one I/O of handle 5, which a fourth actor has claimed and
/// ends short.
fn three_wait<W: World + Send + Sync, T: Threads + Wait + Sync>(
    rt: &T,
    alloc: Global,
    turns: u32,
) -> Result<Option<(WaitOutcome, (u64, u64))>, AllocError>
    requires { W.handles ≡ 8 }
{
    let (table, mut actors) = Table::<EmptyIo, W>::open(alloc, 2, 4, 3, 0)?;
    let Some(mut fourth) = last_actor(&table, &mut actors) else {
        return Ok(None);
    };
    let Some(third) = last_actor(&table, &mut actors) else {
        return Ok(None);
    };
    let Some(second) = last_actor(&table, &mut actors) else {
        return Ok(None);
    };
    let Some(mut owner) = last_actor(&table, &mut actors) else {
        return Ok(None);
    };
    let Some(token) = submit_second(&table, &mut owner) else {
        return Ok(None);
    };
    let reference = token.reference();
    let Some(claimed) = claim_io(&table, &mut fourth, reference) else {
        return Ok(None);
    };
    let moment = Moment::new(3, turns);
    let shared = &table;
    Ok(Some(join(
        rt,
        || -> WaitOutcome
            requires { IsActorOf shared.now owner × IsInFlight owner.known token
                × HasClaimed shared.now fourth claimed.0 claimed.1.label × (W.handles ≡ 8) }
        { owner_beside_runner(rt, shared, owner, token, fourth, claimed, &moment) },
        || -> (u64, u64)
            requires { IsActorOf shared.now second × IsActorOf shared.now third
                × (reference.handle < W.handles) }
        { two_wait(rt, shared, second, third, reference, &moment) },
    )))
}

#[test]
fn all_that_rest_on_one_io_return(rt: HostRuntime) -> Result<(), AllocError> {
    for turns in 0..100 {
        let Some((owner, others)) = three_wait::<Brand, _>(&rt, rt.alloc(), 20 * turns)? else {
            panic!(&rt; "a handle is free")
        };
        assert!(&rt; owner == SHORT && others == (0, 0));
    }
    Ok(())
}
