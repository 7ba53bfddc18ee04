//! Whole lives of handles, and how they are counted.
ghost use Rattle.std.specs.Prelude.{◌≡◌};

use crate::table::life::{acquire_again, close, live, live_on};
use aio_fixtures::{EmptyIo, add_actor, complete_as, last_actor, no_actors, submit_acquired};
use aio_handle::{AcquireRefusal, Table, Take};
use aio_word::Class;
use page_check::World;
use std::marker::Brand;
use std::process::Abort;
use std::test::Fail;

/// Acquire, release, acquire, a refusal, and a whole life of what was acquired.
fn one_life<W: World, R: Abort + AllocGlobal>(rt: &R) -> Result<(), Fail>
    requires { W.handles ≡ 1 }
{
    let (table, mut actors) = Table::<EmptyIo, W>::open(rt.alloc(), 1, 1, 0, 0)?;
    let mut actor = last_actor(&table, &mut actors).ok_or("no actor")?;
    let (token, refusal) = acquire_again(&table, &mut actor).ok_or("no free handle")?;
    assert!(rt; refusal == AcquireRefusal::OneIsOut);
    if !live_on(&table, &mut actor, token) {
        panic!(rt; "the life is whole")
    }
    let mut all = no_actors(&table, rt.alloc());
    add_actor(&table, &mut all, actor)?;
    assert!(rt; close(table, all) == (1, 1, 0));
    Ok(())
}

#[test]
fn a_life_is_counted_once(rt: HostRuntime) -> Result<(), Fail> {
    one_life::<Brand, _>(&rt)
}

/// The last life of a handle, and the refusal after it.
fn last_life<W: World, R: Abort + AllocGlobal>(rt: &R) -> Result<(), Fail>
    requires { W.handles ≡ 1 }
{
    let (table, mut actors) = Table::<EmptyIo, W>::open(rt.alloc(), 1, 1, 0, (1 << 58) - 2)?;
    let mut actor = last_actor(&table, &mut actors).ok_or("no actor")?;
    if !live(&table, &mut actor) {
        panic!(rt; "a handle is free")
    }
    let Err(refusal) = table.acquire(&mut actor) else {
        panic!(rt; "there is no generation behind the last")
    };
    assert!(rt; refusal == AcquireRefusal::NoneFree);
    let mut all = no_actors(&table, rt.alloc());
    add_actor(&table, &mut all, actor)?;
    assert!(rt; close(table, all) == (1, 1, 0));
    Ok(())
}

#[test]
fn one_life_before_the_last_generation(rt: HostRuntime) -> Result<(), Fail> {
    last_life::<Brand, _>(&rt)
}

/// The record of a life is bound once, as it shows when it is claimed and when it comes back.
fn bound_in_a_life<W: World, R: Abort + AllocGlobal>(rt: &R) -> Result<(), Fail>
    requires { W.handles ≡ 1 }
{
    let (table, mut actors) = Table::<EmptyIo, W>::open(rt.alloc(), 1, 1, 0, 0)?;
    let mut actor = last_actor(&table, &mut actors).ok_or("no actor")?;
    let token = table.acquire(&mut actor)?;
    let token = submit_acquired(&table, &mut actor, token, EmptyIo::new());
    let claimed = table
        .claim(&mut actor, token.reference())
        .ok_or("not claimed")?;
    assert!(rt; claimed.record().binds == 1);
    complete_as(&table, &mut actor, claimed, Class::Whole);
    let Take::Ready(local) = table.try_take(&mut actor, token) else {
        panic!(rt; "the I/O has ended")
    };
    assert!(rt; local.record().binds == 1);
    Ok(())
}

#[test]
fn a_record_is_bound_once_a_life(rt: HostRuntime) -> Result<(), Fail> {
    bound_in_a_life::<Brand, _>(&rt)
}
