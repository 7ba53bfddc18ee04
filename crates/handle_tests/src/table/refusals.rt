//! When a backend gets a handle, and why it gets none.
ghost use Rattle.std.specs.Prelude.{◌≡◌};

use crate::table::life::{acquire_again, close};
use aio_fixtures::{EmptyIo, add_actor, last_actor, no_actors, submit_acquired};
use aio_handle::{AcquireRefusal, Table};
use page_check::World;
use std::marker::Brand;
use std::process::Abort;
use std::test::Fail;

/// Acquire, release, acquire, and one more acquire, which is refused; then a definition.
fn acquired_twice<W: World, R: Abort + AllocGlobal>(rt: &R) -> Result<(), Fail>
    requires { W.handles ≡ 1 }
{
    let (table, mut actors) = Table::<EmptyIo, W>::open(rt.alloc(), 1, 1, 0, 0)?;
    let mut actor = last_actor(&table, &mut actors).ok_or("no actor")?;
    let (token, refusal) = acquire_again(&table, &mut actor).ok_or("no free handle")?;
    assert!(rt; refusal == AcquireRefusal::OneIsOut);
    let reference = table.define(&mut actor, token, EmptyIo::new()).reference();
    assert!(rt; reference.handle == 0 && reference.generation == 0);
    Ok(())
}

#[test]
fn one_is_out_until_it_is_released(rt: HostRuntime) -> Result<(), Fail> {
    acquired_twice::<Brand, _>(&rt)
}

/// The two handles of a backend, one after the other, and the refusals between.
fn both_handles<W: World, R: Abort + AllocGlobal>(rt: &R) -> Result<(), Fail>
    requires { W.handles ≡ 2 }
{
    let (table, mut actors) = Table::<EmptyIo, W>::open(rt.alloc(), 1, 2, 0, 0)?;
    let mut actor = last_actor(&table, &mut actors).ok_or("no actor")?;
    let (token, refusal) = acquire_again(&table, &mut actor).ok_or("no free handle")?;
    assert!(rt; refusal == AcquireRefusal::OneIsOut);
    let one = submit_acquired(&table, &mut actor, token, EmptyIo::new()).reference();
    let token = table.acquire(&mut actor)?;
    let other = table.define(&mut actor, token, EmptyIo::new()).reference();
    let refusal = table.acquire(&mut actor).err();
    assert!(rt; refusal == Some(AcquireRefusal::NoneFree));
    assert!(rt; one.handle != other.handle && one.handle < 2 && other.handle < 2);
    assert!(rt; one.generation == 0 && other.generation == 0);
    Ok(())
}

#[test]
fn each_handle_is_given_once(rt: HostRuntime) -> Result<(), Fail> {
    both_handles::<Brand, _>(&rt)
}

/// A table whose one handle begins at the last generation: the room and the number of its backend,
/// and those of its runner.
fn at_the_end<W: World, R: Abort + AllocGlobal>(rt: &R) -> Result<(), Fail>
    requires { W.handles ≡ 1 }
{
    let (table, mut actors) = Table::<EmptyIo, W>::open(rt.alloc(), 1, 1, 1, (1 << 58) - 1)?;
    let runner = last_actor(&table, &mut actors).ok_or("no actor")?;
    let mut backend = last_actor(&table, &mut actors).ok_or("no actor")?;
    let Err(refusal) = table.acquire(&mut backend) else {
        panic!(rt; "no handle is free")
    };
    assert!(rt; refusal == AcquireRefusal::NoneFree);
    assert!(rt; backend.room() == 0 && backend.number() == 0);
    assert!(rt; runner.room() == 0 && runner.number() == 1);
    let mut all = no_actors(&table, rt.alloc());
    add_actor(&table, &mut all, backend)?;
    add_actor(&table, &mut all, runner)?;
    assert!(rt; close(table, all) == (0, 0, 0));
    Ok(())
}

#[test]
fn the_last_generation_is_not_given(rt: HostRuntime) -> Result<(), Fail> {
    at_the_end::<Brand, _>(&rt)
}
