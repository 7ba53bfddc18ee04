//! References of generations before and after that of an I/O in flight, below the start and far
//! above it.
ghost use Rattle.std.specs.Prelude.{◌≡◌};

use crate::table::life::live;
use aio_fixtures::{EmptyIo, last_actor, submit_io};
use aio_handle::{Table, Take};
use aio_word::WaitRef;
use page_check::World;
use std::marker::Brand;
use std::process::Abort;
use std::test::Fail;

/// The reference of the one handle at this generation.
fn of_generation(generation: u64) -> WaitRef
    ensures { result ≡ record { handle = 0; generation = generation } }
{
    WaitRef {
        handle: 0,
        generation,
    }
}

/// References of the generations before, at and after that of an I/O in flight.
fn of_three_generations<W: World, R: Abort + AllocGlobal>(rt: &R) -> Result<(), Fail>
    requires { W.handles ≡ 1 }
{
    let (table, mut actors) = Table::<EmptyIo, W>::open(rt.alloc(), 1, 1, 1, 5)?;
    let mut runner = last_actor(&table, &mut actors).ok_or("no actor")?;
    let mut backend = last_actor(&table, &mut actors).ok_or("no actor")?;
    assert!(rt; live(&table, &mut backend));
    let token = submit_io(&table, &mut backend, EmptyIo::new()).ok_or("no free handle")?;
    let (old, now, later) = (of_generation(5), of_generation(6), of_generation(7));
    assert!(rt; table.check(&mut runner, old));
    assert!(rt; !table.check(&mut runner, now));
    assert!(rt; !table.check(&mut runner, later));
    assert!(rt; table.claim(&mut runner, old).is_none());
    assert!(rt; table.claim(&mut runner, now).is_some());
    assert!(rt; table.claim(&mut runner, now).is_none());
    assert!(rt; matches!(table.try_take(&mut backend, token), Take::NotYet(_)));
    Ok(())
}

#[test]
fn stale_reference(rt: HostRuntime) -> Result<(), Fail> {
    of_three_generations::<Brand, _>(&rt)
}

/// References below the start, at it and far above it, and one that was reclaimed.
fn of_far_generations<W: World, R: Abort + AllocGlobal>(rt: &R) -> Result<(), Fail>
    requires { W.handles ≡ 1 }
{
    let (table, mut actors) = Table::<EmptyIo, W>::open(rt.alloc(), 1, 1, 1, 7)?;
    let mut runner = last_actor(&table, &mut actors).ok_or("no actor")?;
    let mut backend = last_actor(&table, &mut actors).ok_or("no actor")?;
    let (below, first, far) = (of_generation(6), of_generation(7), of_generation(u64::MAX));
    assert!(rt; table.check(&mut runner, below));
    assert!(rt; !table.check(&mut runner, first));
    assert!(rt; !table.check(&mut runner, far));
    assert!(rt; table.claim(&mut runner, far).is_none());
    assert!(rt; live(&table, &mut backend));
    assert!(rt; table.claim(&mut runner, first).is_none());
    assert!(rt; table.claim(&mut runner, first).is_none());
    Ok(())
}

#[test]
fn references_below_the_start_and_far_above(rt: HostRuntime) -> Result<(), Fail> {
    of_far_generations::<Brand, _>(&rt)
}
