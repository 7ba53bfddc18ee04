//! One life of a handle, by its owner and a runner.
ghost use Rattle.std.specs.Prelude.{◌≡◌};

use aio_fixtures::{
    EmptyIo, claim_and_complete, close_with_two, last_actor, submit_io, take_and_reclaim,
};
use aio_handle::Table;
use aio_word::Class;
use page_check::World;
use std::marker::Brand;
use std::process::Abort;
use std::test::Fail;

/// The totals of a table of a backend and a runner, who ends the backend's one I/O short.
fn one_life<W: World, R: Abort + AllocGlobal>(rt: &R) -> Result<(), Fail>
    requires { W.handles ≡ 1 }
{
    let (table, mut actors) = Table::<EmptyIo, W>::open(rt.alloc(), 1, 1, 1, 0)?;
    let mut runner = last_actor(&table, &mut actors).ok_or("no actor")?;
    let mut owner = last_actor(&table, &mut actors).ok_or("no actor")?;
    let Some(token) = submit_io(&table, &mut owner, EmptyIo::new()) else {
        panic!(rt; "no free handle")
    };
    assert!(rt; claim_and_complete(&table, &mut runner, token.reference(), Class::Short));
    if !take_and_reclaim(&table, &mut owner, token) {
        panic!(rt; "the runner has ended the I/O")
    }
    let totals = close_with_two(rt.alloc(), table, owner, runner)?;
    assert!(rt; totals.incarnations() == 1 && totals.by_backends() == 0);
    assert!(rt; totals.by_runners() == 1);
    Ok(())
}

#[test]
fn a_life_is_ended_by_the_runner(rt: HostRuntime) -> Result<(), Fail> {
    one_life::<Brand, _>(&rt)
}
