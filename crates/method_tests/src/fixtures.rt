//! A read of one block, by its owner and a runner.
ghost use Rattle.std.specs.Prelude.{◌≡◌, ◌<◌, None};

use aio_callback::ReadIo;
use aio_fixtures::{close_with_two, last_actor};
use aio_handle::{Table, Totals};
use page_check::World;
use read_fixtures::{WholeExecutor, submit_read, take_and_reclaim};
use std::alloc::{AllocError, Global};
use std::marker::Brand;
use std::sync::Wait;

/// The totals of a table of a backend and a runner, who executes the backend's one read. None where
/// a call refuses.
fn one_read<W: World, T: Wait>(rt: &T, alloc: Global) -> Result<Option<Totals>, AllocError>
    requires handles { W.handles ≡ 1 }
    requires untold { W.told ≡ None }
    requires some { 0 < W.relations }
{
    let (table, mut actors) = Table::<ReadIo, W>::open(alloc, 1, 1, 1, 0)?;
    let Some(mut runner) = last_actor(&table, &mut actors) else {
        return Ok(None);
    };
    let Some(mut owner) = last_actor(&table, &mut actors) else {
        return Ok(None);
    };
    let io = ReadIo::make(alloc, 1)?;
    let Some(token) = submit_read(&table, &mut owner, io, 7) else {
        return Ok(None);
    };
    let mut executor = WholeExecutor { calls: 0 };
    table.try_execute(rt, &mut runner, token.reference(), &mut executor);
    if !take_and_reclaim(&table, &mut owner, token) {
        return Ok(None);
    }
    Ok(Some(close_with_two(alloc, table, owner, runner)?))
}

#[test]
fn a_read_is_executed_by_the_runner(rt: HostRuntime) -> Result<(), AllocError> {
    let Some(totals) = one_read::<Brand, _>(&rt, rt.alloc())? else {
        panic!(&rt; "the handle is free, and the read is done")
    };
    assert!(&rt; totals.incarnations() == 1 && totals.by_backends() == 0);
    assert!(&rt; totals.by_runners() == 1);
    Ok(())
}
