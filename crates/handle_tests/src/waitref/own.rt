//! An owner that waits for its own I/O.
ghost use Rattle.std.specs.Prelude.{◌≡◌};
ghost use Rattle.aio_word.specs.Tokens.{IsInFlight};
ghost use Rattle.aio_handle.specs.ContractViews.{IsActorOf};

use aio_fixtures::{EmptyIo, WholeExecutor, last_actor, submit_io};
use aio_handle::{Actor, InFlight, Record, Table};
use aio_waitref::wait_own;
use aio_word::Class;
use page_check::World;
use std::alloc::Global;
use std::marker::Brand;
use std::sync::Wait;
use std::test::Fail;

/// What came of an owner's wait: its record's handle and class, and how often its executor was
/// called.
pub(super) type WaitOutcome = (u32, Class, u64);

/// Waits for one's own I/O, by an executor that nobody else uses.
pub(super) fn wait_counted<W: World, T: Wait>(
    rt: &T,
    table: &Table<EmptyIo, W>,
    mut owner: Actor<EmptyIo, W>,
    token: InFlight<W>,
) -> WaitOutcome
    requires table { IsActorOf table.now owner }
    requires token { IsInFlight owner.known token }
{
    let mut executor = WholeExecutor::<W>::new();
    let local = wait_own(rt, table, &mut owner, token, &mut executor);
    let record = local.record();
    (record.handle(), record.ended(), executor.calls)
}

/// An I/O that nobody has claimed when its owner begins to wait.
fn wait_for_unclaimed<W: World, T: Wait>(rt: &T, alloc: Global) -> Result<WaitOutcome, Fail>
    requires { W.handles ≡ 1 }
{
    let (table, mut actors) = Table::<EmptyIo, W>::open(alloc, 1, 1, 0, 0)?;
    let mut owner = last_actor(&table, &mut actors).ok_or("no actor")?;
    let token = submit_io(&table, &mut owner, EmptyIo::new()).ok_or("no free handle")?;
    Ok(wait_counted(rt, &table, owner, token))
}

#[test]
fn owner_executes_its_own_unclaimed_io(rt: HostRuntime) -> Result<(), Fail> {
    let waited = wait_for_unclaimed::<Brand, _>(&rt, rt.alloc())?;
    assert!(&rt; waited == (0, Class::Whole, 1));
    Ok(())
}
