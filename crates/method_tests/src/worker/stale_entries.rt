//! References that are older than the lives of their handles.
ghost use Rattle.std.specs.Prelude.{◌≡◌, None};

use crate::queue::entries::last_seat;
use crate::worker::alone::{push_times, work_alone};
use aio_callback::ReadIo;
use aio_fixtures::{close_with_two, last_actor};
use aio_handle::Table;
use aio_word::WaitRef;
use method_worker::SubmitQueue;
use page_check::World;
use std::alloc::{AllocError, Global};
use std::marker::Brand;
use std::sync::Wait;
use std::test::Fail;

/// A worker over a queue with one stale reference three times: its executor's calls, and how many
/// lives the table had and how many of them the runner claimed.
fn stale_thrice<W: World, T: Wait>(
    rt: &T,
    alloc: Global,
) -> Result<Option<(u64, (u128, u128))>, AllocError>
    requires handles { W.handles ≡ 1 }
    requires untold { W.told ≡ None }
{
    let (table, mut actors) = Table::<ReadIo, W>::open(alloc, 1, 1, 1, 5)?;
    let Some(mut runner) = last_actor(&table, &mut actors) else {
        return Ok(None);
    };
    let Some(owner) = last_actor(&table, &mut actors) else {
        return Ok(None);
    };
    let (queue, mut seats) = SubmitQueue::<W>::open(alloc, 1)?;
    let Some(mut seat) = last_seat(&queue, &mut seats) else {
        return Ok(None);
    };
    let stale = WaitRef {
        handle: 0,
        generation: 2,
    };
    push_times(rt, &queue, &mut seat, stale, 3);
    queue.close(rt, &mut seat);
    let calls = work_alone(rt, &queue, &mut seat, &table, &mut runner);
    let totals = close_with_two(alloc, table, owner, runner)?;
    Ok(Some((calls, (totals.incarnations(), totals.by_runners()))))
}

#[test]
fn stale_entries_are_passed_over(rt: HostRuntime) -> Result<(), Fail> {
    let answer = stale_thrice::<Brand, _>(&rt, rt.alloc())?;
    assert!(&rt; answer == Some((0, (0, 0))));
    Ok(())
}
