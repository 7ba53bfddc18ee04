//! Two backends with a ring each.
ghost use Rattle.std.specs.Prelude.{◌≡◌, ◌<◌, IfOk, IsTrue};
ghost use Rattle.aio_handle.specs.EndStates.{HasNoOwnerTokens};
ghost use Rattle.aio_handle.specs.ContractViews.{IsActorOf, IsSameActor};
ghost use Rattle.method_worker.specs.QueueViews.{IsSeatOf};

use crate::ring::backends::{backends_of, seats_of};
use crate::ring::reads::{read_and_wait, submit_and_push};
use crate::ring::sim_ring::{blocks_read, disk_of, shelf_of};
use aio_callback::{NoPlaces, ReadIo};
use aio_disk::{Disk, SteadyDisk};
use aio_fixtures::close_with_two;
use aio_handle::{Actor, Execute, Table};
use method_ring::{RingRoom, RingRunner, SimRing};
use method_worker::{QueueSeat, SubmitQueue};
use page_check::World;
use read_fixtures::take_and_reclaim;
use std::alloc::{AllocError, Global};
use std::marker::Brand;
use std::sync::Wait;
use std::test::Fail;

/// Backend 0 submits reads of blocks 0 to 3 and pushes their references; backend 1 submits one of
/// block 4 and waits for it; then backend 0 takes its reads in. The answer is whether all came so
/// far, and each was ready.
fn four_and_one<W: World, E: Execute<ReadIo, W>, T: Wait>(
    rt: &T,
    alloc: Global,
    table: &Table<ReadIo, W>,
    zero: &mut Actor<ReadIo, W>,
    one: &mut Actor<ReadIo, W>,
    queue: &SubmitQueue<W>,
    seat: &mut QueueSeat,
    runner: &mut E,
) -> bool
    requires table { IsActorOf table.now zero.old × IsActorOf table.now one.old }
    requires backends { (zero.old.known.number < table.now.config.backends)
        × (one.old.known.number < table.now.config.backends) }
    requires queue { IsSeatOf queue.now seat.old }
    requires told { (E.told runner.old ≡ W.told) × (E.relations runner.old ≡ W.relations) }
    requires some { 0 < W.relations }
    requires no_owner_tokens { HasNoOwnerTokens zero.old.known × HasNoOwnerTokens one.old.known }
    ensures same { IsSameActor zero.old zero.new × IsSameActor one.old one.new }
    ensures no_owner_tokens { IsTrue result → HasNoOwnerTokens zero.new.known
        × HasNoOwnerTokens one.new.known }
{
    let Some(a) = submit_and_push(rt, alloc, table, zero, queue, seat, 0) else {
        return false;
    };
    let Some(b) = submit_and_push(rt, alloc, table, zero, queue, seat, 1) else {
        return false;
    };
    let Some(c) = submit_and_push(rt, alloc, table, zero, queue, seat, 2) else {
        return false;
    };
    let Some(d) = submit_and_push(rt, alloc, table, zero, queue, seat, 3) else {
        return false;
    };
    if !read_and_wait(rt, alloc, table, one, runner, 4) {
        return false;
    }
    if take_and_reclaim(table, zero, d)
        && take_and_reclaim(table, zero, c)
        && take_and_reclaim(table, zero, b)
    {
        return take_and_reclaim(table, zero, a);
    }
    false
}

/// A runner over a ring of its own.
fn runner_over<'q, W: World, D: Disk>(
    alloc: Global,
    queue: &'q SubmitQueue<W>,
    seat: QueueSeat,
    disk: D,
) -> Result<RingRunner<'q, SimRing<D>, NoPlaces, W>, AllocError>
    requires { IsSeatOf queue.now seat }
    ensures { IfOk result (λ r. r.ring.disk ≡ disk) }
{
    let order = vec![in alloc; 1u32, 0, 2]?;
    let Ok(ring) = SimRing::open(alloc, disk, order) else {
        return Err(AllocError);
    };
    let room = RingRoom::open(alloc)?;
    Ok(RingRunner::new(ring, NoPlaces, queue, seat, room))
}

/// The disk of a runner's ring.
fn disk_in<'q, W: World, D: Disk>(runner: RingRunner<'q, SimRing<D>, NoPlaces, W>) -> D {
    let (ring, _, _) = runner.into_parts();
    ring.into_disk()
}

/// How many incarnations there were and how many of them backends have claimed, and the disks.
#[derive(Drop)]
struct RingRun<D> {
    incarnations: u128,
    by_backends: u128,
    disks: (D, D),
}

/// Two backends with a ring each over these disks. None where not all reads were ready.
fn two_backends<W: World, D: Disk, T: Wait>(
    rt: &T,
    alloc: Global,
    first: D,
    second: D,
) -> Result<Option<RingRun<D>>, AllocError>
    requires handles { W.handles ≡ 8 }
    requires second { (D.told second ≡ W.told) × (D.relations second ≡ W.relations) }
    requires some { 0 < W.relations }
{
    let (table, actors) = Table::<ReadIo, W>::open(alloc, 2, 4, 0, 0)?;
    let (queue, seats) = SubmitQueue::<W>::open(alloc, 3)?;
    let Some((mut zero, mut one)) = backends_of(&table, actors) else {
        return Ok(None);
    };
    let Some((mut seat, idle, busy)) = seats_of(&queue, seats) else {
        return Ok(None);
    };
    let idle = runner_over(alloc, &queue, idle, first)?;
    let mut busy = runner_over(alloc, &queue, busy, second)?;
    if !four_and_one(
        rt, alloc, &table, &mut zero, &mut one, &queue, &mut seat, &mut busy,
    ) {
        return Ok(None);
    }
    let totals = close_with_two(alloc, table, zero, one)?;
    Ok(Some(RingRun {
        incarnations: totals.incarnations(),
        by_backends: totals.by_backends(),
        disks: (disk_in(idle), disk_in(busy)),
    }))
}

#[test]
fn one_backend_executes_the_ios_of_another(rt: HostRuntime) -> Result<(), Fail> {
    let alloc = rt.alloc();
    let mut shelf = shelf_of(&rt, 5)?;
    let first = disk_of(&rt, &mut shelf)?;
    let second = disk_of(&rt, &mut shelf)?;
    let ran = two_backends::<Brand, SteadyDisk, _>(&rt, alloc, first, second)?;
    let ran = ran.ok_or("each read of backend 0 is ready")?;
    assert_eq!(&rt; ran.incarnations, 5);
    assert_eq!(&rt; ran.by_backends, 5);
    let (first, second) = ran.disks;
    shelf.take_back(first);
    assert_eq!(&rt; shelf.log().len(), 0);
    shelf.take_back(second);
    assert_eq!(&rt;
        blocks_read(alloc, &shelf)?.as_slice(),
        [0u32, 4, 3, 2, 1].as_slice()
    );
    Ok(())
}
