//! A stream over a list whose reads are made by a ring.
ghost use Rattle.std.specs.Prelude.{◌≡◌, ◌<◌, IfSome, length};
ghost use Rattle.std.specs.List.{All};
ghost use Rattle.aio_handle.specs.EndStates.{HasNoOwnerTokens};
ghost use Rattle.aio_handle.specs.ContractViews.{AreNewActors, IsActorOf};
ghost use Rattle.method_worker.specs.QueueViews.{IsSeatOf};

use crate::helpers::listed_streams::{NotedBlock, numbered_shelf, pages_of, two_seats};
use aio_callback::ReadIo;
use aio_disk::Disk;
use aio_handle::{Actor, Table};
use buf_pool::Pool;
use fault_injection::MemDisk;
use method_ring::{RingRoom, RingRunner, SimRing};
use method_worker::{QueueSeat, SubmitQueue, WorkerMethod};
use page_check::World;
use std::alloc::Global;
use std::marker::Brand;
use std::process::Abort;
use std::sync::Wait;
use std::test::Fail;

// The backend of a new table that has one actor.
fn only_backend<W: World>(
    table: &Table<ReadIo, W>,
    mut actors: Vec<Actor<ReadIo, W>>,
) -> Option<Actor<ReadIo, W>>
    requires new { AreNewActors table.now 0 actors.items }
    requires one { length actors.items ≡ 1 }
    requires backends { table.now.config.backends ≡ 1 }
    ensures { IfSome result (λ a. IsActorOf table.now a
        × (a.known.number < table.now.config.backends) × HasNoOwnerTokens a.known) }
{
    let backend = aio_fixtures::last_actor(table, &mut actors)?;
    Some(backend)
}

// The pages of a stream by a ring over a disk, which comes back.
fn pages_by_ring<W: World, D: Disk, T: Wait>(
    rt: &T,
    alloc: Global,
    disk: D,
    list: Vec<NotedBlock>,
) -> Result<(Vec<NotedBlock>, D), Fail>
    requires told { (D.told disk ≡ W.told) × (D.relations disk ≡ W.relations) }
    requires handles { W.handles ≡ 16 }
    requires some { 0 < W.relations }
{
    let (table, actors) = Table::<ReadIo, W>::open(alloc, 1, 16, 0, 0)?;
    let pool = Pool::<W>::open(alloc, 64)?;
    let (queue, seats) = SubmitQueue::<W>::open(alloc, 2)?;
    let room = RingRoom::open(alloc)?;
    let order = Vec::from_array(alloc, [1, 0, 2])?;
    let Some(mut actor) = only_backend(&table, actors) else {
        return Err(Fail::from("no backend"));
    };
    let Some((seat, own)) = two_seats(&queue, seats) else {
        return Err(Fail::from("no seats"));
    };
    let Ok(ring) = SimRing::open(alloc, disk, order) else {
        return Err(Fail::from("no ring"));
    };
    let mut method = WorkerMethod {
        queue: &queue,
        seat,
    };
    let mut runner = RingRunner::new(ring, &pool, &queue, own, room);
    let pages = pages_of(
        rt,
        alloc,
        &pool,
        &table,
        &mut actor,
        &mut method,
        &mut runner,
        list,
    )?;
    let (ring, _, _) = runner.into_parts();
    Ok((pages, ring.into_disk()))
}

// The pages of a list of a file of 5 blocks, and the first blocks of the reads.
fn pages_and_reads<R: Abort + AllocGlobal + Wait>(
    rt: &R,
    list: Vec<NotedBlock>,
) -> Result<(Vec<NotedBlock>, Vec<u32>), Fail> {
    let mut shelf = numbered_shelf(rt.alloc(), 5)?;
    let mut names = Vec::new(rt.alloc());
    names.push(String::from_str(rt.alloc(), "f")?)?;
    let disk = shelf.open(names.as_slice()).ok().ok_or("no disk")?;
    let (pages, disk) = pages_by_ring::<Brand, MemDisk, R>(rt, rt.alloc(), disk, list)?;
    shelf.take_back(disk);
    let mut blocks = Vec::new(rt.alloc());
    for entry in shelf.log() {
        blocks.push(entry.first)?;
    }
    Ok((pages, blocks))
}

// A block twice in the list is read once; blocks that do not follow one another are not combined.
#[test]
fn a_list_is_read_by_a_ring(rt: HostRuntime) -> Result<(), Fail> {
    let wanted = [(3u32, 7u32), (3, 8), (4, 9), (0, 1)];
    let list = Vec::from_array(rt.alloc(), wanted)?;
    let (pages, blocks) = pages_and_reads(&rt, list)?;
    assert_eq!(&rt; pages.as_slice(), wanted.as_slice());
    assert_eq!(&rt; blocks.as_slice(), [3u32, 4, 0].as_slice());
    Ok(())
}
