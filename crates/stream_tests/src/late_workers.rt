//! Streams whose reads go into a queue that no worker serves until it is closed.
//!
//! So are the parts of a round where no thread can be made: the backend's part runs first, and the
//! worker's behind it.
ghost use Rattle.std.specs.Prelude.{◌≡◌, ◌<◌, IfOk, IfSome, length};
ghost use Rattle.aio_handle.specs.EndStates.{HasNoOwnerTokens};
ghost use Rattle.aio_handle.specs.ContractViews.{AreNewActors, IsActorOf};
ghost use Rattle.method_worker.specs.QueueViews.{IsSeatOf};

use crate::helpers::listed_streams::{NotedBlock, numbered_shelf, pages_of, two_seats};
use aio_callback::ReadIo;
use aio_disk::{Disk, Shelf};
use aio_handle::{Actor, Table};
use buf_pool::Pool;
use method_sync::Runner;
use method_worker::{QueueSeat, SubmitQueue, WorkerMethod, work};
use page_check::World;
use std::alloc::{AllocError, Global};
use std::marker::Brand;
use std::process::Abort;
use std::sync::Wait;
use std::test::Fail;

/// An actor with its seat of the queue and its disk.
#[derive(Drop)]
struct SeatedActor<W: World, D: Disk> {
    actor: Actor<ReadIo, W>,
    seat: QueueSeat,
    disk: D,
}

// The worker serves the queue until it is closed and empty.
fn serve<W: World, D: Disk, T: Wait>(
    rt: &T,
    table: &Table<ReadIo, W>,
    pool: &Pool<W>,
    queue: &SubmitQueue<W>,
    worker: SeatedActor<W, D>,
) -> SeatedActor<W, D>
    requires worker { IsActorOf table.now worker.actor × IsSeatOf queue.now worker.seat }
    requires told { (D.told worker.disk ≡ W.told) × (D.relations worker.disk ≡ W.relations) }
    ensures worker { IsActorOf table.now result.actor × IsSeatOf queue.now result.seat }
    ensures told { (D.told result.disk ≡ W.told) × (D.relations result.disk ≡ W.relations) }
{
    let SeatedActor {
        mut actor,
        mut seat,
        disk,
    } = worker;
    let mut runner = Runner { disk, places: pool };
    work(rt, queue, &mut seat, table, &mut actor, &mut runner);
    SeatedActor {
        actor,
        seat,
        disk: runner.disk,
    }
}

// The backend lists, and closes the queue behind that.
fn list<W: World, D: Disk, T: Wait>(
    rt: &T,
    alloc: Global,
    table: &Table<ReadIo, W>,
    pool: &Pool<W>,
    queue: &SubmitQueue<W>,
    backend: SeatedActor<W, D>,
    blocks: Vec<NotedBlock>,
) -> Result<(Vec<NotedBlock>, SeatedActor<W, D>), AllocError>
    requires backend { IsActorOf table.now backend.actor × IsSeatOf queue.now backend.seat }
    requires number { backend.actor.known.number < table.now.config.backends }
    requires rest { HasNoOwnerTokens backend.actor.known }
    requires told { (D.told backend.disk ≡ W.told) × (D.relations backend.disk ≡ W.relations) }
    requires some { 0 < W.relations }
    ensures backend { IfOk result
        (λ r. IsActorOf table.now r.1.actor × IsSeatOf queue.now r.1.seat) }
    ensures number { IfOk result
        (λ r. r.1.actor.known.number < table.now.config.backends) }
    ensures rest { IfOk result (λ r. HasNoOwnerTokens r.1.actor.known) }
    ensures told { IfOk result (λ r. (D.told r.1.disk ≡ W.told)
        × (D.relations r.1.disk ≡ W.relations)) }
{
    let SeatedActor {
        mut actor,
        seat,
        disk,
    } = backend;
    let mut method = WorkerMethod { queue, seat };
    let mut runner = Runner { disk, places: pool };
    let pages = pages_of(
        rt,
        alloc,
        pool,
        table,
        &mut actor,
        &mut method,
        &mut runner,
        blocks,
    )?;
    let mut seat = method.seat;
    queue.close(rt, &mut seat);
    let backend = SeatedActor {
        actor,
        seat,
        disk: runner.disk,
    };
    Ok((pages, backend))
}

// The backend and the worker of a new table.
fn two_actors<W: World>(
    table: &Table<ReadIo, W>,
    mut actors: Vec<Actor<ReadIo, W>>,
) -> Option<(Actor<ReadIo, W>, Actor<ReadIo, W>)>
    requires new { AreNewActors table.now 0 actors.items }
    requires two { length actors.items ≡ 2 }
    requires backends { table.now.config.backends ≡ 1 }
    ensures backend { IfSome result (λ r. IsActorOf table.now r.0
        × (r.0.known.number < table.now.config.backends) × HasNoOwnerTokens r.0.known) }
    ensures worker { IfSome result (λ r. IsActorOf table.now r.1) }
{
    let worker = aio_fixtures::last_actor(table, &mut actors)?;
    let backend = aio_fixtures::last_actor(table, &mut actors)?;
    Some((backend, worker))
}

// The pages of two lists, of which the second is listed when the queue was opened again. The disks
// come back.
fn list_twice<W: World, D: Disk, T: Wait>(
    rt: &T,
    alloc: Global,
    own: D,
    other: D,
    first: Vec<NotedBlock>,
    second: Vec<NotedBlock>,
) -> Result<((Vec<NotedBlock>, Vec<NotedBlock>), (D, D)), Fail>
    requires own { (D.told own ≡ W.told) × (D.relations own ≡ W.relations) }
    requires other { (D.told other ≡ W.told) × (D.relations other ≡ W.relations) }
    requires handles { W.handles ≡ 16 }
    requires some { 0 < W.relations }
{
    let (table, actors) = Table::<ReadIo, W>::open(alloc, 1, 16, 1, 0)?;
    let pool = Pool::<W>::open(alloc, 64)?;
    let (mut queue, seats) = SubmitQueue::<W>::open(alloc, 2)?;
    let Some((actor, worker)) = two_actors(&table, actors) else {
        return Err(Fail::from("no actors"));
    };
    let Some((seat, worker_seat)) = two_seats(&queue, seats) else {
        return Err(Fail::from("no seats"));
    };
    let backend = SeatedActor {
        actor,
        seat,
        disk: own,
    };
    let worker = SeatedActor {
        actor: worker,
        seat: worker_seat,
        disk: other,
    };
    let (listed, mut backend) = list(rt, alloc, &table, &pool, &queue, backend, first)?;
    let worker = serve(rt, &table, &pool, &queue, worker);
    queue.reopen(&mut backend.seat);
    let (again, backend) = list(rt, alloc, &table, &pool, &queue, backend, second)?;
    let worker = serve(rt, &table, &pool, &queue, worker);
    Ok(((listed, again), (backend.disk, worker.disk)))
}

// Blocks of one run, each noted by its own number.
fn blocks_of(alloc: Global, first: u32, after: u32) -> Result<Vec<NotedBlock>, AllocError> {
    let mut blocks = Vec::new(alloc);
    for block in first..after {
        blocks.push((block, block))?;
    }
    Ok(blocks)
}

// The same over two disks of a shelf, which takes them back.
fn list_over<S: Shelf, T: Wait>(
    rt: &T,
    alloc: Global,
    shelf: &mut S,
    names: &[String],
    first: Vec<NotedBlock>,
    second: Vec<NotedBlock>,
) -> Result<(Vec<NotedBlock>, Vec<NotedBlock>), Fail>
    requires { 0 < length names.now }
{
    let own = shelf.open(names).ok().ok_or("no disk")?;
    let other = shelf.open(names).ok().ok_or("no disk")?;
    let (pages, (own, other)) = list_twice::<Brand, S::Disk, T>(
        rt, alloc, own, other, first, second,
    )?;
    shelf.take_back(own);
    shelf.take_back(other);
    Ok(pages)
}

// All pages come without the worker, whose disk is the second; what it finds in the queue was
// executed before.
#[test]
fn a_backend_executes_what_no_worker_takes(rt: HostRuntime) -> Result<(), Fail> {
    let alloc = rt.alloc();
    let mut shelf = numbered_shelf(alloc, 100)?;
    let mut names = Vec::new(alloc);
    names.push(String::from_str(alloc, "f")?)?;
    let (first, second) = (blocks_of(alloc, 0, 64)?, blocks_of(alloc, 64, 100)?);
    let wanted = (first.clone()?, second.clone()?);
    let pages = list_over(&rt, alloc, &mut shelf, names.as_slice(), first, second)?;
    assert_eq!(&rt; pages.0.as_slice(), wanted.0.as_slice());
    assert_eq!(&rt; pages.1.as_slice(), wanted.1.as_slice());
    assert_eq!(&rt; shelf.log().len(), 14);
    for entry in shelf.log() {
        assert_eq!(&rt; entry.disk, 0);
    }
    Ok(())
}
