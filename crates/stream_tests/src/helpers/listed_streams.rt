//! Streams over lists, and what they are opened over.
ghost use Rattle.std.specs.Prelude.{◌≡◌, ◌<◌, IfSome};
ghost use Rattle.std.specs.List.{All};
ghost use Rattle.aio_handle.specs.EndStates.{HasNoOwnerTokens};
ghost use Rattle.aio_handle.specs.ContractViews.{IsActorOf, IsSameActor};
ghost use Rattle.method_worker.specs.QueueViews.{IsSeatOf};
ghost use Rattle.read_stream.specs.StreamState.{IsOpenFor};

use crate::helpers::cases::BY_HEADER;
use aio_batch::Method;
use aio_callback::ReadIo;
use aio_handle::{Actor, Execute, Table};
use block_source::Listed;
use buf_pool::Pool;
use fault_injection::MemShelf;
use method_worker::{QueueSeat, SubmitQueue};
use page_check::World;
use page_fixtures::files::{STEADY, one_file, shelf_of};
use page_fixtures::pages::numbered_pages;
use read_stream::{Desk, Next, ReadStream, Settings};
use std::alloc::{AllocError, Global};
use std::sync::Wait;
use std::test::Fail;

const SETTINGS: Settings = Settings {
    combine: 16,
    ios: 16,
    limit: 64,
    full: false,
    batch: false,
    segment: 131072,
    rules: BY_HEADER,
};

/// A block, and what is noted beside it.
pub(crate) type NotedBlock = (u32, u32);

/// A shelf of a file `f` of so many empty pages.
pub(crate) fn numbered_shelf(alloc: Global, blocks: u32) -> Result<MemShelf, Fail> {
    let file = one_file(alloc, "f", numbered_pages(alloc, blocks, None)?)?;
    shelf_of(alloc, file, STEADY)
}

// The pages that so many calls answer.
fn take_pages<W: World, M: Method<ReadIo, W>, E: Execute<ReadIo, W>, T: Wait>(
    rt: &T,
    table: &Table<ReadIo, W>,
    actor: &mut Actor<ReadIo, W>,
    method: &mut M,
    runner: &mut E,
    stream: &mut ReadStream<'_, '_, W, Listed<u32>, u32>,
    calls: u32,
    pages: &mut Vec<NotedBlock>,
) -> Result<(), AllocError>
    requires table { IsActorOf table.now actor.old }
    requires told { (E.told runner.old ≡ W.told) × (E.relations runner.old ≡ W.relations) }
    requires is_open { IsOpenFor (λ r. r) W.World stream.old actor.old }
    ensures same { IsSameActor actor.old actor.new }
    ensures told { (E.told runner.new ≡ W.told) × (E.relations runner.new ≡ W.relations) }
    ensures stands_on { M.stands_on method.new ≡ M.stands_on method.old }
    ensures is_open { IsOpenFor (λ r. r) W.World stream.new actor.new }
{
    for _ in 0..calls {
        if let Next::Page(_, block, note) = stream.next(rt, table, actor, method, runner) {
            pages.push((block, *note))?;
        }
    }
    Ok(())
}

/// The pages of a stream over the list.
pub(crate) fn pages_of<W: World, M: Method<ReadIo, W>, E: Execute<ReadIo, W>, T: Wait>(
    rt: &T,
    alloc: Global,
    pool: &Pool<W>,
    table: &Table<ReadIo, W>,
    actor: &mut Actor<ReadIo, W>,
    method: &mut M,
    runner: &mut E,
    list: Vec<NotedBlock>,
) -> Result<Vec<NotedBlock>, AllocError>
    requires table { IsActorOf table.now actor.old }
    requires told { (E.told runner.old ≡ W.told) × (E.relations runner.old ≡ W.relations) }
    requires backend { actor.old.known.number < table.now.config.backends }
    requires rest { HasNoOwnerTokens actor.old.known }
    requires some { 0 < W.relations }
    ensures same { IsSameActor actor.old actor.new }
    ensures told { (E.told runner.new ≡ W.told) × (E.relations runner.new ≡ W.relations) }
    ensures rest { HasNoOwnerTokens actor.new.known }
    ensures stands_on { M.stands_on method.new ≡ M.stands_on method.old }
{
    let mut pages = Vec::new(alloc);
    let mut desk = Desk::open(alloc, &SETTINGS)?;
    let calls = list.len().min(1000) as u32;
    let room = actor.room();
    if list.len() as u64 > room {
        return Ok(pages);
    }
    let mut stream = ReadStream::open(&mut desk, pool, actor, 0, Listed::new(list));
    let pushed = take_pages(
        rt,
        table,
        actor,
        method,
        runner,
        &mut stream,
        calls,
        &mut pages,
    );
    stream.close(rt, table, actor, method, runner);
    pushed?;
    Ok(pages)
}

// The last of these seats.
fn last_seat<W: World>(queue: &SubmitQueue<W>, seats: &mut Vec<QueueSeat>) -> Option<QueueSeat>
    requires { All (IsSeatOf queue.now) seats.old.items }
    ensures left { All (IsSeatOf queue.now) seats.new.items }
    ensures seat { IfSome result (IsSeatOf queue.now) }
{
    match seats.pop() {
        Some(seat) => Some(seat),
        None => None,
    }
}

/// The last two of these seats.
pub(crate) fn two_seats<W: World>(
    queue: &SubmitQueue<W>,
    mut seats: Vec<QueueSeat>,
) -> Option<(QueueSeat, QueueSeat)>
    requires { All (IsSeatOf queue.now) seats.items }
    ensures { IfSome result (λ r. IsSeatOf queue.now r.0 × IsSeatOf queue.now r.1) }
{
    let one = last_seat(queue, &mut seats)?;
    let other = last_seat(queue, &mut seats)?;
    Some((one, other))
}
