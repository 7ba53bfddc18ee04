//! Streams over one pool.
ghost use Rattle.std.specs.Prelude.{◌≡◌, ◌<◌};
ghost use Rattle.aio_handle.specs.EndStates.{HasNoOwnerTokens};
ghost use Rattle.aio_handle.specs.ContractViews.{IsActorOf, IsSameActor};
ghost use Rattle.read_stream.specs.Desks.{AreValidSettings};
ghost use Rattle.read_stream.specs.StreamState.{IsOpenFor};

use crate::helpers::answers::{Answer, answer_of};
use crate::helpers::cases::Case;
use crate::helpers::counting::CountingSync;
use aio_callback::ReadIo;
use aio_handle::{Actor, Execute, Table};
use aio_word::WaitRef;
use block_source::Listed;
use buf_pool::Pool;
use page_check::World;
use read_stream::{Desk, ReadStream};
use std::alloc::{AllocError, Global};
use std::sync::Wait;

// What the actor looks at between two calls.
const FIRST: WaitRef = WaitRef {
    handle: 0,
    generation: 0,
};

/// Takes the answers of so many calls. Behind each the actor looks at another I/O.
pub(crate) fn take_answers<W: World, E: Execute<ReadIo, W>, T: Wait>(
    rt: &T,
    table: &Table<ReadIo, W>,
    actor: &mut Actor<ReadIo, W>,
    method: &mut CountingSync,
    runner: &mut E,
    stream: &mut ReadStream<'_, '_, W, Listed<u32>, u32>,
    calls: u32,
    all: &mut Vec<Answer>,
) -> Result<(), AllocError>
    requires table { IsActorOf table.now actor.old }
    requires told { (E.told runner.old ≡ W.told) × (E.relations runner.old ≡ W.relations) }
    requires is_open { IsOpenFor (λ r. r) W.World stream.old actor.old }
    requires handles { 0 < W.handles }
    ensures same { IsSameActor actor.old actor.new }
    ensures told { (E.told runner.new ≡ W.told) × (E.relations runner.new ≡ W.relations) }
    ensures is_open { IsOpenFor (λ r. r) W.World stream.new actor.new }
{
    for _ in 0..calls {
        all.push(answer_of(stream.next(rt, table, actor, method, runner)))?;
        table.check(actor, FIRST);
    }
    Ok(())
}

/// What the calls of a stream answered, how many I/Os it took in, of how many its method heard, and
/// in how many batches.
#[derive(Drop)]
pub(crate) struct Streamed {
    pub all: Vec<Answer>,
    pub taken: u64,
    pub heard: u64,
    pub batches: u64,
}

/// What the calls of a stream with a desk of its own answer.
pub(crate) fn stream_over<W: World, E: Execute<ReadIo, W>, T: Wait>(
    rt: &T,
    alloc: Global,
    case: &Case<'_>,
    calls: u32,
    pool: &Pool<W>,
    table: &Table<ReadIo, W>,
    actor: &mut Actor<ReadIo, W>,
    runner: &mut E,
    list: Vec<(u32, u32)>,
) -> Result<Streamed, AllocError>
    requires table { IsActorOf table.now actor.old }
    requires told { (E.told runner.old ≡ W.told) × (E.relations runner.old ≡ W.relations) }
    requires settings { AreValidSettings case.now.settings }
    requires handles { 0 < W.handles }
    requires backend { actor.old.known.number < table.now.config.backends }
    requires rest { HasNoOwnerTokens actor.old.known }
    requires relation { case.now.relation < W.relations }
    ensures same { IsSameActor actor.old actor.new }
    ensures told { (E.told runner.new ≡ W.told) × (E.relations runner.new ≡ W.relations) }
    ensures rest { HasNoOwnerTokens actor.new.known }
{
    let mut all = Vec::new(alloc);
    let mut method = CountingSync::new();
    let mut desk = Desk::open(alloc, &case.settings)?;
    let room = actor.room();
    if list.len() as u64 > room {
        return Ok(Streamed {
            all,
            taken: 0,
            heard: 0,
            batches: 0,
        });
    }
    let blocks = Listed::new(list);
    let mut stream = ReadStream::open(&mut desk, pool, actor, case.relation, blocks);
    let pushed = take_answers(
        rt,
        table,
        actor,
        &mut method,
        runner,
        &mut stream,
        calls,
        &mut all,
    );
    let (taken, _) = stream.close(rt, table, actor, &mut method, runner);
    pushed?;
    Ok(Streamed {
        all,
        taken,
        heard: method.heard,
        batches: method.batches,
    })
}

/// What a stream answers over the list, behind a stream over the first list.
pub(crate) fn two_streams<W: World, E: Execute<ReadIo, W>, T: Wait>(
    rt: &T,
    alloc: Global,
    case: &Case<'_>,
    calls: u32,
    pool: &Pool<W>,
    table: &Table<ReadIo, W>,
    actor: &mut Actor<ReadIo, W>,
    runner: &mut E,
) -> Result<Streamed, AllocError>
    requires table { IsActorOf table.now actor.old }
    requires told { (E.told runner.old ≡ W.told) × (E.relations runner.old ≡ W.relations) }
    requires settings { AreValidSettings case.now.settings }
    requires handles { 0 < W.handles }
    requires backend { actor.old.known.number < table.now.config.backends }
    requires rest { HasNoOwnerTokens actor.old.known }
    requires relation { case.now.relation < W.relations }
{
    let first = case.first.list(alloc)?;
    let before = first.len().min(1000) as u32;
    let others = case.of_others();
    stream_over(
        rt, alloc, &others, before, pool, table, actor, runner, first,
    )?;
    let list = case.list.list(alloc)?;
    stream_over(rt, alloc, case, calls, pool, table, actor, runner, list)
}
