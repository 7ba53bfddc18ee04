//! A stream, and another backend between its answers.
ghost use Rattle.std.specs.Prelude.{◌≡◌, ◌<◌};
ghost use Rattle.aio_handle.specs.EndStates.{HasNoOwnerTokens};
ghost use Rattle.aio_handle.specs.ContractViews.{IsActorOf};
ghost use Rattle.read_stream.specs.Desks.{AreValidSettings};

use crate::helpers::cases::{Blocks, Case};
use crate::helpers::counting::CountingSync;
use crate::helpers::other_backend::read_before;
use crate::helpers::streams::{Streamed, stream_over, take_answers};
use aio_callback::ReadIo;
use aio_handle::{Actor, Execute, Table};
use block_source::Listed;
use buf_pool::Pool;
use page_check::World;
use read_stream::{Desk, ReadStream};
use std::alloc::{AllocError, Global};
use std::sync::Wait;

/// What a stream answers over the list, behind a stream over the first list. Where the case pauses it
/// the other backend reads these blocks, and submits a read of block 0, which it leaves unclaimed.
pub(crate) fn stream_beside<W: World, E: Execute<ReadIo, W>, T: Wait>(
    rt: &T,
    alloc: Global,
    case: &Case<'_>,
    calls: u32,
    between: &Blocks<'_>,
    pool: &Pool<W>,
    table: &Table<ReadIo, W>,
    actor: &mut Actor<ReadIo, W>,
    other: &mut Actor<ReadIo, W>,
    runner: &mut E,
) -> Result<Streamed, AllocError>
    requires table { IsActorOf table.now actor.old × IsActorOf table.now other.old }
    requires told { (E.told runner.old ≡ W.told) × (E.relations runner.old ≡ W.relations) }
    requires settings { AreValidSettings case.now.settings }
    requires handles { 0 < W.handles }
    requires backends { (actor.old.known.number < table.now.config.backends)
        × (other.old.known.number < table.now.config.backends) }
    requires rest { HasNoOwnerTokens actor.old.known × HasNoOwnerTokens other.old.known }
    requires relation { case.now.relation < W.relations }
{
    let first = case.first.list(alloc)?;
    let before = first.len().min(1000) as u32;
    let others = case.of_others();
    stream_over(
        rt, alloc, &others, before, pool, table, actor, runner, first,
    )?;
    let mut all = Vec::new(alloc);
    let mut method = CountingSync::new();
    let mut desk = Desk::open(alloc, &case.settings)?;
    let list = case.list.list(alloc)?;
    let room = actor.room();
    if list.len() as u64 > room {
        return Ok(Streamed {
            all,
            taken: 0,
            heard: 0,
            batches: 0,
        });
    }
    let blocks = Listed::new(list);
    let mut stream = ReadStream::open(&mut desk, pool, actor, case.relation, blocks);
    let early = take_answers(
        rt,
        table,
        actor,
        &mut method,
        runner,
        &mut stream,
        case.pause,
        &mut all,
    );
    let read = read_before(rt, alloc, case, between, pool, table, other, runner);
    let later = take_answers(
        rt,
        table,
        actor,
        &mut method,
        runner,
        &mut stream,
        calls.saturating_sub(case.pause),
        &mut all,
    );
    let (taken, _) = stream.close(rt, table, actor, &mut method, runner);
    early?;
    read?;
    later?;
    Ok(Streamed {
        all,
        taken,
        heard: method.heard,
        batches: method.batches,
    })
}
