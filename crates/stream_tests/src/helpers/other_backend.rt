//! Another backend, which reads before the stream does.
ghost use Rattle.std.specs.Prelude.{◌≡◌, ◌<◌, ◌≤◌, length};
ghost use Rattle.aio_handle.specs.EndStates.{HasNoOwnerTokens};
ghost use Rattle.aio_handle.specs.ContractViews.{IsActorOf};
ghost use Rattle.read_stream.specs.Desks.{AreValidSettings};

use crate::helpers::cases::{Blocks, Case};
use crate::helpers::streams::stream_over;
use aio_callback::{CallbackId, ReadIo};
use aio_handle::{Actor, Execute, Table};
use buf_pool::{Pool, Tag};
use page_check::World;
use std::alloc::{AllocError, Global};
use std::sync::Wait;

// Stages and submits a read of block 0.
fn submit_other<W: World>(
    rt: &impl Wait,
    relation: u32,
    checksums: bool,
    pool: &Pool<W>,
    table: &Table<ReadIo, W>,
    actor: &mut Actor<ReadIo, W>,
    mut io: ReadIo,
)
    requires table { IsActorOf table.now actor.old }
    requires backend { actor.old.known.number < table.now.config.backends }
    requires record { 1 ≤ length io.pages }
    requires relation { relation < W.relations }
{
    let ids = [CallbackId::Count, CallbackId::Buffer, CallbackId::File];
    if io.aim(relation, 0, 1, checksums, &ids).is_err() {
        return;
    }
    if let Ok(token) = table.acquire(actor) {
        let token = table.define(actor, token, io);
        let tag = Tag {
            relation,
            block: 0,
            checksums,
        };
        let _ = pool.begin(rt, tag, token.reference());
        let token = table.stage(actor, token);
        let _ = table.submit(actor, token);
    }
}

/// Reads these blocks by a stream, and submits a read of block 0, which it leaves unclaimed.
pub(crate) fn read_before<W: World, E: Execute<ReadIo, W>, T: Wait>(
    rt: &T,
    alloc: Global,
    case: &Case<'_>,
    blocks: &Blocks<'_>,
    pool: &Pool<W>,
    table: &Table<ReadIo, W>,
    actor: &mut Actor<ReadIo, W>,
    runner: &mut E,
) -> Result<(), AllocError>
    requires table { IsActorOf table.now actor.old }
    requires told { (E.told runner.old ≡ W.told) × (E.relations runner.old ≡ W.relations) }
    requires settings { AreValidSettings case.now.settings }
    requires handles { 0 < W.handles }
    requires backend { actor.old.known.number < table.now.config.backends }
    requires rest { HasNoOwnerTokens actor.old.known }
    requires relation { case.now.relation < W.relations }
    ensures told { (E.told runner.new ≡ W.told) × (E.relations runner.new ≡ W.relations) }
{
    let list = blocks.list(alloc)?;
    let calls = list.len().min(1000) as u32;
    let others = case.of_others();
    stream_over(rt, alloc, &others, calls, pool, table, actor, runner, list)?;
    let io = ReadIo::make(alloc, 1)?;
    let verify = case.others.checksums;
    submit_other(rt, case.relation, verify, pool, table, actor, io);
    Ok(())
}
