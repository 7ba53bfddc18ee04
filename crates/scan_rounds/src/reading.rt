//! Reads blocks through a read stream.
ghost use Rattle.std.specs.Prelude.{◌≡◌, ◌<◌, ◌≤◌, ◌+◌, ◌^◌, ℕ, [], length};
ghost use Rattle.aio_word.specs.Events.{lives_ended};
ghost use Rattle.aio_handle.specs.EndStates.{HasNoOwnerTokens};
ghost use Rattle.aio_handle.specs.FreeHandles.{IsRoom};
ghost use Rattle.aio_handle.specs.ContractViews.{IsActorOf, IsSameActor};
ghost use Rattle.read_stream.specs.FailedReads.{MayBeUnread};
ghost use Rattle.stream_answer.specs.StreamAnswers.{stream_entries};
ghost use Rattle.read_stream.specs.Desks.{IsFreeDesk};
ghost use Rattle.read_stream.specs.StreamState.{IsOpenFor, stream_view};
ghost use Rattle.read_stream.specs.StreamViews.{CallAdvanced, IsSameStream};
ghost use Rattle.read_stream.specs.ActorProgress.{ActorAdvanced, local_mark_count};
ghost use Rattle.scan_jobs.specs.StreamBlocks.{entries_of_blocks};
ghost use Rattle.scan_jobs.specs.Jobs.{answered_ending};
ghost use Rattle.scan_jobs.specs.ConsumedPages.{PagesConsumed};

use aio_batch::Method;
use aio_callback::ReadIo;
use aio_handle::{Actor, Execute, Table};
use block_source::BlockSource;
use buf_pool::Pool;
use page_check::World;
use read_stream::{Desk, ReadStream, end_borrow};
use scan_jobs::{Blocks, Consumer, Ending, UnskippedBlocks};
use std::sync::Wait;

// The consumer takes what the stream answers, up to its end.
fn take_all<
    W: World,
    M: Method<ReadIo, W>,
    E: Execute<ReadIo, W>,
    T: Wait,
    S: BlockSource<()> + Drop,
    C: Consumer,
>(
    rt: &T,
    table: &Table<ReadIo, W>,
    actor: &mut Actor<ReadIo, W>,
    method: &mut M,
    runner: &mut E,
    stream: &mut ReadStream<'_, '_, W, S, ()>,
    relation: u32,
    consumer: &mut C,
) -> Ending
    requires table { IsActorOf table.now actor.old }
    requires told { (E.told runner.old ≡ W.told) × (E.relations runner.old ≡ W.relations) }
    requires is_open { IsOpenFor S.left W.World stream.old actor.old }
    requires relation { (stream_view S.left stream.old).relation ≡ relation }
    requires none { (stream_view S.left stream.old).given ≡ 0 }
    requires few { length (stream_view S.left stream.old).blocks ≤ C.most consumer.old }
    requires held { C.holds consumer.old [] }
    ensures advanced { CallAdvanced E.Execute M.Method actor.old actor.new runner.old runner.new
        method.old method.new }
    ensures given { PagesConsumed (C.holds consumer.new) (stream_view S.left
        stream.old).settings.rules W.told
        (MayBeUnread (stream_view S.left stream.old).actor_was actor.new.known)
        (stream_entries relation (stream_view S.left stream.old).blocks) (answered_ending result) }
    ensures kept { C.kept consumer.new ≡ C.kept consumer.old }
    ensures stream { IsSameStream (stream_view S.left stream.old) (stream_view S.left stream.new) }
    ensures is_open { IsOpenFor S.left W.World stream.new actor.new }
{
    loop {
        let answer = stream.next(rt, table, actor, method, runner);
        if let Some(ending) = consumer.take(relation, answer) {
            return ending;
        }
    }
}

/// Reads blocks, whose pages the consumer takes, up to the first that ends the reading.
pub(crate) fn read<W: World, M: Method<ReadIo, W>, E: Execute<ReadIo, W>, T: Wait, C: Consumer>(
    rt: &T,
    table: &Table<ReadIo, W>,
    pool: &Pool<W>,
    actor: &mut Actor<ReadIo, W>,
    desk: &mut Desk<W, ()>,
    method: &mut M,
    runner: &mut E,
    blocks: Blocks<'_>,
    consumer: &mut C,
) -> Ending
    requires table { IsActorOf table.now actor.old }
    requires backend { actor.old.known.number < actor.old.known.config.backends }
    requires rest { HasNoOwnerTokens actor.old.known }
    requires room { (room : ℕ) × IsRoom actor.old.known.config actor.old.known room
        × (blocks.count ≤ room) }
    requires desk { IsFreeDesk desk.old }
    requires told { (E.told runner.old ≡ W.told) × (E.relations runner.old ≡ W.relations) }
    requires relation { blocks.relation < W.relations }
    requires within { blocks.first + blocks.count ≤ 2 ^ 32 }
    requires few { blocks.count ≤ C.most consumer.old }
    requires held { C.holds consumer.old [] }
    ensures same { IsSameActor actor.old actor.new }
    ensures told { (E.told runner.new ≡ W.told) × (E.relations runner.new ≡ W.relations) }
    ensures stands_on { M.stands_on method.new ≡ M.stands_on method.old }
    ensures actor_advanced { ActorAdvanced actor.old.known actor.new.known (E.reads runner.old)
        (E.reads runner.new) (E.faults runner.old) (E.faults runner.new) }
    ensures rest { HasNoOwnerTokens actor.new.known }
    ensures lives_bound { (h : ℕ) → lives_ended h actor.new.known.marks
        ≤ lives_ended h actor.old.known.marks + blocks.entry.count }
    ensures results_bound { local_mark_count actor.new.known.marks
        ≤ local_mark_count actor.old.known.marks + length (entries_of_blocks blocks.entry) }
    ensures desk { IsFreeDesk desk.new × (desk.new.settings.rules ≡ desk.old.settings.rules) }
    ensures given { PagesConsumed (C.holds consumer.new) desk.old.settings.rules W.told
        (MayBeUnread actor.old actor.new.known) (entries_of_blocks blocks.entry)
        (answered_ending result) }
    ensures kept { C.kept consumer.new ≡ C.kept consumer.old }
{
    let relation = blocks.relation;
    desk.expect(relation, blocks.first, blocks.count);
    let source = UnskippedBlocks::new(blocks);
    let mut stream = ReadStream::open(desk, pool, actor, relation, source);
    let ending = take_all(
        rt,
        table,
        actor,
        method,
        runner,
        &mut stream,
        relation,
        consumer,
    );
    let (_, desk) = stream.close(rt, table, actor, method, runner);
    end_borrow(desk);
    ending
}
