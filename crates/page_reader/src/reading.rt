//! A consumer takes the pages of a stream.
ghost use Rattle.std.specs.Prelude.{◌≡◌, ◌<◌, ◌≤◌, ◌+◌, ℕ, [], List, IfNone, IfSome, length};
ghost use Rattle.page_check.specs.IsAnswer.{IfGiven, Page as SaidPage};
ghost use Rattle.page_check.specs.SynchronousAnswer.{Given, IsValidUnlessDamaged};
ghost use Rattle.aio_word.specs.Events.{lives_ended};
ghost use Rattle.aio_handle.specs.ContractViews.{IsActorOf, IsSameActor};
ghost use Rattle.aio_handle.specs.EndStates.{HasNoOwnerTokens};
ghost use Rattle.aio_handle.specs.FreeHandles.{IsRoom};
ghost use Rattle.stream_answer.specs.StreamAnswers.{stream_entries, synchronous_answer};
ghost use Rattle.read_stream.specs.ActorProgress.{ActorAdvanced};
ghost use Rattle.read_stream.specs.Desks.{IsFreeDesk, desk_settings};
ghost use Rattle.read_stream.specs.FailedReads.{MayBeUnread};
ghost use Rattle.read_stream.specs.StreamState.{IsOpenFor, stream_view};
ghost use Rattle.read_stream.specs.StreamViews.{CallAdvanced, IsSameStream};
ghost use Rattle.page_reader.specs.PagesTaken.{AnswerTaken, IfStopped, PagesTakenWhere, TakenSoFar};

use crate::consumer::{Ended, PageConsumer};
use aio_batch::Method;
use aio_callback::ReadIo;
use aio_handle::{Actor, Execute, Table};
use block_source::BlockSource;
use buf_pool::Pool;
use page_check::{Page, PageMark, World};
use read_stream::{Desk, Next, ReadStream, end_borrow};
use std::sync::Wait;

// The consumer takes a page, and says whether it wants more.
fn take_page<C: PageConsumer>(
    consumer: &mut C,
    block: u32,
    page: &Page,
    mark: PageMark,
) -> Option<Ended>
    requires valid { IsValidUnlessDamaged mark page.now }
    requires room { (pages : List (Given (Unit {0}))) × C.holds consumer.old pages
        × (length pages < C.most consumer.old) }
    ensures taken { (given : Given (Unit {0})) → given.page ≡ page.now → given.entry.block ≡ block
        → given.mark ≡ mark → AnswerTaken (C.holds consumer.old) (C.holds consumer.new)
        (SaidPage given) result }
    ensures most { C.most consumer.new ≡ C.most consumer.old }
    ensures stopped { IfSome result (IfStopped (C.has_enough consumer.new)) }
{
    consumer.take(block, page, mark);
    if consumer.wants_more() {
        None
    } else {
        Some(Ended::Stopped)
    }
}

// The consumer takes what a stream answers: a page, or an ending.
fn take_answer<C: PageConsumer>(consumer: &mut C, answer: Next<'_, ()>) -> Option<Ended>
    requires valid { (relation : ℕ) → IfGiven (synchronous_answer relation answer)
        (λ g. IsValidUnlessDamaged g.mark g.page) }
    requires room { (relation : ℕ) → IfGiven (synchronous_answer relation answer) (λ _.
        (pages : List (Given (Unit {0}))) × C.holds consumer.old pages
        × (length pages < C.most consumer.old)) }
    ensures taken { (relation : ℕ) → AnswerTaken (C.holds consumer.old) (C.holds consumer.new)
        (synchronous_answer relation answer.entry) result }
    ensures most { C.most consumer.new ≡ C.most consumer.old }
    ensures stopped { IfSome result (IfStopped (C.has_enough consumer.new)) }
{
    match answer {
        Next::Page(page, block, _) => take_page(consumer, block, page, PageMark::Valid),
        Next::Zeroed(page, block, _) => take_page(consumer, block, page, PageMark::Zeroed),
        Next::Damaged(page, block, _) => take_page(consumer, block, page, PageMark::Damaged),
        Next::End => Some(Ended::End),
        Next::Invalid(block) => Some(Ended::Invalid(block)),
        Next::Unread(block) => Some(Ended::Unread(block)),
        Next::PastEnd(block) => Some(Ended::PastEnd(block)),
    }
}

// The consumer takes the next answer of a stream.
fn take_next<
    W: World,
    E: Execute<ReadIo, W>,
    M: Method<ReadIo, W>,
    S: BlockSource<()> + Drop,
    C: PageConsumer,
    R: Wait,
>(
    rt: &R,
    table: &Table<ReadIo, W>,
    actor: &mut Actor<ReadIo, W>,
    method: &mut M,
    runner: &mut E,
    stream: &mut ReadStream<'_, '_, W, S, ()>,
    consumer: &mut C,
) -> Option<Ended>
    requires table { IsActorOf table.now actor.old }
    requires told { (E.told runner.old ≡ W.told) × (E.relations runner.old ≡ W.relations) }
    requires is_open { IsOpenFor S.left W.World stream.old actor.old }
    requires few { length (stream_view S.left stream.old).blocks ≤ C.most consumer.old }
    requires taken { TakenSoFar (C.holds consumer.old) W.told (stream_view S.left stream.old) }
    ensures advanced { CallAdvanced E.Execute M.Method actor.old actor.new runner.old runner.new
        method.old method.new }
    ensures is_open { IsOpenFor S.left W.World stream.new actor.new }
    ensures stream { IsSameStream (stream_view S.left stream.old) (stream_view S.left stream.new) }
    ensures most { C.most consumer.new ≡ C.most consumer.old }
    ensures stopped { IfSome result (IfStopped (C.has_enough consumer.new)) }
    ensures more { IfNone result
        (TakenSoFar (C.holds consumer.new) W.told (stream_view S.left stream.new)) }
    ensures moves { IfNone result
        (((stream_view S.left stream.new).given ≡ (stream_view S.left stream.old).given + 1)
        × ((stream_view S.left stream.old).given < length (stream_view S.left stream.old).blocks)) }
    ensures ended { IfSome result (λ ended. let s = stream_view S.left stream.old in
        PagesTakenWhere (MayBeUnread s.actor_was actor.new.known) (C.holds consumer.new)
        s.settings.rules W.told (stream_entries s.relation s.blocks) ended) }
{
    let answer = stream.next(rt, table, actor, method, runner);
    take_answer(consumer, answer)
}

// The consumer takes the answers of a new stream, up to its end.
fn take_all<
    W: World,
    E: Execute<ReadIo, W>,
    M: Method<ReadIo, W>,
    S: BlockSource<()> + Drop,
    C: PageConsumer,
    R: Wait,
>(
    rt: &R,
    table: &Table<ReadIo, W>,
    actor: &mut Actor<ReadIo, W>,
    method: &mut M,
    runner: &mut E,
    stream: &mut ReadStream<'_, '_, W, S, ()>,
    consumer: &mut C,
) -> Ended
    requires table { IsActorOf table.now actor.old }
    requires told { (E.told runner.old ≡ W.told) × (E.relations runner.old ≡ W.relations) }
    requires is_open { IsOpenFor S.left W.World stream.old actor.old }
    requires none { (stream_view S.left stream.old).given ≡ 0 }
    requires few { length (stream_view S.left stream.old).blocks ≤ C.most consumer.old }
    requires held { C.holds consumer.old [] }
    ensures advanced { CallAdvanced E.Execute M.Method actor.old actor.new runner.old runner.new
        method.old method.new }
    ensures is_open { IsOpenFor S.left W.World stream.new actor.new }
    ensures stream { IsSameStream (stream_view S.left stream.old) (stream_view S.left stream.new) }
    ensures most { C.most consumer.new ≡ C.most consumer.old }
    ensures stopped { IfStopped (C.has_enough consumer.new) result }
    ensures taken { let s = stream_view S.left stream.old in
        PagesTakenWhere (MayBeUnread s.actor_was actor.new.known) (C.holds consumer.new)
        s.settings.rules W.told (stream_entries s.relation s.blocks) result }
{
    'pages: loop {
        if let Some(ended) = take_next(rt, table, actor, method, runner, stream, consumer) {
            return ended;
        }
    }
}

/// The consumer takes the pages of a source's blocks, up to the first that cannot be given.
pub(crate) fn read_pages<
    W: World,
    E: Execute<ReadIo, W>,
    M: Method<ReadIo, W>,
    S: BlockSource<()> + Drop,
    C: PageConsumer,
    R: Wait,
>(
    rt: &R,
    table: &Table<ReadIo, W>,
    pool: &Pool<W>,
    actor: &mut Actor<ReadIo, W>,
    desk: &mut Desk<W, ()>,
    method: &mut M,
    runner: &mut E,
    relation: u32,
    source: S,
    consumer: &mut C,
) -> Ended
    requires table { IsActorOf table.now actor.old }
    requires backend { actor.old.known.number < actor.old.known.config.backends }
    requires no_owner_tokens { HasNoOwnerTokens actor.old.known }
    requires room { (room : ℕ) × IsRoom actor.old.known.config actor.old.known room
        × (length (S.left source) ≤ room) }
    requires desk { IsFreeDesk desk.old }
    requires told { (E.told runner.old ≡ W.told) × (E.relations runner.old ≡ W.relations) }
    requires relation { relation < W.relations }
    requires few { length (S.left source) ≤ C.most consumer.old }
    requires held { C.holds consumer.old [] }
    ensures same { IsSameActor actor.old actor.new }
    ensures told { (E.told runner.new ≡ E.told runner.old)
        × (E.relations runner.new ≡ E.relations runner.old) }
    ensures advanced { ActorAdvanced actor.old.known actor.new.known (E.reads runner.old)
        (E.reads runner.new) (E.faults runner.old) (E.faults runner.new) }
    ensures no_owner_tokens { HasNoOwnerTokens actor.new.known }
    ensures lives_bound { (h : ℕ) → lives_ended h actor.new.known.marks
        ≤ lives_ended h actor.old.known.marks + length (S.left source) }
    ensures desk { IsFreeDesk desk.new × (desk_settings desk.new ≡ desk_settings desk.old) }
    ensures most { C.most consumer.new ≡ C.most consumer.old }
    ensures stopped { IfStopped (C.has_enough consumer.new) result }
    ensures taken { PagesTakenWhere (MayBeUnread actor.old actor.new.known) (C.holds consumer.new)
        (desk_settings desk.old).rules W.told (stream_entries relation (S.left source)) result }
{
    let mut stream = ReadStream::open(desk, pool, actor, relation, source);
    let ended = take_all(rt, table, actor, method, runner, &mut stream, consumer);
    let (_, desk) = stream.close(rt, table, actor, method, runner);
    end_borrow(desk);
    ended
}
