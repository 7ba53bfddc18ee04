//! Line pointers of a relation, whose pages are read through a stream.
ghost use Rattle.std.specs.Prelude.{◌≡◌, ◌<◌, ◌≤◌, ◌^◌, ℕ, ◌∷◌, [], length};
ghost use Rattle.page_check.specs.SynchronousAnswer.{Ending};
ghost use Rattle.aio_handle.specs.ContractViews.{IsActorOf, IsSameActor};
ghost use Rattle.aio_handle.specs.EndStates.{HasNoOwnerTokens};
ghost use Rattle.aio_handle.specs.FreeHandles.{IsRoom};
ghost use Rattle.block_source.specs.BlocksLeft.{consecutive_blocks};
ghost use Rattle.read_stream.specs.Desks.{IsFreeDesk, desk_settings};
ghost use Rattle.stream_answer.specs.StreamAnswers.{stream_entries, synchronous_answer};
ghost use Rattle.read_stream.specs.StreamState.{IsOpenFor, stream_view};
ghost use Rattle.read_stream.specs.StreamViews.{IsSameStream};
ghost use Rattle.example_stream.specs.Items.{ItemsCounted, StreamCounted, answer_items};

use aio_callback::ReadIo;
use aio_handle::{Actor, Execute, Table};
use block_source::Range;
use buf_pool::Pool;
use method_sync::SyncMethod;
use page_check::{World, count};
use read_stream::{Desk, Next, ReadStream, end_borrow};
use std::sync::Wait;

// How many line pointers the page has, where the answer gives one.
fn count_page(answer: Next<'_, ()>) -> Option<u16>
    ensures { (relation : ℕ) → result ≡ answer_items (synchronous_answer relation answer.entry) }
{
    match answer {
        Next::Page(page, _, _) | Next::Zeroed(page, _, _) | Next::Damaged(page, _, _) => {
            Some(count(page))
        }
        Next::End | Next::Invalid(_) | Next::Unread(_) | Next::PastEnd(_) => None,
    }
}

// Counts the pages of a new stream, up to its end.
fn count_all<W: World, E: Execute<ReadIo, W>, R: Wait>(
    rt: &R,
    table: &Table<ReadIo, W>,
    actor: &mut Actor<ReadIo, W>,
    runner: &mut E,
    stream: &mut ReadStream<'_, '_, W, Range, ()>,
) -> (u64, u32)
    requires table { IsActorOf table.now actor.old }
    requires told { (E.told runner.old ≡ W.told) × (E.relations runner.old ≡ W.relations) }
    requires is_open { IsOpenFor (λ r. r) W.World stream.old actor.old }
    requires none { (stream_view (λ r. r) stream.old).given ≡ 0 }
    requires few { length (stream_view (λ r. r) stream.old).blocks < 2 ^ 32 }
    ensures same { IsSameActor actor.old actor.new }
    ensures told { (E.told runner.new ≡ W.told) × (E.relations runner.new ≡ W.relations) }
    ensures is_open { IsOpenFor (λ r. r) W.World stream.new actor.new }
    ensures stream { IsSameStream (stream_view (λ r. r) stream.old)
        (stream_view (λ r. r) stream.new) }
    ensures counted { (end : Ending) × StreamCounted W.told (stream_view (λ r. r) stream.old)
        (end ∷ []) result.0 result.1 }
{
    let mut items = 0;
    let mut pages = 0;
    loop {
        let answer = stream.next(rt, table, actor, &mut SyncMethod, runner);
        let Some(more) = count_page(answer) else {
            return (items, pages);
        };
        items += more as u64;
        pages += 1;
    }
}

/// How many line pointers the pages of the first `blocks` blocks of the relation have, up to the
/// first that cannot be given, and how many pages those are. It may wait.
pub fn count_items<W: World, E: Execute<ReadIo, W>, R: Wait>(
    rt: &R,
    table: &Table<ReadIo, W>,
    pool: &Pool<W>,
    actor: &mut Actor<ReadIo, W>,
    desk: &mut Desk<W, ()>,
    runner: &mut E,
    relation: u32,
    blocks: u32,
) -> (u64, u32)
    requires table { IsActorOf table.now actor.old }
    requires backend { actor.old.known.number < actor.old.known.config.backends }
    requires no_owner_tokens { HasNoOwnerTokens actor.old.known }
    requires room { (room : ℕ) × IsRoom actor.old.known.config actor.old.known room
        × (blocks ≤ room) }
    requires desk { IsFreeDesk desk.old }
    requires told { (E.told runner.old ≡ W.told) × (E.relations runner.old ≡ W.relations) }
    requires relation { relation < W.relations }
    ensures same { IsSameActor actor.old actor.new }
    ensures no_owner_tokens { HasNoOwnerTokens actor.new.known }
    ensures desk { IsFreeDesk desk.new × (desk_settings desk.new ≡ desk_settings desk.old) }
    ensures told { (E.told runner.new ≡ W.told) × (E.relations runner.new ≡ W.relations) }
    ensures counted { (end : Ending) × ItemsCounted (desk_settings desk.old).rules W.told
        (stream_entries relation (consecutive_blocks 0 blocks)) (end ∷ []) result.0 result.1 }
{
    let mut stream = ReadStream::open(desk, pool, actor, relation, Range::new(0, blocks));
    let counted = count_all(rt, table, actor, runner, &mut stream);
    let (_, desk) = stream.close(rt, table, actor, &mut SyncMethod, runner);
    end_borrow(desk);
    counted
}
