//! What the stream answers.
ghost use Rattle.std.specs.Prelude.{◌≡◌};
ghost use Rattle.aio_handle.specs.ContractViews.{IsActorOf};
ghost use Rattle.read_stream.specs.StreamState.{IsOpenFor};

use aio_callback::ReadIo;
use aio_handle::{Actor, Execute, Table};
use block_source::Range;
use method_sync::SyncMethod;
use page_check::World;
use read_stream::{Next, ReadStream};
use std::io;
use std::sync::Wait;

/// Prints one answer of the stream.
fn print_answer<R: Print>(rt: &R, next: Next<'_, ()>) -> io::Result<()> {
    match next {
        Next::Page(_, block, _) => print!(rt; "{block} "),
        Next::Zeroed(_, block, _) => print!(rt; "{block} as zeros "),
        Next::Damaged(_, block, _) => print!(rt; "{block} damaged "),
        Next::End => println!(rt; "end"),
        Next::Invalid(block) | Next::Unread(block) | Next::PastEnd(block) => {
            println!(rt; "no page {block}")
        }
    }
}

/// Takes the ten pages, and the end. Each call of the stream asks for its own actor, a runner over
/// the disk that the table's world tells, and a stream that is open; and leaves them so.
pub fn take_all<W: World, E: Execute<ReadIo, W>, R: Wait + Print>(
    rt: &R,
    table: &Table<ReadIo, W>,
    actor: &mut Actor<ReadIo, W>,
    runner: &mut E,
    stream: &mut ReadStream<'_, '_, W, Range, ()>,
) -> io::Result<()>
    requires table { IsActorOf table.now actor.old }
    requires told { (E.told runner.old ≡ W.told) × (E.relations runner.old ≡ W.relations) }
    requires is_open { IsOpenFor (λ r. r) W.World stream.old actor.old }
    ensures table { IsActorOf table.now actor.new }
    ensures told { (E.told runner.new ≡ W.told) × (E.relations runner.new ≡ W.relations) }
    ensures is_open { IsOpenFor (λ r. r) W.World stream.new actor.new }
{
    for _ in 0..11 {
        print_answer(rt, stream.next(rt, table, actor, &mut SyncMethod, runner))?;
    }
    Ok(())
}
