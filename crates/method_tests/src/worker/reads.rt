//! Reads that are begun by a method.
ghost use Rattle.std.specs.Prelude.{◌≡◌, ◌≤◌, ◌<◌, None, IfSome, length};
ghost use Rattle.aio_handle.specs.ContractViews.{IsActorOf, IsSameActor};
ghost use Rattle.aio_fixtures.specs.Lives.{IsSubmitted};

use aio_batch::Method;
use aio_callback::ReadIo;
use aio_handle::{Actor, InFlight, Table, laws as table_laws};
use page_check::World;
use read_fixtures::{WholeExecutor, submit_read};
use std::sync::Wait;

/// Submits a read of one block, and begins it by the method.
pub(super) fn submit_by_method<W: World, M: Method<ReadIo, W>, T: Wait>(
    rt: &T,
    table: &Table<ReadIo, W>,
    actor: &mut Actor<ReadIo, W>,
    method: &mut M,
    runner: &mut WholeExecutor,
    io: ReadIo,
) -> Option<InFlight<W>>
    requires table { IsActorOf table.now actor.old }
    requires backend { actor.old.known.number < table.now.config.backends }
    requires untold { W.told ≡ None }
    requires some { 0 < W.relations }
    requires room { 1 ≤ length io.pages }
    ensures same { IsSameActor actor.old actor.new }
    ensures submitted { IfSome result (λ t. IsSubmitted t actor.old.known actor.new.known) }
    ensures stands_on { M.stands_on method.new ≡ M.stands_on method.old }
{
    table_laws::execution_keeps_tokens();
    let token = submit_read(table, actor, io, 0)?;
    let reference = token.reference();
    method.begun(rt, table, actor, runner, reference);
    Some(token)
}
