//! An I/O of a backend's second handle.
ghost use Rattle.std.specs.Prelude.{◌<◌, IfSome};
ghost use Rattle.aio_word.specs.Tokens.{IsInFlight};
ghost use Rattle.aio_handle.specs.ContractViews.{IsActorOf, IsSameActor};

use aio_fixtures::{EmptyIo, submit_io};
use aio_handle::{Actor, InFlight, Table};
use page_check::World;

/// Submits I/Os of two of a backend's handles: the second of them.
pub(crate) fn submit_second<W: World>(
    table: &Table<EmptyIo, W>,
    actor: &mut Actor<EmptyIo, W>,
) -> Option<InFlight<W>>
    requires table { IsActorOf table.now actor.old }
    requires backend { actor.old.known.number < table.now.config.backends }
    ensures same { IsSameActor actor.old actor.new }
    ensures token { IfSome result (λ t. IsInFlight actor.new.known t) }
{
    submit_io(table, actor, EmptyIo::new())?;
    let token = submit_io(table, actor, EmptyIo::new())?;
    Some(token)
}
