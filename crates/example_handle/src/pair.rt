//! A table of one handle with its two actors: opened, and closed.
ghost use Rattle.std.specs.Prelude.{◌≡◌, ◌+◌, IfOk};
ghost use Rattle.example_handle.specs.ActorPair.{ArePair, IsIdle};

use crate::note::Note;
use aio_fixtures::{close_with_two, last_actor};
use aio_handle::{Actor, Table, Totals};
use page_check::World;
use std::alloc::{AllocError, Global};

/// A table, the backend that owns its one handle, and a runner, which owns none.
pub fn open_pair<W: World>(
    alloc: Global,
) -> Result<(Table<Note, W>, Actor<Note, W>, Actor<Note, W>), AllocError>
    requires { W.handles ≡ 1 }
    ensures { IfOk result (λ r. ArePair r.0 r.1 r.2) }
{
    let (table, mut actors) = Table::<Note, W>::open(alloc, 1, 1, 1, 0)?;
    let Some(runner) = last_actor(&table, &mut actors) else {
        unreachable!()
    };
    let Some(backend) = last_actor(&table, &mut actors) else {
        unreachable!()
    };
    Ok((table, backend, runner))
}

/// Ends the table. Both its actors are handed in, and neither has a token out: else who executed
/// which I/O could not be counted.
pub fn close_pair<W: World>(
    alloc: Global,
    table: Table<Note, W>,
    backend: Actor<Note, W>,
    runner: Actor<Note, W>,
) -> Result<Totals, AllocError>
    requires idle { IsIdle table backend × IsIdle table runner }
    requires two { (table.config.backends ≡ 1) × (table.config.runners ≡ 1) }
    ensures { IfOk result (λ t. t.incarnations ≡ t.by_backends + t.by_runners) }
{
    close_with_two(alloc, table, backend, runner)
}
