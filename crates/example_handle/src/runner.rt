//! What the runner does with an I/O that a backend has submitted.
ghost use Rattle.std.specs.Prelude.{◌<◌};
ghost use Rattle.example_handle.specs.ActorPair.{IsIdle};

use crate::note::Note;
use aio_handle::{Actor, Table};
use aio_word::{Class, WaitRef};
use page_check::World;

/// Claims the I/O, executes it, and sends the record home. Where somebody else has claimed it,
/// nothing is left to do.
pub fn execute<W: World>(
    table: &Table<Note, W>,
    mut runner: Actor<Note, W>,
    reference: WaitRef,
) -> Actor<Note, W>
    requires idle { IsIdle table.now runner }
    requires range { reference.handle < W.handles }
    ensures { IsIdle table.now result }
{
    let Some(mut claimed) = table.claim(&mut runner, reference) else {
        return runner;
    };
    let note = claimed.record_mut();
    note.doubled = 2 * u64::from(note.number);
    note.label.ended = Class::Whole;
    table.complete_io(&mut runner, &mut claimed, Class::Whole);
    table.complete_shared(&mut runner, claimed);
    runner
}
