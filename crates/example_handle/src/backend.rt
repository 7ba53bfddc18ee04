//! What the backend does with its handle, on both sides of the I/O.
ghost use Rattle.std.specs.Prelude.{◌≡◌, ◌<◌, IfSome};
ghost use Rattle.aio_handle.specs.ContractViews.{IsActorOf};
ghost use Rattle.example_handle.specs.ActorPair.{IsInFlightAbout, IsIdle};

use crate::note::Note;
use aio_handle::{Actor, InFlight, Table, Take};
use page_check::World;
use std::sync::Wait;

/// The first half: acquire a handle, define what is to be done, stage it, submit it.
/// From then on the record lies in the handle's slot, where anybody may claim it.
pub fn offer<W: World>(
    table: &Table<Note, W>,
    mut backend: Actor<Note, W>,
) -> Option<(Actor<Note, W>, InFlight<W>)>
    requires idle { IsIdle table.now backend }
    requires backend { backend.known.number < table.now.config.backends }
    ensures { IfSome result (λ r. IsActorOf table.now r.0 × IsInFlightAbout r.1 21 r.0.known) }
{
    let Ok(token) = table.acquire(&mut backend) else {
        return None;
    };
    let token = table.define(&mut backend, token, Note::about(21));
    let token = table.stage(&mut backend, token);
    let token = table.submit(&mut backend, token);
    Some((backend, token))
}

/// The second half: wait until the I/O is done, take the record, and reclaim the handle,
/// which is then free for its next life. Whoever has executed it, the double is right.
pub fn take_in<W: World, T: Wait>(
    rt: &T,
    table: &Table<Note, W>,
    mut backend: Actor<Note, W>,
    mut token: InFlight<W>,
) -> (Actor<Note, W>, u64)
    requires table { IsActorOf table.now backend }
    requires in_flight { IsInFlightAbout token 21 backend.known }
    ensures idle { IsIdle table.now result.0 }
    ensures double { result.1 ≡ 42 }
{
    for _ in rt.forever() {
        match table.try_take(&mut backend, token) {
            Take::Ready(mut local) => {
                local.record_mut().label.settled = true;
                let note = table.reclaim(&mut backend, local);
                return (backend, note.doubled);
            }
            Take::NotYet(again) => token = again,
        }
        table.rest(rt, &mut backend, token.reference());
    }
    unreachable!()
}
