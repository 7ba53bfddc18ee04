//! The two backends of a table, and the seats of their queue.
ghost use Rattle.std.specs.Prelude.{◌≡◌, ◌<◌, IfSome, length};
ghost use Rattle.std.specs.List.{All};
ghost use Rattle.aio_handle.specs.EndStates.{HasNoOwnerTokens};
ghost use Rattle.aio_handle.specs.ContractViews.{IsActorOf, AreNewActors};
ghost use Rattle.method_worker.specs.QueueViews.{IsSeatOf};

use crate::queue::entries::last_seat;
use aio_callback::ReadIo;
use aio_fixtures::last_actor;
use aio_handle::{Actor, Table};
use method_worker::{QueueSeat, SubmitQueue};
use page_check::World;

/// The two backends of a new table, for each of which it has 4 handles.
pub(super) fn backends_of<W: World>(
    table: &Table<ReadIo, W>,
    mut actors: Vec<Actor<ReadIo, W>>,
) -> Option<(Actor<ReadIo, W>, Actor<ReadIo, W>)>
    requires new { AreNewActors table.now 0 actors.items }
    requires two { length actors.items ≡ 2 }
    requires backends { table.now.config.backends ≡ 2 }
    ensures zero { IfSome result (λ r. IsActorOf table.now r.0
        × (r.0.known.number < table.now.config.backends) × HasNoOwnerTokens r.0.known) }
    ensures one { IfSome result (λ r. IsActorOf table.now r.1
        × (r.1.known.number < table.now.config.backends) × HasNoOwnerTokens r.1.known) }
{
    let one = last_actor(table, &mut actors)?;
    let zero = last_actor(table, &mut actors)?;
    Some((zero, one))
}

/// The seats of a new queue: one that pushes, and those of two runners.
pub(super) fn seats_of<W: World>(
    queue: &SubmitQueue<W>,
    mut seats: Vec<QueueSeat>,
) -> Option<(QueueSeat, QueueSeat, QueueSeat)>
    requires { All (IsSeatOf queue.now) seats.items }
    ensures { IfSome result (λ r. IsSeatOf queue.now r.0 × IsSeatOf queue.now r.1
        × IsSeatOf queue.now r.2) }
{
    let pushes = last_seat(queue, &mut seats)?;
    let first = last_seat(queue, &mut seats)?;
    let second = last_seat(queue, &mut seats)?;
    Some((pushes, first, second))
}
