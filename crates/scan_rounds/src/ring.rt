//! What a backend has for its ring.
ghost use Rattle.std.specs.Prelude.{◌≡◌, [], IfOk};

use method_ring::{IdleRing, RingRoom};
use method_worker::QueueSeat;
use page_check::World;
use std::alloc::{AllocError, Global};

/// The order in which a ring completes its reads.
const ORDER: [u32; 3] = [1, 0, 2];

/// What a backend has for its ring between its jobs: the ring without the disk, room for what it
/// executes together, and the seat by which it takes I/Os from the queue.
#[derive(Drop)]
pub(crate) struct IdleRingState<W: World> {
    pub(crate) idle: IdleRing,
    /// Empty.
    pub(crate) room: RingRoom<W>,
    pub(crate) seat: QueueSeat,
}

impl<W: World> IdleRingState<W> {
    /// A ring with this seat. It takes all the memory that the ring ever takes.
    pub(crate) fn open(alloc: Global, seat: QueueSeat) -> Result<IdleRingState<W>, AllocError>
        ensures { IfOk result (λ r. (r.seat ≡ seat) × (r.room ≡ [])) }
    {
        let order = Vec::from_array(alloc, ORDER)?;
        Ok(IdleRingState {
            idle: IdleRing::open(alloc, order)?,
            room: RingRoom::open(alloc)?,
            seat,
        })
    }
}
