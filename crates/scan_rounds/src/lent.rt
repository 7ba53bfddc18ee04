//! A runner by a ring that is lent to a stream.
ghost use Rattle.std.specs.Prelude.{◌≡◌, Option, Some, None};
ghost use Rattle.method_worker.specs.QueueViews.{QueueView};

use aio_callback::ReadIo;
use aio_disk::Disk;
use aio_handle::{Actor, Claimed, Execute, Table};
use buf_pool::Pool;
use method_ring::{RingRunner, SimRing};
use page_check::World;
use std::marker::{Brand, PhantomData};
use std::sync::Wait;

/// The queue of a lent runner. Contracts alone see it: it has no functions, and no value of it is
/// made.
///
/// A caller fixes it by calling a function over `L: QueueBrand` with `Brand`.
pub(crate) trait QueueBrand {
    ghost queue: { Option QueueView };
}

impl QueueBrand for Brand {
    ghost queue = { None };
}

/// A runner by a ring, whose type says which queue it has a seat of. So the seat that comes back
/// from whoever borrowed it is one of that queue.
#[derive(Drop)]
pub(crate) struct LentRunner<'q, L: QueueBrand, W: World, D: Disk> {
    pub(crate) runner: RingRunner<'q, SimRing<D>, &'q Pool<W>, W>,
    pub(crate) brand: PhantomData<L>,
    pub(crate) ghost of: { L.queue ≡ Some runner.queue },
}

impl<'q, L: QueueBrand, W: World, D: Disk> Execute<ReadIo, W> for LentRunner<'q, L, W, D> {
    ghost relations = { λ r. D.relations r.runner.ring.disk };

    ghost told = { λ r. D.told r.runner.ring.disk };

    ghost faults = { λ r. D.faults r.runner.ring.disk };

    ghost reads = { λ r. D.reads r.runner.ring.disk };

    fn run<T: Wait>(
        &mut self,
        rt: &T,
        table: &Table<ReadIo, W>,
        actor: &mut Actor<ReadIo, W>,
        claimed: &mut Option<Claimed<ReadIo, W>>,
    ) {
        self.runner.run(rt, table, actor, claimed);
    }
}
