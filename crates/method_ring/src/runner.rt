//! Who executes I/Os in groups, by a ring.
ghost use Rattle.std.specs.Prelude.{◌≡◌, ◌≢◌, ◌∷◌, [], None, IfSome};
ghost use Rattle.aio_word.specs.declared.Kind.TheVariants as kind;
ghost use Rattle.aio_word.specs.Stands.{IsIn};
ghost use Rattle.aio_word.specs.Tokens.{IsClaimed, make_mark};
ghost use Rattle.aio_handle.specs.Labels.{bound_label};
ghost use Rattle.aio_handle.specs.ContractViews.{IsActorOf, IsSameActor};
ghost use Rattle.aio_handle.specs.Execution.{ExecutesAll};
ghost use Rattle.aio_callback.specs.ReadIoView.{record_aim, ReadFits};
ghost use Rattle.method_worker.specs.QueueViews.{IsSeatOf, IsSameSeat};
ghost use Rattle.method_ring.specs.RingRunner.{PopsReferences, RunsGroup};

use crate::finish::finish;
use crate::gather::gather;
use crate::group::Group;
use crate::ring::Ring;
use crate::room::RingRoom;
use aio_callback::{Places, ReadIo};
use aio_handle::{Actor, Claimed, Execute, Table};
use method_worker::{QueueSeat, SubmitQueue};
use page_check::World;
use std::marker::Model;
use std::sync::Wait;

/// An executor of reads by a ring (`pgaio_uring_submit` and `pgaio_uring_drain_locked` of
/// `method_io_uring.c`). Between calls nothing is pending in its ring.
///
/// Its counts are the ring's. Beside the I/O that it is handed it executes up to 7 others, of
/// which the references stand in the submission queue. Contracts see its ring, its places, and
/// its queue and seat.
#[derive(Drop)]
pub struct RingRunner<'q, G: Ring, P, W: World> {
    group: Group<G, W>,
    places: P,
    queue: &'q SubmitQueue<W>,
    seat: QueueSeat,
}

impl<'q, G: Ring, P, W: World> Model for RingRunner<'q, G, P, W> {
    ghost use Rattle.std.specs.Prelude.{◌≡◌, []};
    ghost use Rattle.method_worker.specs.QueueViews.{IsSeatOf};
    ghost use Rattle.method_ring.specs.RingRunner.{RingRunnerView};

    ghost Value = { RingRunnerView G P };

    ghost view = { λ r. record {
      ring = r.group.ring;
      places = r.places;
      queue = r.queue.now;
      seat = r.seat;
    } };

    ghost invariant = { λ r. (r.group.claimed_ios ≡ []) × IsSeatOf r.queue.now r.seat };
}

impl<'q, G: Ring, P: Drop, W: World> RingRunner<'q, G, P, W> {
    /// A runner over a ring in which nothing is pending, with a seat of the queue. It takes no
    /// memory.
    pub fn new(
        ring: G,
        places: P,
        queue: &'q SubmitQueue<W>,
        seat: QueueSeat,
        room: RingRoom<W>,
    ) -> RingRunner<'q, G, P, W>
        requires pending { G.pending ring ≡ [] }
        requires room { room ≡ [] }
        requires seat { IsSeatOf queue.now seat }
        ensures { result ≡ record {
          ring = ring;
          places = places;
          queue = queue.now;
          seat = seat;
        } }
    {
        RingRunner {
            group: Group::new(ring, room),
            places,
            queue,
            seat,
        }
    }

    /// The ring, in which nothing is pending, the seat and the empty room.
    pub fn into_parts(self) -> (G, QueueSeat, RingRoom<W>)
        ensures parts { (result.0 ≡ self.entry.ring) × (result.1 ≡ self.entry.seat)
            × (result.2 ≡ []) }
        ensures pending { G.pending result.0 ≡ [] }
        ensures seat { IsSeatOf self.entry.queue result.1 }
    {
        let (ring, room) = self.group.into_parts();
        (ring, self.seat, room)
    }
}

impl<'q, W: World, G: Ring, P: Places<W>> Execute<ReadIo, W> for RingRunner<'q, G, P, W> {
    ghost relations = { λ r. G.relations r.ring };

    ghost told = { λ r. G.told r.ring };

    ghost faults = { λ r. G.faults r.ring };

    ghost reads = { λ r. G.reads r.ring };

    /// Submits the read of the I/O, pops up to 7 references, submits the reads of those that it can
    /// claim, and then completes each where the ring picks it, until the ring is empty.
    fn run<T: Wait>(
        &mut self,
        rt: &T,
        table: &Table<ReadIo, W>,
        actor: &mut Actor<ReadIo, W>,
        claimed: &mut Option<Claimed<ReadIo, W>>,
    )
        requires table { IsActorOf table.now actor.old }
        requires told { (G.told self.old.ring ≡ W.told)
            × (G.relations self.old.ring ≡ W.relations) }
        requires given { claimed.old ≢ None }
        requires token { IfSome claimed.old
            (λ t. IsClaimed actor.old.known t.0 × IsIn (t.0, record_aim t.1) actor.old.known.aims) }
        requires record { IfSome claimed.old
            (λ t. (t.1.label ≡ bound_label t.0.handle t.0.generation)
            × ReadFits W.told W.relations t.1) }
        ensures taken { claimed.new ≡ None }
        ensures same { IsSameActor actor.old actor.new }
        ensures told { (G.told self.new.ring ≡ G.told self.old.ring)
            × (G.relations self.new.ring ≡ G.relations self.old.ring) }
        ensures pending { G.pending self.new.ring ≡ [] }
        ensures seat { (self.new.queue ≡ self.old.queue)
            × IsSameSeat self.old.seat self.new.seat }
        ensures pops { PopsReferences 7 self.old.seat self.new.seat actor.old.known
            actor.new.known }
        ensures marks { IfSome claimed.old
            (λ t. ExecutesAll (make_mark t.0 kind.Claimed ∷ []) actor.old.known actor.new.known
            (G.reads self.old.ring) (G.reads self.new.ring) (G.faults self.old.ring)
            (G.faults self.new.ring)) }
        ensures group { IfSome claimed.old
            (λ t. RunsGroup W.told t actor.old.known actor.new.known
            (P.finished self.old.places) (P.finished self.new.places) (G.reads self.old.ring)
            (G.reads self.new.ring) (G.faults self.old.ring) (G.faults self.new.ring)) }
    {
        let Some(claimed) = claimed.take() else {
            unreachable!()
        };
        self.group.enter(claimed);
        gather(
            rt,
            self.queue,
            &mut self.seat,
            table,
            actor,
            &mut self.group,
        );
        finish(rt, table, actor, &mut self.places, &mut self.group);
    }
}
