//! Further I/Os for a group, from the submission queue.
ghost use Rattle.std.specs.Prelude.{◌≡◌, ◌<◌, length};
ghost use Rattle.aio_handle.specs.ContractViews.{IsActorOf, IsSameActor};
ghost use Rattle.method_worker.specs.QueueViews.{IsSeatOf, IsSameSeat};
ghost use Rattle.method_ring.specs.ClaimedIos.{AllClaimedIos, NumbersBelow};
ghost use Rattle.method_ring.specs.RingRunner.{GathersIos, PopsReferences};
ghost use Rattle.method_ring.specs.ClaimAttempts.{ClaimsOrFindsUnclaimable};

use crate::group::Group;
use crate::ring::Ring;
use aio_callback::ReadIo;
use aio_handle::{Actor, Table};
use aio_word::WaitRef;
use method_worker::{Pop, QueueSeat, SubmitQueue};
use page_check::World;
use std::sync::Wait;

/// Claims the I/O, where nobody has claimed it, and adds it to the group.
fn join<W: World, G: Ring>(
    table: &Table<ReadIo, W>,
    actor: &mut Actor<ReadIo, W>,
    group: &mut Group<G, W>,
    reference: WaitRef,
)
    requires table { IsActorOf table.now actor.old }
    requires told { (G.told group.old.ring ≡ W.told)
        × (G.relations group.old.ring ≡ W.relations) }
    requires range { reference.handle < W.handles }
    requires room { length group.old.claimed_ios < 8 }
    requires numbers { NumbersBelow (length group.old.claimed_ios) group.old.claimed_ios }
    requires all_claimed { AllClaimedIos W.World actor.old.known group.old.claimed_ios }
    ensures same { IsSameActor actor.old actor.new }
    ensures told { (G.told group.new.ring ≡ G.told group.old.ring)
        × (G.relations group.new.ring ≡ G.relations group.old.ring) }
    ensures counts { (G.reads group.new.ring ≡ G.reads group.old.ring)
        × (G.faults group.new.ring ≡ G.faults group.old.ring) }
    ensures gathers { GathersIos W.World 1 actor.old.known actor.new.known group.old.claimed_ios
        group.new.claimed_ios }
    ensures claim_tried { ClaimsOrFindsUnclaimable actor.old.known actor.new.known reference }
{
    actor.has_seen_its_marks();
    if let Some(claimed) = table.claim(actor, reference) {
        group.enter(claimed);
    }
}

/// Pops at most 7 references, and adds to the group what can be claimed of them.
pub(crate) fn gather<W: World, G: Ring, T: Wait>(
    rt: &T,
    queue: &SubmitQueue<W>,
    seat: &mut QueueSeat,
    table: &Table<ReadIo, W>,
    actor: &mut Actor<ReadIo, W>,
    group: &mut Group<G, W>,
)
    requires queue { IsSeatOf queue.now seat.old }
    requires table { IsActorOf table.now actor.old }
    requires told { (G.told group.old.ring ≡ W.told)
        × (G.relations group.old.ring ≡ W.relations) }
    requires one_claimed { length group.old.claimed_ios ≡ 1 }
    requires numbers { NumbersBelow 1 group.old.claimed_ios }
    requires all_claimed { AllClaimedIos W.World actor.old.known group.old.claimed_ios }
    ensures seat { IsSameSeat seat.old seat.new }
    ensures same { IsSameActor actor.old actor.new }
    ensures told { (G.told group.new.ring ≡ G.told group.old.ring)
        × (G.relations group.new.ring ≡ G.relations group.old.ring) }
    ensures counts { (G.reads group.new.ring ≡ G.reads group.old.ring)
        × (G.faults group.new.ring ≡ G.faults group.old.ring) }
    ensures gathers { GathersIos W.World 7 actor.old.known actor.new.known group.old.claimed_ios
        group.new.claimed_ios }
    ensures pops { PopsReferences 7 seat.old seat.new actor.old.known actor.new.known }
{
    for popped in 0..7u32 {
        match queue.pop(rt, seat) {
            Pop::Entry(reference) => join(table, actor, group, reference),
            Pop::Empty => return,
            Pop::Closed => return,
        }
    }
}
