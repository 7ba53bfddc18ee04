//! A ring, and the claimed I/Os whose reads are in it.
ghost use Rattle.std.specs.Prelude.{◌≡◌, ◌<◌, ◌++◌, ◌∷◌, [], length, IfSome, IfNone};
ghost use Rattle.method_ring.specs.ClaimedIos.{IsReadableRecord, NumbersBelow};
ghost use Rattle.method_ring.specs.Group.{PickedFrom, raw_answer};

use crate::ring::Ring;
use crate::room::RingRoom;
use aio_callback::{Raw, ReadIo};
use aio_disk::DeviceFault;
use aio_handle::Claimed;
use page_check::World;
use std::marker::Model;

/// What a read answered.
fn answer_of(read: Result<u32, DeviceFault>) -> Raw
    ensures { result ≡ raw_answer read }
{
    match read {
        Ok(count) => Raw::Read(count),
        Err(_) => Raw::Failed,
    }
}

/// A ring, and the claimed I/Os whose reads are pending in it, in the ring's order. Contracts see
/// both.
#[derive(Drop)]
pub(crate) struct Group<G: Ring, W: World> {
    ring: G,
    room: RingRoom<W>,
}

impl<G: Ring, W: World> Model for Group<G, W> {
    ghost use Rattle.method_ring.specs.Group.{GroupView, PendingReadsClaimed};

    ghost Value = { GroupView G };

    ghost view = { λ g. record { ring = g.ring; claimed_ios = g.room } };

    ghost invariant = { λ g. PendingReadsClaimed (G.pending g.ring) (G.relations g.ring) g.room };
}

impl<G: Ring, W: World> Group<G, W> {
    pub(crate) fn new(ring: G, room: RingRoom<W>) -> Group<G, W>
        requires { (G.pending ring ≡ []) × (room ≡ []) }
        ensures { result ≡ record { ring = ring; claimed_ios = [] } }
    {
        Group { ring, room }
    }

    pub(crate) fn into_parts(self) -> (G, RingRoom<W>)
        requires { self.claimed_ios ≡ [] }
        ensures parts { (result.0 ≡ self.ring) × (result.1 ≡ []) }
        ensures pending { G.pending result.0 ≡ [] }
    {
        (self.ring, self.room)
    }

    /// Submits the read of a claimed I/O, under a number that no other has.
    pub(crate) fn enter(&mut self, claimed: Claimed<ReadIo, W>)
        requires room { length self.old.claimed_ios < 8 }
        requires numbers { NumbersBelow (length self.old.claimed_ios) self.old.claimed_ios }
        requires unread { IsReadableRecord (G.relations self.old.ring) claimed.1 }
        ensures claimed_appended { self.new.claimed_ios ≡ self.old.claimed_ios
            ++ (length self.old.claimed_ios, claimed) ∷ [] }
        ensures told { (G.told self.new.ring ≡ G.told self.old.ring)
            × (G.relations self.new.ring ≡ G.relations self.old.ring) }
        ensures counts { (G.reads self.new.ring ≡ G.reads self.old.ring)
            × (G.faults self.new.ring ≡ G.faults self.old.ring) }
    {
        let user = self.room.len() as u32;
        let relation = claimed.record().relation();
        let first = claimed.record().first();
        let count = claimed.record().count();
        self.ring.submit(user, relation, first, count);
        self.room.put(user, claimed);
    }

    /// Picks a completion, and gives the I/O whose number it carries, with the answer of its read.
    /// None exactly where nothing is pending.
    pub(crate) fn next(&mut self) -> Option<(Claimed<ReadIo, W>, Raw)>
        requires told { G.told self.old.ring ≡ W.told }
        ensures some { IfSome result (λ r. PickedFrom W.told self.old.claimed_ios
            self.new.claimed_ios r.0 r.1
            (G.reads self.old.ring) (G.reads self.new.ring) (G.faults self.old.ring)
            (G.faults self.new.ring)) }
        ensures none { IfNone result ((self.old.claimed_ios ≡ []) × (self.new.claimed_ios ≡ [])
            × (G.reads self.new.ring ≡ G.reads self.old.ring)
            × (G.faults self.new.ring ≡ G.faults self.old.ring)) }
        ensures pending { IfNone result (G.pending self.new.ring ≡ []) }
        ensures told { (G.told self.new.ring ≡ G.told self.old.ring)
            × (G.relations self.new.ring ≡ G.relations self.old.ring) }
    {
        let user = self.ring.pick()?;
        let Some(mut held) = self.room.take(user) else {
            unreachable!()
        };
        let pages = held.claimed.record_mut().pages_mut();
        let raw = answer_of(self.ring.fill(user, pages));
        held.claimed.record_mut().answer(raw);
        Some((held.claimed, raw))
    }
}
