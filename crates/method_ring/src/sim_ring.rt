//! A ring over a disk, which completes its reads in an order that is handed in.
ghost use Rattle.std.specs.Prelude.{◌≡◌, ◌≢◌, ◌≤◌, ◌<◌, ◌+◌, ◌++◌, ◌∷◌, [], length};
ghost use Rattle.std.specs.Prelude.{Some, None, IfOk, IfErr, IfSome, IfNone};
ghost use Rattle.aio_disk.specs.Counts.{HasCause, count_plus};
ghost use Rattle.aio_disk.specs.Disk.{AnswersPages};
ghost use Rattle.method_ring.specs.Pending.{entry, entry_user, pending_entry, without_entry};
ghost use Rattle.method_ring.specs.Pending.{IsFilledBy};
ghost use Rattle.method_ring.specs.SimRing.{new_idle_ring, new_sim_ring, place_of_turn, turn_after};
ghost use Rattle.method_ring.specs.SimRing.{number_picked, with_pick};

use crate::listed::{Numbered, take_out};
use crate::ring::{Entry, ROOM, Ring};
use aio_disk::{DeviceFault, Disk};
use page_check::Page;
use std::alloc::{AllocError, Global};
use std::marker::Model;

impl Numbered for Entry {
    ghost number = { entry_user };

    fn user(&self) -> u32 {
        self.user
    }
}

/// A ring without its disk, in which nothing is pending: its order, how far it has come in it, and
/// all the memory that the ring ever takes.
#[derive(Drop)]
pub struct IdleRing {
    order: Vec<u32>,
    // Which number of the order comes next.
    turn: usize,
    entries: Vec<Entry>,
}

impl Model for IdleRing {
    ghost use Rattle.std.specs.Prelude.{◌≡◌, ◌≤◌, ◌<◌, [], length, vec_capacity};
    ghost use Rattle.method_ring.specs.SimRing.{IdleRingView};

    ghost Value = { IdleRingView };

    ghost view = { λ s. record { order = s.order.items; turn = s.turn } };

    ghost invariant = { λ s. (s.entries.items ≡ []) × (8 ≤ vec_capacity s.entries)
        × (0 < length s.order.items → s.turn < length s.order.items) };
}

impl IdleRing {
    /// A ring that begins with the first number of its order.
    pub fn open(alloc: Global, order: Vec<u32>) -> Result<IdleRing, AllocError>
        ensures { IfOk result (λ r. r ≡ new_idle_ring order.items) }
    {
        Ok(IdleRing {
            order,
            turn: 0,
            entries: Vec::with_capacity(alloc, ROOM)?,
        })
    }

    /// The ring over this disk.
    pub fn over<D: Disk>(self, disk: D) -> SimRing<D>
        ensures { result ≡ record {
          disk = disk;
          order = self.order;
          turn = self.turn;
          pending = [];
          picked = None;
        } }
    {
        SimRing {
            disk,
            order: self.order,
            turn: self.turn,
            entries: self.entries,
            picked: None,
        }
    }
}

/// A ring over a disk. Its k-th pick that finds a read, counted from 0, takes the one at the place
/// `order[k % order.len()]`, counted around among those that are pending, or the oldest where
/// there is no order. `fill` makes the read of the disk.
#[derive(Drop)]
pub struct SimRing<D: Disk> {
    disk: D,
    order: Vec<u32>,
    // Which number of the order comes next.
    turn: usize,
    entries: Vec<Entry>,
    picked: Option<u32>,
}

impl<D: Disk> Model for SimRing<D> {
    ghost use Rattle.std.specs.Prelude.{◌≡◌, ◌≤◌, ◌<◌, [], length, vec_capacity};
    ghost use Rattle.method_ring.specs.SimRing.{SimRingView, AllEntriesValid};

    ghost Value = { SimRingView D };

    ghost view = { λ s. record {
      disk = s.disk;
      order = s.order.items;
      turn = s.turn;
      pending = s.entries.items;
      picked = s.picked;
    } };

    ghost invariant = { λ s. AllEntriesValid (D.relations s.disk) s.entries.items
        × (8 ≤ vec_capacity s.entries)
        × (0 < length s.order.items → s.turn < length s.order.items) };
}

impl<D: Disk> SimRing<D> {
    /// A ring with nothing pending. Where there is no memory the disk comes back. It takes all the
    /// memory that the ring ever takes.
    pub fn open(alloc: Global, disk: D, order: Vec<u32>) -> Result<SimRing<D>, D>
        ensures ok { IfOk result (λ r. r ≡ new_sim_ring disk order.items) }
        ensures err { IfErr result (λ d. d ≡ disk) }
    {
        match IdleRing::open(alloc, order) {
            Ok(idle) => Ok(idle.over(disk)),
            Err(_) => Err(disk),
        }
    }

    /// The disk. Nothing is pending.
    pub fn into_disk(self) -> D
        requires { self.pending ≡ [] }
        ensures { result ≡ self.disk }
    {
        self.disk
    }

    /// The disk, and the ring without it. Nothing is pending.
    pub fn into_parts(self) -> (D, IdleRing)
        requires { self.pending ≡ [] }
        ensures disk { result.0 ≡ self.disk }
        ensures idle { result.1 ≡ record { order = self.order; turn = self.turn } }
    {
        let idle = IdleRing {
            order: self.order,
            turn: self.turn,
            entries: self.entries,
        };
        (self.disk, idle)
    }
}

/// At which place of so many the next pick is, and which number of the order comes after it.
fn next_place(order: &[u32], turn: usize, count: usize) -> (usize, usize)
    requires some { 0 < count }
    requires turn { 0 < length order.now → turn < length order.now }
    ensures place { result.0 ≡ place_of_turn order.now turn count }
    ensures within { result.0 < count }
    ensures turn { result.1 ≡ turn_after order.now turn }
    ensures inside { 0 < length order.now → result.1 < length order.now }
{
    let length = order.len();
    if length == 0 {
        return (0, turn);
    }
    (order[turn] as usize % count, (turn + 1) % length)
}

impl<D: Disk> Ring for SimRing<D> {
    ghost pending = { λ s. s.pending };

    ghost picked = { λ s. s.picked };

    ghost relations = { λ s. D.relations s.disk };

    ghost told = { λ s. D.told s.disk };

    ghost faults = { λ s. D.faults s.disk };

    ghost reads = { λ s. D.reads s.disk };

    /// Neither the order nor its turn changes, nor the disk.
    fn submit(&mut self, user: u32, relation: u32, first: u32, count: u32)
        requires room { length self.old.pending < 8 }
        requires new { pending_entry user self.old.pending ≡ None }
        requires count { (1 ≤ count) × (count ≤ 128) }
        requires relation { relation < D.relations self.old.disk }
        ensures state { self.new ≡ record self.old {
          pending =
              self.old.pending ++ entry user relation first count ∷ [];
        } }
        ensures pending { self.new.pending
            ≡ self.old.pending ++ entry user relation first count ∷ [] }
        ensures picked { self.new.picked ≡ self.old.picked }
        ensures told { (D.told self.new.disk ≡ D.told self.old.disk)
            × (D.relations self.new.disk ≡ D.relations self.old.disk) }
        ensures counts { (D.reads self.new.disk ≡ D.reads self.old.disk)
            × (D.faults self.new.disk ≡ D.faults self.old.disk) }
    {
        self.entries.push_reserved(Entry {
            user,
            relation,
            first,
            count,
        });
    }

    /// The number of the read that comes next in the order.
    fn pick(&mut self) -> Option<u32>
        ensures value { result ≡ number_picked self.old }
        ensures state { self.new ≡ with_pick self.old }
        ensures some { IfSome result (λ user. (pending_entry user self.old.pending ≢ None)
            × (self.new.picked ≡ Some user)) }
        ensures none { IfNone result ((self.old.pending ≡ [])
            × (self.new.picked ≡ self.old.picked)) }
        ensures pending { self.new.pending ≡ self.old.pending }
        ensures told { (D.told self.new.disk ≡ D.told self.old.disk)
            × (D.relations self.new.disk ≡ D.relations self.old.disk) }
        ensures counts { (D.reads self.new.disk ≡ D.reads self.old.disk)
            × (D.faults self.new.disk ≡ D.faults self.old.disk) }
    {
        let count = self.entries.len();
        if count == 0 {
            return None;
        }
        let (index, turn) = next_place(self.order.as_slice(), self.turn, count);
        let user = self.entries[index].user;
        self.turn = turn;
        self.picked = Some(user);
        Some(user)
    }

    /// Reads the disk. Neither the order nor its turn changes.
    fn fill(&mut self, user: u32, pages: &mut [Page]) -> Result<u32, DeviceFault>
        requires picked { self.old.picked ≡ Some user }
        requires entry { IsFilledBy (pending_entry user self.old.pending) (length pages.old) }
        ensures order { (self.new.order ≡ self.old.order) × (self.new.turn ≡ self.old.turn) }
        ensures pages { IfSome (pending_entry user self.old.pending)
            (λ e. AnswersPages (D.told self.old.disk) e.relation e.first result pages.new) }
        ensures cause { HasCause (D.faults self.old.disk) (D.faults self.new.disk) result }
        ensures pending { self.new.pending ≡ without_entry user self.old.pending }
        ensures picked { self.new.picked ≡ None }
        ensures told { (D.told self.new.disk ≡ D.told self.old.disk)
            × (D.relations self.new.disk ≡ D.relations self.old.disk) }
        ensures reads { D.reads self.new.disk ≡ count_plus 1 (D.reads self.old.disk) }
    {
        let Some(entry) = take_out(&mut self.entries, user) else {
            unreachable!()
        };
        self.picked = None;
        self.disk.read(entry.relation, entry.first, pages)
    }
}
