//! Room for the I/Os of a group.
ghost use Rattle.std.specs.Prelude.{◌≡◌, ◌<◌, ◌++◌, ◌∷◌, [], length, IfOk};
ghost use Rattle.method_ring.specs.ClaimedIos.{claimed_number, claimed_with_number};
ghost use Rattle.method_ring.specs.ClaimedIos.{without_claimed};

use crate::listed::{Numbered, take_out};
use crate::ring::ROOM;
use aio_callback::ReadIo;
use aio_handle::Claimed;
use page_check::World;
use std::alloc::{AllocError, Global};
use std::marker::Model;

/// A claimed I/O, under the number of its read in the ring. Contracts see the number, the reference
/// and the record.
#[derive(Drop)]
pub(crate) struct ClaimedEntry<W: World> {
    pub(crate) user: u32,
    pub(crate) claimed: Claimed<ReadIo, W>,
}

impl<W: World> Model for ClaimedEntry<W> {
    ghost use Rattle.method_ring.specs.ClaimedIos.{ClaimedIo};

    ghost Value = { ClaimedIo };

    ghost view = { λ h. (h.user, h.claimed) };
}

impl<W: World> Numbered for ClaimedEntry<W> {
    ghost number = { claimed_number };

    fn user(&self) -> u32 {
        self.user
    }
}

/// Room for 8 claimed I/Os, which a [`RingRunner`](crate::RingRunner) executes together. It is
/// empty but while the runner executes. Contracts see what it holds.
#[derive(Drop)]
pub struct RingRoom<W: World> {
    held: Vec<ClaimedEntry<W>>,
}

impl<W: World> Model for RingRoom<W> {
    ghost use Rattle.std.specs.Prelude.{List, ◌≤◌, vec_capacity};
    ghost use Rattle.method_ring.specs.ClaimedIos.{ClaimedIo};

    ghost Value = { List ClaimedIo };

    ghost view = { λ r. r.held.items };

    ghost invariant = { λ r. 8 ≤ vec_capacity r.held };
}

impl<W: World> RingRoom<W> {
    /// An empty room. It takes all the memory that the room ever takes.
    pub fn open(alloc: Global) -> Result<RingRoom<W>, AllocError>
        ensures { IfOk result (λ r. r ≡ []) }
    {
        Ok(RingRoom {
            held: Vec::with_capacity(alloc, ROOM)?,
        })
    }

    /// How many I/Os it holds.
    pub(crate) fn len(&self) -> usize
        ensures { result ≡ length self.now }
    {
        self.held.len()
    }

    /// Holds one I/O more.
    pub(crate) fn put(&mut self, user: u32, claimed: Claimed<ReadIo, W>)
        requires { length self.old < 8 }
        ensures { self.new ≡ self.old ++ (user, claimed) ∷ [] }
    {
        self.held.push_reserved(ClaimedEntry { user, claimed });
    }

    /// Takes the I/O with this number out.
    pub(crate) fn take(&mut self, user: u32) -> Option<ClaimedEntry<W>>
        ensures result_is { result ≡ claimed_with_number user self.old }
        ensures others { self.new ≡ without_claimed user self.old }
    {
        take_out(&mut self.held, user)
    }
}
