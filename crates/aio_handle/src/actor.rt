//! One actor of a table: a backend, which owns handles, or a runner.
ghost use Rattle.std.specs.Prelude.{◌≡◌, ◌<◌, ◌-◌, ◌^◌, cond, nat_lt, min, IfSome, IfNone};
ghost use Rattle.aio_word.specs.Events.{handle_count};
ghost use Rattle.aio_word.specs.Stands.{seen_rank};
ghost use Rattle.aio_word.specs.Tokens.{MarksOnceAndSeen, claimed_mark_count};
ghost use Rattle.aio_handle.specs.OwnHandleCache.{OnlyPastReclaimed};
ghost use Rattle.aio_handle.specs.FreeHandles.{IsFree, HasNoneFree, IsRoom};

use crate::own_handles::{OwnHandle, next_free, room_of};
use crate::record::Record;
use crate::rule::View;
use aio_word::{Config, WaitRef};
use atomic_table::Seat;
use page_check::World;
use std::marker::{Model, PhantomData};

/// Why no handle is handed out.
#[derive(Clone, Copy, Debug, PartialEq, Eq)]
pub enum AcquireRefusal {
    /// The actor has a handle out, which it has neither defined nor released.
    OneIsOut,
    /// Each handle of the actor is in the middle of a life or stands at the last generation.
    NoneFree,
}

/// An actor of a table. Contracts see its table and what it knows: its number, the list of its
/// marks, the handle that it has handed out, the greatest pair of generation and place that it has
/// seen of each handle, its looks, and the aims of the I/Os that it submitted or claimed.
#[derive(Drop)]
pub struct Actor<R: Record, W: World> {
    pub(crate) seat: Seat<Option<R>, View>,
    pub(crate) number: u32,
    pub(crate) config: Config,
    pub(crate) own: Vec<OwnHandle>,
    // Where the search for a free handle begins.
    pub(crate) turn: usize,
    pub(crate) is_out: bool,
    // How often it has claimed.
    pub(crate) claims: u128,
    pub(crate) marker: PhantomData<W>,
}

impl<R: Record, W: World> Model for Actor<R, W> {
    ghost use Rattle.aio_handle.specs.ContractViews.{ActorView, IsConfig};
    ghost use Rattle.aio_handle.specs.Seats.{IsSeated, seat_known};
    ghost use Rattle.aio_handle.specs.OwnHandleCache.{CachesOwnHandles};

    ghost Value = { ActorView };

    ghost view = { λ a. record { table = a.seat.table_id; known = seat_known a.seat.me.0 } };

    ghost invariant = { λ a. IsSeated a.config a.number a.seat.me × IsConfig a.config
        × CachesOwnHandles a.config a.own.items a.turn a.is_out a.claims (seat_known a.seat.me.0) };
}

impl<R: Record, W: World> Actor<R, W> {
    /// Its number: the backends come first.
    pub fn number(&self) -> u32
        ensures { result ≡ self.now.known.number }
    {
        self.number
    }

    /// For a backend, how many more lives the handle with the greatest generation can have: the
    /// last generation less that one. For a runner 0.
    pub fn room(&self) -> u64
        ensures { IsRoom self.now.known.config self.now.known result }
    {
        room_of(self.own.as_slice())
    }

    /// Each mark of its list stands there once, and it has seen each. It does nothing when it runs.
    pub fn has_seen_its_marks(&self)
        ensures { MarksOnceAndSeen (seen_rank self.now.known) self.now.known.marks }
    {
        let number = self.number;
        let _ = number;
    }

    /// What it has reclaimed of a handle of its own lies below that handle's generation. It does
    /// nothing when it runs.
    pub fn has_reclaimed_only_past(&self)
        ensures { OnlyPastReclaimed self.now.known.config self.now.known }
    {
        let number = self.number;
        let _ = number;
    }

    // How often it has claimed, as a backend and as a runner.
    pub(crate) fn claims(&self, backends: u32) -> (u128, u128)
        ensures backend { result.0 ≡ min
            (cond (nat_lt self.now.known.number backends) (claimed_mark_count self.now.known.marks)
            0)
            (2 ^ 128 - 1) }
        ensures runner { result.1 ≡ min
            (cond (nat_lt self.now.known.number backends) 0
            (claimed_mark_count self.now.known.marks))
            (2 ^ 128 - 1) }
    {
        if self.number < backends {
            (self.claims, 0)
        } else {
            (0, self.claims)
        }
    }

    // The next incarnation of one of its handles that is free by its own marks.
    pub(crate) fn free_handle(&self) -> Option<WaitRef>
        requires backend { self.now.known.number < self.now.known.config.backends }
        ensures some { IfSome result
            (λ t. (t.handle < handle_count self.now.known.config)
            × IsFree self.now.known.config self.now.known t) }
        ensures none { IfNone result (HasNoneFree self.now.known.config self.now.known) }
    {
        let own = self.own.as_slice();
        let Some(place) = next_free(own, self.turn) else {
            return None;
        };
        Some(WaitRef {
            handle: self.number * self.config.per_backend + place as u32,
            generation: own[place].generation,
        })
    }
}
