//! The server's calls.
ghost use Rattle.std.specs.Prelude.{◌≡◌, IfSome};
ghost use Rattle.handoff.specs.HandoffViews.{IsPendingReplyOf};

use crate::handoff::Handoff;
use crate::rule::Service;
use crate::slot::{SeatView, SlotContent};
use crate::steps::{LookStep, ReplyStep, ServeStep};
use crate::word::{AT_SERVER, HAS_REPLY, HAS_REQUEST, IS_CLOSED, WORD, change_word};
use atomic_table::Seat;
use std::marker::Model;
use std::snapshot::Snapshot;
use std::sync::Wait;

/// The reply that a server owes to a request that it has taken: the right to one call of `reply`. It
/// has no bytes. Contracts see the request. A server that drops it leaves the client asleep for ever.
#[derive(Drop)]
pub struct PendingReply<K, Q, A> {
    seat: Seat<SlotContent<Q, A>, SeatView<K, Q>>,
    request: Snapshot<Q>,
}

impl<K, Q, A> Model for PendingReply<K, Q, A> {
    ghost use Rattle.handoff.specs.HandoffViews.{PendingReplyView, IsServerSeat};

    ghost Value = { PendingReplyView K Q };

    ghost view = { λ p. record {
      table = p.seat.table_id;
      key = p.seat.me.0.key;
      request = p.request.value;
    } };

    ghost invariant = { λ p. IsServerSeat p.request.value p.seat.me };
}

impl<K, Q: Drop, A: Drop, S: Service<K, Q, A>> Handoff<K, Q, A, S> {
    /// Takes the request, where one is in the slot. It waits for nobody.
    ///
    /// Any thread may call it, and several may at once: one of them gets the request. The client can
    /// then no longer take it back, and waits for the reply.
    pub fn try_next(&self) -> Option<(Q, PendingReply<K, Q, A>)>
        ensures may { IfSome result (λ r. S.may_request self.now.key r.0) }
        ensures pending { IfSome result (λ r. IsPendingReplyOf self.now r.1 × (r.1.request ≡ r.0)) }
    {
        let shared = &self.inner.shared;
        let (word, mut seat) = shared.load_new_seat::<LookStep>(WORD);
        if word != HAS_REQUEST {
            return None;
        }
        let found = shared.compare_exchange::<ServeStep<S>>(
            &mut seat,
            WORD,
            HAS_REQUEST,
            AT_SERVER,
        );
        if found != HAS_REQUEST {
            return None;
        }
        match shared.exchange(&mut seat, 0, SlotContent::Empty) {
            SlotContent::Request(request) => {
                let pending = PendingReply {
                    seat,
                    request: Snapshot::of(&request),
                };
                Some((request, pending))
            }
            _ => unreachable!(),
        }
    }

    /// Takes the next request, and waits for one: it looks for some 10 µs, and then sleeps. `None`
    /// where the client has closed the handoff.
    ///
    /// Any thread may call it, and several may at once. Where the client neither puts a request nor
    /// closes the handoff, they sleep for ever.
    pub fn next<T: Wait>(&self, rt: &T) -> Option<(Q, PendingReply<K, Q, A>)>
        ensures may { IfSome result (λ r. S.may_request self.now.key r.0) }
        ensures pending { IfSome result (λ r. IsPendingReplyOf self.now r.1 × (r.1.request ≡ r.0)) }
    {
        for _ in rt.forever() {
            self.servers.wait(rt, &self.inner.shared);
            if let Some(next) = self.try_next() {
                return Some(next);
            }
            if self.is_closed() {
                return None;
            }
        }
        unreachable!()
    }

    /// Puts the reply into the slot, and wakes the client where it sleeps. It waits for nobody.
    ///
    /// The reply has to be one to the very request that was taken.
    pub fn reply(&self, pending: PendingReply<K, Q, A>, reply: A)
        requires pending { IsPendingReplyOf self.now pending }
        requires reply { S.replies self.now.key pending.request reply }
    {
        let PendingReply {
            mut seat,
            request: _,
        } = pending;
        let shared = &self.inner.shared;
        match shared.exchange(&mut seat, 0, SlotContent::Reply(reply)) {
            SlotContent::Empty => {}
            _ => unreachable!(),
        }
        let change = change_word::<_, _, _, _, ReplyStep>(shared, &mut seat, HAS_REPLY);
        self.wake_client(&change);
    }

    fn is_closed(&self) -> bool {
        self.inner.shared.peek(WORD) == IS_CLOSED
    }
}
