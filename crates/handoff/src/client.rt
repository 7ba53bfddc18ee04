//! The client's calls.
ghost use Rattle.std.specs.Prelude.{◌≡◌, ◌≢◌, None, Some, IfSome, IfNone};
ghost use Rattle.handoff.specs.HandoffViews.{IsClientOf, IsSameClient, IfReply, IfRequest};

use crate::handoff::Handoff;
use crate::rule::Service;
use crate::slot::{SeatView, SlotContent};
use crate::steps::{CloseStep, PutStep, TakeBackStep, TakeReplyStep};
use crate::word::{HAS_REPLY, HAS_REQUEST, IDLE, IS_CLOSED, WORD, change_word};
use atomic_table::Seat;
use std::marker::Model;
use std::sync::Wait;

/// The right to request at a handoff. There is one for each handoff, and it has no bytes. Contracts
/// see what it has requested and not yet got back.
#[derive(Drop)]
pub struct Client<K, Q, A> {
    pub(crate) seat: Seat<SlotContent<Q, A>, SeatView<K, Q>>,
}

impl<K, Q, A> Model for Client<K, Q, A> {
    ghost use Rattle.std.specs.Prelude.{◌≡◌};
    ghost use Rattle.handoff.specs.HandoffViews.{ClientView, client_view, IsClientSeat};

    ghost Value = { ClientView K Q };

    ghost view = { λ c. client_view c.seat.table_id c.seat.me.0 };

    ghost invariant = { λ c. (c.seat.id ≡ 0) × IsClientSeat c.seat.me };
}

/// How a request has ended. Either way the client may put the next one.
#[derive(Drop)]
pub enum Completion<Q, A> {
    /// A server has replied.
    Reply(A),
    /// No server had taken the request: it comes back.
    Request(Q),
}

impl<K, Q: Drop, A: Drop, S: Service<K, Q, A>> Handoff<K, Q, A, S> {
    /// Puts a request into the slot, and wakes the servers that sleep. It waits for nobody.
    ///
    /// The client has to have got back what it requested before. The request lies in the slot until
    /// a server takes it or `complete` takes it back, also where no server ever comes.
    pub fn put(&self, client: &mut Client<K, Q, A>, request: Q)
        requires client { IsClientOf self.now client.old }
        requires idle { client.old.requested ≡ None }
        requires may { S.may_request self.now.key request }
        ensures same { IsSameClient client.old client.new }
        ensures requested { client.new.requested ≡ Some request }
    {
        let shared = &self.inner.shared;
        match shared.exchange(&mut client.seat, 0, SlotContent::Request(request)) {
            SlotContent::Empty => {}
            _ => unreachable!(),
        }
        let change = change_word::<_, _, _, _, PutStep>(shared, &mut client.seat, HAS_REQUEST);
        self.wake_servers(&change);
    }

    /// Ends a request: it comes back where no server has taken it, and else its reply comes.
    ///
    /// So it never waits for a server to come, and the caller does itself what comes back. For a
    /// server that has taken the request it waits: it looks for some 5 µs, and then sleeps. Where
    /// that server drops its [`PendingReply`](crate::PendingReply), it sleeps for ever.
    pub fn complete<T: Wait>(&self, rt: &T, client: &mut Client<K, Q, A>) -> Completion<Q, A>
        requires client { IsClientOf self.now client.old }
        requires requested { client.old.requested ≢ None }
        ensures same { IsSameClient client.old client.new }
        ensures idle { client.new.requested ≡ None }
        ensures reply { IfReply result (λ a. (q : Q) × (client.old.requested ≡ Some q)
            × S.replies self.now.key q a) }
        ensures request { IfRequest result (λ q. client.old.requested ≡ Some q) }
    {
        if let Some(request) = self.try_take_back(client) {
            return Completion::Request(request);
        }
        Completion::Reply(self.wait_for_reply(rt, client))
    }

    /// Ends the handoff: `next` gives `None` to each server, also to one that sleeps or comes later.
    ///
    /// The client has to have got back what it requested. It is final: the client puts nothing
    /// afterwards, and drops the handoff once its servers have returned.
    pub fn close(&self, client: &mut Client<K, Q, A>)
        requires client { IsClientOf self.now client.old }
        requires idle { client.old.requested ≡ None }
        ensures same { client.new ≡ client.old }
    {
        let shared = &self.inner.shared;
        let change = change_word::<_, _, _, _, CloseStep>(shared, &mut client.seat, IS_CLOSED);
        self.wake_servers(&change);
    }

    // Takes the request back, where no server has taken it.
    fn try_take_back(&self, client: &mut Client<K, Q, A>) -> Option<Q>
        requires client { IsClientOf self.now client.old }
        requires requested { client.old.requested ≢ None }
        ensures same { IsSameClient client.old client.new }
        ensures request { IfSome result (λ q. client.old.requested ≡ Some q) }
        ensures idle { IfSome result (λ q. client.new.requested ≡ None) }
        ensures too_late { IfNone result (client.new ≡ client.old) }
    {
        let shared = &self.inner.shared;
        let seat = &mut client.seat;
        let found = shared.compare_exchange::<TakeBackStep>(seat, WORD, HAS_REQUEST, IDLE);
        if found != HAS_REQUEST {
            return None;
        }
        match shared.exchange(seat, 0, SlotContent::Empty) {
            SlotContent::Request(request) => Some(request),
            _ => unreachable!(),
        }
    }

    // Takes the reply, where it is there.
    fn try_reply(&self, client: &mut Client<K, Q, A>) -> Option<A>
        requires client { IsClientOf self.now client.old }
        requires requested { client.old.requested ≢ None }
        ensures same { IsSameClient client.old client.new }
        ensures reply { IfSome result (λ a. (q : Q) × (client.old.requested ≡ Some q)
            × S.replies self.now.key q a) }
        ensures idle { IfSome result (λ a. client.new.requested ≡ None) }
        ensures not_yet { IfNone result (client.new ≡ client.old) }
    {
        let shared = &self.inner.shared;
        let seat = &mut client.seat;
        let found = shared.compare_exchange::<TakeReplyStep<S>>(seat, WORD, HAS_REPLY, IDLE);
        if found != HAS_REPLY {
            return None;
        }
        match shared.exchange(seat, 0, SlotContent::Empty) {
            SlotContent::Reply(reply) => Some(reply),
            _ => unreachable!(),
        }
    }

    // The reply, for which it sleeps.
    fn wait_for_reply<T: Wait>(&self, rt: &T, client: &mut Client<K, Q, A>) -> A
        requires client { IsClientOf self.now client.old }
        requires requested { client.old.requested ≢ None }
        ensures same { IsSameClient client.old client.new }
        ensures idle { client.new.requested ≡ None }
        ensures reply { (q : Q) × (client.old.requested ≡ Some q) × S.replies self.now.key q result }
    {
        for _ in rt.forever() {
            self.clients.wait(rt, &self.inner.shared);
            if let Some(reply) = self.try_reply(client) {
                return reply;
            }
        }
        unreachable!()
    }
}
