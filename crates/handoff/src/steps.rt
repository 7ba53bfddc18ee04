//! What each step tells. These types are for the proofs alone.
ghost use Rattle.std.specs.Prelude.{◌≡◌};
ghost use Rattle.handoff.specs.SlotSteps.{open_tells, put_tells, take_back_tells, take_reply_tells};
ghost use Rattle.handoff.specs.SlotSteps.{look_tells, serve_tells};

use crate::rule::Service;
use crate::slot::{SeatView, SlotContent};
use atomic_table::Play;
use std::marker::PhantomData;

/// The client takes the empty slot, once.
pub struct OpenStep;

impl<K, Q, A> Play<SlotContent<Q, A>, SeatView<K, Q>> for OpenStep {
    ghost then = { open_tells };
}

/// The client puts a request.
pub struct PutStep;

impl<K, Q, A> Play<SlotContent<Q, A>, SeatView<K, Q>> for PutStep {
    ghost then = { put_tells };
}

/// The client takes back a request that no server has taken.
pub struct TakeBackStep;

impl<K, Q, A> Play<SlotContent<Q, A>, SeatView<K, Q>> for TakeBackStep {
    ghost then = { take_back_tells };
}

/// The client takes a reply.
pub struct TakeReplyStep<S> {
    of: PhantomData<S>,
}

impl<K, Q, A, S: Service<K, Q, A>> Play<SlotContent<Q, A>, SeatView<K, Q>> for TakeReplyStep<S> {
    ghost then = { take_reply_tells S.replies };
}

/// The client closes the slot to servers.
pub struct CloseStep;

impl<K, Q, A> Play<SlotContent<Q, A>, SeatView<K, Q>> for CloseStep {
    ghost then = { λ st m n w. w ≡ m };
}

/// A server comes to the slot.
pub struct LookStep;

impl<K, Q, A> Play<SlotContent<Q, A>, SeatView<K, Q>> for LookStep {
    ghost then = { look_tells };
}

/// A server takes a request.
pub struct ServeStep<S> {
    of: PhantomData<S>,
}

impl<K, Q, A, S: Service<K, Q, A>> Play<SlotContent<Q, A>, SeatView<K, Q>> for ServeStep<S> {
    ghost then = { serve_tells S.may_request };
}

/// A server puts a reply.
pub struct ReplyStep;

impl<K, Q, A> Play<SlotContent<Q, A>, SeatView<K, Q>> for ReplyStep {
    ghost then = { λ st m n w. Unit {0} };
}
