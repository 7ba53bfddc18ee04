//! The rule of the slot.
ghost use Rattle.handoff.specs.declared.slot.SeatState.TheVariants.{New};
ghost use Rattle.handoff.specs.SlotRule.{SlotRule, seat_view};

use crate::slot::{SeatView, SlotContent};
use atomic_table::TableRule;
use std::marker::PhantomData;

/// What may be requested, and what answers it. A type of the caller's has it, and no value of that
/// type is made. `K` is what the client and the servers agree on, fixed when the handoff is opened.
pub trait Service<K, Q, A> {
    /// Whether this may be requested.
    ghost may_request: { K → Q → Type 0 };

    /// Whether the second is a reply to the first.
    ghost replies: { K → Q → A → Type 0 };
}

/// No value of it is made.
pub struct HandoffRule<S> {
    of: PhantomData<S>,
}

impl<K, Q, A, S: Service<K, Q, A>> TableRule<SlotContent<Q, A>, SeatView<K, Q>, K>
    for HandoffRule<S> {
    ghost holds = { SlotRule S.may_request S.replies };

    ghost first = { λ key. seat_view key New };
}
