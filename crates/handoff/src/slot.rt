//! What is in the slot, and what a seat knows of it.

/// What is in the slot.
#[derive(Drop)]
pub enum SlotContent<Q, A> {
    Empty,
    Request(Q),
    Reply(A),
}

/// How a thread stands to the slot. No value of it is made.
pub enum SeatState<Q> {
    /// The client, before it has the slot.
    New,
    /// The client, with the slot.
    Idle,
    /// The client, which has requested this.
    Requested(Q),
    /// A server that has taken nothing.
    Looking,
    /// A server that has taken this.
    Serving(Q),
}

/// What a seat knows: the key of the slot, and how its thread stands to it. No value of it is made.
pub struct SeatView<K, Q> {
    pub key: K,
    pub state: SeatState<Q>,
}
