//! The slot that a client and its servers share.
ghost use Rattle.std.specs.Prelude.{◌≡◌, None, IfOk};
ghost use Rattle.handoff.specs.HandoffViews.{IsClientOf};

use crate::client::Client;
use crate::rule::{HandoffRule, Service};
use crate::sleepers::Sleepers;
use crate::slot::{SeatView, SlotContent};
use crate::steps::OpenStep;
use crate::word::{FIRST_WORDS, IDLE, WORD, WordChange};
use atomic_table::{Refused, Table};
use std::alloc::{AllocError, Global};
use std::marker::Model;

/// A slot through which requests go to a server, and replies come back. Threads share it by
/// reference. Contracts see which slot it is, and its key.
#[derive(Drop)]
pub struct Handoff<K, Q: Drop, A: Drop, S: Service<K, Q, A>> {
    pub(crate) inner: Table<SlotContent<Q, A>, SeatView<K, Q>, K, HandoffRule<S>, Global>,
    pub(crate) servers: Sleepers,
    pub(crate) clients: Sleepers,
}

impl<K, Q: Drop, A: Drop, S: Service<K, Q, A>> Model for Handoff<K, Q, A, S> {
    ghost use Rattle.std.specs.Prelude.{◌≡◌};
    ghost use Rattle.handoff.specs.HandoffViews.{HandoffView};

    ghost Value = { HandoffView K };

    ghost view = { λ h. record { table = h.inner.shared.table_id; key = h.inner.shared.key } };

    ghost invariant = { λ h. (h.inner.shared.table_id.words ≡ 17)
        × (h.inner.shared.table_id.slots ≡ 1) };
}

impl<K, Q: Drop, A: Drop, S: Service<K, Q, A>> Handoff<K, Q, A, S> {
    /// A slot under this key, and its client. It takes all memory that the slot ever takes. No
    /// server has to be there.
    pub fn open(
        alloc: Global,
        key: &K,
    ) -> Result<(Handoff<K, Q, A, S>, Client<K, Q, A>), AllocError>
        ensures key { IfOk result (λ r. r.0.key ≡ key.now) }
        ensures client { IfOk result (λ r. IsClientOf r.0 r.1) }
        ensures idle { IfOk result (λ r. r.1.requested ≡ None) }
    {
        let mut slots = Vec::with_capacity(alloc, 1)?;
        slots.push_reserved(SlotContent::Empty);
        match Table::new(alloc, FIRST_WORDS.as_slice(), slots, key) {
            Ok((inner, mut seat)) => {
                inner.shared.swap::<OpenStep>(&mut seat, WORD, IDLE);
                let handoff = Handoff {
                    inner,
                    servers: Sleepers::servers(),
                    clients: Sleepers::clients(),
                };
                Ok((handoff, Client { seat }))
            }
            Err(Refused { slots: _ }) => Err(AllocError),
        }
    }

    // Wakes the servers that sleep, where one sleeps.
    pub(crate) fn wake_servers(&self, change: &WordChange) {
        if !self.servers.are_none(change) {
            self.inner.shared.wake_all(WORD);
        }
    }

    // Wakes the client, where it sleeps.
    pub(crate) fn wake_client(&self, change: &WordChange) {
        if !self.clients.are_none(change) {
            self.inner.shared.wake_all(WORD);
        }
    }
}
