//! How many actors sleep on each handle, so that a completion makes a system call only where
//! somebody sleeps on its own handle.
ghost use Rattle.std.specs.Prelude.{◌≡◌, ◌<◌, IfOk};

use std::alloc::{AllocError, Global};
use std::marker::Model;
use std::sync::atomic::{AtomicU64, Ordering};

/// One count for each handle: of the actors that are about to sleep on it, or asleep. Contracts see
/// how many handles there are.
#[derive(Drop)]
pub(crate) struct Sleepers {
    counts: Vec<AtomicU64>,
}

impl Model for Sleepers {
    ghost use Rattle.std.specs.Prelude.{ℕ, length};

    ghost Value = { ℕ };

    ghost view = { λ s. length s.counts.items };
}

impl Sleepers {
    /// Nobody sleeps. It takes all the memory that the counts ever take.
    pub(crate) fn none(alloc: Global, handles: usize) -> Result<Sleepers, AllocError>
        ensures { IfOk result (λ s. s ≡ handles) }
    {
        let mut counts = Vec::with_capacity(alloc, handles)?;
        for _ in 0..handles {
            counts.push_reserved(AtomicU64::new(0));
        }
        Ok(Sleepers { counts })
    }

    /// One more actor is about to sleep on the handle.
    pub(crate) fn begin(&self, handle: usize)
        requires range { handle < self.now }
    {
        self.counts[handle].fetch_add(1, Ordering::SeqCst);
    }

    /// One that was counted sleeps no longer.
    pub(crate) fn end(&self, handle: usize)
        requires range { handle < self.now }
    {
        self.counts[handle].fetch_sub(1, Ordering::SeqCst);
    }

    /// Whether an actor is counted there.
    pub(crate) fn are_on(&self, handle: usize) -> bool
        requires range { handle < self.now }
    {
        self.counts[handle].load(Ordering::SeqCst) > 0
    }
}
