//! Reads that wait for each other.

use std::alloc::{AllocError, Global};
use std::sync::Arc;
use std::sync::atomic::{AtomicU64, Ordering};
use std::thread::yield_now;

/// What the number of reads under way is set to once there were enough: no read waits any more.
const OPEN: u64 = 1 << 40;

/// So many relations have a barrier: the first ones. Reads of the others do not wait.
const GATES: usize = 16;

/// Which reads of a relation wait for each other, and how long.
#[derive(Clone, Copy)]
pub struct ReadBarrier {
    /// A read waits where its first block is this one or a later one,
    pub from: u32,
    /// and comes before this one.
    pub after: u32,
    /// How many of them have to be under way before any goes on.
    pub reads: u32,
    /// After so many turns, in each of which other threads may run, a read fails.
    pub turns: u32,
}

/// The barriers of some relations, which the disks of a shelf share.
#[derive(Drop)]
pub(crate) struct SharedBarrier {
    barrier: ReadBarrier,
    // How many reads of each relation are under way that the barrier holds.
    under_way: Arc<Vec<AtomicU64>, Global>,
}

// Whether enough reads are under way, or were before.
fn is_open(under_way: &AtomicU64, reads: u32) -> bool {
    let open = under_way.load(Ordering::SeqCst) >= u64::from(reads);
    if open {
        under_way.store(OPEN, Ordering::SeqCst);
    }
    open
}

impl SharedBarrier {
    pub(crate) fn new(alloc: Global, barrier: ReadBarrier) -> Result<SharedBarrier, AllocError> {
        let mut under_way = Vec::new(alloc);
        for _ in 0..GATES {
            under_way.push(AtomicU64::new(0))?;
        }
        Ok(SharedBarrier {
            barrier,
            under_way: Arc::new(alloc, under_way)?,
        })
    }

    /// The same barriers once more.
    pub(crate) fn share(&self) -> Result<SharedBarrier, AllocError> {
        Ok(SharedBarrier {
            barrier: self.barrier,
            under_way: Arc::try_clone(&self.under_way)?,
        })
    }

    /// Whether a read from this block on waits.
    pub(crate) fn holds(&self, first: u32) -> bool {
        self.barrier.from <= first && first < self.barrier.after
    }

    /// Waits for the other reads of the relation; whether they came in time. A read that waited in
    /// vain is no longer under way.
    pub(crate) fn pass(&self, relation: u32) -> bool {
        let Some(under_way) = self.under_way.get(relation as usize) else {
            return true;
        };
        let _ = under_way.fetch_add(1, Ordering::SeqCst);
        for _ in 0..self.barrier.turns {
            if is_open(under_way, self.barrier.reads) {
                return true;
            }
            yield_now();
        }
        let _ = under_way.fetch_sub(1, Ordering::SeqCst);
        false
    }
}
