//! Idle workers: how they rest, and how they are woken.
//!
//! Each is woken on a latch of its own, and only by the pusher that has cleared its bit of a mask.
//! So a push makes no system call for a worker that is on its way already.
//!
//! No wake is lost. Who rests sets its bit before it looks at the bell for the last time. Who
//! pushes rings before it reads the mask. So either the mask shows the worker, or the worker sees
//! the ring and does not sleep. Of several pushers only one clears the bit. It changes the latch
//! before the wake, and the worker has read its latch before it set the bit. So the worker is
//! asleep and woken, or it does not fall asleep.
ghost use Rattle.std.specs.Prelude.{◌≡◌, ◌<◌, IfSome};
ghost use Rattle.method_worker.specs.ClosingWord.{word_count};

use crate::words::{BellRing, WordSeat, Words, heard, latch, set_latch, sleep};
use std::sync::Wait;
use std::sync::atomic::{AtomicU64, Ordering};

/// How many workers there are at most: as many as a queue may have seats.
pub(crate) const MOST_WORKERS: usize = 48;

/// The workers that found no entry, and that nobody has chosen to wake since (`idle_worker_mask` of
/// `method_worker.c`). A worker has the number of its seat, and the mask has a bit for each number.
#[derive(Drop)]
pub(crate) struct IdleWorkers {
    mask: AtomicU64,
}

/// A rest that has ended. Only [`IdleWorkers::rest`] makes one.
#[derive(Drop)]
pub(crate) struct Slept {
    _private: (),
}

impl IdleWorkers {
    pub(crate) fn none() -> IdleWorkers {
        IdleWorkers {
            mask: AtomicU64::new(0),
        }
    }

    /// Wakes idle workers behind this ring, at most so many.
    pub(crate) fn wake(&self, ring: &BellRing, words: &Words, seat: &mut WordSeat, most: usize)
        requires same_table { (seat.old.table_id ≡ words.now.shared.table_id)
            × (words.now.shared.table_id.words ≡ word_count) }
        ensures same { (seat.new.table_id ≡ seat.old.table_id) × (seat.new.me ≡ seat.old.me) }
    {
        for _ in 0..most {
            let Some(worker) = self.choose(ring) else {
                return;
            };
            set_latch(words, seat, worker);
        }
    }

    // Chooses the idle worker with the lowest number, which is then idle no more
    // (`pgaio_choose_idle_worker`). A try is lost only where another has just cleared the bit, or
    // the worker itself. That worker then looks for entries after the ring, so tries may run out.
    fn choose(&self, _ring: &BellRing) -> Option<u32>
        ensures { IfSome result (λ worker. worker < 64) }
    {
        for _ in 0..MOST_WORKERS {
            let mask = self.mask.load(Ordering::SeqCst);
            if mask == 0 {
                return None;
            }
            let worker = mask.trailing_zeros();
            let bit = 1u64 << worker;
            if self.mask.fetch_and(!bit, Ordering::SeqCst) & bit != 0 {
                return Some(worker);
            }
        }
        None
    }

    /// Rests as an idle worker: it sleeps until a wake, unless the bell is no longer this one.
    pub(crate) fn rest<T: Wait>(&self, rt: &T, words: &Words, worker: u32, bell: u64) -> Slept
        requires words { words.now.shared.table_id.words ≡ word_count }
        requires worker { worker < 64 }
    {
        let latch = latch(words, worker);
        let bit = 1u64 << worker;
        self.mask.fetch_or(bit, Ordering::SeqCst);
        if heard(words) == bell {
            sleep(rt, words, worker, latch);
        }
        self.mask.fetch_and(!bit, Ordering::SeqCst);
        Slept { _private: () }
    }
}
