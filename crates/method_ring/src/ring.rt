//! Rings: reads that are submitted together and completed in the ring's order.
ghost use Rattle.std.specs.Prelude.{◌≡◌, ◌≢◌, ◌≤◌, ◌<◌, ◌++◌, ◌∷◌, [], ℕ, length, List, Option};
ghost use Rattle.std.specs.Prelude.{Some, None, IfSome, IfNone};
ghost use Rattle.page_check.specs.Told.{Told};
ghost use Rattle.aio_disk.specs.Counts.{HasCause, count_plus};
ghost use Rattle.aio_disk.specs.Disk.{AnswersPages};
ghost use Rattle.method_ring.specs.declared.ring.Entry.{Entry};
ghost use Rattle.method_ring.specs.Pending.{entry, pending_entry, without_entry, IsFilledBy};

use aio_disk::DeviceFault;
use page_check::Page;

/// How many reads a ring has room for, and so how many I/Os a group has at most.
pub(crate) const ROOM: usize = 8;

/// A read that was submitted to a ring and is not completed: its number, and what it reads.
#[derive(Clone, Copy, Debug, PartialEq, Eq, Drop)]
pub struct Entry {
    pub user: u32,
    pub relation: u32,
    pub first: u32,
    pub count: u32,
}

/// A ring of at most 8 reads (`struct io_uring` in `method_io_uring.c`). It completes them in an
/// order of its own: a completion carries the number of its read alone, as the `user_data` of a
/// completion queue entry does.
///
/// It has the meanings of a disk. No call changes how many relations there are or what is told of
/// them.
pub trait Ring: Drop {
    /// The reads that were submitted and not filled.
    ghost pending: { Self → List Entry };

    /// The number of the read that was picked, until it is filled.
    ghost picked: { Self → Option ℕ };

    /// How many names its disk was opened for.
    ghost relations: { Self → ℕ };

    /// The contents of the relations, where it tells them.
    ghost told: { Self → Option Told };

    /// How often a read has failed.
    ghost faults: { Self → ℕ };

    /// How often it has read.
    ghost reads: { Self → ℕ };

    /// A read is pending from now on (`io_uring_get_sqe`, `pgaio_uring_sq_from_io` and
    /// `io_uring_submit`).
    fn submit(&mut self, user: u32, relation: u32, first: u32, count: u32)
        requires room { length (pending self.old) < 8 }
        requires new { pending_entry user (pending self.old) ≡ None }
        requires count { (1 ≤ count) × (count ≤ 128) }
        requires relation { relation < relations self.old }
        ensures pending { pending self.new
            ≡ pending self.old ++ entry user relation first count ∷ [] }
        ensures picked { picked self.new ≡ picked self.old }
        ensures told { (told self.new ≡ told self.old) × (relations self.new ≡ relations self.old) }
        ensures counts { (reads self.new ≡ reads self.old) × (faults self.new ≡ faults self.old) };

    /// The number of a read that is completed (`io_uring_peek_batch_cqe`). None exactly where
    /// nothing is pending.
    fn pick(&mut self) -> Option<u32>
        ensures some { IfSome result (λ user. (pending_entry user (pending self.old) ≢ None)
            × (picked self.new ≡ Some user)) }
        ensures none { IfNone result ((pending self.old ≡ [])
            × (picked self.new ≡ picked self.old)) }
        ensures pending { pending self.new ≡ pending self.old }
        ensures told { (told self.new ≡ told self.old) × (relations self.new ≡ relations self.old) }
        ensures counts { (reads self.new ≡ reads self.old) × (faults self.new ≡ faults self.old) };

    /// The answer of the read that was picked, which it makes into these pages
    /// (`pgaio_uring_drain_locked` and `pgaio_io_process_completion`). It is one read, as a disk
    /// makes it.
    fn fill(&mut self, user: u32, pages: &mut [Page]) -> Result<u32, DeviceFault>
        requires picked { picked self.old ≡ Some user }
        requires entry { IsFilledBy (pending_entry user (pending self.old)) (length pages.old) }
        ensures pages { IfSome (pending_entry user (pending self.old))
            (λ e. AnswersPages (told self.old) e.relation e.first result pages.new) }
        ensures cause { HasCause (faults self.old) (faults self.new) result }
        ensures pending { pending self.new ≡ without_entry user (pending self.old) }
        ensures picked { picked self.new ≡ None }
        ensures told { (told self.new ≡ told self.old) × (relations self.new ≡ relations self.old) }
        ensures reads { reads self.new ≡ count_plus 1 (reads self.old) };
}
