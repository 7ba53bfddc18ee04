//! Disks: relations that are read by blocks.
ghost use Rattle.std.specs.Prelude.{◌≡◌, ◌≤◌, ◌<◌, ℕ, length, Option, IfSome};
ghost use Rattle.page_check.specs.Told.{Told};
ghost use Rattle.aio_disk.specs.Counts.{HasCause, count_plus};
ghost use Rattle.aio_disk.specs.Disk.{AnswersLength, AnswersPages};

use crate::DeviceFault;
use page_check::Page;

/// Relations, numbered from 0, each read as blocks of [`PAGE_SIZE`](page_check::PAGE_SIZE) bytes.
///
/// A part of a block at a relation's end is no block. No call changes how many relations there
/// are or what is told of them.
pub trait Disk: Send + Drop {
    /// How many names it was opened for.
    ghost relations: { Self → ℕ };

    /// The contents of the relations, where it tells them.
    ghost told: { Self → Option Told };

    /// The segment size of the relations in blocks.
    ghost segment: { Self → ℕ };

    /// How often a read has failed.
    ghost faults: { Self → ℕ };

    /// How often a length has failed.
    ghost length_faults: { Self → ℕ };

    /// How often it was read.
    ghost reads: { Self → ℕ };

    /// How many blocks a segment of a relation has that another one follows: 1 to 131072
    /// (`RELSEG_SIZE` of `pg_config.h`). A read may end where a segment ends, so a caller does
    /// well to end its reads there.
    fn segment(&self) -> u32
        ensures same { result ≡ segment self.now }
        ensures least { 1 ≤ result }
        ensures most { result ≤ 131072 }
        ensures told { IfSome (told self.now) (λ t. t.segment ≡ segment self.now) };

    /// How many blocks the relation has (`smgrnblocks`).
    ///
    /// A relation of more than `u32::MAX` blocks answers `u32::MAX`.
    fn blocks(&mut self, relation: u32) -> Result<u32, DeviceFault>
        requires { relation < relations self.old }
        ensures length { AnswersLength (told self.old) relation result }
        ensures cause { HasCause (length_faults self.old) (length_faults self.new) result }
        ensures relations { relations self.new ≡ relations self.old }
        ensures told { told self.new ≡ told self.old }
        ensures segment { segment self.new ≡ segment self.old }
        ensures faults { faults self.new ≡ faults self.old }
        ensures reads { reads self.new ≡ reads self.old };

    /// Reads pages from block `first` on, and says how many (`smgrreadv`).
    ///
    /// It may give fewer pages than were asked for, but none only from the relation's end on.
    /// What the other pages hold is open, as all pages are after a fault.
    fn read(&mut self, relation: u32, first: u32, pages: &mut [Page]) -> Result<u32, DeviceFault>
        requires relation { relation < relations self.old }
        requires some { 0 < length pages.old }
        requires few { length pages.old ≤ 128 }
        ensures pages { AnswersPages (told self.old) relation first result pages.new }
        ensures cause { HasCause (faults self.old) (faults self.new) result }
        ensures relations { relations self.new ≡ relations self.old }
        ensures told { told self.new ≡ told self.old }
        ensures segment { segment self.new ≡ segment self.old }
        ensures length_faults { length_faults self.new ≡ length_faults self.old }
        ensures reads { reads self.new ≡ count_plus 1 (reads self.old) };
}

impl<D: Disk> Disk for &mut D {
    ghost relations = { λ d. D.relations d.now };

    ghost told = { λ d. D.told d.now };

    ghost segment = { λ d. D.segment d.now };

    ghost faults = { λ d. D.faults d.now };

    ghost length_faults = { λ d. D.length_faults d.now };

    ghost reads = { λ d. D.reads d.now };

    fn segment(&self) -> u32 {
        (**self).segment()
    }

    fn blocks(&mut self, relation: u32) -> Result<u32, DeviceFault> {
        (**self).blocks(relation)
    }

    fn read(&mut self, relation: u32, first: u32, pages: &mut [Page]) -> Result<u32, DeviceFault> {
        (**self).read(relation, first, pages)
    }
}
