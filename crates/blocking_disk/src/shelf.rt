//! A shelf of disks that block reads.
ghost use Rattle.std.specs.Prelude.{◌≡◌, None, false, IfOk};

use crate::barrier::SharedBarrier;
use crate::{BlockingDisk, ReadBarrier};
use aio_disk::{OpenFault, Shelf};
use page_fixtures::pages::{EMPTY, page_of};
use std::alloc::{AllocError, Global};

/// After so many turns a read of [`BlockingShelf::new`] fails.
const TURNS: u32 = 1 << 24;

/// A shelf whose disks have what names they are opened for, and one barrier for each of them together.
#[derive(Drop)]
pub struct BlockingShelf {
    blocks: u32,
    barrier: SharedBarrier,
    open_faults: u64,
    faults: u64,
    reads: u64,
}

impl BlockingShelf {
    /// A shelf of relations with so many blocks each, where reads of block 1 and of block 2 wait for
    /// each other.
    pub fn new(alloc: Global, blocks: u32) -> Result<BlockingShelf, AllocError>
        ensures { IfOk result (λ shelf. ⟦<BlockingShelf as Shelf>⟧.counts shelf
            ≡ record { open_faults = 0; length_faults = 0; faults = 0; reads = 0 }) }
    {
        let barrier = ReadBarrier {
            from: 1,
            after: 3,
            reads: 2,
            turns: TURNS,
        };
        BlockingShelf::with_barrier(alloc, blocks, barrier)
    }

    /// A shelf of relations with so many blocks each, whose reads wait at this barrier: each of the
    /// first 16 relations has one of its own.
    pub fn with_barrier(
        alloc: Global,
        blocks: u32,
        barrier: ReadBarrier,
    ) -> Result<BlockingShelf, AllocError>
        ensures { IfOk result (λ shelf. ⟦<BlockingShelf as Shelf>⟧.counts shelf
            ≡ record { open_faults = 0; length_faults = 0; faults = 0; reads = 0 }) }
    {
        Ok(BlockingShelf {
            blocks,
            barrier: SharedBarrier::new(alloc, barrier)?,
            open_faults: 0,
            faults: 0,
            reads: 0,
        })
    }
}

impl Shelf for BlockingShelf {
    type Disk = BlockingDisk;

    ghost told = { λ s. None };

    ghost segment = { λ s. 131072 };

    ghost surely_opens = { λ s names. false };

    ghost counts = { λ s. record {
      open_faults = s.open_faults;
      length_faults = 0;
      faults = s.faults;
      reads = s.reads;
    } };

    fn open(&mut self, names: &[String]) -> Result<BlockingDisk, OpenFault> {
        let Ok(relations) = u32::try_from(names.len()) else {
            self.open_faults = self.open_faults.saturating_add(1);
            return Err(OpenFault::Device);
        };
        let Ok(barrier) = self.barrier.share() else {
            return Err(OpenFault::Memory);
        };
        Ok(BlockingDisk {
            relations,
            blocks: self.blocks,
            page: page_of(EMPTY),
            barrier,
            faults: 0,
            reads: 0,
        })
    }

    fn take_back(&mut self, disk: BlockingDisk) {
        self.reads = self.reads.saturating_add(disk.reads);
        if disk.faults > 0 {
            self.faults = self.faults.saturating_add(1);
        }
    }
}
