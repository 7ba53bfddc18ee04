//! A disk that blocks some of its reads.
ghost use Rattle.std.specs.Prelude.{None};

use crate::barrier::SharedBarrier;
use aio_disk::{DeviceFault, Disk};
use page_check::Page;

/// A disk whose relations have the same number of empty pages each, and whose reads wait at the
/// barriers of its shelf.
#[derive(Drop)]
pub struct BlockingDisk {
    pub(crate) relations: u32,
    pub(crate) blocks: u32,
    pub(crate) page: Page,
    pub(crate) barrier: SharedBarrier,
    pub(crate) faults: u64,
    pub(crate) reads: u64,
}

impl Disk for BlockingDisk {
    ghost relations = { λ d. d.relations };

    ghost told = { λ d. None };

    ghost segment = { λ d. 131072 };

    ghost faults = { λ d. d.faults };

    ghost length_faults = { λ d. 0 };

    ghost reads = { λ d. d.reads };

    fn segment(&self) -> u32 {
        131072
    }

    fn blocks(&mut self, _relation: u32) -> Result<u32, DeviceFault> {
        Ok(self.blocks)
    }

    fn read(&mut self, relation: u32, first: u32, pages: &mut [Page]) -> Result<u32, DeviceFault> {
        self.reads = self.reads.saturating_add(1);
        if first < self.blocks && self.barrier.holds(first) && !self.barrier.pass(relation) {
            self.faults = self.faults.saturating_add(1);
            return Err(DeviceFault);
        }
        for page in pages.iter_mut() {
            page.copy_from(&self.page);
        }
        Ok(self.blocks.saturating_sub(first).min(pages.len() as u32))
    }
}
