//! Disks in memory that fail as a script says.
ghost use Rattle.std.specs.Prelude.{◌≡◌, ◌≤◌, ◌<◌, ◌-◌, min, length, Some, IfOk, is_err, true};
ghost use Rattle.page_check.specs.Told.{relation_block_count, relation_bytes};
ghost use Rattle.std.specs.Arc.{arc_value};
ghost use Rattle.aio_disk.specs.Disk.{HoldsBlocks};
ghost use Rattle.fault_injection.specs.Script.{capped_length, has_positive_shorts};
ghost use Rattle.fault_injection.specs.Scripted.{fresh_mem_disk, fails_next_length, fails_next_read};
ghost use Rattle.fault_injection.specs.Scripted.{next_short_answer, with_length_call, with_scripted_read};

use crate::Script;
use aio_disk::{DeviceFault, Disk, SteadyDisk};
use page_check::Page;
use std::alloc::Global;
use std::marker::Model;
use std::sync::Arc;

/// A disk of a [`MemShelf`](crate::MemShelf).
#[derive(Drop)]
pub struct MemDisk {
    disk: SteadyDisk,
    shared_script: Arc<Script, Global>,
    length_count: u64,
    length_fault_count: u64,
    fault_count: u64,
}

impl Model for MemDisk {
    ghost use Rattle.std.specs.Prelude.{◌≡◌, true};
    ghost use Rattle.std.specs.Arc.{arc_value};
    ghost use Rattle.fault_injection.specs.Script.{has_positive_shorts};
    ghost use Rattle.fault_injection.specs.Scripted.{MemDiskState};

    ghost Value = { MemDiskState };

    ghost view = { λ disk. record {
      steady = disk.disk;
      script = arc_value disk.shared_script;
      lengths = disk.length_count;
      length_faults = disk.length_fault_count;
      faults = disk.fault_count;
    } };

    ghost invariant = { λ disk. has_positive_shorts (arc_value disk.shared_script) ≡ true };
}

impl MemDisk {
    pub(crate) fn new(disk: SteadyDisk, shared_script: Arc<Script, Global>) -> MemDisk
        requires { has_positive_shorts (arc_value shared_script) ≡ true }
        ensures { result ≡ fresh_mem_disk disk (arc_value shared_script) }
    {
        MemDisk {
            disk,
            shared_script,
            length_count: 0,
            length_fault_count: 0,
            fault_count: 0,
        }
    }

    /// The disk without its script, and how often a length and a read have failed.
    pub(crate) fn into_parts(self) -> (SteadyDisk, u64, u64)
        ensures { result ≡ (self.steady, self.length_faults, self.faults) }
    {
        (self.disk, self.length_fault_count, self.fault_count)
    }

    /// How many blocks the relation has, as [`Disk::blocks`] says it. It fails exactly where the
    /// script has this call.
    pub fn blocks(&mut self, relation: u32) -> Result<u32, DeviceFault>
        requires { relation < length self.old.steady.told.relations }
        ensures failed { is_err result ≡ fails_next_length self.old }
        ensures length { IfOk result (λ n.
            n ≡ relation_block_count self.old.steady.told relation) }
        ensures counted { self.new ≡ with_length_call self.old result }
    {
        self.length_count = self.length_count.saturating_add(1);
        if self
            .shared_script
            .fails_length(self.disk.number(), self.length_count)
        {
            self.length_fault_count = self.length_fault_count.saturating_add(1);
            return Err(DeviceFault);
        }
        Ok(self.disk.length(relation))
    }

    /// Reads pages, as [`Disk::read`] does. It fails exactly where the script has this read, and
    /// else gives as many pages as there are and as the script lets it.
    pub fn read(
        &mut self,
        relation: u32,
        first: u32,
        pages: &mut [Page],
    ) -> Result<u32, DeviceFault>
        requires relation { relation < length self.old.steady.told.relations }
        requires some { 0 < length pages.old }
        requires few { length pages.old ≤ 128 }
        ensures failed { is_err result ≡ fails_next_read self.old }
        ensures count { IfOk result (λ n. n ≡ capped_length (next_short_answer self.old)
            (min (relation_block_count self.old.steady.told relation - first)
            (length pages.old))) }
        ensures pages { IfOk result (λ n.
            HoldsBlocks (relation_bytes self.old.steady.told relation) first n pages.new) }
        ensures some { first < relation_block_count self.old.steady.told relation
            → IfOk result (λ n. 0 < n) }
        ensures read { self.new
            ≡ with_scripted_read self.old relation first (length pages.old) result }
    {
        let read = self.disk.next_read();
        if self.shared_script.fails_read(self.disk.number(), read) {
            self.fault_count = self.fault_count.saturating_add(1);
            self.disk.note(relation, first, pages.len() as u32, None);
            return Err(DeviceFault);
        }
        let most = self.shared_script.most_pages(self.disk.number(), read);
        Ok(self.disk.read_up_to(relation, first, most, pages))
    }
}

impl Disk for MemDisk {
    ghost relations = { λ disk. length disk.steady.told.relations };

    ghost told = { λ disk. Some disk.steady.told };

    ghost segment = { λ disk. disk.steady.told.segment };

    ghost faults = { λ disk. disk.faults };

    ghost length_faults = { λ disk. disk.length_faults };

    ghost reads = { λ disk. disk.steady.reads };

    fn segment(&self) -> u32 {
        self.disk.segment()
    }

    fn blocks(&mut self, relation: u32) -> Result<u32, DeviceFault> {
        MemDisk::blocks(self, relation)
    }

    fn read(&mut self, relation: u32, first: u32, pages: &mut [Page]) -> Result<u32, DeviceFault> {
        MemDisk::read(self, relation, first, pages)
    }
}
