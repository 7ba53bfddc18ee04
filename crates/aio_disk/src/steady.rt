//! Disks in memory that do not fail, and their shelves.
ghost use Rattle.std.specs.Prelude.{◌≡◌, ◌≤◌, ◌<◌, ◌-◌, min, length, Some, Ok, IfOk};
ghost use Rattle.page_check.specs.Told.{relation_block_count, relation_bytes};
ghost use Rattle.aio_disk.specs.Counts.{count_plus};
ghost use Rattle.aio_disk.specs.Disk.{HoldsBlocks};
ghost use Rattle.aio_disk.specs.Steady.{with_read};

use crate::blocks::{Blocks, copy_blocks};
use crate::read_log::ReadLog;
use crate::segments::Segments;
use crate::{DeviceFault, Disk, ReadEntry};
use page_check::Page;
use std::marker::Model;

mod shelf;

pub use shelf::SteadyShelf;

/// A disk of a [`SteadyShelf`].
#[derive(Drop)]
pub struct SteadyDisk {
    number: u32,
    segment_size: u32,
    relations: Vec<Segments>,
    read_count: u64,
    read_log: ReadLog,
}

impl Model for SteadyDisk {
    ghost use Rattle.std.specs.Prelude.{◌≤◌};
    ghost use Rattle.page_check.specs.Told.{told_in};
    ghost use Rattle.aio_disk.specs.Steady.{SteadyDiskState};

    ghost Value = { SteadyDiskState };

    ghost view = { λ disk. record {
      number = disk.number;
      told = told_in disk.segment_size disk.relations.items;
      reads = disk.read_count;
      log = disk.read_log;
    } };

    ghost invariant = { λ disk. (1 ≤ disk.segment_size) × (disk.segment_size ≤ 131072) };
}

impl SteadyDisk {
    /// The segment size of its relations in blocks: 1 to 131072.
    pub fn segment(&self) -> u32
        ensures same { result ≡ self.now.told.segment }
        ensures least { 1 ≤ result }
        ensures most { result ≤ 131072 }
    {
        self.segment_size
    }

    /// How many blocks the relation has, as [`Disk::blocks`] says it. It never fails.
    pub fn blocks(&mut self, relation: u32) -> Result<u32, DeviceFault>
        requires { relation < length self.old.told.relations }
        ensures length { result ≡ Ok (relation_block_count self.old.told relation) }
        ensures same { self.new ≡ self.old }
    {
        Ok(self.length(relation))
    }

    /// Reads pages, as [`Disk::read`] does. It never fails, and gives as many pages as there are.
    pub fn read(
        &mut self,
        relation: u32,
        first: u32,
        pages: &mut [Page],
    ) -> Result<u32, DeviceFault>
        requires relation { relation < length self.old.told.relations }
        requires some { 0 < length pages.old }
        requires few { length pages.old ≤ 128 }
        ensures count { result
            ≡ Ok (min (relation_block_count self.old.told relation - first)
            (length pages.old)) }
        ensures pages { IfOk result (λ n.
            HoldsBlocks (relation_bytes self.old.told relation) first n pages.new) }
        ensures read { IfOk result (λ n.
            self.new ≡ with_read self.old relation first (length pages.old) (Some n)) }
    {
        Ok(self.read_up_to(relation, first, u32::MAX, pages))
    }

    /// Which disk of its shelf it is.
    pub fn number(&self) -> u32
        ensures { result ≡ self.now.number }
    {
        self.number
    }

    /// Which read the next one is, counted from 1.
    pub fn next_read(&self) -> u64
        ensures { result ≡ count_plus 1 self.now.reads }
    {
        self.read_count.saturating_add(1)
    }

    /// How many blocks the relation has.
    pub fn length(&self, relation: u32) -> u32
        requires { relation < length self.now.told.relations }
        ensures { result ≡ relation_block_count self.now.told relation }
    {
        self.relations[relation as usize]
            .joined(self.segment_size)
            .count()
    }

    /// Reads pages, and no more than `most`, and says how many.
    pub fn read_up_to(&mut self, relation: u32, first: u32, most: u32, pages: &mut [Page]) -> u32
        requires relation { relation < length self.old.told.relations }
        requires few { length pages.old ≤ 128 }
        ensures count { result ≡ min (relation_block_count self.old.told relation - first)
            (min most (length pages.old)) }
        ensures pages { HoldsBlocks (relation_bytes self.old.told relation) first result pages.new }
        ensures read { self.new
            ≡ with_read self.old relation first (length pages.old) (Some result) }
    {
        let blocks = self.relations[relation as usize].joined(self.segment_size);
        let count = copy_blocks(&blocks, first, most, pages);
        let asked = pages.len() as u32;
        self.note(relation, first, asked, Some(count));
        count
    }

    /// Counts a read, and adds it to the log.
    pub fn note(&mut self, relation: u32, first: u32, asked: u32, answered: Option<u32>)
        ensures { self.new ≡ with_read self.old relation first asked answered }
    {
        self.read_count = self.read_count.saturating_add(1);
        self.read_log.add(ReadEntry {
            disk: self.number,
            relation,
            first,
            asked,
            answered,
        });
    }
}

impl Disk for SteadyDisk {
    ghost relations = { λ disk. length disk.told.relations };

    ghost told = { λ disk. Some disk.told };

    ghost segment = { λ disk. disk.told.segment };

    ghost faults = { λ disk. 0 };

    ghost length_faults = { λ disk. 0 };

    ghost reads = { λ disk. disk.reads };

    fn segment(&self) -> u32 {
        SteadyDisk::segment(self)
    }

    fn blocks(&mut self, relation: u32) -> Result<u32, DeviceFault> {
        SteadyDisk::blocks(self, relation)
    }

    fn read(&mut self, relation: u32, first: u32, pages: &mut [Page]) -> Result<u32, DeviceFault> {
        SteadyDisk::read(self, relation, first, pages)
    }
}
