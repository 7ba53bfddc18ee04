//! Shelves in memory whose disks do not fail.
ghost use Rattle.std.specs.Prelude.{◌≡◌, ◌≤◌, map, Some, IfOk, OnOk, IsErrOf, IsTrue};
ghost use Rattle.std.specs.Prelude.{string_bytes};
ghost use Rattle.aio_disk.specs.declared.fault.OpenFault.TheVariants.{Device, Memory};
ghost use Rattle.aio_disk.specs.Shelf.{AllThere, OneMissing, are_there, named_file, files_in};
ghost use Rattle.aio_disk.specs.Shelf.{have_distinct_names};
ghost use Rattle.aio_disk.specs.Steady.{fresh_shelf, next_disk, with_disk, with_open_fault};
ghost use Rattle.aio_disk.specs.Steady.{with_disk_back};

use super::SteadyDisk;
use crate::read_log::ReadLog;
use crate::segments::SEGMENT_SIZE;
use crate::shared_bytes::{NamedFile, find_relations, share_files};
use crate::{OpenFault, ReadEntry, Shelf};
use std::alloc::{AllocError, Global};
use std::marker::Model;

/// A shelf in memory whose disks do not fail.
#[derive(Drop)]
pub struct SteadyShelf {
    alloc: Global,
    segment_size: u32,
    named_files: Vec<NamedFile>,
    disk_count: u32,
    open_fault_count: u64,
    read_count: u64,
    read_log: ReadLog,
}

impl Model for SteadyShelf {
    ghost use Rattle.std.specs.Prelude.{◌≤◌};
    ghost use Rattle.aio_disk.specs.Shelf.{files_in};
    ghost use Rattle.aio_disk.specs.Steady.{SteadyShelfState};

    ghost Value = { SteadyShelfState };

    ghost view = { λ shelf. record {
      files = files_in shelf.segment_size shelf.named_files.items;
      disks = shelf.disk_count;
      open_faults = shelf.open_fault_count;
      reads = shelf.read_count;
      log = shelf.read_log;
    } };

    ghost invariant = { λ shelf. (1 ≤ shelf.segment_size) × (shelf.segment_size ≤ 131072) };
}

impl SteadyShelf {
    /// A shelf over these files, whose disks do not fail.
    ///
    /// It takes the room for its log of reads, `log_room` entries, and each `open` takes as much
    /// for its disk's log, so that reading and taking back take no memory.
    pub fn make(
        alloc: Global,
        files: Vec<(String, Vec<u8>)>,
        log_room: usize,
    ) -> Result<SteadyShelf, AllocError>
        requires distinct { IsTrue (have_distinct_names (map named_file files.items)) }
        ensures fresh { IfOk result (λ shelf.
            shelf ≡ fresh_shelf (files_in 131072 (map named_file files.items)) log_room) }
    {
        SteadyShelf::make_segmented(alloc, files, SEGMENT_SIZE, log_room)
    }

    /// The same with a segment size of its own, in blocks: a file named `NAME.1` is the second
    /// segment of the relation `NAME`, and counts where `NAME` has exactly `segment` blocks. Of two
    /// files of one name the first counts.
    pub fn make_segmented(
        alloc: Global,
        files: Vec<(String, Vec<u8>)>,
        segment: u32,
        log_room: usize,
    ) -> Result<SteadyShelf, AllocError>
        requires least { 1 ≤ segment }
        requires most { segment ≤ 131072 }
        ensures { IfOk result (λ shelf.
            shelf ≡ fresh_shelf (files_in segment (map named_file files.items)) log_room) }
    {
        Ok(SteadyShelf {
            alloc,
            segment_size: segment,
            named_files: share_files(alloc, files)?,
            disk_count: 0,
            open_fault_count: 0,
            read_count: 0,
            read_log: ReadLog::with_room(alloc, log_room)?,
        })
    }

    /// The reads of all disks that were taken back, disk by disk in the order of taking back,
    /// each disk's in their own order. Those past the room that the shelf was made with are left
    /// out.
    pub fn log(&self) -> &[ReadEntry]
        ensures { result.now ≡ self.now.log.entries }
    {
        self.read_log.entries()
    }

    /// Opens a disk, as [`Shelf::open`] does: a device fault comes exactly where a name is
    /// missing.
    pub fn open(&mut self, names: &[String]) -> Result<SteadyDisk, OpenFault>
        ensures all_there { OnOk result
            (AllThere self.old.files.named (map string_bytes names.now)) }
        ensures disk { IfOk result (λ disk.
            disk ≡ next_disk self.old (map string_bytes names.now)) }
        ensures opened { OnOk result (self.new ≡ with_disk self.old) }
        ensures missing { IsErrOf result Device
            → OneMissing self.old.files.named (map string_bytes names.now) }
        ensures counted { IsErrOf result Device → self.new ≡ with_open_fault self.old }
        ensures memory { IsErrOf result Memory → self.new ≡ self.old }
    {
        let Ok(found) = find_relations(self.alloc, self.named_files.as_slice(), names) else {
            return Err(OpenFault::Memory);
        };
        let Some(relations) = found else {
            self.count_open_fault();
            return Err(OpenFault::Device);
        };
        let Ok(read_log) = ReadLog::with_room(self.alloc, self.read_log.room()) else {
            return Err(OpenFault::Memory);
        };
        let number = self.disk_count;
        self.disk_count = self.disk_count.saturating_add(1);
        Ok(SteadyDisk {
            number,
            segment_size: self.segment_size,
            relations,
            read_count: 0,
            read_log,
        })
    }

    /// Counts an open that failed.
    pub fn count_open_fault(&mut self)
        ensures { self.new ≡ with_open_fault self.old }
    {
        self.open_fault_count = self.open_fault_count.saturating_add(1);
    }

    /// Takes a disk back, as [`Shelf::take_back`] does, and adds its reads to the log.
    pub fn take_back(&mut self, disk: SteadyDisk)
        ensures { self.new ≡ with_disk_back self.old disk }
    {
        self.read_count = self.read_count.saturating_add(disk.read_count);
        self.read_log.add_all(disk.read_log.entries());
    }
}

impl Shelf for SteadyShelf {
    type Disk = SteadyDisk;

    ghost told = { λ shelf. Some shelf.files };

    ghost segment = { λ shelf. shelf.files.segment };

    ghost surely_opens = { λ shelf names. are_there shelf.files.named names };

    ghost counts = { λ shelf. record {
      open_faults = shelf.open_faults;
      length_faults = 0;
      faults = 0;
      reads = shelf.reads;
    } };

    #[tactic(auto, using(crate::proofs::FileNames::none_missing))]
    fn open(&mut self, names: &[String]) -> Result<SteadyDisk, OpenFault> {
        SteadyShelf::open(self, names)
    }

    fn take_back(&mut self, disk: SteadyDisk) {
        SteadyShelf::take_back(self, disk);
    }
}
