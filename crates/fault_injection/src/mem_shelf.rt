//! Shelves in memory that fail as a script says.
ghost use Rattle.std.specs.Prelude.{◌≡◌, ◌⊎◌, ◌≤◌, map, IfOk, OnOk, IsErrOf};
ghost use Rattle.std.specs.Prelude.{IsTrue, Some, true, false, string_bytes};
ghost use Rattle.aio_disk.specs.declared.fault.OpenFault.TheVariants.{Device, Memory};
ghost use Rattle.aio_disk.specs.Shelf.{named_file, files_in, have_distinct_names};
ghost use Rattle.aio_disk.specs.Shelf.{AllThere, OneMissing};
ghost use Rattle.aio_disk.specs.Steady.{fresh_shelf};
ghost use Rattle.fault_injection.specs.Script.{has_positive_shorts};
ghost use Rattle.fault_injection.specs.Scripted.{fresh_mem_shelf, fails_next_open, next_mem_disk};
ghost use Rattle.fault_injection.specs.Scripted.{with_mem_disk, with_failed_open, with_mem_disk_back};

use crate::{MemDisk, Script};
use aio_disk::{OpenFault, ReadEntry, SEGMENT_SIZE, Shelf, SteadyShelf};
use std::alloc::{AllocError, Global};
use std::marker::Model;
use std::sync::Arc;

/// A shelf in memory, whose disks fail as its script says.
#[derive(Drop)]
pub struct MemShelf {
    shelf: SteadyShelf,
    shared_script: Arc<Script, Global>,
    open_count: u64,
    length_fault_count: u64,
    fault_count: u64,
}

impl Model for MemShelf {
    ghost use Rattle.std.specs.Prelude.{◌≡◌, true};
    ghost use Rattle.std.specs.Arc.{arc_value};
    ghost use Rattle.fault_injection.specs.Script.{has_positive_shorts};
    ghost use Rattle.fault_injection.specs.Scripted.{MemShelfState};

    ghost Value = { MemShelfState };

    ghost view = { λ shelf. record {
      steady = shelf.shelf;
      script = arc_value shelf.shared_script;
      opens = shelf.open_count;
      length_faults = shelf.length_fault_count;
      faults = shelf.fault_count;
    } };

    ghost invariant = { λ shelf. has_positive_shorts (arc_value shelf.shared_script) ≡ true };
}

impl MemShelf {
    /// A shelf over these files, whose disks do not fail: [`SteadyShelf::make`].
    ///
    /// It takes the room for its log of reads, `log_room` entries, and each `open` takes as much
    /// for its disk's log, so that reading and taking back take no memory.
    pub fn steady(
        alloc: Global,
        files: Vec<(String, Vec<u8>)>,
        log_room: usize,
    ) -> Result<SteadyShelf, AllocError>
        requires distinct { IsTrue (have_distinct_names (map named_file files.items)) }
        ensures fresh { IfOk result (λ shelf.
            shelf ≡ fresh_shelf (files_in 131072 (map named_file files.items)) log_room) }
    {
        SteadyShelf::make(alloc, files, log_room)
    }

    /// A shelf over these files, whose disks fail as the script says. It takes the room for its
    /// logs as [`MemShelf::steady`] does.
    pub fn make(
        alloc: Global,
        files: Vec<(String, Vec<u8>)>,
        script: Script,
        log_room: usize,
    ) -> Result<MemShelf, AllocError>
        requires distinct { IsTrue (have_distinct_names (map named_file files.items)) }
        requires positive { IsTrue (has_positive_shorts script) }
        ensures fresh { IfOk result (λ shelf.
            shelf ≡ fresh_mem_shelf (files_in 131072 (map named_file files.items)) script
            log_room) }
    {
        MemShelf::make_segmented(alloc, files, SEGMENT_SIZE, script, log_room)
    }

    /// The same with a segment size of its own, in blocks: a file named `NAME.1` is the second
    /// segment of the relation `NAME`, and counts where `NAME` has exactly `segment` blocks.
    pub fn make_segmented(
        alloc: Global,
        files: Vec<(String, Vec<u8>)>,
        segment: u32,
        script: Script,
        log_room: usize,
    ) -> Result<MemShelf, AllocError>
        requires distinct { IsTrue (have_distinct_names (map named_file files.items)) }
        requires positive { IsTrue (has_positive_shorts script) }
        requires least { 1 ≤ segment }
        requires most { segment ≤ 131072 }
        ensures fresh { IfOk result (λ shelf.
            shelf ≡ fresh_mem_shelf (files_in segment (map named_file files.items)) script
            log_room) }
    {
        Ok(MemShelf {
            shelf: SteadyShelf::make_segmented(alloc, files, segment, log_room)?,
            shared_script: Arc::new(alloc, script)?,
            open_count: 0,
            length_fault_count: 0,
            fault_count: 0,
        })
    }

    /// The reads of all disks that were taken back, disk by disk in the order of taking back,
    /// each disk's in their own order. Those past the room that the shelf was made with are left
    /// out.
    pub fn log(&self) -> &[ReadEntry]
        ensures { result.now ≡ self.now.steady.log.entries }
    {
        self.shelf.log()
    }

    /// Opens a disk, as [`Shelf::open`] does: a device fault comes exactly where the script has
    /// this open or a name is missing. An open that finds no memory is not counted.
    pub fn open(&mut self, names: &[String]) -> Result<MemDisk, OpenFault>
        ensures unlisted { OnOk result (fails_next_open self.old ≡ false) }
        ensures all_there { OnOk result
            (AllThere self.old.steady.files.named (map string_bytes names.now)) }
        ensures disk { IfOk result (λ disk.
            disk ≡ next_mem_disk self.old (map string_bytes names.now)) }
        ensures opened { OnOk result (self.new ≡ with_mem_disk self.old) }
        ensures failed { IsErrOf result Device → (fails_next_open self.old ≡ true)
            ⊎ OneMissing self.old.steady.files.named (map string_bytes names.now) }
        ensures counted { IsErrOf result Device → self.new ≡ with_failed_open self.old }
        ensures memory { IsErrOf result Memory → self.new ≡ self.old }
    {
        let open = self.open_count.saturating_add(1);
        if self.shared_script.fails_open(open) {
            self.open_count = open;
            self.shelf.count_open_fault();
            return Err(OpenFault::Device);
        }
        let Ok(script) = Arc::try_clone(&self.shared_script) else {
            return Err(OpenFault::Memory);
        };
        match self.shelf.open(names) {
            Ok(disk) => {
                self.open_count = open;
                Ok(MemDisk::new(disk, script))
            }
            Err(OpenFault::Device) => {
                self.open_count = open;
                Err(OpenFault::Device)
            }
            Err(OpenFault::Memory) => Err(OpenFault::Memory),
        }
    }

    /// Takes a disk back, as [`Shelf::take_back`] does, and adds its reads to the log.
    pub fn take_back(&mut self, disk: MemDisk)
        ensures { self.new ≡ with_mem_disk_back self.old disk }
    {
        let (disk, length_faults, faults) = disk.into_parts();
        if length_faults > 0 {
            self.length_fault_count = self.length_fault_count.saturating_add(1);
        }
        if faults > 0 {
            self.fault_count = self.fault_count.saturating_add(1);
        }
        self.shelf.take_back(disk);
    }
}

impl Shelf for MemShelf {
    type Disk = MemDisk;

    ghost told = { λ shelf. Some shelf.steady.files };

    ghost segment = { λ shelf. shelf.steady.files.segment };

    ghost surely_opens = { λ _ _. false };

    ghost counts = { λ shelf. record {
      open_faults = shelf.steady.open_faults;
      length_faults = shelf.length_faults;
      faults = shelf.faults;
      reads = shelf.steady.reads;
    } };

    fn open(&mut self, names: &[String]) -> Result<MemDisk, OpenFault> {
        MemShelf::open(self, names)
    }

    fn take_back(&mut self, disk: MemDisk) {
        MemShelf::take_back(self, disk);
    }
}
