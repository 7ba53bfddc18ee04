//! Real files as disks.
ghost use Rattle.std.specs.Prelude.{◌≡◌, ◌≤◌, None, false, true, length, IfOk, string_eq};
ghost use Rattle.std.specs.Cmp.Lexicographic.{pointwise};
ghost use Rattle.aio_disk.specs.OpenFiles.{open_files};

use crate::fault::counted;
use crate::file_relation::FileRelation;
use crate::opened_relations::OpenedRelations;
use crate::segments::SEGMENT_SIZE;
use crate::{DeviceFault, Disk, OpenFault, Shelf};
use page_check::Page;
use std::fs::File;
use std::rt::Files;

/// Relations whose files are open for reading. It does not tell what they hold.
///
/// Their files are open from the first disk over these names to the last one: a relation takes one
/// file descriptor for each of its segments, up to 17. A segment that comes to be later is not
/// opened.
#[derive(Drop)]
pub struct FileDisk {
    relations: Vec<FileRelation>,
    faults: u64,
    length_faults: u64,
    reads: u64,
}

impl Disk for FileDisk {
    ghost relations = { λ disk. length disk.relations.items };

    ghost told = { λ _. None };

    ghost segment = { λ _. 131072 };

    ghost faults = { λ disk. disk.faults };

    ghost length_faults = { λ disk. disk.length_faults };

    ghost reads = { λ disk. disk.reads };

    fn segment(&self) -> u32 {
        SEGMENT_SIZE
    }

    fn blocks(&mut self, relation: u32) -> Result<u32, DeviceFault> {
        let blocks = self.relations[relation as usize].blocks();
        counted(blocks, &mut self.length_faults)
    }

    /// Reads in place, by one system call where the system gives all that is asked for. After a
    /// fault behind a whole block it answers the pages before it.
    fn read(&mut self, relation: u32, first: u32, pages: &mut [Page]) -> Result<u32, DeviceFault> {
        self.reads = self.reads.saturating_add(1);
        let count = self.relations[relation as usize].read(first, pages);
        Ok(counted(count, &mut self.faults)? as u32)
    }
}

/// Opens real files for reading. It does not tell what they hold.
///
/// An open opens all files of all relations that it names. A further one of just these names shares
/// them, until a disk is taken back. The file `NAME.1` is one of a relation only behind a file
/// `NAME` of exactly 131072 whole blocks, `NAME.2` only behind such a file `NAME.1`, and so on: no
/// other file is opened.
#[derive(Drop)]
pub struct FileShelf<'r, R: Files<File = File> + AllocGlobal> {
    rt: &'r R,
    opened: OpenedRelations,
    open_faults: u64,
    length_faults: u64,
    faults: u64,
    reads: u64,
}

impl<'r, R: Files<File = File> + AllocGlobal> FileShelf<'r, R> {
    /// A shelf over the files of the system.
    pub fn new(rt: &'r R) -> Self
        ensures told { ⟦<FileShelf<'r, R> as Shelf>⟧.told result ≡ None }
        ensures counts { ⟦<FileShelf<'r, R> as Shelf>⟧.counts result
            ≡ record { open_faults = 0; length_faults = 0; faults = 0; reads = 0 } }
    {
        FileShelf {
            rt,
            opened: OpenedRelations::none(rt.alloc()),
            open_faults: 0,
            length_faults: 0,
            faults: 0,
            reads: 0,
        }
    }

    // The relations of these names in their order: those that are open, or else those that it opens
    // and keeps.
    fn open_relations(&mut self, names: &[String]) -> Result<Vec<FileRelation>, OpenFault>
        ensures length { IfOk result (λ relations. length relations.items ≡ length names.now) }
        ensures shared { pointwise string_eq self.old.opened.names.items names.now ≡ true
            → IfOk result (λ relations.
            open_files relations.items ≡ open_files self.old.opened.relations.items) }
        ensures kept { IfOk result (λ relations.
            open_files self.new.opened.relations.items ≡ open_files relations.items) }
        ensures counts { ⟦<FileShelf<'r, R> as Shelf>⟧.counts self.new
            ≡ ⟦<FileShelf<'r, R> as Shelf>⟧.counts self.old }
    {
        if self.opened.have_names(names) {
            return self.opened.share().map_err(|_| OpenFault::Memory);
        }
        let opened = OpenedRelations::open(self.rt, names)?;
        let relations = opened.share().map_err(|_| OpenFault::Memory)?;
        self.opened = opened;
        Ok(relations)
    }
}

impl<R: Files<File = File> + AllocGlobal> Shelf for FileShelf<'_, R> {
    type Disk = FileDisk;

    ghost told = { λ _. None };

    ghost segment = { λ _. 131072 };

    ghost surely_opens = { λ _ _. false };

    ghost counts = { λ shelf. record {
      open_faults = shelf.open_faults;
      length_faults = shelf.length_faults;
      faults = shelf.faults;
      reads = shelf.reads;
    } };

    /// A name that is not there, and one of a directory or of anything else that is neither a
    /// regular file nor a block device, is a device fault. So is a later segment that is there and
    /// cannot be opened, a segment whose size cannot be told, and a lack of file descriptors
    /// (`EMFILE`, `ENFILE`). A later segment is not there either where its name would be longer
    /// than the system's names are (`ENAMETOOLONG`).
    fn open(&mut self, names: &[String]) -> Result<FileDisk, OpenFault> {
        match self.open_relations(names) {
            Ok(relations) => Ok(FileDisk {
                relations,
                faults: 0,
                length_faults: 0,
                reads: 0,
            }),
            Err(OpenFault::Memory) => Err(OpenFault::Memory),
            Err(OpenFault::Device) => {
                self.open_faults = self.open_faults.saturating_add(1);
                Err(OpenFault::Device)
            }
        }
    }

    /// The next disk is over files that are opened anew.
    fn take_back(&mut self, disk: FileDisk) {
        self.opened = OpenedRelations::none(self.rt.alloc());
        self.reads = self.reads.saturating_add(disk.reads);
        self.faults = self.faults.saturating_add(u64::from(disk.faults > 0));
        self.length_faults = self
            .length_faults
            .saturating_add(u64::from(disk.length_faults > 0));
    }
}
