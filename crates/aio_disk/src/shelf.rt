//! Shelves: where disks are opened.
ghost use Rattle.std.specs.Prelude.{◌≡◌, ◌≤◌, ℕ, List, Bool, true, length, map, Option, IfOk, OnOk};
ghost use Rattle.std.specs.Prelude.{IsErrOf, string_bytes};
ghost use Rattle.aio_disk.specs.declared.fault.OpenFault.TheVariants.{Device, Memory};
ghost use Rattle.aio_disk.specs.Counts.{ShelfCounts, CountRose, RisesIfPositive, count_plus};
ghost use Rattle.aio_disk.specs.Shelf.{Files, AllThereIfTold, shelf_told};

use crate::{Disk, OpenFault};

/// Where disks are opened over files by their names, and given back.
///
/// No call changes what is told of the files, or the segment size.
pub trait Shelf {
    type Disk: Disk;

    /// The files by their names, where it tells them.
    ghost told: { Self → Option Files };

    /// The segment size of the relations that it opens, in blocks.
    ghost segment: { Self → ℕ };

    /// Whether an open of these names can fail for want of memory alone.
    ghost surely_opens: { Self → List (List ℕ) → Bool };

    /// How often an open has failed, the reads of the disks taken back, and, each a count that rose
    /// with each such disk, how many of them had a fault at a length, and at a read.
    ghost counts: { Self → ShelfCounts };

    /// Opens a disk whose relations have these names, in their order. A relation is the file of
    /// its name and the files `NAME.1`, `NAME.2` and so on, as long as they are there, at most 17.
    ///
    /// A name that is not there is [`OpenFault::Device`]; a later segment that is not there ends
    /// the relation. After [`OpenFault::Memory`] the shelf is as before.
    fn open(&mut self, names: &[String]) -> Result<Self::Disk, OpenFault>
        ensures all_there { OnOk result
            (AllThereIfTold (told self.old) (map string_bytes names.now)) }
        ensures relations { IfOk result (λ disk. Self.Disk.relations disk ≡ length names.now) }
        ensures contents { IfOk result (λ disk.
            Self.Disk.told disk ≡ shelf_told (told self.old) (map string_bytes names.now)) }
        ensures segments { IfOk result (λ disk. Self.Disk.segment disk ≡ segment self.old) }
        ensures no_faults { IfOk result (λ disk. Self.Disk.faults disk ≡ 0) }
        ensures no_length_faults { IfOk result (λ disk. Self.Disk.length_faults disk ≡ 0) }
        ensures no_reads { IfOk result (λ disk. Self.Disk.reads disk ≡ 0) }

        ensures later { (counts self.old).open_faults ≤ (counts self.new).open_faults }
        ensures device { IsErrOf result Device
            → CountRose (counts self.old).open_faults (counts self.new).open_faults }
        ensures sure { surely_opens self.old (map string_bytes names.now) ≡ true
            → IsErrOf result Device → ⊥ }
        ensures memory { IsErrOf result Memory
            → (counts self.new).open_faults ≡ (counts self.old).open_faults }
        ensures told { told self.new ≡ told self.old }
        ensures segment { segment self.new ≡ segment self.old }
        ensures as_sure { surely_opens self.new ≡ surely_opens self.old }
        ensures length_faults { (counts self.new).length_faults ≡ (counts self.old).length_faults }
        ensures faults { (counts self.new).faults ≡ (counts self.old).faults }
        ensures reads { (counts self.new).reads ≡ (counts self.old).reads };

    /// Takes a disk back: adds its reads, and raises each count of faults of which it had any.
    fn take_back(&mut self, disk: Self::Disk)
        ensures told { told self.new ≡ told self.old }
        ensures segment { segment self.new ≡ segment self.old }
        ensures as_sure { surely_opens self.new ≡ surely_opens self.old }
        ensures open_faults { (counts self.new).open_faults ≡ (counts self.old).open_faults }
        ensures length_faults { RisesIfPositive (Self.Disk.length_faults disk)
            (counts self.old).length_faults (counts self.new).length_faults }
        ensures faults { RisesIfPositive (Self.Disk.faults disk)
            (counts self.old).faults (counts self.new).faults }
        ensures reads { (counts self.new).reads
            ≡ count_plus (Self.Disk.reads disk) (counts self.old).reads };
}
