//! The disks of a run.
ghost use Rattle.std.specs.Prelude.{◌≡◌, ◌≤◌, ◌<◌, length, map, string_bytes, sum_by, OnOk};
ghost use Rattle.std.specs.Prelude.{IsErrOf, true, vec_capacity, vec_len};
ghost use Rattle.std.specs.List.{All};
ghost use Rattle.aio_disk.specs.Counts.{RisesIfPositive, CountRose, count_plus};
ghost use Rattle.aio_disk.specs.Shelf.{shelf_told};
ghost use Rattle.aio_disk.specs.declared.fault.OpenFault.TheVariants.{Device};
ghost use Rattle.aioscan_cmd.specs.Disks.{IsUnreadDisk};

use aio_disk::{Disk, OpenFault, Shelf};

/// Opens further disks over the same names, until there are so many. After an error those that
/// were opened are there.
pub(crate) fn open_others<S: Shelf>(
    shelf: &mut S,
    names: &[String],
    disks: &mut Vec<S::Disk>,
    count: usize,
) -> Result<(), OpenFault>
    requires room { (vec_len disks.old ≤ count) × (count ≤ vec_capacity disks.old) }
    requires unread { All (IsUnreadDisk S.Disk.Disk (shelf_told (S.told shelf.old)
        (map string_bytes names.now)) (length names.now) (S.segment shelf.old)) disks.old.items }
    ensures all { OnOk result (length disks.new.items ≡ count) }
    ensures unread { All (IsUnreadDisk S.Disk.Disk (shelf_told (S.told shelf.old)
        (map string_bytes names.now)) (length names.now) (S.segment shelf.old)) disks.new.items }
    ensures later { (S.counts shelf.old).open_faults ≤ (S.counts shelf.new).open_faults }
    ensures device { IsErrOf result Device
        → CountRose (S.counts shelf.old).open_faults (S.counts shelf.new).open_faults }
    ensures sure { S.surely_opens shelf.old (map string_bytes names.now) ≡ true
        → IsErrOf result Device → ⊥ }
    ensures told { S.told shelf.new ≡ S.told shelf.old }
    ensures length_faults { (S.counts shelf.new).length_faults
        ≡ (S.counts shelf.old).length_faults }
    ensures faults { (S.counts shelf.new).faults ≡ (S.counts shelf.old).faults }
    ensures reads { (S.counts shelf.new).reads ≡ (S.counts shelf.old).reads }
{
    for _ in disks.len()..count {
        let disk = shelf.open(names)?;
        disks.push_reserved(disk);
    }
    Ok(())
}

/// The shelf takes these disks back, with what they have counted.
pub(crate) fn take_all_back<S: Shelf>(shelf: &mut S, disks: Vec<S::Disk>)
    ensures told { S.told shelf.new ≡ S.told shelf.old }
    ensures open_faults { (S.counts shelf.new).open_faults ≡ (S.counts shelf.old).open_faults }
    ensures length_faults { RisesIfPositive (sum_by S.Disk.length_faults disks.items)
        (S.counts shelf.old).length_faults (S.counts shelf.new).length_faults }
    ensures faults { RisesIfPositive (sum_by S.Disk.faults disks.items)
        (S.counts shelf.old).faults (S.counts shelf.new).faults }
    ensures reads { (S.counts shelf.new).reads
        ≡ count_plus (sum_by S.Disk.reads disks.items) (S.counts shelf.old).reads }
{
    for disk in disks {
        shelf.take_back(disk);
    }
}
