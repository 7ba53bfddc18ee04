//! Disks of one shelf share what it has, and a missing name is a fault.
ghost use Rattle.std.specs.Prelude.{◌≡◌, ◌<◌};

use crate::answers::read;
use aio_disk::{Disk, OpenFault, ReadEntry, SteadyDisk, SteadyShelf, have_distinct_names};
use fault_injection::MemShelf;
use page_fixtures::files::{names_of, open_disk};
use std::process::Abort;
use std::test::Fail;

// A shelf with one file of two blocks, filled with 1 and with 2, and one of less than a block.
fn two_files<R: Abort + AllocGlobal>(rt: &R, log_room: usize) -> Result<SteadyShelf, Fail> {
    let alloc = rt.alloc();
    let mut two = Vec::new(alloc);
    two.extend_from_slice(&[1; 8192])?;
    two.extend_from_slice(&[2; 8192])?;
    let mut files = Vec::new(alloc);
    files.push((String::from_str(alloc, "none")?, vec![in alloc; 7u8; 8191]?))?;
    files.push((String::from_str(alloc, "two")?, two))?;
    assert!(rt; have_distinct_names(files.as_slice()));
    Ok(MemShelf::steady(alloc, files, log_room)?)
}

#[test]
fn disks_share_the_told_pages(rt: HostRuntime) -> Result<(), Fail> {
    let mut shelf = two_files(&rt, 0)?;
    let mut disk = open_disk(rt.alloc(), &mut shelf, &["two", "none"])?;
    let mut other = open_disk(rt.alloc(), &mut shelf, &["two", "none"])?;
    let lengths = (disk.blocks(0).ok(), disk.blocks(1).ok());
    assert_eq!(rt; lengths, (Some(2), Some(0)));

    // A disk that is lent is a disk too.
    let both = read(&rt, &mut &mut disk, 0, (0, 2))?.ok_or("a fault")?;
    assert_eq!(rt; both.as_slice(), [1, 2].as_slice());
    let second = read(&rt, &mut other, 0, (1, 2))?.ok_or("a fault")?;
    assert_eq!(rt; second.as_slice(), [2].as_slice());
    Ok(())
}

// Four reads of one disk, and one of another.
fn make_reads<R: Abort + AllocGlobal>(
    rt: &R,
    first: &mut SteadyDisk,
    second: &mut SteadyDisk,
) -> Result<(), Fail>
    requires first { ⟦<SteadyDisk as Disk>⟧.relations first.old ≡ 2 }
    requires second { ⟦<SteadyDisk as Disk>⟧.relations second.old ≡ 2 }
{
    assert!(rt; read(rt, first, 0, (0, 3))?.is_some());
    assert!(rt; read(rt, first, 0, (1, 3))?.is_some());
    assert!(rt; read(rt, first, 0, (2, 3))?.is_some());
    assert!(rt; read(rt, first, 0, (3, 3))?.is_some());
    assert!(rt; read(rt, second, 1, (0, 3))?.is_some());
    Ok(())
}

// Compares the log of those reads with its room of three, where the second disk was taken back
// first.
fn check_log<R: Abort>(rt: &R, shelf: &SteadyShelf) {
    let entry = |disk, relation, first, answered| ReadEntry {
        disk,
        relation,
        first,
        asked: 3,
        answered: Some(answered),
    };
    let log = [entry(1, 1, 0, 0), entry(0, 0, 0, 2), entry(0, 0, 1, 1)];
    assert_eq!(rt; shelf.log(), log.as_slice());
}

// The room of three ends the log within the reads of the first disk, which was taken back last.
#[test]
fn disks_taken_back_add_their_reads(rt: HostRuntime) -> Result<(), Fail> {
    let mut shelf = two_files(&rt, 3)?;
    let mut first = open_disk(rt.alloc(), &mut shelf, &["two", "none"])?;
    let mut second = open_disk(rt.alloc(), &mut shelf, &["two", "none"])?;
    make_reads(&rt, &mut first, &mut second)?;
    shelf.take_back(second);
    shelf.take_back(first);
    check_log(&rt, &shelf);
    Ok(())
}

#[test]
fn a_missing_name_is_a_device_fault(rt: HostRuntime) -> Result<(), Fail> {
    let mut shelf = two_files(&rt, 0)?;
    let names = names_of(rt.alloc(), &["two", "three"])?;
    assert!(rt; matches!(shelf.open(names.as_slice()), Err(OpenFault::Device)));
    Ok(())
}
