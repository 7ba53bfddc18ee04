//! Relations of several real files. Those of many blocks are sparse, and take no room.
ghost use Rattle.std.specs.Prelude.{◌≡◌, ◌<◌, IfOk};

use crate::answers::{Reads, check_reads, read};
use aio_disk::{Disk, FileDisk, FileShelf, Shelf};
use page_check::PAGE_SIZE;
use page_fixtures::files::open_disk;
use std::alloc::{AllocError, Global};
use std::fs::{self, File};
use std::os::unix::fs::{FileExt, symlink};
use std::process::Abort;
use std::rt::Files;
use std::test::Fail;

/// How many blocks a segment has that another one follows.
pub(crate) const SEGMENT: u32 = 131072;

/// Makes a file of so many blocks that are zero but for the last one, which is filled with a byte.
pub(crate) fn make_sparse<R: Files<File = File>>(
    rt: &R,
    name: &str,
    blocks: u32,
    byte: u8,
) -> Result<(), Fail> {
    let file = File::create(rt, name)?;
    let last = u64::from(blocks.saturating_sub(1)) * PAGE_SIZE as u64;
    file.write_all_at(&[byte; PAGE_SIZE], last)?;
    Ok(())
}

/// Removes these files.
pub(crate) fn remove<R: Files<File = File>>(rt: &R, names: &[&str]) -> Result<(), Fail> {
    for name in names {
        fs::remove_file(rt, name)?;
    }
    Ok(())
}

// Opens a relation and compares how many blocks it has.
fn open<R: Abort + Files<File = File> + AllocGlobal>(
    rt: &R,
    name: &str,
    blocks: u32,
) -> Result<FileDisk, Fail>
    ensures { IfOk result (λ disk. ⟦<FileDisk as Disk>⟧.relations disk ≡ 1) }
{
    let mut shelf = FileShelf::new(rt);
    let mut disk = open_disk(rt.alloc(), &mut shelf, &[name])?;
    assert_eq!(rt; disk.blocks(0).ok(), Some(blocks), "{name}");
    Ok(disk)
}

// Opens a relation, compares how many blocks it has, and makes these reads.
fn check_relation<R: Abort + Files<File = File> + AllocGlobal>(
    rt: &R,
    name: &str,
    blocks: u32,
    reads: Reads<'_>,
) -> Result<(), Fail> {
    let mut disk = open(rt, name, blocks)?;
    check_reads(rt, &mut disk, 0, reads)
}

#[test]
fn behind_a_short_file_none_is_opened(rt: HostRuntime) -> Result<(), Fail> {
    make_sparse(&rt, "short", 3, 1)?;
    make_sparse(&rt, "short.1", 2, 2)?;
    check_relation(&rt, "short", 3, &[((0, 16), &[0, 0, 1])])?;
    remove(&rt, &["short", "short.1"])
}

// Reads around the end of the first segment and behind the last block.
const ACROSS: Reads<'static> = &[
    ((131070, 16), &[0, 1]),
    ((131072, 16), &[0, 2]),
    ((131073, 1), &[2]),
    ((131074, 16), &[]),
];

#[test]
fn behind_a_full_file_the_next_is_opened(rt: HostRuntime) -> Result<(), Fail> {
    make_sparse(&rt, "full", SEGMENT, 1)?;
    make_sparse(&rt, "full.1", 2, 2)?;
    make_sparse(&rt, "full.2", 2, 3)?;
    check_relation(&rt, "full", 131074, ACROSS)?;
    remove(&rt, &["full", "full.1", "full.2"])
}

// Reads of the last blocks of the second and the third segment, and of the fourth one.
const OF_FOUR: Reads<'static> = &[
    ((262143, 2), &[2]),
    ((393215, 2), &[3]),
    ((393216, 16), &[0, 0, 4]),
    ((393219, 16), &[]),
];

#[test]
fn three_full_files_are_followed(rt: HostRuntime) -> Result<(), Fail> {
    let names = ["four", "four.1", "four.2", "four.3"];
    let blocks = [SEGMENT, SEGMENT, SEGMENT, 3];
    for (byte, (name, blocks)) in (1u8..5).zip(names.iter().zip(blocks)) {
        make_sparse(&rt, name, blocks, byte)?;
    }
    check_relation(&rt, "four", 393219, OF_FOUR)?;
    remove(&rt, &names)
}

// The name of a segment of the relation `many`.
fn many_name(alloc: Global, number: u8) -> Result<String, AllocError> {
    if number == 0 {
        String::from_str(alloc, "many")
    } else {
        format!(in alloc; "many.{number}")
    }
}

// Reads of the last block of the sixteenth segment, and of the seventeenth.
const OF_MANY: Reads<'static> = &[((2097151, 1), &[16]), ((2097152, 16), &[0, 17])];

// The file behind the seventeenth full one counts no more.
#[test]
fn seventeen_files_are_the_most(rt: HostRuntime) -> Result<(), Fail> {
    let alloc = rt.alloc();
    for number in 0u8..16 {
        make_sparse(
            &rt,
            many_name(alloc, number)?.as_str(),
            SEGMENT,
            number.wrapping_add(1),
        )?;
    }
    make_sparse(&rt, "many.16", 2, 17)?;
    check_relation(&rt, "many", 2097154, OF_MANY)?;
    make_sparse(&rt, "many.16", SEGMENT, 17)?;
    make_sparse(&rt, "many.17", 1, 18)?;
    check_relation(&rt, "many", 17 * SEGMENT, &[((17 * SEGMENT, 1), &[])])?;
    for number in 0u8..18 {
        fs::remove_file(&rt, many_name(alloc, number)?.as_str())?;
    }
    Ok(())
}

#[test]
fn a_missing_file_ends_the_relation(rt: HostRuntime) -> Result<(), Fail> {
    make_sparse(&rt, "gap", SEGMENT, 1)?;
    make_sparse(&rt, "gap.2", 2, 3)?;
    check_relation(&rt, "gap", 131072, &[((131072, 16), &[])])?;

    // A block more, and the first file is no segment that another one follows.
    make_sparse(&rt, "gap", SEGMENT + 1, 1)?;
    make_sparse(&rt, "gap.1", 2, 2)?;
    check_relation(&rt, "gap", 131073, &[((131072, 16), &[1])])?;
    remove(&rt, &["gap", "gap.1", "gap.2"])
}

// A second segment that cannot be read or measured fails alone.
#[test]
fn a_fault_is_that_of_its_file(rt: HostRuntime) -> Result<(), Fail> {
    make_sparse(&rt, "half", SEGMENT, 1)?;
    symlink(&rt, "/proc/self/mem", "half.1")?;
    let mut shelf = FileShelf::new(&rt);
    let mut disk = open_disk(rt.alloc(), &mut shelf, &["half"])?;
    assert!(rt; disk.blocks(0).is_err());
    assert!(rt; read(&rt, &mut disk, 0, (131072, 1))?.is_none());
    check_reads(&rt, &mut disk, 0, &[((131070, 16), &[0, 1])])?;
    shelf.take_back(disk);
    remove(&rt, &["half", "half.1"])
}

// Blocks beyond 4 GB of one file, and 128 pages by one read.
const OF_LONG: Reads<'static> = &[((599_999, 2), &[9]), ((0, 128), &[0; 128])];

#[test]
fn a_long_file_is_read_at_its_end(rt: HostRuntime) -> Result<(), Fail> {
    make_sparse(&rt, "long", 600_000, 9)?;
    check_relation(&rt, "long", 600_000, OF_LONG)?;
    remove(&rt, &["long"])
}
