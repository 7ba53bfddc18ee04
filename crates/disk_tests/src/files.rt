//! Reads of real files.
ghost use Rattle.std.specs.Prelude.{◌≡◌, ◌<◌, length};

use crate::answers::{Reads, check_reads, read};
use aio_disk::{Disk, FileDisk, FileShelf, Shelf};
use page_check::PAGE_SIZE;
use page_fixtures::files::open_disk;
use std::fs::{self, File};
use std::process::Abort;
use std::rt::Files;
use std::test::Fail;

/// Writes a file of blocks, each filled with a byte of its own from `byte` on, and then a part of a
/// block.
pub(crate) fn write_file<R: Files<File = File> + AllocGlobal>(
    rt: &R,
    name: &str,
    byte: u8,
    blocks: u8,
) -> Result<(), Fail> {
    let mut bytes = Vec::new(rt.alloc());
    for block in 0..blocks {
        bytes.extend_from_slice(&[byte.wrapping_add(block); PAGE_SIZE])?;
    }
    bytes.extend_from_slice(b"part of a block")?;
    fs::write(rt, name, bytes.as_slice())?;
    Ok(())
}

// Reads of a file of 3 blocks: a page in place; at the end, where a part of a block stands, and
// past it.
const OF_FIRST: Reads<'static> = &[
    ((1, 1), &[2]),
    ((2, 3), &[3]),
    ((3, 3), &[]),
    ((3, 1), &[]),
    ((u32::MAX, 128), &[]),
];

// Reads of one of 20 blocks: within it, all of it, and more than there is.
const OF_SECOND: Reads<'static> = &[
    ((2, 3), &[103, 104, 105]),
    (
        (0, 20),
        &[
            101, 102, 103, 104, 105, 106, 107, 108, 109, 110, 111, 112, 113, 114, 115, 116, 117,
            118, 119, 120,
        ],
    ),
    (
        (1, 128),
        &[
            102, 103, 104, 105, 106, 107, 108, 109, 110, 111, 112, 113, 114, 115, 116, 117, 118,
            119, 120,
        ],
    ),
];

#[test]
fn two_files_are_two_relations(rt: HostRuntime) -> Result<(), Fail> {
    write_file(&rt, "first", 1, 3)?;
    write_file(&rt, "second", 101, 20)?;
    let mut shelf = FileShelf::new(&rt);
    let mut disk = open_disk(rt.alloc(), &mut shelf, &["first", "second"])?;
    let lengths = (disk.blocks(0).ok(), disk.blocks(1).ok());
    assert_eq!(rt; lengths, (Some(3), Some(20)));
    check_reads(&rt, &mut disk, 1, OF_SECOND)?;
    check_reads(&rt, &mut disk, 0, OF_FIRST)?;
    shelf.take_back(disk);
    fs::remove_file(&rt, "first")?;
    fs::remove_file(&rt, "second")?;
    Ok(())
}

// Opens a disk over these names, and compares what fills each page of one of its relations.
fn open_and_check<R: Abort + Files<File = File> + AllocGlobal>(
    rt: &R,
    shelf: &mut FileShelf<'_, R>,
    names: &[&str],
    relation: u32,
    wanted: &[u8],
) -> Result<FileDisk, Fail>
    requires { relation < length names.now }
{
    let mut disk = open_disk(rt.alloc(), shelf, names)?;
    check_reads(rt, &mut disk, relation, &[((0, 16), wanted)])?;
    Ok(disk)
}

// Removes the file of this name, and makes another one of a block.
fn replace_file<R: Files<File = File> + AllocGlobal>(
    rt: &R,
    name: &str,
    byte: u8,
) -> Result<(), Fail> {
    fs::remove_file(rt, name)?;
    write_file(rt, name, byte, 1)
}

// What a name stands for is replaced between the opens, so a disk that opens it anew reads other bytes.
#[test]
fn disks_over_the_same_names_open_their_files_once(rt: HostRuntime) -> Result<(), Fail> {
    write_file(&rt, "one", 51, 1)?;
    write_file(&rt, "two", 1, 2)?;
    let mut shelf = FileShelf::new(&rt);
    let first = open_and_check(&rt, &mut shelf, &["one", "two"], 1, &[1, 2])?;
    replace_file(&rt, "two", 101)?;
    let second = open_and_check(&rt, &mut shelf, &["one", "two"], 1, &[1, 2])?;
    shelf.take_back(second);
    let third = open_and_check(&rt, &mut shelf, &["one", "two"], 1, &[101])?;
    let other = open_and_check(&rt, &mut shelf, &["two", "one"], 1, &[51])?;
    replace_file(&rt, "two", 151)?;
    let fewer = open_and_check(&rt, &mut shelf, &["two"], 0, &[151])?;
    for disk in [first, third, other, fewer] {
        shelf.take_back(disk);
    }
    fs::remove_file(&rt, "one")?;
    fs::remove_file(&rt, "two")?;
    Ok(())
}

// The memory of a process can be opened, and there is none at its first addresses.
#[test]
fn reads_that_fail_are_faults(rt: HostRuntime) -> Result<(), Fail> {
    let mut shelf = FileShelf::new(&rt);
    for count in [1, 3, 128] {
        let mut disk = open_disk(rt.alloc(), &mut shelf, &["/proc/self/mem"])?;
        assert!(rt;
            read(&rt, &mut disk, 0, (0, count))?.is_none(),
            "{count} pages"
        );
        shelf.take_back(disk);
    }
    Ok(())
}

// This file cannot seek to its end.
#[test]
fn lengths_that_fail_are_faults(rt: HostRuntime) -> Result<(), Fail> {
    let mut shelf = FileShelf::new(&rt);
    let mut disk = open_disk(rt.alloc(), &mut shelf, &["/proc/version"])?;
    assert!(rt; disk.blocks(0).is_err());
    shelf.take_back(disk);
    Ok(())
}
