//! Calls that fail as the script says, names, and scripts.
ghost use Rattle.std.specs.Prelude.{◌≡◌, ◌<◌};

use crate::answers::read;
use aio_disk::{Disk, have_distinct_names};
use fault_injection::{MemDisk, MemShelf, Script};
use page_fixtures::files::{Faults, names_of, one_file, open_disk, shelf_of};
use std::alloc::{AllocError, Global};
use std::process::Abort;
use std::test::Fail;

// The second open, and the first disk's second length call and second read fail; its first read
// answers one page.
const FAULTS: Faults<'static> = Faults {
    opens: &[2],
    lengths: &[(0, 2)],
    reads: &[(0, 2)],
    shorts: &[1],
};

// How many pages a read of two at block 0 gives.
fn read_two<R: Abort + AllocGlobal>(rt: &R, disk: &mut MemDisk) -> Result<Option<usize>, Fail>
    requires { 0 < ⟦<MemDisk as Disk>⟧.relations disk.old }
    ensures { ⟦<MemDisk as Disk>⟧.relations disk.new ≡ ⟦<MemDisk as Disk>⟧.relations disk.old }
{
    Ok(read(rt, disk, 0, (0, 2))?.map(|pages| pages.len()))
}

// Makes three reads, and compares how many pages they give.
fn check_reads<R: Abort + AllocGlobal>(
    rt: &R,
    disk: &mut MemDisk,
    wanted: [Option<usize>; 3],
) -> Result<(), Fail>
    requires { 0 < ⟦<MemDisk as Disk>⟧.relations disk.old }
{
    let reads = [
        read_two(rt, disk)?,
        read_two(rt, disk)?,
        read_two(rt, disk)?,
    ];
    assert_eq!(rt; reads, wanted);
    Ok(())
}

// Makes three length calls, and compares them.
fn check_lengths<R: Abort>(rt: &R, disk: &mut MemDisk)
    requires { 0 < ⟦<MemDisk as Disk>⟧.relations disk.old }
    ensures { ⟦<MemDisk as Disk>⟧.relations disk.new ≡ ⟦<MemDisk as Disk>⟧.relations disk.old }
{
    let lengths = (
        disk.blocks(0).ok(),
        disk.blocks(0).ok(),
        disk.blocks(0).ok(),
    );
    assert_eq!(rt; lengths, (Some(2), None, Some(2)));
}

// The disk of each read of the log, and how many pages it gave.
fn answers(alloc: Global, shelf: &MemShelf) -> Result<Vec<(u32, Option<u32>)>, AllocError> {
    let mut answered = Vec::new(alloc);
    for entry in shelf.log() {
        answered.push((entry.disk, entry.answered))?;
    }
    Ok(answered)
}

// Compares the log of those calls.
fn check_log<R: Abort + AllocGlobal>(rt: &R, shelf: &MemShelf) -> Result<(), Fail> {
    let answered = answers(rt.alloc(), shelf)?;
    let wanted = [
        (0, Some(1)),
        (0, None),
        (0, Some(2)),
        (1, Some(2)),
        (1, Some(2)),
        (1, Some(2)),
    ];
    assert_eq!(rt; answered.as_slice(), wanted.as_slice());
    Ok(())
}

#[test]
fn calls_fail_by_the_script(rt: HostRuntime) -> Result<(), Fail> {
    let alloc = rt.alloc();
    let file = vec![in alloc; 1u8; 16384]?;
    let mut shelf = shelf_of(alloc, one_file(alloc, "file", file)?, FAULTS)?;
    let mut disk = open_disk(alloc, &mut shelf, &["file"])?;
    let names = names_of(alloc, &["file"])?;
    assert!(rt; shelf.open(names.as_slice()).is_err());
    let mut other = open_disk(alloc, &mut shelf, &["file"])?;
    check_lengths(&rt, &mut disk);
    check_reads(&rt, &mut disk, [Some(1), None, Some(2)])?;
    check_reads(&rt, &mut other, [Some(2), Some(2), Some(2)])?;
    shelf.take_back(disk);
    shelf.take_back(other);
    check_log(&rt, &shelf)
}

#[test]
fn a_short_answer_of_no_page_is_seen(rt: HostRuntime) -> Result<(), Fail> {
    let alloc = rt.alloc();
    for (most, positive) in [(0, false), (1, true)] {
        let mut shorts = Vec::new(alloc);
        shorts.push((0, Vec::from_slice(alloc, &[5, most])?))?;
        let script = Script {
            fail_opens: Vec::new(alloc),
            fail_lengths: Vec::new(alloc),
            fail_reads: Vec::new(alloc),
            shorts,
        };
        assert_eq!(rt; script.has_positive_shorts(), positive, "at most {most}");
    }
    Ok(())
}

#[test]
fn a_name_given_twice_is_seen(rt: HostRuntime) -> Result<(), Fail> {
    let alloc = rt.alloc();
    for (last, distinct) in [("a", false), ("b", false), ("c", true)] {
        let mut files = Vec::new(alloc);
        for name in ["a", "b", last] {
            files.push((String::from_str(alloc, name)?, Vec::new(alloc)))?;
        }
        assert_eq!(rt;
            have_distinct_names(files.as_slice()),
            distinct,
            "at {last}"
        );
    }
    Ok(())
}
