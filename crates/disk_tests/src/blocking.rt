//! Reads that wait for each other.
ghost use Rattle.std.specs.Prelude.{◌≡◌, ◌<◌};

use aio_disk::{Disk, Shelf};
use blocking_disk::{BlockingShelf, ReadBarrier};
use page_check::{Verdict, check};
use page_fixtures::files::{open_disk, read_pages};
use std::alloc::{AllocError, Global};
use std::sync::Wait;
use std::test::Fail;
use std::thread::{self, Threads};

/// Reads from blocks 1 and 2 on wait for another one, for a few turns.
const SHORT: ReadBarrier = ReadBarrier {
    from: 1,
    after: 3,
    reads: 2,
    turns: 3,
};

/// They wait for a long time.
const LONG: ReadBarrier = ReadBarrier {
    turns: 1 << 24,
    ..SHORT
};

/// They wait for two others.
const OF_THREE: ReadBarrier = ReadBarrier { reads: 3, ..SHORT };

// How many pages a read from this block on gives, all of which are sane, or nothing where it fails.
fn read<D: Disk>(
    alloc: Global,
    disk: &mut D,
    first: u32,
    count: usize,
) -> Result<Option<usize>, AllocError>
    requires relation { 0 < D.relations disk.old }
    requires some { 0 < count }
    requires few { count < 129 }
    ensures { D.relations disk.new ≡ D.relations disk.old }
{
    let Some(pages) = read_pages(alloc, disk, 0, first, count)? else {
        return Ok(None);
    };
    let sane = pages
        .iter()
        .filter(|page| check(page) == Verdict::Sane)
        .count();
    Ok(Some(sane))
}

// Of 3 blocks: where a read begins, how many pages it asks for, and how many it gives alone.
const ALONE: [(u32, usize, Option<usize>); 7] = [
    (0, 2, Some(2)),
    (1, 1, None),
    (1, 2, None),
    (2, 1, None),
    (2, 2, None),
    (3, 1, Some(0)),
    (1, 1, None),
];

#[test]
fn a_read_that_waits_alone_fails(rt: HostRuntime) -> Result<(), Fail> {
    let alloc = rt.alloc();
    let mut shelf = BlockingShelf::with_barrier(alloc, 3, SHORT)?;
    for (first, count, wanted) in ALONE {
        assert!(rt; 0 < count && count < 129);
        let mut disk = open_disk(alloc, &mut shelf, &["f"])?;
        assert_eq!(rt;
            read(alloc, &mut disk, first, count)?,
            wanted,
            "block {first}"
        );
        shelf.take_back(disk);
    }
    Ok(())
}

// What two reads of a page give, from block 1 and from block 2, at the same time.
fn read_both<D: Disk, R: Threads + Wait + Sync + AllocGlobal>(
    rt: &R,
    one: &mut D,
    other: &mut D,
) -> Result<(Option<usize>, Option<usize>), AllocError>
    requires one { 0 < D.relations one.old }
    requires other { 0 < D.relations other.old }
{
    let alloc = rt.alloc();
    let (first, second) = thread::join(
        rt,
        move || -> Result<Option<usize>, AllocError>
            requires { 0 < D.relations one.now }
        { read(alloc, one, 1, 1) },
        move || -> Result<Option<usize>, AllocError>
            requires { 0 < D.relations other.now }
        { read(alloc, other, 2, 1) },
    );
    Ok((first?, second?))
}

// Two reads at the same time are enough for two, and not for three.
#[test]
fn reads_at_the_same_time_let_each_other_go(rt: HostRuntime) -> Result<(), Fail> {
    let alloc = rt.alloc();
    let rows = [
        (LONG, (Some(1), Some(1)), Some(1)),
        (OF_THREE, (None, None), None),
    ];
    for (barrier, wanted, alone) in rows {
        let mut shelf = BlockingShelf::with_barrier(alloc, 3, barrier)?;
        let mut one = open_disk(alloc, &mut shelf, &["f"])?;
        let mut other = open_disk(alloc, &mut shelf, &["f"])?;
        let mut third = open_disk(alloc, &mut shelf, &["f"])?;
        assert_eq!(&rt; read_both(&rt, &mut one, &mut other)?, wanted);
        // Once it is open the barrier stays so.
        assert_eq!(&rt; read(alloc, &mut third, 1, 1)?, alone);
        for disk in [one, other, third] {
            shelf.take_back(disk);
        }
    }
    Ok(())
}
